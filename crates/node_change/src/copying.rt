// Pairs of one store, copied into another.
ghost use Rattle.std.specs.Prelude.{◌≡◌, [], Some, true, is_some, OnOk, IfErr};
ghost use Rattle.std.specs.Option.{option_map};
ghost use Rattle.slon_base.specs.Keeper.{Store, sight};
ghost use Rattle.store_rows.specs.Scan.{key_of};
ghost use Rattle.store_rows.specs.Steps.{IsOutside};
ghost use Rattle.node_change.specs.Both.{SafeBoth};
ghost use Rattle.node_change.specs.Pairs.{put_pairs, pairs_of, copied};

use crate::side::{Failed, Side, sided};
use slon_base::{Bytes, Keeper};
use store_rows::{count_pairs, next_pair, put_pair};

/// The key of a pair, or that of no byte where there is none.
fn key_of(pair: &Option<(Bytes, Bytes)>) -> &[u8]
    ensures { result.now ≡ key_of pair.now [] }
{
    match pair {
        Some((key, _)) => key.as_slice(),
        None => &[],
    }
}

/// Puts the pairs of a space of one store into what is pending in another one.
fn copy_space<F: Keeper, T: Keeper>(from: &mut F, to: &mut T, space: u8) -> Result<(), Failed>
    requires opened { is_some (T.kept to.old).pending ≡ true }
    ensures safe { SafeBoth (F.kept from.old) (F.kept from.new) (T.kept to.old) (T.kept to.new) result }
    ensures same { OnOk result ((F.kept from.new).pending ≡ (F.kept from.old).pending) }
    ensures only { IfErr result (λ f. IsOutside f.stop) }
    ensures put { (m : Store) → sight (F.kept from.old) ≡ Some m → OnOk result ((T.kept to.new).pending ≡
        option_map (option_map (put_pairs space (pairs_of (m space)))) (T.kept to.old).pending) }
{
    let limit = sided(Side::From, count_pairs(from, space))?;
    // The last pair stays where it came, since to move its bytes costs as much as to read them.
    let mut last = None;
    for _ in 0..limit {
        last = sided(Side::From, next_pair(from, space, key_of(&last)))?;
        match &last {
            None => return Ok(()),
            Some((key, value)) => sided(
                Side::To,
                put_pair(to, space, key.as_slice(), value.as_slice()),
            )?,
        }
    }
    Ok(())
}

/// Puts the pairs of these spaces of one store into what is pending in another one.
pub(crate) fn copy_spaces<F: Keeper, T: Keeper>(
    from: &mut F,
    to: &mut T,
    spaces: &[u8],
) -> Result<(), Failed>
    requires opened { is_some (T.kept to.old).pending ≡ true }
    ensures safe { SafeBoth (F.kept from.old) (F.kept from.new) (T.kept to.old) (T.kept to.new) result }
    ensures same { OnOk result ((F.kept from.new).pending ≡ (F.kept from.old).pending) }
    ensures only { IfErr result (λ f. IsOutside f.stop) }
    ensures put { (m : Store) → sight (F.kept from.old) ≡ Some m → OnOk result ((T.kept to.new).pending ≡
        option_map (option_map (copied spaces.now m)) (T.kept to.old).pending) }
{
    for space in spaces {
        copy_space(from, to, *space)?;
    }
    Ok(())
}
