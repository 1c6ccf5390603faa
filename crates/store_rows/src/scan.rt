// The rows of a space whose keys begin with a prefix, from a key on.
ghost use Rattle.std.specs.Prelude.{◌≡◌, Some, List, OnOk, IfOk, IfErr, false};
ghost use Rattle.std.specs.FinMap.{entries};
ghost use Rattle.slon_base.specs.Keeper.{Store, sight, after};
ghost use Rattle.slon_base.specs.Codec.{AllAre};
ghost use Rattle.store_rows.specs.Spending.{PutsUpTo};
ghost use Rattle.store_rows.specs.Steps.{Safe, IsWithinLimit, IsOfSpace, Gives, is_failed};
ghost use Rattle.store_rows.specs.Scan.{key_of, ranged, spelled_rows};

use crate::calls::{count_pairs, next_pair};
use crate::stored_rows::read_alone;
use crate::{Spelled, Stop};
use slon_base::{Bytes, Keeper, Many, begin_with};
use std::alloc::Global;

/// For at most how many rows there is room before the first is read.
const MOST_ROOM: u64 = 128;

fn read_pair<I: Spelled, X: Spelled>(
    alloc: Global,
    space: u8,
    key: &[u8],
    value: &[u8],
) -> Result<(I, X), Stop>
    ensures never { is_failed result ≡ false }
    ensures within { IfErr result IsWithinLimit }
    ensures space { IfErr result (IsOfSpace space) }
    ensures can { IfOk result (λ row. I.Can row.0 × X.Can row.1) }
    ensures found { IfOk result (λ row. (key.now ≡ I.bytes row.0) × (value.now ≡ X.bytes row.1)) }
    ensures gives { (i : I) (x : X) → I.Can i → X.Can x → key.now ≡ I.bytes i → value.now ≡ X.bytes x →
        Gives (λ found. found ≡ (i, x)) result }
{
    match read_alone(alloc, space, key) {
        Ok(key) => match read_alone(alloc, space, value) {
            Ok(value) => Ok((key, value)),
            Err(stop) => Err(stop),
        },
        Err(stop) => Err(stop),
    }
}

/// The key of a pair, or `from` where there is none.
fn key_of<'a>(pair: &'a Option<(Bytes, Bytes)>, from: &'a [u8]) -> &'a [u8]
    ensures { result.now ≡ key_of pair.now from.now }
{
    match pair {
        Some((key, _)) => key.as_slice(),
        None => from,
    }
}

/// The rows whose keys have the prefix and come after the key `from`, ascending, by what stands behind the prefix.
#[tactic(auto, using(crate::proofs::Causes::outside_within, crate::proofs::Causes::outside_space))]
pub fn scan_rows<K: Keeper, I: Spelled, X: Spelled>(
    alloc: Global,
    keeper: &mut K,
    space: u8,
    prefix: &[u8],
    from: &[u8],
) -> Result<Many<(I, X)>, Stop>
    ensures safe { Safe (K.kept keeper.old) (K.kept keeper.new) result }
    ensures puts { PutsUpTo 0 (K.kept keeper.old).puts (K.kept keeper.new).puts }
    ensures same { OnOk result ((K.kept keeper.new).pending ≡ (K.kept keeper.old).pending) }
    ensures within { IfErr result IsWithinLimit }
    ensures space { IfErr result (IsOfSpace space) }
    ensures can { IfOk result (AllAre (λ e. I.Can e.0 × X.Can e.1)) }
    ensures found { (m : Store) → sight (K.kept keeper.old) ≡ Some m → IfOk result (λ rows.
        AllAre (λ e. I.Can e.0 × X.Can e.1) rows
        × (ranged prefix.now (after from.now (entries (m space))) ≡ spelled_rows prefix.now I.bytes X.bytes rows)) }
    ensures gives { (m : Store) (rows : List (I × X)) → sight (K.kept keeper.old) ≡ Some m →
        AllAre (λ e. I.Can e.0 × X.Can e.1) rows →
        ranged prefix.now (after from.now (entries (m space))) ≡ spelled_rows prefix.now I.bytes X.bytes rows →
        Gives (λ found. found ≡ rows) result }
{
    let limit = count_pairs(keeper, space)?;
    let mut found = Many::with_capacity(alloc, limit.min(MOST_ROOM) as usize)?;
    // The last pair stays where it came, since to move its bytes costs as much as to read them.
    let mut last = None;
    for _ in 0..limit {
        last = next_pair(keeper, space, key_of(&last, from))?;
        match &last {
            None => return Ok(found),
            Some((key, value)) => {
                if !begin_with(key.as_slice(), prefix) {
                    return Ok(found);
                }
                let (_, rest) = key.as_slice().split_at(prefix.len());
                match read_pair(alloc, space, rest, value.as_slice()) {
                    Ok(row) => found.push(row)?,
                    Err(stop) => return Err(stop),
                }
            }
        }
    }
    Ok(found)
}
