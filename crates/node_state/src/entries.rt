// What is read of a store: one value, or all rows of a space.
ghost use Rattle.std.specs.Prelude.{◌≡◌, [], List, ℕ, Option, Some, OnOk, IfOk, IfErr};
ghost use Rattle.std.specs.Option.{option_map};
ghost use Rattle.std.specs.FinMap.{get, entries};
ghost use Rattle.slon_base.specs.Codec.{number_bytes, AllAre};
ghost use Rattle.slon_base.specs.Keeper.{Store, sight, after};
ghost use Rattle.store_rows.specs.Rows.{IsId};
ghost use Rattle.store_rows.specs.Scan.{spelled_rows};
ghost use Rattle.store_rows.specs.Space.{AllOf};
ghost use Rattle.store_rows.specs.Steps.{Safe, IsWithinLimit, IsOfSpace, Gives};
ghost use Rattle.event_store.specs.Formed.{Lacks, Reads};
ghost use Rattle.node_state.specs.Handed.{AreRowsOf};

use slon_base::{Keeper, Many};
use std::alloc::Global;
use store_rows::{Spelled, Stop, get_pair, read_alone, scan_rows};

/// The value at a key, if there is one.
#[tactic(auto, using(store_rows::proofs::Causes::outside_within, store_rows::proofs::Causes::outside_space))]
pub(crate) fn get_entry<K: Keeper, X: Spelled>(
    alloc: Global,
    keeper: &mut K,
    space: u8,
    key: &[u8],
) -> Result<Option<X>, Stop>
    ensures safe { Safe (K.kept keeper.old) (K.kept keeper.new) result }
    ensures same { OnOk result ((K.kept keeper.new).pending ≡ (K.kept keeper.old).pending) }
    ensures within { IfErr result IsWithinLimit }
    ensures space { IfErr result (IsOfSpace space) }
    ensures can { IfOk result (AllOf X.Can) }
    ensures found { (m : Store) → sight (K.kept keeper.old) ≡ Some m →
        IfOk result (λ found. get (m space) key.now ≡ option_map X.bytes found) }
    ensures gives { (m : Store) (entry : Option X) → sight (K.kept keeper.old) ≡ Some m → AllOf X.Can entry →
        get (m space) key.now ≡ option_map X.bytes entry → Gives (λ found. found ≡ entry) result }
{
    match get_pair(keeper, space, key)? {
        None => Ok(None),
        Some(bytes) => match read_alone(alloc, space, bytes.as_slice()) {
            Ok(value) => Ok(Some(value)),
            Err(stop) => Err(stop),
        },
    }
}

/// All rows of a space that has ids as keys, ascending.
///
/// # Errors
///
/// `BadRow` of the space exactly where a row there is not in its form, what stopped the store, and `NoMemory`.
pub fn all_rows<K: Keeper, X: Spelled>(
    alloc: Global,
    keeper: &mut K,
    space: u8,
) -> Result<Many<(u32, X)>, Stop>
    ensures safe { Safe (K.kept keeper.old) (K.kept keeper.new) result }
    ensures same { OnOk result ((K.kept keeper.new).pending ≡ (K.kept keeper.old).pending) }
    ensures within { IfErr result IsWithinLimit }
    ensures can { IfOk result (AllAre (λ e. IsId e.0 × X.Can e.1)) }
    ensures found { (m : Store) → sight (K.kept keeper.old) ≡ Some m →
        IfOk result (λ rows. after [] (entries (m space)) ≡ spelled_rows [] number_bytes X.bytes rows) }
    ensures gives { (m : Store) (rows : List (ℕ × X)) → sight (K.kept keeper.old) ≡ Some m →
        AllAre (λ e. IsId e.0 × X.Can e.1) rows →
        after [] (entries (m space)) ≡ spelled_rows [] number_bytes X.bytes rows →
        Gives (λ found. found ≡ rows) result }
    ensures form { (m : Store) → sight (K.kept keeper.old) ≡ Some m →
        Reads (Lacks space (AreRowsOf X.bytes X.Can space m)) result }
{
    scan_rows(alloc, keeper, space, &[], &[])
}
