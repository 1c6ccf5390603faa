// The calls of a store, once their fault is a stop. All above speaks of these alone.
ghost use Rattle.std.specs.Prelude.{◌≡◌, true, is_some, OnOk, OnErr, IfOk, IfErr};
ghost use Rattle.std.specs.Option.{option_map};
ghost use Rattle.std.specs.FinMap.{get, entries, len};
ghost use Rattle.slon_base.specs.Keeper.{Store, sight, put_at, del_at, first, after};
ghost use Rattle.store_rows.specs.Spending.{PutsUpTo};
ghost use Rattle.store_rows.specs.Steps.{Safe, IsOutside};

use crate::Stop;
use slon_base::{Bytes, KeepFault, Keeper};

/// The value at a key.
#[tactic(auto, using(crate::proofs::Outcomes::call_laws))]
pub fn get_pair<K: Keeper>(keeper: &mut K, space: u8, key: &[u8]) -> Result<Option<Bytes>, Stop>
    ensures safe { Safe (K.kept keeper.old) (K.kept keeper.new) result }
    ensures puts { PutsUpTo 0 (K.kept keeper.old).puts (K.kept keeper.new).puts }
    ensures same { OnOk result ((K.kept keeper.new).pending ≡ (K.kept keeper.old).pending) }
    ensures only { IfErr result IsOutside }
    ensures gives { (m : Store) → sight (K.kept keeper.old) ≡ Some m → IfOk result
        (λ found. found ≡ get (m space) key.now) }
{
    match keeper.get(space, key) {
        Ok(found) => Ok(found),
        Err(KeepFault::Failed) => Err(Stop::Failed),
        Err(KeepFault::NoMemory) => Err(Stop::NoMemory),
    }
}

/// The pair with the least greater key.
#[tactic(auto, using(crate::proofs::Outcomes::call_laws))]
pub fn next_pair<K: Keeper>(
    keeper: &mut K,
    space: u8,
    key: &[u8],
) -> Result<Option<(Bytes, Bytes)>, Stop>
    ensures safe { Safe (K.kept keeper.old) (K.kept keeper.new) result }
    ensures puts { PutsUpTo 0 (K.kept keeper.old).puts (K.kept keeper.new).puts }
    ensures same { OnOk result ((K.kept keeper.new).pending ≡ (K.kept keeper.old).pending) }
    ensures only { IfErr result IsOutside }
    ensures gives { (m : Store) → sight (K.kept keeper.old) ≡ Some m → IfOk result
        (λ found. found ≡ first (after key.now (entries (m space)))) }
{
    match keeper.next_after(space, key) {
        Ok(found) => Ok(found),
        Err(KeepFault::Failed) => Err(Stop::Failed),
        Err(KeepFault::NoMemory) => Err(Stop::NoMemory),
    }
}

/// How many pairs the space has.
#[tactic(auto, using(crate::proofs::Outcomes::call_laws))]
pub fn count_pairs<K: Keeper>(keeper: &mut K, space: u8) -> Result<u64, Stop>
    ensures safe { Safe (K.kept keeper.old) (K.kept keeper.new) result }
    ensures puts { PutsUpTo 0 (K.kept keeper.old).puts (K.kept keeper.new).puts }
    ensures same { OnOk result ((K.kept keeper.new).pending ≡ (K.kept keeper.old).pending) }
    ensures only { IfErr result IsOutside }
    ensures gives { (m : Store) → sight (K.kept keeper.old) ≡ Some m → IfOk result (λ count. count ≡ len (m space)) }
{
    match keeper.count(space) {
        Ok(found) => Ok(found),
        Err(KeepFault::Failed) => Err(Stop::Failed),
        Err(KeepFault::NoMemory) => Err(Stop::NoMemory),
    }
}

/// Puts a value at a key into what is pending.
#[tactic(auto, using(crate::proofs::Outcomes::call_laws))]
pub fn put_pair<K: Keeper>(keeper: &mut K, space: u8, key: &[u8], value: &[u8]) -> Result<(), Stop>
    requires { is_some (K.kept keeper.old).pending ≡ true }
    ensures safe { Safe (K.kept keeper.old) (K.kept keeper.new) result }
    ensures puts { PutsUpTo 1 (K.kept keeper.old).puts (K.kept keeper.new).puts }
    ensures put { OnOk result ((K.kept keeper.new).pending ≡ option_map (option_map (put_at space key.now value.now))
        (K.kept keeper.old).pending) }
    ensures only { IfErr result IsOutside }
{
    match keeper.put(space, key, value) {
        Ok(()) => Ok(()),
        Err(KeepFault::Failed) => Err(Stop::Failed),
        Err(KeepFault::NoMemory) => Err(Stop::NoMemory),
    }
}

/// Takes the pair of a key out of what is pending.
#[tactic(auto, using(crate::proofs::Outcomes::call_laws))]
pub fn del_pair<K: Keeper>(keeper: &mut K, space: u8, key: &[u8]) -> Result<(), Stop>
    requires { is_some (K.kept keeper.old).pending ≡ true }
    ensures safe { Safe (K.kept keeper.old) (K.kept keeper.new) result }
    ensures puts { PutsUpTo 0 (K.kept keeper.old).puts (K.kept keeper.new).puts }
    ensures put { OnOk result ((K.kept keeper.new).pending ≡ option_map (option_map (del_at space key.now))
        (K.kept keeper.old).pending) }
    ensures only { IfErr result IsOutside }
{
    match keeper.del(space, key) {
        Ok(()) => Ok(()),
        Err(KeepFault::Failed) => Err(Stop::Failed),
        Err(KeepFault::NoMemory) => Err(Stop::NoMemory),
    }
}
