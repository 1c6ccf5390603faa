// Rows of any kind, put, taken away and read.
ghost use Rattle.std.specs.Prelude.{◌≡◌, [], Bool, true, false, is_some, Option, Some, OnOk, IfOk, IfErr};
ghost use Rattle.std.specs.Option.{option_map};
ghost use Rattle.std.specs.FinMap.{get};
ghost use Rattle.slon_base.specs.Keeper.{Store, sight, put_at, del_at};
ghost use Rattle.store_rows.specs.Spending.{PutsUpTo};
ghost use Rattle.store_rows.specs.Steps.{Safe, IsOutside, IsWithinLimit, IsOfSpace, Gives, is_failed, is_stop_failed};
ghost use Rattle.store_rows.specs.Space.{AllOf};

use crate::calls::{del_pair, get_pair, put_pair};
use crate::{Spelled, Stop};
use slon_base::{Bytes, Keeper, RowFault, RowIn, RowOut};
use std::alloc::{AllocError, Global};

/// For how many bytes there is room before a value is spelled. Most keys and rows have fewer.
const ROOM: usize = 128;

/// Spells a value alone.
pub fn spelling<X: Spelled>(alloc: Global, value: &X) -> Result<Bytes, AllocError>
    requires { X.Can value.now }
    ensures { IfOk result (λ b. b ≡ X.bytes value.now) }
{
    let mut out = RowOut::with_capacity(alloc, ROOM)?;
    value.spell(&mut out)?;
    Ok(out.finish())
}

/// Why work stops at a row of a space.
pub fn row_stop(space: u8, fault: RowFault) -> Stop
    ensures memory { fault ≡ RowFault.NoMemory → result ≡ Stop.NoMemory }
    ensures failed { is_stop_failed result ≡ false }
    ensures within { IsWithinLimit result }
    ensures space { IsOfSpace space result }
{
    match fault {
        RowFault::NoMemory => Stop::NoMemory,
        RowFault::Short | RowFault::Trailing | RowFault::NotCanonical => Stop::BadRow { space },
    }
}

/// Reads a value that stands alone.
pub fn read_alone<X: Spelled>(alloc: Global, space: u8, bytes: &[u8]) -> Result<X, Stop>
    ensures never { is_failed result ≡ false }
    ensures within { IfErr result IsWithinLimit }
    ensures space { IfErr result (IsOfSpace space) }
    ensures can { IfOk result X.Can }
    ensures found { IfOk result (λ x. bytes.now ≡ X.bytes x) }
    ensures gives { (x : X) → X.Can x → bytes.now ≡ X.bytes x → Gives (λ found. found ≡ x) result }
{
    let mut row = RowIn::new(bytes);
    match X::read(alloc, &mut row) {
        Ok(value) => match row.end() {
            Ok(()) => Ok(value),
            Err(fault) => Err(row_stop(space, fault)),
        },
        Err(fault) => Err(row_stop(space, fault)),
    }
}

/// Room in which rows are spelled.
pub fn row_room(alloc: Global) -> Result<RowOut, AllocError>
    ensures { IfOk result (λ row. row ≡ []) }
{
    RowOut::with_capacity(alloc, ROOM)
}

/// Puts a row into what is pending.
pub fn put_row<K: Keeper, I: Spelled, X: Spelled>(
    alloc: Global,
    keeper: &mut K,
    space: u8,
    key: &I,
    value: &X,
) -> Result<(), Stop>
    requires opened { is_some (K.kept keeper.old).pending ≡ true }
    requires key { I.Can key.now }
    requires value { X.Can value.now }
    ensures safe { Safe (K.kept keeper.old) (K.kept keeper.new) result }
    ensures puts { PutsUpTo 1 (K.kept keeper.old).puts (K.kept keeper.new).puts }
    ensures put { OnOk result ((K.kept keeper.new).pending ≡ option_map (option_map (put_at space (I.bytes key.now)
        (X.bytes value.now))) (K.kept keeper.old).pending) }
    ensures only { IfErr result IsOutside }
{
    put_row_in(&mut row_room(alloc)?, keeper, space, key, value)
}

/// The same, spelled in this room, so that many rows need memory for that once.
pub fn put_row_in<K: Keeper, I: Spelled, X: Spelled>(
    room: &mut RowOut,
    keeper: &mut K,
    space: u8,
    key: &I,
    value: &X,
) -> Result<(), Stop>
    requires opened { is_some (K.kept keeper.old).pending ≡ true }
    requires key { I.Can key.now }
    requires value { X.Can value.now }
    ensures safe { Safe (K.kept keeper.old) (K.kept keeper.new) result }
    ensures puts { PutsUpTo 1 (K.kept keeper.old).puts (K.kept keeper.new).puts }
    ensures put { OnOk result ((K.kept keeper.new).pending ≡ option_map (option_map (put_at space (I.bytes key.now)
        (X.bytes value.now))) (K.kept keeper.old).pending) }
    ensures only { IfErr result IsOutside }
{
    // Both are spelled one behind the other, as memory for one costs less than for two.
    room.clear();
    key.spell(room)?;
    let len = room.len();
    value.spell(room)?;
    let (key, value) = room.as_slice().split_at(len);
    put_pair(keeper, space, key, value)
}

/// Takes a row out of what is pending.
pub fn del_row<K: Keeper, I: Spelled>(
    alloc: Global,
    keeper: &mut K,
    space: u8,
    key: &I,
) -> Result<(), Stop>
    requires opened { is_some (K.kept keeper.old).pending ≡ true }
    requires key { I.Can key.now }
    ensures safe { Safe (K.kept keeper.old) (K.kept keeper.new) result }
    ensures puts { PutsUpTo 0 (K.kept keeper.old).puts (K.kept keeper.new).puts }
    ensures put { OnOk result ((K.kept keeper.new).pending ≡ option_map (option_map (del_at space (I.bytes key.now)))
        (K.kept keeper.old).pending) }
    ensures only { IfErr result IsOutside }
{
    let key = spelling(alloc, key)?;
    del_pair(keeper, space, key.as_slice())
}

/// Reads the row at a key, if there is one.
#[tactic(auto, using(crate::proofs::Causes::outside_within, crate::proofs::Causes::outside_space))]
pub fn get_row<K: Keeper, I: Spelled, X: Spelled>(
    alloc: Global,
    keeper: &mut K,
    space: u8,
    key: &I,
) -> Result<Option<X>, Stop>
    requires key { I.Can key.now }
    ensures safe { Safe (K.kept keeper.old) (K.kept keeper.new) result }
    ensures puts { PutsUpTo 0 (K.kept keeper.old).puts (K.kept keeper.new).puts }
    ensures same { OnOk result ((K.kept keeper.new).pending ≡ (K.kept keeper.old).pending) }
    ensures within { IfErr result IsWithinLimit }
    ensures space { IfErr result (IsOfSpace space) }
    ensures can { IfOk result (AllOf X.Can) }
    ensures found { (m : Store) → sight (K.kept keeper.old) ≡ Some m →
        IfOk result (λ found. get (m space) (I.bytes key.now) ≡ option_map X.bytes found) }
    ensures gives { (m : Store) (entry : Option X) → sight (K.kept keeper.old) ≡ Some m → AllOf X.Can entry →
        get (m space) (I.bytes key.now) ≡ option_map X.bytes entry → Gives (λ found. found ≡ entry) result }
{
    let key = spelling(alloc, key)?;
    match get_pair(keeper, space, key.as_slice())? {
        None => Ok(None),
        Some(bytes) => match read_alone(alloc, space, bytes.as_slice()) {
            Ok(value) => Ok(Some(value)),
            Err(stop) => Err(stop),
        },
    }
}

/// Whether there is a row at a key.
pub fn has_row<K: Keeper, I: Spelled>(
    alloc: Global,
    keeper: &mut K,
    space: u8,
    key: &I,
) -> Result<bool, Stop>
    requires key { I.Can key.now }
    ensures safe { Safe (K.kept keeper.old) (K.kept keeper.new) result }
    ensures puts { PutsUpTo 0 (K.kept keeper.old).puts (K.kept keeper.new).puts }
    ensures same { OnOk result ((K.kept keeper.new).pending ≡ (K.kept keeper.old).pending) }
    ensures only { IfErr result IsOutside }
    ensures gives { (m : Store) → sight (K.kept keeper.old) ≡ Some m → IfOk result
        (λ found. found ≡ is_some (get (m space) (I.bytes key.now))) }
{
    let key = spelling(alloc, key)?;
    let found = get_pair(keeper, space, key.as_slice())?;
    Ok(found.is_some())
}
