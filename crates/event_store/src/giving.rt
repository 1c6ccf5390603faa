// What a new node is given of the streams, in a copy of the store of another node.
ghost use Rattle.std.specs.Prelude.{◌≡◌, Some, true, is_some, OnOk, IfErr};
ghost use Rattle.std.specs.Option.{option_map};
ghost use Rattle.slon_base.specs.Keeper.{Store, sight};
ghost use Rattle.slon_base.specs.Codec.{AllAre};
ghost use Rattle.store_rows.specs.Rows.{IsId};
ghost use Rattle.store_rows.specs.Steps.{Safe, IsOutside, IsWithinLimit, IsOfSpace};
ghost use Rattle.store_rows.specs.Space.{IsPending, Becomes};
ghost use Rattle.event_store.specs.Formed.{Lacks, Reads};
ghost use Rattle.event_store.specs.Giving.{IsConfirmation, AreConfirmations, HearsOfOthers, IsCleared};
ghost use Rattle.event_store.specs.Giving.{turned, all_turned, forgets, passes};
ghost use Rattle.event_store.specs.Streams.{Streams, given};
ghost use Rattle.event_store.specs.Holds.{ShowsStreams};

use crate::layout::{CONFIRMATIONS, VIEWS};
use crate::telling::Confirmation;
use slon_base::{Keeper, Many};
use std::alloc::Global;
use store_rows::{Stop, count_pairs, del_pair, del_row, next_pair, put_row, scan_rows};

/// Takes the pairs of a space out of what is pending.
fn clear_space<K: Keeper>(keeper: &mut K, space: u8) -> Result<(), Stop>
    requires opened { is_some (K.kept keeper.old).pending ≡ true }
    ensures safe { Safe (K.kept keeper.old) (K.kept keeper.new) result }
    ensures only { IfErr result IsOutside }
    ensures clears { (m : Store) → (K.kept keeper.old).pending ≡ Some (Some m) →
        Becomes (IsCleared space m) (K.kept keeper.new) result }
{
    let limit = count_pairs(keeper, space)?;
    for _ in 0..limit {
        match next_pair(keeper, space, &[])? {
            None => return Ok(()),
            Some((key, _)) => del_pair(keeper, space, key.as_slice())?,
        }
    }
    Ok(())
}

/// A confirmation of a node by itself, or of the new node, is taken away.
fn forget<K: Keeper>(
    alloc: Global,
    keeper: &mut K,
    new: u32,
    row: &Confirmation,
) -> Result<(), Stop>
    requires opened { is_some (K.kept keeper.old).pending ≡ true }
    requires can { IsConfirmation row.now }
    ensures safe { Safe (K.kept keeper.old) (K.kept keeper.new) result }
    ensures only { IfErr result IsOutside }
    ensures put { OnOk result ((K.kept keeper.new).pending ≡
        option_map (option_map (turned (forgets new row.now))) (K.kept keeper.old).pending) }
{
    let (origin, node) = row.0;
    if node == new || node == origin {
        return del_row(alloc, keeper, CONFIRMATIONS, &row.0);
    }
    Ok(())
}

/// As far as the node `own` is, the new node is.
fn pass<K: Keeper>(
    alloc: Global,
    keeper: &mut K,
    own: u32,
    new: u32,
    row: &Confirmation,
) -> Result<(), Stop>
    requires opened { is_some (K.kept keeper.old).pending ≡ true }
    requires can { IsId new × IsConfirmation row.now }
    ensures safe { Safe (K.kept keeper.old) (K.kept keeper.new) result }
    ensures only { IfErr result IsOutside }
    ensures put { OnOk result ((K.kept keeper.new).pending ≡
        option_map (option_map (turned (passes own new row.now))) (K.kept keeper.old).pending) }
{
    let (origin, node) = row.0;
    if node == own {
        return put_row(alloc, keeper, CONFIRMATIONS, &(origin, new), &row.1);
    }
    Ok(())
}

fn forget_all<K: Keeper>(
    alloc: Global,
    keeper: &mut K,
    new: u32,
    rows: &[Confirmation],
) -> Result<(), Stop>
    requires opened { is_some (K.kept keeper.old).pending ≡ true }
    requires can { AllAre IsConfirmation rows.now }
    ensures safe { Safe (K.kept keeper.old) (K.kept keeper.new) result }
    ensures only { IfErr result IsOutside }
    ensures put { OnOk result ((K.kept keeper.new).pending ≡
        option_map (option_map (all_turned (forgets new) rows.now)) (K.kept keeper.old).pending) }
{
    for row in rows {
        forget(alloc, keeper, new, row)?;
    }
    Ok(())
}

fn pass_all<K: Keeper>(
    alloc: Global,
    keeper: &mut K,
    own: u32,
    new: u32,
    rows: &[Confirmation],
) -> Result<(), Stop>
    requires opened { is_some (K.kept keeper.old).pending ≡ true }
    requires can { IsId new × AllAre IsConfirmation rows.now }
    ensures safe { Safe (K.kept keeper.old) (K.kept keeper.new) result }
    ensures only { IfErr result IsOutside }
    ensures put { OnOk result ((K.kept keeper.new).pending ≡
        option_map (option_map (all_turned (passes own new) rows.now)) (K.kept keeper.old).pending) }
{
    for row in rows {
        pass(alloc, keeper, own, new, row)?;
    }
    Ok(())
}

/// Makes of what is pending the streams that the new node is given, where it is a copy of the store of the node `own`.
/// The new node is as far as that one in each stream, holds the same events, knows how far the others and that one are,
/// and subscribes to nothing. No other node may have told that one how far it is itself.
///
/// # Errors
///
/// `BadRow` of space 11 exactly where the rows of how far nodes are in streams are not in their form, what stopped the
/// store, and `NoMemory`.
pub fn give_streams<K: Keeper>(
    alloc: Global,
    keeper: &mut K,
    own: u32,
    new: u32,
) -> Result<(), Stop>
    requires opened { is_some (K.kept keeper.old).pending ≡ true }
    requires can { IsId own × IsId new }
    ensures safe { Safe (K.kept keeper.old) (K.kept keeper.new) result }
    ensures within { IfErr result IsWithinLimit }
    ensures space { IfErr result (IsOfSpace 11) }
    ensures turns { (base : Store) (s : Streams) → s.own ≡ own → HearsOfOthers s →
        IsPending (ShowsStreams base s) (K.kept keeper.old) →
        Becomes (ShowsStreams base (given new s)) (K.kept keeper.new) result }
    ensures form { (m : Store) → sight (K.kept keeper.old) ≡ Some m →
        Reads (Lacks 11 (AreConfirmations m)) result }
{
    let rows: Many<Confirmation> = scan_rows(alloc, keeper, CONFIRMATIONS, &[], &[])?;
    clear_space(keeper, VIEWS)?;
    forget_all(alloc, keeper, new, rows.as_slice())?;
    pass_all(alloc, keeper, own, new, rows.as_slice())
}
