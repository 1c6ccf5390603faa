// What a node tells another one of how far nodes are in the streams, and what that one takes of it.
ghost use Rattle.std.specs.Prelude.{◌≡◌, Some, true, is_some, [], map, filter, OnOk, IfOk, IfErr};
ghost use Rattle.std.specs.FinMap.{entries};
ghost use Rattle.slon_base.specs.Codec.{number_bytes, AllAre};
ghost use Rattle.slon_base.specs.Keeper.{Store, sight, after};
ghost use Rattle.slon_model.specs.Deeds.{heard};
ghost use Rattle.store_rows.specs.Rows.{IsId};
ghost use Rattle.store_rows.specs.Scan.{ranged, spelled_rows};
ghost use Rattle.store_rows.specs.Space.{IsPending, Becomes};
ghost use Rattle.store_rows.specs.Steps.{Safe, IsWithinLimit, IsOfSpace, Gives};
ghost use Rattle.set_config.specs.Holds.{pair_key};
ghost use Rattle.event_store.specs.Formed.{Lacks, Reads};
ghost use Rattle.event_store.specs.Giving.{IsConfirmation, AreConfirmations, HearsOfOthers};
ghost use Rattle.event_store.specs.Holds.{HoldsStreams, ShowsStreams};
ghost use Rattle.event_store.specs.Ordered.{IsOrdered, AreOrdered};
ghost use Rattle.event_store.specs.Streams.{Streams};
ghost use Rattle.event_store.specs.Telling.{confirmations_of, is_news, IsOfOther, named, AreRaised};
ghost use Rattle.event_store.specs.Telling.{HandedRow, HandedRows};

use crate::hearing::{confirm, confirmed};
use crate::layout::CONFIRMATIONS;
use slon_base::{Keeper, Many};
use std::alloc::Global;
use store_rows::{Stop, scan_rows};

/// How far a node is in the stream of an origin: the ids of the origin and of the node, and the number of an event.
pub type Confirmation = ((u32, u32), u64);

/// How far each node is in the stream of each origin, as the store has it, ascending by origin and node.
///
/// # Errors
///
/// `BadRow` of space 11 exactly where the rows of how far nodes are in streams are not in their form, what stopped the
/// store, and `NoMemory`.
pub fn confirmations<K: Keeper>(alloc: Global, keeper: &mut K) -> Result<Many<Confirmation>, Stop>
    ensures safe { Safe (K.kept keeper.old) (K.kept keeper.new) result }
    ensures same { OnOk result ((K.kept keeper.new).pending ≡ (K.kept keeper.old).pending) }
    ensures within { IfErr result IsWithinLimit }
    ensures space { IfErr result (IsOfSpace 11) }
    ensures can { IfOk result (AllAre IsConfirmation) }
    // What is answered are all rows of the space, in whatever store they are found,
    ensures found { (m : Store) → sight (K.kept keeper.old) ≡ Some m → IfOk result (λ rows.
        ranged [] (after [] (entries (m 11))) ≡ spelled_rows [] pair_key number_bytes rows) }
    // and in a store that holds the streams of a node these are all that the node knows.
    ensures says { (m : Store) (s : Streams) → sight (K.kept keeper.old) ≡ Some m → HoldsStreams s m →
        IsId s.own → HearsOfOthers s → IsOrdered s.progress → AreOrdered s.told →
        Gives (λ rows. rows ≡ confirmations_of s) result }
    ensures form { (m : Store) → sight (K.kept keeper.old) ≡ Some m →
        Reads (Lacks 11 (AreConfirmations m)) result }
{
    scan_rows(alloc, keeper, CONFIRMATIONS, &[], &[])
}

/// Whether a confirmation is news for the node `own`.
fn is_news<K: Keeper>(
    alloc: Global,
    keeper: &mut K,
    own: u32,
    row: &Confirmation,
) -> Result<bool, Stop>
    requires can { IsConfirmation row.now }
    ensures safe { Safe (K.kept keeper.old) (K.kept keeper.new) result }
    ensures same { OnOk result ((K.kept keeper.new).pending ≡ (K.kept keeper.old).pending) }
    ensures within { IfErr result IsWithinLimit }
    ensures space { IfErr result (IsOfSpace 11) }
    ensures says { (m : Store) (s : Streams) → sight (K.kept keeper.old) ≡ Some m → s.own ≡ own →
        HoldsStreams s m → Gives (λ found. found ≡ is_news s row.now) result }
    ensures other { IfOk result (λ found. found ≡ true → IsOfOther own row.now) }
    ensures form { (m : Store) → sight (K.kept keeper.old) ≡ Some m → Reads (HandedRow m own row.now) result }
{
    let (origin, node) = row.0;
    if node == origin || node == own {
        return Ok(false);
    }
    Ok(confirmed(alloc, keeper, origin, node)? < row.1)
}

/// Those of these confirmations that are news for the node `own`, of which the store is: of other nodes than that one
/// and than the origin of the stream, and with a number above the one that the store has.
///
/// # Errors
///
/// `BadRow` of space 11 exactly where a row that is read for that is not in its form, what stopped the store, and
/// `NoMemory`.
pub fn news<K: Keeper>(
    alloc: Global,
    keeper: &mut K,
    own: u32,
    rows: &[Confirmation],
) -> Result<Many<Confirmation>, Stop>
    requires can { AllAre IsConfirmation rows.now }
    ensures safe { Safe (K.kept keeper.old) (K.kept keeper.new) result }
    ensures same { OnOk result ((K.kept keeper.new).pending ≡ (K.kept keeper.old).pending) }
    ensures within { IfErr result IsWithinLimit }
    ensures space { IfErr result (IsOfSpace 11) }
    ensures kept { IfOk result (AllAre IsConfirmation) }
    ensures others { IfOk result (AllAre (IsOfOther own)) }
    ensures says { (m : Store) (s : Streams) → sight (K.kept keeper.old) ≡ Some m → s.own ≡ own →
        HoldsStreams s m → Gives (λ found. found ≡ filter (is_news s) rows.now) result }
    ensures form { (m : Store) → sight (K.kept keeper.old) ≡ Some m → Reads (HandedRows m own rows.now) result }
{
    let mut found = Many::new(alloc);
    for row in rows {
        if is_news(alloc, keeper, own, row)? {
            found.push(*row)?;
        }
    }
    Ok(found)
}

/// The node `own` is told each of these confirmations of other nodes, one after the other. From then on what is
/// pending has for each of them the greatest number of all that it was told and of what stood there before.
///
/// # Errors
///
/// `BadRow` of space 11 exactly where the row of how far one of these nodes is is not in its form, what stopped the
/// store, and `NoMemory`.
pub fn confirm_all<K: Keeper>(
    alloc: Global,
    keeper: &mut K,
    own: u32,
    rows: &[Confirmation],
) -> Result<(), Stop>
    requires opened { is_some (K.kept keeper.old).pending ≡ true }
    requires rows { AllAre (IsOfOther own) rows.now }
    ensures safe { Safe (K.kept keeper.old) (K.kept keeper.new) result }
    ensures within { IfErr result IsWithinLimit }
    ensures space { IfErr result (IsOfSpace 11) }
    ensures turns { (base : Store) (s : Streams) → s.own ≡ own →
        IsPending (ShowsStreams base s) (K.kept keeper.old) →
        Becomes (ShowsStreams base (record s { told = heard (map named rows.now) s.told })) (K.kept keeper.new)
        result }
    // No number falls, in whatever store it stands.
    ensures raises { (m : Store) → (K.kept keeper.old).pending ≡ Some (Some m) → IfOk result
        (λ done. IsPending (AreRaised rows.now m) (K.kept keeper.new)) }
    ensures form { (m : Store) → sight (K.kept keeper.old) ≡ Some m → Reads (HandedRows m own rows.now) result }
{
    for row in rows {
        let (origin, node) = row.0;
        confirm(alloc, keeper, own, origin, node, row.1)?;
    }
    Ok(())
}
