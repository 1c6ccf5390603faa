// What a node has of the streams: events that it emits and meets, how far it is, and the events that it holds.
ghost use Rattle.std.specs.Prelude.{◌≡◌, ℕ, Some, true, is_some, OnOk, IfOk, IfErr};
ghost use Rattle.std.specs.Option.{option_map};
ghost use Rattle.std.specs.FinMap.{get};
ghost use Rattle.slon_base.specs.Keeper.{Store, sight};
ghost use Rattle.slon_base.specs.Codec.{number_bytes};
ghost use Rattle.store_rows.specs.Rows.{IsId};
ghost use Rattle.store_rows.specs.Spending.{PutsUpTo};
ghost use Rattle.store_rows.specs.Steps.{Safe, IsOutside, IsWithinLimit, IsOfSpace, Gives};
ghost use Rattle.store_rows.specs.Space.{IsPending, Becomes, AllOf};
ghost use Rattle.slon_model.specs.Maps.{entry_at};
ghost use Rattle.node_rows.specs.Spellings.{CanBody};
ghost use Rattle.txn_core.specs.Snapshots.{seen_as};
ghost use Rattle.event_store.specs.Emitting.{EmitsNext, IsEmitStop};
ghost use Rattle.set_config.specs.Holds.{pair_key};
ghost use Rattle.event_store.specs.Seen.{seen_event, event_by};
ghost use Rattle.event_store.specs.Spellings.{IsStored, event_bytes, CanSnapshot};
ghost use Rattle.event_store.specs.Streams.{Streams, event_at, emitted};
ghost use Rattle.event_store.specs.Holds.{HoldsStreams, ShowsStreams};
ghost use Rattle.event_store.specs.Formed.{HasProgress, HasEvent, Lacks, Reads, ReadsBelow};

use crate::event::{Event, EventRow};
use crate::hearing::find_confirmed;
use crate::layout::EVENTS;
use crate::writing::write_event;
use node_rows::Body;
use slon_base::{Keeper, STORED_LIMIT};
use std::alloc::Global;
use store_rows::{Stop, get_row};
use txn_core::Snapshot;

/// The node emits an event with this body, which gets its next number: one more than that of its last event, or 1. From
/// then on the node holds the event and is as far as that in its own stream, in what is pending. The snapshot is one
/// that was taken in the transaction that emits the event.
///
/// # Errors
///
/// `TooBig` of space 10 exactly where no number is left, and then nothing is changed; `BadRow` of space 11 exactly
/// where the row of how far the node is in its own stream is not in its form; what stopped the store, and `NoMemory`.
pub fn emit<K: Keeper>(
    alloc: Global,
    keeper: &mut K,
    own: u32,
    taken: &Snapshot,
    body: &Body,
) -> Result<u64, Stop>
    requires opened { is_some (K.kept keeper.old).pending ≡ true }
    requires own { IsId own }
    requires can { CanSnapshot (seen_as taken.now) × CanBody body.now }
    ensures safe { Safe (K.kept keeper.old) (K.kept keeper.new) result }
    ensures small { IfOk result IsStored }
    ensures stops { IfErr result IsEmitStop }
    ensures turns { (base : Store) (s : Streams) → s.own ≡ own →
        IsPending (ShowsStreams base s) (K.kept keeper.old) →
        EmitsNext base s (λ number. event_by own number taken.now body.now) (K.kept keeper.old) (K.kept keeper.new)
        result }
    ensures form { (m : Store) → sight (K.kept keeper.old) ≡ Some m →
        ReadsBelow (Lacks 11 (HasProgress own own m)) result }
{
    let number = progress(alloc, keeper, own, own)?.unwrap_or(0) + 1;
    if number > STORED_LIMIT {
        return Err(Stop::TooBig { space: EVENTS });
    }
    write_event(alloc, keeper, own, (own, number), taken, body)?;
    Ok(number)
}

/// The node `own` meets an event, and holds it from then on, in what is pending.
///
/// # Errors
///
/// What stopped the store, and `NoMemory`.
pub fn store<K: Keeper>(alloc: Global, keeper: &mut K, own: u32, event: &Event) -> Result<(), Stop>
    requires opened { is_some (K.kept keeper.old).pending ≡ true }
    requires own { IsId own }
    ensures safe { Safe (K.kept keeper.old) (K.kept keeper.new) result }
    ensures puts { PutsUpTo 3 (K.kept keeper.old).puts (K.kept keeper.new).puts }
    ensures only { IfErr result IsOutside }
    ensures turns { (base : Store) (s : Streams) → s.own ≡ own →
        IsPending (ShowsStreams base s) (K.kept keeper.old) →
        Becomes (ShowsStreams base (emitted (seen_event event.now) s)) (K.kept keeper.new) result }
{
    let name = (event.origin, event.number);
    write_event(alloc, keeper, own, name, &event.taken, &event.body)
}

/// How far the node `own` is in the stream of `origin`: the number of the last event that it met, if it met one.
///
/// # Errors
///
/// `BadRow` of space 11 exactly where that row is not in its form, what stopped the store, and `NoMemory`.
pub fn progress<K: Keeper>(
    alloc: Global,
    keeper: &mut K,
    own: u32,
    origin: u32,
) -> Result<Option<u64>, Stop>
    requires can { IsId own × IsId origin }
    ensures safe { Safe (K.kept keeper.old) (K.kept keeper.new) result }
    ensures same { OnOk result ((K.kept keeper.new).pending ≡ (K.kept keeper.old).pending) }
    ensures within { IfErr result IsWithinLimit }
    ensures space { IfErr result (IsOfSpace 11) }
    ensures small { IfOk result (AllOf IsStored) }
    ensures found { (m : Store) → sight (K.kept keeper.old) ≡ Some m → IfOk result
        (λ found. get (m 11) (pair_key (origin, own)) ≡ option_map number_bytes found) }
    ensures says { (m : Store) (s : Streams) → sight (K.kept keeper.old) ≡ Some m → s.own ≡ own → HoldsStreams s m →
        Gives (λ found. found ≡ entry_at origin s.progress) result }
    ensures form { (m : Store) → sight (K.kept keeper.old) ≡ Some m →
        Reads (Lacks 11 (HasProgress own origin m)) result }
{
    find_confirmed(alloc, keeper, origin, own)
}

/// The event of `origin` with this number, if the node holds it.
///
/// # Errors
///
/// `BadRow` of space 10 exactly where its row is not in its form, what stopped the store, and `NoMemory`.
pub fn find_event<K: Keeper>(
    alloc: Global,
    keeper: &mut K,
    origin: u32,
    number: u64,
) -> Result<Option<Event>, Stop>
    requires can { IsId origin × IsStored number }
    ensures safe { Safe (K.kept keeper.old) (K.kept keeper.new) result }
    ensures same { OnOk result ((K.kept keeper.new).pending ≡ (K.kept keeper.old).pending) }
    ensures within { IfErr result IsWithinLimit }
    ensures space { IfErr result (IsOfSpace 10) }
    ensures found { (m : Store) → sight (K.kept keeper.old) ≡ Some m → IfOk result
        (λ found. get (m 10) (pair_key (origin, number)) ≡ option_map (λ e. event_bytes (seen_event e)) found) }
    ensures is { IfOk result (AllOf (λ e. (e.origin ≡ origin) × (e.number ≡ number))) }
    ensures says { (m : Store) (s : Streams) → sight (K.kept keeper.old) ≡ Some m → HoldsStreams s m →
        Gives (λ found. option_map seen_event found ≡ event_at s.events (origin, number)) result }
    ensures form { (m : Store) → sight (K.kept keeper.old) ≡ Some m →
        Reads (Lacks 10 (HasEvent origin number m)) result }
{
    match get_row::<K, (u32, u64), EventRow>(alloc, keeper, EVENTS, &(origin, number))? {
        None => Ok(None),
        Some(row) => Ok(Some(Event {
            origin,
            number,
            taken: row.taken,
            body: row.body,
        })),
    }
}
