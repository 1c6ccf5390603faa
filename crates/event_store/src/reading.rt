// The events of an origin behind a number, as a node holds them for others.
ghost use Rattle.std.specs.Prelude.{◌≡◌, List, Some, OnOk, IfOk, IfErr};
ghost use Rattle.slon_base.specs.Codec.{AllAre};
ghost use Rattle.slon_base.specs.Keeper.{Store, sight};
ghost use Rattle.store_rows.specs.Rows.{IsId};
ghost use Rattle.store_rows.specs.Steps.{Safe, IsWithinLimit, IsOfSpace, Gives};
ghost use Rattle.event_store.specs.declared.event.Event.{Event};
ghost use Rattle.event_store.specs.Behind.{AreMade, AreBehind, HasBehind, AreAfter, AfterIsAll};
ghost use Rattle.event_store.specs.Formed.{Lacks, Reads};
ghost use Rattle.event_store.specs.Holds.{HoldsStreams};
ghost use Rattle.event_store.specs.Seen.{CanRow};
ghost use Rattle.event_store.specs.Spellings.{IsStored, IsNumbered};
ghost use Rattle.event_store.specs.Streams.{Streams};

use crate::event::{Event, EventRow};
use crate::layout::EVENTS;
use slon_base::{Keeper, Many};
use std::alloc::{AllocError, Global};
use store_rows::{Stop, scan_rows, spelling};

/// The events of the origin of which these are the rows, each with its number.
fn events_of(
    alloc: Global,
    origin: u32,
    rows: Many<(u64, EventRow)>,
) -> Result<Many<Event>, AllocError>
    requires origin { IsId origin }
    requires rows { AllAre (λ r. IsStored r.0 × CanRow r.1) rows }
    ensures { IfOk result (AreMade origin rows) }
{
    let mut events = Many::new(alloc);
    for (number, row) in rows.into_vec() {
        events.push(Event {
            origin,
            number,
            taken: row.taken,
            body: row.body,
        })?;
    }
    Ok(events)
}

/// The events of the origin that the store holds with a number above this one, ascending by number. It goes over these
/// alone.
///
/// # Errors
///
/// `BadRow` of space 10 exactly where the row of one of them is not in its form, what stopped the store, and
/// `NoMemory`.
pub fn after<K: Keeper>(
    alloc: Global,
    keeper: &mut K,
    origin: u32,
    number: u64,
) -> Result<Many<Event>, Stop>
    requires can { IsNumbered (origin, number) }
    ensures safe { Safe (K.kept keeper.old) (K.kept keeper.new) result }
    ensures same { OnOk result ((K.kept keeper.new).pending ≡ (K.kept keeper.old).pending) }
    ensures within { IfErr result IsWithinLimit }
    ensures space { IfErr result (IsOfSpace 10) }
    // What is answered are all rows of the origin behind that number, in whatever store they are found,
    ensures found { (m : Store) → sight (K.kept keeper.old) ≡ Some m → IfOk result (AreBehind origin number m) }
    ensures gives { (m : Store) (events : List Event) → sight (K.kept keeper.old) ≡ Some m →
        AreBehind origin number m events → Gives (λ found. found ≡ events) result }
    // and in a store that holds the streams of a node these are the events that it holds.
    ensures says { (m : Store) (s : Streams) → sight (K.kept keeper.old) ≡ Some m → HoldsStreams s m →
        Gives (AreAfter origin number s.events) result }
    ensures form { (m : Store) → sight (K.kept keeper.old) ≡ Some m →
        Reads (Lacks 10 (HasBehind origin number m)) result }
{
    let prefix = spelling(alloc, &origin)?;
    let from = spelling(alloc, &(origin, number))?;
    let rows = scan_rows(alloc, keeper, EVENTS, prefix.as_slice(), from.as_slice())?;
    Ok(events_of(alloc, origin, rows)?)
}

/// What is answered of the events behind a number is all that the node holds of them, in their order.
pub fn after_is_all()
    ensures { AfterIsAll }
{}
