// The rows that are put as a node holds one more event.
ghost use Rattle.std.specs.Prelude.{◌≡◌, if◌then◌else◌, ◌∷◌, true, is_some, IfOk, IfErr};
ghost use Rattle.slon_base.specs.Keeper.{Store};
ghost use Rattle.store_rows.specs.Rows.{IsId};
ghost use Rattle.store_rows.specs.Spending.{PutsUpTo};
ghost use Rattle.store_rows.specs.Steps.{Safe, IsOutside};
ghost use Rattle.store_rows.specs.Space.{IsPending, Becomes};
ghost use Rattle.node_rows.specs.Spellings.{CanBody};
ghost use Rattle.slon_model.specs.Events.{is_sync};
ghost use Rattle.slon_model.specs.Maps.{with_entry};
ghost use Rattle.txn_core.specs.Snapshots.{seen_as};
ghost use Rattle.event_store.specs.Seen.{event_by, parts_bytes};
ghost use Rattle.event_store.specs.Spellings.{IsStored, IsNumbered, CanSnapshot};
ghost use Rattle.event_store.specs.Streams.{Streams, emitted};
ghost use Rattle.event_store.specs.Holds.{ShowsStreams};

use crate::layout::{CONFIRMATIONS, EVENTS, NEWS};
use crate::snapshot::spell_snapshot;
use node_rows::Body;
use slon_base::{Bytes, Keeper, RowOut};
use std::alloc::{AllocError, Global};
use store_rows::{Spelled, Stop, put_pair, put_row, spelling};
use txn_core::Snapshot;

/// The row of an event.
fn event_row(alloc: Global, taken: &Snapshot, body: &Body) -> Result<Bytes, AllocError>
    requires can { CanSnapshot (seen_as taken.now) × CanBody body.now }
    ensures { IfOk result (λ b. b ≡ parts_bytes taken.now body.now) }
{
    let mut out = RowOut::new(alloc);
    spell_snapshot(taken, &mut out)?;
    body.spell(&mut out)?;
    Ok(out.finish())
}

/// An event is held.
fn put_event<K: Keeper>(
    alloc: Global,
    keeper: &mut K,
    name: (u32, u64),
    taken: &Snapshot,
    body: &Body,
) -> Result<(), Stop>
    requires opened { is_some (K.kept keeper.old).pending ≡ true }
    requires name { IsNumbered name }
    requires can { CanSnapshot (seen_as taken.now) × CanBody body.now }
    ensures safe { Safe (K.kept keeper.old) (K.kept keeper.new) result }
    ensures puts { PutsUpTo 1 (K.kept keeper.old).puts (K.kept keeper.new).puts }
    ensures only { IfErr result IsOutside }
    ensures turns { (base : Store) (s : Streams) → IsPending (ShowsStreams base s) (K.kept keeper.old) →
        let event = event_by name.0 name.1 taken.now body.now in
        Becomes (ShowsStreams base (record s { events = event ∷ s.events })) (K.kept keeper.new) result }
{
    let key = spelling(alloc, &name)?;
    let value = event_row(alloc, taken, body)?;
    put_pair(keeper, EVENTS, key.as_slice(), value.as_slice())
}

/// The node `own` is as far as this in the stream of `origin`.
fn put_progress<K: Keeper>(
    alloc: Global,
    keeper: &mut K,
    own: u32,
    origin: u32,
    number: u64,
) -> Result<(), Stop>
    requires opened { is_some (K.kept keeper.old).pending ≡ true }
    requires can { IsId own × IsId origin × IsStored number }
    ensures safe { Safe (K.kept keeper.old) (K.kept keeper.new) result }
    ensures puts { PutsUpTo 1 (K.kept keeper.old).puts (K.kept keeper.new).puts }
    ensures only { IfErr result IsOutside }
    ensures turns { (base : Store) (s : Streams) → s.own ≡ own →
        IsPending (ShowsStreams base s) (K.kept keeper.old) →
        Becomes (ShowsStreams base (record s { progress = with_entry origin number s.progress })) (K.kept keeper.new)
        result }
{
    put_row(alloc, keeper, CONFIRMATIONS, &(origin, own), &number)
}

fn is_sync(body: &Body) -> bool
    ensures { result ≡ is_sync body.now }
{
    matches!(body, Body::Sync)
}

/// An event that is no SYNC is the last one of its origin.
fn put_news<K: Keeper>(
    alloc: Global,
    keeper: &mut K,
    origin: u32,
    number: u64,
    body: &Body,
) -> Result<(), Stop>
    requires opened { is_some (K.kept keeper.old).pending ≡ true }
    requires can { IsId origin × IsStored number }
    ensures safe { Safe (K.kept keeper.old) (K.kept keeper.new) result }
    ensures puts { PutsUpTo 1 (K.kept keeper.old).puts (K.kept keeper.new).puts }
    ensures only { IfErr result IsOutside }
    ensures turns { (base : Store) (s : Streams) → IsPending (ShowsStreams base s) (K.kept keeper.old) →
        let news = if is_sync body.now then s.news else with_entry origin number s.news in
        Becomes (ShowsStreams base (record s { news = news })) (K.kept keeper.new) result }
{
    if is_sync(body) {
        return Ok(());
    }
    put_row(alloc, keeper, NEWS, &origin, &number)
}

/// The node `own` met the event of this name, which is an origin and a number, and holds it.
pub(crate) fn write_event<K: Keeper>(
    alloc: Global,
    keeper: &mut K,
    own: u32,
    name: (u32, u64),
    taken: &Snapshot,
    body: &Body,
) -> Result<(), Stop>
    requires opened { is_some (K.kept keeper.old).pending ≡ true }
    requires own { IsId own }
    requires name { IsNumbered name }
    requires can { CanSnapshot (seen_as taken.now) × CanBody body.now }
    ensures safe { Safe (K.kept keeper.old) (K.kept keeper.new) result }
    ensures puts { PutsUpTo 3 (K.kept keeper.old).puts (K.kept keeper.new).puts }
    ensures only { IfErr result IsOutside }
    ensures turns { (base : Store) (s : Streams) → s.own ≡ own →
        IsPending (ShowsStreams base s) (K.kept keeper.old) →
        let event = event_by name.0 name.1 taken.now body.now in
        Becomes (ShowsStreams base (emitted event s)) (K.kept keeper.new) result }
{
    let (origin, number) = name;
    put_event(alloc, keeper, name, taken, body)?;
    put_progress(alloc, keeper, own, origin, number)?;
    put_news(alloc, keeper, origin, number, body)
}
