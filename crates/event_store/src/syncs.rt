// The SYNCs that a node emitted.
ghost use Rattle.std.specs.Prelude.{◌≡◌, Some, OnOk, IfErr, unwrap_or};
ghost use Rattle.std.specs.Option.{option_map};
ghost use Rattle.slon_base.specs.Keeper.{Store, sight};
ghost use Rattle.slon_model.specs.Events.{last_sync};
ghost use Rattle.slon_model.specs.Maps.{number_at};
ghost use Rattle.store_rows.specs.Rows.{IsId};
ghost use Rattle.store_rows.specs.Steps.{Safe, IsWithinLimit, Gives};
ghost use Rattle.txn_core.specs.Snapshots.{seen_as};
ghost use Rattle.event_store.specs.Formed.{StopsAt};
ghost use Rattle.event_store.specs.Holds.{HoldsStreams};
ghost use Rattle.event_store.specs.Spellings.{IsStored};
ghost use Rattle.event_store.specs.Streams.{Streams};
ghost use Rattle.event_store.specs.Syncing.{sync_seen, taken_of, HandedSync};

use crate::event::Event;
use crate::streams::{find_event, progress};
use node_rows::Body;
use slon_base::Keeper;
use std::alloc::Global;
use store_rows::Stop;
use txn_core::Snapshot;

/// The snapshot of an event, if it is a SYNC.
fn sync_taken(found: Option<Event>) -> Option<Snapshot>
    ensures { option_map seen_as result ≡ sync_seen found }
{
    let Event { taken, body, .. } = found?;
    if matches!(&body, Body::Sync) {
        return Some(taken);
    }
    None
}

/// The snapshot of the last SYNC with a number up to this one that the node `own` emitted, of those that it holds.
fn sync_up_to<K: Keeper>(
    alloc: Global,
    keeper: &mut K,
    own: u32,
    last: u64,
) -> Result<Option<Snapshot>, Stop>
    requires can { IsId own × IsStored last }
    ensures safe { Safe (K.kept keeper.old) (K.kept keeper.new) result }
    ensures same { OnOk result ((K.kept keeper.new).pending ≡ (K.kept keeper.old).pending) }
    ensures within { IfErr result IsWithinLimit }
    ensures says { (m : Store) (s : Streams) → sight (K.kept keeper.old) ≡ Some m → HoldsStreams s m →
        Gives (λ found. option_map seen_as found ≡ taken_of (last_sync own s.events last)) result }
    ensures form { (m : Store) → sight (K.kept keeper.old) ≡ Some m →
        IfErr result (StopsAt (HandedSync own m)) }
{
    for back in 0..last {
        let found = find_event(alloc, keeper, own, last - back)?;
        if let Some(taken) = sync_taken(found) {
            return Ok(Some(taken));
        }
    }
    Ok(None)
}

/// The snapshot of the last SYNC that the node `own` emitted, of those that it holds. It reads the events of the node
/// from the last one back to that SYNC.
///
/// # Errors
///
/// `BadRow` only where the row of how far the node is in its own stream, or that of one of its events, is not in its
/// form; what stopped the store, and `NoMemory`.
pub fn last_sync<K: Keeper>(
    alloc: Global,
    keeper: &mut K,
    own: u32,
) -> Result<Option<Snapshot>, Stop>
    requires can { IsId own }
    ensures safe { Safe (K.kept keeper.old) (K.kept keeper.new) result }
    ensures same { OnOk result ((K.kept keeper.new).pending ≡ (K.kept keeper.old).pending) }
    ensures within { IfErr result IsWithinLimit }
    ensures says { (m : Store) (s : Streams) → sight (K.kept keeper.old) ≡ Some m → s.own ≡ own → HoldsStreams s m →
        Gives (λ found. option_map seen_as found
        ≡ taken_of (last_sync own s.events (number_at own s.progress))) result }
    ensures form { (m : Store) → sight (K.kept keeper.old) ≡ Some m →
        IfErr result (StopsAt (HandedSync own m)) }
{
    let last = progress(alloc, keeper, own, own)?.unwrap_or(0);
    sync_up_to(alloc, keeper, own, last)
}
