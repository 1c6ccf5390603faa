// Whether something happened at a node since its last SYNC.
ghost use Rattle.std.specs.Prelude.{◌≡◌, true, is_some};
ghost use Rattle.std.specs.Option.{option_map};
ghost use Rattle.slon_model.specs.Turns.{same_snapshot};
ghost use Rattle.txn_core.specs.Snapshots.{seen_as};
ghost use Rattle.app_store.specs.Base.{base_of};
ghost use Rattle.app_store.specs.Parts.{Looks, Remembers};
ghost use Rattle.app_store.specs.Serves.{halts};
ghost use Rattle.node_store.specs.Acting.{Acts};
ghost use Rattle.node_store.specs.Syncing.{has_taken, IsSynced};

use app_store::{Database, DbFault, Snapshot, fall};
use event_store::last_sync;
use node_keeper::Keeper;

/// Whether two snapshots are the same.
pub fn is_same(one: &Snapshot, other: &Snapshot) -> bool
    ensures { result ≡ same_snapshot (seen_as one.now) (seen_as other.now) }
{
    one.xmin == other.xmin
        && one.xmax == other.xmax
        && one.running.as_slice() == other.running.as_slice()
}

/// Whether the last SYNC has this snapshot, if there is one.
fn has_snapshot(last: &Option<Snapshot>, now: &Snapshot) -> bool
    ensures { result ≡ has_taken (seen_as now.now) (option_map seen_as last.now) }
{
    match last {
        None => false,
        Some(taken) => is_same(taken, now),
    }
}

/// Whether the last SYNC that the node emitted has the snapshot that is taken now: no transaction began or ended since.
/// It reads the events of the node from the last one back to that SYNC.
///
/// # Errors
///
/// What stopped the store; the database is down then. `NoMemory`.
pub fn is_synced<K: Keeper>(database: &mut Database<K>) -> Result<bool, DbFault>
    requires up { database.old.state.up ≡ true }
    requires node { is_some database.old.state.node.identity ≡ true }
    ensures acts { Acts (halts result) (base_of K.kept database.old) (base_of K.kept database.new) }
    ensures looks { Looks IsSynced (base_of K.kept database.old) result (base_of K.kept database.new) }
    ensures same { Remembers (base_of K.kept database.old) result (base_of K.kept database.new) }
{
    let now = database.snapshot()?;
    match database.node_id() {
        None => Err(DbFault::Down),
        Some(own) => match last_sync(database.alloc, &mut database.keeper, own) {
            Ok(last) => Ok(has_snapshot(&last, &now)),
            Err(stop) => Err(fall(database.alloc, &mut database.state, &database.keeper, stop)),
        },
    }
}
