// Events that a database emits as a node.
ghost use Rattle.std.specs.Prelude.{◌≡◌, ◌+◌, ◌<◌, ◌^◌, Some, true, is_some, length, IfOk, OnOk};
ghost use Rattle.std.specs.Option.{option_map};
ghost use Rattle.slon_base.specs.Codec.{AllAre};
ghost use Rattle.node_rows.specs.Spellings.{CanBody};
ghost use Rattle.slon_model.specs.Place.{Place, is_running, taken};
ghost use Rattle.txn_core.specs.Snapshots.{seen_as};
ghost use Rattle.event_store.specs.Keeping.{KeepsViews};
ghost use Rattle.event_store.specs.Spellings.{CanSnapshot};
ghost use Rattle.app_store.specs.Base.{base_of};
ghost use Rattle.app_store.specs.Fits.{Ready};
ghost use Rattle.app_store.specs.Serves.{answered, trouble};
ghost use Rattle.node_store.specs.Acting.{Acts, Announces, AnnouncesAt, HasLearned, emitted, own_id};

use crate::writing::write_events;
use app_store::{Database, DbFault, Made, Snapshot, fall, finish, overflow};
use node_keeper::Keeper;
use node_rows::Body;
use node_state::NodeMemory;
use slon_base::STORED_LIMIT;
use std::alloc::{AllocError, Global};

/// The greatest number of running transactions that a snapshot can list in a store.
const MOST_RUNNING: usize = 4_294_967_295;

/// The snapshot that is taken now, as it can be stored.
///
/// # Errors
///
/// `AllocError` where there is no memory.
pub fn stored_snapshot<K: Keeper>(database: &Database<K>) -> Result<Snapshot, AllocError>
    ensures can { IfOk result (λ s. CanSnapshot (seen_as s)) }
    ensures taken { (p : Place) → Ready p (base_of K.kept database.now) → is_running p.standing ≡ true →
        IfOk result (λ s. seen_as s ≡ taken p) }
{
    let snapshot = database.snapshot()?;
    let stored = snapshot.xmax <= STORED_LIMIT && snapshot.running.len() <= MOST_RUNNING;
    if stored && snapshot.is_canonical() {
        return Ok(snapshot);
    }
    Err(AllocError)
}

/// The node emits events with these bodies, one after the other, and makes the changes that they name, in one
/// transaction. Answers the number of the last one, and whether the commit is in doubt.
///
/// # Errors
///
/// `TooBig`, and what stopped the store.
pub fn announce<K: Keeper>(
    database: &mut Database<K>,
    bodies: &[Body],
) -> Result<(u64, bool), DbFault>
    requires up { database.old.state.up ≡ true }
    requires node { is_some database.old.state.node.identity ≡ true }
    requires can { AllAre CanBody bodies.now }
    requires keeps { AllAre KeepsViews bodies.now }
    requires some { 0 < length bodies.now }
    ensures acts { Acts (trouble (answered (emitted (own_id database.old.state.node.identity)) result))
        (base_of K.kept database.old) (base_of K.kept database.new) }
    ensures announces { Announces bodies.now (base_of K.kept database.old)
        (answered (emitted (own_id database.old.state.node.identity)) result) (base_of K.kept database.new) }
{
    match database.node_id() {
        None => Err(DbFault::Down),
        Some(own) => {
            if database.state.stamp >= STORED_LIMIT {
                return Err(overflow(database.alloc, &mut database.state));
            }
            let taken = stored_snapshot(database)?;
            emit(database, own, &taken, bodies)
        }
    }
}

/// Keeps what events with these bodies, which the node emitted, change of the tables of its sets.
fn learn_each(alloc: Global, node: &mut NodeMemory, bodies: &[Body]) -> Result<(), AllocError>
    requires { AllAre CanBody bodies.now }
    ensures learned { OnOk result (HasLearned bodies.now node.old.members node.new.members) }
    ensures identity { node.new.identity ≡ node.old.identity }
{
    for body in bodies {
        node.learn(alloc, body, true)?;
    }
    Ok(())
}

/// The same, with their snapshot, as the node of this id.
fn emit<K: Keeper>(
    database: &mut Database<K>,
    own: u32,
    taken: &Snapshot,
    bodies: &[Body],
) -> Result<(u64, bool), DbFault>
    requires up { database.old.state.up ≡ true }
    requires own { option_map (λ i. i.id) database.old.state.node.identity ≡ Some own }
    requires can { CanSnapshot (seen_as taken.now) × AllAre CanBody bodies.now }
    requires keeps { AllAre KeepsViews bodies.now }
    requires some { 0 < length bodies.now }
    requires room { database.old.state.stamp + 1 < 2 ^ 63 }
    ensures acts { Acts (trouble (answered (emitted own) result)) (base_of K.kept database.old)
        (base_of K.kept database.new) }
    ensures announces { AnnouncesAt (seen_as taken.now) bodies.now (base_of K.kept database.old)
        (answered (emitted own) result) (base_of K.kept database.new) }
{
    let alloc = database.alloc;
    let stamp = database.state.stamp + 1;
    match write_events(alloc, &mut database.keeper, own, taken, bodies, stamp) {
        Ok(number) => match finish(&mut database.keeper) {
            Ok(made) => match made {
                Made::Done => {
                    database.state.stamp = stamp;
                    learn_each(alloc, &mut database.state.node, bodies)?;
                    Ok((number, false))
                }
                Made::InDoubt => {
                    database.state.take_down(alloc);
                    database.state.doubt = Some(stamp);
                    Ok((number, true))
                }
            },
            Err(stop) => Err(fall(alloc, &mut database.state, &database.keeper, stop)),
        },
        Err(stop) => Err(fall(alloc, &mut database.state, &database.keeper, stop)),
    }
}
