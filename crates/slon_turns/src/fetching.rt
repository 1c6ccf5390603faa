// A node copies a set from another one, at the two databases that this concerns.
ghost use Rattle.std.specs.Prelude.{◌≡◌, true, is_some, IfOk};
ghost use Rattle.slonik_exec.specs.Databases.{bases_of, Runs};
ghost use Rattle.slonik_exec.specs.Heard.{AreDistinct};
ghost use Rattle.slonik_exec.specs.Stored.{couple_of, pair_of};
ghost use Rattle.slonik_exec.specs.Turning.{IsSeatHere};
ghost use Rattle.slonik_exec.specs.declared.reaching.Reached.TheVariants.{At};
ghost use Rattle.slon_turns.specs.declared.planning.Plan.TheVariants.{Bring};
ghost use Rattle.slon_turns.specs.Fetching.{AreVisiting, BroughtAt, BringsFrom, BringsTo, IsOwnAt};
ghost use Rattle.slon_turns.specs.Planning.{CanPlan};
ghost use Rattle.slon_turns.specs.Polling.{RunsBetween};

use crate::held::Held;
use crate::working::{Aim, end_at};
use node_keeper::Keeper;
use node_store::Side;
use remote_worker::{Copying, Found, Taken, Worker};
use slon_model::{Refusal, Reply};
use slonik_exec::{Named, NoMemory, Spots, index_of_node, told};
use std::alloc::Global;

/// What is done: the event that was taken, what is copied with it, and what becomes of that.
#[derive(Drop)]
pub(crate) struct Trip {
    /// The event.
    pub(crate) taken: Worker<Taken>,
    /// What is copied.
    pub(crate) copying: Copying,
    /// What becomes of it.
    pub(crate) aim: Aim,
}

/// The node of the one database copies the set from the provider, which is the node of the other one, and keeps the
/// copy or applies the event. It is refused where 62 the provider does not know the node, 63 it has not met the event,
/// 52 the node lacks a table of the set, 57 that has another number of columns at the provider, and where the event is
/// applied 66 an open transaction of the node wrote a table that is to be changed.
fn fetch_between<K: Keeper>(
    alloc: Global,
    own: &mut Named<K>,
    provider: &mut Named<K>,
    held: &mut Held,
    trip: Trip,
) -> Result<Reply, NoMemory>
    requires up { (own.old.database.state.up ≡ true) × (provider.old.database.state.up ≡ true) }
    requires nodes { (is_some own.old.database.state.node.identity ≡ true)
        × (is_some provider.old.database.state.node.identity ≡ true) }
    requires can { CanPlan held.old.queue (Bring trip.taken trip.copying) }
    ensures runs { IfOk result (λ reply. RunsBetween (couple_of K.kept own.old provider.old) reply
        (pair_of K.kept own.new provider.new)) }
    ensures brings { IfOk result (λ reply. BringsTo trip
        (couple_of K.kept own.old provider.old) held.old reply (pair_of K.kept own.new provider.new) held.new) }
    ensures bounds { held.new.bounds ≡ held.old.bounds }
    ensures names { (own.new.name ≡ own.old.name) × (provider.new.name ≡ provider.old.name) }
{
    let Trip {
        taken,
        copying,
        aim,
    } = trip;
    let Some(event) = held.queue.get(taken.origin, taken.state.number) else {
        unreachable!()
    };
    match taken.fetch(&mut own.database, &mut provider.database, copying, event) {
        Ok(Found::Refused(refusal)) => Ok(Reply::Refused(refusal)),
        Ok(Found::Brings(fetched)) => end_at(alloc, own, held, fetched, aim),
        Err(fell) => match fell.side {
            Side::From => told(alloc, &own.name, fell.fault),
            Side::To => told(alloc, &provider.name, fell.fault),
        },
    }
}

/// The same at two places.
fn fetch_both<K: Keeper>(
    alloc: Global,
    databases: &mut [Named<K>],
    spots: Spots,
    held: &mut Held,
    trip: Trip,
) -> Result<Reply, NoMemory>
    requires visiting { AreVisiting databases.old spots }
    requires can { CanPlan held.old.queue (Bring trip.taken trip.copying) }
    ensures brought { IfOk result (λ reply. BroughtAt K.kept (trip, spots)
        (databases.old, held.old) reply (databases.new, held.new)) }
    ensures bounds { held.new.bounds ≡ held.old.bounds }
{
    if spots.from < spots.to {
        let (front, back) = databases.split_at_mut(spots.to);
        fetch_between(alloc, &mut front[spots.from], &mut back[0], held, trip)
    } else {
        let (front, back) = databases.split_at_mut(spots.from);
        fetch_between(alloc, &mut back[0], &mut front[spots.to], held, trip)
    }
}

/// The node of the database at this index copies the set from its provider, which is another node, unless 44 there is
/// none, or 16 it is down.
pub(crate) fn fetch_from<K: Keeper>(
    alloc: Global,
    databases: &mut [Named<K>],
    index: usize,
    held: &mut Held,
    trip: Trip,
) -> Result<Reply, NoMemory>
    requires distinct { AreDistinct (bases_of K.kept databases.old) }
    requires seat { IsSeatHere databases.old (At index) }
    requires own { IsOwnAt databases.old index trip.taken.node }
    requires can { CanPlan held.old.queue (Bring trip.taken trip.copying) }
    ensures runs { IfOk result (λ reply. Runs (bases_of K.kept databases.old) reply
        (bases_of K.kept databases.new)) }
    ensures brings { IfOk result (λ reply. BringsFrom K.kept trip index
        (databases.old, held.old) reply (databases.new, held.new)) }
    ensures bounds { held.new.bounds ≡ held.old.bounds }
{
    let node = trip.copying.provider;
    let Some(to) = index_of_node(databases, node) else {
        return Ok(Reply::Refused(Refusal::NoNode { node }));
    };
    let provider = &databases[to];
    if !provider.database.is_up() {
        let database = provider.name.copy(alloc)?;
        return Ok(Reply::Refused(Refusal::Down { database }));
    }
    let spots = Spots { from: index, to };
    fetch_both(alloc, databases, spots, held, trip)
}
