// A node reads what was logged for the sets that it keeps, each set at its provider.
ghost use Rattle.std.specs.Prelude.{◌≡◌, ◌++◌, ℕ, true, is_some, IfOk, OnOk, map};
ghost use Rattle.std.specs.List.{AllByRecursion};
ghost use Rattle.slon_base.specs.Codec.{AllAre};
ghost use Rattle.store_rows.specs.Rows.{IsId};
ghost use Rattle.event_store.specs.Seen.{seen_event};
ghost use Rattle.app_store.specs.Base.{base_of};
ghost use Rattle.slonik_exec.specs.Databases.{bases_of, Runs};
ghost use Rattle.slonik_exec.specs.Heard.{AreDistinct};
ghost use Rattle.slonik_exec.specs.Turning.{IsSeatHere};
ghost use Rattle.slonik_exec.specs.declared.reaching.Reached.TheVariants.{At};
ghost use Rattle.remote_worker.specs.Keeping.{CanFollow, seen_kept};
ghost use Rattle.remote_worker.specs.Loading.{CanFetch};
ghost use Rattle.remote_worker.specs.Running.{CanRun};
ghost use Rattle.slon_turns.specs.declared.planning.Plan.TheVariants.{Follow as ToFollow};
ghost use Rattle.slon_turns.specs.Following.{CanGive, FollowsAll, FollowsAt, FollowsFrom, FollowsGroup, FollowsSets};
ghost use Rattle.slon_turns.specs.Following.{GivesAt, KeepsAt, LearnsFrom, LearnsSets, RunsLooked, TakesAt, group_of};
ghost use Rattle.slon_turns.specs.Planning.{CanPlan};

use crate::bounds::{Bound, known_by, learn_behind, start_of};
use crate::held::Held;
use crate::planning::check_link;
use crate::working::{Aim, end_at};
use event_store::Event;
use node_keeper::Keeper;
use remote_worker::{
    KeptSet, Load, Run, SetFetch, Taken, Worker, check_provider, fetch_run, last_logged, runs_of,
    sets_of,
};
use slon_base::Many;
use slon_model::{Refusal, Reply};
use slonik_exec::{Named, NoMemory, index_of_node, told};
use std::alloc::{AllocError, Global};

/// A node that reads at others: the index of its database, its id, and the pairs of nodes that are cut off.
#[derive(Clone, Copy)]
pub(crate) struct Way<'a> {
    pub(crate) index: usize,
    pub(crate) node: u32,
    pub(crate) cuts: &'a [(u32, u32)],
}

/// What came of reading something.
#[derive(Drop)]
pub(crate) enum Looked<T: Drop> {
    /// It was not read, and this is replied.
    Told(Reply),
    /// This was read.
    Gives(T),
}

/// What the node takes of sets that are read together, from a provider whose database this is, by what that logged from
/// the number `known` on.
fn take_log<K: Keeper>(
    alloc: Global,
    provider: &mut Named<K>,
    event: &Event,
    run: Run,
    known: u64,
) -> Result<Looked<Many<SetFetch>>, NoMemory>
    requires up { provider.old.database.state.up ≡ true }
    requires can { CanRun run }
    ensures can { IfOk result (CanGive (AllByRecursion CanFetch)) }
    ensures gives { IfOk result (λ given. GivesAt (seen_event event.now) known (group_of run) provider.old.name
        (base_of K.kept provider.old.database) given (base_of K.kept provider.new.database)) }
    ensures name { provider.new.name ≡ provider.old.name }
{
    match fetch_run(&mut provider.database, event, run, known) {
        Ok(fetches) => Ok(Looked::Gives(fetches)),
        Err(fault) => Ok(Looked::Told(told(alloc, &provider.name, fault)?)),
    }
}

/// What the node takes of these sets, from the provider whose database this is, unless 62 that does not know the node,
/// or 63 it has not met the event.
fn take_sets<K: Keeper>(
    alloc: Global,
    provider: &mut Named<K>,
    node: u32,
    event: &Event,
    run: Run,
    known: u64,
) -> Result<Looked<Many<SetFetch>>, NoMemory>
    requires up { provider.old.database.state.up ≡ true }
    requires node { is_some provider.old.database.state.node.identity ≡ true }
    requires can { IsId node × CanRun run }
    ensures can { IfOk result (CanGive (AllByRecursion CanFetch)) }
    ensures takes { IfOk result (λ given. TakesAt
        (record { node = node; event = seen_event event.now; known = known })
        (group_of run) provider.old.name (base_of K.kept provider.old.database) given
        (base_of K.kept provider.new.database)) }
    ensures name { provider.new.name ≡ provider.old.name }
{
    match check_provider(&mut provider.database, node, run.first.provider, event) {
        Ok(refusal) => match refusal {
            Some(refusal) => Ok(Looked::Told(Reply::Refused(refusal))),
            None => take_log(alloc, provider, event, run, known),
        },
        Err(fault) => Ok(Looked::Told(told(alloc, &provider.name, fault)?)),
    }
}

/// The same from the provider, which is sought: 44 there is none, 16 it is down, 62, 63.
fn follow_at<K: Keeper>(
    alloc: Global,
    databases: &mut [Named<K>],
    node: u32,
    event: &Event,
    run: Run,
    known: u64,
) -> Result<Looked<Many<SetFetch>>, NoMemory>
    requires distinct { AreDistinct (bases_of K.kept databases.old) }
    requires can { IsId node × CanRun run }
    ensures can { IfOk result (CanGive (AllByRecursion CanFetch)) }
    ensures runs { IfOk result (λ given. RunsLooked (bases_of K.kept databases.old) given
        (bases_of K.kept databases.new)) }
    ensures follows { IfOk result (λ given. FollowsAt K.kept
        (record { node = node; event = seen_event event.now; known = known }) (group_of run) databases.old given
        databases.new) }
{
    let Some(to) = index_of_node(databases, run.first.provider) else {
        let node = run.first.provider;
        return Ok(Looked::Told(Reply::Refused(Refusal::NoNode { node })));
    };
    let provider = &mut databases[to];
    if !provider.database.is_up() {
        let database = provider.name.copy(alloc)?;
        return Ok(Looked::Told(Reply::Refused(Refusal::Down { database })));
    }
    take_sets(alloc, provider, node, event, run, known)
}

/// The same, unless 75 the node has no path to the provider, 68 it is cut off from it, or 44 it is the provider itself.
/// The log of the provider is read from where it is known to have what the node has not seen.
fn follow_run<K: Keeper>(
    alloc: Global,
    databases: &mut [Named<K>],
    way: Way<'_>,
    bounds: &[Bound],
    event: &Event,
    run: Run,
) -> Result<Looked<Many<SetFetch>>, NoMemory>
    requires distinct { AreDistinct (bases_of K.kept databases.old) }
    requires seat { IsSeatHere databases.old (At way.index) }
    requires can { IsId way.node × CanRun run }
    ensures can { IfOk result (CanGive (AllByRecursion CanFetch)) }
    ensures runs { IfOk result (λ given. RunsLooked (bases_of K.kept databases.old) given
        (bases_of K.kept databases.new)) }
    ensures follows { IfOk result (λ given. FollowsGroup K.kept
        (record { node = way.entry.node; index = way.entry.index; cuts = way.entry.cuts.now; bounds = bounds.now })
        (seen_event event.now) (group_of run) databases.old given databases.new) }
{
    let own = &mut databases[way.index];
    if let Some(reply) = check_link(alloc, own, way.cuts, way.node, run.first.provider)? {
        return Ok(Looked::Told(reply));
    }
    let known = start_of(bounds, event.origin, run.first.before.seen.xmin);
    follow_at(alloc, databases, way.node, event, run, known)
}

/// Adds all of these.
fn push_all(fetches: &mut Many<SetFetch>, more: Many<SetFetch>) -> Result<(), AllocError>
    ensures { OnOk result (fetches.new ≡ fetches.old ++ more) }
{
    for fetch in more.into_vec() {
        fetches.push(fetch)?;
    }
    Ok(())
}

/// The same of each of these sets, the first one first. Sets that follow one another and have one provider are read
/// together where the node is as far in each of them.
fn follow_all<K: Keeper>(
    alloc: Global,
    databases: &mut [Named<K>],
    way: Way<'_>,
    bounds: &[Bound],
    event: &Event,
    sets: Many<KeptSet>,
) -> Result<Looked<Many<SetFetch>>, NoMemory>
    requires distinct { AreDistinct (bases_of K.kept databases.old) }
    requires seat { IsSeatHere databases.old (At way.index) }
    requires can { IsId way.node × AllAre CanFollow sets }
    ensures can { IfOk result (CanGive (AllByRecursion CanFetch)) }
    ensures runs { IfOk result (λ given. RunsLooked (bases_of K.kept databases.old) given
        (bases_of K.kept databases.new)) }
    ensures follows { IfOk result (λ given. FollowsAll K.kept
        (record { node = way.entry.node; index = way.entry.index; cuts = way.entry.cuts.now; bounds = bounds.now })
        (seen_event event.now) (map seen_kept sets) databases.old given databases.new) }
{
    let mut fetches = Many::new(alloc);
    for run in runs_of(alloc, sets)?.into_vec() {
        match follow_run(alloc, databases, way, bounds, event, run)? {
            Looked::Told(reply) => return Ok(Looked::Told(reply)),
            Looked::Gives(more) => push_all(&mut fetches, more)?,
        }
    }
    Ok(Looked::Gives(fetches))
}

/// The sets of the event's origin that the node, whose database this is, keeps, as it is to take the SYNC.
fn read_sets<K: Keeper>(
    alloc: Global,
    own: &mut Named<K>,
    node: u32,
    event: &Event,
) -> Result<Looked<Many<KeptSet>>, NoMemory>
    requires up { own.old.database.state.up ≡ true }
    requires node { is_some own.old.database.state.node.identity ≡ true }
    requires id { IsId node }
    ensures can { IfOk result (CanGive (AllAre CanFollow)) }
    ensures keeps { IfOk result (λ given. KeepsAt node (seen_event event.now) own.old.name
        (base_of K.kept own.old.database) given (base_of K.kept own.new.database)) }
    ensures name { own.new.name ≡ own.old.name }
{
    match sets_of(&mut own.database, node, event) {
        Ok(sets) => Ok(Looked::Gives(sets)),
        Err(fault) => Ok(Looked::Told(told(alloc, &own.name, fault)?)),
    }
}

/// An event that a node took, and what becomes of what comes with it.
#[derive(Drop)]
pub(crate) struct Round {
    pub(crate) taken: Worker<Taken>,
    pub(crate) aim: Aim,
}

/// The node of the database at this index reads what was logged for these sets, which it keeps of the origin of the
/// event, and keeps that or applies the event. It remembers what it learns by that of the transactions of the origin.
fn follow_sets<K: Keeper>(
    alloc: Global,
    databases: &mut [Named<K>],
    way: Way<'_>,
    held: &mut Held,
    round: Round,
    sets: Many<KeptSet>,
) -> Result<Reply, NoMemory>
    requires distinct { AreDistinct (bases_of K.kept databases.old) }
    requires seat { IsSeatHere databases.old (At way.index) }
    requires can { CanPlan held.old.queue (ToFollow round.taken) × AllAre CanFollow sets }
    requires own { way.node ≡ round.taken.node }
    ensures runs { IfOk result (λ reply. Runs (bases_of K.kept databases.old) reply
        (bases_of K.kept databases.new)) }
    ensures follows { IfOk result (λ reply. FollowsSets K.kept (record {
      node = way.entry.node;
      index = way.entry.index;
      cuts = way.entry.cuts.now;
      bounds = held.old.bounds.items;
    }) round (map seen_kept sets) (databases.old, held.old) reply (databases.new, held.new)) }
    ensures learns { IfOk result (λ reply. LearnsSets K.kept (record {
      node = way.entry.node;
      index = way.entry.index;
      cuts = way.entry.cuts.now;
      bounds = held.old.bounds.items;
    }) round (map seen_kept sets) (databases.old, held.old) held.new) }
{
    let Round { taken, aim } = round;
    let Some(event) = held.queue.get(taken.origin, taken.state.number) else {
        unreachable!()
    };
    match follow_all(alloc, databases, way, held.bounds.as_slice(), event, sets)? {
        Looked::Told(reply) => Ok(reply),
        Looked::Gives(fetches) => {
            let known = known_by(event, last_logged(fetches.as_slice()));
            let xmin = event.taken.xmin;
            let fetched = taken.with(Some(Load::Syncs(fetches)));
            let ended = end_at(alloc, &mut databases[way.index], held, fetched, aim);
            learn_behind(&mut held.bounds, known, xmin, ended)
        }
    }
}

/// The node of the database at this index reads what was logged for the sets that it keeps of the origin of the event,
/// each at its provider, and keeps it or applies the event. It is refused where one of them cannot be read, and where
/// the event is applied 66 an open transaction of the node wrote a table that is to be changed.
pub(crate) fn follow_from<K: Keeper>(
    alloc: Global,
    databases: &mut [Named<K>],
    way: Way<'_>,
    held: &mut Held,
    round: Round,
) -> Result<Reply, NoMemory>
    requires distinct { AreDistinct (bases_of K.kept databases.old) }
    requires seat { IsSeatHere databases.old (At way.index) }
    requires can { CanPlan held.old.queue (ToFollow round.taken) }
    requires own { way.node ≡ round.taken.node }
    ensures runs { IfOk result (λ reply. Runs (bases_of K.kept databases.old) reply
        (bases_of K.kept databases.new)) }
    ensures follows { IfOk result (λ reply. FollowsFrom K.kept (record {
      node = way.entry.node;
      index = way.entry.index;
      cuts = way.entry.cuts.now;
      bounds = held.old.bounds.items;
    }) round (databases.old, held.old) reply (databases.new, held.new)) }
    ensures learns { IfOk result (λ reply. LearnsFrom K.kept (record {
      node = way.entry.node;
      index = way.entry.index;
      cuts = way.entry.cuts.now;
      bounds = held.old.bounds.items;
    }) round (databases.old, held.old) held.new) }
{
    let node = round.taken.node;
    let Some(event) = held.queue.get(round.taken.origin, round.taken.state.number) else {
        unreachable!()
    };
    match read_sets(alloc, &mut databases[way.index], node, event)? {
        Looked::Told(reply) => Ok(reply),
        Looked::Gives(sets) => follow_sets(alloc, databases, way, held, round, sets),
    }
}
