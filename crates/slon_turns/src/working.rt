// The turn of a slon by which its node fetches or applies an event of another one.
ghost use Rattle.std.specs.Prelude.{◌≡◌, true, is_some, IfOk};
ghost use Rattle.store_rows.specs.Rows.{IsId};
ghost use Rattle.app_store.specs.Base.{base_of};
ghost use Rattle.slon_model.specs.declared.reply.Answer.TheVariants.{Fetched as IsFetched};
ghost use Rattle.slon_model.specs.declared.reply.Reply.TheVariants.{Accepted};
ghost use Rattle.remote_worker.specs.Loading.{CanLoad, rows_loaded};
ghost use Rattle.remote_worker.specs.Working.{waits_as, IsAble};
ghost use Rattle.slonik_exec.specs.Answering.{Answers};
ghost use Rattle.slonik_exec.specs.Databases.{bases_of, Runs};
ghost use Rattle.slonik_exec.specs.Heard.{AreDistinct};
ghost use Rattle.slonik_exec.specs.Turning.{IsSeatHere};
ghost use Rattle.slonik_exec.specs.declared.reaching.Reached.TheVariants.{At};
ghost use Rattle.slon_turns.specs.declared.working.Aim.TheVariants.{Apply as IsApply};
ghost use Rattle.slon_turns.specs.Applying.{applied_as, goal_in, AppliesAt, EndsWith, IsPut};
ghost use Rattle.slon_turns.specs.Working.{CarriesOut, Learns, LearnsAt, Works};

use crate::fetching::{Trip, fetch_from};
use crate::following::{Round, Way, follow_from};
use crate::held::{Held, put_back};
use crate::planning::{Plan, plan_at};
use crate::turn::key_of;
use node_keeper::Keeper;
use remote_worker::{Fetched, Kept, Worker};
use slon_base::ByteMap;
use slon_model::{Answer, Answered, EventKind, Refusal, Reply};
use slonik_exec::{Named, NoMemory, Reached, answered, told, turn_of};
use std::alloc::Global;

/// What becomes of what comes with an event.
#[derive(Clone, Copy)]
pub enum Aim {
    /// The node keeps it.
    Fetch,
    /// The node applies the event with it, in one transaction.
    Apply,
}

/// What a turn is asked by which a node fetches or applies an event.
#[derive(Clone, Copy)]
pub struct Work {
    /// The id of the node.
    pub node: u32,
    /// The id of the origin of the event.
    pub origin: u32,
    /// What becomes of what comes with it.
    pub aim: Aim,
}

/// Which slons are on, and which nodes are cut off from one another.
#[derive(Clone, Copy)]
pub struct Switched<'a> {
    /// The nodes whose slon is on.
    pub started: &'a [u32],
    /// The pairs of nodes that are cut off from one another.
    pub cuts: &'a [(u32, u32)],
}

/// What is answered where an event of this kind was applied, by a commit that may be in doubt.
fn applied(kind: EventKind, number: u64, rows: u64, doubt: bool) -> Answered
    ensures { result ≡ applied_as kind number rows doubt }
{
    let answer = Answer::Applied { kind, number, rows };
    if doubt {
        return Answered::InDoubt(answer);
    }
    Answered::Sure(answer)
}

/// The node applies the event with what comes with it, and the reply says which one that is. Then nothing is kept of
/// the origin.
fn apply_at<K: Keeper>(
    alloc: Global,
    own: &mut Named<K>,
    held: &mut Held,
    fetched: Worker<Fetched>,
) -> Result<Reply, NoMemory>
    requires up { own.old.database.state.up ≡ true }
    requires node { is_some own.old.database.state.node.identity ≡ true }
    requires able { IsAble (waits_as fetched.origin fetched.state.number held.old.queue) }
    requires can { CanLoad fetched.state.load }
    ensures answers { IfOk result (λ reply. Answers own.old.name (base_of K.kept own.old.database) reply
        (base_of K.kept own.new.database)) }
    ensures applies { IfOk result (λ reply. AppliesAt own.old.name fetched
        (base_of K.kept own.old.database, held.old) reply (base_of K.kept own.new.database, held.new)) }
    ensures bounds { held.new.bounds ≡ held.old.bounds }
    ensures name { own.new.name ≡ own.old.name }
{
    let Fetched { number, kind, .. } = fetched.state;
    let rows = fetched.rows()?;
    let origin = fetched.origin;
    let settled = fetched.settle(alloc)?;
    match settled.commit(&mut own.database, &mut held.queue) {
        Ok(doubt) => {
            let _kept = held.fetches.take(origin);
            answered(alloc, &own.name, applied(kind, number, rows, doubt))
        }
        Err(fault) => told(alloc, &own.name, fault),
    }
}

/// The node applies the event with what comes with it, unless 66 an open transaction of it wrote a table that is
/// filled: what was fetched is given up then.
fn settle_at<K: Keeper>(
    alloc: Global,
    own: &mut Named<K>,
    held: &mut Held,
    fetched: Worker<Fetched>,
) -> Result<Reply, NoMemory>
    requires up { own.old.database.state.up ≡ true }
    requires node { is_some own.old.database.state.node.identity ≡ true }
    requires able { IsAble (waits_as fetched.origin fetched.state.number held.old.queue) }
    requires can { CanLoad fetched.state.load }
    ensures answers { IfOk result (λ reply. Answers own.old.name (base_of K.kept own.old.database) reply
        (base_of K.kept own.new.database)) }
    ensures ends { IfOk result (λ reply. EndsWith IsApply own.old.name fetched
        (base_of K.kept own.old.database, held.old) reply (base_of K.kept own.new.database, held.new)) }
    ensures bounds { held.new.bounds ≡ held.old.bounds }
    ensures name { own.new.name ≡ own.old.name }
{
    match fetched.writer(&mut own.database) {
        Ok(None) => apply_at(alloc, own, held, fetched),
        Ok(Some(xid)) => {
            let _kept = held.fetches.take(fetched.origin);
            Ok(Reply::Refused(Refusal::Busy { xid }))
        }
        Err(fault) => told(alloc, &own.name, fault),
    }
}

/// The node keeps what it fetched, in the place of what it kept of that origin, and the reply says how much it is.
fn keep_at(held: &mut Held, fetched: Worker<Fetched>) -> Result<Reply, NoMemory>
    requires can { CanLoad fetched.state.load }
    ensures queue { held.new.queue ≡ held.old.queue }
    ensures bounds { held.new.bounds ≡ held.old.bounds }
    ensures fetches { IfOk result (λ reply. IsPut fetched held.old.fetches held.new.fetches) }
    ensures told { IfOk result (λ reply.
        reply ≡ Accepted (IsFetched fetched.state.number (rows_loaded fetched.state.load))) }
{
    let origin = fetched.origin;
    let number = fetched.state.number;
    let rows = fetched.rows()?;
    held.fetches.put(origin, Kept::of(fetched))?;
    Ok(Reply::Accepted(Answer::Fetched { number, rows }))
}

/// What becomes of an event with which all is there that comes with it.
pub(crate) fn end_at<K: Keeper>(
    alloc: Global,
    own: &mut Named<K>,
    held: &mut Held,
    fetched: Worker<Fetched>,
    aim: Aim,
) -> Result<Reply, NoMemory>
    requires up { own.old.database.state.up ≡ true }
    requires node { is_some own.old.database.state.node.identity ≡ true }
    requires able { IsAble (waits_as fetched.origin fetched.state.number held.old.queue) }
    requires can { CanLoad fetched.state.load }
    ensures answers { IfOk result (λ reply. Answers own.old.name (base_of K.kept own.old.database) reply
        (base_of K.kept own.new.database)) }
    ensures ends { IfOk result (λ reply. EndsWith aim own.old.name fetched
        (base_of K.kept own.old.database, held.old) reply (base_of K.kept own.new.database, held.new)) }
    ensures bounds { held.new.bounds ≡ held.old.bounds }
    ensures name { own.new.name ≡ own.old.name }
{
    match aim {
        Aim::Fetch => keep_at(held, fetched),
        Aim::Apply => settle_at(alloc, own, held, fetched),
    }
}

/// The node of the database at this index fetches or applies the next event of the origin.
fn work_at<K: Keeper>(
    alloc: Global,
    databases: &mut [Named<K>],
    index: usize,
    held: &mut Held,
    cuts: &[(u32, u32)],
    work: Work,
) -> Result<Reply, NoMemory>
    requires distinct { AreDistinct (bases_of K.kept databases.old) }
    requires seat { IsSeatHere databases.old (At index) }
    requires id { IsId work.origin }
    ensures runs { IfOk result (λ reply. Runs (bases_of K.kept databases.old) reply
        (bases_of K.kept databases.new)) }
    ensures carries { IfOk result (λ reply. CarriesOut K.kept
        (record { node = work.node; goal = goal_in work; index = index; cuts = cuts.now })
        (databases.old, held.old) reply (databases.new, held.new)) }
    ensures learns { IfOk result (λ reply. LearnsAt K.kept
        (record { node = work.node; goal = goal_in work; index = index; cuts = cuts.now })
        (databases.old, held.old) held.new) }
{
    match plan_at(alloc, &mut databases[index], held, cuts, work)? {
        Plan::Told(reply) => Ok(reply),
        Plan::Has(fetched) => end_at(alloc, &mut databases[index], held, fetched, work.aim),
        Plan::Bring(taken, copying) => {
            let trip = Trip {
                taken,
                copying,
                aim: work.aim,
            };
            fetch_from(alloc, databases, index, held, trip)
        }
        Plan::Follow(taken) => {
            let way = Way {
                index,
                node: taken.node,
                cuts,
            };
            let round = Round {
                taken,
                aim: work.aim,
            };
            follow_from(alloc, databases, way, held, round)
        }
    }
}

/// The slon of a node has its turn to fetch what comes with the next event of an origin that waits there, or to apply
/// that event, and replies: 44, 16, 67 of the node, 60, 98, where it brings something 75, 68, 44, 16, 62, 63 of each
/// provider, of a copy 52, 57, where it applies the event 66, or what was done. What it applies it brings, unless it
/// fetched that before.
///
/// # Errors
///
/// `NoMemory` where there is none.
pub fn take_work<K: Keeper>(
    alloc: Global,
    databases: &mut [Named<K>],
    held: &mut ByteMap<Held>,
    on: Switched<'_>,
    work: Work,
) -> Result<Reply, NoMemory>
    requires distinct { AreDistinct (bases_of K.kept databases.old) }
    requires id { IsId work.origin }
    ensures runs { IfOk result (λ reply. Runs (bases_of K.kept databases.old) reply
        (bases_of K.kept databases.new)) }
    ensures works { IfOk result (λ reply. Works (goal_in work) work.node
        (record { started = on.entry.started.now; cuts = on.entry.cuts.now })
        (record { bases = bases_of K.kept databases.old; held = held.old }) reply
        (record { bases = bases_of K.kept databases.new; held = held.new })) }
    ensures learns { IfOk result (λ reply. Learns (goal_in work) work.node
        (record { started = on.entry.started.now; cuts = on.entry.cuts.now })
        (record { bases = bases_of K.kept databases.old; held = held.old }) held.new) }
{
    let index = match turn_of(alloc, databases, on.started, work.node)? {
        Reached::At(index) => index,
        Reached::Refused(refusal) => return Ok(Reply::Refused(refusal)),
    };
    let key = key_of(alloc, &databases[index].name)?;
    let mut own = Held::take(alloc, held, key.as_slice());
    let worked = work_at(alloc, databases, index, &mut own, on.cuts, work);
    put_back(held, key, own, worked)
}
