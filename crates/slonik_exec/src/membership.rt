// INIT CLUSTER and STORE NODE.
ghost use Rattle.std.specs.Prelude.{◌≡◌, true, false, is_some, Some, IfOk};
ghost use Rattle.slon_base.specs.Codec.{IsText};
ghost use Rattle.store_rows.specs.Rows.{IsId};
ghost use Rattle.app_store.specs.Base.{base_of};
ghost use Rattle.node_store.specs.Acting.{node_of};
ghost use Rattle.node_store.specs.Joining.{joiner};
ghost use Rattle.slon_model.specs.Membership as rules;
ghost use Rattle.slonik_exec.specs.Answering.{Answers};
ghost use Rattle.slonik_exec.specs.Databases.{bases_of, Runs};
ghost use Rattle.slonik_exec.specs.Executing.{Executes};
ghost use Rattle.slonik_exec.specs.Heard.{AreDistinct};
ghost use Rattle.slonik_exec.specs.Statements.{FoundsAt};
ghost use Rattle.slonik_exec.specs.Stored.{couple_of, pair_of, AreJoinable, JoinedAt, JoinsTold};

use crate::caller::Caller;
use crate::databases::Named;
use crate::knowing::{Heard, Question, down_database, down_node, first_node, known_somewhere};
use crate::reaching::{Reached, database_of_line, reach};
use crate::replies::{answered, told};
use crate::short::NoMemory;
use node_keeper::Keeper;
use node_store::{DbFault, Joined, Side, found, join};
use slon_base::Text;
use slon_model::{Answer, Answered, Refusal, Reply};
use std::alloc::Global;

/// The database becomes the first node of the cluster of the script, and the reply says so.
fn found_at<K: Keeper>(
    alloc: Global,
    named: &mut Named<K>,
    id: u32,
    cluster: &Text,
    comment: &Text,
) -> Result<Reply, NoMemory>
    requires up { named.old.database.state.up ≡ true }
    requires none { is_some named.old.database.state.node.identity ≡ false }
    requires can { IsId id × IsText cluster.now × IsText comment.now }
    ensures answers { IfOk result (λ reply. Answers named.old.name (base_of K.kept named.old.database) reply
        (base_of K.kept named.new.database)) }
    ensures founds { IfOk result (λ reply. FoundsAt named.old.name (node_of id cluster.now comment.now)
        (base_of K.kept named.old.database) reply (base_of K.kept named.new.database)) }
    ensures name { named.new.name ≡ named.old.name }
{
    match found(&mut named.database, id, cluster, comment) {
        Ok(false) => answered(alloc, &named.name, Answered::Sure(Answer::Done)),
        Ok(true) => answered(alloc, &named.name, Answered::InDoubt(Answer::Done)),
        Err(fault) => told(alloc, &named.name, fault),
    }
}

/// A database becomes the first node of a cluster, unless 16 any database is down, or 43 one is a node already.
pub(crate) fn init_cluster<K: Keeper>(
    alloc: Global,
    databases: &mut [Named<K>],
    caller: Caller<'_>,
    id: u32,
    comment: &Text,
) -> Result<Reply, NoMemory>
    requires can { IsId id × IsText caller.cluster.now × IsText comment.now }
    ensures runs { IfOk result (λ reply. Runs (bases_of K.kept databases.old) reply
        (bases_of K.kept databases.new)) }
    ensures executes { IfOk result (λ reply. Executes
        (record { lines = caller.entry.lines.now; cluster = caller.entry.cluster.now })
        (rules.init_cluster id (Some comment.now))
        (bases_of K.kept databases.old) reply (bases_of K.kept databases.new)) }
{
    let i = match database_of_line(alloc, databases, caller.lines, id)? {
        Reached::At(i) => i,
        Reached::Refused(refusal) => return Ok(Reply::Refused(refusal)),
    };
    if let Some(name) = down_database(databases) {
        let database = name.copy(alloc)?;
        return Ok(Reply::Refused(Refusal::Down { database }));
    }
    if let Some(node) = first_node(databases) {
        return Ok(Reply::Refused(Refusal::AlreadyNode { node }));
    }
    found_at(alloc, &mut databases[i], id, caller.cluster, comment)
}

/// The database `to` becomes a node by an event of the database `from`, and the reply says so.
fn join_at<K: Keeper>(
    alloc: Global,
    from: &mut Named<K>,
    to: &mut Named<K>,
    id: u32,
    comment: &Text,
) -> Result<Reply, NoMemory>
    requires up { (from.old.database.state.up ≡ true) × (to.old.database.state.up ≡ true) }
    requires node { is_some from.old.database.state.node.identity ≡ true }
    requires none { is_some to.old.database.state.node.identity ≡ false }
    requires can { IsId id × IsText comment.now }
    ensures joins { IfOk result (λ reply. JoinsTold (joiner id comment.now)
        (couple_of K.kept from.old to.old) reply (pair_of K.kept from.new to.new)) }
    ensures names { (from.new.name ≡ from.old.name) × (to.new.name ≡ to.old.name) }
{
    let Some(node) = from.database.node_id() else {
        return told(alloc, &from.name, DbFault::Down);
    };
    match join(&mut from.database, &mut to.database, id, comment) {
        Ok((number, joined)) => {
            let answer = Answer::Emitted { node, number };
            match joined {
                Joined::Done => answered(alloc, &from.name, Answered::Sure(answer)),
                Joined::EventInDoubt => answered(alloc, &from.name, Answered::InDoubt(answer)),
                Joined::NodeInDoubt => answered(alloc, &to.name, Answered::InDoubt(answer)),
            }
        }
        Err(fell) => match fell.side {
            Side::From => told(alloc, &from.name, fell.fault),
            Side::To => told(alloc, &to.name, fell.fault),
        },
    }
}

/// The places of two databases in a list.
#[derive(Clone, Copy)]
pub struct Spots {
    /// Of that of the event node, or of the node that polls.
    pub from: usize,
    /// Of that which becomes a node, or of the server.
    pub to: usize,
}

/// The same at two places.
fn join_both<K: Keeper>(
    alloc: Global,
    databases: &mut [Named<K>],
    spots: Spots,
    id: u32,
    comment: &Text,
) -> Result<Reply, NoMemory>
    requires joinable { AreJoinable databases.old spots }
    requires can { IsId id × IsText comment.now }
    ensures joined { IfOk result (λ reply. JoinedAt K.kept (joiner id comment.now) spots databases.old reply
        databases.new) }
{
    if spots.from < spots.to {
        let (front, back) = databases.split_at_mut(spots.to);
        join_at(alloc, &mut front[spots.from], &mut back[0], id, comment)
    } else {
        let (front, back) = databases.split_at_mut(spots.from);
        join_at(alloc, &mut back[0], &mut front[spots.to], id, comment)
    }
}

/// A database becomes a further node of the cluster, by an event of this node, unless 43 it is a node already, 16 a
/// node is down, or 18 a node of the id is known somewhere.
pub(crate) fn store_node<K: Keeper>(
    alloc: Global,
    databases: &mut [Named<K>],
    caller: Caller<'_>,
    id: u32,
    event_node: u32,
    comment: &Text,
) -> Result<Reply, NoMemory>
    requires can { IsId id × IsText comment.now }
    requires distinct { AreDistinct (bases_of K.kept databases.old) }
    ensures runs { IfOk result (λ reply. Runs (bases_of K.kept databases.old) reply
        (bases_of K.kept databases.new)) }
    ensures executes { IfOk result (λ reply. Executes
        (record { lines = caller.entry.lines.now; cluster = caller.entry.cluster.now })
        (rules.store_node id event_node (Some comment.now))
        (bases_of K.kept databases.old) reply (bases_of K.kept databases.new)) }
{
    let from = match reach(alloc, databases, caller.lines, caller.cluster, event_node)? {
        Reached::At(from) => from,
        Reached::Refused(refusal) => return Ok(Reply::Refused(refusal)),
    };
    let to = match database_of_line(alloc, databases, caller.lines, id)? {
        Reached::At(to) => to,
        Reached::Refused(refusal) => return Ok(Reply::Refused(refusal)),
    };
    if let Some(node) = databases[to].database.node_id() {
        return Ok(Reply::Refused(Refusal::AlreadyNode { node }));
    }
    if let Some(name) = down_node(databases) {
        let database = name.copy(alloc)?;
        return Ok(Reply::Refused(Refusal::Down { database }));
    }
    match known_somewhere(alloc, databases, &Question::Node(id))? {
        Heard::Stopped(reply) => Ok(reply),
        Heard::Known(true) => Ok(Reply::Refused(Refusal::IdUsed { id })),
        Heard::Known(false) => join_both(alloc, databases, Spots { from, to }, id, comment),
    }
}
