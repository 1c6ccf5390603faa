// DROP NODE.
ghost use Rattle.std.specs.Prelude.{◌≡◌, true, is_some, not, [], ◌∷◌, IfOk};
ghost use Rattle.std.specs.Option.{option_map};
ghost use Rattle.store_rows.specs.Rows.{IsId};
ghost use Rattle.slon_model.specs.Config as config;
ghost use Rattle.slon_model.specs.Membership as rules;
ghost use Rattle.slon_model.specs.Sessions.{when};
ghost use Rattle.slon_model.specs.declared.reply.Refusal.TheVariants as refused;
ghost use Rattle.app_store.specs.Base.{base_of};
ghost use Rattle.slonik_exec.specs.Answering.{Answers, AtNode, AtSeat, Checks};
ghost use Rattle.slonik_exec.specs.Databases.{bases_of, Runs};
ghost use Rattle.slonik_exec.specs.Executing.{Executes};
ghost use Rattle.slonik_exec.specs.Statements.{leaver_checks, node_dropped};

use crate::caller::Caller;
use crate::databases::Named;
use crate::emitting::emit;
use crate::reaching::{Reached, reach};
use crate::replies::told;
use crate::short::NoMemory;
use node_keeper::Keeper;
use node_rows::Body;
use node_store::{has_live, set_used_by};
use slon_model::{Refusal, Reply};
use std::alloc::Global;

/// 44: the node does not know that another one is live.
fn check_there<K: Keeper>(
    alloc: Global,
    seat: &mut Named<K>,
    node: u32,
) -> Result<Option<Reply>, NoMemory>
    requires up { seat.old.database.state.up ≡ true }
    requires id { IsId node }
    ensures checks { IfOk result (λ found. Checks seat.old.name (base_of K.kept seat.old.database) found
        (base_of K.kept seat.new.database)) }
    ensures refuses { IfOk result (λ found. AtSeat seat.old.name (λ s.
        when (not (config.is_live node s.known.config)) (refused.NoNode node) ∷ [])
        (base_of K.kept seat.old.database) found (base_of K.kept seat.new.database)) }
    ensures name { seat.new.name ≡ seat.old.name }
{
    match has_live(&mut seat.database, node) {
        Ok(true) => Ok(None),
        Ok(false) => Ok(Some(Reply::Refused(Refusal::NoNode { node }))),
        Err(fault) => Ok(Some(told(alloc, &seat.name, fault)?)),
    }
}

/// 76: another node has a part in a live set, as far as this one knows.
fn check_unused<K: Keeper>(
    alloc: Global,
    seat: &mut Named<K>,
    node: u32,
) -> Result<Option<Reply>, NoMemory>
    requires up { seat.old.database.state.up ≡ true }
    ensures checks { IfOk result (λ found. Checks seat.old.name (base_of K.kept seat.old.database) found
        (base_of K.kept seat.new.database)) }
    ensures refuses { IfOk result (λ found. AtSeat seat.old.name (λ s.
        option_map refused.StillUsed (rules.set_used_by node s.known.config) ∷ [])
        (base_of K.kept seat.old.database) found (base_of K.kept seat.new.database)) }
    ensures name { seat.new.name ≡ seat.old.name }
{
    match set_used_by(&mut seat.database, node) {
        Ok(None) => Ok(None),
        Ok(Some(set)) => Ok(Some(Reply::Refused(Refusal::StillUsed { set }))),
        Err(fault) => Ok(Some(told(alloc, &seat.name, fault)?)),
    }
}

/// What is checked of a node at the event node before it is dropped: 44 and 76.
fn check_leaver<K: Keeper>(
    alloc: Global,
    seat: &mut Named<K>,
    node: u32,
) -> Result<Option<Reply>, NoMemory>
    requires up { seat.old.database.state.up ≡ true }
    requires id { IsId node }
    ensures checks { IfOk result (λ found. Checks seat.old.name (base_of K.kept seat.old.database) found
        (base_of K.kept seat.new.database)) }
    ensures refuses { IfOk result (λ found. AtSeat seat.old.name (leaver_checks node)
        (base_of K.kept seat.old.database) found (base_of K.kept seat.new.database)) }
    ensures name { seat.new.name ≡ seat.old.name }
{
    if let Some(reply) = check_there(alloc, seat, node)? {
        return Ok(Some(reply));
    }
    check_unused(alloc, seat, node)
}

/// The event node emits the event by which a node is dropped, unless 78 it is the event node itself, 44 that does not
/// know it as live, or 76 it has a part in a live set.
fn drop_node_at<K: Keeper>(
    alloc: Global,
    seat: &mut Named<K>,
    node: u32,
    event_node: u32,
) -> Result<Reply, NoMemory>
    requires up { seat.old.database.state.up ≡ true }
    requires node { is_some seat.old.database.state.node.identity ≡ true }
    requires can { IsId node }
    ensures answers { IfOk result (λ reply. Answers seat.old.name (base_of K.kept seat.old.database) reply
        (base_of K.kept seat.new.database)) }
    ensures comes { IfOk result (λ reply. AtNode seat.old.name (node_dropped node event_node)
        (base_of K.kept seat.old.database) reply (base_of K.kept seat.new.database)) }
    ensures name { seat.new.name ≡ seat.old.name }
{
    if node == event_node {
        return Ok(Reply::Refused(Refusal::SameNode { node }));
    }
    if let Some(reply) = check_leaver(alloc, seat, node)? {
        return Ok(reply);
    }
    emit(alloc, seat, &Body::DropNode { node })
}

/// DROP NODE: the event node is reached, and drops the other one.
pub(crate) fn drop_node<K: Keeper>(
    alloc: Global,
    databases: &mut [Named<K>],
    caller: Caller<'_>,
    node: u32,
    event_node: u32,
) -> Result<Reply, NoMemory>
    requires can { IsId node × IsId event_node }
    ensures runs { IfOk result (λ reply. Runs (bases_of K.kept databases.old) reply
        (bases_of K.kept databases.new)) }
    ensures executes { IfOk result (λ reply. Executes
        (record { lines = caller.entry.lines.now; cluster = caller.entry.cluster.now })
        (rules.drop_node node event_node)
        (bases_of K.kept databases.old) reply (bases_of K.kept databases.new)) }
{
    match reach(alloc, databases, caller.lines, caller.cluster, event_node)? {
        Reached::At(i) => drop_node_at(alloc, &mut databases[i], node, event_node),
        Reached::Refused(refusal) => Ok(Reply::Refused(refusal)),
    }
}
