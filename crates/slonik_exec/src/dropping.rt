// DROP SET.
ghost use Rattle.std.specs.Prelude.{◌≡◌, true, is_some, IfOk};
ghost use Rattle.store_rows.specs.Rows.{IsId};
ghost use Rattle.slon_model.specs.Sets as rules;
ghost use Rattle.app_store.specs.Base.{base_of};
ghost use Rattle.slonik_exec.specs.Answering.{Answers, AtNode};
ghost use Rattle.slonik_exec.specs.Databases.{bases_of, Runs};
ghost use Rattle.slonik_exec.specs.Executing.{Executes};
ghost use Rattle.slonik_exec.specs.Statements.{set_dropped};

use crate::caller::Caller;
use crate::checks::check_origin;
use crate::databases::Named;
use crate::emitting::emit;
use crate::reaching::{Reached, reach};
use crate::short::NoMemory;
use node_keeper::Keeper;
use node_rows::Body;
use slon_model::Reply;
use std::alloc::Global;

/// The node emits the event by which the set ends, unless 47 it knows no such set, or 55 it is not its origin.
fn drop_set_at<K: Keeper>(alloc: Global, seat: &mut Named<K>, set: u32) -> Result<Reply, NoMemory>
    requires up { seat.old.database.state.up ≡ true }
    requires node { is_some seat.old.database.state.node.identity ≡ true }
    requires can { IsId set }
    ensures answers { IfOk result (λ reply. Answers seat.old.name (base_of K.kept seat.old.database) reply
        (base_of K.kept seat.new.database)) }
    ensures comes { IfOk result (λ reply. AtNode seat.old.name (set_dropped set)
        (base_of K.kept seat.old.database) reply (base_of K.kept seat.new.database)) }
    ensures name { seat.new.name ≡ seat.old.name }
{
    if let Some(reply) = check_origin(alloc, seat, set)? {
        return Ok(reply);
    }
    emit(alloc, seat, &Body::DropSet { set })
}

/// DROP SET: the database of the origin is reached, and ends the set.
pub(crate) fn drop_set<K: Keeper>(
    alloc: Global,
    databases: &mut [Named<K>],
    caller: Caller<'_>,
    set: u32,
    origin: u32,
) -> Result<Reply, NoMemory>
    requires can { IsId set × IsId origin }
    ensures runs { IfOk result (λ reply. Runs (bases_of K.kept databases.old) reply
        (bases_of K.kept databases.new)) }
    ensures executes { IfOk result (λ reply. Executes
        (record { lines = caller.entry.lines.now; cluster = caller.entry.cluster.now }) (rules.drop_set set origin)
        (bases_of K.kept databases.old) reply (bases_of K.kept databases.new)) }
{
    match reach(alloc, databases, caller.lines, caller.cluster, origin)? {
        Reached::At(i) => drop_set_at(alloc, &mut databases[i], set),
        Reached::Refused(refusal) => Ok(Reply::Refused(refusal)),
    }
}
