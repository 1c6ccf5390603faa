// CREATE SET and SET ADD TABLE.
ghost use Rattle.std.specs.Prelude.{◌≡◌, true, is_some, Some, [], ◌∷◌, IfOk};
ghost use Rattle.slon_base.specs.Codec.{IsText};
ghost use Rattle.store_rows.specs.Rows.{IsId};
ghost use Rattle.slon_model.specs.Sets as rules;
ghost use Rattle.app_store.specs.Base.{base_of};
ghost use Rattle.slonik_exec.specs.Answering.{Answers, AtSeat, Checks};
ghost use Rattle.slonik_exec.specs.Databases.{bases_of, Runs};
ghost use Rattle.slonik_exec.specs.Executing.{Executes, ChecksAll, RunsFound};
ghost use Rattle.slonik_exec.specs.Heard.{AreDistinct};
ghost use Rattle.slonik_exec.specs.Statements.{set_checks, new_checks, AddsTable};

use crate::caller::Caller;
use crate::checks::{check_nodes, check_origin, check_receivers, check_table, check_writers};
use crate::databases::Named;
use crate::emitting::emit;
use crate::knowing::{Heard, Question, known_somewhere};
use crate::reaching::{Reached, reach};
use crate::short::NoMemory;
use node_keeper::Keeper;
use node_rows::Body;
use slon_base::Text;
use slon_model::{Refusal, Reply};
use std::alloc::Global;

/// The origin makes a set, unless 16 a node is down, or 18 a set of the id is known somewhere.
pub(crate) fn create_set<K: Keeper>(
    alloc: Global,
    databases: &mut [Named<K>],
    caller: Caller<'_>,
    id: u32,
    origin: u32,
    comment: &Text,
) -> Result<Reply, NoMemory>
    requires can { IsId id × IsId origin × IsText comment.now }
    requires distinct { AreDistinct (bases_of K.kept databases.old) }
    ensures runs { IfOk result (λ reply. Runs (bases_of K.kept databases.old) reply
        (bases_of K.kept databases.new)) }
    ensures executes { IfOk result (λ reply. Executes
        (record { lines = caller.entry.lines.now; cluster = caller.entry.cluster.now })
        (rules.create_set id origin (Some comment.now))
        (bases_of K.kept databases.old) reply (bases_of K.kept databases.new)) }
{
    let i = match reach(alloc, databases, caller.lines, caller.cluster, origin)? {
        Reached::At(i) => i,
        Reached::Refused(refusal) => return Ok(Reply::Refused(refusal)),
    };
    if let Some(refusal) = check_nodes(alloc, databases)? {
        return Ok(Reply::Refused(refusal));
    }
    match known_somewhere(alloc, databases, &Question::Set(id))? {
        Heard::Stopped(reply) => return Ok(reply),
        Heard::Known(true) => return Ok(Reply::Refused(Refusal::IdUsed { id })),
        Heard::Known(false) => {}
    }
    let comment = comment.copy(alloc)?;
    let body = Body::StoreSet {
        set: id,
        origin,
        comment,
    };
    emit(alloc, &mut databases[i], &body)
}

/// A table that comes into a set.
#[derive(Clone, Copy)]
pub(crate) struct NewTable<'a> {
    pub(crate) set_id: u32,
    pub(crate) id: u32,
    pub(crate) name: &'a Text,
    pub(crate) comment: &'a Text,
}

/// What is checked of a table at the origin of its set, before other nodes are asked: 47, 55, 46 and 52.
fn check_set<K: Keeper>(
    alloc: Global,
    seat: &mut Named<K>,
    table: NewTable<'_>,
) -> Result<Option<Reply>, NoMemory>
    requires up { seat.old.database.state.up ≡ true }
    requires node { is_some seat.old.database.state.node.identity ≡ true }
    requires can { IsId table.set_id × IsText table.name.now }
    ensures checks { IfOk result (λ found. Checks seat.old.name (base_of K.kept seat.old.database) found
        (base_of K.kept seat.new.database)) }
    ensures refuses { IfOk result (λ found. AtSeat seat.old.name (set_checks table.entry.set_id table.entry.name.now)
        (base_of K.kept seat.old.database) found (base_of K.kept seat.new.database)) }
    ensures name { seat.new.name ≡ seat.old.name }
{
    if let Some(reply) = check_origin(alloc, seat, table.set_id)? {
        return Ok(Some(reply));
    }
    if let Some(reply) = check_receivers(alloc, seat, table.set_id)? {
        return Ok(Some(reply));
    }
    check_table(alloc, seat, table.name)
}

/// 18 and 58: a table of the id or of the name is known somewhere.
fn check_new<K: Keeper>(
    alloc: Global,
    databases: &mut [Named<K>],
    table: NewTable<'_>,
) -> Result<Option<Reply>, NoMemory>
    requires can { IsId table.id × IsText table.name.now }
    requires distinct { AreDistinct (bases_of K.kept databases.old) }
    ensures runs { IfOk result (λ found. RunsFound (bases_of K.kept databases.old) found
        (bases_of K.kept databases.new)) }
    ensures refuses { IfOk result (λ found. ChecksAll (new_checks table.entry.id table.entry.name.now)
        (bases_of K.kept databases.old) found (bases_of K.kept databases.new)) }
{
    let id = table.id;
    match known_somewhere(alloc, databases, &Question::Table(id))? {
        Heard::Stopped(reply) => return Ok(Some(reply)),
        Heard::Known(true) => return Ok(Some(Reply::Refused(Refusal::IdUsed { id }))),
        Heard::Known(false) => {}
    }
    match known_somewhere(alloc, databases, &Question::Name(table.name))? {
        Heard::Stopped(reply) => Ok(Some(reply)),
        Heard::Known(true) => {
            let table = table.name.copy(alloc)?;
            Ok(Some(Reply::Refused(Refusal::TableUsed { table })))
        }
        Heard::Known(false) => Ok(None),
    }
}

/// The origin puts the table into the set, unless 66 an open transaction wrote it.
fn add_table<K: Keeper>(
    alloc: Global,
    seat: &mut Named<K>,
    table: NewTable<'_>,
) -> Result<Reply, NoMemory>
    requires up { seat.old.database.state.up ≡ true }
    requires node { is_some seat.old.database.state.node.identity ≡ true }
    requires can { IsId table.set_id × IsId table.id × IsText table.name.now × IsText table.comment.now }
    ensures answers { IfOk result (λ reply. Answers seat.old.name (base_of K.kept seat.old.database) reply
        (base_of K.kept seat.new.database)) }
    ensures adds { IfOk result (λ reply. AddsTable seat.old.name (record {
      set_id = table.entry.set_id;
      id = table.entry.id;
      name = table.entry.name.now;
      comment = table.entry.comment.now;
    })
        (base_of K.kept seat.old.database) reply (base_of K.kept seat.new.database)) }
    ensures name { seat.new.name ≡ seat.old.name }
{
    if let Some(reply) = check_writers(alloc, seat, table.name)? {
        return Ok(reply);
    }
    let body = Body::SetAddTable {
        set: table.set_id,
        table: table.id,
        name: table.name.copy(alloc)?,
        comment: table.comment.copy(alloc)?,
    };
    emit(alloc, seat, &body)
}

/// The origin puts a table into a set, unless 47 it knows no such set, 55 it is not its origin, 46 the set has a
/// receiver, 52 the database has no such table, 16 a node is down, 18 or 58 a table of the id or of the name is known
/// somewhere, or 66 an open transaction wrote the table.
pub(crate) fn set_add_table<K: Keeper>(
    alloc: Global,
    databases: &mut [Named<K>],
    caller: Caller<'_>,
    origin: u32,
    table: NewTable<'_>,
) -> Result<Reply, NoMemory>
    requires can { IsId origin × IsId table.set_id × IsId table.id × IsText table.name.now
        × IsText table.comment.now }
    requires distinct { AreDistinct (bases_of K.kept databases.old) }
    ensures runs { IfOk result (λ reply. Runs (bases_of K.kept databases.old) reply
        (bases_of K.kept databases.new)) }
    ensures executes { IfOk result (λ reply. Executes
        (record { lines = caller.entry.lines.now; cluster = caller.entry.cluster.now })
        (rules.set_add_table origin (record {
          set_id = table.entry.set_id;
          id = table.entry.id;
          name = table.entry.name.now;
          comment = table.entry.comment.now;
        }))
        (bases_of K.kept databases.old) reply (bases_of K.kept databases.new)) }
{
    let i = match reach(alloc, databases, caller.lines, caller.cluster, origin)? {
        Reached::At(i) => i,
        Reached::Refused(refusal) => return Ok(Reply::Refused(refusal)),
    };
    if let Some(reply) = check_set(alloc, &mut databases[i], table)? {
        return Ok(reply);
    }
    if let Some(refusal) = check_nodes(alloc, databases)? {
        return Ok(Reply::Refused(refusal));
    }
    if let Some(reply) = check_new(alloc, databases, table)? {
        return Ok(reply);
    }
    add_table(alloc, &mut databases[i], table)
}
