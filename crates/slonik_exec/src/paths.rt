// STORE PATH and DROP PATH, at the database of the client.
ghost use Rattle.std.specs.Prelude.{◌≡◌, ◌==◌, true, not, is_some, [], ◌∷◌, IfOk};
ghost use Rattle.slon_base.specs.Codec.{IsText};
ghost use Rattle.store_rows.specs.Rows.{IsId};
ghost use Rattle.app_store.specs.Base.{base_of};
ghost use Rattle.slon_model.specs.Membership as rules;
ghost use Rattle.slonik_exec.specs.Answering.{Answers, AtNode};
ghost use Rattle.slonik_exec.specs.Databases.{bases_of, Runs};
ghost use Rattle.slonik_exec.specs.Executing.{Executes};
ghost use Rattle.slonik_exec.specs.Statements.{path_stored, path_dropped};

use crate::caller::Caller;
use crate::checks::{check_path, check_server};
use crate::databases::Named;
use crate::emitting::emit;
use crate::reaching::{Reached, reach};
use crate::short::NoMemory;
use node_keeper::Keeper;
use node_rows::Body;
use slon_base::Text;
use slon_model::{Refusal, Reply};
use std::alloc::Global;

/// The client stores how it connects to the server, unless 78 they are one node, or 44 it knows that the server was
/// dropped.
pub(crate) fn store_path_at<K: Keeper>(
    alloc: Global,
    seat: &mut Named<K>,
    client: u32,
    server: u32,
    conninfo: &Text,
) -> Result<Reply, NoMemory>
    requires up { seat.old.database.state.up ≡ true }
    requires node { is_some seat.old.database.state.node.identity ≡ true }
    requires can { IsId client × IsId server × IsText conninfo.now }
    ensures answers { IfOk result (λ reply. Answers seat.old.name (base_of K.kept seat.old.database) reply
        (base_of K.kept seat.new.database)) }
    ensures comes { IfOk result (λ reply. AtNode seat.old.name (path_stored client server conninfo.now)
        (base_of K.kept seat.old.database) reply (base_of K.kept seat.new.database)) }
    ensures name { seat.new.name ≡ seat.old.name }
{
    if client == server {
        return Ok(Reply::Refused(Refusal::SameNode { node: client }));
    }
    if let Some(reply) = check_server(alloc, seat, server)? {
        return Ok(reply);
    }
    let conninfo = conninfo.copy(alloc)?;
    let body = Body::StorePath {
        server,
        client,
        conninfo,
    };
    emit(alloc, seat, &body)
}

/// The client forgets a path, unless 75 it knows none.
pub(crate) fn drop_path_at<K: Keeper>(
    alloc: Global,
    seat: &mut Named<K>,
    client: u32,
    server: u32,
) -> Result<Reply, NoMemory>
    requires up { seat.old.database.state.up ≡ true }
    requires node { is_some seat.old.database.state.node.identity ≡ true }
    requires can { IsId client × IsId server }
    ensures answers { IfOk result (λ reply. Answers seat.old.name (base_of K.kept seat.old.database) reply
        (base_of K.kept seat.new.database)) }
    ensures comes { IfOk result (λ reply. AtNode seat.old.name (path_dropped client server)
        (base_of K.kept seat.old.database) reply (base_of K.kept seat.new.database)) }
    ensures name { seat.new.name ≡ seat.old.name }
{
    if let Some(reply) = check_path(alloc, seat, client, server)? {
        return Ok(reply);
    }
    emit(alloc, seat, &Body::DropPath { server, client })
}

/// STORE PATH: the database of the client is reached, and stores the path.
pub(crate) fn store_path<K: Keeper>(
    alloc: Global,
    databases: &mut [Named<K>],
    caller: Caller<'_>,
    client: u32,
    server: u32,
    conninfo: &Text,
) -> Result<Reply, NoMemory>
    requires can { IsId client × IsId server × IsText conninfo.now }
    ensures runs { IfOk result (λ reply. Runs (bases_of K.kept databases.old) reply
        (bases_of K.kept databases.new)) }
    ensures executes { IfOk result (λ reply. Executes
        (record { lines = caller.entry.lines.now; cluster = caller.entry.cluster.now })
        (rules.store_path server client conninfo.now)
        (bases_of K.kept databases.old) reply (bases_of K.kept databases.new)) }
{
    match reach(alloc, databases, caller.lines, caller.cluster, client)? {
        Reached::At(i) => store_path_at(alloc, &mut databases[i], client, server, conninfo),
        Reached::Refused(refusal) => Ok(Reply::Refused(refusal)),
    }
}

/// DROP PATH: the database of the client is reached, and forgets the path.
pub(crate) fn drop_path<K: Keeper>(
    alloc: Global,
    databases: &mut [Named<K>],
    caller: Caller<'_>,
    client: u32,
    server: u32,
) -> Result<Reply, NoMemory>
    requires can { IsId client × IsId server }
    ensures runs { IfOk result (λ reply. Runs (bases_of K.kept databases.old) reply
        (bases_of K.kept databases.new)) }
    ensures executes { IfOk result (λ reply. Executes
        (record { lines = caller.entry.lines.now; cluster = caller.entry.cluster.now })
        (rules.drop_path server client)
        (bases_of K.kept databases.old) reply (bases_of K.kept databases.new)) }
{
    match reach(alloc, databases, caller.lines, caller.cluster, client)? {
        Reached::At(i) => drop_path_at(alloc, &mut databases[i], client, server),
        Reached::Refused(refusal) => Ok(Reply::Refused(refusal)),
    }
}
