// SYNC, as a statement and as a turn of a slon.
ghost use Rattle.std.specs.Prelude.{◌≡◌, true, is_some, Ok, [], ◌∷◌, IfOk};
ghost use Rattle.store_rows.specs.Rows.{IsId};
ghost use Rattle.slon_model.specs.Membership as membership;
ghost use Rattle.slon_model.specs.Sessions.{when};
ghost use Rattle.slon_model.specs.Turns as rules;
ghost use Rattle.slon_model.specs.declared.reply.Refusal.TheVariants as refused;
ghost use Rattle.app_store.specs.Base.{base_of};
ghost use Rattle.slonik_exec.specs.Answering.{Answers, AtNode, AtSeat, Checks};
ghost use Rattle.slonik_exec.specs.Databases.{bases_of, Runs};
ghost use Rattle.slonik_exec.specs.Executing.{Executes};
ghost use Rattle.slonik_exec.specs.Heard.{AreDistinct};
ghost use Rattle.slonik_exec.specs.Turning.{Turns};

use crate::caller::Caller;
use crate::databases::Named;
use crate::emitting::emit;
use crate::reaching::{Reached, reach};
use crate::replies::told;
use crate::short::NoMemory;
use crate::turns::turn_of;
use node_keeper::Keeper;
use node_rows::Body;
use node_store::is_synced;
use slon_model::{Refusal, Reply};
use std::alloc::Global;

/// 60: the last SYNC of the node has the snapshot that is taken now.
fn check_synced<K: Keeper>(alloc: Global, seat: &mut Named<K>) -> Result<Option<Reply>, NoMemory>
    requires up { seat.old.database.state.up ≡ true }
    requires node { is_some seat.old.database.state.node.identity ≡ true }
    ensures checks { IfOk result (λ found. Checks seat.old.name (base_of K.kept seat.old.database) found
        (base_of K.kept seat.new.database)) }
    ensures refuses { IfOk result (λ found. AtSeat seat.old.name (λ s.
        when (rules.is_synced s) refused.Nothing ∷ [])
        (base_of K.kept seat.old.database) found (base_of K.kept seat.new.database)) }
    ensures name { seat.new.name ≡ seat.old.name }
{
    match is_synced(&mut seat.database) {
        Ok(false) => Ok(None),
        Ok(true) => Ok(Some(Reply::Refused(Refusal::Nothing))),
        Err(fault) => Ok(Some(told(alloc, &seat.name, fault)?)),
    }
}

/// The node emits a SYNC, unless 60 its last one has the snapshot that is taken now.
fn sync_at<K: Keeper>(alloc: Global, seat: &mut Named<K>) -> Result<Reply, NoMemory>
    requires up { seat.old.database.state.up ≡ true }
    requires node { is_some seat.old.database.state.node.identity ≡ true }
    ensures answers { IfOk result (λ reply. Answers seat.old.name (base_of K.kept seat.old.database) reply
        (base_of K.kept seat.new.database)) }
    ensures comes { IfOk result (λ reply. AtNode seat.old.name rules.sync_at
        (base_of K.kept seat.old.database) reply (base_of K.kept seat.new.database)) }
    ensures name { seat.new.name ≡ seat.old.name }
{
    if let Some(reply) = check_synced(alloc, seat)? {
        return Ok(reply);
    }
    emit(alloc, seat, &Body::Sync)
}

/// The slon of a node has its turn to emit a SYNC, and replies: 44, 16, 67, 60, or the event.
///
/// # Errors
///
/// `NoMemory` where there is none.
pub fn take_sync<K: Keeper>(
    alloc: Global,
    databases: &mut [Named<K>],
    started: &[u32],
    node: u32,
) -> Result<Reply, NoMemory>
    requires distinct { AreDistinct (bases_of K.kept databases.old) }
    ensures runs { IfOk result (λ reply. Runs (bases_of K.kept databases.old) reply
        (bases_of K.kept databases.new)) }
    ensures turns { IfOk result (λ reply. Turns node started.now (rules.sync_turn node)
        (bases_of K.kept databases.old) reply (bases_of K.kept databases.new)) }
{
    match turn_of(alloc, databases, started, node)? {
        Reached::At(i) => sync_at(alloc, &mut databases[i]),
        Reached::Refused(refusal) => Ok(Reply::Refused(refusal)),
    }
}

/// SYNC: the database of the node is reached, and emits one.
pub(crate) fn sync<K: Keeper>(
    alloc: Global,
    databases: &mut [Named<K>],
    caller: Caller<'_>,
    id: u32,
) -> Result<Reply, NoMemory>
    requires can { IsId id }
    ensures runs { IfOk result (λ reply. Runs (bases_of K.kept databases.old) reply
        (bases_of K.kept databases.new)) }
    ensures executes { IfOk result (λ reply. Executes
        (record { lines = caller.entry.lines.now; cluster = caller.entry.cluster.now })
        (membership.sync_node id)
        (bases_of K.kept databases.old) reply (bases_of K.kept databases.new)) }
{
    match reach(alloc, databases, caller.lines, caller.cluster, id)? {
        Reached::At(i) => emit(alloc, &mut databases[i], &Body::Sync),
        Reached::Refused(refusal) => Ok(Reply::Refused(refusal)),
    }
}
