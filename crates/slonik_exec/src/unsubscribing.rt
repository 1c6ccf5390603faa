// UNSUBSCRIBE SET.
ghost use Rattle.std.specs.Prelude.{◌≡◌, true, is_some, [], ◌∷◌, IfOk};
ghost use Rattle.store_rows.specs.Rows.{IsId};
ghost use Rattle.slon_model.specs.Sessions.{when};
ghost use Rattle.slon_model.specs.Subscribing as rules;
ghost use Rattle.slon_model.specs.declared.reply.Refusal.TheVariants as refused;
ghost use Rattle.app_store.specs.Base.{base_of};
ghost use Rattle.slonik_exec.specs.Answering.{Answers, AtNode, AtSeat, Checks};
ghost use Rattle.slonik_exec.specs.Databases.{bases_of, Runs};
ghost use Rattle.slonik_exec.specs.Executing.{Executes};
ghost use Rattle.slonik_exec.specs.Heard.{AreDistinct};

use crate::caller::Caller;
use crate::databases::Named;
use crate::emitting::emit;
use crate::feeds::provides;
use crate::owning::{Owner, find_owner};
use crate::replies::told;
use crate::short::NoMemory;
use node_keeper::Keeper;
use node_rows::Body;
use node_store::{knows_receiver, receivers_of};
use slon_model::{Refusal, Reply};
use std::alloc::Global;

/// 72: the node does not receive the set.
fn check_fed<K: Keeper>(
    alloc: Global,
    seat: &mut Named<K>,
    set: u32,
    receiver: u32,
) -> Result<Option<Reply>, NoMemory>
    requires up { seat.old.database.state.up ≡ true }
    requires can { IsId set × IsId receiver }
    ensures checks { IfOk result (λ found. Checks seat.old.name (base_of K.kept seat.old.database) found
        (base_of K.kept seat.new.database)) }
    ensures refuses { IfOk result (λ found. AtSeat seat.old.name (λ s.
        when (rules.is_unfed set receiver s.known.config) (refused.NotActive receiver) ∷ [])
        (base_of K.kept seat.old.database) found (base_of K.kept seat.new.database)) }
    ensures name { seat.new.name ≡ seat.old.name }
{
    match knows_receiver(&mut seat.database, set, receiver) {
        Ok(true) => Ok(None),
        Ok(false) => Ok(Some(Reply::Refused(Refusal::NotActive { node: receiver }))),
        Err(fault) => Ok(Some(told(alloc, &seat.name, fault)?)),
    }
}

/// 46: another node has the set from this one.
fn check_feeds_none<K: Keeper>(
    alloc: Global,
    seat: &mut Named<K>,
    set: u32,
    receiver: u32,
) -> Result<Option<Reply>, NoMemory>
    requires up { seat.old.database.state.up ≡ true }
    requires can { IsId set }
    ensures checks { IfOk result (λ found. Checks seat.old.name (base_of K.kept seat.old.database) found
        (base_of K.kept seat.new.database)) }
    ensures refuses { IfOk result (λ found. AtSeat seat.old.name (λ s.
        when (rules.provides receiver set s.known.config) (refused.HasReceivers receiver) ∷ [])
        (base_of K.kept seat.old.database) found (base_of K.kept seat.new.database)) }
    ensures name { seat.new.name ≡ seat.old.name }
{
    match receivers_of(&mut seat.database, set) {
        Ok(rows) => {
            if provides(rows.as_slice(), receiver) {
                return Ok(Some(Reply::Refused(Refusal::HasReceivers { node: receiver })));
            }
            Ok(None)
        }
        Err(fault) => Ok(Some(told(alloc, &seat.name, fault)?)),
    }
}

/// What is checked at the owner of a set before a receiver gives it up: 72 and 46.
fn check_leave<K: Keeper>(
    alloc: Global,
    seat: &mut Named<K>,
    set: u32,
    receiver: u32,
) -> Result<Option<Reply>, NoMemory>
    requires up { seat.old.database.state.up ≡ true }
    requires can { IsId set × IsId receiver }
    ensures checks { IfOk result (λ found. Checks seat.old.name (base_of K.kept seat.old.database) found
        (base_of K.kept seat.new.database)) }
    ensures refuses { IfOk result (λ found. AtSeat seat.old.name (λ s. rules.leave_checks set receiver s.known.config)
        (base_of K.kept seat.old.database) found (base_of K.kept seat.new.database)) }
    ensures name { seat.new.name ≡ seat.old.name }
{
    if let Some(reply) = check_fed(alloc, seat, set, receiver)? {
        return Ok(Some(reply));
    }
    check_feeds_none(alloc, seat, set, receiver)
}

/// The owner of the set emits the event by which the receiver gives it up, unless 72 it is no receiver of the set, or
/// 46 another one has the set from it.
fn leave_at<K: Keeper>(
    alloc: Global,
    seat: &mut Named<K>,
    set: u32,
    receiver: u32,
) -> Result<Reply, NoMemory>
    requires up { seat.old.database.state.up ≡ true }
    requires node { is_some seat.old.database.state.node.identity ≡ true }
    requires can { IsId set × IsId receiver }
    ensures answers { IfOk result (λ reply. Answers seat.old.name (base_of K.kept seat.old.database) reply
        (base_of K.kept seat.new.database)) }
    ensures comes { IfOk result (λ reply. AtNode seat.old.name (rules.left_at set receiver)
        (base_of K.kept seat.old.database) reply (base_of K.kept seat.new.database)) }
    ensures name { seat.new.name ≡ seat.old.name }
{
    if let Some(reply) = check_leave(alloc, seat, set, receiver)? {
        return Ok(reply);
    }
    emit(alloc, seat, &Body::UnsubscribeSet { set, receiver })
}

/// UNSUBSCRIBE SET: the owner of the set is found, and emits the event. 47 nobody owns it.
pub(crate) fn unsubscribe_set<K: Keeper>(
    alloc: Global,
    databases: &mut [Named<K>],
    caller: Caller<'_>,
    set: u32,
    receiver: u32,
) -> Result<Reply, NoMemory>
    requires can { IsId set × IsId receiver }
    requires distinct { AreDistinct (bases_of K.kept databases.old) }
    ensures runs { IfOk result (λ reply. Runs (bases_of K.kept databases.old) reply
        (bases_of K.kept databases.new)) }
    ensures executes { IfOk result (λ reply. Executes
        (record { lines = caller.entry.lines.now; cluster = caller.entry.cluster.now })
        (rules.unsubscribe_set set receiver)
        (bases_of K.kept databases.old) reply (bases_of K.kept databases.new)) }
{
    match find_owner(alloc, databases, caller.lines, set)? {
        Owner::At(i) => leave_at(alloc, &mut databases[i], set, receiver),
        Owner::Nobody => Ok(Reply::Refused(Refusal::NoSet { set })),
        Owner::Stopped(reply) => Ok(reply),
    }
}
