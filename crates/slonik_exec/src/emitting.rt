// A statement has the node that it reached emit events.
ghost use Rattle.std.specs.Prelude.{◌≡◌, ◌<◌, true, is_some, length, Ok, Some, List, ℕ, [], ◌∷◌, IfOk};
ghost use Rattle.slon_base.specs.Codec.{AllAre};
ghost use Rattle.node_rows.specs.Spellings.{CanBody};
ghost use Rattle.event_store.specs.Keeping.{KeepsViews};
ghost use Rattle.app_store.specs.Base.{base_of};
ghost use Rattle.slonik_exec.specs.Answering.{Answers};
ghost use Rattle.slonik_exec.specs.Emitting.{Emits, EmitsAll};

use crate::databases::Named;
use crate::replies::{answered, told};
use crate::short::NoMemory;
use node_keeper::Keeper;
use node_rows::Body;
use node_store::{DbFault, announce};
use slon_model::{Answer, Answered, Reply};
use std::alloc::Global;
use std::array;

/// The node emits events with these bodies, one after the other, in one commit, and the reply says so.
pub(crate) fn emit_all<K: Keeper>(
    alloc: Global,
    seat: &mut Named<K>,
    bodies: &[Body],
) -> Result<Reply, NoMemory>
    requires up { seat.old.database.state.up ≡ true }
    requires node { is_some seat.old.database.state.node.identity ≡ true }
    requires can { AllAre CanBody bodies.now }
    requires keeps { AllAre KeepsViews bodies.now }
    requires some { 0 < length bodies.now }
    ensures answers { IfOk result (λ reply. Answers seat.old.name (base_of K.kept seat.old.database) reply
        (base_of K.kept seat.new.database)) }
    ensures emits { IfOk result (λ reply. EmitsAll seat.old.name bodies.now (base_of K.kept seat.old.database) reply
        (base_of K.kept seat.new.database)) }
    ensures name { seat.new.name ≡ seat.old.name }
{
    let Some(node) = seat.database.node_id() else {
        return told(alloc, &seat.name, DbFault::Down);
    };
    match announce(&mut seat.database, bodies) {
        Ok((number, false)) => {
            let answer = Answer::Emitted { node, number };
            answered(alloc, &seat.name, Answered::Sure(answer))
        }
        Ok((number, true)) => {
            let answer = Answer::Emitted { node, number };
            answered(alloc, &seat.name, Answered::InDoubt(answer))
        }
        Err(fault) => told(alloc, &seat.name, fault),
    }
}

/// The node emits an event with this body, and the reply says so.
pub(crate) fn emit<K: Keeper>(
    alloc: Global,
    seat: &mut Named<K>,
    body: &Body,
) -> Result<Reply, NoMemory>
    requires up { seat.old.database.state.up ≡ true }
    requires node { is_some seat.old.database.state.node.identity ≡ true }
    requires can { CanBody body.now }
    requires keeps { KeepsViews body.now }
    ensures answers { IfOk result (λ reply. Answers seat.old.name (base_of K.kept seat.old.database) reply
        (base_of K.kept seat.new.database)) }
    ensures emits { IfOk result (λ reply. Emits seat.old.name body.now (base_of K.kept seat.old.database) reply
        (base_of K.kept seat.new.database)) }
    ensures name { seat.new.name ≡ seat.old.name }
{
    emit_all(alloc, seat, array::from_ref(body))
}
