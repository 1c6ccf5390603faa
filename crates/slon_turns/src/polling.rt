// A poll at the two databases that it concerns.
ghost use Rattle.std.specs.Prelude.{◌≡◌, true, is_some, IfOk};
ghost use Rattle.slon_base.specs.Codec.{AllAre};
ghost use Rattle.store_rows.specs.Rows.{IsId};
ghost use Rattle.slon_model.specs.declared.command.Delivery.TheVariants.{Once as IsOnce};
ghost use Rattle.event_store.specs.Giving.{IsConfirmation};
ghost use Rattle.event_store.specs.Telling.{IsOfOther};
ghost use Rattle.app_store.specs.Base.{base_of};
ghost use Rattle.node_store.specs.Acting.{own_id};
ghost use Rattle.std.specs.Option.{option_map};
ghost use Rattle.remote_listener.specs.Reading.{AreRowsOf};
ghost use Rattle.slonik_exec.specs.Answering.{Answers};
ghost use Rattle.slonik_exec.specs.Stored.{couple_of, pair_of};
ghost use Rattle.slon_turns.specs.Polling.{heard_as, AnswersAt, BringsAt, DeliversAt, ListensTo, RunsBetween};

use event_store::Queue;
use node_keeper::Keeper;
use remote_listener::{Asked, Listener, Polled};
use slon_model::{Answer, Answered, Delivery, Refusal, Reply};
use slonik_exec::{Named, NoMemory, answered, told};
use std::alloc::Global;

/// What a poll is asked.
#[derive(Clone, Copy)]
pub struct Listen {
    /// The id of the node that polls.
    pub node: u32,
    /// The id of the server.
    pub server: u32,
    /// What becomes of what the poll brings.
    pub delivery: Delivery,
    /// Whether the two nodes are cut off from one another.
    pub cut: bool,
}

/// What is answered to a delivery, which may be in doubt.
fn heard(events: usize, confirms: usize, doubt: bool) -> Answered
    ensures { result ≡ heard_as events confirms doubt }
{
    let answer = Answer::Heard {
        events: events as u64,
        confirms: confirms as u64,
    };
    if doubt {
        return Answered::InDoubt(answer);
    }
    Answered::Sure(answer)
}

/// What was polled is delivered, and the reply says how much that is.
fn deliver<K: Keeper>(
    alloc: Global,
    own: &mut Named<K>,
    polled: Listener<Polled>,
    queue: &mut Queue,
) -> Result<Reply, NoMemory>
    requires up { own.old.database.state.up ≡ true }
    requires node { is_some own.old.database.state.node.identity ≡ true }
    requires others { AllAre (IsOfOther (own_id own.old.database.state.node.identity)) polled.state.confirms }
    ensures answers { IfOk result (λ reply. Answers own.old.name (base_of K.kept own.old.database) reply
        (base_of K.kept own.new.database)) }
    ensures delivers { IfOk result (λ reply. DeliversAt IsOnce own.old.name polled.state
        (base_of K.kept own.old.database, queue.old) reply (base_of K.kept own.new.database, queue.new)) }
    ensures name { own.new.name ≡ own.old.name }
{
    let (events, confirms) = polled.counts();
    match polled.deliver(&mut own.database, queue) {
        Ok(doubt) => answered(alloc, &own.name, heard(events, confirms, doubt)),
        Err(fault) => told(alloc, &own.name, fault),
    }
}

/// What a server handed over is delivered or lost on the way, unless 60 nothing of it is new for the node.
fn bring<K: Keeper>(
    alloc: Global,
    own: &mut Named<K>,
    asked: Listener<Asked>,
    queue: &mut Queue,
    delivery: Delivery,
) -> Result<Reply, NoMemory>
    requires up { own.old.database.state.up ≡ true }
    requires node { is_some own.old.database.state.node.identity ≡ true }
    requires rows { AllAre IsConfirmation asked.state.handed.rows }
    ensures answers { IfOk result (λ reply. Answers own.old.name (base_of K.kept own.old.database) reply
        (base_of K.kept own.new.database)) }
    ensures brings { IfOk result (λ reply. BringsAt delivery own.old.name asked.state.handed
        (base_of K.kept own.old.database, queue.old) reply (base_of K.kept own.new.database, queue.new)) }
    ensures name { own.new.name ≡ own.old.name }
{
    let polled = match asked.sift(&mut own.database) {
        Ok(polled) => polled,
        Err(fault) => return told(alloc, &own.name, fault),
    };
    if polled.is_empty() {
        return Ok(Reply::Refused(Refusal::Nothing));
    }
    match delivery {
        Delivery::Lost => {
            let (events, confirms) = polled.counts();
            Ok(Reply::Accepted(Answer::LostOnTheWay {
                events: events as u64,
                confirms: confirms as u64,
            }))
        }
        Delivery::Once => deliver(alloc, own, polled, queue),
        // What arrives twice is there already the second time.
        Delivery::Again => deliver(alloc, own, polled, queue),
    }
}

/// What a server answered is delivered or lost on the way, unless 62 it does not know the node, or 60 nothing is new.
fn answer<K: Keeper>(
    alloc: Global,
    own: &mut Named<K>,
    asked: Option<Listener<Asked>>,
    queue: &mut Queue,
    listen: Listen,
) -> Result<Reply, NoMemory>
    requires up { own.old.database.state.up ≡ true }
    requires node { is_some own.old.database.state.node.identity ≡ true }
    requires rows { AreRowsOf (option_map (λ l. l.state.handed) asked) }
    ensures answers { IfOk result (λ reply. Answers own.old.name (base_of K.kept own.old.database) reply
        (base_of K.kept own.new.database)) }
    ensures comes { IfOk result (λ reply. AnswersAt listen own.old.name (option_map (λ l. l.state.handed) asked)
        (base_of K.kept own.old.database, queue.old) reply (base_of K.kept own.new.database, queue.new)) }
    ensures name { own.new.name ≡ own.old.name }
{
    match asked {
        Some(asked) => bring(alloc, own, asked, queue, listen.delivery),
        None => Ok(Reply::Refused(Refusal::NotKnown { node: listen.node })),
    }
}

/// The node of the one database polls the server of the other one. It is refused where it 61 hears of no origin
/// there, 68 is cut off from it, 16 the server is down, 62 it does not know the node, and 60 nothing is new.
pub(crate) fn poll_between<K: Keeper>(
    alloc: Global,
    own: &mut Named<K>,
    server: &mut Named<K>,
    queue: &mut Queue,
    listen: Listen,
) -> Result<Reply, NoMemory>
    requires up { own.old.database.state.up ≡ true }
    requires nodes { (is_some own.old.database.state.node.identity ≡ true) ×
        (is_some server.old.database.state.node.identity ≡ true) }
    requires ids { IsId listen.server × (listen.server ≡ listen.node → ⊥) }
    ensures runs { IfOk result (λ reply. RunsBetween (couple_of K.kept own.old server.old) reply
        (pair_of K.kept own.new server.new)) }
    ensures listens { IfOk result (λ reply. ListensTo listen (couple_of K.kept own.old server.old) queue.old reply
        (pair_of K.kept own.new server.new) queue.new) }
    ensures names { (own.new.name ≡ own.old.name) × (server.new.name ≡ server.old.name) }
{
    let linked = match Listener::restart(listen.node).link(
        &mut own.database,
        queue,
        listen.server,
    ) {
        Ok(linked) => linked,
        Err(fault) => return told(alloc, &own.name, fault),
    };
    if linked.hears_none() {
        let server = listen.server;
        return Ok(Reply::Refused(Refusal::NotListed { server }));
    }
    if listen.cut {
        let Listen { node, server, .. } = listen;
        return Ok(Reply::Refused(Refusal::Severed {
            node,
            other: server,
        }));
    }
    if !server.database.is_up() {
        let database = server.name.copy(alloc)?;
        return Ok(Reply::Refused(Refusal::Down { database }));
    }
    match linked.ask(&mut server.database) {
        Ok(asked) => answer(alloc, own, asked, queue, listen),
        Err(fault) => told(alloc, &server.name, fault),
    }
}
