// The states of a poll. Each is a value that holds what the next one needs, and nothing that a node could lose with it.
ghost use Rattle.std.specs.Prelude.{◌≡◌, true, is_some, map, filter, length, ◌&&◌, OnOk, IfOk, IfErr};
ghost use Rattle.std.specs.Option.{option_map};
ghost use Rattle.slon_base.specs.Codec.{AllAre};
ghost use Rattle.store_rows.specs.Rows.{IsId};
ghost use Rattle.slon_model.specs.Polls.{is_empty, all_queued};
ghost use Rattle.event_store.specs.Giving.{IsConfirmation};
ghost use Rattle.event_store.specs.Queueing.{waiting};
ghost use Rattle.event_store.specs.Seen.{seen_event};
ghost use Rattle.event_store.specs.Streams.{streams_of};
ghost use Rattle.event_store.specs.Telling.{is_news, IsOfOther};
ghost use Rattle.app_store.specs.Base.{base_of};
ghost use Rattle.app_store.specs.Parts.{Looks, Remembers};
ghost use Rattle.app_store.specs.Serves.{answered, halts, trouble};
ghost use Rattle.node_store.specs.Acting.{Acts, joined, own_id};
ghost use Rattle.node_store.specs.Polling.{OfNode};
ghost use Rattle.remote_listener.specs.Asking.{wants_of, Hands};
ghost use Rattle.remote_listener.specs.Delivering.{Delivers, Queues, QueuesUnless, StaysQueued};
ghost use Rattle.remote_listener.specs.Queues.{FitsQueue};
ghost use Rattle.remote_listener.specs.Reading.{AreRowsOf};

use crate::reading::{Handed, Want, hand_over, wanted_at};
use app_store::{Database, DbFault, fall};
use event_store::{Confirmation, Event, Queue};
use node_keeper::Keeper;
use node_store::{hear, news_among};
use slon_base::Many;
use std::alloc::AllocError;

/// Where the node of this id is with a poll.
#[derive(Drop)]
pub struct Listener<S: Drop> {
    /// The id of the node that polls.
    pub node: u32,
    /// What is known by now.
    pub state: S,
}

/// The node polls no server.
#[derive(Drop)]
pub struct Off;

/// The node is to poll a server, and it is known what it wants there.
#[derive(Drop)]
pub struct Linked {
    /// The origins that it hears there, ascending, each with the number behind which it wants its events.
    pub wants: Many<Want>,
}

/// The server handed over what it has.
#[derive(Drop)]
pub struct Asked {
    /// That.
    pub handed: Handed,
}

/// It is known what of that is new for the node.
#[derive(Drop)]
pub struct Polled {
    /// The events, each origin's ascending by number.
    pub events: Many<Event>,
    /// The confirmations that are new.
    pub confirms: Many<Confirmation>,
}

impl Listener<Off> {
    /// The node of this id polls no server.
    pub fn restart(node: u32) -> Listener<Off>
        ensures { result.node ≡ node }
    {
        Listener { node, state: Off }
    }

    /// Looks up what the node wants of a server: the events of each origin that it hears there, behind those that it
    /// has met and those that wait for it. Its database is `own`, and what waits for it `queue`.
    ///
    /// # Errors
    ///
    /// What stopped the store; the database is down then.
    pub fn link<K: Keeper>(
        self,
        own: &mut Database<K>,
        queue: &Queue,
        server: u32,
    ) -> Result<Listener<Linked>, DbFault>
        requires up { own.old.state.up ≡ true }
        requires node { is_some own.old.state.node.identity ≡ true }
        requires server { IsId server }
        ensures acts { Acts (halts result) (base_of K.kept own.old) (base_of K.kept own.new) }
        ensures linked { IfOk result (λ l. AllAre (λ w. IsId w.0) l.state.wants) }
        ensures own { IfOk result (λ l. IsId l.node × (l.node ≡ own_id own.old.state.node.identity)) }
        ensures looks { Looks (OfNode (λ n l. (l.node ≡ n.id) × (l.state.wants ≡ wants_of server queue.now n)))
            (base_of K.kept own.old) result (base_of K.kept own.new) }
        ensures same { Remembers (base_of K.kept own.old) result (base_of K.kept own.new) }
    {
        let Some(node) = own.node_id() else {
            return Err(DbFault::Down);
        };
        match wanted_at(own.alloc, &mut own.keeper, queue, node, server) {
            Ok(wants) => Ok(Listener {
                node,
                state: Linked { wants },
            }),
            Err(stop) => Err(fall(own.alloc, &mut own.state, &own.keeper, stop)),
        }
    }
}

/// The node was handed this by the server, or nothing.
fn hold(node: u32, found: Option<Handed>) -> Option<Listener<Asked>>
    ensures handed { option_map (λ l. l.state.handed) result ≡ found }
    ensures own { option_map (λ l. l.node) result ≡ option_map (λ l. node) result }
{
    match found {
        Some(handed) => Some(Listener {
            node,
            state: Asked { handed },
        }),
        None => None,
    }
}

impl Listener<Linked> {
    /// Whether the node hears of no origin at the server.
    pub fn hears_none(&self) -> bool
        ensures { result ≡ is_empty self.now.state.wants }
    {
        self.state.wants.as_slice().is_empty()
    }

    /// Asks the server, whose database this is, for what the node wants there and for how far all nodes are. The
    /// answer is nothing where the server does not know the node as live, or knows a fence against it.
    ///
    /// # Errors
    ///
    /// What stopped the store of the server; its database is down then.
    pub fn ask<K: Keeper>(
        self,
        server: &mut Database<K>,
    ) -> Result<Option<Listener<Asked>>, DbFault>
        requires up { server.old.state.up ≡ true }
        requires node { is_some server.old.state.node.identity ≡ true }
        requires poller { IsId self.node }
        requires ids { AllAre (λ w. IsId w.0) self.state.wants }
        ensures acts { Acts (halts result) (base_of K.kept server.old) (base_of K.kept server.new) }
        ensures rows { IfOk result (λ asked. AreRowsOf (option_map (λ l. l.state.handed) asked)) }
        ensures own { IfOk result (λ asked. option_map (λ l. l.node) asked
            ≡ option_map (λ l. self.node) asked) }
        ensures looks { Looks (OfNode (λ n asked. Hands self.node self.state.wants n
            (option_map (λ l. l.state.handed) asked)))
            (base_of K.kept server.old) result (base_of K.kept server.new) }
        ensures same { Remembers (base_of K.kept server.old) result (base_of K.kept server.new) }
    {
        let Listener { node, state } = self;
        let wants = state.wants.as_slice();
        match hand_over(server.alloc, &mut server.keeper, node, wants) {
            Ok(found) => Ok(hold(node, found)),
            Err(stop) => Err(fall(server.alloc, &mut server.state, &server.keeper, stop)),
        }
    }
}

impl Listener<Asked> {
    /// Looks up at the database of the node which of the confirmations are new for it.
    ///
    /// # Errors
    ///
    /// What stopped the store; the database is down then.
    pub fn sift<K: Keeper>(self, own: &mut Database<K>) -> Result<Listener<Polled>, DbFault>
        requires up { own.old.state.up ≡ true }
        requires node { is_some own.old.state.node.identity ≡ true }
        requires rows { AllAre IsConfirmation self.state.handed.rows }
        ensures acts { Acts (halts result) (base_of K.kept own.old) (base_of K.kept own.new) }
        ensures events { IfOk result (λ l. l.state.events ≡ self.state.handed.events) }
        ensures others { IfOk result (λ l.
            AllAre (IsOfOther (own_id own.old.state.node.identity)) l.state.confirms) }
        ensures looks { Looks (OfNode (λ n l.
            l.state.confirms ≡ filter (is_news (streams_of n)) self.state.handed.rows))
            (base_of K.kept own.old) result (base_of K.kept own.new) }
        ensures same { Remembers (base_of K.kept own.old) result (base_of K.kept own.new) }
    {
        let Listener { node, state } = self;
        let Handed { events, rows } = state.handed;
        match news_among(own, rows.as_slice()) {
            Ok(confirms) => Ok(Listener {
                node,
                state: Polled { events, confirms },
            }),
            Err(fault) => Err(fault),
        }
    }
}

/// Puts these events behind the others that wait. Events that are there already change nothing.
fn put_all(queue: &mut Queue, events: Many<Event>) -> Result<(), AllocError>
    ensures { OnOk result (Queues (map seen_event events) queue.old queue.new) }
{
    for event in events.into_vec() {
        let _is_new = queue.put(event)?;
    }
    Ok(())
}

/// The node keeps these confirmations in one transaction, and in none where there are none. Answers whether the
/// commit is in doubt.
///
/// # Errors
///
/// `TooBig`, and what stopped the store; the database is down then.
fn keep<K: Keeper>(own: &mut Database<K>, confirms: &[Confirmation]) -> Result<bool, DbFault>
    requires up { own.old.state.up ≡ true }
    requires node { is_some own.old.state.node.identity ≡ true }
    requires others { AllAre (IsOfOther (own_id own.old.state.node.identity)) confirms.now }
    ensures acts { Acts (trouble (answered joined result)) (base_of K.kept own.old) (base_of K.kept own.new) }
    ensures delivers { Delivers confirms.now (base_of K.kept own.old) result (base_of K.kept own.new) }
{
    if confirms.is_empty() {
        return Ok(false);
    }
    hear(own, confirms)
}

impl Listener<Polled> {
    /// How many events and how many confirmations there are.
    pub fn counts(&self) -> (usize, usize)
        ensures { result ≡ (length self.now.state.events, length self.now.state.confirms) }
    {
        (self.state.events.len(), self.state.confirms.len())
    }

    /// Whether there is neither.
    pub fn is_empty(&self) -> bool
        ensures { result ≡ (is_empty self.now.state.events && is_empty self.now.state.confirms) }
    {
        self.state.events.as_slice().is_empty() && self.state.confirms.as_slice().is_empty()
    }

    /// What was polled is lost on the way.
    pub fn lost(self) -> Listener<Off>
        ensures { result.node ≡ self.node }
    {
        Listener::restart(self.node)
    }

    /// Delivers what was polled. The node, whose database this is, keeps the confirmations in one transaction, and in
    /// none where there are none; then the events come behind those that wait. Answers whether the commit is in
    /// doubt: the database is down then, and nothing more waits than before.
    ///
    /// # Errors
    ///
    /// `TooBig`, and what stopped the store: the database is down then, and nothing more waits than before. `NoMemory`.
    pub fn deliver<K: Keeper>(
        self,
        own: &mut Database<K>,
        queue: &mut Queue,
    ) -> Result<bool, DbFault>
        requires up { own.old.state.up ≡ true }
        requires node { is_some own.old.state.node.identity ≡ true }
        requires others { AllAre (IsOfOther (own_id own.old.state.node.identity)) self.state.confirms }
        ensures acts { Acts (trouble (answered joined result)) (base_of K.kept own.old) (base_of K.kept own.new) }
        ensures delivers { Delivers self.state.confirms (base_of K.kept own.old) result (base_of K.kept own.new) }
        ensures queue { IfOk result (QueuesUnless (map seen_event self.state.events) queue.old queue.new) }
        ensures stays { IfErr result (StaysQueued queue.old queue.new) }
    {
        let Listener { node: _, state } = self;
        let Polled { events, confirms } = state;
        if keep(own, confirms.as_slice())? {
            return Ok(true);
        }
        put_all(queue, events)?;
        Ok(false)
    }
}
