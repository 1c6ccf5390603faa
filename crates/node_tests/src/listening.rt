// A node that polls another one: each state of a poll, a poll that is lost, and one that brings nothing new; and events
// that wait in a queue.
ghost use Rattle.std.specs.Prelude.{◌≡◌, is_some, true, IfOk};
ghost use Rattle.slon_base.specs.Codec.{AllAre};
ghost use Rattle.store_rows.specs.Rows.{IsId};
ghost use Rattle.node_rows.specs.Spellings.{CanBody};
ghost use Rattle.event_store.specs.Giving.{IsConfirmation};
ghost use Rattle.event_store.specs.Keeping.{KeepsViews};
ghost use Rattle.event_store.specs.Spellings.{IsNumbered};
ghost use Rattle.event_store.specs.Telling.{IsOfOther};
ghost use Rattle.node_store.specs.Acting.{own_id};

use crate::joining::join_second;
use crate::nodes::{create, expect_emitted, found};
use app_store::Database;
use event_store::{Event, Queue};
use node_keeper::MemKeeper;
use node_rows::Body;
use remote_listener::{Asked, Linked, Listener, Polled};
use slon_base::{Many, Text};
use std::alloc::Global;
use std::test::Fail;
use test_words::require;
use txn_core::{Snapshot, XidList};

/// How a node connects to a server.
fn path(alloc: Global, server: u32, client: u32) -> Result<Body, Fail>
    requires { IsId server × IsId client }
    ensures { IfOk result (λ b. CanBody b × KeepsViews b) }
{
    Ok(Body::StorePath {
        server,
        client,
        conninfo: Text::from_str(alloc, "dbname=x")?,
    })
}

/// The first database is node 1 and the second one node 2. Each has a path from the other one, and node 1 emits a SYNC.
pub(crate) fn make_nodes(
    alloc: Global,
    first: &mut Database<MemKeeper>,
    second: &mut Database<MemKeeper>,
) -> Result<(), Fail> {
    require(found(alloc, first)? == Ok(false), "the first node")?;
    require(
        join_second(alloc, first, second)?.is_ok(),
        "the second node",
    )?;
    expect_emitted(second, path(alloc, 1, 2)?, 1)?;
    expect_emitted(first, path(alloc, 2, 1)?, 2)?;
    expect_emitted(first, Body::Sync, 3)
}

/// What a node wants of a server.
fn link(own: &mut Database<MemKeeper>, queue: &Queue, server: u32) -> Result<Listener<Linked>, Fail>
    requires { IsId server }
    ensures { IfOk result (λ l. IsId l.node × AllAre (λ w. IsId w.0) l.state.wants) }
{
    if !own.is_up() {
        return Err(Fail::new("a database that is down"));
    }
    let Some(node) = own.node_id() else {
        return Err(Fail::new("a database that is no node"));
    };
    match Listener::restart(node).link(own, queue, server) {
        Ok(linked) => Ok(linked),
        Err(_) => Err(Fail::new("what the node wants")),
    }
}

/// What the server hands over, to a node that it knows.
fn ask(linked: Listener<Linked>, server: &mut Database<MemKeeper>) -> Result<Listener<Asked>, Fail>
    requires poller { IsId linked.node }
    requires ids { AllAre (λ w. IsId w.0) linked.state.wants }
    ensures { IfOk result (λ l. AllAre IsConfirmation l.state.handed.rows) }
{
    if !server.is_up() || server.node_id().is_none() {
        return Err(Fail::new("no server that is up"));
    }
    match linked.ask(server) {
        Ok(Some(asked)) => Ok(asked),
        Ok(None) => Err(Fail::new("a node that is not known")),
        Err(_) => Err(Fail::new("what the server has")),
    }
}

/// How many events and confirmations a poll brings, and whether they are lost on the way.
#[derive(Clone, Copy)]
pub(crate) struct Brings {
    pub(crate) events: usize,
    pub(crate) confirms: usize,
    pub(crate) are_lost: bool,
}

/// What was polled is delivered or lost.
fn end(
    own: &mut Database<MemKeeper>,
    polled: Listener<Polled>,
    queue: &mut Queue,
    are_lost: bool,
) -> Result<(), Fail>
    requires up { own.old.state.up ≡ true }
    requires node { is_some own.old.state.node.identity ≡ true }
    requires others { AllAre (IsOfOther (own_id own.old.state.node.identity)) polled.state.confirms }
{
    if are_lost {
        let node = polled.node;
        return require(polled.lost().node == node, "the node");
    }
    require(polled.deliver(own, queue) == Ok(false), "the delivery")
}

/// What was handed over brings this.
fn bring(
    own: &mut Database<MemKeeper>,
    asked: Listener<Asked>,
    queue: &mut Queue,
    brings: Brings,
) -> Result<(), Fail>
    requires { AllAre IsConfirmation asked.state.handed.rows }
{
    if !own.is_up() || own.node_id().is_none() {
        return Err(Fail::new("no node that is up"));
    }
    match asked.sift(own) {
        Ok(polled) => {
            let counts = (brings.events, brings.confirms);
            require(polled.counts() == counts, "how much is new")?;
            end(own, polled, queue, brings.are_lost)
        }
        Err(_) => Err(Fail::new("what is new")),
    }
}

/// A poll of the server of this id brings this.
pub(crate) fn poll(
    own: &mut Database<MemKeeper>,
    id: u32,
    server: &mut Database<MemKeeper>,
    queue: &mut Queue,
    brings: Brings,
) -> Result<(), Fail>
    requires { IsId id }
{
    let linked = link(own, queue, id)?;
    require(!linked.hears_none(), "no origin")?;
    let asked = ask(linked, server)?;
    bring(own, asked, queue, brings)
}

/// Node 2 polls node 1: what is lost comes again, and waits once.
fn poll_first(
    first: &mut Database<MemKeeper>,
    second: &mut Database<MemKeeper>,
    queue: &mut Queue,
) -> Result<(), Fail> {
    for (events, are_lost, waiting) in [(2, true, 0), (2, false, 2), (0, false, 2)] {
        let brings = Brings {
            events,
            confirms: 0,
            are_lost,
        };
        poll(second, 1, first, queue, brings)?;
        require(queue.len(1) == waiting, "events that wait")?;
    }
    Ok(())
}

/// Node 1 polls node 2, which tells it also how far it is: once, as its event.
fn poll_second(
    first: &mut Database<MemKeeper>,
    second: &mut Database<MemKeeper>,
    queue: &mut Queue,
) -> Result<(), Fail> {
    for (count, are_lost) in [(1, true), (1, false), (0, false)] {
        let brings = Brings {
            events: count,
            confirms: count,
            are_lost,
        };
        poll(first, 2, second, queue, brings)?;
    }
    Ok(())
}

/// Node 2 hears of no origin at node 3.
fn expect_none(alloc: Global, second: &mut Database<MemKeeper>) -> Result<(), Fail> {
    let linked = link(second, &Queue::new(alloc), 3)?;
    require(linked.hears_none(), "an origin")
}

/// Node 1 does not know node 3, and hands nothing over to it.
fn expect_unknown(alloc: Global, first: &mut Database<MemKeeper>) -> Result<(), Fail> {
    if !first.is_up() || first.node_id().is_none() {
        return Err(Fail::new("no server that is up"));
    }
    let wants = Many::new(alloc);
    let linked = Listener {
        node: 3,
        state: Linked { wants },
    };
    match linked.ask(first) {
        Ok(None) => Ok(()),
        _ => Err(Fail::new("a node that is known")),
    }
}

/// Both poll one another.
fn poll_both(
    alloc: Global,
    first: &mut Database<MemKeeper>,
    second: &mut Database<MemKeeper>,
) -> Result<(), Fail> {
    make_nodes(alloc, first, second)?;
    poll_first(first, second, &mut Queue::new(alloc))?;
    poll_second(first, second, &mut Queue::new(alloc))?;
    expect_none(alloc, second)?;
    expect_unknown(alloc, first)
}

/// The same of a database that is made for it.
fn poll_a_second(alloc: Global, first: &mut Database<MemKeeper>) -> Result<(), Fail> {
    let mut second = create(alloc, 0, false)?;
    let done = poll_both(alloc, first, &mut second);
    drop(second);
    done
}

#[test]
fn nodes_poll_one_another(rt: HostRuntime) -> Result<(), Fail> {
    let mut first = create(rt.alloc(), 0, false)?;
    let done = poll_a_second(rt.alloc(), &mut first);
    drop(first);
    done
}

/// An event of an origin.
fn event(alloc: Global, origin: u32, number: u64) -> Event
    requires { IsNumbered (origin, number) }
{
    let taken = Snapshot {
        xmin: 1,
        xmax: 1,
        running: XidList::new(alloc),
    };
    Event {
        origin,
        number,
        taken,
        body: Body::Sync,
    }
}

/// Puts an event, and tells whether it is news.
fn put(alloc: Global, queue: &mut Queue, origin: u32, number: u64) -> Result<bool, Fail>
    requires { IsNumbered (origin, number) }
{
    Ok(queue.put(event(alloc, origin, number))?)
}

/// What waits of two origins is delivered twice, and taken away.
fn fill(alloc: Global, queue: &mut Queue) -> Result<(), Fail> {
    for number in 2..6 {
        require(put(alloc, queue, 1, number)?, "an event")?;
    }
    require(put(alloc, queue, 2, 1)?, "an event of another origin")?;
    for number in 2..6 {
        require(!put(alloc, queue, 1, number)?, "an event that waits")?;
    }
    require(
        queue.len(1) == 4 && queue.len(2) == 1 && queue.len(3) == 0,
        "how many wait",
    )?;
    require(
        queue.reach(1, 1) == 5 && queue.reach(1, 9) == 9,
        "how far they go",
    )?;
    require(queue.reach(3, 7) == 7, "how far none go")?;
    queue.drop_to(1, 3);
    require(
        queue.get(1, 3).is_none() && queue.get(1, 6).is_none(),
        "those that are gone",
    )?;
    require(
        queue.get(1, 4).is_some() && queue.get(2, 1).is_some(),
        "those that wait",
    )?;
    queue.clear();
    require(queue.len(1) == 0 && queue.len(2) == 0, "an empty queue")
}

#[test]
fn events_wait(rt: HostRuntime) -> Result<(), Fail> {
    let mut queue = Queue::new(rt.alloc());
    let done = fill(rt.alloc(), &mut queue);
    drop(queue);
    done
}
