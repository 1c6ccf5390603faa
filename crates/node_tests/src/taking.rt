// A node that applies the events of another one, which were delivered to it.
ghost use Rattle.std.specs.Prelude.{OnOk};
ghost use Rattle.event_store.specs.Keeping.{KeepsViews};

use crate::listening::{Brings, make_nodes, poll};
use crate::nodes::{
    create, expect_emitted, expect_lines, obey_line, rise, some_set, some_table, status,
};
use app_store::{Database, DbFault};
use event_store::Queue;
use node_keeper::MemKeeper;
use node_rows::Body;
use node_store::apply;
use std::alloc::Global;
use std::fmt::Write;
use std::test::Fail;
use test_words::{expect, require};

/// Fails where an event with this body is of a kind that no node applies yet.
fn require_kind(body: &Body) -> Result<(), Fail>
    ensures { OnOk result (KeepsViews body.now) }
{
    match body {
        Body::MoveSet { .. } | Body::FailoverSet { .. } => {
            Err(Fail::new("a kind that is not applied"))
        }
        _ => Ok(()),
    }
}

/// The node applies the event of node 1 with this number, which waits for it. Whether that is in doubt.
fn take(
    own: &mut Database<MemKeeper>,
    queue: &Queue,
    number: u64,
) -> Result<Result<bool, DbFault>, Fail> {
    let Some(event) = queue.get(1, number) else {
        return Err(Fail::new("no event that waits"));
    };
    require_kind(&event.body)?;
    if !own.is_up() || own.node_id().is_none() {
        return Err(Fail::new("no node that is up"));
    }
    Ok(apply(own, event, None))
}

/// Node 1 stores a path, emits a SYNC, and makes a set with a table; these events wait for node 2.
fn make_events(
    alloc: Global,
    first: &mut Database<MemKeeper>,
    second: &mut Database<MemKeeper>,
    queue: &mut Queue,
) -> Result<(), Fail> {
    make_nodes(alloc, first, second)?;
    expect_emitted(first, some_set(alloc)?, 4)?;
    expect_emitted(first, some_table(alloc)?, 5)?;
    let brings = Brings {
        events: 4,
        confirms: 0,
        are_lost: false,
    };
    poll(second, 1, first, queue, brings)
}

/// What node 2 says when it has applied them: it is as far as they go, also after a crash. It does not receive the set,
/// so a table of that name is one of its own.
const APPLIED: &[(&str, &str)] = &[
    ("status a", "ok node 2 log 0 progress 1 5 progress 2 1"),
    ("table a public.t 2", "ok"),
    ("begin a x", "ok xid 1"),
    ("insert a x public.t k 1", "ok action 1"),
    ("commit a x", "ok actions 1"),
    ("crash a", "ok"),
    ("up a", "ok"),
    ("status a", "ok node 2 log 0 progress 1 5 progress 2 1"),
    ("begin a y", "ok xid 65"),
    ("insert a y public.t m 1", "ok action 65"),
    ("commit a y", "ok actions 1"),
    ("rows a public.t", "ok rows 2 k=1 m=1"),
];

/// Node 2 applies what node 1 emitted, which waits there.
fn take_each(
    alloc: Global,
    first: &mut Database<MemKeeper>,
    second: &mut Database<MemKeeper>,
    queue: &mut Queue,
) -> Result<(), Fail> {
    make_events(alloc, first, second, queue)?;
    for number in 2..6 {
        require(take(second, queue, number)? == Ok(false), "an event")?;
    }
    expect_lines(alloc, second, APPLIED)
}

/// The same with a queue that is made for it.
fn take_all(
    alloc: Global,
    first: &mut Database<MemKeeper>,
    second: &mut Database<MemKeeper>,
) -> Result<(), Fail> {
    let mut queue = Queue::new(alloc);
    let done = take_each(alloc, first, second, &mut queue);
    drop(queue);
    done
}

/// The same of a database that is made for it.
fn take_at_a_second(alloc: Global, first: &mut Database<MemKeeper>) -> Result<(), Fail> {
    let mut second = create(alloc, 0, false)?;
    let done = take_all(alloc, first, &mut second);
    drop(second);
    done
}

#[test]
fn events_are_applied(rt: HostRuntime) -> Result<(), Fail> {
    let mut first = create(rt.alloc(), 0, false)?;
    let done = take_at_a_second(rt.alloc(), &mut first);
    drop(first);
    done
}

/// The store of the node fails behind this number of calls.
fn arm(alloc: Global, own: &mut Database<MemKeeper>, calls: u32, keep: bool) -> Result<(), Fail> {
    let mut line = String::new(alloc);
    let kept = if keep { "keep" } else { "lose" };
    write!(line, "crash a after {calls} {kept}")?;
    expect(
        "the crash",
        obey_line(alloc, own, line.as_str())?.as_str(),
        "ok",
    )
}

const BEFORE: &str = "ok node 2 log 0 progress 1 1 progress 2 1";

const BEHIND: &str = "ok node 2 log 0 progress 1 2 progress 2 1";

/// Node 2 applies one event where its store fails behind this number of calls, and comes up again. Tells whether the
/// commit was in doubt.
fn take_one(
    alloc: Global,
    second: &mut Database<MemKeeper>,
    queue: &Queue,
    calls: u32,
    keep: bool,
) -> Result<bool, Fail> {
    arm(alloc, second, calls, keep)?;
    let taken = take(second, queue, 2)?;
    rise(second)?;
    let stands = taken == Ok(false) || keep && taken == Ok(true);
    let wanted = if stands { BEHIND } else { BEFORE };
    expect("the node", status(alloc, second)?.as_str(), wanted)?;
    Ok(taken == Ok(true))
}

/// The same behind what node 1 emitted for it, which waits in this queue.
fn make_and_take_one(
    alloc: Global,
    first: &mut Database<MemKeeper>,
    second: &mut Database<MemKeeper>,
    queue: &mut Queue,
    calls: u32,
    keep: bool,
) -> Result<bool, Fail> {
    make_events(alloc, first, second, queue)?;
    take_one(alloc, second, queue, calls, keep)
}

/// The same with a queue that is made for it.
fn make_and_take(
    alloc: Global,
    first: &mut Database<MemKeeper>,
    second: &mut Database<MemKeeper>,
    calls: u32,
    keep: bool,
) -> Result<bool, Fail> {
    let mut queue = Queue::new(alloc);
    let taken = make_and_take_one(alloc, first, second, &mut queue, calls, keep);
    drop(queue);
    taken
}

/// The same over a second node that is made for it.
fn walk_at_a_second(
    alloc: Global,
    first: &mut Database<MemKeeper>,
    calls: u32,
    keep: bool,
) -> Result<bool, Fail> {
    let mut second = create(alloc, 0, false)?;
    let done = make_and_take(alloc, first, &mut second, calls, keep);
    drop(second);
    done
}

/// The same over a first node that is made for it.
fn walk(alloc: Global, calls: u32, keep: bool) -> Result<bool, Fail> {
    let mut first = create(alloc, 0, false)?;
    let done = walk_at_a_second(alloc, &mut first, calls, keep);
    drop(first);
    done
}

#[test]
fn events_are_applied_over_failing_stores(rt: HostRuntime) -> Result<(), Fail> {
    for keep in [false, true] {
        let mut doubts = 0u32;
        for calls in 0..40u32 {
            doubts = doubts.saturating_add(u32::from(walk(rt.alloc(), calls, keep)?));
        }
        require(doubts == 1, "one commit in doubt")?;
    }
    Ok(())
}
