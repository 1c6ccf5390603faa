// Sessions in which a node subscribes to a set at its origin.
use crate::scripts::DATABASES;
use crate::wanted::{Wanted, expect_wanted, nothing_wanted};
use std::alloc::{AllocError, Global};
use std::test::Fail;

/// The nodes by their databases.
const NODES: &str = "cluster name = demo;
node 1 admin conninfo = 'dbname=a';
node 2 admin conninfo = 'dbname=b';
node 3 admin conninfo = 'dbname=c';
";

/// The first node alone has no NODE line.
const OTHERS: &str = "cluster name = demo;
node 2 admin conninfo = 'dbname=b';
node 3 admin conninfo = 'dbname=c';
";

/// A cluster of three nodes, with a set of a table.
const CLUSTER: &str = "\
init cluster (id = 1); => ok
store node (id = 2, event node = 1); => ok event 1 1
store node (id = 3, event node = 1); => ok event 1 2
store path (server = 1, client = 2, conninfo = 'dbname=a'); => ok event 2 1
create set (id = 1, origin = 1); => ok event 1 3
set add table (set id = 1, origin = 1, id = 1, fully qualified name = 'public.t'); => ok event 1 4
";

/// Statements that are refused, each in a script of its own, the first cause first.
const REFUSED: &str = "\
subscribe set (id = 7, provider = 9, receiver = 9); => no 47 noset 7
subscribe set (id = 1, provider = 8, receiver = 9); => no 44 nonode 9
subscribe set (id = 1, provider = 8, receiver = 1); => no 44 nonode 8
subscribe set (id = 1, provider = 2, receiver = 1); => no 78 samenode 1
subscribe set (id = 1, provider = 2, receiver = 2); => no 78 samenode 2
subscribe set (id = 1, provider = 3, receiver = 2); => no 72 notactive 3
";

/// The owner is sought among the databases that the NODE lines name and that are up.
const UNOWNED: &str = "subscribe set (id = 1, provider = 1, receiver = 2); => no 47 noset 1";

const SUBSCRIBED: &str =
    "subscribe set (id = 1, provider = 1, receiver = 2, forward = yes); => ok event 1 7";

const IN_DOUBT: &str =
    "subscribe set (id = 1, provider = 1, receiver = 2, forward = yes); => doubt a ok event 1 7";

const UNCONFIRMED: &str =
    "subscribe set (id = 1, provider = 1, receiver = 2, forward = yes); => no 72 notactive 2";

/// A script whose statements were all done ends at its next step.
const ENDED: &str = "step s => ok ended 0";

/// What the cluster answers behind it: the receiver has not confirmed, and the set has a receiver.
const BEHIND: &str = "\
subscribe set (id = 1, provider = 1, receiver = 2); => no 72 notactive 2
set add table (set id = 1, origin = 1, id = 2, fully qualified name = 'public.v'); => no 46 hasreceivers 2
subscribe set (id = 1, provider = 1, receiver = 3); => ok event 1 10
";

/// The receiver hears of the events, and there was nothing to say since the SYNC among them.
const HEARD: &str = "\
start 1 => ok
start 2 => ok
listen 2 1 => ok events 9 confirms 0
sync 1 => no 60 nothing
status a => ok node 1 log 0 progress 1 10 progress 2 0 progress 3 0
crash a => ok
up a => ok
status a => ok node 1 log 0 progress 1 10 progress 2 0 progress 3 0
";

/// Adds the making of the cluster.
fn push_cluster(wanted: &mut Wanted) -> Result<(), AllocError> {
    wanted.push_all(DATABASES)?;
    wanted.push_script(NODES, CLUSTER)?;
    wanted.push_all(ENDED)
}

/// Adds each statement with its answer.
fn push_statements(wanted: &mut Wanted) -> Result<(), AllocError> {
    push_cluster(wanted)?;
    wanted.push_each(NODES, REFUSED)?;
    wanted.push_each(OTHERS, UNOWNED)?;
    wanted.push("crash a", "ok")?;
    wanted.push_each(NODES, UNOWNED)?;
    wanted.push("up a", "ok")?;
    wanted.push_each(NODES, SUBSCRIBED)?;
    wanted.push_all(ENDED)?;
    wanted.push_each(NODES, BEHIND)?;
    wanted.push_all(HEARD)
}

#[test]
fn subscriptions_are_answered(rt: HostRuntime) -> Result<(), Fail> {
    let mut wanted = nothing_wanted(rt.alloc());
    push_statements(&mut wanted)?;
    expect_wanted(rt.alloc(), &wanted)
}

/// What is told of the node where its commit in doubt was kept, and where it was lost.
const KEPT: &str = "\
up a => ok kept
status a => ok node 1 log 0 progress 1 7 progress 2 0 progress 3 0
";

const LOST: &str = "\
up a => ok lost
status a => ok node 1 log 0 progress 1 4 progress 2 0 progress 3 0
";

/// Adds a subscription whose commit is in doubt: all three events stand or none does.
fn push_doubt(wanted: &mut Wanted, keep: bool) -> Result<(), AllocError> {
    push_cluster(wanted)?;
    let crash = if keep {
        "crash a commit keep"
    } else {
        "crash a commit lose"
    };
    wanted.push(crash, "ok")?;
    wanted.push_each(NODES, IN_DOUBT)?;
    wanted.push_all(if keep { KEPT } else { LOST })?;
    wanted.push_each(NODES, if keep { UNCONFIRMED } else { SUBSCRIBED })
}

/// The subscription is answered so.
fn expect_doubt(alloc: Global, keep: bool) -> Result<(), Fail> {
    let mut wanted = nothing_wanted(alloc);
    push_doubt(&mut wanted, keep)?;
    expect_wanted(alloc, &wanted)
}

#[test]
fn subscriptions_stand_whole_or_not(rt: HostRuntime) -> Result<(), Fail> {
    for keep in [false, true] {
        expect_doubt(rt.alloc(), keep)?;
    }
    Ok(())
}
