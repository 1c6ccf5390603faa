// Nodes that apply the events of one another: in their order, each once, and what comes of it where the store fails.
use crate::polls::{DATABASES, NODES, PAIR, STARTED, expect_each};
use crate::sweeps::Sweep;
use std::test::Fail;
use test_words::require;

const APPLIED: &str = "\
# Each event once and in order, also where it arrives twice. The node does not receive the set, so it writes its
# table of that name, also behind a crash; and the origin hears how far the node is.
work 2 1 => no 60 nothing
listen 2 1 again => ok events 3 confirms 0
work 2 2 => no 60 nothing
work 2 1 => ok STORE_PATH 2 rows 0
begin b x => ok xid 1
insert b x public.t k 1 => ok action 1
abort b x => ok
work 2 1 => ok STORE_SET 3 rows 0
listen 2 1 => no 60 nothing
work 2 1 => ok SET_ADD_TABLE 4 rows 0
work 2 1 => no 60 nothing
status b => ok node 2 log 0 progress 1 4 progress 2 1
begin b x => ok xid 2
insert b x public.t k 1 => ok action 2
commit b x => ok actions 1
crash b => ok
up b => ok
status b => ok node 2 log 0 progress 1 4 progress 2 1
begin b y => ok xid 65
insert b y public.t k 1 => no 54 duplicate
listen 2 1 => no 60 nothing
listen 1 2 => ok events 1 confirms 1
work 1 2 => ok STORE_PATH 1 rows 0
status a => ok node 1 log 0 progress 1 4 progress 2 1
begin a x => ok xid 1
insert a x public.t k 1 => ok action 1

# What waits is lost with a crash, or as the slon is turned off; what was applied is not.
listen 2 1 => ok events 3 confirms 0
work 2 1 => ok STORE_PATH 2 rows 0
crash b => ok
work 2 1 => no 16 down b
up b => ok
work 2 1 => no 60 nothing
listen 2 1 => ok events 2 confirms 0
work 2 1 => ok STORE_SET 3 rows 0
stop 2 => ok
work 2 1 => no 67 off 2
start 2 => ok
work 2 1 => no 60 nothing
listen 2 1 => ok events 1 confirms 0
work 2 1 => ok SET_ADD_TABLE 4 rows 0

# A commit in doubt that was kept, and one that was lost.
listen 2 1 => ok events 3 confirms 0
crash b commit keep => ok
work 2 1 => doubt b ok STORE_PATH 2 rows 0
work 2 1 => no 16 down b
up b => ok kept
status b => ok node 2 log 0 progress 1 2 progress 2 1
work 2 1 => no 60 nothing
listen 2 1 => ok events 2 confirms 0
crash b commit lose => ok
work 2 1 => doubt b ok STORE_SET 3 rows 0
up b => ok lost
status b => ok node 2 log 0 progress 1 2 progress 2 1
listen 2 1 => ok events 2 confirms 0
work 2 1 => ok STORE_SET 3 rows 0

# Each refusal, in their order.
work 3 1 => no 44 nonode 3
stop 2 => ok
crash b => ok
work 2 1 => no 16 down b
up b => ok
work 2 1 => no 67 off 2
start 2 => ok
work 2 1 => no 60 nothing
work 2 9 => no 60 nothing
";

#[test]
fn events_are_applied(rt: HostRuntime) -> Result<(), Fail> {
    expect_each(rt.alloc(), PAIR, STARTED, APPLIED)
}

/// The first event that waits at node 2, over a store that fails.
const SWEPT: Sweep = Sweep {
    databases: DATABASES,
    nodes: NODES,
    cluster: PAIR,
    front: [STARTED, "listen 2 1 => ok events 3 confirms 0\n"],
    database: "b",
    calls: 100,
    lines: "work 2 1\ncrash b\nup b\nstatus b\n",
    done: "\
ok STORE_PATH 2 rows 0
ok
ok
ok node 2 log 0 progress 1 2 progress 2 1
",
    failed: "\
no 10 fault b 1
no 16 down b
ok
ok node 2 log 0 progress 1 1 progress 2 1
",
    kept: "\
doubt b ok STORE_PATH 2 rows 0
no 16 down b
ok kept
ok node 2 log 0 progress 1 2 progress 2 1
",
    lost: "\
doubt b ok STORE_PATH 2 rows 0
no 16 down b
ok lost
ok node 2 log 0 progress 1 1 progress 2 1
",
};

#[test]
fn works_crash_at_every_call(rt: HostRuntime) -> Result<(), Fail> {
    let told = SWEPT.told_of_both(rt.alloc())?;
    require(told > 6, "the calls of the node")
}
