// A receiver that takes what its origin logged between two SYNCs: which rows, each once, and what comes of it where a
// store fails.
use crate::copies::SUBSCRIBED;
use crate::polls::{DATABASES, NODES, PAIR, expect_each};
use crate::sweeps::Sweep;
use std::test::Fail;
use test_words::require;

/// Node 2 is to receive the set of `PAIR`, and to forward it.
const FORWARDING: &str = "\
slonik t <<
cluster name = demo;
node 1 admin conninfo = 'dbname=a';
node 2 admin conninfo = 'dbname=b';
subscribe set (id = 1, provider = 1, receiver = 2, forward = yes);
>> => ok statements 1
step t => ok event 1 7
start 1 => ok
start 2 => ok
";

/// It has copied a table without rows.
pub(crate) const EMPTY: &str = "\
slonik t <<
cluster name = demo;
node 1 admin conninfo = 'dbname=a';
node 2 admin conninfo = 'dbname=b';
subscribe set (id = 1, provider = 1, receiver = 2, forward = yes);
>> => ok statements 1
step t => ok event 1 7
start 1 => ok
start 2 => ok
listen 2 1 => ok events 6 confirms 0
work 2 1 => ok STORE_PATH 2 rows 0
work 2 1 => ok STORE_SET 3 rows 0
work 2 1 => ok SET_ADD_TABLE 4 rows 0
work 2 1 => ok SYNC 5 rows 0
work 2 1 => ok SUBSCRIBE_SET 6 rows 0
work 2 1 => ok ENABLE_SUBSCRIPTION 7 rows 0
";

const SYNCED: &str = "\
# A transaction with a lower xid that commits later comes with the later SYNC.
begin a u => ok xid 1
insert a u public.t p 1 => ok action 1
begin a v => ok xid 2
insert a v public.t q 2 => ok action 2
commit a v => ok actions 1
sync 1 => ok event 1 8
listen 2 1 => ok events 1 confirms 0
work 2 1 => ok SYNC 8 rows 1
rows b public.t => ok rows 1 q=2
status b => ok node 2 log 0 progress 1 8 progress 2 1 set 1 era 1 at 1:3:1
commit a u => ok actions 1
sync 1 => ok event 1 9
listen 2 1 => ok events 1 confirms 0
work 2 1 => ok SYNC 9 rows 1
rows b public.t => ok rows 2 p=1 q=2
begin b z => ok xid 1
insert b z public.t r 3 => no 55 notorigin 1

# The actions of a transaction are applied in their order: on one row, and on a row that was there.
begin a x => ok xid 1
insert a x public.t p 1 => ok action 1
delete a x public.t p => ok action 2
commit a x => ok actions 2
sync 1 => ok event 1 8
sync 1 => no 60 nothing
listen 2 1 => ok events 1 confirms 0
work 2 1 => ok SYNC 8 rows 2
rows b public.t => ok rows 0
begin a y => ok xid 2
insert a y public.t p 1 => ok action 3
update a y public.t p 2=7 => ok action 4
commit a y => ok actions 2
sync 1 => ok event 1 9
listen 2 1 => ok events 1 confirms 0
work 2 1 => ok SYNC 9 rows 2
rows b public.t => ok rows 1 p=7

# A SYNC that is lost, and one that comes twice: it is applied once.
begin a x => ok xid 1
insert a x public.t p 1 => ok action 1
commit a x => ok actions 1
sync 1 => ok event 1 8
listen 2 1 lost => ok lost events 1 confirms 0
work 2 1 => no 60 nothing
listen 2 1 again => ok events 1 confirms 0
work 2 1 => ok SYNC 8 rows 1
work 2 1 => no 60 nothing
listen 2 1 => no 60 nothing

# A commit in doubt that is lost and then kept, and a fault at a ceiling.
begin a x => ok xid 1
insert a x public.t p 1 => ok action 1
commit a x => ok actions 1
sync 1 => ok event 1 8
listen 2 1 => ok events 1 confirms 0
crash b commit lose => ok
work 2 1 => doubt b ok SYNC 8 rows 1
rows b public.t => no 16 down b
up b => ok lost
rows b public.t => ok rows 0
work 2 1 => no 60 nothing
listen 2 1 => ok events 1 confirms 0
crash b commit keep => ok
work 2 1 => doubt b ok SYNC 8 rows 1
up b => ok kept
rows b public.t => ok rows 1 p=1
listen 2 1 => no 60 nothing
crash b after 0 lose => ok
begin b z => no 10 fault b 3
insert b z public.u k 1 => no 16 down b

# The nodes are cut off from one another, and the origin is down. The SYNC waits on. What the origin logged is
# read behind its crash too.
begin a x => ok xid 1
insert a x public.t p 1 => ok action 1
commit a x => ok actions 1
sync 1 => ok event 1 8
listen 2 1 => ok events 1 confirms 0
cut 1 2 => ok
crash a => ok
work 2 1 => no 68 cut 2 1
join 1 2 => ok
work 2 1 => no 16 down a
up a => ok
work 2 1 => ok SYNC 8 rows 1
rows b public.t => ok rows 1 p=1
";

#[test]
fn syncs_are_applied(rt: HostRuntime) -> Result<(), Fail> {
    expect_each(rt.alloc(), PAIR, EMPTY, SYNCED)
}

const COPIED_LATER: &str = "\
# A SYNC that is older than the copy brings nothing, and what the node shows of the set does not go back.
begin a x => ok xid 1
insert a x public.t p 1 => ok action 1
commit a x => ok actions 1
sync 1 => ok event 1 8
begin a y => ok xid 2
insert a y public.t q 2 => ok action 2
commit a y => ok actions 1
listen 2 1 => ok events 7 confirms 0
work 2 1 => ok STORE_PATH 2 rows 0
work 2 1 => ok STORE_SET 3 rows 0
work 2 1 => ok SET_ADD_TABLE 4 rows 0
work 2 1 => ok SYNC 5 rows 0
work 2 1 => ok SUBSCRIBE_SET 6 rows 0
work 2 1 => ok ENABLE_SUBSCRIPTION 7 rows 2
work 2 1 => ok SYNC 8 rows 0
status b => ok node 2 log 0 progress 1 8 progress 2 1 set 1 era 1 at 3:3:

# The counters of the origin go on at their ceilings behind a crash, so no SYNC sees too much.
begin a x => ok xid 1
insert a x public.t p 1 => ok action 1
abort a x => ok
listen 2 1 => ok events 6 confirms 0
work 2 1 => ok STORE_PATH 2 rows 0
work 2 1 => ok STORE_SET 3 rows 0
work 2 1 => ok SET_ADD_TABLE 4 rows 0
work 2 1 => ok SYNC 5 rows 0
work 2 1 => ok SUBSCRIBE_SET 6 rows 0
work 2 1 => ok ENABLE_SUBSCRIPTION 7 rows 0
status b => ok node 2 log 0 progress 1 7 progress 2 1 set 1 era 1 at 2:2:
crash a => ok
up a => ok
begin a t => ok xid 65
insert a t public.t p 2 => ok action 65
commit a t => ok actions 1
sync 1 => ok event 1 8
listen 2 1 => ok events 1 confirms 0
work 2 1 => ok SYNC 8 rows 1
rows b public.t => ok rows 1 p=2
";

#[test]
fn syncs_go_on_from_a_copy(rt: HostRuntime) -> Result<(), Fail> {
    expect_each(rt.alloc(), PAIR, FORWARDING, COPIED_LATER)
}

// ---- where a store fails

/// A receiver that has to take two rows: one of a transaction that was open at its copy, and one that is deleted.
const WAITING: &str = "\
work 2 1 => ok ENABLE_SUBSCRIPTION 7 rows 1
commit a x => ok actions 1
begin a w => ok xid 3
delete a w public.t q => ok action 3
commit a w => ok actions 1
sync 1 => ok event 1 8
listen 2 1 => ok events 1 confirms 0
";

/// The SYNC, over a store of the node that fails.
const SWEPT: Sweep = Sweep {
    databases: DATABASES,
    nodes: NODES,
    cluster: PAIR,
    front: [SUBSCRIBED, WAITING],
    database: "b",
    calls: 100,
    lines: "work 2 1\ncrash b\nup b\nrows b public.t\n",
    done: "\
ok SYNC 8 rows 2
ok
ok
ok rows 1 p=1
",
    failed: "\
no 10 fault b 1
no 16 down b
ok
ok rows 1 q=2
",
    kept: "\
doubt b ok SYNC 8 rows 2
no 16 down b
ok kept
ok rows 1 p=1
",
    lost: "\
doubt b ok SYNC 8 rows 2
no 16 down b
ok lost
ok rows 1 q=2
",
};

const FAILED_AT_ORIGIN: &str = "\
no 10 fault a 1
no 16 down a
ok
ok rows 1 q=2
";

/// The same over a store of the origin: nothing is done where it fails.
const SWEPT_AT_ORIGIN: Sweep = Sweep {
    database: "a",
    lines: "work 2 1\ncrash a\nup a\nrows b public.t\n",
    failed: FAILED_AT_ORIGIN,
    kept: FAILED_AT_ORIGIN,
    lost: FAILED_AT_ORIGIN,
    ..SWEPT
};

#[test]
fn syncs_crash_at_every_call_of_the_node(rt: HostRuntime) -> Result<(), Fail> {
    let told = SWEPT.told_of_both(rt.alloc())?;
    require(told > 15, "the calls of the node")
}

#[test]
fn syncs_crash_at_every_call_of_the_origin(rt: HostRuntime) -> Result<(), Fail> {
    let told = SWEPT_AT_ORIGIN.told_at_each(rt.alloc(), false)?;
    require(told > 4, "the calls of the origin")
}
