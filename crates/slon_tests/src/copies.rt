// A node that copies a set from its origin: what it has then, why it cannot, and what comes of it where a store fails.
use crate::polls::{DATABASES, NODES, PAIR, expect_each, expect_lines};
use crate::sweeps::Sweep;
use std::test::Fail;
use test_words::require;

/// Node 2 is to receive the set of `PAIR`. One transaction of the origin has committed a row by then, and another one
/// is still open.
pub(crate) const SUBSCRIBED: &str = "\
slonik t <<
cluster name = demo;
node 1 admin conninfo = 'dbname=a';
node 2 admin conninfo = 'dbname=b';
subscribe set (id = 1, provider = 1, receiver = 2);
>> => ok statements 1
step t => ok event 1 7
start 1 => ok
start 2 => ok
begin a x => ok xid 1
insert a x public.t p 1 => ok action 1
begin a y => ok xid 2
insert a y public.t q 2 => ok action 2
commit a y => ok actions 1
listen 2 1 => ok events 6 confirms 0
work 2 1 => ok STORE_PATH 2 rows 0
work 2 1 => ok STORE_SET 3 rows 0
work 2 1 => ok SET_ADD_TABLE 4 rows 0
work 2 1 => ok SYNC 5 rows 0
work 2 1 => ok SUBSCRIBE_SET 6 rows 0
";

const COPIED: &str = "\
# The rows that are committed at the origin take the place of those that the node has, also behind a crash. The
# node writes its table no more.
begin b z => ok xid 1
insert b z public.t old 0 => ok action 1
commit b z => ok actions 1
work 2 1 => ok ENABLE_SUBSCRIPTION 7 rows 1
rows b public.t => ok rows 1 q=2
status b => ok node 2 log 0 progress 1 7 progress 2 1 set 1 era 1 at 1:3:1
begin b z => ok xid 2
insert b z public.t r 3 => no 55 notorigin 1
crash b => ok
up b => ok
rows b public.t => ok rows 1 q=2
commit a x => ok actions 1
rows a public.t => ok rows 2 p=1 q=2
rows b public.t => ok rows 1 q=2
work 2 1 => no 60 nothing
listen 1 2 => ok events 1 confirms 1

# What a transaction that was open at the copy wrote comes with the next SYNC.
work 2 1 => ok ENABLE_SUBSCRIPTION 7 rows 1
commit a x => ok actions 1
rows b public.t => ok rows 1 q=2
sync 1 => ok event 1 8
listen 2 1 => ok events 1 confirms 0
work 2 1 => ok SYNC 8 rows 1
rows b public.t => ok rows 2 p=1 q=2

# Each refusal: the nodes are cut off from one another, the origin is down, and a transaction of the node wrote
# the table. The event waits on.
begin b z => ok xid 1
insert b z public.t r 3 => ok action 1
cut 1 2 => ok
crash a => ok
work 2 1 => no 68 cut 2 1
join 1 2 => ok
work 2 1 => no 16 down a
up a => ok
work 2 1 => no 66 busy 1
abort b z => ok
stop 1 => ok
work 2 1 => ok ENABLE_SUBSCRIPTION 7 rows 1
rows b public.t => ok rows 1 q=2
";

#[test]
fn sets_are_copied(rt: HostRuntime) -> Result<(), Fail> {
    expect_each(rt.alloc(), PAIR, SUBSCRIBED, COPIED)
}

/// Node 3 is to receive a set with a table that it lacks.
const UNLIKE: &str = "\
init cluster (id = 1); => ok
store node (id = 3, event node = 1); => ok event 1 1
store path (server = 1, client = 3, conninfo = 'dbname=a'); => ok event 3 1
create set (id = 1, origin = 1); => ok event 1 2
set add table (set id = 1, origin = 1, id = 1, fully qualified name = 'public.t'); => ok event 1 3
subscribe set (id = 1, provider = 1, receiver = 3); => ok event 1 6
";

/// It has no such table, then one with another number of columns, and then no path to the origin.
const REFUSED: &str = "\
start 3 => ok
listen 3 1 => ok events 5 confirms 0
work 3 1 => ok STORE_SET 2 rows 0
work 3 1 => ok SET_ADD_TABLE 3 rows 0
work 3 1 => ok SYNC 4 rows 0
work 3 1 => ok SUBSCRIBE_SET 5 rows 0
work 3 1 => no 52 notable public.t
table c public.t 3 => ok
work 3 1 => no 57 badwidth 3
slonik t <<
cluster name = demo;
node 1 admin conninfo = 'dbname=a';
node 3 admin conninfo = 'dbname=c';
drop path (server = 1, client = 3);
>> => ok statements 1
step t => ok event 3 2
cut 1 3 => ok
work 3 1 => no 75 nopath 1
status c => ok node 3 log 0 progress 1 5 progress 3 2
";

#[test]
fn tables_are_compared(rt: HostRuntime) -> Result<(), Fail> {
    expect_lines(rt.alloc(), UNLIKE, "", REFUSED)
}

// ---- where a store fails

/// The set that is copied, over a store of the node that fails.
const SWEPT: Sweep = Sweep {
    databases: DATABASES,
    nodes: NODES,
    cluster: PAIR,
    front: [SUBSCRIBED, ""],
    database: "b",
    calls: 100,
    lines: "work 2 1\ncrash b\nup b\nrows b public.t\n",
    done: "\
ok ENABLE_SUBSCRIPTION 7 rows 1
ok
ok
ok rows 1 q=2
",
    failed: "\
no 10 fault b 1
no 16 down b
ok
ok rows 0
",
    kept: "\
doubt b ok ENABLE_SUBSCRIPTION 7 rows 1
no 16 down b
ok kept
ok rows 1 q=2
",
    lost: "\
doubt b ok ENABLE_SUBSCRIPTION 7 rows 1
no 16 down b
ok lost
ok rows 0
",
};

const FAILED_AT_ORIGIN: &str = "\
no 10 fault a 1
no 16 down a
ok
ok rows 0
";

/// The same over a store of the origin: nothing is done where it fails.
const SWEPT_AT_ORIGIN: Sweep = Sweep {
    database: "a",
    lines: "work 2 1\ncrash a\nup a\nrows b public.t\n",
    failed: FAILED_AT_ORIGIN,
    kept: FAILED_AT_ORIGIN,
    lost: FAILED_AT_ORIGIN,
    ..SWEPT
};

#[test]
fn copies_crash_at_every_call_of_the_node(rt: HostRuntime) -> Result<(), Fail> {
    let told = SWEPT.told_of_both(rt.alloc())?;
    require(told > 15, "the calls of the node")
}

#[test]
fn copies_crash_at_every_call_of_the_origin(rt: HostRuntime) -> Result<(), Fail> {
    let told = SWEPT_AT_ORIGIN.told_at_each(rt.alloc(), false)?;
    require(told > 4, "the calls of the origin")
}
