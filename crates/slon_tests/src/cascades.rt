// A node that takes a set from another one than its origin: when the statement is accepted, that the node waits for its
// provider, and what comes of a copy and of a SYNC where a store fails.
use crate::polls::{DATABASES, NODES};
use crate::sweeps::Sweep;
use crate::wanted::{Wanted, expect_wanted, nothing_wanted};
use std::alloc::AllocError;
use std::test::Fail;
use test_words::require;

pub const CLUSTER: &str = "\
init cluster (id = 1); => ok
store node (id = 2, event node = 1); => ok event 1 1
store node (id = 3, event node = 1); => ok event 1 2
store path (server = 1, client = 2, conninfo = 'dbname=a'); => ok event 2 1
store path (server = 2, client = 1, conninfo = 'dbname=b'); => ok event 1 3
store path (server = 1, client = 3, conninfo = 'dbname=a'); => ok event 3 1
store path (server = 2, client = 3, conninfo = 'dbname=b'); => ok event 3 2
create set (id = 1, origin = 1); => ok event 1 4
set add table (set id = 1, origin = 1, id = 1, fully qualified name = 'public.t'); => ok event 1 5
subscribe set (id = 1, provider = 1, receiver = 2, forward = yes); => ok event 1 8
";

/// Node 2 has copied the set, of which the origin has not heard.
const COPIED: &str = "\
step s => ok ended 0
table c public.t 2 => ok
start 1 => ok
start 2 => ok
start 3 => ok
listen 2 1 => ok events 7 confirms 0
work 2 1 => ok STORE_NODE 2 rows 0
work 2 1 => ok STORE_PATH 3 rows 0
work 2 1 => ok STORE_SET 4 rows 0
work 2 1 => ok SET_ADD_TABLE 5 rows 0
work 2 1 => ok SYNC 6 rows 0
work 2 1 => ok SUBSCRIBE_SET 7 rows 0
work 2 1 => ok ENABLE_SUBSCRIPTION 8 rows 0
";

/// Node 3 asks for the set before the origin has heard that node 2 has copied it, and behind that.
const TOO_EARLY: &str = "subscribe set (id = 1, provider = 2, receiver = 3); => no 72 notactive 2";

const FROM_TWO: &str = "subscribe set (id = 1, provider = 2, receiver = 3); => ok event 1 11";

const HEARD: &str = "listen 1 2 => ok events 1 confirms 1";

/// Node 3 waits for its provider, with the copy and with a SYNC.
const WAITS: &str = "\
listen 3 1 => ok events 9 confirms 1
work 3 1 => ok STORE_PATH 3 rows 0
work 3 1 => ok STORE_SET 4 rows 0
work 3 1 => ok SET_ADD_TABLE 5 rows 0
work 3 1 => ok SYNC 6 rows 0
work 3 1 => ok SUBSCRIBE_SET 7 rows 0
work 3 1 => ok ENABLE_SUBSCRIPTION 8 rows 0
work 3 1 => ok SYNC 9 rows 0
work 3 1 => ok SUBSCRIBE_SET 10 rows 0
work 3 1 => no 63 behind 2 8 11
fetch 3 1 => no 63 behind 2 8 11
listen 2 1 => ok events 3 confirms 0
work 2 1 => ok SYNC 9 rows 0
work 2 1 => ok SUBSCRIBE_SET 10 rows 0
work 2 1 => ok ENABLE_SUBSCRIPTION 11 rows 0
work 3 1 => ok ENABLE_SUBSCRIPTION 11 rows 0
begin a t => ok xid 1
insert a t public.t p 1 => ok action 1
commit a t => ok actions 1
sync 1 => ok event 1 12
listen 3 1 => ok events 1 confirms 0
work 3 1 => no 63 behind 2 11 12
listen 2 1 => ok events 1 confirms 0
work 2 1 => ok SYNC 12 rows 1
# The origin is looked at no more.
crash a => ok
work 3 1 => ok SYNC 12 rows 1
rows c public.t => ok rows 1 p=1
";

/// Adds how node 3 takes the set from node 2.
fn push_provided(wanted: &mut Wanted) -> Result<(), AllocError> {
    wanted.push_all(DATABASES)?;
    wanted.push_script(NODES, CLUSTER)?;
    wanted.push_all(COPIED)?;
    wanted.push_each(NODES, TOO_EARLY)?;
    wanted.push_all(HEARD)?;
    wanted.push_script(NODES, FROM_TWO)?;
    wanted.push_all(WAITS)
}

#[test]
fn a_forwarder_provides(rt: HostRuntime) -> Result<(), Fail> {
    let mut wanted = nothing_wanted(rt.alloc());
    push_provided(&mut wanted)?;
    expect_wanted(rt.alloc(), &wanted)
}

/// Node 3 takes the set from node 2, and there are paths to it.
const THIRD: &str = "\
subscribe set (id = 1, provider = 2, receiver = 3); => ok event 1 11
store path (server = 3, client = 1, conninfo = 'dbname=c'); => ok event 1 12
store path (server = 3, client = 2, conninfo = 'dbname=c'); => ok event 2 2
";

/// Node 3 has copied the set, of which the origin has not heard.
const JOINS: &str = "\
step s => ok ended 0
listen 3 1 => ok events 10 confirms 1
work 3 1 => ok STORE_PATH 3 rows 0
work 3 1 => ok STORE_SET 4 rows 0
work 3 1 => ok SET_ADD_TABLE 5 rows 0
work 3 1 => ok SYNC 6 rows 0
work 3 1 => ok SUBSCRIBE_SET 7 rows 0
work 3 1 => ok ENABLE_SUBSCRIPTION 8 rows 0
work 3 1 => ok SYNC 9 rows 0
work 3 1 => ok SUBSCRIBE_SET 10 rows 0
listen 2 1 => ok events 4 confirms 0
work 2 1 => ok SYNC 9 rows 0
work 2 1 => ok SUBSCRIBE_SET 10 rows 0
work 2 1 => ok ENABLE_SUBSCRIPTION 11 rows 0
work 2 1 => ok STORE_PATH 12 rows 0
work 3 1 => ok ENABLE_SUBSCRIPTION 11 rows 0
work 3 1 => ok STORE_PATH 12 rows 0
";

const UNCONFIRMED: &str = "\
subscribe set (id = 1, provider = 1, receiver = 3); => no 72 notactive 3
";

const PROVIDES: &str = "\
subscribe set (id = 1, provider = 1, receiver = 2); => no 46 hasreceivers 2
subscribe set (id = 1, provider = 3, receiver = 2, forward = yes); => no 73 notforwarding 3
";

const HEARD_OF_THREE: &str = "listen 1 3 => ok events 2 confirms 1";

/// Node 2 would take the set from node 3, which takes it from node 2; and later it does.
const LOOP: &str =
    "subscribe set (id = 1, provider = 3, receiver = 2, forward = yes); => no 59 loop 1";

const UNDER_THREE: &str =
    "subscribe set (id = 1, provider = 3, receiver = 2, forward = yes); => ok event 1 18";

const FORWARDS: &str = "\
subscribe set (id = 1, provider = 2, receiver = 3, forward = yes); => ok event 1 14
";

/// Node 3 is told to forward the set, and the origin hears that it knows.
const TURNED: &str = "\
listen 3 1 => ok events 2 confirms 0
work 3 1 => no 63 behind 2 12 13
listen 2 1 => ok events 2 confirms 1
work 2 1 => ok SYNC 13 rows 0
work 2 1 => ok SUBSCRIBE_SET 14 rows 0
work 3 1 => ok SYNC 13 rows 0
work 3 1 => ok SUBSCRIBE_SET 14 rows 0
listen 1 3 => ok events 0 confirms 1
";

const FROM_ONE: &str = "\
subscribe set (id = 1, provider = 1, receiver = 3, forward = yes); => ok event 1 16
";

/// Node 3 leaves its provider, from which it takes the SYNC in front of the change.
const LEAVES: &str = "\
step s => ok ended 0
listen 3 1 => ok events 2 confirms 0
work 3 1 => no 63 behind 2 14 15
listen 2 1 => ok events 2 confirms 1
work 2 1 => ok SYNC 15 rows 0
work 2 1 => ok SUBSCRIBE_SET 16 rows 0
work 3 1 => ok SYNC 15 rows 0
work 3 1 => ok SUBSCRIBE_SET 16 rows 0
listen 1 3 => ok events 0 confirms 1
begin a t => ok xid 1
insert a t public.t p 1 => ok action 1
commit a t => ok actions 1
";

/// Node 2 takes the set from node 3, which logs it from where it was told to forward it.
const CROSSED: &str = "\
step s => ok ended 0
listen 2 1 => ok events 2 confirms 1
work 2 1 => ok SYNC 17 rows 1
work 2 1 => ok SUBSCRIBE_SET 18 rows 0
begin a t => ok xid 2
insert a t public.t q 2 => ok action 2
commit a t => ok actions 1
sync 1 => ok event 1 19
listen 2 1 => ok events 1 confirms 0
work 2 1 => no 63 behind 3 16 19
listen 3 1 => ok events 3 confirms 0
work 3 1 => ok SYNC 17 rows 1
work 3 1 => ok SUBSCRIBE_SET 18 rows 0
work 3 1 => ok SYNC 19 rows 1
work 2 1 => ok SYNC 19 rows 1
rows b public.t => ok rows 2 p=1 q=2
";

/// Adds how node 3 joins under node 2, and is told to forward the set.
fn push_forwarding(wanted: &mut Wanted) -> Result<(), AllocError> {
    wanted.push_all(DATABASES)?;
    wanted.push_script(NODES, CLUSTER)?;
    wanted.push_all(COPIED)?;
    wanted.push_all(HEARD)?;
    wanted.push_script(NODES, THIRD)?;
    wanted.push_all(JOINS)?;
    wanted.push_each(NODES, UNCONFIRMED)?;
    wanted.push_all(HEARD_OF_THREE)?;
    wanted.push_each(NODES, PROVIDES)?;
    wanted.push_script(NODES, FORWARDS)?;
    wanted.push("step s", "ok ended 0")
}

/// Adds how it leaves its provider, which then takes the set from it.
fn push_leaving(wanted: &mut Wanted) -> Result<(), AllocError> {
    wanted.push_each(NODES, UNCONFIRMED)?;
    wanted.push_all(TURNED)?;
    wanted.push_each(NODES, LOOP)?;
    wanted.push_script(NODES, FROM_ONE)?;
    wanted.push_all(LEAVES)?;
    wanted.push_script(NODES, UNDER_THREE)?;
    wanted.push_all(CROSSED)
}

#[test]
fn a_receiver_changes_its_provider(rt: HostRuntime) -> Result<(), Fail> {
    let mut wanted = nothing_wanted(rt.alloc());
    push_forwarding(&mut wanted)?;
    push_leaving(&mut wanted)?;
    expect_wanted(rt.alloc(), &wanted)
}

// ---- where a store fails

/// Node 2 has copied two rows, and what the origin changed since has come with a SYNC: it has `p` and `r` now. Node 3
/// is to take the set from it, and the origin has committed a row that no SYNC has brought.
pub const FORWARDED: &str = "\
table c public.t 2 => ok
start 1 => ok
start 2 => ok
start 3 => ok
begin a x => ok xid 1
insert a x public.t p 1 => ok action 1
insert a x public.t q 2 => ok action 2
commit a x => ok actions 2
listen 2 1 => ok events 7 confirms 0
work 2 1 => ok STORE_NODE 2 rows 0
work 2 1 => ok STORE_PATH 3 rows 0
work 2 1 => ok STORE_SET 4 rows 0
work 2 1 => ok SET_ADD_TABLE 5 rows 0
work 2 1 => ok SYNC 6 rows 0
work 2 1 => ok SUBSCRIBE_SET 7 rows 0
work 2 1 => ok ENABLE_SUBSCRIPTION 8 rows 2
listen 1 2 => ok events 1 confirms 1
begin a y => ok xid 2
delete a y public.t q => ok action 3
insert a y public.t r 3 => ok action 4
commit a y => ok actions 2
sync 1 => ok event 1 9
slonik t <<
cluster name = demo;
node 1 admin conninfo = 'dbname=a';
node 2 admin conninfo = 'dbname=b';
node 3 admin conninfo = 'dbname=c';
subscribe set (id = 1, provider = 2, receiver = 3);
>> => ok statements 1
step t => ok event 1 12
listen 2 1 => ok events 4 confirms 0
work 2 1 => ok SYNC 9 rows 2
work 2 1 => ok SYNC 10 rows 0
work 2 1 => ok SUBSCRIBE_SET 11 rows 0
work 2 1 => ok ENABLE_SUBSCRIPTION 12 rows 0
begin a z => ok xid 3
insert a z public.t s 4 => ok action 5
commit a z => ok actions 1
listen 3 1 => ok events 10 confirms 1
work 3 1 => ok STORE_PATH 3 rows 0
work 3 1 => ok STORE_SET 4 rows 0
work 3 1 => ok SET_ADD_TABLE 5 rows 0
work 3 1 => ok SYNC 6 rows 0
work 3 1 => ok SUBSCRIBE_SET 7 rows 0
work 3 1 => ok ENABLE_SUBSCRIPTION 8 rows 0
work 3 1 => ok SYNC 9 rows 0
work 3 1 => ok SYNC 10 rows 0
work 3 1 => ok SUBSCRIBE_SET 11 rows 0
";

/// The copy, over a store of the node that fails.
const COPY: Sweep = Sweep {
    databases: DATABASES,
    nodes: NODES,
    cluster: CLUSTER,
    front: [FORWARDED, ""],
    database: "c",
    calls: 100,
    lines: "work 3 1\ncrash c\nup c\nrows c public.t\n",
    done: "\
ok ENABLE_SUBSCRIPTION 12 rows 2
ok
ok
ok rows 2 p=1 r=3
",
    failed: "\
no 10 fault c 1
no 16 down c
ok
ok rows 0
",
    kept: "\
doubt c ok ENABLE_SUBSCRIPTION 12 rows 2
no 16 down c
ok kept
ok rows 2 p=1 r=3
",
    lost: "\
doubt c ok ENABLE_SUBSCRIPTION 12 rows 2
no 16 down c
ok lost
ok rows 0
",
};

const NO_COPY: &str = "\
no 10 fault b 1
no 16 down b
ok
ok rows 0
";

/// The same over a store of the provider: nothing is done where it fails.
const COPY_AT_PROVIDER: Sweep = Sweep {
    database: "b",
    lines: "work 3 1\ncrash b\nup b\nrows c public.t\n",
    failed: NO_COPY,
    kept: NO_COPY,
    lost: NO_COPY,
    ..COPY
};

/// Node 3 has copied the set, and both nodes have heard of the SYNC behind the origin's last row; node 2 applied it.
const SYNCED: &str = "\
work 3 1 => ok ENABLE_SUBSCRIPTION 12 rows 2
sync 1 => ok event 1 13
listen 2 1 => ok events 1 confirms 0
work 2 1 => ok SYNC 13 rows 1
listen 3 1 => ok events 1 confirms 0
";

const NO_SYNC: &str = "\
no 10 fault b 1
no 16 down b
ok
ok rows 2 p=1 r=3
";

/// The SYNC, over a store of the provider that fails.
const SYNC_AT_PROVIDER: Sweep = Sweep {
    databases: DATABASES,
    nodes: NODES,
    cluster: CLUSTER,
    front: [FORWARDED, SYNCED],
    database: "b",
    calls: 100,
    lines: "work 3 1\ncrash b\nup b\nrows c public.t\n",
    done: "\
ok SYNC 13 rows 1
ok
ok
ok rows 3 p=1 r=3 s=4
",
    failed: NO_SYNC,
    kept: NO_SYNC,
    lost: NO_SYNC,
};

#[test]
fn copies_of_a_forwarder_crash_at_every_call_of_the_node(rt: HostRuntime) -> Result<(), Fail> {
    let told = COPY.told_of_both(rt.alloc())?;
    require(told > 15, "the calls of the node")
}

#[test]
fn copies_of_a_forwarder_crash_at_every_call_of_the_provider(rt: HostRuntime) -> Result<(), Fail> {
    let told = COPY_AT_PROVIDER.told_at_each(rt.alloc(), false)?;
    require(told > 4, "the calls of the provider")
}

#[test]
fn syncs_of_a_forwarder_crash_at_every_call_of_the_provider(rt: HostRuntime) -> Result<(), Fail> {
    let told = SYNC_AT_PROVIDER.told_at_each(rt.alloc(), false)?;
    require(told > 4, "the calls of the provider")
}
