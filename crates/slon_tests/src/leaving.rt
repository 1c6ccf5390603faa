// A node that is dropped: when the statement is accepted, what other statements and other nodes say of the node then,
// what the node itself has still, and a receiver that an event node drops which has not heard of its subscription.
use crate::cascades::{CLUSTER, FORWARDED};
use crate::polls::{DATABASES, NODES, STARTED};
use crate::sweeps::Sweep;
use crate::wanted::{Wanted, expect_wanted, nothing_wanted};
use std::alloc::AllocError;
use std::test::Fail;
use test_words::require;

/// Node 3 copies set 1 from node 2, and there are tables for another set.
const TABLES: &str = "\
work 3 1 => ok ENABLE_SUBSCRIPTION 12 rows 2
table b public.v 2 => ok
table c public.v 2 => ok
";

// ---- a node that has a part in a set

/// It receives that one, too, from node 2, which is its origin.
const SECOND: &str = "\
create set (id = 2, origin = 2); => ok event 2 2
set add table (set id = 2, origin = 2, id = 2, fully qualified name = 'public.v'); => ok event 2 3
subscribe set (id = 2, provider = 2, receiver = 3); => ok event 2 6
";

/// No node leaves: node 1 is the origin of set 1, node 2 provides it, and node 3 receives it.
const USED: &str = "\
drop node (id = 3, event node = 9); => no 45 noconninfo 9
drop node (id = 1, event node = 1); => no 78 samenode 1
drop node (id = 9, event node = 9); => no 45 noconninfo 9
drop node (id = 9, event node = 1); => no 44 nonode 9
drop node (id = 1, event node = 2); => no 76 stillused 1
drop node (id = 1, event node = 3); => no 76 stillused 1
drop node (id = 2, event node = 1); => no 76 stillused 1
drop node (id = 2, event node = 3); => no 76 stillused 1
drop node (id = 3, event node = 1); => no 76 stillused 1
drop node (id = 3, event node = 2); => no 76 stillused 1
";

/// Other databases than those of the nodes.
const ELSEWHERE: &str = "cluster name = demo;
node 1 admin conninfo = 'dbname=b';
node 2 admin conninfo = 'dbname=e';
node 3 admin conninfo = 'dbname=d';
";

/// The event node is not reached.
const UNREACHED: &str = "\
drop node (id = 2, event node = 1); => no 42 othernode 1
drop node (id = 1, event node = 2); => no 17 nodatabase e
drop node (id = 1, event node = 3); => no 41 notinitialised 3
";

/// It is down.
const DOWN: &str = "drop node (id = 9, event node = 1); => no 16 down a";

/// Node 3 is to give set 1 up, of which node 2 has not heard.
const THREE_ENDS: &str = "unsubscribe set (id = 1, receiver = 3); => ok event 1 13";

/// Node 2 receives set 1 still, and nobody has it from there.
const RECEIVES: &str = "\
drop node (id = 2, event node = 1); => no 76 stillused 1
drop node (id = 3, event node = 2); => no 76 stillused 1
";

/// Node 2 hears of it.
const TOLD_TWO: &str = "\
listen 2 1 => ok events 1 confirms 0
work 2 1 => ok UNSUBSCRIBE_SET 13 rows 0
";

/// Node 3 receives set 2 still.
const SECOND_USED: &str = "\
drop node (id = 3, event node = 2); => no 76 stillused 2
drop node (id = 2, event node = 1); => no 76 stillused 1
";

/// Nobody receives a set then.
const BOTH_END: &str = "\
unsubscribe set (id = 2, receiver = 3); => ok event 2 7
unsubscribe set (id = 1, receiver = 2); => ok event 1 14
";

/// Node 1 hears that node 2 is the origin of set 2.
const TOLD_ONE: &str = "\
listen 1 2 => ok events 7 confirms 1
work 1 2 => ok STORE_PATH 1 rows 0
work 1 2 => ok STORE_SET 2 rows 0
work 1 2 => ok SET_ADD_TABLE 3 rows 0
work 1 2 => ok SYNC 4 rows 0
work 1 2 => ok SUBSCRIBE_SET 5 rows 0
work 1 2 => ok ENABLE_SUBSCRIPTION 6 rows 0
work 1 2 => ok UNSUBSCRIBE_SET 7 rows 0
";

const OF_ITS_OWN: &str = "drop node (id = 2, event node = 1); => no 76 stillused 2";

/// The set ends there, of which node 1 has not heard.
const ENDS: &str = "drop set (id = 2, origin = 2); => ok event 2 8";

/// Node 1 hears of that.
const TOLD_END: &str = "\
listen 1 2 => ok events 1 confirms 0
work 1 2 => ok DROP_SET 8 rows 0
";

/// Both nodes leave, one of them twice, as node 1 has not heard what node 2 says.
const UNUSED: &str = "\
drop node (id = 3, event node = 2); => ok event 2 9
drop node (id = 2, event node = 1); => ok event 1 15
drop node (id = 3, event node = 1); => ok event 1 16
";

/// The origin of set 1 stays.
const ORIGIN: &str = "\
drop node (id = 1, event node = 3); => no 76 stillused 1
drop node (id = 1, event node = 2); => no 76 stillused 1
drop node (id = 3, event node = 2); => no 44 nonode 3
";

/// Adds a script of these statements, which is run to its end.
fn push_whole(wanted: &mut Wanted, nodes: &str, steps: &str) -> Result<(), AllocError> {
    wanted.push_script(nodes, steps)?;
    wanted.push("step s", "ok ended 0")
}

/// Adds how node 3 receives a set from node 2, and another one of which node 2 is the origin, and what is refused then.
fn push_used(wanted: &mut Wanted) -> Result<(), AllocError> {
    wanted.push_all(DATABASES)?;
    wanted.push("database d", "ok")?;
    push_whole(wanted, NODES, CLUSTER)?;
    wanted.push_all(FORWARDED)?;
    wanted.push_all(TABLES)?;
    push_whole(wanted, NODES, SECOND)?;
    wanted.push_each(NODES, USED)?;
    wanted.push_each(ELSEWHERE, UNREACHED)?;
    wanted.push("crash a", "ok")?;
    wanted.push_each(NODES, DOWN)?;
    wanted.push("up a", "ok")
}

/// Adds how each subscription ends.
fn push_receivers(wanted: &mut Wanted) -> Result<(), AllocError> {
    push_whole(wanted, NODES, THREE_ENDS)?;
    wanted.push_each(NODES, RECEIVES)?;
    wanted.push_all(TOLD_TWO)?;
    wanted.push_each(NODES, SECOND_USED)?;
    push_whole(wanted, NODES, BOTH_END)
}

/// Adds how the set ends of which node 2 is the origin, and how both nodes are dropped.
fn push_unused(wanted: &mut Wanted) -> Result<(), AllocError> {
    wanted.push_all(TOLD_ONE)?;
    wanted.push_each(NODES, OF_ITS_OWN)?;
    push_whole(wanted, NODES, ENDS)?;
    wanted.push_each(NODES, OF_ITS_OWN)?;
    wanted.push_all(TOLD_END)?;
    push_whole(wanted, NODES, UNUSED)?;
    wanted.push_each(NODES, ORIGIN)
}

#[test]
fn a_node_is_used(rt: HostRuntime) -> Result<(), Fail> {
    let mut wanted = nothing_wanted(rt.alloc());
    push_used(&mut wanted)?;
    push_receivers(&mut wanted)?;
    push_unused(&mut wanted)?;
    expect_wanted(rt.alloc(), &wanted)
}

// ---- a node that leaves

/// Node 3 has copied the set, and the others have paths from it.
const PATHS: &str = "\
store path (server = 3, client = 1, conninfo = 'dbname=c'); => ok event 1 13
store path (server = 3, client = 2, conninfo = 'dbname=c'); => ok event 2 2
unsubscribe set (id = 1, receiver = 3); => ok event 1 14
";

/// It gives the set up, and node 1 has heard of it.
const GIVEN_UP: &str = "\
listen 3 1 => ok events 2 confirms 0
work 3 1 => ok STORE_PATH 13 rows 0
work 3 1 => ok UNSUBSCRIBE_SET 14 rows 0
listen 3 2 => ok events 2 confirms 1
work 3 2 => ok STORE_PATH 1 rows 0
listen 1 3 => ok events 2 confirms 3
";

const DROPPED: &str = "drop node (id = 3, event node = 1); => ok event 1 15";

/// To node 1 there is no such node, of which node 2 has not heard.
const GONE: &str = "\
drop node (id = 3, event node = 1); => no 44 nonode 3
drop node (id = 3, event node = 2); => no 76 stillused 1
store path (server = 3, client = 1, conninfo = 'dbname=c'); => no 44 nonode 3
subscribe set (id = 1, provider = 1, receiver = 3); => no 44 nonode 3
subscribe set (id = 1, provider = 3, receiver = 2); => no 44 nonode 3
unsubscribe set (id = 1, receiver = 3); => no 72 notactive 3
store node (id = 3, event node = 1); => no 43 alreadynode 3
";

/// Node 2 knows one still, and so does node 3.
const NOT_GONE: &str = "\
store path (server = 3, client = 2, conninfo = 'dbname=c'); => ok event 2 3
store path (server = 1, client = 3, conninfo = 'dbname=a'); => ok event 3 3
";

/// What waits at node 1 is applied, and no more comes. Node 2 answers node 3, and hears it.
const POLLED: &str = "\
listen 1 3 => no 61 notlisted 3
work 1 3 => ok STORE_PATH 1 rows 0
work 1 3 => ok STORE_PATH 2 rows 0
work 1 3 => no 60 nothing
listen 3 1 => no 62 notknown 3
work 3 1 => no 60 nothing
listen 3 2 => ok events 1 confirms 0
work 3 2 => ok STORE_PATH 2 rows 0
work 3 2 => ok STORE_PATH 3 rows 0
listen 2 3 => ok events 3 confirms 2
work 2 3 => ok STORE_PATH 1 rows 0
";

/// Node 3 has its rows, and goes on, also behind a crash.
const GOES_ON: &str = "\
rows c public.t => ok rows 2 p=1 r=3
begin c w => ok xid 1
insert c w public.t y 9 => ok action 1
commit c w => ok actions 1
sync 3 => ok event 3 4
crash c => ok
up c => ok
start 3 => ok
begin c v => ok xid 65
delete c v public.t p => ok action 65
commit c v => ok actions 1
sync 3 => ok event 3 5
sync 3 => no 60 nothing
rows c public.t => ok rows 2 r=3 y=9
status c => ok node 3 log 0 progress 1 14 progress 2 3 progress 3 5
";

/// Node 2 answers it until it has heard. What waits there is applied then, too.
const HEARS: &str = "\
listen 2 1 => ok events 3 confirms 1
work 2 1 => ok STORE_PATH 13 rows 0
work 2 1 => ok UNSUBSCRIBE_SET 14 rows 0
listen 2 3 => ok events 2 confirms 0
listen 3 2 => ok events 0 confirms 3
listen 3 2 => no 60 nothing
work 2 1 => ok DROP_NODE 15 rows 0
listen 3 2 => no 62 notknown 3
listen 2 3 => no 61 notlisted 3
work 2 3 => ok STORE_PATH 2 rows 0
work 2 1 => no 60 nothing
work 2 3 => ok STORE_PATH 3 rows 0
work 2 3 => ok SYNC 4 rows 0
work 2 3 => ok SYNC 5 rows 0
work 2 3 => no 60 nothing
";

/// Behind a crash each node knows that. Nodes 1 and 2 go on.
const OTHERS: &str = "\
crash a => ok
up a => ok
start 1 => ok
crash b => ok
up b => ok
start 2 => ok
listen 1 3 => no 61 notlisted 3
listen 3 1 => no 62 notknown 3
listen 2 3 => no 61 notlisted 3
listen 3 2 => no 62 notknown 3
begin a h => ok xid 65
insert a h public.t z 7 => ok action 65
commit a h => ok actions 1
sync 1 => ok event 1 16
listen 2 1 => ok events 1 confirms 0
work 2 1 => ok SYNC 16 rows 2
rows b public.t => ok rows 4 p=1 r=3 s=4 z=7
listen 1 2 => ok events 3 confirms 3
rows c public.t => ok rows 2 r=3 y=9
";

/// Each statement says so at both nodes.
const STAYS_GONE: &str = "\
drop node (id = 3, event node = 1); => no 44 nonode 3
drop node (id = 3, event node = 2); => no 44 nonode 3
store path (server = 3, client = 2, conninfo = 'dbname=c'); => no 44 nonode 3
";

/// Another database for node 3, and one for another node.
const ANEW: &str = "cluster name = demo;
node 1 admin conninfo = 'dbname=a';
node 2 admin conninfo = 'dbname=b';
node 3 admin conninfo = 'dbname=d';
node 4 admin conninfo = 'dbname=d';
";

/// Its id is used.
const STAYS_USED: &str = "\
store node (id = 3, event node = 1); => no 18 idused 3
store node (id = 3, event node = 2); => no 18 idused 3
";

/// A node that joins has it as a dropped one, too.
const JOINS: &str = "store node (id = 4, event node = 1); => ok event 1 17";

const STRANGE: &str = "\
store path (server = 3, client = 4, conninfo = 'dbname=c'); => no 44 nonode 3
drop node (id = 3, event node = 4); => no 44 nonode 3
";

/// Adds how node 3 gives the set up and is dropped.
fn push_dropped(wanted: &mut Wanted) -> Result<(), AllocError> {
    wanted.push_all(DATABASES)?;
    wanted.push("database d", "ok")?;
    push_whole(wanted, NODES, CLUSTER)?;
    wanted.push_all(FORWARDED)?;
    wanted.push("work 3 1", "ok ENABLE_SUBSCRIPTION 12 rows 2")?;
    push_whole(wanted, NODES, PATHS)?;
    wanted.push_all(GIVEN_UP)?;
    push_whole(wanted, NODES, DROPPED)?;
    wanted.push_each(NODES, GONE)?;
    push_whole(wanted, NODES, NOT_GONE)
}

/// Adds what each node has of it then.
fn push_gone(wanted: &mut Wanted) -> Result<(), AllocError> {
    wanted.push_all(POLLED)?;
    wanted.push_all(GOES_ON)?;
    wanted.push_all(HEARS)?;
    wanted.push_all(OTHERS)?;
    wanted.push_each(NODES, STAYS_GONE)?;
    wanted.push_each(ANEW, STAYS_USED)?;
    push_whole(wanted, ANEW, JOINS)?;
    wanted.push_each(ANEW, STRANGE)
}

#[test]
fn a_node_leaves(rt: HostRuntime) -> Result<(), Fail> {
    let mut wanted = nothing_wanted(rt.alloc());
    push_dropped(&mut wanted)?;
    push_gone(&mut wanted)?;
    expect_wanted(rt.alloc(), &wanted)
}

// ---- a node that is a server still

/// Node 2 has a path from node 3 and none from node 1, of which it hears at node 3.
const BY_THREE: &str = "\
init cluster (id = 1); => ok
store node (id = 2, event node = 1); => ok event 1 1
store node (id = 3, event node = 1); => ok event 1 2
store path (server = 1, client = 3, conninfo = 'dbname=a'); => ok event 3 1
store path (server = 3, client = 2, conninfo = 'dbname=c'); => ok event 2 1
drop node (id = 3, event node = 2); => no 44 nonode 3
";

/// It has heard there that node 3 is a node, and drops it.
const OVER_THREE: &str = "\
start 1 => ok
start 2 => ok
start 3 => ok
listen 2 3 => ok events 1 confirms 1
work 2 1 => ok STORE_NODE 2 rows 0
";

const BY_TWO: &str = "drop node (id = 3, event node = 2); => ok event 2 2";

/// It hears node 1 there still.
const STILL_THERE: &str = "\
sync 1 => ok event 1 3
listen 3 1 => ok events 1 confirms 0
work 3 1 => ok SYNC 3 rows 0
listen 2 3 => ok events 1 confirms 1
work 2 1 => ok SYNC 3 rows 0
sync 3 => ok event 3 2
listen 2 3 => no 60 nothing
";

/// Adds how it is dropped by a node that hears others there.
fn push_server(wanted: &mut Wanted) -> Result<(), AllocError> {
    wanted.push_all(DATABASES)?;
    wanted.push_script(NODES, BY_THREE)?;
    wanted.push_all(OVER_THREE)?;
    push_whole(wanted, NODES, BY_TWO)?;
    wanted.push_all(STILL_THERE)
}

#[test]
fn a_dropped_node_serves(rt: HostRuntime) -> Result<(), Fail> {
    let mut wanted = nothing_wanted(rt.alloc());
    push_server(&mut wanted)?;
    expect_wanted(rt.alloc(), &wanted)
}

// ---- a receiver that the event node does not know as one

/// Node 3 receives the set from node 1, of which node 2 has heard nothing but that there is a node 3.
const UNHEARD: &str = "\
init cluster (id = 1); => ok
store node (id = 2, event node = 1); => ok event 1 1
store node (id = 3, event node = 1); => ok event 1 2
store path (server = 1, client = 2, conninfo = 'dbname=a'); => ok event 2 1
store path (server = 2, client = 1, conninfo = 'dbname=b'); => ok event 1 3
store path (server = 1, client = 3, conninfo = 'dbname=a'); => ok event 3 1
create set (id = 1, origin = 1); => ok event 1 4
set add table (set id = 1, origin = 1, id = 1, fully qualified name = 'public.t'); => ok event 1 5
subscribe set (id = 1, provider = 1, receiver = 3); => ok event 1 8
";

/// Node 3 has copied a row; a SYNC with another one is fetched, and one with a third row waits behind it.
const FETCHED: &str = "\
table c public.t 2 => ok
start 3 => ok
begin a x => ok xid 1
insert a x public.t p 1 => ok action 1
commit a x => ok actions 1
listen 3 1 => ok events 6 confirms 0
work 3 1 => ok STORE_PATH 3 rows 0
work 3 1 => ok STORE_SET 4 rows 0
work 3 1 => ok SET_ADD_TABLE 5 rows 0
work 3 1 => ok SYNC 6 rows 0
work 3 1 => ok SUBSCRIBE_SET 7 rows 0
work 3 1 => ok ENABLE_SUBSCRIPTION 8 rows 1
begin a y => ok xid 2
insert a y public.t q 2 => ok action 2
commit a y => ok actions 1
sync 1 => ok event 1 9
begin a z => ok xid 3
insert a z public.t r 3 => ok action 3
commit a z => ok actions 1
sync 1 => ok event 1 10
listen 3 1 => ok events 2 confirms 0
fetch 3 1 => ok fetched 9 rows 1
listen 2 1 => ok events 9 confirms 0
work 2 1 => ok STORE_NODE 2 rows 0
work 2 1 => ok STORE_PATH 3 rows 0
work 2 1 => ok STORE_SET 4 rows 0
work 2 1 => ok SET_ADD_TABLE 5 rows 0
work 2 1 => ok SYNC 6 rows 0
";

const IGNORANT: &str = "\
drop node (id = 3, event node = 1); => no 76 stillused 1
drop node (id = 1, event node = 2); => no 76 stillused 1
";

const BY_IGNORANT: &str = "drop node (id = 3, event node = 2); => ok event 2 2";

/// The origin of the set gives node 3 nothing from where it has heard of that. Node 3 applies what it has fetched, and
/// keeps the set so, also behind a crash.
const KEEPS: &str = "\
listen 1 2 => ok events 2 confirms 1
work 1 2 => ok STORE_PATH 1 rows 0
work 1 2 => ok DROP_NODE 2 rows 0
work 3 1 => ok SYNC 9 rows 1
work 3 1 => no 62 notknown 3
fetch 3 1 => no 62 notknown 3
listen 3 1 => no 62 notknown 3
status c => ok node 3 log 0 progress 1 9 progress 2 0 progress 3 1 set 1 era 1 at 3:3:
rows c public.t => ok rows 2 p=1 q=2
crash c => ok
up c => ok
start 3 => ok
listen 3 1 => no 62 notknown 3
begin c w => ok xid 65
insert c w public.t y 9 => no 55 notorigin 1
status c => ok node 3 log 0 progress 1 9 progress 2 0 progress 3 1 set 1 era 1 at 3:3:
rows c public.t => ok rows 2 p=1 q=2
";

/// Node 2 hears of the subscription.
const LATER: &str = "\
work 2 1 => ok SUBSCRIBE_SET 7 rows 0
work 2 1 => ok ENABLE_SUBSCRIPTION 8 rows 0
work 2 1 => ok SYNC 9 rows 0
work 2 1 => ok SYNC 10 rows 0
";

/// The origin has the subscription until it ends.
const SUBSCRIBED: &str = "\
drop node (id = 3, event node = 1); => no 44 nonode 3
drop node (id = 3, event node = 2); => no 44 nonode 3
subscribe set (id = 1, provider = 1, receiver = 3); => no 44 nonode 3
set add table (set id = 1, origin = 1, id = 2, fully qualified name = 'public.v'); => no 46 hasreceivers 3
";

const ENDED: &str = "\
unsubscribe set (id = 1, receiver = 3); => ok event 1 11
set add table (set id = 1, origin = 1, id = 2, fully qualified name = 'public.v'); => ok event 1 12
";

/// Adds how node 2 drops the receiver, and what each node has of it then.
fn push_kept(wanted: &mut Wanted) -> Result<(), AllocError> {
    wanted.push_all(DATABASES)?;
    wanted.push("table a public.v 2", "ok")?;
    push_whole(wanted, NODES, UNHEARD)?;
    wanted.push_all(STARTED)?;
    wanted.push_all(FETCHED)?;
    wanted.push_each(NODES, IGNORANT)?;
    push_whole(wanted, NODES, BY_IGNORANT)?;
    wanted.push_all(KEEPS)?;
    wanted.push_all(LATER)?;
    wanted.push_each(NODES, SUBSCRIBED)?;
    push_whole(wanted, NODES, ENDED)
}

#[test]
fn a_dropped_receiver_keeps_the_set(rt: HostRuntime) -> Result<(), Fail> {
    let mut wanted = nothing_wanted(rt.alloc());
    push_kept(&mut wanted)?;
    expect_wanted(rt.alloc(), &wanted)
}

// ---- a provider that the event node does not know as one

/// Four nodes by their databases.
const QUARTET: &str = "cluster name = demo;
node 1 admin conninfo = 'dbname=a';
node 2 admin conninfo = 'dbname=b';
node 3 admin conninfo = 'dbname=c';
node 4 admin conninfo = 'dbname=d';
";

/// Node 2 receives the set from node 1, of which node 4 has not heard.
const FOUR: &str = "\
init cluster (id = 1); => ok
store node (id = 2, event node = 1); => ok event 1 1
store node (id = 3, event node = 1); => ok event 1 2
store node (id = 4, event node = 1); => ok event 1 3
store path (server = 1, client = 2, conninfo = 'dbname=a'); => ok event 2 1
store path (server = 2, client = 1, conninfo = 'dbname=b'); => ok event 1 4
store path (server = 4, client = 1, conninfo = 'dbname=d'); => ok event 1 5
store path (server = 1, client = 3, conninfo = 'dbname=a'); => ok event 3 1
store path (server = 3, client = 1, conninfo = 'dbname=c'); => ok event 1 6
store path (server = 2, client = 3, conninfo = 'dbname=b'); => ok event 3 2
create set (id = 1, origin = 1); => ok event 1 7
set add table (set id = 1, origin = 1, id = 1, fully qualified name = 'public.t'); => ok event 1 8
subscribe set (id = 1, provider = 1, receiver = 2, forward = yes); => ok event 1 11
";

/// Node 2 has copied the set.
const PROVIDES: &str = "\
table c public.t 2 => ok
start 3 => ok
listen 2 1 => ok events 10 confirms 0
work 2 1 => ok STORE_NODE 2 rows 0
work 2 1 => ok STORE_NODE 3 rows 0
work 2 1 => ok STORE_PATH 4 rows 0
work 2 1 => ok STORE_PATH 5 rows 0
work 2 1 => ok STORE_PATH 6 rows 0
work 2 1 => ok STORE_SET 7 rows 0
work 2 1 => ok SET_ADD_TABLE 8 rows 0
work 2 1 => ok SYNC 9 rows 0
work 2 1 => ok SUBSCRIBE_SET 10 rows 0
work 2 1 => ok ENABLE_SUBSCRIPTION 11 rows 0
listen 1 2 => ok events 1 confirms 1
";

const BELOW: &str = "subscribe set (id = 1, provider = 2, receiver = 3); => ok event 1 14";

/// Node 3 has copied it from there, and the origin has heard of that.
const UNDER_TWO: &str = "\
listen 2 1 => ok events 3 confirms 0
work 2 1 => ok SYNC 12 rows 0
work 2 1 => ok SUBSCRIBE_SET 13 rows 0
work 2 1 => ok ENABLE_SUBSCRIPTION 14 rows 0
listen 3 1 => ok events 12 confirms 1
work 3 1 => ok STORE_NODE 3 rows 0
work 3 1 => ok STORE_PATH 4 rows 0
work 3 1 => ok STORE_PATH 5 rows 0
work 3 1 => ok STORE_PATH 6 rows 0
work 3 1 => ok STORE_SET 7 rows 0
work 3 1 => ok SET_ADD_TABLE 8 rows 0
work 3 1 => ok SYNC 9 rows 0
work 3 1 => ok SUBSCRIBE_SET 10 rows 0
work 3 1 => ok ENABLE_SUBSCRIPTION 11 rows 0
work 3 1 => ok SYNC 12 rows 0
work 3 1 => ok SUBSCRIBE_SET 13 rows 0
work 3 1 => ok ENABLE_SUBSCRIPTION 14 rows 0
listen 1 3 => ok events 2 confirms 1
";

const BY_FOUR: &str = "drop node (id = 2, event node = 4); => ok event 4 1";

/// The origin has heard of that. Node 3 waits for its provider, which gets nothing more.
const WAITS: &str = "\
listen 1 4 => ok events 1 confirms 1
work 1 4 => ok DROP_NODE 1 rows 0
begin a x => ok xid 1
insert a x public.t p 1 => ok action 1
commit a x => ok actions 1
sync 1 => ok event 1 15
listen 2 1 => no 62 notknown 2
listen 3 1 => ok events 2 confirms 2
work 3 1 => no 63 behind 2 14 15
";

/// It is told to take the set from the origin instead.
const FROM_ONE: &str = "subscribe set (id = 1, provider = 1, receiver = 3); => ok event 1 17";

/// The SYNC in front of that comes from the old provider still.
const WAITS_STILL: &str = "\
listen 3 1 => ok events 2 confirms 0
work 3 4 => ok DROP_NODE 1 rows 0
work 3 1 => no 63 behind 2 14 15
fetch 3 1 => no 63 behind 2 14 15
rows c public.t => ok rows 0
";

/// Adds how a node drops the provider of another one, which then waits for it.
fn push_below(wanted: &mut Wanted) -> Result<(), AllocError> {
    wanted.push_all(DATABASES)?;
    wanted.push("database d", "ok")?;
    push_whole(wanted, QUARTET, FOUR)?;
    wanted.push_all(STARTED)?;
    wanted.push_all(PROVIDES)?;
    push_whole(wanted, QUARTET, BELOW)?;
    wanted.push_all(UNDER_TWO)?;
    push_whole(wanted, QUARTET, BY_FOUR)?;
    wanted.push_all(WAITS)?;
    push_whole(wanted, QUARTET, FROM_ONE)?;
    wanted.push_all(WAITS_STILL)
}

#[test]
fn a_provider_is_dropped(rt: HostRuntime) -> Result<(), Fail> {
    let mut wanted = nothing_wanted(rt.alloc());
    push_below(&mut wanted)?;
    expect_wanted(rt.alloc(), &wanted)
}

// ---- where a store fails

/// Node 3 receives no set, and the script that drops it.
const SCRIPT: &str = "\
slonik u <<
cluster name = demo;
node 1 admin conninfo = 'dbname=a';
drop node (id = 3, event node = 1);
>> => ok statements 1
start 1 => ok
start 2 => ok
start 3 => ok
";

/// The statement, over a store of the event node that fails: the node is live there, or it is not.
const STATEMENT: Sweep = Sweep {
    databases: DATABASES,
    nodes: NODES,
    cluster: CLUSTER,
    front: [SCRIPT, ""],
    database: "a",
    calls: 60,
    lines: "\
step u
crash a
up a
slonik v <<
cluster name = demo;
node 1 admin conninfo = 'dbname=a';
drop node (id = 3, event node = 1);
>>
listen 3 1
step v
",
    done: "\
ok event 1 9
ok
ok
ok statements 1
no 62 notknown 3
no 44 nonode 3
",
    failed: "\
no 10 fault a 1
no 16 down a
ok
ok statements 1
ok events 6 confirms 0
ok event 1 9
",
    kept: "\
doubt a ok event 1 9
no 16 down a
ok kept
ok statements 1
no 62 notknown 3
no 44 nonode 3
",
    lost: "\
doubt a ok event 1 9
no 16 down a
ok lost
ok statements 1
ok events 6 confirms 0
ok event 1 9
",
};

/// It is dropped, of which node 2 has heard.
const TOLD: &str = "\
step u => ok event 1 9
listen 2 1 => ok events 8 confirms 0
work 2 1 => ok STORE_NODE 2 rows 0
work 2 1 => ok STORE_PATH 3 rows 0
work 2 1 => ok STORE_SET 4 rows 0
work 2 1 => ok SET_ADD_TABLE 5 rows 0
work 2 1 => ok SYNC 6 rows 0
work 2 1 => ok SUBSCRIBE_SET 7 rows 0
work 2 1 => ok ENABLE_SUBSCRIPTION 8 rows 0
";

/// The event, over a store of node 2 that fails: it answers the node still, or does not.
const EVENT: Sweep = Sweep {
    front: [SCRIPT, TOLD],
    database: "b",
    lines: "work 2 1\ncrash b\nup b\nlisten 3 2\nstatus b\n",
    done: "\
ok DROP_NODE 9 rows 0
ok
ok
no 62 notknown 3
ok node 2 log 0 progress 1 9 progress 2 1 set 1 era 1 at 1:1:
",
    failed: "\
no 10 fault b 1
no 16 down b
ok
ok events 1 confirms 1
ok node 2 log 0 progress 1 8 progress 2 1 progress 3 0 set 1 era 1 at 1:1:
",
    kept: "\
doubt b ok DROP_NODE 9 rows 0
no 16 down b
ok kept
no 62 notknown 3
ok node 2 log 0 progress 1 9 progress 2 1 set 1 era 1 at 1:1:
",
    lost: "\
doubt b ok DROP_NODE 9 rows 0
no 16 down b
ok lost
ok events 1 confirms 1
ok node 2 log 0 progress 1 8 progress 2 1 progress 3 0 set 1 era 1 at 1:1:
",
    ..STATEMENT
};

#[test]
fn a_node_is_dropped_at_one_moment(rt: HostRuntime) -> Result<(), Fail> {
    let stated = STATEMENT.told_of_both(rt.alloc())?;
    require(stated > 5, "the calls of the event node")?;
    let told = EVENT.told_of_both(rt.alloc())?;
    require(told > 5, "the calls of the node")
}
