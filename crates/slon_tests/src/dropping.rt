// A set that ends: when the statement is accepted, what other statements say of the set then, what each node has of it
// until it applies the event, and a copy of a set that has ended before.
use crate::cascades::{CLUSTER, FORWARDED};
use crate::polls::{DATABASES, NODES, PAIR, expect_each, expect_lines};
use crate::sweeps::Sweep;
use crate::wanted::{Wanted, expect_wanted, nothing_wanted};
use std::alloc::AllocError;
use std::test::Fail;
use test_words::require;

/// Node 3 copies set 1 from node 2, and there are tables for another set.
const TABLES: &str = "\
work 3 1 => ok ENABLE_SUBSCRIPTION 12 rows 2
table a public.v 2 => ok
table a public.w 2 => ok
table a public.x 2 => ok
table c public.v 2 => ok
table c public.w 2 => ok
";

/// It receives that one, too, from the origin.
const SECOND: &str = "\
create set (id = 2, origin = 1); => ok event 1 13
set add table (set id = 2, origin = 1, id = 2, fully qualified name = 'public.v'); => ok event 1 14
set add table (set id = 2, origin = 1, id = 3, fully qualified name = 'public.w'); => ok event 1 15
subscribe set (id = 2, provider = 1, receiver = 3); => ok event 1 18
";

/// Node 2 has not heard of it yet.
const UNHEARD: &str = "drop set (id = 2, origin = 2); => no 47 noset 2";

/// Both nodes know all this. Of what is written at the origin then, a SYNC shows the first transaction, and the last
/// one is open as the set ends.
const BOTH: &str = "\
listen 2 1 => ok events 6 confirms 0
work 2 1 => ok STORE_SET 13 rows 0
work 2 1 => ok SET_ADD_TABLE 14 rows 0
work 2 1 => ok SET_ADD_TABLE 15 rows 0
work 2 1 => ok SYNC 16 rows 1
work 2 1 => ok SUBSCRIBE_SET 17 rows 0
work 2 1 => ok ENABLE_SUBSCRIPTION 18 rows 0
listen 3 1 => ok events 6 confirms 0
work 3 1 => ok STORE_SET 13 rows 0
work 3 1 => ok SET_ADD_TABLE 14 rows 0
work 3 1 => ok SET_ADD_TABLE 15 rows 0
work 3 1 => ok SYNC 16 rows 1
work 3 1 => ok SUBSCRIBE_SET 17 rows 0
work 3 1 => ok ENABLE_SUBSCRIPTION 18 rows 0
begin a u => ok xid 4
insert a u public.t o 5 => ok action 6
insert a u public.v k 1 => ok action 7
commit a u => ok actions 2
sync 1 => ok event 1 19
begin a f => ok xid 5
insert a f public.t n 6 => ok action 8
insert a f public.w k 1 => ok action 9
commit a f => ok actions 2
begin a g => ok xid 6
insert a g public.t m 7 => ok action 10
";

const REFUSED: &str = "\
drop set (id = 9, origin = 1); => no 47 noset 9
drop set (id = 1, origin = 9); => no 45 noconninfo 9
drop set (id = 1, origin = 2); => no 55 notorigin 1
drop set (id = 2, origin = 2); => no 55 notorigin 2
";

const DROPPED: &str = "\
drop set (id = 1, origin = 1); => ok event 1 20
create set (id = 3, origin = 1); => ok event 1 21
";

/// Node 2 has not applied the end, and knows the set. The origin knows no such set, but the ids and the name are used.
const GONE: &str = "\
drop set (id = 1, origin = 2); => no 55 notorigin 1
drop set (id = 1, origin = 1); => no 47 noset 1
subscribe set (id = 1, provider = 2, receiver = 3); => no 47 noset 1
unsubscribe set (id = 1, receiver = 3); => no 47 noset 1
set add table (set id = 1, origin = 1, id = 4, fully qualified name = 'public.x'); => no 47 noset 1
create set (id = 1, origin = 1); => no 18 idused 1
create set (id = 1, origin = 3); => no 18 idused 1
set add table (set id = 3, origin = 1, id = 1, fully qualified name = 'public.x'); => no 18 idused 1
set add table (set id = 3, origin = 1, id = 4, fully qualified name = 'public.t'); => no 58 tableused public.t
";

/// Node 2 takes the rows of the SYNC from before the end, and no later ones; then it has its own, also behind a crash.
/// Node 3, which has the set from it, has not heard of anything.
const OWN_AT_TWO: &str = "\
insert a g public.v l 2 => ok action 11
commit a g => ok actions 2
sync 1 => ok event 1 22
begin b w => ok xid 1
listen 2 1 => ok events 4 confirms 0
work 2 1 => ok SYNC 19 rows 1
insert b w public.t y 8 => no 55 notorigin 1
work 2 1 => ok DROP_SET 20 rows 0
insert b w public.t y 8 => ok action 1
commit b w => ok actions 1
work 2 1 => ok STORE_SET 21 rows 0
work 2 1 => ok SYNC 22 rows 0
rows b public.t => ok rows 5 o=5 p=1 r=3 s=4 y=8
status b => ok node 2 log 0 progress 1 22 progress 2 1 progress 3 0
crash b => ok
up b => ok
begin b v => ok xid 65
delete b v public.t p => ok action 65
commit b v => ok actions 1
";

/// Node 3 lags, and takes the rows of that SYNC from what node 2 has logged. It goes on with the other set, for which
/// it needs node 2 no more: of the transactions that wrote tables of both sets it gets what they wrote of that one.
const OWN_AT_THREE: &str = "\
listen 3 1 => ok events 4 confirms 0
work 3 1 => ok SYNC 19 rows 2
crash b => ok
begin c w => ok xid 1
insert c w public.t y 9 => no 55 notorigin 1
status c => ok node 3 log 0 progress 1 19 progress 2 0 progress 3 2 set 1 era 1 at 5:5: set 2 era 1 at 5:5:
work 3 1 => ok DROP_SET 20 rows 0
insert c w public.t y 9 => ok action 1
insert c w public.v y 9 => no 55 notorigin 2
commit c w => ok actions 1
work 3 1 => ok STORE_SET 21 rows 0
work 3 1 => ok SYNC 22 rows 2
rows c public.t => ok rows 5 o=5 p=1 r=3 s=4 y=9
rows c public.v => ok rows 2 k=1 l=2
rows c public.w => ok rows 1 k=1
status c => ok node 3 log 0 progress 1 22 progress 2 0 progress 3 2 set 2 era 1 at 7:7:
crash c => ok
up c => ok
begin c v => ok xid 65
delete c v public.t p => ok action 65
insert c v public.v y 9 => no 55 notorigin 2
commit c v => ok actions 1
";

/// The origin writes both tables behind a crash, too.
const OWN_AT_ORIGIN: &str = "\
crash a => ok
up a => ok
begin a h => ok xid 65
insert a h public.t j 8 => ok action 65
delete a h public.v k => ok action 66
commit a h => ok actions 2
sync 1 => ok event 1 23
listen 3 1 => ok events 1 confirms 0
work 3 1 => ok SYNC 23 rows 1
rows a public.t => ok rows 7 j=8 m=7 n=6 o=5 p=1 r=3 s=4
rows c public.t => ok rows 4 o=5 r=3 s=4 y=9
rows c public.v => ok rows 1 l=2
up b => ok
";

const LAST: &str = "drop set (id = 2, origin = 1); => ok event 1 24";

/// Both tables of the last set are as any others then.
const ALL_OWN: &str = "\
begin c u => ok xid 66
listen 3 1 => ok events 1 confirms 0
insert c u public.w y 9 => no 55 notorigin 2
work 3 1 => ok DROP_SET 24 rows 0
insert c u public.v y 9 => ok action 66
insert c u public.w y 9 => ok action 67
commit c u => ok actions 2
status c => ok node 3 log 0 progress 1 24 progress 2 0 progress 3 2
begin a i => ok xid 66
delete a i public.v l => ok action 67
delete a i public.w k => ok action 68
commit a i => ok actions 2
sync 1 => ok event 1 25
listen 3 1 => ok events 1 confirms 0
work 3 1 => ok SYNC 25 rows 0
";

/// Adds how node 3 receives a set from node 2 and another one from the origin.
fn push_sets(wanted: &mut Wanted) -> Result<(), AllocError> {
    wanted.push_all(DATABASES)?;
    wanted.push_script(NODES, CLUSTER)?;
    wanted.push("step s", "ok ended 0")?;
    wanted.push_all(FORWARDED)?;
    wanted.push_all(TABLES)?;
    wanted.push_script(NODES, SECOND)?;
    wanted.push("step s", "ok ended 0")?;
    wanted.push_each(NODES, UNHEARD)?;
    wanted.push_all(BOTH)
}

/// Adds how the first set ends, and what is said of it then.
fn push_end(wanted: &mut Wanted) -> Result<(), AllocError> {
    wanted.push_each(NODES, REFUSED)?;
    wanted.push_script(NODES, DROPPED)?;
    wanted.push("step s", "ok ended 0")?;
    wanted.push_each(NODES, GONE)
}

/// Adds what each node has of it then, and how the other set ends, too.
fn push_own(wanted: &mut Wanted) -> Result<(), AllocError> {
    wanted.push_all(OWN_AT_TWO)?;
    wanted.push_all(OWN_AT_THREE)?;
    wanted.push_all(OWN_AT_ORIGIN)?;
    wanted.push_script(NODES, LAST)?;
    wanted.push_all(ALL_OWN)
}

#[test]
fn a_set_is_dropped(rt: HostRuntime) -> Result<(), Fail> {
    let mut wanted = nothing_wanted(rt.alloc());
    push_sets(&mut wanted)?;
    push_end(&mut wanted)?;
    push_own(&mut wanted)?;
    expect_wanted(rt.alloc(), &wanted)
}

// ---- a node that joins behind the end of a set

const JOINING: &str = "\
drop set (id = 1, origin = 1); => ok event 1 5
store node (id = 3, event node = 1); => ok event 1 6
create set (id = 3, origin = 3); => ok event 3 1
";

/// It knows what is used.
const USED: &str = "\
drop set (id = 1, origin = 3); => no 47 noset 1
create set (id = 1, origin = 3); => no 18 idused 1
set add table (set id = 3, origin = 3, id = 5, fully qualified name = 'public.t'); => no 58 tableused public.t
";

/// It writes its table of that name, also behind a crash.
const OWN_AT_NEW: &str = "\
begin c w => ok xid 1
insert c w public.t y 9 => ok action 1
commit c w => ok actions 1
crash c => ok
up c => ok
begin c v => ok xid 65
delete c v public.t y => ok action 65
status c => ok node 3 log 0 progress 1 6 progress 2 0 progress 3 1
";

/// Adds how it joins, and what it has of the set.
fn push_joined(wanted: &mut Wanted) -> Result<(), AllocError> {
    wanted.push_all(DATABASES)?;
    wanted.push("table c public.t 2", "ok")?;
    wanted.push_script(NODES, PAIR)?;
    wanted.push("step s", "ok ended 0")?;
    wanted.push_script(NODES, JOINING)?;
    wanted.push("step s", "ok ended 0")?;
    wanted.push_each(NODES, USED)?;
    wanted.push_all(OWN_AT_NEW)
}

#[test]
fn a_node_joins_behind_the_end(rt: HostRuntime) -> Result<(), Fail> {
    let mut wanted = nothing_wanted(rt.alloc());
    push_joined(&mut wanted)?;
    expect_wanted(rt.alloc(), &wanted)
}

// ---- a set that ended before a node copied it

/// The provider of node 3 has applied the end before node 3 copies the set, has not, or has not as node 3 fetches the
/// copy.
const VAIN: &str = "\
slonik u <<
cluster name = demo;
node 1 admin conninfo = 'dbname=a';
drop set (id = 1, origin = 1);
>> => ok statements 1
step u => ok event 1 13
listen 2 1 => ok events 1 confirms 0
work 2 1 => ok DROP_SET 13 rows 0
begin c w => ok xid 1
insert c w public.t y 9 => ok action 1
commit c w => ok actions 1
work 3 1 => ok ENABLE_SUBSCRIPTION 12 rows 0
status c => ok node 3 log 0 progress 1 12 progress 2 0 progress 3 2
rows c public.t => ok rows 1 y=9
listen 3 1 => ok events 1 confirms 0
work 3 1 => ok DROP_SET 13 rows 0
status c => ok node 3 log 0 progress 1 13 progress 2 0 progress 3 2

slonik u <<
cluster name = demo;
node 1 admin conninfo = 'dbname=a';
drop set (id = 1, origin = 1);
>> => ok statements 1
step u => ok event 1 13
work 3 1 => ok ENABLE_SUBSCRIPTION 12 rows 2
status c => ok node 3 log 0 progress 1 12 progress 2 0 progress 3 2 set 1 era 1 at 3:3:
listen 3 1 => ok events 1 confirms 0
work 3 1 => ok DROP_SET 13 rows 0
status c => ok node 3 log 0 progress 1 13 progress 2 0 progress 3 2
rows c public.t => ok rows 2 p=1 r=3

fetch 3 1 => ok fetched 12 rows 2
slonik u <<
cluster name = demo;
node 1 admin conninfo = 'dbname=a';
drop set (id = 1, origin = 1);
>> => ok statements 1
step u => ok event 1 13
listen 2 1 => ok events 1 confirms 0
work 2 1 => ok DROP_SET 13 rows 0
work 3 1 => ok ENABLE_SUBSCRIPTION 12 rows 2
listen 3 1 => ok events 1 confirms 0
work 3 1 => ok DROP_SET 13 rows 0
status c => ok node 3 log 0 progress 1 13 progress 2 0 progress 3 2
rows c public.t => ok rows 2 p=1 r=3
";

/// The set ends at the origin before node 2 copies it from there.
const LATE: &str = "\
begin a x => ok xid 1
insert a x public.t p 1 => ok action 1
commit a x => ok actions 1
slonik u <<
cluster name = demo;
node 1 admin conninfo = 'dbname=a';
drop set (id = 1, origin = 1);
>> => ok statements 1
step u => ok event 1 9
start 2 => ok
listen 2 1 => ok events 8 confirms 0
work 2 1 => ok STORE_NODE 2 rows 0
work 2 1 => ok STORE_PATH 3 rows 0
work 2 1 => ok STORE_SET 4 rows 0
work 2 1 => ok SET_ADD_TABLE 5 rows 0
work 2 1 => ok SYNC 6 rows 0
work 2 1 => ok SUBSCRIBE_SET 7 rows 0
work 2 1 => ok ENABLE_SUBSCRIPTION 8 rows 0
status b => ok node 2 log 0 progress 1 8 progress 2 1 progress 3 0
rows b public.t => ok rows 0
work 2 1 => ok DROP_SET 9 rows 0
status b => ok node 2 log 0 progress 1 9 progress 2 1 progress 3 0
begin b w => ok xid 1
insert b w public.t y 9 => ok action 1
";

#[test]
fn a_set_that_ended_is_copied_in_vain(rt: HostRuntime) -> Result<(), Fail> {
    expect_each(rt.alloc(), CLUSTER, FORWARDED, VAIN)?;
    expect_lines(rt.alloc(), CLUSTER, LATE, "")
}

// ---- where a store fails

/// The script that ends the set.
const SCRIPT: &str = "\
slonik u <<
cluster name = demo;
node 1 admin conninfo = 'dbname=a';
drop set (id = 1, origin = 1);
>> => ok statements 1
";

/// The statement, over a store of the origin that fails: there is no such set any more, or there is, and node 1 does
/// not receive it. The origin writes its table either way.
const STATEMENT: Sweep = Sweep {
    databases: DATABASES,
    nodes: NODES,
    cluster: CLUSTER,
    front: [FORWARDED, SCRIPT],
    database: "a",
    calls: 40,
    lines: "\
step u
crash a
up a
slonik v <<
cluster name = demo;
node 1 admin conninfo = 'dbname=a';
unsubscribe set (id = 1, receiver = 1);
>>
step v
begin a w
insert a w public.t y 9
",
    done: "\
ok event 1 13
ok
ok
ok statements 1
no 47 noset 1
ok xid 65
ok action 65
",
    failed: "\
no 10 fault a 1
no 16 down a
ok
ok statements 1
no 72 notactive 1
ok xid 65
ok action 65
",
    kept: "\
doubt a ok event 1 13
no 16 down a
ok kept
ok statements 1
no 47 noset 1
ok xid 65
ok action 65
",
    lost: "\
doubt a ok event 1 13
no 16 down a
ok lost
ok statements 1
no 72 notactive 1
ok xid 65
ok action 65
",
};

/// Node 3 has copied the set, and heard of its end.
const TOLD: &str = "\
work 3 1 => ok ENABLE_SUBSCRIPTION 12 rows 2
slonik u <<
cluster name = demo;
node 1 admin conninfo = 'dbname=a';
drop set (id = 1, origin = 1);
>> => ok statements 1
step u => ok event 1 13
listen 3 1 => ok events 1 confirms 0
";

/// The event, over a store of the node that fails: the node has the set still, or nothing of it.
const EVENT: Sweep = Sweep {
    front: [FORWARDED, TOLD],
    database: "c",
    lines: "work 3 1\ncrash c\nup c\nbegin c w\ninsert c w public.t y 9\nstatus c\n",
    done: "\
ok DROP_SET 13 rows 0
ok
ok
ok xid 65
ok action 65
ok node 3 log 0 progress 1 13 progress 2 0 progress 3 2
",
    failed: "\
no 10 fault c 1
no 16 down c
ok
ok xid 65
no 55 notorigin 1
ok node 3 log 0 progress 1 12 progress 2 0 progress 3 2 set 1 era 1 at 3:3:
",
    kept: "\
doubt c ok DROP_SET 13 rows 0
no 16 down c
ok kept
ok xid 65
ok action 65
ok node 3 log 0 progress 1 13 progress 2 0 progress 3 2
",
    lost: "\
doubt c ok DROP_SET 13 rows 0
no 16 down c
ok lost
ok xid 65
no 55 notorigin 1
ok node 3 log 0 progress 1 12 progress 2 0 progress 3 2 set 1 era 1 at 3:3:
",
    ..STATEMENT
};

#[test]
fn a_set_ends_at_one_moment(rt: HostRuntime) -> Result<(), Fail> {
    let stated = STATEMENT.told_of_both(rt.alloc())?;
    require(stated > 5, "the calls of the origin")?;
    let told = EVENT.told_of_both(rt.alloc())?;
    require(told > 5, "the calls of the node")
}
