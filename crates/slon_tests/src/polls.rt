// Nodes that poll one another: what a poll brings, when there is none, what loses what waits at a node, and what comes
// of a poll whose stores fail.
use crate::sweeps::Sweep;
use crate::wanted::{Wanted, expect_steps, expect_wanted, nothing_wanted};
use std::alloc::{AllocError, Global};
use std::test::Fail;
use test_words::require;

/// The databases, with their tables.
pub(crate) const DATABASES: &str = "\
database a => ok
database b => ok
database c => ok
table a public.t 2 => ok
table b public.t 2 => ok
";

/// The nodes by their databases.
pub(crate) const NODES: &str = "cluster name = demo;
node 1 admin conninfo = 'dbname=a';
node 2 admin conninfo = 'dbname=b';
node 3 admin conninfo = 'dbname=c';
";

/// Adds the statements of a script, which are run one by one, and then these lines.
fn push_lines(
    wanted: &mut Wanted,
    statements: &str,
    front: &str,
    lines: &str,
) -> Result<(), AllocError> {
    wanted.push_all(DATABASES)?;
    wanted.push_script(NODES, statements)?;
    wanted.push_all(front)?;
    wanted.push_all(lines)
}

/// The statements are run one by one, and then these lines.
pub(crate) fn expect_lines(
    alloc: Global,
    statements: &str,
    front: &str,
    lines: &str,
) -> Result<(), Fail> {
    let mut wanted = nothing_wanted(alloc);
    push_lines(&mut wanted, statements, front, lines)?;
    expect_wanted(alloc, &wanted)
}

/// The same for each of these, which have empty lines between them, behind the same lines.
pub(crate) fn expect_each(
    alloc: Global,
    statements: &str,
    front: &str,
    each: &str,
) -> Result<(), Fail> {
    for lines in each.split("\n\n") {
        expect_lines(alloc, statements, front, lines)?;
    }
    Ok(())
}

// ---- two nodes

/// Each of two nodes has a path from the other one, and node 1 a set of a table.
pub(crate) const PAIR: &str = "\
init cluster (id = 1); => ok
store node (id = 2, event node = 1); => ok event 1 1
store path (server = 1, client = 2, conninfo = 'dbname=a'); => ok event 2 1
store path (server = 2, client = 1, conninfo = 'dbname=b'); => ok event 1 2
create set (id = 1, origin = 1); => ok event 1 3
set add table (set id = 1, origin = 1, id = 1, fully qualified name = 'public.t'); => ok event 1 4
";

pub(crate) const STARTED: &str = "\
start 1 => ok
start 2 => ok
";

const POLLED: &str = "\
# A poll that is lost, one that comes twice, one that brings nothing, one that brings a confirmation, and one
# behind a crash.
sync 1 => ok event 1 5
sync 1 => no 60 nothing
listen 2 1 lost => ok lost events 4 confirms 0
listen 2 1 again => ok events 4 confirms 0
listen 2 1 => no 60 nothing
listen 1 2 => ok events 1 confirms 1
crash b => ok
up b => ok
listen 2 1 => ok events 4 confirms 0

# What is lost comes again, and what comes twice counts once: also a confirmation, and the event behind it.
listen 1 2 lost => ok lost events 1 confirms 1
listen 1 2 lost => ok lost events 1 confirms 1
listen 1 2 again => ok events 1 confirms 1
listen 1 2 lost => no 60 nothing
listen 1 2 again => no 60 nothing
sync 2 => ok event 2 2
listen 1 2 => ok events 1 confirms 0
listen 1 2 => no 60 nothing

# A poll without confirmations commits nothing, and neither does one that is lost.
crash b commit lose => ok
listen 2 1 => ok events 3 confirms 0
crash a commit keep => ok
listen 1 2 lost => ok lost events 1 confirms 1
listen 1 2 => doubt a ok events 1 confirms 1
up a => ok kept
listen 1 2 => ok events 1 confirms 0
";

#[test]
fn nodes_poll_one_another(rt: HostRuntime) -> Result<(), Fail> {
    expect_each(rt.alloc(), PAIR, STARTED, POLLED)
}

// ---- what waits at a node

/// Three events wait at node 2.
const WAITING: &str = "\
start 1 => ok
start 2 => ok
listen 2 1 => ok events 3 confirms 0
listen 2 1 => no 60 nothing
";

/// It is lost where the slon of the node stops, and where its database goes down: by a crash, by a fault, of a poll
/// too, and by a doubt.
const LOST: &str = "\
stop 2 => ok
listen 2 1 => no 67 off 2
start 2 => ok
listen 2 1 => ok events 3 confirms 0

crash b => ok
listen 2 1 => no 16 down b
up b => ok
listen 2 1 => ok events 3 confirms 0

crash b after 0 lose => ok
rows b public.t => no 10 fault b 1
up b => ok
listen 2 1 => ok events 3 confirms 0

crash b after 0 keep => ok
listen 2 1 => no 10 fault b 1
up b => ok
listen 2 1 => ok events 3 confirms 0

begin b x => ok xid 1
insert b x public.t k 1 => ok action 1
crash b commit keep => ok
commit b x => doubt b ok actions 1
up b => ok kept
listen 2 1 => ok events 3 confirms 0
";

#[test]
fn what_waits_is_lost(rt: HostRuntime) -> Result<(), Fail> {
    expect_each(rt.alloc(), PAIR, WAITING, LOST)
}

/// It stays where the slon or the database of the server or of another one ends its work, where the nodes are cut off
/// from one another, and where a slon is started that is on.
const KEPT: &str = "\
crash a => ok
listen 2 1 => no 16 down a
up a => ok
listen 2 1 => no 60 nothing

crash a after 0 lose => ok
listen 2 1 => no 10 fault a 1
up a => ok
listen 2 1 => no 60 nothing

stop 1 => ok
listen 2 1 => no 60 nothing
sync 1 => no 67 off 1
start 1 => ok
sync 1 => ok event 1 5
listen 2 1 => ok events 1 confirms 0

cut 1 2 => ok
listen 2 1 => no 68 cut 2 1
join 2 1 => ok
crash c => ok
start 2 => ok
listen 2 1 => no 60 nothing
";

#[test]
fn what_waits_stays(rt: HostRuntime) -> Result<(), Fail> {
    expect_each(rt.alloc(), PAIR, WAITING, KEPT)
}

// ---- three nodes

/// Nodes 1, 2 and 3 are a line: each joins at the one before it, and has paths from its neighbours alone. Node 1 does
/// not know node 3.
const LINE: &str = "\
init cluster (id = 1); => ok
store node (id = 2, event node = 1); => ok event 1 1
store node (id = 3, event node = 2); => ok event 2 1
store path (server = 1, client = 2, conninfo = 'dbname=a'); => ok event 2 2
store path (server = 2, client = 1, conninfo = 'dbname=b'); => ok event 1 2
store path (server = 3, client = 2, conninfo = 'dbname=c'); => ok event 2 3
store path (server = 2, client = 3, conninfo = 'dbname=b'); => ok event 3 1
";

/// Node 1 hears at node 2 how far node 3 is, once node 2 heard it. A cut between nodes 2 and 3 is none between others.
const CONFIRMED: &str = "\
start 1 => ok
start 2 => ok
start 3 => ok
listen 1 2 => ok events 3 confirms 1
listen 1 2 => no 60 nothing
cut 2 3 => ok
listen 2 3 => no 68 cut 2 3
listen 3 2 => no 68 cut 3 2
listen 1 2 => no 60 nothing
listen 2 1 => ok events 1 confirms 0
join 3 2 => ok
listen 2 3 => ok events 1 confirms 2
listen 1 2 => ok events 0 confirms 2
listen 1 2 => no 60 nothing
listen 3 2 => ok events 2 confirms 0
listen 3 2 => no 60 nothing
listen 3 1 => no 61 notlisted 1
";

#[test]
fn confirmations_travel(rt: HostRuntime) -> Result<(), Fail> {
    expect_lines(rt.alloc(), LINE, CONFIRMED, "")
}

/// The same line, where node 3 joins before node 2, which is given more of the stream of node 1. Node 3 does not know
/// node 2.
const LATER: &str = "\
init cluster (id = 1); => ok
store node (id = 3, event node = 1); => ok event 1 1
create set (id = 1, origin = 1); => ok event 1 2
store node (id = 2, event node = 1); => ok event 1 3
store path (server = 1, client = 2, conninfo = 'dbname=a'); => ok event 2 1
store path (server = 2, client = 1, conninfo = 'dbname=b'); => ok event 1 4
store path (server = 3, client = 2, conninfo = 'dbname=c'); => ok event 2 2
store path (server = 2, client = 3, conninfo = 'dbname=b'); => ok event 3 1
";

/// Node 3 hears node 1 at node 2: what node 2 has met of it, and not what waits there.
const PASSED_ON: &str = "\
start 2 => ok
start 3 => ok
listen 2 1 => ok events 1 confirms 0
cut 3 2 => ok
listen 3 2 => no 68 cut 3 2
join 2 3 => ok
listen 3 2 lost => ok lost events 2 confirms 1
listen 3 2 => ok events 2 confirms 1
listen 3 2 => no 60 nothing
listen 2 3 => no 62 notknown 2
start 1 => ok
listen 1 2 => ok events 2 confirms 1
";

#[test]
fn events_pass_by_a_server(rt: HostRuntime) -> Result<(), Fail> {
    expect_lines(rt.alloc(), LATER, PASSED_ON, "")
}

// ---- refusals

/// Node 3 comes by node 2, so node 1 does not know it. Two statements are left of the script.
const BY_ANOTHER: &str = "\
database a => ok
database b => ok
database c => ok
slonik s <<
cluster name = demo;
node 1 admin conninfo = 'dbname=a';
node 2 admin conninfo = 'dbname=b';
node 3 admin conninfo = 'dbname=c';
init cluster (id = 1);
store node (id = 2, event node = 1);
store node (id = 3, event node = 2);
store path (server = 1, client = 3, conninfo = 'dbname=a');
store path (server = 2, client = 3, conninfo = 'dbname=b');
>> => ok statements 5
step s => ok
step s => ok event 1 1
step s => ok event 2 1
";

/// Each refusal of a poll, in their order: behind each one stand reasons for later ones.
const REFUSED: &str = "\
listen 4 5 => no 44 nonode 4
crash c => ok
listen 3 5 => no 16 down c
up c => ok
listen 3 5 => no 67 off 3
start 3 => ok
listen 3 5 => no 44 nonode 5
cut 1 3 => ok
crash a => ok
listen 3 1 => no 61 notlisted 1
listen 3 3 => no 61 notlisted 3
step s => ok event 3 1
listen 3 1 => no 68 cut 3 1
join 3 1 => ok
listen 3 1 => no 16 down a
up a => ok
listen 3 1 => no 62 notknown 3
step s => ok event 3 2
listen 3 2 => no 60 nothing
listen 3 2 lost => no 60 nothing
listen 3 2 again => no 60 nothing
";

#[test]
fn polls_are_refused(rt: HostRuntime) -> Result<(), Fail> {
    expect_steps(rt.alloc(), BY_ANOTHER, REFUSED)
}

// ---- a poll with a confirmation, whose stores crash

/// Node 1 has paths from nodes 2 and 3, and each of them one from node 1.
const STAR: &str = "\
init cluster (id = 1); => ok
store node (id = 2, event node = 1); => ok event 1 1
store node (id = 3, event node = 1); => ok event 1 2
store path (server = 2, client = 1, conninfo = 'dbname=b'); => ok event 1 3
store path (server = 3, client = 1, conninfo = 'dbname=c'); => ok event 1 4
store path (server = 1, client = 2, conninfo = 'dbname=a'); => ok event 2 1
store path (server = 1, client = 3, conninfo = 'dbname=a'); => ok event 3 1
";

/// Node 1 polled node 2, and is to poll node 3.
const HALF: &str = "\
start 1 => ok
listen 1 2 again => ok events 1 confirms 1
";

/// The commit of node 1 fails, which is then in doubt: what waited is lost, also of node 2, and the confirmation is
/// kept or lost. The server commits nothing.
const DOUBTED: &str = "\
crash a commit keep => ok
listen 1 3 => doubt a ok events 1 confirms 1
listen 1 3 => no 16 down a
up a => ok kept
listen 1 2 => ok events 1 confirms 0
listen 1 3 => ok events 1 confirms 0

crash a commit lose => ok
listen 1 3 again => doubt a ok events 1 confirms 1
listen 1 3 => no 16 down a
up a => ok lost
listen 1 2 => ok events 1 confirms 0
listen 1 3 => ok events 1 confirms 1

crash c commit lose => ok
listen 1 3 => ok events 1 confirms 1
listen 1 3 => no 60 nothing
";

#[test]
fn polls_are_in_doubt(rt: HostRuntime) -> Result<(), Fail> {
    expect_each(rt.alloc(), STAR, HALF, DOUBTED)
}

/// A poll of node 3, over a store of the node that fails, and both polls behind it: what waits there is lost.
const SWEPT: Sweep = Sweep {
    databases: DATABASES,
    nodes: NODES,
    cluster: STAR,
    front: [HALF, ""],
    database: "a",
    calls: 60,
    lines: "listen 1 3\ncrash a\nup a\nlisten 1 2\nlisten 1 3\n",
    done: "\
ok events 1 confirms 1
ok
ok
ok events 1 confirms 0
ok events 1 confirms 0
",
    failed: "\
no 10 fault a 1
no 16 down a
ok
ok events 1 confirms 0
ok events 1 confirms 1
",
    kept: "\
doubt a ok events 1 confirms 1
no 16 down a
ok kept
ok events 1 confirms 0
ok events 1 confirms 0
",
    lost: "\
doubt a ok events 1 confirms 1
no 16 down a
ok lost
ok events 1 confirms 0
ok events 1 confirms 1
",
};

const FAILED_AT_SERVER: &str = "\
no 10 fault c 1
no 16 down c
ok
no 60 nothing
ok events 1 confirms 1
";

/// The same over a store of the server: what waits at the node stays, and nothing is in doubt.
const SWEPT_AT_SERVER: Sweep = Sweep {
    database: "c",
    lines: "listen 1 3\ncrash c\nup c\nlisten 1 2\nlisten 1 3\n",
    done: "\
ok events 1 confirms 1
ok
ok
no 60 nothing
no 60 nothing
",
    failed: FAILED_AT_SERVER,
    kept: FAILED_AT_SERVER,
    lost: FAILED_AT_SERVER,
    ..SWEPT
};

#[test]
fn polls_crash_at_every_call_of_the_node(rt: HostRuntime) -> Result<(), Fail> {
    let told = SWEPT.told_of_both(rt.alloc())?;
    require(told > 6 && told < 60, "the calls of the node")
}

#[test]
fn polls_crash_at_every_call_of_the_server(rt: HostRuntime) -> Result<(), Fail> {
    let told = SWEPT_AT_SERVER.told_of_both(rt.alloc())?;
    require(told > 3 && told < 60, "the calls of the server")
}
