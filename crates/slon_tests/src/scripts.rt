// Sessions whose scripts make a cluster.
use crate::running::{Fails, NOTHING, expect_end, expect_over};
use crate::sweeps::Sweep;
use crate::wanted::{Wanted, expect_steps, expect_wanted, nothing_wanted};
use slon_main::Status;
use std::alloc::{AllocError, Global};
use std::test::Fail;
use test_words::require;

/// The databases, with their tables.
pub const DATABASES: &str = "\
database a => ok
database b => ok
database c => ok
table a public.t 2 => ok
table a public.v 2 => ok
table b public.t 2 => ok
";

/// The nodes by their databases.
const NODES: &str = "cluster name = demo;
node 1 admin conninfo = 'dbname=a';
node 2 admin conninfo = 'dbname=b';
node 3 admin conninfo = 'host=h dbname=z';
node 4 admin conninfo = 'dbname=c';
";

/// Other databases for the same ids.
const OTHERS: &str = "cluster name = demo;
node 1 admin conninfo = 'dbname=a';
node 2 admin conninfo = 'dbname=c';
node 5 admin conninfo = 'dbname=a';
";

/// A script that makes a cluster of two nodes, with a set of a table.
const CLUSTER: &str = "\
init cluster (id = 1); => ok
store node (id = 2, event node = 1); => ok event 1 1
store path (server = 1, client = 2, conninfo = 'dbname=a'); => ok event 2 1
store path (server = 2, client = 1, conninfo = 'dbname=b'); => ok event 1 2
create set (id = 1, origin = 1); => ok event 1 3
set add table (set id = 1, origin = 1, id = 1, fully qualified name = 'public.t'); => ok event 1 4
echo 'done'; => ok echo done
";

/// Statements that are refused, each in a script of its own.
const REFUSED: &str = "\
init cluster (id = 9); => no 45 noconninfo 9
init cluster (id = 3); => no 17 nodatabase z
init cluster (id = 1); => no 43 alreadynode 1
store node (id = 4, event node = 9); => no 45 noconninfo 9
store node (id = 9, event node = 1); => no 45 noconninfo 9
store node (id = 3, event node = 1); => no 17 nodatabase z
store node (id = 1, event node = 4); => no 41 notinitialised 4
store node (id = 2, event node = 1); => no 43 alreadynode 2
store path (server = 1, client = 1, conninfo = 'dbname=a'); => no 78 samenode 1
drop path (server = 3, client = 1); => no 75 nopath 3
create set (id = 1, origin = 1); => no 18 idused 1
set add table (set id = 7, origin = 1, id = 5, fully qualified name = 'public.v'); => no 47 noset 7
set add table (set id = 1, origin = 2, id = 5, fully qualified name = 'public.t'); => no 47 noset 1
set add table (set id = 1, origin = 1, id = 5, fully qualified name = 'public.u'); => no 52 notable public.u
set add table (set id = 1, origin = 1, id = 1, fully qualified name = 'public.v'); => no 18 idused 1
set add table (set id = 1, origin = 1, id = 5, fully qualified name = 'public.t'); => no 58 tableused public.t
lock set (id = 1, origin = 1); => no 98 notbuilt lock
try { sync (id = 1); }; => no 98 notbuilt try
exit -2; => ok ended 254
";

/// The same over other databases.
const REFUSED_THERE: &str = "\
store node (id = 2, event node = 1); => no 18 idused 2
create set (id = 5, origin = 5); => no 42 othernode 5
create set (id = 5, origin = 2); => no 41 notinitialised 2
";

/// A node that joins behind the set knows it, and is not its origin.
const LATE: &str = "\
store node (id = 4, event node = 1); => ok event 1 5
set add table (set id = 1, origin = 4, id = 5, fully qualified name = 'public.v'); => no 55 notorigin 1
";

/// While a transaction is open on a table, and while a node is down.
const BUSY: &str = "\
begin a x => ok xid 1
insert a x public.v k 1 => ok action 1
";

const TAKEN: &str =
    "set add table (set id = 1, origin = 1, id = 5, fully qualified name = 'public.v'); \
    => no 66 busy 1";

const DOWN: &str = "\
commit a x => ok actions 1
crash b => ok
";

const ASLEEP: &str = "create set (id = 2, origin = 1); => no 16 down b";

/// A script that ended is there no more.
const ENDED: &str = "\
step s => ok ended 0
step s => no 94 noscript s
";

/// Adds each statement as it is accepted, and each as it is refused.
fn push_statements(wanted: &mut Wanted) -> Result<(), AllocError> {
    wanted.push_all(DATABASES)?;
    wanted.push_script(NODES, CLUSTER)?;
    wanted.push_all(ENDED)?;
    wanted.push_each(NODES, REFUSED)?;
    wanted.push_each(OTHERS, REFUSED_THERE)?;
    wanted.push_script(NODES, LATE)?;
    wanted.push_all(BUSY)?;
    wanted.push_each(NODES, TAKEN)?;
    wanted.push_all(DOWN)?;
    wanted.push_each(NODES, ASLEEP)?;
    wanted.push("kill s", "no 94 noscript s")
}

#[test]
fn statements_are_answered(rt: HostRuntime) -> Result<(), Fail> {
    let mut wanted = nothing_wanted(rt.alloc());
    push_statements(&mut wanted)?;
    expect_wanted(rt.alloc(), &wanted)
}

/// A script that runs is not replaced, and is killed.
const KILLED: &str = "\
slonik s <<
cluster name = c;
echo 'x';
>> => ok statements 1
slonik s <<
>> => no 93 scriptused s
slonik t <<
@
>> => no 80 badtoken 1
kill s => ok
step s => no 94 noscript s
";

#[test]
fn a_script_is_killed(rt: HostRuntime) -> Result<(), Fail> {
    expect_steps(rt.alloc(), KILLED, "")
}

/// Adds these lines behind the making of the cluster.
fn push_behind(wanted: &mut Wanted, lines: &str) -> Result<(), AllocError> {
    wanted.push_all(DATABASES)?;
    wanted.push_script(NODES, CLUSTER)?;
    wanted.push_all(lines)
}

/// These lines are answered so behind the making of the cluster.
fn expect_behind(alloc: Global, lines: &str) -> Result<(), Fail> {
    let mut wanted = nothing_wanted(alloc);
    push_behind(&mut wanted, lines)?;
    expect_wanted(alloc, &wanted)
}

/// What a table of a set gets is logged, and the status tells of the streams.
const WRITTEN: &str = "\
begin a x => ok xid 1
insert a x public.t p 1 => ok action 1
commit a x => ok actions 1
status a => ok node 1 log 0 progress 1 4 progress 2 0
status b => ok node 2 log 0 progress 1 1 progress 2 1
crash a => ok
up a => ok
rows a public.t => ok rows 1 p=1
status a => ok node 1 log 0 progress 1 4 progress 2 0
";

#[test]
fn a_table_of_a_set_is_written(rt: HostRuntime) -> Result<(), Fail> {
    expect_behind(rt.alloc(), WRITTEN)
}

/// The slon of a node is turned on and off, whatever its database is, as long as one is the node.
const SLONS: &str = "\
start 1 => no 44 nonode 1
slonik s <<
cluster name = c;
node 1 admin conninfo = 'dbname=a';
init cluster (id = 1);
>> => ok statements 1
step s => ok
start 1 => ok
start 1 => ok
stop 2 => no 44 nonode 2
crash a => ok
stop 1 => ok
stop 1 => ok
start 1 => ok
";

#[test]
fn slons_are_turned_on_and_off(rt: HostRuntime) -> Result<(), Fail> {
    expect_steps(rt.alloc(), DATABASES, SLONS)
}

/// SYNCs, by turns of slons and by statements of a script that runs beside them: none where nothing happened since the
/// last one, and none where the slon is off or the database is down. A database that comes up again knows its last one.
const SYNCED: &str = "\
sync 1 => no 67 off 1
sync 3 => no 44 nonode 3
start 1 => ok
start 2 => ok
sync 1 => ok event 1 5
sync 1 => no 60 nothing
sync 2 => ok event 2 2
slonik t <<
cluster name = demo;
node 1 admin conninfo = 'dbname=a';
create set (id = 2, origin = 1);
sync (id = 1);
sync (id = 2);
>> => ok statements 3
step t => ok event 1 6
sync 1 => no 60 nothing
step t => ok event 1 7
step t => no 45 noconninfo 2
begin a x => ok xid 1
sync 1 => ok event 1 8
sync 1 => no 60 nothing
abort a x => ok
sync 1 => ok event 1 9
crash a => ok
sync 1 => no 16 down a
up a => ok
sync 1 => ok event 1 10
sync 1 => no 60 nothing
status a => ok node 1 log 0 progress 1 10 progress 2 0
stop 2 => ok
sync 2 => no 67 off 2
cut 1 2 => ok
cut 2 1 => ok
cut 7 7 => ok
join 2 1 => ok
join 3 4 => ok
";

#[test]
fn syncs_are_emitted(rt: HostRuntime) -> Result<(), Fail> {
    expect_behind(rt.alloc(), SYNCED)
}

/// A script that includes a file, which is there or is not.
const INCLUDING: &[(&str, &[u8])] = &[
    (
        "s",
        b"slonik s <<\ncluster name = c;\ninclude <f>;\n>>\nstep s\nslonik t <<\ninclude <g>;\n>>\n",
    ),
    ("f", b"echo 'x';"),
];

/// The session with these files ends with this status and this output.
fn expect_included(
    alloc: Global,
    of: &str,
    fails: Fails,
    status: Status,
    written: &[u8],
) -> Result<(), Fail> {
    expect_over(alloc, of, Some("s"), INCLUDING, fails, status, written)
}

#[test]
fn files_are_included(rt: HostRuntime) -> Result<(), Fail> {
    let wanted = b"ok statements 1\nok echo x\nno 89 nofile g\n".as_slice();
    expect_included(rt.alloc(), "an include", NOTHING, Status::Done, wanted)?;
    let fails = Fails {
        files: 4,
        ..NOTHING
    };
    expect_included(
        rt.alloc(),
        "a fault",
        fails,
        Status::ReadFault,
        b"stop read\n",
    )
}

/// The session stops at a bad line, with this output.
fn expect_bad_line(alloc: Global, session: &[u8], written: &[u8]) -> Result<(), Fail> {
    let fails = NOTHING;
    expect_over(
        alloc,
        "a bad line",
        Some("s"),
        &[("s", session)],
        fails,
        Status::BadLine,
        written,
    )
}

/// A script that is not closed is a bad line, and so is a line of one that is no text.
#[test]
fn scripts_are_bad_lines(rt: HostRuntime) -> Result<(), Fail> {
    let open = b"up a\nslonik s <<\ncluster name = c;\n".as_slice();
    expect_bad_line(rt.alloc(), open, b"no 17 nodatabase a\nstop line 2\n")?;
    let garbled = b"slonik s <<\n# \xff\n>>\n".as_slice();
    expect_bad_line(rt.alloc(), garbled, b"stop line 2\n")
}

// ---- a database that becomes a node, whose store or that of the other node crashes at each call

/// A script of which the first node is made.
const JOINING: &str = "\
database a => ok
database b => ok
slonik s <<
cluster name = demo;
node 1 admin conninfo = 'dbname=a';
node 2 admin conninfo = 'dbname=b';
node 3 admin conninfo = 'host=h dbname=z';
node 4 admin conninfo = 'dbname=c';
init cluster (id = 1);
store node (id = 2, event node = 1);
>> => ok statements 2
step s => ok
";

/// The second node joins, over a store of the first one that fails.
const JOIN: Sweep = Sweep {
    databases: JOINING,
    nodes: NODES,
    cluster: "",
    front: ["", ""],
    database: "a",
    calls: 60,
    lines: "step s\ncrash a\nup a\nstatus a\nstatus b\n",
    done: "\
ok event 1 1
ok
ok
ok node 1 log 0 progress 1 1 progress 2 0
ok node 2 log 0 progress 1 1 progress 2 0
",
    failed: "\
no 10 fault a 1
no 16 down a
ok
ok node 1 log 0 progress 1 0
ok node 0 log 0
",
    kept: "\
doubt a ok event 1 1
no 16 down a
ok kept
ok node 1 log 0 progress 1 1 progress 2 0
ok node 0 log 0
",
    lost: "\
doubt a ok event 1 1
no 16 down a
ok lost
ok node 1 log 0 progress 1 0
ok node 0 log 0
",
};

/// The same over a store of the second one.
const JOIN_OF_SECOND: Sweep = Sweep {
    database: "b",
    lines: "step s\ncrash b\nup b\nstatus a\nstatus b\n",
    failed: "\
no 10 fault b 1
no 16 down b
ok
ok node 1 log 0 progress 1 0
ok node 0 log 0
",
    kept: "\
doubt b ok event 1 1
no 16 down b
ok kept
ok node 1 log 0 progress 1 1 progress 2 0
ok node 2 log 0 progress 1 1 progress 2 0
",
    lost: "\
doubt b ok event 1 1
no 16 down b
ok lost
ok node 1 log 0 progress 1 1 progress 2 0
ok node 0 log 0
",
    ..JOIN
};

#[test]
fn joins_crash_at_every_call_of_the_first(rt: HostRuntime) -> Result<(), Fail> {
    let told = JOIN.told_of_both(rt.alloc())?;
    require(told > 10 && told < 60, "the calls of the event node")
}

#[test]
fn joins_crash_at_every_call_of_the_second(rt: HostRuntime) -> Result<(), Fail> {
    let told = JOIN_OF_SECOND.told_of_both(rt.alloc())?;
    require(told > 10 && told < 60, "the calls of the new node")
}

// ---- a commit on a table of a set, whose store crashes at each call

/// A transaction that writes a row of the table.
const WRITES: &str = "\
begin a x => ok xid 1
insert a x public.t p 1 => ok action 1
";

const COMMIT: Sweep = Sweep {
    databases: DATABASES,
    nodes: NODES,
    cluster: CLUSTER,
    front: [WRITES, ""],
    database: "a",
    calls: 30,
    lines: "commit a x\ncrash a\nup a\nrows a public.t\n",
    done: "\
ok actions 1
ok
ok
ok rows 1 p=1
",
    failed: "\
no 10 fault a 1
no 16 down a
ok
ok rows 0
",
    kept: "\
doubt a ok actions 1
no 16 down a
ok kept
ok rows 1 p=1
",
    lost: "\
doubt a ok actions 1
no 16 down a
ok lost
ok rows 0
",
};

/// The transaction begins, puts the row, its row of the log and the stamp, and commits.
#[test]
fn commits_crash_at_every_call(rt: HostRuntime) -> Result<(), Fail> {
    require(
        COMMIT.told_of_both(rt.alloc())? == 5,
        "the calls of a commit",
    )
}

// ---- a SYNC, whose store crashes at each call

const SYNC: Sweep = Sweep {
    databases: DATABASES,
    nodes: NODES,
    cluster: CLUSTER,
    front: ["start 1 => ok\n", ""],
    database: "a",
    calls: 30,
    lines: "sync 1\ncrash a\nup a\nstatus a\n",
    done: "\
ok event 1 5
ok
ok
ok node 1 log 0 progress 1 5 progress 2 0
",
    failed: "\
no 10 fault a 1
no 16 down a
ok
ok node 1 log 0 progress 1 4 progress 2 0
",
    kept: "\
doubt a ok event 1 5
no 16 down a
ok kept
ok node 1 log 0 progress 1 5 progress 2 0
",
    lost: "\
doubt a ok event 1 5
no 16 down a
ok lost
ok node 1 log 0 progress 1 4 progress 2 0
",
};

#[test]
fn syncs_crash_at_every_call(rt: HostRuntime) -> Result<(), Fail> {
    let told = SYNC.told_of_both(rt.alloc())?;
    require(told > 6 && told < 30, "the calls of a SYNC")
}
