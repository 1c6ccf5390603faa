// Whole sessions over files, stores and an output in memory.
use crate::running::{Fails, NOTHING, expect_end, failing_at};
use slon_main::Status;
use std::alloc::Global;
use std::test::Fail;

const FIRST_PATH: &[u8] =
    b"database a\ntable a public.t 2\nbegin a x\ninsert a x public.t k 1\ncommit a x\nrows a public.t\n";

const ROW_LOCKS: &[u8] = b"database a\n\
    table a public.t 2\n\
    begin a x\n\
    begin a y\n\
    insert a x public.t k 1\n\
    insert a y public.t k 2\n\
    commit a x\n\
    insert a y public.t k 2\n\
    update a y public.t k 2=2\n\
    commit a y\n\
    rows a public.t\n";

const ROW_LOCKS_REPLIES: &[u8] = b"ok\n\
    ok\n\
    ok xid 1\n\
    ok xid 2\n\
    ok action 1\n\
    no 12 locked 1\n\
    ok actions 1\n\
    no 54 duplicate\n\
    ok action 2\n\
    ok actions 1\n\
    ok rows 1 k=2\n";

const REFUSALS: &[u8] = b"database a\n\
    database a\n\
    begin z t\n\
    table a public.t 2\n\
    table a public.t 2\n\
    begin a t\n\
    insert a t public.u k 1\n\
    insert a t public.t k\n\
    update a t public.t k 2=5\n\
    commit a u\n\
    commit a t\n\
    status a\n\
    step s\n\
    kill s\n\
    up a\n";

const REFUSALS_REPLIES: &[u8] = b"ok\n\
    no 51 nameused a\n\
    no 17 nodatabase z\n\
    ok\n\
    no 50 tableexists public.t\n\
    ok xid 1\n\
    no 52 notable public.u\n\
    no 57 badwidth 2\n\
    ok none\n\
    no 53 notransaction u\n\
    ok actions 0\n\
    ok node 0 log 0\n\
    no 94 noscript s\n\
    no 94 noscript s\n\
    no 19 isup a\n";

const DUPLICATE: &[u8] = b"database a\n\
    table a public.t 2\n\
    begin a x\n\
    begin a y\n\
    insert a x public.t k 1\n\
    insert a x public.t k 2\n";

const DUPLICATE_REPLIES: &[u8] = b"ok\n\
    ok\n\
    ok xid 1\n\
    ok xid 2\n\
    ok action 1\n\
    no 54 duplicate\n";

const KEPT_COMMIT: &[u8] = b"database a\n\
    table a public.t 2\n\
    begin a x\n\
    insert a x public.t k 1\n\
    crash a commit keep\n\
    commit a x\n\
    up a\n\
    rows a public.t\n\
    begin a y\n\
    delete a y public.t k\n\
    crash a after 0 lose\n\
    commit a y\n\
    up a\n\
    rows a public.t\n\
    begin a z\n";

const KEPT_COMMIT_REPLIES: &[u8] = b"ok\n\
    ok\n\
    ok xid 1\n\
    ok action 1\n\
    ok\n\
    doubt a ok actions 1\n\
    ok kept\n\
    ok rows 1 k=1\n\
    ok xid 65\n\
    ok action 65\n\
    ok\n\
    no 10 fault a 2\n\
    ok\n\
    ok rows 1 k=1\n\
    ok xid 129\n";

const FULL: &[u8] = b"database d0\n\
    database d1\n\
    database d2\n\
    database d3\n\
    database d4\n\
    database d5\n\
    database d6\n\
    database d7\n\
    database d8\n\
    database d9\n\
    database d10\n\
    database d11\n\
    database d12\n\
    database d13\n\
    database d14\n\
    database d15\n\
    database d15\n\
    database e\n";

const FULL_REPLIES: &[u8] = b"ok\n\
    ok\n\
    ok\n\
    ok\n\
    ok\n\
    ok\n\
    ok\n\
    ok\n\
    ok\n\
    ok\n\
    ok\n\
    ok\n\
    ok\n\
    ok\n\
    ok\n\
    ok\n\
    no 51 nameused d15\n\
    no 13 full 16\n";

const TWO_DATABASES: &[u8] = b"database a\n\
    database b\n\
    table a public.t 2\n\
    begin a x\n\
    insert a x public.t k 1\n\
    crash b\n\
    table b public.t 2\n\
    commit a x\n\
    rows a public.t\n\
    rows b public.t\n\
    up b\n\
    rows b public.t\n";

const TWO_DATABASES_REPLIES: &[u8] = b"ok\n\
    ok\n\
    ok\n\
    ok xid 1\n\
    ok action 1\n\
    ok\n\
    no 16 down b\n\
    ok actions 1\n\
    ok rows 1 k=1\n\
    no 16 down b\n\
    ok\n\
    no 52 notable public.t\n";

/// The word that names the session, its bytes, the calls that fail, the status and the output.
type Session = (
    Option<&'static str>,
    &'static [u8],
    Fails,
    Status,
    &'static [u8],
);

/// The session of the file `s` is run to its end, with these replies.
fn expect_done(alloc: Global, session: &[u8], fails: Fails, written: &[u8]) -> Result<(), Fail> {
    expect_end(alloc, Some("s"), session, fails, Status::Done, written)
}

/// Each of the sessions ends with its status and its output.
fn expect_all(alloc: Global, sessions: &[Session]) -> Result<(), Fail> {
    for (word, session, fails, status, written) in sessions {
        expect_end(alloc, *word, session, *fails, *status, written)?;
    }
    Ok(())
}

const RUNS: &[Session] = &[
    (Some("s"), b"", NOTHING, Status::Done, b""),
    (
        Some("s"),
        FIRST_PATH,
        NOTHING,
        Status::Done,
        b"ok\nok\nok xid 1\nok action 1\nok actions 1\nok rows 1 k=1\n",
    ),
    (
        None,
        b"",
        NOTHING,
        Status::Usage,
        b"usage: slonrun [--store DIR] [--databases N] [--gen N] [SESSION]\n",
    ),
    (
        Some("x"),
        b"",
        NOTHING,
        Status::Missing,
        b"stop missing x\n",
    ),
];

#[test]
fn runs(rt: HostRuntime) -> Result<(), Fail> {
    expect_all(rt.alloc(), RUNS)
}

#[test]
fn stops_at_a_long_line(rt: HostRuntime) -> Result<(), Fail> {
    let mut long = [b'x'; 8194];
    long[0] = b'#';
    long[8193] = b'\n';
    expect_end(
        rt.alloc(),
        Some("s"),
        long.as_slice(),
        NOTHING,
        Status::BadLine,
        b"stop line 1\n",
    )
}

/// Sessions in which no call fails, and their replies.
const REPLIES: &[(&[u8], &[u8])] = &[
    (ROW_LOCKS, ROW_LOCKS_REPLIES),
    (REFUSALS, REFUSALS_REPLIES),
    (DUPLICATE, DUPLICATE_REPLIES),
    (KEPT_COMMIT, KEPT_COMMIT_REPLIES),
    (FULL, FULL_REPLIES),
    (TWO_DATABASES, TWO_DATABASES_REPLIES),
];

#[test]
fn replies(rt: HostRuntime) -> Result<(), Fail> {
    for (session, written) in REPLIES {
        expect_done(rt.alloc(), session, NOTHING, written)?;
    }
    Ok(())
}

/// Sessions that stop at a fault of a file, of the shelf and of the output.
const STOPS: &[Session] = &[
    (
        Some("s"),
        FIRST_PATH,
        Fails {
            files: 2,
            ..NOTHING
        },
        Status::ReadFault,
        b"stop read\n",
    ),
    (
        Some("s"),
        b"database a\n",
        Fails {
            shelf: 1,
            ..NOTHING
        },
        Status::NoStore,
        b"stop store a\n",
    ),
    (
        Some("s"),
        FIRST_PATH,
        Fails { out: 2, ..NOTHING },
        Status::WriteFault,
        b"ok\no",
    ),
];

#[test]
fn stops_at_faults(rt: HostRuntime) -> Result<(), Fail> {
    expect_all(rt.alloc(), STOPS)
}

/// A session over a store of which one call fails.
const ONE_UP: &[u8] = b"database a\ntable a public.t 2\nup a\nrows a public.t\n";

/// The replies where the making of the table fails.
const ONE_FAULT: &[u8] = b"no 10 fault a 1\nno 16 down a\nok\nno 52 notable public.t\n";

/// The replies where its commit is in doubt and stands, or does not.
const ONE_KEPT: &[u8] = b"doubt a ok\nno 16 down a\nok kept\nno 52 notable public.t\n";

const ONE_LOST: &[u8] = b"doubt a ok\nno 16 down a\nok lost\nno 52 notable public.t\n";

/// Which call of a store fails, whether a commit that fails stands, and the replies: a rollback, which takes nothing
/// down, counts, a begin, a put and a commit.
const FAILING_STORES: &[(u64, bool, &[u8])] = &[
    (1, false, b"ok\nok\nno 19 isup a\nok rows 0\n"),
    (2, false, ONE_FAULT),
    (257, false, ONE_FAULT),
    (258, false, ONE_FAULT),
    (259, true, ONE_FAULT),
    (263, false, ONE_LOST),
    (263, true, ONE_KEPT),
];

#[test]
fn stores_fail(rt: HostRuntime) -> Result<(), Fail> {
    for (store, keep, written) in FAILING_STORES {
        expect_done(rt.alloc(), ONE_UP, failing_at(*store, *keep), written)?;
    }
    Ok(())
}
