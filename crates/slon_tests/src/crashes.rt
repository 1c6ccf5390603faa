// A session that crashes, or whose store fails, at each call.
use crate::known::{Known, NO_TABLE, Step};
use crate::running::{Fails, NOTHING, failing_at, run};
use node_keeper::MemSink;
use slon_main::Status;
use std::alloc::Global;
use std::process::Abort;
use std::str::Lines;
use std::test::Fail;
use test_words::{keeping, require};

/// A database is made and comes up once, so that its numbers stand at their ceilings.
const START: &[Step] = &[
    ("database a", "ok", Some(NO_TABLE)),
    ("crash a", "ok", None),
    ("up a", "ok", None),
];

const COMMANDS: &[Step] = &[
    ("table a public.t 3", "ok", Some("ok rows 0")),
    ("begin a x", "ok xid 65", None),
    ("insert a x public.t k 1 2", "ok action 65", None),
    ("update a x public.t k 2=5", "ok action 66", None),
    ("begin a y", "ok xid 66", None),
    ("delete a y public.t j", "ok none", None),
    ("insert a y public.t m 3 4", "ok action 67", None),
    ("insert a y public.t k 3 4", "no 12 locked 65", None),
    ("commit a x", "ok actions 2", Some("ok rows 1 k=5,2")),
    ("rows a public.t", "ok rows 1 k=5,2", None),
    ("status a", "ok node 0 log 0", None),
    ("abort a y", "ok", None),
    ("begin a z", "ok xid 67", None),
    ("insert a z public.t n 6 7", "ok action 68", None),
    ("delete a z public.t k", "ok action 69", None),
    ("commit a z", "ok actions 2", Some("ok rows 1 n=6,7")),
];

/// It is seen what stands in the end. Where no call fails before, the second `up` finds the database up.
const FINISH: &[Step] = &[
    ("crash a", "ok", None),
    ("up a", "ok", None),
    ("up a", "no 19 isup a", None),
    ("commit a z", "no 53 notransaction z", None),
    ("rows a public.t", "ok rows 1 n=6,7", None),
];

/// Adds a line.
fn push_line(session: &mut String, line: &str) -> Result<(), Fail> {
    session.push_str(line)?;
    session.push('\n')?;
    Ok(())
}

/// Adds the commands of these steps.
fn push_steps(session: &mut String, steps: &[Step]) -> Result<(), Fail> {
    for (command, _, _) in steps {
        push_line(session, command)?;
    }
    Ok(())
}

/// The session of these commands, with this line before the table is made.
fn failing(alloc: Global, order: &str) -> Result<String, Fail> {
    let mut session = String::new(alloc);
    push_steps(&mut session, START)?;
    push_line(&mut session, order)?;
    push_steps(&mut session, COMMANDS)?;
    push_steps(&mut session, FINISH)?;
    Ok(session)
}

/// Goes on by the reply to this order, if there is one.
fn walk_order(known: &mut Known, rt: &impl Abort, order: &str, replies: &mut Lines<'_>) {
    if !order.is_empty() {
        known.is_reply(rt, replies.next().unwrap_or(""), "ok");
    }
}

/// Goes on by all replies of a session with this order. Stops at one that may not be given.
fn walk_all(
    known: &mut Known,
    rt: &impl Abort,
    alloc: Global,
    order: &str,
    written: &str,
) -> Result<(), Fail> {
    let mut replies = written.lines();
    known.walk(rt, alloc, START, &mut replies)?;
    walk_order(known, rt, order, &mut replies);
    known.walk(rt, alloc, COMMANDS, &mut replies)?;
    known.walk(rt, alloc, FINISH, &mut replies)?;
    require(replies.next().is_none(), "the last reply")
}

/// The output of the session with this order, and how it ended.
fn run_with(alloc: Global, order: &str, fails: Fails) -> Result<(Status, MemSink), Fail> {
    let session = failing(alloc, order)?;
    run(alloc, session.as_bytes(), fails)
}

/// Whether a reply in this output told that the call failed, where each reply is one that may be given.
fn tells(
    rt: &impl Abort,
    alloc: Global,
    order: &str,
    out: &MemSink,
    call: u64,
    keep: bool,
) -> Result<bool, Fail> {
    let mut known = Known::new(call, keep);
    walk_all(&mut known, rt, alloc, order, str::from_utf8(out.written())?)?;
    Ok(known.told)
}

/// Whether a reply of the session with this order told that the call failed.
fn is_told(
    rt: &impl Abort,
    alloc: Global,
    order: &str,
    fails: Fails,
    call: u64,
    keep: bool,
) -> Result<bool, Fail> {
    let (is, out) = run_with(alloc, order, fails)?;
    let tells = tells(rt, alloc, order, &out, call, keep);
    drop(out);
    let told = tells?;
    require(is == Status::Done, order)?;
    Ok(told)
}

/// Whether the crash at this call is told, where a commit that fails stands or not.
fn is_crash_told(rt: &impl Abort, alloc: Global, calls: u64, keep: bool) -> Result<bool, Fail> {
    let order = format!(in alloc; "crash a after {calls} {}", keeping(keep))?;
    is_told(rt, alloc, order.as_str(), NOTHING, calls, keep)
}

/// A session that crashes at each of the 37 calls of its commands, and at none.
#[test]
fn crashes_at_every_call(rt: HostRuntime) -> Result<(), Fail> {
    for calls in 0..38 {
        let told = calls < 37;
        assert!(rt;
            is_crash_told(&rt, rt.alloc(), calls, false)? == told,
            "{calls}"
        );
        assert!(rt;
            is_crash_told(&rt, rt.alloc(), calls, true)? == told,
            "{calls}"
        );
    }
    Ok(())
}

/// Whether the failure of this call is told.
fn is_failure_told(rt: &impl Abort, alloc: Global, store: u64, keep: bool) -> Result<bool, Fail> {
    is_told(rt, alloc, "", failing_at(store, keep), store, keep)
}

/// Whether this call of 313 is no rollback. Rollbacks begin the making of the database and each `up`.
fn is_told_of(store: u64) -> bool {
    store < 314 && store != 1 && store != 264 && store != 306
}

/// A store that fails at each of its 313 calls, and at none. Nothing is told where a rollback fails.
#[test]
fn stores_fail_at_every_call(rt: HostRuntime) -> Result<(), Fail> {
    for store in 1..315 {
        let told = is_told_of(store);
        assert!(rt;
            is_failure_told(&rt, rt.alloc(), store, false)? == told,
            "{store}"
        );
        assert!(rt;
            is_failure_told(&rt, rt.alloc(), store, true)? == told,
            "{store}"
        );
    }
    Ok(())
}
