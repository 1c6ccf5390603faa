// A database that becomes the first node of a cluster, and emits the events of its configuration.
ghost use Rattle.node_rows.specs.Spellings.{CanBody};
ghost use Rattle.event_store.specs.Keeping.{KeepsViews};
ghost use Rattle.std.specs.Prelude.{IfOk};

use app_store::{Database, DbFault, Fuse};
use node_keeper::MemKeeper;
use node_rows::Body;
use node_store::announce;
use session_text::{print_reply, read_command};
use slon_base::Text;
use slon_model::{Answered, Reply};
use std::alloc::{AllocError, Global};
use std::array;
use std::test::Fail;
use test_words::{expect, require};

/// The line of a reply, which is let go.
fn printed(alloc: Global, reply: Reply) -> Result<Text, AllocError> {
    let line = print_reply(alloc, &reply);
    drop(reply);
    line
}

/// What a line comes to: the reply, or that its commit is in doubt, or that it is refused.
fn told(alloc: Global, answered: Result<Answered, DbFault>) -> Result<Text, AllocError> {
    match answered {
        Ok(Answered::Sure(answer)) => printed(alloc, Reply::Accepted(answer)),
        Ok(Answered::InDoubt(answer)) => {
            drop(answer);
            Text::from_str(alloc, "doubt")
        }
        Err(fault) => {
            drop(fault);
            Text::from_str(alloc, "no")
        }
    }
}

/// The database obeys this line.
pub(crate) fn obey_line(
    alloc: Global,
    database: &mut Database<MemKeeper>,
    line: &str,
) -> Result<Text, Fail> {
    match read_command(alloc, line.as_bytes(), 1)? {
        Some(command) => {
            let answered = database.obey(&command);
            drop(command);
            Ok(told(alloc, answered)?)
        }
        None => Err(Fail::new(line)),
    }
}

/// The lines come to these replies.
pub(crate) fn expect_lines(
    alloc: Global,
    database: &mut Database<MemKeeper>,
    lines: &[(&str, &str)],
) -> Result<(), Fail> {
    for (line, wanted) in lines {
        expect(line, obey_line(alloc, database, line)?.as_str(), wanted)?;
    }
    Ok(())
}

/// The database becomes the first node. Whether that is in doubt.
pub(crate) fn found(
    alloc: Global,
    database: &mut Database<MemKeeper>,
) -> Result<Result<bool, DbFault>, Fail> {
    if !database.is_up() || database.node_id().is_some() {
        return Err(Fail::new("no database that can be a node"));
    }
    let cluster = Text::from_str(alloc, "c")?;
    Ok(node_store::found(database, 1, &cluster, &Text::from_str(alloc, "first")?))
}

/// The node emits an event. Its number, and whether that is in doubt.
pub(crate) fn emit(
    database: &mut Database<MemKeeper>,
    body: &Body,
) -> Result<Result<(u64, bool), DbFault>, Fail>
    requires { CanBody body.now × KeepsViews body.now }
{
    if !database.is_up() || database.node_id().is_none() {
        return Err(Fail::new("no node that is up"));
    }
    Ok(announce(database, array::from_ref(body)))
}

/// A second node.
fn second(alloc: Global) -> Result<Body, Fail>
    ensures { IfOk result (λ b. CanBody b × KeepsViews b) }
{
    Ok(Body::StoreNode {
        node: 2,
        comment: Text::from_str(alloc, "second")?,
    })
}

/// A set of the first node.
pub(crate) fn some_set(alloc: Global) -> Result<Body, Fail>
    ensures { IfOk result (λ b. CanBody b × KeepsViews b) }
{
    Ok(Body::StoreSet {
        set: 1,
        origin: 1,
        comment: Text::from_str(alloc, "all")?,
    })
}

/// A table of that set.
pub(crate) fn some_table(alloc: Global) -> Result<Body, Fail>
    ensures { IfOk result (λ b. CanBody b × KeepsViews b) }
{
    Ok(Body::SetAddTable {
        set: 1,
        table: 7,
        name: Text::from_str(alloc, "public.t")?,
        comment: Text::from_str(alloc, "")?,
    })
}

/// The node emits an event with this number, and its commit stands. The body is let go.
pub(crate) fn expect_emitted(
    database: &mut Database<MemKeeper>,
    body: Body,
    number: u64,
) -> Result<(), Fail>
    requires { CanBody body × KeepsViews body }
{
    let emitted = emit(database, &body);
    drop(body);
    require(emitted? == Ok((number, false)), "an event")
}

/// The node emits the three events of its configuration, with the numbers from 1 on.
pub(crate) fn configure(alloc: Global, database: &mut Database<MemKeeper>) -> Result<(), Fail> {
    expect_emitted(database, second(alloc)?, 1)?;
    expect_emitted(database, some_set(alloc)?, 2)?;
    expect_emitted(database, some_table(alloc)?, 3)
}

/// A database over a store in memory, of which one call fails, and whether a commit that fails stands.
pub(crate) fn create(alloc: Global, fails: u64, keep: bool) -> Result<Database<MemKeeper>, Fail> {
    let store = MemKeeper::new(alloc, vec![in alloc; fails]?, keep)?;
    let (database, made) = Database::create(alloc, Fuse::new(store));
    require(made.is_ok(), "the database")?;
    Ok(database)
}

const BEFORE: &[(&str, &str)] = &[
    ("table a public.t 2", "ok"),
    ("table a public.u 2", "ok"),
    ("begin a x", "ok xid 1"),
    ("insert a x public.t k 1", "ok action 1"),
    ("status a", "ok node 0 log 0"),
];

const BEHIND: &[(&str, &str)] = &[
    ("status a", "ok node 1 log 0 progress 1 3 progress 2 0"),
    ("insert a x public.t m 2", "ok action 2"),
    ("insert a x public.u n 3", "ok action 3"),
    ("commit a x", "ok actions 3"),
    ("rows a public.t", "ok rows 2 k=1 m=2"),
    ("crash a", "ok"),
    ("status a", "no"),
    ("up a", "ok"),
    ("status a", "ok node 1 log 0 progress 1 3 progress 2 0"),
    ("begin a y", "ok xid 65"),
    ("update a y public.t m 2=5", "ok action 65"),
    ("commit a y", "ok actions 1"),
    ("rows a public.t", "ok rows 2 k=1 m=5"),
];

const FOUNDED: &[(&str, &str)] = &[("status a", "ok node 1 log 0 progress 1 0")];

/// The database becomes the first node and emits its events.
fn begin(alloc: Global, database: &mut Database<MemKeeper>) -> Result<(), Fail> {
    expect_lines(alloc, database, BEFORE)?;
    require(found(alloc, database)? == Ok(false), "the node")?;
    require(database.node_id() == Some(1), "its id")?;
    expect_lines(alloc, database, FOUNDED)?;
    configure(alloc, database)?;
    expect_lines(alloc, database, BEHIND)
}

#[test]
fn first_nodes_emit_events(rt: HostRuntime) -> Result<(), Fail> {
    let mut database = create(rt.alloc(), 0, false)?;
    let done = begin(rt.alloc(), &mut database);
    drop(database);
    done
}

/// The database comes up if it is down.
pub(crate) fn rise(database: &mut Database<MemKeeper>) -> Result<(), Fail> {
    require(
        database.is_up() || database.up().is_ok(),
        "the database up again",
    )
}

/// What the node tells of itself, in a second try where the store failed.
pub(crate) fn status(alloc: Global, database: &mut Database<MemKeeper>) -> Result<Text, Fail> {
    let first = obey_line(alloc, database, "status a")?;
    if first.as_str() != "no" {
        return Ok(first);
    }
    rise(database)?;
    obey_line(alloc, database, "status a")
}

/// What may have come of a commit: it stands; it is in doubt; it does not stand.
#[derive(Clone, Copy, PartialEq, Eq)]
enum Fate {
    Stands,
    InDoubt,
    Fails,
}

/// What came of a commit that says whether it is in doubt.
fn fate_of(doubt: Option<bool>) -> Fate {
    match doubt {
        Some(false) => Fate::Stands,
        Some(true) => Fate::InDoubt,
        None => Fate::Fails,
    }
}

/// Whether a commit stands, where one in doubt is kept or not.
fn stands(fate: Fate, keep: bool) -> bool {
    fate == Fate::Stands || keep && fate == Fate::InDoubt
}

/// The database becomes the first node, in a second try where the commit of the first one does not stand.
fn found_at_last(
    alloc: Global,
    database: &mut Database<MemKeeper>,
    keep: bool,
) -> Result<Fate, Fail> {
    let fate = fate_of(found(alloc, database)?.ok());
    rise(database)?;
    require(
        database.node_id().is_some() == stands(fate, keep),
        "the node",
    )?;
    if !stands(fate, keep) {
        require(found(alloc, database)? == Ok(false), "the node again")?;
    }
    Ok(fate)
}

/// The node emits this first event, in a second try where the commit of the first one does not stand.
fn emit_twice(
    alloc: Global,
    database: &mut Database<MemKeeper>,
    body: &Body,
    keep: bool,
) -> Result<Fate, Fail>
    requires { CanBody body.now × KeepsViews body.now }
{
    let fate = fate_of(emit(database, body)?.ok().map(|e| e.1));
    rise(database)?;
    if !stands(fate, keep) {
        expect(
            "the node",
            status(alloc, database)?.as_str(),
            "ok node 1 log 0 progress 1 0",
        )?;
        require(emit(database, body)? == Ok((1, false)), "the event again")?;
    }
    Ok(fate)
}

/// The same of the event that stores the second node, of which the node then tells.
fn emit_at_last(
    alloc: Global,
    database: &mut Database<MemKeeper>,
    keep: bool,
) -> Result<Fate, Fail> {
    let body = second(alloc)?;
    let emitted = emit_twice(alloc, database, &body, keep);
    drop(body);
    let fate = emitted?;
    let wanted = "ok node 1 log 0 progress 1 1 progress 2 0";
    expect("the nodes", status(alloc, database)?.as_str(), wanted)?;
    Ok(fate)
}

/// A database over a store of which this call fails, or nothing where it was not made.
pub(crate) fn made(
    alloc: Global,
    fails: u64,
    keep: bool,
) -> Result<Option<Database<MemKeeper>>, Fail> {
    let store = MemKeeper::new(alloc, vec![in alloc; fails]?, keep)?;
    let (database, made) = Database::create(alloc, Fuse::new(store));
    Ok(made.is_ok().then_some(database))
}

/// What came of both commits of this database.
fn begin_at_last(
    alloc: Global,
    database: &mut Database<MemKeeper>,
    keep: bool,
) -> Result<(Fate, Fate), Fail> {
    let founded = found_at_last(alloc, database, keep)?;
    Ok((founded, emit_at_last(alloc, database, keep)?))
}

/// What came of both commits where this call of the store fails, or nothing where the database was not made.
fn walk(alloc: Global, fails: u64, keep: bool) -> Result<Option<(Fate, Fate)>, Fail> {
    let Some(mut database) = made(alloc, fails, keep)? else {
        return Ok(None);
    };
    let fates = begin_at_last(alloc, &mut database, keep);
    drop(database);
    Ok(Some(fates?))
}

/// How many of the first 400 calls, each of which fails in one run, leave each of the two commits in doubt.
fn count_doubts(alloc: Global, keep: bool) -> Result<(u32, u32), Fail> {
    let mut founded = 0u32;
    let mut emitted = 0u32;
    for fails in 1..=400u64 {
        if let Some((first, second)) = walk(alloc, fails, keep)? {
            founded = founded.saturating_add(u32::from(first == Fate::InDoubt));
            emitted = emitted.saturating_add(u32::from(second == Fate::InDoubt));
        }
    }
    Ok((founded, emitted))
}

#[test]
fn nodes_begin_over_failing_stores(rt: HostRuntime) -> Result<(), Fail> {
    for keep in [false, true] {
        let doubts = count_doubts(rt.alloc(), keep)?;
        assert!(rt; doubts == (1, 1));
    }
    Ok(())
}
