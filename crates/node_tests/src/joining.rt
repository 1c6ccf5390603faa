// A database that becomes a further node of a cluster, and what statements look up at a node.
ghost use Rattle.std.specs.Prelude.{◌≡◌, true, is_some, OnOk};
ghost use Rattle.store_rows.specs.Rows.{IsId};

use crate::nodes::{configure, create, expect_lines, found, made, obey_line, rise, status};
use app_store::Database;
use node_keeper::MemKeeper;
use node_store::{
    Fell, Joined, Reign, first_receiver, has_table, is_dropped, join, knows_node, knows_path,
    knows_set, knows_table, names_table, set_reign, writer,
};
use slon_base::Text;
use std::alloc::Global;
use std::array;
use std::test::Fail;
use test_words::{expect, require};

/// Fails where the database is down.
fn require_up(database: &Database<MemKeeper>) -> Result<(), Fail>
    ensures { OnOk result (database.now.state.up ≡ true) }
{
    if database.is_up() {
        return Ok(());
    }
    Err(Fail::new("a database that is down"))
}

/// The second database joins the first one as node 2.
pub(crate) fn join_second(
    alloc: Global,
    first: &mut Database<MemKeeper>,
    second: &mut Database<MemKeeper>,
) -> Result<Result<(u64, Joined), Fell>, Fail> {
    if !first.is_up() || first.node_id().is_none() {
        return Err(Fail::new("no node that is up"));
    }
    if !second.is_up() || second.node_id().is_some() {
        return Err(Fail::new("no database that can be a node"));
    }
    let comment = Text::from_str(alloc, "second")?;
    Ok(join(first, second, 2, &comment))
}

/// What both tell of themselves, in a second try where a store failed.
fn expect_both(
    alloc: Global,
    first: &mut Database<MemKeeper>,
    second: &mut Database<MemKeeper>,
    wanted: [&str; 2],
) -> Result<(), Fail> {
    expect("the first", status(alloc, first)?.as_str(), wanted[0])?;
    expect("the second", status(alloc, second)?.as_str(), wanted[1])
}

const EVENT: &str = "ok node 1 log 0 progress 1 1 progress 2 0";

const ALONE: &str = "ok node 1 log 0 progress 1 0";

const NODE: &str = "ok node 2 log 0 progress 1 1 progress 2 0";

const NONE: &str = "ok node 0 log 0";

/// A second node joins, and both tell the same behind a crash of each.
fn join_and_crash(
    alloc: Global,
    first: &mut Database<MemKeeper>,
    second: &mut Database<MemKeeper>,
) -> Result<(), Fail> {
    require(found(alloc, first)? == Ok(false), "the first node")?;
    let joined = join_second(alloc, first, second)?;
    require(matches!(joined, Ok((1, Joined::Done))), "the second node")?;
    expect_both(alloc, first, second, [EVENT, NODE])?;
    crash_and_rise(alloc, first)?;
    crash_and_rise(alloc, second)?;
    expect_both(alloc, first, second, [EVENT, NODE])
}

/// The same of a database that is made for it.
fn join_a_second(alloc: Global, first: &mut Database<MemKeeper>) -> Result<(), Fail> {
    let mut second = create(alloc, 0, false)?;
    let done = join_and_crash(alloc, first, &mut second);
    drop(second);
    done
}

#[test]
fn second_nodes_join(rt: HostRuntime) -> Result<(), Fail> {
    let mut first = create(rt.alloc(), 0, false)?;
    let done = join_a_second(rt.alloc(), &mut first);
    drop(first);
    done
}

/// A database goes down and comes up again.
fn crash_and_rise(alloc: Global, database: &mut Database<MemKeeper>) -> Result<(), Fail> {
    let reply = obey_line(alloc, database, "crash a")?;
    expect("the crash", reply.as_str(), "ok")?;
    rise(database)?;
    Ok(())
}

/// Joins two databases whose stores may fail, and tells whether one commit was in doubt.
fn try_join(
    alloc: Global,
    first: &mut Database<MemKeeper>,
    second: &mut Database<MemKeeper>,
    keep: bool,
) -> Result<bool, Fail> {
    if found(alloc, first)? != Ok(false) {
        return Ok(false);
    }
    let joined = join_second(alloc, first, second)?;
    rise(first)?;
    rise(second)?;
    expect_both(alloc, first, second, told_behind(&joined, keep))?;
    Ok(matches!(joined, Ok((_, Joined::EventInDoubt | Joined::NodeInDoubt))))
}

/// The same where this call of the store of the second one fails.
fn try_second(
    alloc: Global,
    first: &mut Database<MemKeeper>,
    fails: u64,
    keep: bool,
) -> Result<bool, Fail> {
    let Some(mut second) = made(alloc, fails, keep)? else {
        return Ok(false);
    };
    let doubt = try_join(alloc, first, &mut second, keep);
    drop(second);
    doubt
}

/// The same where these calls fail.
fn walk(alloc: Global, fails: [u64; 2], keep: bool) -> Result<bool, Fail> {
    let Some(mut first) = made(alloc, fails[0], keep)? else {
        return Ok(false);
    };
    let doubt = try_second(alloc, &mut first, fails[1], keep);
    drop(first);
    doubt
}

/// What the two databases tell behind a join, where a commit in doubt is kept or not.
fn told_behind(joined: &Result<(u64, Joined), Fell>, keep: bool) -> [&'static str; 2] {
    match joined {
        Ok((_, Joined::Done)) => [EVENT, NODE],
        Ok((_, Joined::EventInDoubt)) => [if keep { EVENT } else { ALONE }, NONE],
        Ok((_, Joined::NodeInDoubt)) => [EVENT, if keep { NODE } else { NONE }],
        Err(_) => [ALONE, NONE],
    }
}

#[test]
fn nodes_join_over_failing_stores(rt: HostRuntime) -> Result<(), Fail> {
    for keep in [false, true] {
        let mut doubts = [0u32; 2];
        for fails in 1..=400u64 {
            let first = walk(rt.alloc(), [fails, 0], keep)?;
            let second = walk(rt.alloc(), [0, fails], keep)?;
            doubts[0] = doubts[0].saturating_add(u32::from(first));
            doubts[1] = doubts[1].saturating_add(u32::from(second));
        }
        require(doubts == [1, 1], "one commit of each in doubt")?;
    }
    Ok(())
}

/// Whether the first node knows the node of this id, as one that is not dropped.
fn expect_node(node: &mut Database<MemKeeper>, id: u32, known: bool) -> Result<(), Fail>
    requires { IsId id }
{
    require_up(node)?;
    require(knows_node(node, id) == Ok(known), "a node")?;
    require_up(node)?;
    require(is_dropped(node, id) == Ok(false), "a dropped node")
}

/// Which node the first one knows as the origin of the set of this id, which no node receives.
fn expect_set(node: &mut Database<MemKeeper>, id: u32, reign: Option<Reign>) -> Result<(), Fail>
    requires { IsId id }
{
    require_up(node)?;
    require(
        knows_set(node, id) == Ok(reign.is_some()),
        "whether there is the set",
    )?;
    require_up(node)?;
    require(set_reign(node, id) == Ok(reign), "who leads the set")?;
    require_up(node)?;
    require(first_receiver(node, id) == Ok(None), "a receiver")
}

/// What the first node knows of its cluster.
fn expect_knowledge(alloc: Global, node: &mut Database<MemKeeper>) -> Result<(), Fail> {
    expect_node(node, 1, true)?;
    expect_node(node, 2, true)?;
    expect_node(node, 3, false)?;
    expect_set(node, 1, Some(Reign { origin: 1, era: 1 }))?;
    expect_set(node, 2, None)?;
    require_up(node)?;
    require(knows_path(node, 1, 2) == Ok(false), "a path")?;
    require_up(node)?;
    require(knows_table(node, 7) == Ok(true), "a table of a set")?;
    require_up(node)?;
    require(knows_table(node, 1) == Ok(false), "no table of a set")?;
    expect_tables(alloc, node)
}

/// And which tables there are, and which are written.
fn expect_tables(alloc: Global, node: &mut Database<MemKeeper>) -> Result<(), Fail> {
    for (name, used, there, written) in [
        ("public.t", true, true, Some(1)),
        ("public.u", false, true, None),
        ("public.v", false, false, None),
    ] {
        let text = Text::from_str(alloc, name)?;
        require_up(node)?;
        require(names_table(node, &text) == Ok(used), "a name")?;
        require_up(node)?;
        require(has_table(node, &text) == Ok(there), "a table")?;
        expect_writer(alloc, node, name, written)?;
    }
    Ok(())
}

/// And which open transaction wrote a table.
fn expect_writer(
    alloc: Global,
    node: &mut Database<MemKeeper>,
    name: &str,
    written: Option<u64>,
) -> Result<(), Fail> {
    let Ok(text) = Text::from_str(alloc, name) else {
        return Err(Fail::new("no memory"));
    };
    require_up(node)?;
    if text.as_slice().len() > 31 {
        return Err(Fail::new("a long name"));
    }
    require(
        writer(node, array::from_ref(&text)) == Ok(written),
        "a writer",
    )
}

/// A transaction that stays open.
const WRITTEN: &[(&str, &str)] = &[
    ("table a public.t 2", "ok"),
    ("table a public.u 2", "ok"),
    ("begin a x", "ok xid 1"),
    ("insert a x public.t k 1", "ok action 1"),
];

/// The database becomes the first node, and is asked what it knows.
fn found_and_ask(alloc: Global, node: &mut Database<MemKeeper>) -> Result<(), Fail> {
    require(found(alloc, node)? == Ok(false), "the node")?;
    configure(alloc, node)?;
    expect_lines(alloc, node, WRITTEN)?;
    expect_knowledge(alloc, node)
}

#[test]
fn nodes_are_asked(rt: HostRuntime) -> Result<(), Fail> {
    let mut node = create(rt.alloc(), 0, false)?;
    let done = found_and_ask(rt.alloc(), &mut node);
    drop(node);
    done
}
