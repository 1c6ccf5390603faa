// What stands in the store of a node that forwards a set, byte for byte, behind a SYNC that it applied.
ghost use Rattle.std.specs.Prelude.{Some, IfOk};
ghost use Rattle.std.specs.List.{AllByRecursion};
ghost use Rattle.event_store.specs.Kept.{seen_view};
ghost use Rattle.event_store.specs.Keeping.{KeepsViews};
ghost use Rattle.event_store.specs.Spellings.{CanSnapshot, CanView};
ghost use Rattle.txn_core.specs.Snapshots.{seen_as};
ghost use Rattle.node_store.specs.Bringing.{CanBring, CanLogAll, CanSync};

use crate::joining::join_second;
use crate::nodes::{create, found};
use crate::reading_logs::{LOGGED, Pair, hold_all, read};
use app_store::Database;
use event_store::{Event, View};
use node_keeper::{Keeper, MemKeeper};
use node_rows::Body;
use node_store::{Brought, LoggedRows, SetSync, apply};
use slon_base::Many;
use std::alloc::Global;
use std::test::Fail;
use test_words::require;
use txn_core::{Snapshot, XidList};

/// What node 2 holds behind event 2 of node 1, a SYNC with the snapshot 9:11:9. The row of its table is that of both
/// actions. It is as far in set 1 as the SYNC, in era 1, and logs since 7:7:. Its events are the one that stored node
/// 2, with the snapshot 1:1:, and the SYNC. It is as far as 2 in the stream of node 1, whose last event that is no SYNC
/// is 1.
const HELD: &[Pair] = &[
    (
        3,
        b"\0\0\0\x08public.t\0\0\0\x01p",
        b"\0\0\0\x01\0\0\0\x017",
    ),
    (
        9,
        b"\0\0\0\0\0\0\0\x01",
        b"\0\0\0\0\0\0\0\x01\0\0\0\0\0\0\0\x01\0\0\0\0\0\0\0\x02\
          \0\0\0\0\0\0\0\x09\0\0\0\0\0\0\0\x0b\0\0\0\x01\0\0\0\0\0\0\0\x09\
          \0\0\0\0\0\0\0\x01\0\0\0\0\0\0\0\x07\0\0\0\0\0\0\0\x07\0\0\0\0",
    ),
    (
        10,
        b"\0\0\0\0\0\0\0\x01\0\0\0\0\0\0\0\x01",
        b"\0\0\0\0\0\0\0\x01\0\0\0\0\0\0\0\x01\0\0\0\0\x02\0\0\0\0\0\0\0\x02\0\0\0\x06second",
    ),
    (
        10,
        b"\0\0\0\0\0\0\0\x01\0\0\0\0\0\0\0\x02",
        b"\0\0\0\0\0\0\0\x09\0\0\0\0\0\0\0\x0b\0\0\0\x01\0\0\0\0\0\0\0\x09\x01",
    ),
    (
        11,
        b"\0\0\0\0\0\0\0\x01\0\0\0\0\0\0\0\x02",
        b"\0\0\0\0\0\0\0\x02",
    ),
    (13, b"\0\0\0\0\0\0\0\x01", b"\0\0\0\0\0\0\0\x01"),
];

/// How many pairs these spaces have.
const COUNTS: &[(u8, u64)] = &[(3, 1), (9, 1), (10, 2), (11, 1), (13, 1)];

/// The rows that it logs too, if it forwards the set.
const FORWARDED: &[Pair] = &[
    (
        15,
        b"\0\0\0\0\0\0\0\x01\0\0\0\0\0\0\0\x03",
        b"\0\0\0\0\0\0\0\x07\0\0\0\0\0\0\0\x02\0\0\0\x06public\0\0\0\x01tI\0\0\0\0\0\0\0\0\
          \0\0\0\x04\0\0\0\x011\0\0\0\x01p\0\0\0\x012\0\0\0\x015",
    ),
    (
        15,
        b"\0\0\0\0\0\0\0\x01\0\0\0\0\0\0\0\x05",
        b"\0\0\0\0\0\0\0\x08\0\0\0\0\0\0\0\x02\0\0\0\x06public\0\0\0\x01tU\0\0\0\0\0\0\0\x01\
          \0\0\0\x04\0\0\0\x012\0\0\0\x017\0\0\0\x011\0\0\0\x01p",
    ),
];

/// The snapshot 9:11:9.
fn taken(alloc: Global) -> Result<Snapshot, Fail>
    ensures { IfOk result (λ s. CanSnapshot (seen_as s)) }
{
    let mut running = XidList::new(alloc);
    running.push(9)?;
    Ok(Snapshot {
        xmin: 9,
        xmax: 11,
        running,
    })
}

/// How far node 2 is in set 1.
fn view(alloc: Global) -> Result<View, Fail>
    ensures { IfOk result (λ v. CanView (seen_view v)) }
{
    Ok(View {
        era: 1,
        origin: 1,
        number: 2,
        seen: taken(alloc)?,
        base_era: 1,
        base: Snapshot {
            xmin: 7,
            xmax: 7,
            running: XidList::new(alloc),
        },
    })
}

/// The SYNC.
fn sync(alloc: Global) -> Result<Event, Fail>
    ensures { IfOk result (λ e. KeepsViews e.body) }
{
    Ok(Event {
        origin: 1,
        number: 2,
        taken: taken(alloc)?,
        body: Body::Sync,
    })
}

/// The rows of the log of node 1 on table 2 that the SYNC brings.
fn logged(alloc: Global, first: &mut Database<MemKeeper>) -> Result<LoggedRows, Fail>
    ensures { IfOk result (λ found. CanLogAll found.rows found.actions) }
{
    match read(alloc, first, &(2, "public.t", "7:7:", "9:11:9", 0))? {
        Ok(found) => Ok(found),
        Err(_) => Err(Fail::new("what is logged")),
    }
}

/// What node 2 takes of the set, where this was logged.
fn syncs(
    alloc: Global,
    view: View,
    logged: LoggedRows,
    forwards: bool,
) -> Result<Many<SetSync>, Fail>
    requires view { CanView (seen_view view) }
    requires logged { CanLogAll logged.rows logged.actions }
    ensures { IfOk result (AllByRecursion CanSync) }
{
    let mut syncs = Many::new(alloc);
    syncs.push(SetSync {
        set: 1,
        view,
        rows: logged.rows,
        actions: logged.actions,
        forwards,
    })?;
    Ok(syncs)
}

/// What the SYNC brings from node 1.
fn brought(alloc: Global, first: &mut Database<MemKeeper>, forwards: bool) -> Result<Brought, Fail>
    ensures { IfOk result (λ b. CanBring (Some b)) }
{
    let view = view(alloc)?;
    let logged = logged(alloc, first)?;
    Ok(Brought::Syncs(syncs(alloc, view, logged, forwards)?))
}

/// Node 2 applies the SYNC with what it brings.
fn take(
    alloc: Global,
    first: &mut Database<MemKeeper>,
    second: &mut Database<MemKeeper>,
    event: &Event,
    forwards: bool,
) -> Result<(), Fail>
    requires { KeepsViews event.now.body }
{
    if !second.is_up() || second.node_id().is_none() {
        return Err(Fail::new("no node that is up"));
    }
    let brought = brought(alloc, first, forwards)?;
    require(apply(second, event, Some(brought)) == Ok(false), "the SYNC")
}

/// Node 2 joins node 1, which logged this, and takes it.
fn join_and_take(
    alloc: Global,
    first: &mut Database<MemKeeper>,
    second: &mut Database<MemKeeper>,
    forwards: bool,
) -> Result<(), Fail> {
    require(found(alloc, first)? == Ok(false), "the first node")?;
    let joined = join_second(alloc, first, second)?;
    require(joined.is_ok(), "the second node")?;
    hold_all(first, LOGGED)?;
    let event = sync(alloc)?;
    let taken = take(alloc, first, second, &event, forwards);
    drop(event);
    taken
}

/// The same with a first node that is made for it.
fn take_of_a_first(
    alloc: Global,
    second: &mut Database<MemKeeper>,
    forwards: bool,
) -> Result<(), Fail> {
    let mut first = create(alloc, 0, false)?;
    let done = join_and_take(alloc, &mut first, second, forwards);
    drop(first);
    done
}

/// The store has these pairs.
fn expect_pairs<K: Keeper>(keeper: &mut K, pairs: &[Pair]) -> Result<(), Fail> {
    for (space, key, value) in pairs {
        let stored = keeper.get(*space, key)?;
        require(
            stored.is_some_and(|b| b.as_slice() == *value),
            "the bytes of a row",
        )?;
    }
    Ok(())
}

/// The spaces of the store have these pairs and no others.
fn expect_held<K: Keeper>(keeper: &mut K, logged: &[Pair], count: u64) -> Result<(), Fail> {
    expect_pairs(keeper, HELD)?;
    expect_pairs(keeper, logged)?;
    for (space, wanted) in COUNTS {
        require(keeper.count(*space)? == *wanted, "how many rows")?;
    }
    require(keeper.count(15)? == count, "how many rows are logged")
}

/// The database goes down, and its store is looked at.
fn expect_store(second: &mut Database<MemKeeper>, forwards: bool) -> Result<(), Fail> {
    second.state.take_down(second.alloc);
    if forwards {
        expect_held(&mut second.keeper, FORWARDED, 2)
    } else {
        expect_held(&mut second.keeper, &[], 0)
    }
}

/// Behind the SYNC the store of a second node holds what it is to hold.
fn expect_taken(
    alloc: Global,
    second: &mut Database<MemKeeper>,
    forwards: bool,
) -> Result<(), Fail> {
    take_of_a_first(alloc, second, forwards)?;
    expect_store(second, forwards)
}

/// The same of a database that is made for it.
fn take_at_a_second(alloc: Global, forwards: bool) -> Result<(), Fail> {
    let mut second = create(alloc, 0, false)?;
    let done = expect_taken(alloc, &mut second, forwards);
    drop(second);
    done
}

#[test]
fn forwarders_log_what_they_take(rt: HostRuntime) -> Result<(), Fail> {
    take_at_a_second(rt.alloc(), true)
}

#[test]
fn others_log_nothing_of_it(rt: HostRuntime) -> Result<(), Fail> {
    take_at_a_second(rt.alloc(), false)
}
