// Sets that are dropped, moved and taken over, in the rows of a store, and what is loaded of the rows.
ghost use Rattle.std.specs.Prelude.{◌≡◌, is_some, false, IfOk, OnOk};
ghost use Rattle.node_rows.specs.Spellings.{CanBody};

use node_keeper::{Fuse, Keeper, MemKeeper};
use node_rows::{Body, SetRow, Subscription, TableRow};
use set_config::{Config, change, load};
use std::alloc::Global;
use std::test::Fail;
use store_rows::{Stop, read_alone};
use test_words::{expect, require};

/// Of two sets with three tables and three subscriptions: the space, the key and the value of each row.
const ROWS: &[(u8, &[u8], &[u8])] = &[
    (
        6,
        b"\0\0\0\0\0\0\0\x01",
        b"\0\0\0\0\0\0\0\x01\0\0\0\0\0\0\0\x04\x01\x01\0\0\0\x01a",
    ),
    (
        6,
        b"\0\0\0\0\0\0\0\x02",
        b"\0\0\0\0\0\0\0\x01\0\0\0\0\0\0\0\x01\0\x01\0\0\0\0",
    ),
    (
        7,
        b"\0\0\0\0\0\0\0\x07",
        b"\0\0\0\0\0\0\0\x01\0\0\0\x03p.t\x01\0\0\0\0",
    ),
    (
        7,
        b"\0\0\0\0\0\0\0\x08",
        b"\0\0\0\0\0\0\0\x02\0\0\0\x03p.u\x01\0\0\0\0",
    ),
    (
        7,
        b"\0\0\0\0\0\0\0\x09",
        b"\0\0\0\0\0\0\0\x01\0\0\0\x03p.v\x01\0\0\0\0",
    ),
    (
        8,
        b"\0\0\0\0\0\0\0\x01\0\0\0\0\0\0\0\x02",
        b"\0\0\0\0\0\0\0\x01\x01\0\0\0\0\0\0\0\x05",
    ),
    (
        8,
        b"\0\0\0\0\0\0\0\x01\0\0\0\0\0\0\0\x03",
        b"\0\0\0\0\0\0\0\x02\0\0\0\0\0\0\0\0\x06",
    ),
    (
        8,
        b"\0\0\0\0\0\0\0\x02\0\0\0\0\0\0\0\x01",
        b"\0\0\0\0\0\0\0\x03\0\0\0\0\0\0\0\0\x07",
    ),
];

/// The store holds these rows.
fn fill<K: Keeper>(keeper: &mut K) -> Result<(), Fail>
    requires { is_some (K.kept keeper.old).pending ≡ false }
    ensures { OnOk result (is_some (K.kept keeper.new).pending ≡ false) }
{
    keeper.begin()?;
    for (space, key, value) in ROWS {
        keeper.put(*space, key, value)?;
    }
    keeper.commit()?;
    Ok(())
}

/// What the rows say, where nothing was changed yet.
const BEFORE: &str = "set 1 of 1 in 4 locked live, set 2 of 1 in 1 open live, \
     table 7 of 1 live, table 8 of 2 live, table 9 of 1 live, \
     1 to 2 from 1 on to others since 5, 1 to 3 from 2 since 6, 2 to 1 from 3 since 7, ";

/// The body of an event of node 2, spelled, and what the rows say once it is carried out.
const CHANGES: &[(&[u8], &str)] = &[
    (
        b"\x07\0\0\0\0\0\0\0\x01",
        "set 1 of 1 in 4 locked dropped, set 2 of 1 in 1 open live, \
         table 7 of 1 dropped, table 8 of 2 live, table 9 of 1 dropped, \
         2 to 1 from 3 since 7, ",
    ),
    (
        // To node 2 in era 5, with feeds of 3 from 2, of 3 from 1 on to others, and of 1 from 2 on to others.
        b"\x0c\0\0\0\0\0\0\0\x01\0\0\0\0\0\0\0\x01\0\0\0\0\0\0\0\x02\0\0\0\0\0\0\0\x05\0\0\0\x03\
          \0\0\0\0\0\0\0\x03\0\0\0\0\0\0\0\x02\0\0\0\0\0\0\0\0\x03\0\0\0\0\0\0\0\x01\x01\
          \0\0\0\0\0\0\0\x01\0\0\0\0\0\0\0\x02\x01",
        "set 1 of 2 in 5 open live, set 2 of 1 in 1 open live, \
         table 7 of 1 live, table 8 of 2 live, table 9 of 1 live, \
         1 to 1 from 2 on to others since 0, 1 to 3 from 2 since 0, 2 to 1 from 3 since 7, ",
    ),
    (
        // Of node 1 the set 1 in era 6 with a feed of 3 from 2, the set 1 in era 9 with none, and the set 4.
        b"\x0e\0\0\0\0\0\0\0\x01\0\0\0\0\0\0\0\x0b\0\0\0\x03\
          \0\0\0\0\0\0\0\x01\0\0\0\0\0\0\0\x06\0\0\0\x01\0\0\0\0\0\0\0\x03\0\0\0\0\0\0\0\x02\0\
          \0\0\0\0\0\0\0\x01\0\0\0\0\0\0\0\x09\0\0\0\0\0\0\0\0\0\0\0\x04\0\0\0\0\0\0\0\x02\0\0\0\0",
        "set 1 of 2 in 6 locked live, set 2 of 1 in 1 open live, \
         table 7 of 1 live, table 8 of 2 live, table 9 of 1 live, \
         1 to 3 from 2 since 0, 2 to 1 from 3 since 7, ",
    ),
];

fn life(live: bool) -> &'static str {
    if live { "live" } else { "dropped" }
}

fn tell_sets(sets: &[(u32, SetRow)], out: &mut String) -> Result<(), Fail> {
    for (set, row) in sets {
        let lock = if row.locked { "locked" } else { "open" };
        let (origin, era, life) = (row.origin, row.era, life(row.live));
        write!(out, "set {set} of {origin} in {era} {lock} {life}, ")?;
    }
    Ok(())
}

fn tell_tables(tables: &[(u32, TableRow)], out: &mut String) -> Result<(), Fail> {
    for (table, row) in tables {
        let (set, life) = (row.set_id, life(row.live));
        write!(out, "table {table} of {set} {life}, ")?;
    }
    Ok(())
}

fn tell_receivers(rows: &[((u32, u32), Subscription)], out: &mut String) -> Result<(), Fail> {
    for ((set, receiver), row) in rows {
        let on = if row.forward { " on to others" } else { "" };
        let (provider, mark) = (row.provider, row.mark);
        write!(
            out,
            "{set} to {receiver} from {provider}{on} since {mark}, "
        )?;
    }
    Ok(())
}

/// What the rows say.
fn tell(alloc: Global, config: &Config) -> Result<String, Fail> {
    let mut out = String::new(alloc);
    tell_sets(config.sets.as_slice(), &mut out)?;
    tell_tables(config.tables.as_slice(), &mut out)?;
    tell_receivers(config.subscriptions.as_slice(), &mut out)?;
    Ok(out)
}

/// The rows of the store say this, and there is nothing else of a configuration.
fn expect_rows<K: Keeper>(alloc: Global, keeper: &mut K, wanted: &str) -> Result<(), Fail> {
    let config = load(alloc, keeper)?;
    let others = config.nodes.len() == 0 && config.paths.len() == 0 && config.fences.len() == 0;
    require(others, "no other rows")?;
    expect("the rows", tell(alloc, &config)?.as_str(), wanted)
}

fn body_of(alloc: Global, bytes: &[u8]) -> Result<Body, Stop>
    ensures { IfOk result CanBody }
{
    read_alone(alloc, 10, bytes)
}

/// Carries out an event of node 2 in a transaction. Whether no call failed.
fn carry_out<K: Keeper>(alloc: Global, keeper: &mut K, body: &Body) -> bool
    requires idle { is_some (K.kept keeper.old).pending ≡ false }
    requires can { CanBody body.now }
{
    if keeper.begin().is_err() {
        return false;
    }
    change(alloc, keeper, 2, 12, body).is_ok() && keeper.commit().is_ok()
}

/// Carries out the event of these bytes where all calls from this one on fail. Whether none did.
fn try_out(alloc: Global, calls: u64, bytes: &[u8], wanted: &str) -> Result<bool, Fail> {
    let mut keeper = Fuse::new(MemKeeper::new(alloc, Vec::new(alloc), false)?);
    fill(&mut keeper)?;
    let body = body_of(alloc, bytes)?;
    keeper.arm(calls, false);
    let done = carry_out(alloc, &mut keeper, &body);
    keeper.disarm();
    if !done {
        keeper.rollback()?;
    }
    expect_rows(alloc, &mut keeper, if done { wanted } else { BEFORE })?;
    Ok(done)
}

/// Carries out the event of these bytes, while one call after the other is the first that fails, until none does.
fn try_each(alloc: Global, bytes: &[u8], wanted: &str) -> Result<(), Fail> {
    for calls in 0..40 {
        if try_out(alloc, calls, bytes, wanted)? {
            return Ok(());
        }
    }
    Err(Fail::new("40 calls and more"))
}

#[test]
fn sets_are_dropped_and_handed(rt: HostRuntime) -> Result<(), Fail> {
    for (bytes, wanted) in CHANGES {
        try_each(rt.alloc(), bytes, wanted)?;
    }
    Ok(())
}
