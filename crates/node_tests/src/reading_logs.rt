// What a database reads of its log for another node: the rows on tables that are asked for, with their actions.
ghost use Rattle.std.specs.Prelude.{◌≡◌, is_some, true, false, IfOk};
ghost use Rattle.store_rows.specs.Rows.{IsId};
ghost use Rattle.node_store.specs.Bringing.{CanLogAll};

use crate::nodes::create;
use app_store::{Database, DbFault};
use node_keeper::{Keeper, MemKeeper};
use node_store::{LoggedRows, knows_forwarder, read_log};
use slon_base::{Halt, Text};
use std::alloc::Global;
use std::array;
use std::test::Fail;
use test_words::{expect, require};
use txn_core::Snapshot;

/// What stands in a store: a space, a key of it, and the value there.
pub(crate) type Pair = (u8, &'static [u8], &'static [u8]);

/// Puts a pair, in a transaction of its own.
fn put_alone<K: Keeper>(keeper: &mut K, pair: &Pair) -> Result<(), Fail>
    requires { is_some (K.kept keeper.old).pending ≡ false }
{
    keeper.begin()?;
    keeper.put(pair.0, pair.1, pair.2)?;
    keeper.commit()?;
    Ok(())
}

/// A database goes down, and its store has this pair as it comes up again.
fn hold(database: &mut Database<MemKeeper>, pair: &Pair) -> Result<(), Fail> {
    if !database.is_up() {
        return Err(Fail::new("a database that is down"));
    }
    database.state.take_down(database.alloc);
    put_alone(&mut database.keeper, pair)?;
    require(database.up().is_ok(), "the database up again")
}

/// The same of several pairs.
pub(crate) fn hold_all(database: &mut Database<MemKeeper>, pairs: &[Pair]) -> Result<(), Fail> {
    for pair in pairs {
        hold(database, pair)?;
    }
    Ok(())
}

/// Rows of a log with the numbers 3, 4 and 5 of node 1, and one of node 2. Transaction 7 puts a row into `public.t`,
/// which is table 2, and one into `public.u`, which is table 3; transaction 8 changes the first one.
pub(crate) const LOGGED: &[Pair] = &[
    (
        15,
        b"\0\0\0\0\0\0\0\x01\0\0\0\0\0\0\0\x03",
        b"\0\0\0\0\0\0\0\x07\0\0\0\0\0\0\0\x02\0\0\0\x06public\0\0\0\x01tI\0\0\0\0\0\0\0\0\
          \0\0\0\x04\0\0\0\x011\0\0\0\x01p\0\0\0\x012\0\0\0\x015",
    ),
    (
        15,
        b"\0\0\0\0\0\0\0\x01\0\0\0\0\0\0\0\x04",
        b"\0\0\0\0\0\0\0\x07\0\0\0\0\0\0\0\x03\0\0\0\x06public\0\0\0\x01uI\0\0\0\0\0\0\0\0\
          \0\0\0\x02\0\0\0\x011\0\0\0\x01q",
    ),
    (
        15,
        b"\0\0\0\0\0\0\0\x01\0\0\0\0\0\0\0\x05",
        b"\0\0\0\0\0\0\0\x08\0\0\0\0\0\0\0\x02\0\0\0\x06public\0\0\0\x01tU\0\0\0\0\0\0\0\x01\
          \0\0\0\x04\0\0\0\x012\0\0\0\x017\0\0\0\x011\0\0\0\x01p",
    ),
    (
        15,
        b"\0\0\0\0\0\0\0\x02\0\0\0\0\0\0\0\x03",
        b"\0\0\0\0\0\0\0\x07\0\0\0\0\0\0\0\x02\0\0\0\x06public\0\0\0\x01tI\0\0\0\0\0\0\0\0\
          \0\0\0\x02\0\0\0\x011\0\0\0\x01r",
    ),
];

/// A row that is that of no action: its command deletes, and it names no key.
const OF_NO_ACTION: Pair = (
    15,
    b"\0\0\0\0\0\0\0\x01\0\0\0\0\0\0\0\x06",
    b"\0\0\0\0\0\0\0\x07\0\0\0\0\0\0\0\x02\0\0\0\x06public\0\0\0\x01tD\0\0\0\0\0\0\0\0\0\0\0\0",
);

/// The id and the name of a table, two snapshots, and the number of an action from which on the log is read.
pub(crate) type Ask = (u32, &'static str, &'static str, &'static str, u64);

/// What is read of the log of node 1 on this table, between the snapshots of these texts.
fn read_between(
    alloc: Global,
    database: &mut Database<MemKeeper>,
    table: &(u32, Text),
    ask: &Ask,
) -> Result<Result<LoggedRows, DbFault>, Fail>
    requires { database.old.state.up ≡ true }
    ensures { IfOk result (λ read. IfOk read (λ found. CanLogAll found.rows found.actions)) }
{
    let old = Snapshot::parse(alloc, ask.2.as_bytes())?;
    let new = Snapshot::parse(alloc, ask.3.as_bytes())?;
    Ok(read_log(database, 1, ask.4, array::from_ref(table), &old, &new))
}

/// What a database that is up reads of it.
pub(crate) fn read(
    alloc: Global,
    database: &mut Database<MemKeeper>,
    ask: &Ask,
) -> Result<Result<LoggedRows, DbFault>, Fail>
    ensures { IfOk result (λ read. IfOk read (λ found. CanLogAll found.rows found.actions)) }
{
    if !database.is_up() {
        return Err(Fail::new("a database that is down"));
    }
    let table = (ask.0, Text::from_str(alloc, ask.1)?);
    read_between(alloc, database, &table, ask)
}

/// The number and the transaction of each row, and the number of each action.
fn tell(alloc: Global, found: &LoggedRows) -> Result<String, Fail> {
    let mut line = String::new(alloc);
    for (number, row) in found.rows.as_slice() {
        write!(line, "{number} of {} ", row.xid)?;
    }
    for action in found.actions.as_slice() {
        write!(line, "{} ", action.number)?;
    }
    Ok(line)
}

/// What was read, or the space of the row that is not in its form.
fn told(alloc: Global, read: &Result<LoggedRows, DbFault>) -> Result<String, Fail> {
    match read {
        Ok(found) => tell(alloc, found),
        Err(DbFault::Halt(Halt::BadRow { space })) => Ok(format!(in alloc; "bad row {space}")?),
        Err(_) => Err(Fail::new("another fault")),
    }
}

/// This is told of what was read.
fn expect_told(
    alloc: Global,
    read: &Result<LoggedRows, DbFault>,
    of: &str,
    wanted: &str,
) -> Result<(), Fail> {
    expect(of, told(alloc, read)?.as_str(), wanted)
}

/// This is told of what is asked for.
fn expect_read(
    alloc: Global,
    database: &mut Database<MemKeeper>,
    ask: &Ask,
    wanted: &str,
) -> Result<(), Fail> {
    let read = read(alloc, database, ask)?;
    expect_told(alloc, &read, ask.1, wanted)
}

/// What is asked for, and what is told of it. A row is on a table only if it has the id and the name of the table.
const ASKED: &[(Ask, &str)] = &[
    ((2, "public.t", "7:7:", "9:9:", 0), "3 of 7 5 of 8 3 5 "),
    ((2, "public.t", "7:7:", "8:8:", 0), "3 of 7 3 "),
    ((2, "public.t", "8:8:", "9:9:", 0), "5 of 8 5 "),
    ((2, "public.t", "9:9:", "9:9:", 0), ""),
    ((3, "public.u", "7:8:7", "9:9:", 0), "4 of 7 4 "),
    ((2, "public.u", "7:7:", "9:9:", 0), ""),
    ((3, "public.t", "7:7:", "9:9:", 0), ""),
    // Where it is told that all below a number has ended, it does not look for that.
    ((2, "public.t", "7:7:", "9:9:", 4), "5 of 8 5 "),
    ((2, "public.t", "8:8:", "9:9:", 5), "5 of 8 5 "),
    // A number that no action has tells nothing.
    ((2, "public.t", "8:8:", "9:9:", u64::MAX), "5 of 8 5 "),
];

/// The same with a row of table 2 in the log that is that of no action. The database is down behind the second.
const ASKED_AT_LAST: &[(Ask, &str)] = &[
    ((3, "public.u", "7:7:", "9:9:", 0), "4 of 7 4 "),
    ((2, "public.t", "7:7:", "9:9:", 0), "bad row 15"),
];

/// The database is asked all of this.
fn expect_all(alloc: Global, database: &mut Database<MemKeeper>) -> Result<(), Fail> {
    hold_all(database, LOGGED)?;
    for (ask, wanted) in ASKED {
        expect_read(alloc, database, ask, wanted)?;
    }
    hold(database, &OF_NO_ACTION)?;
    for (ask, wanted) in ASKED_AT_LAST {
        expect_read(alloc, database, ask, wanted)?;
    }
    require(!database.is_up(), "the database is down")
}

#[test]
fn logs_are_read_between_snapshots(rt: HostRuntime) -> Result<(), Fail> {
    let mut database = create(rt.alloc(), 0, false)?;
    let done = expect_all(rt.alloc(), &mut database);
    drop(database);
    done
}

/// Node 2 receives set 1 from node 1 and forwards it, and node 3 receives it and does not.
const RECEIVERS: &[Pair] = &[
    (
        8,
        b"\0\0\0\0\0\0\0\x01\0\0\0\0\0\0\0\x02",
        b"\0\0\0\0\0\0\0\x01\x01\0\0\0\0\0\0\0\x09",
    ),
    (
        8,
        b"\0\0\0\0\0\0\0\x01\0\0\0\0\0\0\0\x03",
        b"\0\0\0\0\0\0\0\x01\0\0\0\0\0\0\0\0\x09",
    ),
];

/// Whether this node is known to forward the set.
fn expect_forwarder(
    database: &mut Database<MemKeeper>,
    set: u32,
    receiver: u32,
    wanted: bool,
) -> Result<(), Fail>
    requires { IsId set × IsId receiver }
{
    if !database.is_up() {
        return Err(Fail::new("a database that is down"));
    }
    require(
        knows_forwarder(database, set, receiver) == Ok(wanted),
        "whether a node forwards",
    )
}

/// The database knows who forwards.
fn expect_forwarders(database: &mut Database<MemKeeper>) -> Result<(), Fail> {
    hold_all(database, RECEIVERS)?;
    expect_forwarder(database, 1, 2, true)?;
    expect_forwarder(database, 1, 3, false)?;
    expect_forwarder(database, 1, 4, false)?;
    expect_forwarder(database, 2, 2, false)
}

#[test]
fn forwarders_are_known(rt: HostRuntime) -> Result<(), Fail> {
    let mut database = create(rt.alloc(), 0, false)?;
    let done = expect_forwarders(&mut database);
    drop(database);
    done
}
