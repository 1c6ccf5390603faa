// Rows of a log, applied to the rows of the tables of a store, and tables that are copied.
ghost use Rattle.std.specs.Prelude.{◌≡◌, ◌<◌, ◌^◌, is_some, false, OnOk};

use crate::stored_nodes::{LOG, log_row, row_of};
use change_apply::{apply_rows, replace_table, table_rows};
use log_switch::between_from;
use node_keeper::{Fuse, Keeper, MemKeeper};
use slon_base::{Text, TextList};
use std::alloc::Global;
use std::test::Fail;
use store_rows::{Stop, scan_rows};
use test_words::{expect, require};
use txn_core::Snapshot;

/// The space of the rows of tables.
const ROWS: u8 = 3;

/// Rows of the log of transaction 7 on table 2, which is `public.t`, each with its number, and what the table holds
/// after it.
const LOGGED: &[(u32, &[u8], &str)] = &[
    (
        1,
        b"\0\0\0\0\0\0\0\x07\0\0\0\0\0\0\0\x02\0\0\0\x06public\0\0\0\x01tI\0\0\0\0\0\0\0\0\
          \0\0\0\x04\0\0\0\x011\0\0\0\x01p\0\0\0\x012\0\0\0\x015",
        "p=5 ",
    ),
    (
        2,
        b"\0\0\0\0\0\0\0\x07\0\0\0\0\0\0\0\x02\0\0\0\x06public\0\0\0\x01tI\0\0\0\0\0\0\0\0\
          \0\0\0\x04\0\0\0\x011\0\0\0\x01q\0\0\0\x012\0\0\0\x016",
        "p=5 q=6 ",
    ),
    (
        3,
        b"\0\0\0\0\0\0\0\x07\0\0\0\0\0\0\0\x02\0\0\0\x06public\0\0\0\x01tU\0\0\0\0\0\0\0\x01\
          \0\0\0\x04\0\0\0\x012\0\0\0\x017\0\0\0\x011\0\0\0\x01p",
        "p=7 q=6 ",
    ),
    (
        4,
        b"\0\0\0\0\0\0\0\x07\0\0\0\0\0\0\0\x02\0\0\0\x06public\0\0\0\x01tU\0\0\0\0\0\0\0\x01\
          \0\0\0\x04\0\0\0\x012\0\0\0\x018\0\0\0\x011\0\0\0\x01r",
        "p=7 q=6 ",
    ),
    (
        5,
        b"\0\0\0\0\0\0\0\x07\0\0\0\0\0\0\0\x02\0\0\0\x06public\0\0\0\x01tD\0\0\0\0\0\0\0\0\
          \0\0\0\x02\0\0\0\x011\0\0\0\x01q",
        "p=7 ",
    ),
];

/// A row of the log that is that of no action: its command deletes, and it names no key.
const OF_NO_ACTION: &[u8] =
    b"\0\0\0\0\0\0\0\x07\0\0\0\0\0\0\0\x02\0\0\0\x06public\0\0\0\x01tD\0\0\0\0\0\0\0\0\0\0\0\0";

/// The key and the value of each row of the tables of the store.
fn tell_rows<K: Keeper>(alloc: Global, keeper: &mut K) -> Result<String, Fail>
    ensures { OnOk result ((K.kept keeper.new).pending ≡ (K.kept keeper.old).pending) }
{
    let mut line = String::new(alloc);
    for (key, row) in scan_rows::<K, (Text, Text), TextList>(
        alloc,
        keeper,
        ROWS,
        &[],
        &[],
    )?.as_slice()
    {
        for value in row.as_slice() {
            write!(line, "{}={} ", key.1.as_str(), value.as_str())?;
        }
    }
    Ok(line)
}

/// Applies what the store logged from this number on.
fn apply_from<K: Keeper>(alloc: Global, keeper: &mut K, first: u64) -> Result<(), Fail>
    requires idle { is_some (K.kept keeper.old).pending ≡ false }
    requires small { first < 2 ^ 63 }
    ensures { OnOk result (is_some (K.kept keeper.new).pending ≡ false) }
{
    let old = Snapshot::parse(alloc, b"7:7:")?;
    let new = Snapshot::parse(alloc, b"8:8:")?;
    keeper.begin()?;
    let rows = between_from(alloc, keeper, 1, first, &[2], &old, &new)?;
    apply_rows(alloc, keeper, rows.as_slice())?;
    keeper.commit()?;
    Ok(())
}

/// The store logs a row, applies it, and holds the wanted rows.
fn expect_applied<K: Keeper>(
    alloc: Global,
    keeper: &mut K,
    logged: &(u32, &[u8], &str),
) -> Result<(), Fail>
    requires { is_some (K.kept keeper.old).pending ≡ false }
    ensures { OnOk result (is_some (K.kept keeper.new).pending ≡ false) }
{
    let (number, bytes, wanted) = logged;
    let number = u64::from(*number);
    log_row(alloc, keeper, number, bytes)?;
    apply_from(alloc, keeper, number)?;
    expect("the rows", tell_rows(alloc, keeper)?.as_str(), wanted)
}

/// The store holds what all rows make of the table, one after the other, and all of them again.
fn expect_all<K: Keeper>(alloc: Global, keeper: &mut K) -> Result<(), Fail>
    requires { is_some (K.kept keeper.old).pending ≡ false }
{
    expect_applied(alloc, keeper, &LOGGED[0])?;
    expect_applied(alloc, keeper, &LOGGED[1])?;
    expect_applied(alloc, keeper, &LOGGED[2])?;
    expect_applied(alloc, keeper, &LOGGED[3])?;
    expect_applied(alloc, keeper, &LOGGED[4])?;
    apply_from(alloc, keeper, 1)?;
    expect("all again", tell_rows(alloc, keeper)?.as_str(), "p=7 ")
}

#[test]
fn logged_rows_change_tables(rt: HostRuntime) -> Result<(), Fail> {
    let alloc = rt.alloc();
    let mut keeper = Fuse::new(MemKeeper::new(alloc, Vec::new(alloc), false)?);
    let done = expect_all(alloc, &mut keeper);
    drop(keeper);
    done
}

/// The table is copied from one store to the other, in the place of what the other one has of it.
fn copy_table<F: Keeper, T: Keeper>(alloc: Global, from: &mut F, to: &mut T) -> Result<(), Fail>
    requires { is_some (T.kept to.old).pending ≡ false }
    ensures same { OnOk result ((F.kept from.new).pending ≡ (F.kept from.old).pending) }
    ensures idle { OnOk result (is_some (T.kept to.new).pending ≡ false) }
{
    let table = Text::from_str(alloc, "public.t")?;
    let rows = table_rows(alloc, from, &table)?;
    to.begin()?;
    replace_table(alloc, to, &table, rows)?;
    to.commit()?;
    Ok(())
}

/// Behind two rows of the log of the first store the second one has these rows of the table.
fn expect_copied<F: Keeper, T: Keeper>(
    alloc: Global,
    first: &mut F,
    second: &mut T,
    logged: [&(u32, &[u8], &str); 2],
    wanted: &str,
) -> Result<(), Fail>
    requires first { is_some (F.kept first.old).pending ≡ false }
    requires second { is_some (T.kept second.old).pending ≡ false }
    ensures first { OnOk result (is_some (F.kept first.new).pending ≡ false) }
    ensures second { OnOk result (is_some (T.kept second.new).pending ≡ false) }
{
    expect_applied(alloc, first, logged[0])?;
    expect_applied(alloc, first, logged[1])?;
    copy_table(alloc, first, second)?;
    expect("a copy", tell_rows(alloc, second)?.as_str(), wanted)
}

/// The second store gets a copy of the table of the first one, and another one later.
fn expect_both<F: Keeper, T: Keeper>(
    alloc: Global,
    first: &mut F,
    second: &mut T,
) -> Result<(), Fail>
    requires first { is_some (F.kept first.old).pending ≡ false }
    requires second { is_some (T.kept second.old).pending ≡ false }
{
    let early = [&LOGGED[0], &LOGGED[1]];
    expect_copied(alloc, first, second, early, "p=5 q=6 ")?;
    expect_copied(alloc, first, second, [&LOGGED[2], &LOGGED[4]], "p=7 ")
}

/// The same over a second store that is made for it.
fn copy_twice<F: Keeper>(alloc: Global, first: &mut F) -> Result<(), Fail>
    requires { is_some (F.kept first.old).pending ≡ false }
{
    let mut second = Fuse::new(MemKeeper::new(alloc, Vec::new(alloc), false)?);
    let done = expect_both(alloc, first, &mut second);
    drop(second);
    done
}

#[test]
fn tables_are_copied(rt: HostRuntime) -> Result<(), Fail> {
    let alloc = rt.alloc();
    let mut first = Fuse::new(MemKeeper::new(alloc, Vec::new(alloc), false)?);
    let done = copy_twice(alloc, &mut first);
    drop(first);
    done
}

/// The row of no action is not applied.
fn expect_refused<K: Keeper>(alloc: Global, keeper: &mut K) -> Result<(), Fail>
    requires { is_some (K.kept keeper.old).pending ≡ false }
{
    let rows = [(1, row_of(alloc, OF_NO_ACTION)?)];
    keeper.begin()?;
    let stop = match apply_rows(alloc, keeper, &rows) {
        Ok(()) => None,
        Err(stop) => Some(stop),
    };
    require(
        matches!(stop, Some(Stop::BadRow { space: LOG })),
        "the row is refused",
    )
}

#[test]
fn a_row_of_no_action_stops_it(rt: HostRuntime) -> Result<(), Fail> {
    let alloc = rt.alloc();
    let mut keeper = Fuse::new(MemKeeper::new(alloc, Vec::new(alloc), false)?);
    let done = expect_refused(alloc, &mut keeper);
    drop(keeper);
    done
}
