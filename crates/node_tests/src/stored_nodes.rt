// What is read of nodes and their logs in the rows of a store.
ghost use Rattle.std.specs.Prelude.{◌≡◌, ◌<◌, ◌^◌, is_some, false, IfOk, OnOk};
ghost use Rattle.change_capture.specs.Spellings.{CanLogRow};

use change_capture::LogRow;
use log_switch::{append, between};
use node_change::{find_node_row, found_node, has_path, join_node, known};
use node_keeper::{Fuse, Keeper, MemKeeper};
use node_state::find_node;
use slon_base::Text;
use std::alloc::Global;
use std::test::Fail;
use store_rows::{Stop, read_alone};
use test_words::{expect, require};
use txn_core::Snapshot;

/// The space of the first log.
pub(crate) const LOG: u8 = 15;

/// Two rows of the log of transaction 7 on table 2.
const LOGGED: &[(u64, &[u8], &[u8])] = &[
    (
        3,
        b"\0\0\0\0\0\0\0\x01\0\0\0\0\0\0\0\x03",
        b"\0\0\0\0\0\0\0\x07\0\0\0\0\0\0\0\x02\0\0\0\x06public\0\0\0\x03t_2I\0\0\0\0\0\0\0\
          \0\0\0\0\x02\0\0\0\x011\0\0\0\x01p",
    ),
    (
        5,
        b"\0\0\0\0\0\0\0\x01\0\0\0\0\0\0\0\x05",
        b"\0\0\0\0\0\0\0\x07\0\0\0\0\0\0\0\x02\0\0\0\x01s\0\0\0\x01tD\0\0\0\0\0\0\0\0\0\0\
          \0\x02\0\0\0\x011\0\0\0\x01p",
    ),
];

/// The store holds the first node of a cluster.
pub(crate) fn found_first<K: Keeper>(alloc: Global, keeper: &mut K) -> Result<(), Fail>
    requires { is_some (K.kept keeper.old).pending ≡ false }
{
    let cluster = Text::from_str(alloc, "c")?;
    keeper.begin()?;
    found_node(alloc, keeper, 1, &cluster, &Text::from_str(alloc, "first")?)?;
    keeper.commit()?;
    Ok(())
}

/// The store `to` holds a further node.
pub(crate) fn join_second<F: Keeper, T: Keeper>(
    alloc: Global,
    from: &mut F,
    to: &mut T,
) -> Result<(), Fail>
    requires { is_some (T.kept to.old).pending ≡ false }
    ensures { OnOk result (is_some (T.kept to.new).pending ≡ false) }
{
    let cluster = Text::from_str(alloc, "c")?;
    to.begin()?;
    require(
        join_node(alloc, from, to, 1, 2, &cluster).is_ok(),
        "the second node",
    )?;
    to.commit()?;
    Ok(())
}

/// The store holds the node of this id.
fn expect_own<K: Keeper>(alloc: Global, keeper: &mut K, id: u32) -> Result<(), Fail> {
    let own = find_node(alloc, keeper)?;
    let is_own = own.id() == Some(id);
    drop(own);
    require(is_own, "the node")
}

/// The first node it knows is the first one.
fn expect_known<K: Keeper>(alloc: Global, keeper: &mut K) -> Result<(), Fail> {
    let nodes = known(alloc, keeper)?;
    let knows = nodes.as_slice().first() == Some(&1);
    drop(nodes);
    require(knows, "a known node")
}

/// It knows what the first node was stored with.
fn expect_first<K: Keeper>(alloc: Global, keeper: &mut K) -> Result<(), Fail> {
    match find_node_row(alloc, keeper, 1)? {
        Some(row) => expect("the first node", row.comment.as_str(), "first"),
        None => Err(Fail::new("no first node")),
    }
}

/// The store holds the node of this id, and what it knows of the first one.
fn expect_node<K: Keeper>(alloc: Global, keeper: &mut K, id: u32) -> Result<(), Fail> {
    expect_own(alloc, keeper, id)?;
    require(!has_path(alloc, keeper, 1, 2)?, "no path")?;
    expect_known(alloc, keeper)?;
    expect_first(alloc, keeper)
}

/// A second node in this store knows what the first one does.
fn expect_joined<F: Keeper, T: Keeper>(
    alloc: Global,
    first: &mut F,
    second: &mut T,
) -> Result<(), Fail>
    requires { is_some (T.kept second.old).pending ≡ false }
{
    join_second(alloc, first, second)?;
    expect_node(alloc, second, 2)
}

/// The same of a store that is made for it.
fn expect_second<F: Keeper>(alloc: Global, first: &mut F) -> Result<(), Fail> {
    let mut second = Fuse::new(MemKeeper::new(alloc, Vec::new(alloc), false)?);
    let done = expect_joined(alloc, first, &mut second);
    drop(second);
    done
}

/// The first node is stored, and a second one beside it.
fn expect_both<F: Keeper>(alloc: Global, first: &mut F) -> Result<(), Fail>
    requires { is_some (F.kept first.old).pending ≡ false }
{
    found_first(alloc, first)?;
    expect_second(alloc, first)?;
    expect_node(alloc, first, 1)
}

#[test]
fn new_nodes_know_what_they_are_given(rt: HostRuntime) -> Result<(), Fail> {
    let alloc = rt.alloc();
    let mut first = Fuse::new(MemKeeper::new(alloc, Vec::new(alloc), false)?);
    let done = expect_both(alloc, &mut first);
    drop(first);
    done
}

/// The row of the log that these bytes are.
pub(crate) fn row_of(alloc: Global, bytes: &[u8]) -> Result<LogRow, Stop>
    ensures { IfOk result CanLogRow }
{
    read_alone(alloc, LOG, bytes)
}

/// The first node logs a row.
pub(crate) fn log_row<K: Keeper>(
    alloc: Global,
    keeper: &mut K,
    number: u64,
    bytes: &[u8],
) -> Result<(), Fail>
    requires idle { is_some (K.kept keeper.old).pending ≡ false }
    requires small { number < 2 ^ 63 }
    ensures { OnOk result (is_some (K.kept keeper.new).pending ≡ false) }
{
    let rows = [(number, row_of(alloc, bytes)?)];
    keeper.begin()?;
    append(alloc, keeper, 1, &rows)?;
    keeper.commit()?;
    Ok(())
}

/// The numbers of the rows on this table that the second snapshot sees and the first one does not.
fn numbers_between<K: Keeper>(
    alloc: Global,
    keeper: &mut K,
    table: u32,
    old: &str,
    new: &str,
) -> Result<String, Fail> {
    let old = Snapshot::parse(alloc, old.as_bytes())?;
    let new = Snapshot::parse(alloc, new.as_bytes())?;
    let mut numbers = String::new(alloc);
    for (number, _) in between(alloc, keeper, 1, &[table], &old, &new)?.as_slice() {
        write!(numbers, "{number} ")?;
    }
    Ok(numbers)
}

/// A table, two snapshots, and the numbers of the rows between them.
const BETWEEN: &[(u32, &str, &str, &str)] = &[
    (2, "7:7:", "8:8:", "3 5 "),
    (2, "7:8:7", "9:9:", "3 5 "),
    (1, "7:7:", "8:8:", ""),
    (2, "8:8:", "9:9:", ""),
    (2, "7:7:", "7:9:7", ""),
];

/// The store has the bytes of both rows.
fn expect_bytes<K: Keeper>(keeper: &mut K) -> Result<(), Fail> {
    for (_, key, bytes) in LOGGED {
        let stored = keeper.get(LOG, key)?;
        require(
            stored.is_some_and(|b| b.as_slice() == *bytes),
            "the bytes of a row",
        )?;
    }
    Ok(())
}

/// The rows are found between the snapshots between which they stand.
fn expect_between<K: Keeper>(alloc: Global, keeper: &mut K) -> Result<(), Fail> {
    for (table, old, new, wanted) in BETWEEN {
        let numbers = numbers_between(alloc, keeper, *table, old, new)?;
        expect(new, numbers.as_str(), wanted)?;
    }
    Ok(())
}

/// Both rows are logged and read.
fn expect_logged<K: Keeper>(alloc: Global, keeper: &mut K) -> Result<(), Fail>
    requires { is_some (K.kept keeper.old).pending ≡ false }
{
    log_row(alloc, keeper, 3, LOGGED[0].2)?;
    log_row(alloc, keeper, 5, LOGGED[1].2)?;
    expect_bytes(keeper)?;
    expect_between(alloc, keeper)
}

#[test]
fn logged_rows_stand_between_snapshots(rt: HostRuntime) -> Result<(), Fail> {
    let alloc = rt.alloc();
    let mut keeper = Fuse::new(MemKeeper::new(alloc, Vec::new(alloc), false)?);
    let done = expect_logged(alloc, &mut keeper);
    drop(keeper);
    done
}
