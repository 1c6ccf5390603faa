// Rows of more than one kind in the spaces of a store in memory.
ghost use Rattle.std.specs.Prelude.{◌≡◌, is_some, true, false, OnOk};

use node_keeper::{Fuse, Keeper, MemKeeper};
use slon_base::{Bytes, Many, Text};
use std::alloc::Global;
use std::test::Fail;
use store_rows::{Stop, del_row, get_row, has_row, put_row, read_alone, scan_rows, spelling};
use test_words::require;

/// The value of each row here.
type Value = (u64, bool);

/// Two rows in the space, of which a third is taken away.
fn fill<K: Keeper>(alloc: Global, keeper: &mut K) -> Result<(), Fail>
    requires { is_some (K.kept keeper.old).pending ≡ false }
{
    keeper.begin()?;
    put_row(alloc, keeper, 9, &3u32, &(700u64, true))?;
    put_row(alloc, keeper, 9, &1u32, &(5u64, true))?;
    put_row(alloc, keeper, 9, &2u32, &(6u64, true))?;
    del_row(alloc, keeper, 9, &2u32)?;
    keeper.commit()?;
    Ok(())
}

/// Whether just the two rows are found.
fn finds<K: Keeper>(alloc: Global, keeper: &mut K) -> Result<bool, Stop> {
    let found = get_row::<_, u32, Value>(alloc, keeper, 9, &3)?;
    Ok(found == Some((700, true)) && !has_row(alloc, keeper, 9, &2u32)?)
}

const LISTED: &[(u32, Value)] = &[(1, (5, true)), (3, (700, true))];

/// Whether the two rows come in the order of their keys.
fn lists<K: Keeper>(alloc: Global, keeper: &mut K) -> Result<bool, Stop> {
    let rows: Many<(u32, Value)> = scan_rows(alloc, keeper, 9, b"", b"")?;
    Ok(rows.as_slice() == LISTED)
}

/// The two rows are stored and read.
fn expect_stored<K: Keeper>(alloc: Global, keeper: &mut K) -> Result<(), Fail>
    requires { is_some (K.kept keeper.old).pending ≡ false }
{
    fill(alloc, keeper)?;
    require(finds(alloc, keeper)?, "the two rows")?;
    require(lists(alloc, keeper)?, "the two rows in order")
}

#[test]
fn rows_are_stored_and_read(rt: HostRuntime) -> Result<(), Fail> {
    let alloc = rt.alloc();
    let mut keeper = Fuse::new(MemKeeper::new(alloc, Vec::new(alloc), false)?);
    let done = expect_stored(alloc, &mut keeper);
    drop(keeper);
    done
}

/// How many texts are read of these bytes, in a row of the space 4.
fn count(alloc: Global, bytes: &[u8]) -> Result<usize, Stop> {
    let texts: Many<Text> = read_alone(alloc, 4, bytes)?;
    Ok(texts.len())
}

/// The row of one text.
fn one_text(alloc: Global) -> Result<Bytes, Fail> {
    let mut texts = Many::new(alloc);
    texts.push(Text::from_str(alloc, "a")?)?;
    Ok(spelling(alloc, &texts)?)
}

#[test]
fn texts_are_read(rt: HostRuntime) -> Result<(), Fail> {
    let spelled = one_text(rt.alloc())?;
    assert!(rt; count(rt.alloc(), spelled.as_slice()) == Ok(1));
    Ok(())
}

/// Bytes that are no row of texts.
const OTHER_BYTES: &[&[u8]] = &[
    b"",
    b"\0\0\0\x01",
    b"\0\0\0\0\0",
    b"\0\0\0\x01\0\0\0\x01\xff",
];

#[test]
fn other_bytes_are_no_rows(rt: HostRuntime) -> Result<(), Fail> {
    let bad = Stop::BadRow { space: 4 };
    for bytes in OTHER_BYTES {
        assert!(rt; count(rt.alloc(), bytes) == Err(bad), "{bytes:?}");
    }
    let read: Result<u32, Stop> = read_alone(rt.alloc(), 4, b"\0\0\0\0\0\0\0\0");
    assert!(rt; read == Err(bad));
    Ok(())
}
