// What a node keeps of the sets that it subscribes to.
ghost use Rattle.std.specs.Prelude.{◌≡◌, is_some, false, OnOk};
ghost use Rattle.store_rows.specs.Rows.{IsId};

use event_store::{View, find_view, keep_view};
use node_keeper::{Fuse, Keeper, MemKeeper};
use std::alloc::{AllocError, Global};
use std::test::Fail;
use store_rows::Stop;
use test_words::{expect, require};

/// The space of what is kept of sets.
const VIEWS: u8 = 9;

/// The keys of sets 1 and 2.
const FIRST: &[u8] = b"\0\0\0\0\0\0\0\x01";

const SECOND: &[u8] = b"\0\0\0\0\0\0\0\x02";

/// Of era 3 at node 4, up to its event 5 with the snapshot 7:9:8, on the base 6:6: of era 2.
pub(crate) const VIEW: &[u8] = b"\0\0\0\0\0\0\0\x03\0\0\0\0\0\0\0\x04\0\0\0\0\0\0\0\x05\
    \0\0\0\0\0\0\0\x07\0\0\0\0\0\0\0\x09\0\0\0\x02\0\0\0\0\0\0\0\x07\0\0\0\0\0\0\0\x08\
    \0\0\0\0\0\0\0\x02\0\0\0\0\0\0\0\x06\0\0\0\0\0\0\0\x06\0\0\0\0";

/// Rows that are in no form: too short, with a byte behind, and of a node 0.
const BAD: &[&[u8]] = &[
    b"\0\0\0\0\0\0\0\x03\0\0\0\0\0\0\0\x04\0\0\0\0\0\0\0\x05",
    b"\0\0\0\0\0\0\0\x03\0\0\0\0\0\0\0\x04\0\0\0\0\0\0\0\x05\
      \0\0\0\0\0\0\0\x07\0\0\0\0\0\0\0\x07\0\0\0\0\
      \0\0\0\0\0\0\0\x02\0\0\0\0\0\0\0\x06\0\0\0\0\0\0\0\x06\0\0\0\0\0",
    b"\0\0\0\0\0\0\0\x03\0\0\0\0\0\0\0\0\0\0\0\0\0\0\0\x05\
      \0\0\0\0\0\0\0\x07\0\0\0\0\0\0\0\x07\0\0\0\0\
      \0\0\0\0\0\0\0\x02\0\0\0\0\0\0\0\x06\0\0\0\0\0\0\0\x06\0\0\0\0",
];

/// The store has this row for set 1.
pub(crate) fn put_first<K: Keeper>(keeper: &mut K, row: &[u8]) -> Result<(), Fail>
    requires { is_some (K.kept keeper.old).pending ≡ false }
    ensures { OnOk result (is_some (K.kept keeper.new).pending ≡ false) }
{
    keeper.begin()?;
    keeper.put(VIEWS, FIRST, row)?;
    keeper.commit()?;
    Ok(())
}

/// What is kept of set 1 is kept of set 2 too.
fn copy_first<K: Keeper>(alloc: Global, keeper: &mut K) -> Result<(), Fail>
    requires { is_some (K.kept keeper.old).pending ≡ false }
{
    keeper.begin()?;
    match find_view(alloc, keeper, 1)? {
        None => return Err(Fail::new("nothing is kept")),
        Some(view) => keep_view(alloc, keeper, 2, &view)?,
    }
    keeper.commit()?;
    Ok(())
}

/// The store has the bytes of the view for set 2.
fn expect_bytes<K: Keeper>(keeper: &mut K) -> Result<(), Fail> {
    let stored = keeper.get(VIEWS, SECOND)?;
    require(
        stored.is_some_and(|b| b.as_slice() == VIEW),
        "the bytes of a row",
    )
}

/// Tells a view.
fn tell(alloc: Global, view: &View) -> Result<String, AllocError> {
    let (seen, base) = (&view.seen, &view.base);
    let mut line = String::new(alloc);
    write!(line, "{} {} {} ", view.era, view.origin, view.number)?;
    write!(line, "{} {} ", seen.xmin, seen.xmax)?;
    write!(line, "{} {} {}", view.base_era, base.xmin, base.xmax)?;
    Ok(line)
}

/// What is kept of set 2 is this.
fn expect_kept<K: Keeper>(alloc: Global, keeper: &mut K, wanted: &str) -> Result<(), Fail> {
    match find_view(alloc, keeper, 2)? {
        None => Err(Fail::new("set 2")),
        Some(view) => {
            let line = tell(alloc, &view);
            drop(view);
            expect("set 2", line?.as_str(), wanted)
        }
    }
}

/// What is kept of set 1 is kept of set 2 too, and of no other one.
fn expect_copied<K: Keeper>(alloc: Global, keeper: &mut K) -> Result<(), Fail>
    requires { is_some (K.kept keeper.old).pending ≡ false }
{
    put_first(keeper, VIEW)?;
    copy_first(alloc, keeper)?;
    expect_bytes(keeper)?;
    expect_kept(alloc, keeper, "3 4 5 7 9 2 6 6")?;
    require(find_view(alloc, keeper, 3)?.is_none(), "set 3")
}

#[test]
fn what_is_kept_of_sets_is_read(rt: HostRuntime) -> Result<(), Fail> {
    let alloc = rt.alloc();
    let mut keeper = Fuse::new(MemKeeper::new(alloc, Vec::new(alloc), false)?);
    let done = expect_copied(alloc, &mut keeper);
    drop(keeper);
    done
}

/// The store stops who reads this row for set 1.
fn expect_stop<K: Keeper>(alloc: Global, keeper: &mut K, row: &[u8]) -> Result<(), Fail>
    requires { is_some (K.kept keeper.old).pending ≡ false }
{
    put_first(keeper, row)?;
    match find_view(alloc, keeper, 1) {
        Err(Stop::BadRow { space: VIEWS }) => Ok(()),
        _ => Err(Fail::new("a row that is in no form")),
    }
}

/// The same of a store that is made for it.
fn expect_refused(alloc: Global, row: &[u8]) -> Result<(), Fail> {
    let mut keeper = Fuse::new(MemKeeper::new(alloc, Vec::new(alloc), false)?);
    let done = expect_stop(alloc, &mut keeper, row);
    drop(keeper);
    done
}

#[test]
fn other_rows_of_sets_are_not_read(rt: HostRuntime) -> Result<(), Fail> {
    for row in BAD {
        expect_refused(rt.alloc(), row)?;
    }
    Ok(())
}
