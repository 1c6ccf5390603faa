// The row of a subscription, looked up by its set and its receiver.
ghost use Rattle.std.specs.Prelude.{◌≡◌, is_some, false, OnOk};

use node_change::find_subscription;
use node_keeper::{Fuse, Keeper, MemKeeper};
use node_rows::Subscription;
use std::alloc::Global;
use std::test::Fail;
use store_rows::Stop;
use test_words::require;

/// The space of subscriptions.
const SUBSCRIPTIONS: u8 = 8;

/// The key of set 1 and node 2.
const KEY: &[u8] = b"\0\0\0\0\0\0\0\x01\0\0\0\0\0\0\0\x02";

/// From node 3, forwarded, with mark 9; from node 4, not forwarded, with no mark.
const ROWS: &[(&[u8], Subscription)] = &[
    (
        b"\0\0\0\0\0\0\0\x03\x01\0\0\0\0\0\0\0\x09",
        Subscription {
            provider: 3,
            forward: true,
            mark: 9,
        },
    ),
    (
        b"\0\0\0\0\0\0\0\x04\0\0\0\0\0\0\0\0\0",
        Subscription {
            provider: 4,
            forward: false,
            mark: 0,
        },
    ),
];

/// A row that is in no form: its provider is node 0.
const BAD: &[u8] = b"\0\0\0\0\0\0\0\0\x01\0\0\0\0\0\0\0\x09";

/// The store has this row.
fn put_row<K: Keeper>(keeper: &mut K, row: &[u8]) -> Result<(), Fail>
    requires { is_some (K.kept keeper.old).pending ≡ false }
    ensures { OnOk result (is_some (K.kept keeper.new).pending ≡ false) }
{
    keeper.begin()?;
    keeper.put(SUBSCRIPTIONS, KEY, row)?;
    keeper.commit()?;
    Ok(())
}

/// The store has this subscription of node 2 to set 1, and no other one.
fn expect_one<K: Keeper>(alloc: Global, keeper: &mut K, wanted: Subscription) -> Result<(), Fail> {
    let found = find_subscription(alloc, keeper, 1, 2)?;
    require(found == Some(wanted), "the subscription")?;
    require(
        find_subscription(alloc, keeper, 1, 3)?.is_none(),
        "another node",
    )?;
    require(
        find_subscription(alloc, keeper, 2, 2)?.is_none(),
        "another set",
    )
}

/// The store has this subscription once it has this row.
fn expect_put<K: Keeper>(
    alloc: Global,
    keeper: &mut K,
    row: &[u8],
    wanted: Subscription,
) -> Result<(), Fail>
    requires { is_some (K.kept keeper.old).pending ≡ false }
{
    put_row(keeper, row)?;
    expect_one(alloc, keeper, wanted)
}

/// The same of a store that is made for it.
fn expect_row(alloc: Global, row: &[u8], wanted: Subscription) -> Result<(), Fail> {
    let mut keeper = Fuse::new(MemKeeper::new(alloc, Vec::new(alloc), false)?);
    let done = expect_put(alloc, &mut keeper, row, wanted);
    drop(keeper);
    done
}

#[test]
fn subscriptions_are_found(rt: HostRuntime) -> Result<(), Fail> {
    for (row, wanted) in ROWS {
        expect_row(rt.alloc(), row, *wanted)?;
    }
    Ok(())
}

/// The row that is in no form is refused.
fn expect_refused<K: Keeper>(alloc: Global, keeper: &mut K) -> Result<(), Fail>
    requires { is_some (K.kept keeper.old).pending ≡ false }
{
    put_row(keeper, BAD)?;
    let found = find_subscription(alloc, keeper, 1, 2);
    require(
        matches!(
            found,
            Err(Stop::BadRow {
                space: SUBSCRIPTIONS
            })
        ),
        "a row that is in no form",
    )
}

#[test]
fn other_rows_of_subscriptions_are_not_read(rt: HostRuntime) -> Result<(), Fail> {
    let alloc = rt.alloc();
    let mut keeper = Fuse::new(MemKeeper::new(alloc, Vec::new(alloc), false)?);
    let done = expect_refused(alloc, &mut keeper);
    drop(keeper);
    done
}
