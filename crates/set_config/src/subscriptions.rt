// Who receives which set, and from where.
ghost use Rattle.std.specs.Prelude.{◌≡◌, ◌<◌, ◌^◌, true, is_some, OnOk, IfErr};
ghost use Rattle.std.specs.Option.{option_map};
ghost use Rattle.slon_base.specs.Codec.{AllAre};
ghost use Rattle.slon_base.specs.Keeper.{Store};
ghost use Rattle.store_rows.specs.Rows.{IsId};
ghost use Rattle.store_rows.specs.Steps.{Safe, IsOutside};
ghost use Rattle.store_rows.specs.Space.{IsPending, Becomes};
ghost use Rattle.node_rows.specs.Spellings.{CanSubscription, CanFeed};
ghost use Rattle.slon_model.specs.Maps.{pair_at, with_pair, without_pair, without_entry};
ghost use Rattle.slon_model.specs.Config.{Config, named_node, enabled};
ghost use Rattle.set_config.specs.Holds.{Shows};
ghost use Rattle.set_config.specs.Rows.{each, take_receiver, with_feeds};

use crate::layout::SUBSCRIPTIONS;
use crate::nodes::name_node;
use node_rows::Subscription;
use slon_base::{Keeper, Many};
use std::alloc::Global;
use store_rows::{Stop, del_row, get_row, put_row, scan_rows, spelling};

/// The row of a subscription, as it is from now on.
fn put_subscription<K: Keeper>(
    alloc: Global,
    keeper: &mut K,
    set: u32,
    receiver: u32,
    row: &Subscription,
) -> Result<(), Stop>
    requires opened { is_some (K.kept keeper.old).pending ≡ true }
    requires can { IsId set × IsId receiver × CanSubscription row.now }
    ensures safe { Safe (K.kept keeper.old) (K.kept keeper.new) result }
    ensures turns { (base : Store) (c : Config) → IsPending (Shows base c) (K.kept keeper.old) →
        Becomes (Shows base (record c { subscriptions = with_pair set receiver row.now c.subscriptions }))
        (K.kept keeper.new) result }
{
    put_row(alloc, keeper, SUBSCRIPTIONS, &(set, receiver), row)
}

/// A node subscribes to a set, or changes how it does. It is heard of from then on.
pub(crate) fn subscribe_set<K: Keeper>(
    alloc: Global,
    keeper: &mut K,
    set: u32,
    receiver: u32,
    row: &Subscription,
) -> Result<(), Stop>
    requires opened { is_some (K.kept keeper.old).pending ≡ true }
    requires can { IsId set × IsId receiver × CanSubscription row.now }
    ensures safe { Safe (K.kept keeper.old) (K.kept keeper.new) result }
    ensures turns { (base : Store) (c : Config) → IsPending (Shows base c) (K.kept keeper.old) →
        Becomes (Shows base (record c {
          nodes = named_node receiver c.nodes;
          subscriptions = with_pair set receiver row.now c.subscriptions;
        })) (K.kept keeper.new) result }
{
    name_node(alloc, keeper, receiver)?;
    put_subscription(alloc, keeper, set, receiver, row)
}

/// A subscription that stands gets this number, which its receiver has to confirm before it counts as active.
pub(crate) fn enable_subscription<K: Keeper>(
    alloc: Global,
    keeper: &mut K,
    set: u32,
    receiver: u32,
    number: u64,
) -> Result<(), Stop>
    requires opened { is_some (K.kept keeper.old).pending ≡ true }
    requires can { IsId set × IsId receiver × (number < 2 ^ 63) }
    ensures safe { Safe (K.kept keeper.old) (K.kept keeper.new) result }
    ensures turns { (base : Store) (c : Config) → IsPending (Shows base c) (K.kept keeper.old) →
        let standing = pair_at set receiver c.subscriptions in
        Becomes (Shows base (record c { subscriptions = enabled set receiver number c.subscriptions standing }))
        (K.kept keeper.new) result }
{
    match get_row::<K, (u32, u32), Subscription>(alloc, keeper, SUBSCRIPTIONS, &(set, receiver))? {
        None => Ok(()),
        Some(row) => {
            let row = Subscription {
                mark: number,
                ..row
            };
            put_subscription(alloc, keeper, set, receiver, &row)
        }
    }
}

/// A node receives a set no longer.
pub(crate) fn unsubscribe_set<K: Keeper>(
    alloc: Global,
    keeper: &mut K,
    set: u32,
    receiver: u32,
) -> Result<(), Stop>
    requires opened { is_some (K.kept keeper.old).pending ≡ true }
    requires can { IsId set × IsId receiver }
    ensures safe { Safe (K.kept keeper.old) (K.kept keeper.new) result }
    ensures turns { (base : Store) (c : Config) → IsPending (Shows base c) (K.kept keeper.old) →
        Becomes (Shows base (record c { subscriptions = without_pair set receiver c.subscriptions }))
        (K.kept keeper.new) result }
{
    del_row(alloc, keeper, SUBSCRIPTIONS, &(set, receiver))
}

/// These nodes receive a set no longer.
fn drop_receivers<K: Keeper>(
    alloc: Global,
    keeper: &mut K,
    set: u32,
    rows: &[(u32, Subscription)],
) -> Result<(), Stop>
    requires opened { is_some (K.kept keeper.old).pending ≡ true }
    requires can { IsId set × AllAre (λ e. IsId e.0 × CanSubscription e.1) rows.now }
    ensures safe { Safe (K.kept keeper.old) (K.kept keeper.new) result }
    ensures only { IfErr result IsOutside }
    ensures put { OnOk result ((K.kept keeper.new).pending ≡
        option_map (option_map (each (take_receiver set) rows.now)) (K.kept keeper.old).pending) }
{
    for (receiver, _) in rows {
        del_row(alloc, keeper, SUBSCRIPTIONS, &(set, *receiver))?;
    }
    Ok(())
}

/// No node receives a set any longer.
pub(crate) fn clear_receivers<K: Keeper>(
    alloc: Global,
    keeper: &mut K,
    set: u32,
) -> Result<(), Stop>
    requires opened { is_some (K.kept keeper.old).pending ≡ true }
    requires can { IsId set }
    ensures safe { Safe (K.kept keeper.old) (K.kept keeper.new) result }
    ensures turns { (base : Store) (c : Config) → IsPending (Shows base c) (K.kept keeper.old) →
        Becomes (Shows base (record c { subscriptions = without_entry set c.subscriptions })) (K.kept keeper.new)
        result }
{
    let prefix = spelling(alloc, &set)?;
    let key = prefix.as_slice();
    let rows: Many<(u32, Subscription)> = scan_rows(alloc, keeper, SUBSCRIPTIONS, key, key)?;
    drop_receivers(alloc, keeper, set, rows.as_slice())
}

/// Nodes receive a set from these providers. Where two feeds name one receiver, the first stands.
pub(crate) fn feed_receivers<K: Keeper>(
    alloc: Global,
    keeper: &mut K,
    set: u32,
    feeds: &[(u32, (u32, bool))],
) -> Result<(), Stop>
    requires opened { is_some (K.kept keeper.old).pending ≡ true }
    requires can { IsId set × AllAre CanFeed feeds.now }
    ensures safe { Safe (K.kept keeper.old) (K.kept keeper.new) result }
    ensures turns { (base : Store) (c : Config) → IsPending (Shows base c) (K.kept keeper.old) →
        Becomes (Shows base (record c { subscriptions = with_feeds set feeds.now c.subscriptions }))
        (K.kept keeper.new) result }
{
    for index in (0..feeds.len()).rev() {
        let (receiver, (provider, forward)) = feeds[index];
        let row = Subscription {
            provider,
            forward,
            mark: 0,
        };
        put_subscription(alloc, keeper, set, receiver, &row)?;
    }
    Ok(())
}
