// Sets that are dropped, and sets that get another origin.
ghost use Rattle.std.specs.Prelude.{◌≡◌, ◌<◌, ◌^◌, if◌then◌else◌, true, false, is_some};
ghost use Rattle.slon_base.specs.Codec.{AllAre};
ghost use Rattle.slon_base.specs.Keeper.{Store};
ghost use Rattle.store_rows.specs.Rows.{IsId};
ghost use Rattle.store_rows.specs.Steps.{Safe};
ghost use Rattle.store_rows.specs.Space.{IsPending, Becomes};
ghost use Rattle.node_rows.specs.Spellings.{CanFeed, CanBeTaken};
ghost use Rattle.slon_model.specs.Maps.{without_entry};
ghost use Rattle.slon_model.specs.Config.{Config, changed_set, dropped_tables, set_row, handed, taken_over};
ghost use Rattle.set_config.specs.Holds.{Shows};

use crate::sets::{drop_tables, end_set, give_origin, is_live_set, unlock_set};
use crate::subscriptions::{clear_receivers, feed_receivers};
use slon_base::{Keeper, Many};
use std::alloc::Global;
use store_rows::Stop;

/// A receiver of a set: its id, that of its provider, and whether it forwards.
type Feed = (u32, (u32, bool));

/// A set is dropped, with its tables, and nobody receives it any longer.
pub(crate) fn drop_set<K: Keeper>(alloc: Global, keeper: &mut K, set: u32) -> Result<(), Stop>
    requires opened { is_some (K.kept keeper.old).pending ≡ true }
    requires can { IsId set }
    ensures safe { Safe (K.kept keeper.old) (K.kept keeper.new) result }
    ensures turns { (base : Store) (c : Config) → IsPending (Shows base c) (K.kept keeper.old) →
        Becomes (Shows base (changed_set set (λ row. record row { live = false }) (record c {
          tables = dropped_tables set c.tables;
          subscriptions = without_entry set c.subscriptions;
        }))) (K.kept keeper.new) result }
{
    end_set(alloc, keeper, set)?;
    drop_tables(alloc, keeper, set)?;
    clear_receivers(alloc, keeper, set)
}

/// A set gets another origin in another era, and other receivers.
fn hand_set<K: Keeper>(
    alloc: Global,
    keeper: &mut K,
    set: u32,
    origin: u32,
    era: u64,
    feeds: &[Feed],
) -> Result<(), Stop>
    requires opened { is_some (K.kept keeper.old).pending ≡ true }
    requires can { IsId set × IsId origin × (era < 2 ^ 63) × AllAre CanFeed feeds.now }
    ensures safe { Safe (K.kept keeper.old) (K.kept keeper.new) result }
    ensures turns { (base : Store) (c : Config) → IsPending (Shows base c) (K.kept keeper.old) →
        Becomes (Shows base (handed set origin era feeds.now c)) (K.kept keeper.new) result }
{
    give_origin(alloc, keeper, set, origin, era)?;
    clear_receivers(alloc, keeper, set)?;
    feed_receivers(alloc, keeper, set, feeds)
}

/// A set is handed by its origin to another node, and is open to clients there.
pub(crate) fn move_set<K: Keeper>(
    alloc: Global,
    keeper: &mut K,
    set: u32,
    origin: u32,
    era: u64,
    feeds: &[Feed],
) -> Result<(), Stop>
    requires opened { is_some (K.kept keeper.old).pending ≡ true }
    requires can { IsId set × IsId origin × (era < 2 ^ 63) × AllAre CanFeed feeds.now }
    ensures safe { Safe (K.kept keeper.old) (K.kept keeper.new) result }
    ensures turns { (base : Store) (c : Config) → IsPending (Shows base c) (K.kept keeper.old) →
        Becomes (Shows base (changed_set set (λ row. record row { locked = false })
        (handed set origin era feeds.now c))) (K.kept keeper.new) result }
{
    hand_set(alloc, keeper, set, origin, era, feeds)?;
    unlock_set(alloc, keeper, set)
}

/// The backup takes over a set, if it is live.
fn take_set<K: Keeper>(
    alloc: Global,
    keeper: &mut K,
    backup: u32,
    taken: &(u32, (u64, Many<Feed>)),
) -> Result<(), Stop>
    requires opened { is_some (K.kept keeper.old).pending ≡ true }
    requires can { IsId backup × CanBeTaken taken.now }
    ensures safe { Safe (K.kept keeper.old) (K.kept keeper.new) result }
    ensures turns { (base : Store) (c : Config) → IsPending (Shows base c) (K.kept keeper.old) →
        let s = taken.now in
        Becomes (Shows base (if is_some (set_row s.0 c) then handed s.0 backup s.1.0 s.1.1 c else c))
        (K.kept keeper.new) result }
{
    let (set, (era, feeds)) = taken;
    if is_live_set(alloc, keeper, *set)? {
        return hand_set(alloc, keeper, *set, backup, *era, feeds.as_slice());
    }
    Ok(())
}

/// The backup takes over those of these sets that are live. Where two name one set, the first stands.
pub(crate) fn take_over<K: Keeper>(
    alloc: Global,
    keeper: &mut K,
    backup: u32,
    sets: &[(u32, (u64, Many<Feed>))],
) -> Result<(), Stop>
    requires opened { is_some (K.kept keeper.old).pending ≡ true }
    requires can { IsId backup × AllAre CanBeTaken sets.now }
    ensures safe { Safe (K.kept keeper.old) (K.kept keeper.new) result }
    ensures turns { (base : Store) (c : Config) → IsPending (Shows base c) (K.kept keeper.old) →
        Becomes (Shows base (taken_over backup sets.now c)) (K.kept keeper.new) result }
{
    for index in (0..sets.len()).rev() {
        take_set(alloc, keeper, backup, &sets[index])?;
    }
    Ok(())
}
