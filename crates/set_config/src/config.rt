// What a node knows of the cluster, changed by events.
ghost use Rattle.std.specs.Prelude.{◌≡◌, ◌<◌, ◌^◌, true, is_some};
ghost use Rattle.slon_base.specs.Keeper.{Store};
ghost use Rattle.store_rows.specs.Rows.{IsId};
ghost use Rattle.store_rows.specs.Spending.{PutsUpTo};
ghost use Rattle.store_rows.specs.Steps.{Safe};
ghost use Rattle.store_rows.specs.Space.{IsPending, Becomes};
ghost use Rattle.node_rows.specs.Reading.{IsFeeding};
ghost use Rattle.node_rows.specs.Spellings.{CanBody};
ghost use Rattle.slon_model.specs.Config.{Config, change_by};
ghost use Rattle.slon_model.specs.Events.{is_sync};
ghost use Rattle.set_config.specs.Holds.{Shows};

use crate::handing::{drop_set, move_set, take_over};
use crate::nodes::{drop_node, store_node};
use crate::paths::{drop_path, store_path};
use crate::sets::{add_table, store_set};
use crate::subscriptions::{enable_subscription, subscribe_set, unsubscribe_set};
use node_rows::{Body, Subscription};
use slon_base::Keeper;
use std::alloc::Global;
use store_rows::Stop;

/// The change of a body that says who receives a set, or who is its origin.
fn change_feeding<K: Keeper>(
    alloc: Global,
    keeper: &mut K,
    origin: u32,
    number: u64,
    body: &Body,
) -> Result<(), Stop>
    requires opened { is_some (K.kept keeper.old).pending ≡ true }
    requires can { CanBody body.now }
    requires origin { IsId origin }
    requires number { number < 2 ^ 63 }
    requires kind { IsFeeding body.now }
    ensures safe { Safe (K.kept keeper.old) (K.kept keeper.new) result }
    ensures turns { (base : Store) (c : Config) → IsPending (Shows base c) (K.kept keeper.old) →
        Becomes (Shows base (change_by origin number body.now c)) (K.kept keeper.new) result }
{
    match body {
        Body::SubscribeSet {
            set,
            provider,
            receiver,
            forward,
        } => {
            let row = Subscription {
                provider: *provider,
                forward: *forward,
                mark: number,
            };
            subscribe_set(alloc, keeper, *set, *receiver, &row)
        }
        Body::EnableSubscription { set, receiver, .. } => {
            enable_subscription(alloc, keeper, *set, *receiver, number)
        }
        Body::UnsubscribeSet { set, receiver } => unsubscribe_set(alloc, keeper, *set, *receiver),
        Body::MoveSet {
            set,
            new,
            era,
            feeds,
            ..
        } => move_set(alloc, keeper, *set, *new, *era, feeds.as_slice()),
        Body::AcceptSet { .. } => Ok(()),
        Body::FailoverSet { sets, .. } => take_over(alloc, keeper, origin, sets.as_slice()),
        _ => unreachable!(),
    }
}

/// Makes in what is pending the change that the body of an event names, where `origin` emitted the event with this
/// number.
pub fn change<K: Keeper>(
    alloc: Global,
    keeper: &mut K,
    origin: u32,
    number: u64,
    body: &Body,
) -> Result<(), Stop>
    requires opened { is_some (K.kept keeper.old).pending ≡ true }
    requires can { CanBody body.now }
    requires origin { IsId origin }
    requires number { number < 2 ^ 63 }
    ensures safe { Safe (K.kept keeper.old) (K.kept keeper.new) result }
    ensures puts { is_sync body.now ≡ true → PutsUpTo 0 (K.kept keeper.old).puts (K.kept keeper.new).puts }
    ensures turns { (base : Store) (c : Config) → IsPending (Shows base c) (K.kept keeper.old) →
        Becomes (Shows base (change_by origin number body.now c)) (K.kept keeper.new) result }
{
    match body {
        Body::Sync => Ok(()),
        Body::StoreNode { node, comment } => store_node(alloc, keeper, *node, comment),
        Body::DropNode { node } => drop_node(alloc, keeper, *node),
        Body::StorePath {
            server,
            client,
            conninfo,
        } => store_path(alloc, keeper, *server, *client, conninfo),
        Body::DropPath { server, client } => drop_path(alloc, keeper, *server, *client),
        Body::StoreSet {
            set,
            origin,
            comment,
        } => store_set(alloc, keeper, *set, *origin, comment),
        Body::SetAddTable {
            set,
            table,
            name,
            comment,
        } => add_table(alloc, keeper, *set, *table, name, comment),
        Body::DropSet { set } => drop_set(alloc, keeper, *set),
        feeding => change_feeding(alloc, keeper, origin, number, feeding),
    }
}
