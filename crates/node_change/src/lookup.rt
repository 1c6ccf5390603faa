// What statements look up of a node before they change it: one row each.
ghost use Rattle.std.specs.Prelude.{◌≡◌, ℕ, true, false, [], Some, OnOk, IfOk, IfErr, is_some};
ghost use Rattle.std.specs.FinMap.{get, entries};
ghost use Rattle.std.specs.Option.{option_map};
ghost use Rattle.slon_base.specs.Codec.{number_bytes};
ghost use Rattle.slon_base.specs.Keeper.{Store, sight, after, first};
ghost use Rattle.store_rows.specs.Rows.{IsId};
ghost use Rattle.store_rows.specs.Space.{AllOf};
ghost use Rattle.store_rows.specs.Steps.{Safe, IsOutside, IsWithinLimit, IsOfSpace, Gives, is_failed};
ghost use Rattle.node_rows.specs.Spellings.{node_bytes, CanNode, set_bytes, CanSet, subscription_bytes};
ghost use Rattle.node_rows.specs.Spellings.{CanSubscription};
ghost use Rattle.slon_model.specs.Maps.{entry_at, pair_at};
ghost use Rattle.slon_model.specs.Config.{Config, has_path, receivers};
ghost use Rattle.slon_model.specs.Reaching.{receiver_with};
ghost use Rattle.set_config.specs.Holds.{HoldsConfig, AreIds, pair_key};
ghost use Rattle.event_store.specs.Formed.{IsRow, Lacks, Reads};
ghost use Rattle.node_state.specs.Held.{IsOrderly};
ghost use Rattle.node_change.specs.Receivers.{IsPairKey, receiver_of};

use crate::layout::{FENCES, NODES, PATHS, SETS, SUBSCRIPTIONS, TABLES};
use node_rows::{NodeRow, SetRow, Subscription};
use slon_base::{Keeper, Many};
use std::alloc::Global;
use store_rows::{Stop, get_row, has_row, next_pair, read_alone, scan_rows, spelling};

/// The row of a node, if the database has heard of the node.
///
/// # Errors
///
/// `BadRow` of space 4 exactly where the row is not in its form, what stopped the store, and `NoMemory`.
pub fn find_node_row<K: Keeper>(
    alloc: Global,
    keeper: &mut K,
    id: u32,
) -> Result<Option<NodeRow>, Stop>
    requires id { IsId id }
    ensures safe { Safe (K.kept keeper.old) (K.kept keeper.new) result }
    ensures same { OnOk result ((K.kept keeper.new).pending ≡ (K.kept keeper.old).pending) }
    ensures within { IfErr result IsWithinLimit }
    ensures space { IfErr result (IsOfSpace 4) }
    ensures can { IfOk result (AllOf CanNode) }
    ensures found { (m : Store) → sight (K.kept keeper.old) ≡ Some m →
        IfOk result (λ found. get (m 4) (number_bytes id) ≡ option_map node_bytes found) }
    ensures says { (m : Store) (c : Config) → sight (K.kept keeper.old) ≡ Some m → HoldsConfig c m →
        Gives (λ found. found ≡ entry_at id c.nodes) result }
    ensures form { (m : Store) → sight (K.kept keeper.old) ≡ Some m →
        Reads (Lacks 4 (IsRow node_bytes CanNode (get (m 4) (number_bytes id)))) result }
{
    get_row(alloc, keeper, NODES, &id)
}

/// The row of a set, if the database has heard of the set.
///
/// # Errors
///
/// `BadRow` of space 6 exactly where the row is not in its form, what stopped the store, and `NoMemory`.
pub fn find_set_row<K: Keeper>(
    alloc: Global,
    keeper: &mut K,
    id: u32,
) -> Result<Option<SetRow>, Stop>
    requires id { IsId id }
    ensures safe { Safe (K.kept keeper.old) (K.kept keeper.new) result }
    ensures same { OnOk result ((K.kept keeper.new).pending ≡ (K.kept keeper.old).pending) }
    ensures within { IfErr result IsWithinLimit }
    ensures space { IfErr result (IsOfSpace 6) }
    ensures can { IfOk result (AllOf CanSet) }
    ensures found { (m : Store) → sight (K.kept keeper.old) ≡ Some m →
        IfOk result (λ found. get (m 6) (number_bytes id) ≡ option_map set_bytes found) }
    ensures says { (m : Store) (c : Config) → sight (K.kept keeper.old) ≡ Some m → HoldsConfig c m →
        Gives (λ found. found ≡ entry_at id c.sets) result }
    ensures form { (m : Store) → sight (K.kept keeper.old) ≡ Some m →
        Reads (Lacks 6 (IsRow set_bytes CanSet (get (m 6) (number_bytes id)))) result }
{
    get_row(alloc, keeper, SETS, &id)
}

/// Whether the database knows a path: how the client connects to the server. The row is not read, only whether there is
/// one.
///
/// # Errors
///
/// What stopped the store, and `NoMemory`.
pub fn has_path<K: Keeper>(
    alloc: Global,
    keeper: &mut K,
    client: u32,
    server: u32,
) -> Result<bool, Stop>
    requires ids { IsId client × IsId server }
    ensures safe { Safe (K.kept keeper.old) (K.kept keeper.new) result }
    ensures same { OnOk result ((K.kept keeper.new).pending ≡ (K.kept keeper.old).pending) }
    ensures only { IfErr result IsOutside }
    ensures found { (m : Store) → sight (K.kept keeper.old) ≡ Some m →
        IfOk result (λ found. found ≡ is_some (get (m 5) (pair_key (client, server)))) }
    ensures says { (m : Store) (c : Config) → sight (K.kept keeper.old) ≡ Some m → HoldsConfig c m →
        Gives (λ found. found ≡ has_path client server c) result }
{
    has_row(alloc, keeper, PATHS, &(client, server))
}

/// Whether the database knows a fence against a node that failed. The row is not read, only whether there is one.
///
/// # Errors
///
/// What stopped the store, and `NoMemory`.
pub fn has_fence<K: Keeper>(alloc: Global, keeper: &mut K, node: u32) -> Result<bool, Stop>
    requires id { IsId node }
    ensures safe { Safe (K.kept keeper.old) (K.kept keeper.new) result }
    ensures same { OnOk result ((K.kept keeper.new).pending ≡ (K.kept keeper.old).pending) }
    ensures only { IfErr result IsOutside }
    ensures found { (m : Store) → sight (K.kept keeper.old) ≡ Some m →
        IfOk result (λ found. found ≡ is_some (get (m 14) (number_bytes node))) }
    ensures says { (m : Store) (c : Config) → sight (K.kept keeper.old) ≡ Some m → HoldsConfig c m →
        Gives (λ found. found ≡ is_some (entry_at node c.fences)) result }
{
    has_row(alloc, keeper, FENCES, &node)
}

/// Whether the database has heard of a table of this id, in whatever set, live or not. The row is not read, only
/// whether there is one.
///
/// # Errors
///
/// What stopped the store, and `NoMemory`.
pub fn has_table_row<K: Keeper>(alloc: Global, keeper: &mut K, id: u32) -> Result<bool, Stop>
    requires id { IsId id }
    ensures safe { Safe (K.kept keeper.old) (K.kept keeper.new) result }
    ensures same { OnOk result ((K.kept keeper.new).pending ≡ (K.kept keeper.old).pending) }
    ensures only { IfErr result IsOutside }
    ensures found { (m : Store) → sight (K.kept keeper.old) ≡ Some m →
        IfOk result (λ found. found ≡ is_some (get (m 7) (number_bytes id))) }
    ensures says { (m : Store) (c : Config) → sight (K.kept keeper.old) ≡ Some m → HoldsConfig c m →
        Gives (λ found. found ≡ is_some (entry_at id c.tables)) result }
{
    has_row(alloc, keeper, TABLES, &id)
}

/// Whether the database knows that a node receives a set. The row is not read, only whether there is one.
///
/// # Errors
///
/// What stopped the store, and `NoMemory`.
pub fn has_subscription<K: Keeper>(
    alloc: Global,
    keeper: &mut K,
    set: u32,
    receiver: u32,
) -> Result<bool, Stop>
    requires ids { IsId set × IsId receiver }
    ensures safe { Safe (K.kept keeper.old) (K.kept keeper.new) result }
    ensures same { OnOk result ((K.kept keeper.new).pending ≡ (K.kept keeper.old).pending) }
    ensures only { IfErr result IsOutside }
    ensures found { (m : Store) → sight (K.kept keeper.old) ≡ Some m →
        IfOk result (λ found. found ≡ is_some (get (m 8) (pair_key (set, receiver)))) }
    ensures says { (m : Store) (c : Config) → sight (K.kept keeper.old) ≡ Some m → HoldsConfig c m →
        Gives (λ found. found ≡ is_some (pair_at set receiver c.subscriptions)) result }
{
    has_row(alloc, keeper, SUBSCRIPTIONS, &(set, receiver))
}

/// The row of the subscription of a node to a set, if the database knows that the node receives the set.
///
/// # Errors
///
/// `BadRow` of space 8 exactly where the row is not in its form, what stopped the store, and `NoMemory`.
pub fn find_subscription<K: Keeper>(
    alloc: Global,
    keeper: &mut K,
    set: u32,
    receiver: u32,
) -> Result<Option<Subscription>, Stop>
    requires ids { IsId set × IsId receiver }
    ensures safe { Safe (K.kept keeper.old) (K.kept keeper.new) result }
    ensures same { OnOk result ((K.kept keeper.new).pending ≡ (K.kept keeper.old).pending) }
    ensures within { IfErr result IsWithinLimit }
    ensures space { IfErr result (IsOfSpace 8) }
    ensures can { IfOk result (AllOf CanSubscription) }
    ensures found { (m : Store) → sight (K.kept keeper.old) ≡ Some m →
        IfOk result (λ found. get (m 8) (pair_key (set, receiver)) ≡ option_map subscription_bytes found) }
    ensures says { (m : Store) (c : Config) → sight (K.kept keeper.old) ≡ Some m → HoldsConfig c m →
        Gives (λ found. found ≡ pair_at set receiver c.subscriptions) result }
    ensures form { (m : Store) → sight (K.kept keeper.old) ≡ Some m →
        Reads (Lacks 8 (IsRow subscription_bytes CanSubscription (get (m 8) (pair_key (set, receiver))))) result }
{
    get_row(alloc, keeper, SUBSCRIPTIONS, &(set, receiver))
}

/// The receiver of the subscription with this key, if it is one to the set.
fn receiver_in(alloc: Global, set: u32, key: &[u8]) -> Result<Option<u32>, Stop>
    ensures never { is_failed result ≡ false }
    ensures within { IfErr result IsWithinLimit }
    ensures space { IfErr result (IsOfSpace 8) }
    ensures ids { IfOk result (AllOf IsId) }
    ensures gives { (i : ℕ × ℕ) → AreIds i → key.now ≡ pair_key i →
        Gives (λ found. found ≡ receiver_of set i) result }
    ensures form { Reads (Lacks 8 (IsPairKey (Some (key.now, [])))) result }
{
    match read_alone::<(u32, u32)>(alloc, SUBSCRIPTIONS, key) {
        Ok((known, receiver)) => Ok((known == set).then_some(receiver)),
        Err(stop) => Err(stop),
    }
}

/// The least receiver of a set, if the set has one. The key of its subscription is read, and not the row.
///
/// # Errors
///
/// `BadRow` of space 8 exactly where the first key behind those of lesser sets is not in its form, what stopped the
/// store, and `NoMemory`.
pub fn first_receiver<K: Keeper>(
    alloc: Global,
    keeper: &mut K,
    set: u32,
) -> Result<Option<u32>, Stop>
    requires id { IsId set }
    ensures safe { Safe (K.kept keeper.old) (K.kept keeper.new) result }
    ensures same { OnOk result ((K.kept keeper.new).pending ≡ (K.kept keeper.old).pending) }
    ensures within { IfErr result IsWithinLimit }
    ensures space { IfErr result (IsOfSpace 8) }
    ensures ids { IfOk result (AllOf IsId) }
    ensures says { (m : Store) (c : Config) → sight (K.kept keeper.old) ≡ Some m → HoldsConfig c m → IsOrderly c →
        Gives (λ found. found ≡ receiver_with (λ e. true) set c) result }
    ensures form { (m : Store) → sight (K.kept keeper.old) ≡ Some m →
        Reads (Lacks 8 (IsPairKey (first (after (number_bytes set) (entries (m 8)))))) result }
{
    let from = spelling(alloc, &set)?;
    match next_pair(keeper, SUBSCRIPTIONS, from.as_slice())? {
        None => Ok(None),
        Some((key, _)) => receiver_in(alloc, set, key.as_slice()),
    }
}

/// The receivers of a set with the rows of their subscriptions, ascending.
///
/// # Errors
///
/// `BadRow` of space 8 where the key or the row of a subscription to the set is not in its form, what stopped the
/// store, and `NoMemory`.
pub fn receivers<K: Keeper>(
    alloc: Global,
    keeper: &mut K,
    set: u32,
) -> Result<Many<(u32, Subscription)>, Stop>
    requires id { IsId set }
    ensures safe { Safe (K.kept keeper.old) (K.kept keeper.new) result }
    ensures same { OnOk result ((K.kept keeper.new).pending ≡ (K.kept keeper.old).pending) }
    ensures within { IfErr result IsWithinLimit }
    ensures space { IfErr result (IsOfSpace 8) }
    ensures says { (m : Store) (c : Config) → sight (K.kept keeper.old) ≡ Some m → HoldsConfig c m → IsOrderly c →
        Gives (λ found. found ≡ receivers set c) result }
{
    let prefix = spelling(alloc, &set)?;
    let key = prefix.as_slice();
    scan_rows(alloc, keeper, SUBSCRIPTIONS, key, key)
}
