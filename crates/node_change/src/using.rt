// Which sets a node has a part in: it is the origin of the set, receives it, or provides it to another node.
ghost use Rattle.std.specs.Prelude.{◌≡◌, ℕ, Some, OnOk, IfErr, find};
ghost use Rattle.std.specs.List.{list_any};
ghost use Rattle.std.specs.Option.{option_map};
ghost use Rattle.slon_base.specs.Codec.{AllAre};
ghost use Rattle.slon_base.specs.Keeper.{Store, sight};
ghost use Rattle.store_rows.specs.Rows.{IsId};
ghost use Rattle.store_rows.specs.Steps.{Safe, IsWithinLimit, Gives};
ghost use Rattle.slon_model.specs.Config.{Config};
ghost use Rattle.slon_model.specs.Membership as rules;
ghost use Rattle.set_config.specs.Holds.{HoldsConfig};
ghost use Rattle.node_state.specs.Held.{IsOrderly};

use crate::layout::SETS;
use crate::lookup::receivers;
use node_rows::{SetRow, Subscription};
use node_state::all_rows;
use slon_base::Keeper;
use std::alloc::Global;
use store_rows::Stop;

/// Whether one of these subscriptions is of the node: it receives the set, or another node has the set from it.
fn is_feed_of(rows: &[(u32, Subscription)], node: u32) -> bool
    ensures { result ≡ list_any (rules.is_feed_of node) rows.now }
{
    rows.iter().any(|(receiver, row)| *receiver == node || row.provider == node)
}

/// Whether the set with this row is live, and the node has a part in it.
fn uses<K: Keeper>(
    alloc: Global,
    keeper: &mut K,
    node: u32,
    set: u32,
    row: &SetRow,
) -> Result<bool, Stop>
    requires id { IsId set }
    ensures safe { Safe (K.kept keeper.old) (K.kept keeper.new) result }
    ensures same { OnOk result ((K.kept keeper.new).pending ≡ (K.kept keeper.old).pending) }
    ensures within { IfErr result IsWithinLimit }
    ensures says { (m : Store) (c : Config) → sight (K.kept keeper.old) ≡ Some m → HoldsConfig c m → IsOrderly c →
        Gives (λ found. found ≡ rules.uses node c (set, row.now)) result }
{
    if !row.live {
        return Ok(false);
    }
    if row.origin == node {
        return Ok(true);
    }
    let rows = receivers(alloc, keeper, set)?;
    Ok(is_feed_of(rows.as_slice(), node))
}

/// The first of the sets with these rows that is live and that the node has a part in.
fn first_used<K: Keeper>(
    alloc: Global,
    keeper: &mut K,
    node: u32,
    sets: &[(u32, SetRow)],
) -> Result<Option<u32>, Stop>
    requires sets { AllAre (λ e. IsId e.0) sets.now }
    ensures safe { Safe (K.kept keeper.old) (K.kept keeper.new) result }
    ensures same { OnOk result ((K.kept keeper.new).pending ≡ (K.kept keeper.old).pending) }
    ensures within { IfErr result IsWithinLimit }
    ensures says { (m : Store) (c : Config) → sight (K.kept keeper.old) ≡ Some m → HoldsConfig c m → IsOrderly c →
        Gives (λ found. found ≡ option_map (λ e. e.0) (find (rules.uses node c) sets.now)) result }
{
    for (set, row) in sets {
        if uses(alloc, keeper, node, *set, row)? {
            return Ok(Some(*set));
        }
    }
    Ok(None)
}

/// The least live set that the node has a part in, as far as the database knows. It goes over the rows of the sets, and
/// over the subscriptions to each live one that has another origin.
///
/// # Errors
///
/// `BadRow` of space 6 or 8 where a row that is looked at is not in its form, what stopped the store, and `NoMemory`.
pub fn set_used_by<K: Keeper>(alloc: Global, keeper: &mut K, node: u32) -> Result<Option<u32>, Stop>
    ensures safe { Safe (K.kept keeper.old) (K.kept keeper.new) result }
    ensures same { OnOk result ((K.kept keeper.new).pending ≡ (K.kept keeper.old).pending) }
    ensures within { IfErr result IsWithinLimit }
    ensures says { (m : Store) (c : Config) → sight (K.kept keeper.old) ≡ Some m → HoldsConfig c m → IsOrderly c →
        Gives (λ found. found ≡ rules.set_used_by node c) result }
{
    let sets = all_rows(alloc, keeper, SETS)?;
    first_used(alloc, keeper, node, sets.as_slice())
}
