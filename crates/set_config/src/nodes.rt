// The nodes that were heard of.
ghost use Rattle.std.specs.Prelude.{◌≡◌, true, [], is_some, OnOk, IfOk, unwrap_or};
ghost use Rattle.std.specs.Option.{option_map};
ghost use Rattle.slon_base.specs.Keeper.{Store};
ghost use Rattle.slon_base.specs.Codec.{IsText};
ghost use Rattle.store_rows.specs.Rows.{IsId};
ghost use Rattle.store_rows.specs.Steps.{Safe, Gives};
ghost use Rattle.store_rows.specs.Space.{IsPending, Becomes};
ghost use Rattle.node_rows.specs.Spellings.{CanNode};
ghost use Rattle.slon_model.specs.Maps.{entry_at, with_entry};
ghost use Rattle.slon_model.specs.Config.{Config, stored_node, dropped_node, named_node};
ghost use Rattle.set_config.specs.Holds.{Shows};

use crate::layout::NODES;
use node_rows::NodeRow;
use slon_base::{Keeper, Text};
use std::alloc::Global;
use store_rows::{Stop, get_row, has_row, put_row};

/// The row of a node, as it is from now on.
fn put_node<K: Keeper>(alloc: Global, keeper: &mut K, node: u32, row: &NodeRow) -> Result<(), Stop>
    requires opened { is_some (K.kept keeper.old).pending ≡ true }
    requires can { IsId node × CanNode row.now }
    ensures safe { Safe (K.kept keeper.old) (K.kept keeper.new) result }
    ensures turns { (base : Store) (c : Config) → IsPending (Shows base c) (K.kept keeper.old) →
        Becomes (Shows base (record c { nodes = with_entry node row.now c.nodes })) (K.kept keeper.new) result }
{
    put_row(alloc, keeper, NODES, &node, row)
}

/// Whether a node was not dropped. One that was not heard of was not.
fn is_live<K: Keeper>(alloc: Global, keeper: &mut K, node: u32) -> Result<bool, Stop>
    requires can { IsId node }
    ensures safe { Safe (K.kept keeper.old) (K.kept keeper.new) result }
    ensures same { OnOk result ((K.kept keeper.new).pending ≡ (K.kept keeper.old).pending) }
    ensures gives { (base : Store) (c : Config) → IsPending (Shows base c) (K.kept keeper.old) →
        Gives (λ live. live ≡ unwrap_or (option_map (λ row. row.live) (entry_at node c.nodes)) true) result }
{
    match get_row::<K, u32, NodeRow>(alloc, keeper, NODES, &node)? {
        None => Ok(true),
        Some(row) => Ok(row.live),
    }
}

/// A node is stored. One that was dropped stays dropped.
pub(crate) fn store_node<K: Keeper>(
    alloc: Global,
    keeper: &mut K,
    node: u32,
    comment: &Text,
) -> Result<(), Stop>
    requires opened { is_some (K.kept keeper.old).pending ≡ true }
    requires can { IsId node × IsText comment.now }
    ensures safe { Safe (K.kept keeper.old) (K.kept keeper.new) result }
    ensures turns { (base : Store) (c : Config) → IsPending (Shows base c) (K.kept keeper.old) →
        Becomes (Shows base (record c { nodes = stored_node node comment.now c.nodes })) (K.kept keeper.new) result }
{
    let live = is_live(alloc, keeper, node)?;
    let row = NodeRow {
        live,
        comment: comment.copy(alloc)?,
    };
    put_node(alloc, keeper, node, &row)
}

/// The comment of a node. One that was not heard of has none.
fn comment_of<K: Keeper>(alloc: Global, keeper: &mut K, node: u32) -> Result<Text, Stop>
    requires can { IsId node }
    ensures safe { Safe (K.kept keeper.old) (K.kept keeper.new) result }
    ensures same { OnOk result ((K.kept keeper.new).pending ≡ (K.kept keeper.old).pending) }
    ensures can { IfOk result IsText }
    ensures gives { (base : Store) (c : Config) → IsPending (Shows base c) (K.kept keeper.old) →
        Gives (λ comment. comment ≡ unwrap_or (option_map (λ row. row.comment) (entry_at node c.nodes)) []) result }
{
    match get_row::<K, u32, NodeRow>(alloc, keeper, NODES, &node)? {
        None => Ok(Text::from_str(alloc, "")?),
        Some(row) => Ok(row.comment),
    }
}

/// A node is dropped, and keeps its comment.
pub(crate) fn drop_node<K: Keeper>(alloc: Global, keeper: &mut K, node: u32) -> Result<(), Stop>
    requires opened { is_some (K.kept keeper.old).pending ≡ true }
    requires can { IsId node }
    ensures safe { Safe (K.kept keeper.old) (K.kept keeper.new) result }
    ensures turns { (base : Store) (c : Config) → IsPending (Shows base c) (K.kept keeper.old) →
        Becomes (Shows base (record c { nodes = dropped_node node c.nodes })) (K.kept keeper.new) result }
{
    let comment = comment_of(alloc, keeper, node)?;
    let row = NodeRow {
        live: false,
        comment,
    };
    put_node(alloc, keeper, node, &row)
}

/// A node is heard of, if it was not before.
pub(crate) fn name_node<K: Keeper>(alloc: Global, keeper: &mut K, node: u32) -> Result<(), Stop>
    requires opened { is_some (K.kept keeper.old).pending ≡ true }
    requires can { IsId node }
    ensures safe { Safe (K.kept keeper.old) (K.kept keeper.new) result }
    ensures turns { (base : Store) (c : Config) → IsPending (Shows base c) (K.kept keeper.old) →
        Becomes (Shows base (record c { nodes = named_node node c.nodes })) (K.kept keeper.new) result }
{
    if has_row(alloc, keeper, NODES, &node)? {
        return Ok(());
    }
    let row = NodeRow {
        live: true,
        comment: Text::from_str(alloc, "")?,
    };
    put_node(alloc, keeper, node, &row)
}
