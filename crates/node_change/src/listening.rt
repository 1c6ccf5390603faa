// Of which origins a node hears at a server. That follows from the paths and the fences that the node knows.
ghost use Rattle.std.specs.Prelude.{◌≡◌, ◌&&◌, is_none, ℕ, Some, OnOk, IfOk, IfErr};
ghost use Rattle.slon_base.specs.Codec.{AllAre};
ghost use Rattle.slon_base.specs.Keeper.{Store, sight};
ghost use Rattle.store_rows.specs.Rows.{IsId};
ghost use Rattle.store_rows.specs.Steps.{Safe, IsOutside, IsWithinLimit, Gives};
ghost use Rattle.node_rows.specs.Spellings.{node_bytes, CanNode};
ghost use Rattle.slon_model.specs.Maps.{entry_at};
ghost use Rattle.slon_model.specs.Config.{Config, has_path, hears, heard_in, is_known, is_live_row, known};
ghost use Rattle.set_config.specs.Holds.{HoldsConfig};
ghost use Rattle.event_store.specs.Formed.{IsRow, Lacks, Reads};
ghost use Rattle.std.specs.FinMap.{get};
ghost use Rattle.slon_base.specs.Codec.{number_bytes};
ghost use Rattle.node_state.specs.Handed.{AreRowsOf};
ghost use Rattle.node_state.specs.Held.{IsOrderly};
ghost use Rattle.node_change.specs.Listening.{is_heard, heard_among, is_row_known, known_among};

use crate::layout::NODES;
use crate::lookup::{find_node_row, has_fence, has_path};
use node_rows::NodeRow;
use node_state::all_rows;
use slon_base::{Keeper, Many};
use std::alloc::Global;
use store_rows::Stop;

/// Whether the database knows that a node is live, and knows no fence against it.
///
/// # Errors
///
/// `BadRow` of space 4 only where the row of the node is not in its form, what stopped the store, and `NoMemory`.
pub fn is_known<K: Keeper>(alloc: Global, keeper: &mut K, node: u32) -> Result<bool, Stop>
    requires id { IsId node }
    ensures safe { Safe (K.kept keeper.old) (K.kept keeper.new) result }
    ensures same { OnOk result ((K.kept keeper.new).pending ≡ (K.kept keeper.old).pending) }
    ensures within { IfErr result IsWithinLimit }
    ensures says { (m : Store) (c : Config) → sight (K.kept keeper.old) ≡ Some m → HoldsConfig c m →
        Gives (λ known. known ≡ is_known node c) result }
    ensures form { (m : Store) → sight (K.kept keeper.old) ≡ Some m →
        Reads (Lacks 4 (IsRow node_bytes CanNode (get (m 4) (number_bytes node)))) result }
{
    let row = find_node_row(alloc, keeper, node)?;
    let fenced = has_fence(alloc, keeper, node)?;
    Ok(is_live(&row) && !fenced)
}

/// Whether the row of a node says that it is live.
fn is_live(row: &Option<NodeRow>) -> bool
    ensures { result ≡ is_live_row row.now }
{
    match row {
        None => false,
        Some(row) => row.live,
    }
}

/// Whether the node of this row is live, and no fence against it is known.
fn is_row_known<K: Keeper>(
    alloc: Global,
    keeper: &mut K,
    node: u32,
    row: &NodeRow,
) -> Result<bool, Stop>
    requires id { IsId node }
    ensures safe { Safe (K.kept keeper.old) (K.kept keeper.new) result }
    ensures same { OnOk result ((K.kept keeper.new).pending ≡ (K.kept keeper.old).pending) }
    ensures only { IfErr result IsOutside }
    ensures says { (m : Store) (c : Config) → sight (K.kept keeper.old) ≡ Some m → HoldsConfig c m →
        Gives (λ known. known ≡ is_row_known c (node, row.now)) result }
{
    if !row.live {
        return Ok(false);
    }
    let is_fenced = has_fence(alloc, keeper, node)?;
    Ok(!is_fenced)
}

/// Those of the nodes with these rows that are live, and against which no fence is known.
fn known_among<K: Keeper>(
    alloc: Global,
    keeper: &mut K,
    nodes: &[(u32, NodeRow)],
) -> Result<Many<u32>, Stop>
    requires nodes { AllAre (λ e. IsId e.0) nodes.now }
    ensures safe { Safe (K.kept keeper.old) (K.kept keeper.new) result }
    ensures same { OnOk result ((K.kept keeper.new).pending ≡ (K.kept keeper.old).pending) }
    ensures only { IfErr result IsOutside }
    ensures ids { IfOk result (AllAre IsId) }
    ensures says { (m : Store) (c : Config) → sight (K.kept keeper.old) ≡ Some m → HoldsConfig c m →
        Gives (λ known. known ≡ known_among c nodes.now) result }
{
    let mut known = Many::new(alloc);
    for (node, row) in nodes {
        if !is_row_known(alloc, keeper, *node, row)? {
            continue;
        }
        known.push(*node)?;
    }
    Ok(known)
}

/// The nodes that are live, and against which no fence is known, ascending. It goes over the rows of the nodes, and
/// looks up the fence of each live one.
///
/// # Errors
///
/// `BadRow` of space 4 exactly where the row of a node is not in its form, what stopped the store, and `NoMemory`.
pub fn known<K: Keeper>(alloc: Global, keeper: &mut K) -> Result<Many<u32>, Stop>
    ensures safe { Safe (K.kept keeper.old) (K.kept keeper.new) result }
    ensures same { OnOk result ((K.kept keeper.new).pending ≡ (K.kept keeper.old).pending) }
    ensures within { IfErr result IsWithinLimit }
    ensures ids { IfOk result (AllAre IsId) }
    ensures says { (m : Store) (c : Config) → sight (K.kept keeper.old) ≡ Some m → HoldsConfig c m → IsOrderly c →
        Gives (λ nodes. nodes ≡ known c) result }
    ensures form { (m : Store) → sight (K.kept keeper.old) ≡ Some m →
        Reads (Lacks 4 (AreRowsOf node_bytes CanNode 4 m)) result }
{
    let nodes = all_rows(alloc, keeper, NODES)?;
    known_among(alloc, keeper, nodes.as_slice())
}

/// Whether the node `own` hears an origin at the origin itself: it has a path from it, and no fence against it.
fn is_direct<K: Keeper>(alloc: Global, keeper: &mut K, own: u32, origin: u32) -> Result<bool, Stop>
    requires ids { IsId own × IsId origin }
    ensures safe { Safe (K.kept keeper.old) (K.kept keeper.new) result }
    ensures same { OnOk result ((K.kept keeper.new).pending ≡ (K.kept keeper.old).pending) }
    ensures only { IfErr result IsOutside }
    ensures says { (m : Store) (c : Config) → sight (K.kept keeper.old) ≡ Some m → HoldsConfig c m →
        Gives (λ direct. direct ≡ (has_path own origin c && is_none (entry_at origin c.fences))) result }
{
    if !has_path(alloc, keeper, own, origin)? {
        return Ok(false);
    }
    let fenced = has_fence(alloc, keeper, origin)?;
    Ok(!fenced)
}

/// Whether the node `own` hears an origin at a server.
fn hears<K: Keeper>(
    alloc: Global,
    keeper: &mut K,
    own: u32,
    server: u32,
    origin: u32,
) -> Result<bool, Stop>
    requires ids { IsId own × IsId server × IsId origin }
    ensures safe { Safe (K.kept keeper.old) (K.kept keeper.new) result }
    ensures same { OnOk result ((K.kept keeper.new).pending ≡ (K.kept keeper.old).pending) }
    ensures only { IfErr result IsOutside }
    ensures says { (m : Store) (c : Config) → sight (K.kept keeper.old) ≡ Some m → HoldsConfig c m →
        Gives (λ heard. heard ≡ hears own server origin c) result }
{
    if is_direct(alloc, keeper, own, origin)? {
        return Ok(server == origin);
    }
    if server == origin {
        return Ok(false);
    }
    has_path(alloc, keeper, own, server)
}

/// Whether the node of this row is a live one other than the node `own`, and `own` hears of it at a server.
fn is_heard<K: Keeper>(
    alloc: Global,
    keeper: &mut K,
    own: u32,
    server: u32,
    node: u32,
    row: &NodeRow,
) -> Result<bool, Stop>
    requires ids { IsId own × IsId server × IsId node }
    ensures safe { Safe (K.kept keeper.old) (K.kept keeper.new) result }
    ensures same { OnOk result ((K.kept keeper.new).pending ≡ (K.kept keeper.old).pending) }
    ensures only { IfErr result IsOutside }
    ensures says { (m : Store) (c : Config) → sight (K.kept keeper.old) ≡ Some m → HoldsConfig c m →
        Gives (λ heard. heard ≡ is_heard own server c (node, row.now)) result }
{
    if !row.live || node == own {
        return Ok(false);
    }
    hears(alloc, keeper, own, server, node)
}

/// Those of the nodes with these rows that are live, and that the node `own` hears at a server.
fn heard_among<K: Keeper>(
    alloc: Global,
    keeper: &mut K,
    own: u32,
    server: u32,
    nodes: &[(u32, NodeRow)],
) -> Result<Many<u32>, Stop>
    requires ids { IsId own × IsId server }
    requires nodes { AllAre (λ e. IsId e.0) nodes.now }
    ensures safe { Safe (K.kept keeper.old) (K.kept keeper.new) result }
    ensures same { OnOk result ((K.kept keeper.new).pending ≡ (K.kept keeper.old).pending) }
    ensures only { IfErr result IsOutside }
    ensures ids { IfOk result (AllAre IsId) }
    ensures says { (m : Store) (c : Config) → sight (K.kept keeper.old) ≡ Some m → HoldsConfig c m →
        Gives (λ heard. heard ≡ heard_among own server c nodes.now) result }
{
    let mut heard = Many::new(alloc);
    for (node, row) in nodes {
        if !is_heard(alloc, keeper, own, server, *node, row)? {
            continue;
        }
        heard.push(*node)?;
    }
    Ok(heard)
}

/// The live nodes other than the node `own` of which it hears at a server, ascending. It hears of an origin at the
/// origin alone, where it has a path from it and no fence against it, and else at every other server that it has a
/// path from. It goes over the rows of the nodes, and reads none of the paths and of the fences.
///
/// # Errors
///
/// `BadRow` of space 4 exactly where the row of a node is not in its form, what stopped the store, and `NoMemory`.
pub fn listens<K: Keeper>(
    alloc: Global,
    keeper: &mut K,
    own: u32,
    server: u32,
) -> Result<Many<u32>, Stop>
    requires ids { IsId own × IsId server }
    ensures safe { Safe (K.kept keeper.old) (K.kept keeper.new) result }
    ensures same { OnOk result ((K.kept keeper.new).pending ≡ (K.kept keeper.old).pending) }
    ensures within { IfErr result IsWithinLimit }
    ensures ids { IfOk result (AllAre IsId) }
    ensures says { (m : Store) (c : Config) → sight (K.kept keeper.old) ≡ Some m → HoldsConfig c m → IsOrderly c →
        Gives (λ origins. origins ≡ heard_in own server c) result }
    ensures form { (m : Store) → sight (K.kept keeper.old) ≡ Some m →
        Reads (Lacks 4 (AreRowsOf node_bytes CanNode 4 m)) result }
{
    let nodes = all_rows(alloc, keeper, NODES)?;
    heard_among(alloc, keeper, own, server, nodes.as_slice())
}
