// What a store holds of the cluster, read as a whole.
ghost use Rattle.std.specs.Prelude.{◌≡◌, Some, OnOk, IfOk, IfErr};
ghost use Rattle.slon_base.specs.Keeper.{Store, sight};
ghost use Rattle.store_rows.specs.Steps.{Safe, Gives};
ghost use Rattle.slon_model.specs.Config.{Config as Known};
ghost use Rattle.set_config.specs.Holds.{HoldsConfig};
ghost use Rattle.set_config.specs.Loaded.{AreAllRows, IsLoaded, IsOfConfig};

use crate::layout::{FENCES, NODES, PATHS, SETS, SUBSCRIPTIONS, TABLES};
use node_rows::{Fence, NodeRow, SetRow, Subscription, TableRow};
use slon_base::{Keeper, Many, Text};
use std::alloc::Global;
use store_rows::{Stop, scan_rows};

/// What a node knows of the cluster: all rows of the spaces that tell it.
#[derive(Drop)]
pub struct Config {
    /// The nodes that were heard of, ascending by id.
    pub nodes: Many<(u32, NodeRow)>,
    /// How nodes connect to one another, ascending by the ids of the client and of the server.
    pub paths: Many<((u32, u32), Text)>,
    /// The sets that were heard of, ascending by id.
    pub sets: Many<(u32, SetRow)>,
    /// The tables of sets that were heard of, ascending by id.
    pub tables: Many<(u32, TableRow)>,
    /// Who receives which set, ascending by the ids of the set and of the receiver.
    pub subscriptions: Many<((u32, u32), Subscription)>,
    /// The fences against nodes that failed, ascending by the id of the failed node.
    pub fences: Many<(u32, Fence)>,
}

/// Reads all rows of these spaces.
fn read_rows<K: Keeper>(alloc: Global, keeper: &mut K) -> Result<Config, Stop>
    ensures safe { Safe (K.kept keeper.old) (K.kept keeper.new) result }
    ensures same { OnOk result ((K.kept keeper.new).pending ≡ (K.kept keeper.old).pending) }
    ensures space { IfErr result IsOfConfig }
    ensures found { (m : Store) → sight (K.kept keeper.old) ≡ Some m → IfOk result (AreAllRows m) }
    ensures gives { (m : Store) (rows : Config) → sight (K.kept keeper.old) ≡ Some m → AreAllRows m rows →
        Gives (λ found. found ≡ rows) result }
{
    let nodes = scan_rows(alloc, keeper, NODES, &[], &[])?;
    let paths = scan_rows(alloc, keeper, PATHS, &[], &[])?;
    let sets = scan_rows(alloc, keeper, SETS, &[], &[])?;
    let tables = scan_rows(alloc, keeper, TABLES, &[], &[])?;
    let subscriptions = scan_rows(alloc, keeper, SUBSCRIPTIONS, &[], &[])?;
    let fences = scan_rows(alloc, keeper, FENCES, &[], &[])?;
    Ok(Config {
        nodes,
        paths,
        sets,
        tables,
        subscriptions,
        fences,
    })
}

/// Reads what a store holds of the cluster. It changes nothing.
///
/// # Errors
///
/// `BadRow` of a space of these exactly where a row there is not in its form, what stopped the store, and `NoMemory`.
pub fn load<K: Keeper>(alloc: Global, keeper: &mut K) -> Result<Config, Stop>
    ensures safe { Safe (K.kept keeper.old) (K.kept keeper.new) result }
    ensures same { OnOk result ((K.kept keeper.new).pending ≡ (K.kept keeper.old).pending) }
    ensures space { IfErr result IsOfConfig }
    // In any store it reads all rows of the spaces, and they are what is there,
    ensures found { (m : Store) → sight (K.kept keeper.old) ≡ Some m → IfOk result (AreAllRows m) }
    ensures form { (m : Store) (rows : Config) → sight (K.kept keeper.old) ≡ Some m → AreAllRows m rows →
        Gives (λ found. found ≡ rows) result }
    // and in a store that holds a configuration they list the configuration.
    ensures gives { (m : Store) (c : Known) → sight (K.kept keeper.old) ≡ Some m → HoldsConfig c m →
        Gives (IsLoaded c) result }
{
    read_rows(alloc, keeper)
}
