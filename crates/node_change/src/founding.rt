// The first node of a cluster.
ghost use Rattle.std.specs.Prelude.{◌≡◌, Some, None, true, is_some, OnOk, IfErr};
ghost use Rattle.std.specs.Option.{option_map};
ghost use Rattle.slon_base.specs.Codec.{IsText};
ghost use Rattle.slon_base.specs.Keeper.{Store};
ghost use Rattle.store_rows.specs.Rows.{IsId};
ghost use Rattle.store_rows.specs.Space.{Becomes};
ghost use Rattle.store_rows.specs.Steps.{Safe, IsOutside};
ghost use Rattle.slon_model.specs.Membership.{first_of_cluster};
ghost use Rattle.slon_model.specs.Sessions.{Running};
ghost use Rattle.node_state.specs.Held.{HoldsNode};
ghost use Rattle.node_change.specs.Becoming.{IsNode, named};

use crate::layout::{CLUSTER, META, NODE_ID, NODES};
use node_rows::NodeRow;
use slon_base::{Keeper, Text};
use std::alloc::Global;
use store_rows::{Stop, put_pair, put_row, spelling};

/// Puts which node the database is from now on.
pub(crate) fn put_identity<K: Keeper>(
    alloc: Global,
    keeper: &mut K,
    id: u32,
    cluster: &Text,
) -> Result<(), Stop>
    requires opened { is_some (K.kept keeper.old).pending ≡ true }
    requires can { IsId id × IsText cluster.now }
    ensures safe { Safe (K.kept keeper.old) (K.kept keeper.new) result }
    ensures only { IfErr result IsOutside }
    ensures put { OnOk result ((K.kept keeper.new).pending ≡
        option_map (option_map (named id cluster.now)) (K.kept keeper.old).pending) }
{
    let id = spelling(alloc, &id)?;
    let cluster = spelling(alloc, cluster)?;
    put_pair(keeper, META, &NODE_ID, id.as_slice())?;
    put_pair(keeper, META, &CLUSTER, cluster.as_slice())
}

/// Makes a database that is no node the first node of a cluster of this name, in what is pending. The node has the
/// comment, and knows of itself alone.
///
/// # Errors
///
/// What stopped the store, and `NoMemory`.
pub fn found_node<K: Keeper>(
    alloc: Global,
    keeper: &mut K,
    id: u32,
    cluster: &Text,
    comment: &Text,
) -> Result<(), Stop>
    requires opened { is_some (K.kept keeper.old).pending ≡ true }
    requires can { IsId id × IsText cluster.now × IsText comment.now }
    ensures safe { Safe (K.kept keeper.old) (K.kept keeper.new) result }
    ensures only { IfErr result IsOutside }
    ensures turns { (run : Running) (m : Store) → run.cluster ≡ cluster.now →
        (K.kept keeper.old).pending ≡ Some (Some m) → HoldsNode None m →
        Becomes (IsNode (first_of_cluster id comment.now run) m) (K.kept keeper.new) result }
{
    let row = NodeRow {
        live: true,
        comment: comment.copy(alloc)?,
    };
    put_row(alloc, keeper, NODES, &id, &row)?;
    put_identity(alloc, keeper, id, cluster)
}
