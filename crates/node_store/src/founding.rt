// A database becomes the first node of a cluster.
ghost use Rattle.std.specs.Prelude.{◌≡◌, true, false, is_some};
ghost use Rattle.slon_base.specs.Codec.{IsText};
ghost use Rattle.store_rows.specs.Rows.{IsId};
ghost use Rattle.app_store.specs.Base.{base_of};
ghost use Rattle.app_store.specs.Serves.{answered, trouble};
ghost use Rattle.node_store.specs.Acting.{Acts, FoundsNode, joined, node_of};

use crate::finishing::become_node;
use crate::writing::write_first;
use app_store::{Database, DbFault, fall, overflow};
use node_keeper::Keeper;
use slon_base::{STORED_LIMIT, Text};

/// Makes the database, which is no node, the first node of a cluster of this name. Answers whether the commit is in
/// doubt.
///
/// # Errors
///
/// `TooBig`, and what stopped the store.
pub fn found<K: Keeper>(
    database: &mut Database<K>,
    id: u32,
    cluster: &Text,
    comment: &Text,
) -> Result<bool, DbFault>
    requires up { database.old.state.up ≡ true }
    requires none { is_some database.old.state.node.identity ≡ false }
    requires can { IsId id × IsText cluster.now × IsText comment.now }
    ensures acts { Acts (trouble (answered joined result)) (base_of K.kept database.old)
        (base_of K.kept database.new) }
    ensures founds { FoundsNode (node_of id cluster.now comment.now) (base_of K.kept database.old)
        (answered joined result) (base_of K.kept database.new) }
{
    let alloc = database.alloc;
    if database.state.stamp >= STORED_LIMIT {
        return Err(overflow(alloc, &mut database.state));
    }
    let stamp = database.state.stamp + 1;
    match write_first(alloc, &mut database.keeper, id, cluster, comment, stamp) {
        Ok(node) => become_node(
            alloc,
            &mut database.keeper,
            &mut database.state,
            node,
            stamp,
        ),
        Err(stop) => Err(fall(alloc, &mut database.state, &database.keeper, stop)),
    }
}
