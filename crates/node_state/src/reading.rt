// The node that a database is, as its store tells it.
ghost use Rattle.std.specs.Prelude.{◌≡◌, Option, Some, OnOk, IfOk, IfErr};
ghost use Rattle.slon_base.specs.Keeper.{Store, sight};
ghost use Rattle.store_rows.specs.Steps.{Safe, IsWithinLimit, Gives};
ghost use Rattle.slon_model.specs.Deeds.{Node};
ghost use Rattle.event_store.specs.Formed.{Lacks, Reads};
ghost use Rattle.node_state.specs.Handed.{HasIdentity, HandedNode};
ghost use Rattle.node_state.specs.Held.{HoldsNode, HasMeta};
ghost use Rattle.node_state.specs.Known.{CanIdentity, IsKnown};

use crate::entries::get_entry;
use crate::layout::{CLUSTER, META, NODE_ID};
use crate::members::find_members;
use crate::memory::{Identity, NodeMemory};
use slon_base::{Keeper, Text};
use std::alloc::Global;
use store_rows::Stop;

/// Reads which node a database is, if it is one.
fn find_identity<K: Keeper>(alloc: Global, keeper: &mut K) -> Result<Option<Identity>, Stop>
    ensures safe { Safe (K.kept keeper.old) (K.kept keeper.new) result }
    ensures same { OnOk result ((K.kept keeper.new).pending ≡ (K.kept keeper.old).pending) }
    ensures within { IfErr result IsWithinLimit }
    ensures can { IfOk result CanIdentity }
    ensures found { (m : Store) → sight (K.kept keeper.old) ≡ Some m →
        IfOk result (λ found. (has : HasIdentity m) × (has.identity ≡ found)) }
    ensures says { (m : Store) (has : HasIdentity m) → sight (K.kept keeper.old) ≡ Some m →
        Gives (λ found. found ≡ has.identity) result }
    ensures form { (m : Store) → sight (K.kept keeper.old) ≡ Some m → Reads (Lacks 1 (HasIdentity m)) result }
{
    match get_entry::<K, u32>(alloc, keeper, META, &NODE_ID)? {
        None => Ok(None),
        Some(id) => match get_entry::<K, Text>(alloc, keeper, META, &CLUSTER)? {
            Some(cluster) => Ok(Some(Identity { id, cluster })),
            None => Err(Stop::BadRow { space: META }),
        },
    }
}

/// Reads which node a database is, and the tables of its sets.
///
/// # Errors
///
/// `BadRow` where the id or the cluster of the node, a set or a table of a set is not in its form, and what stopped the
/// store.
pub fn find_node<K: Keeper>(alloc: Global, keeper: &mut K) -> Result<NodeMemory, Stop>
    ensures safe { Safe (K.kept keeper.old) (K.kept keeper.new) result }
    ensures same { OnOk result ((K.kept keeper.new).pending ≡ (K.kept keeper.old).pending) }
    ensures within { IfErr result IsWithinLimit }
    ensures says { (m : Store) (node : Option Node) → sight (K.kept keeper.old) ≡ Some m → HoldsNode node m →
        HasMeta node (m 1) → Gives (λ found. IsKnown node found.identity found.members) result }
    ensures form { (m : Store) → sight (K.kept keeper.old) ≡ Some m → Reads (HandedNode m) result }
{
    match find_identity(alloc, keeper)? {
        None => Ok(NodeMemory::none(alloc)),
        Some(identity) => {
            let members = find_members(alloc, keeper, identity.id)?;
            Ok(NodeMemory {
                identity: Some(identity),
                members,
            })
        }
    }
}
