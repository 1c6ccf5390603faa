// What a database finds in its store as it comes up.
ghost use Rattle.std.specs.Prelude.{◌≡◌, ◌<◌, ◌^◌, ◌⊎◌, ℕ, IfOk, OnOk, Option, Some, false, is_some};
ghost use Rattle.slon_base.specs.Keeper.{Store};
ghost use Rattle.slon_model.specs.Deeds.{Node};
ghost use Rattle.node_state.specs.Held.{HoldsNode, HasMeta};
ghost use Rattle.node_state.specs.Handed.{HandedNode};
ghost use Rattle.app_store.specs.Formed.{AreNumbers, Lacks, Reads};
ghost use Rattle.app_store.specs.Restored.{RestoresTo, AreOf};
ghost use Rattle.app_store.specs.Spelled.{meta, HasNumbers};
ghost use Rattle.app_store.specs.Steps.{IsSure, IsCounted};
ghost use Rattle.app_store.specs.Works.{AreSmall};

use crate::look::Numbers;
use crate::numbers::recover;
use node_state::{NodeMemory, find_node};
use slon_base::Keeper;
use std::alloc::Global;
use store_rows::Stop;

/// What was found: the node that the database is, the stamp, if its first rows stood, and its numbers.
#[derive(Drop)]
pub(crate) struct Restored {
    pub(crate) node: NodeMemory,
    pub(crate) stamp: Option<u64>,
    pub(crate) numbers: Numbers,
}

/// Reads which node the database is, and its numbers, after its first rows were written where it had none.
pub(crate) fn restore<K: Keeper>(alloc: Global, keeper: &mut K) -> Result<Restored, Stop>
    requires { is_some (K.kept keeper.old).pending ≡ false }
    ensures sure { IsSure (K.kept keeper.old) (K.kept keeper.new) result }
    ensures counted { IsCounted (K.kept keeper.old) (K.kept keeper.new) result }
    ensures restores { (m : Store) (node : Option Node) (stamp xids numbers : ℕ) →
        (K.kept keeper.old).held ≡ Some m → AreOf node stamp xids numbers m →
        RestoresTo m node stamp xids numbers result (K.kept keeper.new) }
    ensures form { (m : Store) → (K.kept keeper.old).held ≡ Some m →
        Reads (λ space. HandedNode m space ⊎ Lacks meta (AreNumbers m) space) result }
    ensures small { IfOk result (λ r. AreSmall (Some r.numbers)) }
    ensures idle { OnOk result (is_some (K.kept keeper.new).pending ≡ false) }
{
    let node = find_node(alloc, keeper)?;
    let (stamp, numbers) = recover(alloc, keeper)?;
    Ok(Restored {
        node,
        stamp,
        numbers,
    })
}
