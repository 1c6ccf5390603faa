// What a node is told of how far other nodes are.
ghost use Rattle.std.specs.Prelude.{◌≡◌, Some, true, is_some, map, IfErr};
ghost use Rattle.slon_base.specs.Codec.{AllAre};
ghost use Rattle.slon_base.specs.Keeper.{Store};
ghost use Rattle.store_rows.specs.Rows.{IsId};
ghost use Rattle.store_rows.specs.Space.{Becomes};
ghost use Rattle.store_rows.specs.Steps.{Safe, IsWithinLimit, IsOfSpace};
ghost use Rattle.slon_model.specs.Deeds.{Node};
ghost use Rattle.event_store.specs.Telling.{IsOfOther, named};
ghost use Rattle.node_state.specs.Held.{HoldsNode};
ghost use Rattle.node_change.specs.Done.{HasHeard};

use event_store::{Confirmation, confirm_all};
use slon_base::Keeper;
use std::alloc::Global;
use store_rows::Stop;

/// The node hears these confirmations of other nodes, in what is pending: each is kept that is above what stood.
///
/// # Errors
///
/// `BadRow` of space 11 where the row of how far one of these nodes is is not in its form, what stopped the store, and
/// `NoMemory`.
pub fn hear<K: Keeper>(
    alloc: Global,
    keeper: &mut K,
    own: u32,
    rows: &[Confirmation],
) -> Result<(), Stop>
    requires opened { is_some (K.kept keeper.old).pending ≡ true }
    requires own { IsId own }
    requires rows { AllAre (IsOfOther own) rows.now }
    ensures safe { Safe (K.kept keeper.old) (K.kept keeper.new) result }
    ensures within { IfErr result IsWithinLimit }
    ensures space { IfErr result (IsOfSpace 11) }
    ensures turns { (n : Node) (m : Store) → n.id ≡ own → (K.kept keeper.old).pending ≡ Some (Some m) →
        HoldsNode (Some n) m → Becomes (HasHeard n (map named rows.now) m) (K.kept keeper.new) result }
{
    confirm_all(alloc, keeper, own, rows)
}
