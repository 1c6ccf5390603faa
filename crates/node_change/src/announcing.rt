// Events that a node emits and carries out.
ghost use Rattle.std.specs.Prelude.{◌≡◌, Some, true, is_some};
ghost use Rattle.slon_base.specs.Keeper.{Store};
ghost use Rattle.store_rows.specs.Rows.{IsId};
ghost use Rattle.store_rows.specs.Steps.{Safe};
ghost use Rattle.node_rows.specs.Spellings.{CanBody};
ghost use Rattle.txn_core.specs.Snapshots.{seen_as};
ghost use Rattle.slon_model.specs.Deeds.{Node, knowledge};
ghost use Rattle.event_store.specs.Keeping.{KeepsViews};
ghost use Rattle.event_store.specs.Seen.{event_by};
ghost use Rattle.event_store.specs.Spellings.{CanSnapshot};
ghost use Rattle.node_state.specs.Held.{HoldsNode};
ghost use Rattle.node_state.specs.Known.{IsHomed};
ghost use Rattle.node_change.specs.Announced.{Announces};

use event_store::emit;
use node_rows::Body;
use set_config::change;
use slon_base::Keeper;
use std::alloc::Global;
use store_rows::Stop;
use txn_core::Snapshot;

/// The node emits an event with this body, which gets its next number, and makes the change that the body names, in
/// what is pending. The snapshot is one that was taken in the transaction that emits the event. A table may be put only
/// into a set that the node knows.
///
/// # Errors
///
/// `TooBig` of space 10 exactly where no number is left, and then nothing is changed; `BadRow` where a row that is read
/// is not in its form; what stopped the store, and `NoMemory`.
pub fn announce<K: Keeper>(
    alloc: Global,
    keeper: &mut K,
    own: u32,
    taken: &Snapshot,
    body: &Body,
) -> Result<u64, Stop>
    requires opened { is_some (K.kept keeper.old).pending ≡ true }
    requires own { IsId own }
    requires can { CanSnapshot (seen_as taken.now) × CanBody body.now }
    requires keeps { KeepsViews body.now }
    ensures safe { Safe (K.kept keeper.old) (K.kept keeper.new) result }
    ensures turns { (n : Node) (m : Store) → n.id ≡ own → (K.kept keeper.old).pending ≡ Some (Some m) →
        HoldsNode (Some n) m → IsHomed body.now (knowledge n).config →
        Announces n m (λ number. event_by own number taken.now body.now) (K.kept keeper.old) (K.kept keeper.new)
        result }
{
    let number = emit(alloc, keeper, own, taken, body)?;
    change(alloc, keeper, own, number, body)?;
    Ok(number)
}
