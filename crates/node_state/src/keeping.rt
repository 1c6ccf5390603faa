// What a node keeps of the sets that it receives.
ghost use Rattle.std.specs.Prelude.{◌≡◌, Some, OnOk, IfOk, IfErr, map};
ghost use Rattle.slon_base.specs.Codec.{AllAre};
ghost use Rattle.slon_base.specs.Keeper.{Store, sight};
ghost use Rattle.store_rows.specs.Rows.{IsId};
ghost use Rattle.store_rows.specs.Steps.{Safe, IsWithinLimit, Gives};
ghost use Rattle.slon_model.specs.Deeds.{Node, knowledge};
ghost use Rattle.slon_model.specs.Place.{kept_text};
ghost use Rattle.event_store.specs.Formed.{Lacks, Reads};
ghost use Rattle.event_store.specs.Kept.{seen_view};
ghost use Rattle.event_store.specs.Spellings.{CanView};
ghost use Rattle.node_state.specs.Handed.{AreViews};
ghost use Rattle.node_state.specs.Held.{NodeHeld, seen_views};

use crate::entries::all_rows;
use crate::layout::VIEWS;
use event_store::View;
use slon_base::{Keeper, Many};
use slon_model::KeptList;
use std::alloc::{AllocError, Global};
use store_rows::Stop;

/// What the node keeps of each set that it receives, ascending by set.
///
/// # Errors
///
/// `BadRow` of space 9 exactly where a row there is not in its form, what stopped the store, and `NoMemory`.
pub fn kept_views<K: Keeper>(alloc: Global, keeper: &mut K) -> Result<Many<(u32, View)>, Stop>
    ensures safe { Safe (K.kept keeper.old) (K.kept keeper.new) result }
    ensures same { OnOk result ((K.kept keeper.new).pending ≡ (K.kept keeper.old).pending) }
    ensures within { IfErr result IsWithinLimit }
    ensures can { IfOk result (AllAre (λ e. IsId e.0 × CanView (seen_view e.1))) }
    ensures found { (m : Store) → sight (K.kept keeper.old) ≡ Some m → IfOk result (λ found. AreViews m) }
    ensures says { (m : Store) (n : Node) → sight (K.kept keeper.old) ≡ Some m → NodeHeld n m →
        Gives (λ found. seen_views found ≡ (knowledge n).views) result }
    ensures form { (m : Store) → sight (K.kept keeper.old) ≡ Some m → Reads (Lacks 9 (AreViews m)) result }
{
    all_rows(alloc, keeper, VIEWS)
}

/// These sets with the era and the printed snapshot of each.
pub(crate) fn kept_list(alloc: Global, views: &[(u32, View)]) -> Result<KeptList, AllocError>
    ensures { IfOk result (λ list. list ≡ map kept_text (seen_views views.now)) }
{
    let mut kept = KeptList::new(alloc);
    for (set, view) in views {
        kept.push(*set, view.era, view.seen.print(alloc)?)?;
    }
    Ok(kept)
}
