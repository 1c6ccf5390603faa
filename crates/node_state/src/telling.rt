// The status of a node.
ghost use Rattle.std.specs.Prelude.{◌≡◌, ◌<◌, ◌^◌, ◌∷◌, [], ℕ, Option, Some, OnOk, IfErr};
ghost use Rattle.std.specs.Option.{option_map};
ghost use Rattle.std.specs.FinMap.{get};
ghost use Rattle.slon_base.specs.Codec.{number_bytes, AllAre};
ghost use Rattle.slon_base.specs.Keeper.{Store, sight};
ghost use Rattle.store_rows.specs.Rows.{IsId};
ghost use Rattle.store_rows.specs.Space.{AllOf};
ghost use Rattle.store_rows.specs.Steps.{Safe, IsWithinLimit, Gives};
ghost use Rattle.set_config.specs.Holds.{pair_key};
ghost use Rattle.slon_model.specs.Deeds.{Node};
ghost use Rattle.slon_model.specs.Deciding.{status_of};
ghost use Rattle.slon_model.specs.Place.{progress_of};
ghost use Rattle.event_store.specs.Formed.{Lacks, Reads};
ghost use Rattle.node_state.specs.Handed.{HasCount, HandedCounts, HandedProgress, HandedStatus};
ghost use Rattle.node_state.specs.Held.{NodeHeld, HoldsNode, log_of};
ghost use Rattle.node_state.specs.Progress.{counted, AreCounts};

use crate::entries::all_rows;
use crate::keeping::{kept_list, kept_views};
use crate::layout::{CONFIRMATIONS, NODES};
use log_switch::status;
use node_rows::NodeRow;
use slon_base::Keeper;
use slon_model::{Answer, ProgressList};
use std::alloc::Global;
use store_rows::{Stop, get_row};

/// How far the node of the id `own` is in the stream of a node, or `None` where it has none of its events.
fn find_count<K: Keeper>(
    alloc: Global,
    keeper: &mut K,
    own: u32,
    node: u32,
) -> Result<Option<u64>, Stop>
    requires own { IsId own }
    requires node { IsId node }
    ensures safe { Safe (K.kept keeper.old) (K.kept keeper.new) result }
    ensures same { OnOk result ((K.kept keeper.new).pending ≡ (K.kept keeper.old).pending) }
    ensures within { IfErr result IsWithinLimit }
    ensures says { (m : Store) (number : Option ℕ) → sight (K.kept keeper.old) ≡ Some m →
        AllOf (λ n. n < 2 ^ 63) number → get (m 11) (pair_key (node, own)) ≡ option_map number_bytes number →
        Gives (λ found. found ≡ number) result }
    ensures form { (m : Store) → sight (K.kept keeper.old) ≡ Some m → Reads (Lacks 11 (HasCount own m node)) result }
{
    get_row(alloc, keeper, CONFIRMATIONS, &(node, own))
}

/// How far the node of the id `own` is in the stream of each live node of these.
fn read_progress<K: Keeper>(
    alloc: Global,
    keeper: &mut K,
    own: u32,
    nodes: &[(u32, NodeRow)],
) -> Result<ProgressList, Stop>
    requires own { IsId own }
    requires nodes { AllAre (λ e. IsId e.0) nodes.now }
    ensures safe { Safe (K.kept keeper.old) (K.kept keeper.new) result }
    ensures same { OnOk result ((K.kept keeper.new).pending ≡ (K.kept keeper.old).pending) }
    ensures within { IfErr result IsWithinLimit }
    ensures says { (m : Store) (count : ℕ → Option ℕ) → sight (K.kept keeper.old) ≡ Some m → AreCounts own count m →
        Gives (λ progress. progress ≡ counted count nodes.now) result }
    ensures form { (m : Store) → sight (K.kept keeper.old) ≡ Some m → Reads (HandedCounts own nodes.now m) result }
{
    let mut progress = ProgressList::new(alloc);
    for (node, row) in nodes {
        if !row.live {
            continue;
        }
        let number = find_count(alloc, keeper, own, *node)?;
        progress.push(*node, number.unwrap_or(0))?;
    }
    Ok(progress)
}

/// How far the node of the id `own` is in the stream of each live node.
fn find_progress<K: Keeper>(alloc: Global, keeper: &mut K, own: u32) -> Result<ProgressList, Stop>
    requires { IsId own }
    ensures safe { Safe (K.kept keeper.old) (K.kept keeper.new) result }
    ensures same { OnOk result ((K.kept keeper.new).pending ≡ (K.kept keeper.old).pending) }
    ensures within { IfErr result IsWithinLimit }
    ensures says { (m : Store) (n : Node) → sight (K.kept keeper.old) ≡ Some m → n.id ≡ own → NodeHeld n m →
        Gives (λ progress. progress ≡ progress_of n) result }
    ensures form { (m : Store) → sight (K.kept keeper.old) ≡ Some m → Reads (HandedProgress own m) result }
{
    let nodes = all_rows(alloc, keeper, NODES)?;
    read_progress(alloc, keeper, own, nodes.as_slice())
}

/// The status of the node of this id: the status of its log, how far it is in the stream of each live node, and the
/// sets that it keeps, ascending.
///
/// # Errors
///
/// `BadRow` where what is read is not in its form, and what stopped the store.
pub fn tell<K: Keeper>(alloc: Global, keeper: &mut K, own: u32) -> Result<Answer, Stop>
    requires { IsId own }
    ensures safe { Safe (K.kept keeper.old) (K.kept keeper.new) result }
    ensures same { OnOk result ((K.kept keeper.new).pending ≡ (K.kept keeper.old).pending) }
    ensures within { IfErr result IsWithinLimit }
    ensures says { (m : Store) (n : Node) → sight (K.kept keeper.old) ≡ Some m → n.id ≡ own → HoldsNode (Some n) m →
        get (m 1) (6 ∷ []) ≡ Some (log_of (Some n) ∷ []) → Gives (λ answer. answer ≡ status_of (Some n)) result }
    ensures form { (m : Store) → sight (K.kept keeper.old) ≡ Some m → Reads (HandedStatus own m) result }
{
    let log = status(keeper)?;
    let views = kept_views(alloc, keeper)?;
    let kept = kept_list(alloc, views.as_slice())?;
    let progress = find_progress(alloc, keeper, own)?;
    Ok(Answer::Status {
        node: own,
        log,
        progress,
        kept,
    })
}
