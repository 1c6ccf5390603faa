// What a node takes of sets with an event of another node.
ghost use Rattle.std.specs.Prelude.{◌≡◌, ◌+◌, ◌*◌, List, Some, true, is_some, length, map, IfErr};
ghost use Rattle.std.specs.List.{AllByRecursion};
ghost use Rattle.slon_base.specs.Keeper.{Store};
ghost use Rattle.store_rows.specs.Rows.{IsId};
ghost use Rattle.store_rows.specs.Space.{Becomes, IsPending};
ghost use Rattle.store_rows.specs.Spending.{PutsUpTo};
ghost use Rattle.store_rows.specs.Steps.{IsOutside, Safe};
ghost use Rattle.slon_model.specs.Events.{Event as SeenEvent, is_sync};
ghost use Rattle.slon_model.specs.Deeds.{Brought as Rules, Logged, Node};
ghost use Rattle.slon_model.specs.Following.{SetSync as RulesSync, with_sync};
ghost use Rattle.slon_model.specs.Place.{Place, standing_rows};
ghost use Rattle.log_switch.specs.Between.{CanBeLogged};
ghost use Rattle.event_store.specs.Keeping.{KeepsViews};
ghost use Rattle.event_store.specs.Seen.{seen_event};
ghost use Rattle.node_change.specs.Done.{HasKept, HoldsKept, row_of};
ghost use Rattle.node_store.specs.Bringing.{CanBring, CanKeep, CanSync, CanTake, HasAll, HasBrought, HasSet, HasSync};
ghost use Rattle.node_store.specs.Bringing.{HasSynced, IsBrought, IsSyncWith, puts_taken, with_forwarded};
ghost use Rattle.node_store.specs.declared.bringing.SetSync.{SetSync as DeclaredSync};

use change_apply::{apply_actions, replace_tables};
use change_capture::{Action, LogRow};
use event_store::{Event, View};
use node_change::{apply, apply_keeping, keep_set, log_rows};
use slon_base::{Keeper, Many, Text, TextList};
use std::alloc::Global;
use store_rows::Stop;

/// What a node takes of sets as it applies an event of another node.
#[derive(Drop)]
pub enum Brought {
    /// A set that it copied.
    Copy(SetCopy),
    /// What was logged of each set that it keeps, with a SYNC.
    Syncs(Many<SetSync>),
}

/// A set that a node copied.
#[derive(Drop)]
pub struct SetCopy {
    /// The id of the set, of which the node keeps something from then on.
    pub set: u32,
    /// How far it is in the set.
    pub view: View,
    /// The tables that are filled, by their names, each with its rows. Of two entries for one table the first stands.
    pub tables: Many<(Text, Many<(Text, TextList)>)>,
}

/// What a node takes of a set with a SYNC.
#[derive(Drop)]
pub struct SetSync {
    /// The id of the set.
    pub set: u32,
    /// How far the node is in the set then.
    pub view: View,
    /// The rows of the provider's log, each with the number of its action, in the order of these numbers.
    pub rows: Many<(u64, LogRow)>,
    /// The actions that these rows are of, in the same order.
    pub actions: Many<Action>,
    /// Whether the node logs these rows too.
    pub forwards: bool,
}

/// The node applies an event of another node, and takes a set with it, in what is pending.
fn take_set<K: Keeper>(
    alloc: Global,
    keeper: &mut K,
    own: u32,
    event: &Event,
    given: SetCopy,
) -> Result<(), Stop>
    requires opened { is_some (K.kept keeper.old).pending ≡ true }
    requires own { IsId own }
    requires keeps { KeepsViews event.now.body }
    requires can { CanKeep given }
    ensures safe { Safe (K.kept keeper.old) (K.kept keeper.new) result }
    ensures takes { (n : Node) (m : Store) (p : Place) (b : Rules) → n.id ≡ own →
        (K.kept keeper.old).pending ≡ Some (Some m) → CanTake n (seen_event event.now) p m → HasSet b given →
        Becomes (HasBrought n (seen_event event.now) b (standing_rows p) m) (K.kept keeper.new) result }
{
    let SetCopy { set, view, tables } = given;
    apply_keeping(alloc, keeper, own, event, set, &view)?;
    replace_tables(alloc, keeper, tables)
}

/// A node that applied an event of this origin logs these rows too, in what is pending, if it forwards their set.
fn log_forwarded<K: Keeper>(
    alloc: Global,
    keeper: &mut K,
    origin: u32,
    rows: &[(u64, LogRow)],
    forwards: bool,
) -> Result<(), Stop>
    requires opened { is_some (K.kept keeper.old).pending ≡ true }
    requires id { IsId origin }
    requires can { AllByRecursion CanBeLogged rows.now }
    ensures safe { Safe (K.kept keeper.old) (K.kept keeper.new) result }
    ensures puts { PutsUpTo (length rows.now) (K.kept keeper.old).puts (K.kept keeper.new).puts }
    ensures only { IfErr result IsOutside }
    ensures logs { (n : Node) (e : SeenEvent) (b : Rules) (m : Store) (logs : List Logged) →
        (K.kept keeper.old).pending ≡ Some (Some m) → HoldsKept n e b m →
        AllByRecursion (λ l. l.origin ≡ origin) logs → rows.now ≡ map row_of logs →
        Becomes (HasKept n e (with_forwarded forwards logs b) m) (K.kept keeper.new) result }
{
    if forwards {
        log_rows(alloc, keeper, origin, rows)
    } else {
        Ok(())
    }
}

/// A node that applied an event of this origin takes what was logged of a set, in what is pending.
fn take_sync<K: Keeper>(
    alloc: Global,
    keeper: &mut K,
    origin: u32,
    sync: SetSync,
) -> Result<(), Stop>
    requires opened { is_some (K.kept keeper.old).pending ≡ true }
    requires id { IsId origin }
    requires can { CanSync sync }
    ensures safe { Safe (K.kept keeper.old) (K.kept keeper.new) result }
    ensures puts { PutsUpTo (2 * length sync.rows + 1) (K.kept keeper.old).puts (K.kept keeper.new).puts }
    ensures takes { (n : Node) (e : SeenEvent) (p : Place) (m : Store) (b : Rules) (t : RulesSync) →
        IsPending (HasSynced n e p m b) (K.kept keeper.old) → HasSync origin t sync →
        Becomes (HasSynced n e p m (with_sync p t b)) (K.kept keeper.new) result }
{
    let SetSync {
        set,
        view,
        rows,
        actions,
        forwards,
    } = sync;
    keep_set(alloc, keeper, set, &view)?;
    log_forwarded(alloc, keeper, origin, rows.as_slice(), forwards)?;
    apply_actions(alloc, keeper, actions)
}

/// The node applies an event of another node, and takes what was logged of these sets with it, in what is pending.
fn take_syncs<K: Keeper>(
    alloc: Global,
    keeper: &mut K,
    own: u32,
    event: &Event,
    syncs: Many<SetSync>,
) -> Result<(), Stop>
    requires opened { is_some (K.kept keeper.old).pending ≡ true }
    requires own { IsId own }
    requires keeps { KeepsViews event.now.body }
    requires can { AllByRecursion CanSync syncs }
    ensures safe { Safe (K.kept keeper.old) (K.kept keeper.new) result }
    ensures puts { is_sync event.now.body ≡ true →
        PutsUpTo (puts_taken syncs) (K.kept keeper.old).puts (K.kept keeper.new).puts }
    ensures takes { (n : Node) (m : Store) (p : Place) (b : Rules) → n.id ≡ own →
        (K.kept keeper.old).pending ≡ Some (Some m) → CanTake n (seen_event event.now) p m →
        HasAll (seen_event event.now).origin p b syncs →
        Becomes (HasBrought n (seen_event event.now) b (standing_rows p) m) (K.kept keeper.new) result }
{
    apply(alloc, keeper, own, event)?;
    for sync in syncs.into_vec() {
        take_sync(alloc, keeper, event.origin, sync)?;
    }
    Ok(())
}

/// The node applies an event of another node with what comes with it, in what is pending.
pub(crate) fn take<K: Keeper>(
    alloc: Global,
    keeper: &mut K,
    own: u32,
    event: &Event,
    brought: Option<Brought>,
) -> Result<(), Stop>
    requires opened { is_some (K.kept keeper.old).pending ≡ true }
    requires own { IsId own }
    requires keeps { KeepsViews event.now.body }
    requires can { CanBring brought }
    ensures safe { Safe (K.kept keeper.old) (K.kept keeper.new) result }
    ensures puts { (deltas : List DeclaredSync) → IsSyncWith deltas (seen_event event.now) brought →
        PutsUpTo (puts_taken deltas) (K.kept keeper.old).puts (K.kept keeper.new).puts }
    ensures takes { (n : Node) (m : Store) (p : Place) (b : Rules) → n.id ≡ own →
        (K.kept keeper.old).pending ≡ Some (Some m) → CanTake n (seen_event event.now) p m →
        IsBrought (seen_event event.now).origin p b brought →
        Becomes (HasBrought n (seen_event event.now) b (standing_rows p) m) (K.kept keeper.new) result }
{
    match brought {
        None => apply(alloc, keeper, own, event),
        Some(Brought::Copy(given)) => take_set(alloc, keeper, own, event, given),
        Some(Brought::Syncs(syncs)) => take_syncs(alloc, keeper, own, event, syncs),
    }
}
