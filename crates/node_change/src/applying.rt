// Events of other nodes, which a node takes over and carries out.
ghost use Rattle.std.specs.Prelude.{◌≡◌, List, Some, true, is_some, length, map, IfErr};
ghost use Rattle.std.specs.List.{AllByRecursion};
ghost use Rattle.slon_base.specs.Keeper.{Store};
ghost use Rattle.store_rows.specs.Rows.{IsId};
ghost use Rattle.store_rows.specs.Space.{Becomes};
ghost use Rattle.store_rows.specs.Spending.{PutsUpTo};
ghost use Rattle.store_rows.specs.Steps.{IsOutside, Safe};
ghost use Rattle.slon_model.specs.Events.{Event as SeenEvent, is_sync};
ghost use Rattle.slon_model.specs.Deeds.{Brought, Logged, Node, knowledge, nothing_brought};
ghost use Rattle.log_switch.specs.Between.{CanBeLogged};
ghost use Rattle.event_store.specs.Keeping.{KeepsViews};
ghost use Rattle.event_store.specs.Kept.{seen_view};
ghost use Rattle.event_store.specs.Spellings.{CanView};
ghost use Rattle.event_store.specs.Seen.{seen_event};
ghost use Rattle.node_state.specs.Held.{HoldsNode};
ghost use Rattle.node_state.specs.Known.{IsHomed};
ghost use Rattle.node_change.specs.Done.{CanApply, HasApplied, HasKept, HoldsKept, row_of, with_logs, with_view};

use crate::forwarding::tell_views;
use change_capture::LogRow;
use event_store::{Event, View, keep_view, store};
use log_switch::append;
use set_config::change;
use slon_base::Keeper;
use std::alloc::Global;
use store_rows::Stop;

/// The node applies an event of another node, in what is pending: it holds the event, is as far as that in the stream
/// of its origin, and makes the change that the body names. Where it is to forward a set from there on, what it keeps
/// of the set gets a new base. The event is to be behind all events of its origin that the node has met, and a table
/// may be put only into a set that the node knows.
///
/// # Errors
///
/// `BadRow` where a row that is read is not in its form; what stopped the store, and `NoMemory`.
pub fn apply<K: Keeper>(alloc: Global, keeper: &mut K, own: u32, event: &Event) -> Result<(), Stop>
    requires opened { is_some (K.kept keeper.old).pending ≡ true }
    requires own { IsId own }
    requires keeps { KeepsViews event.now.body }
    ensures safe { Safe (K.kept keeper.old) (K.kept keeper.new) result }
    ensures puts { is_sync event.now.body ≡ true → PutsUpTo 3 (K.kept keeper.old).puts
        (K.kept keeper.new).puts }
    ensures turns { (n : Node) (m : Store) → n.id ≡ own → (K.kept keeper.old).pending ≡ Some (Some m) →
        HoldsNode (Some n) m → CanApply n (seen_event event.now) → IsHomed event.now.body (knowledge n).config →
        Becomes (HasApplied n (seen_event event.now) m) (K.kept keeper.new) result }
{
    store(alloc, keeper, own, event)?;
    tell_views(alloc, keeper, own, &event.body)?;
    change(alloc, keeper, event.origin, event.number, &event.body)
}

/// The same, and the node keeps this of a set from then on.
///
/// # Errors
///
/// `BadRow` where a row that is read is not in its form; what stopped the store, and `NoMemory`.
pub fn apply_keeping<K: Keeper>(
    alloc: Global,
    keeper: &mut K,
    own: u32,
    event: &Event,
    set: u32,
    view: &View,
) -> Result<(), Stop>
    requires opened { is_some (K.kept keeper.old).pending ≡ true }
    requires own { IsId own }
    requires keeps { KeepsViews event.now.body }
    requires kept { IsId set × CanView (seen_view view.now) }
    ensures safe { Safe (K.kept keeper.old) (K.kept keeper.new) result }
    ensures turns { (n : Node) (m : Store) → n.id ≡ own → (K.kept keeper.old).pending ≡ Some (Some m) →
        HoldsNode (Some n) m → CanApply n (seen_event event.now) → IsHomed event.now.body (knowledge n).config →
        Becomes (HasKept n (seen_event event.now) (with_view (set, seen_view view.now) nothing_brought) m)
        (K.kept keeper.new) result }
{
    apply(alloc, keeper, own, event)?;
    keep_set(alloc, keeper, set, view)
}

/// A node that applied an event in what is pending keeps this of one set more from then on.
///
/// # Errors
///
/// What stopped the store, and `NoMemory`.
pub fn keep_set<K: Keeper>(alloc: Global, keeper: &mut K, set: u32, view: &View) -> Result<(), Stop>
    requires opened { is_some (K.kept keeper.old).pending ≡ true }
    requires kept { IsId set × CanView (seen_view view.now) }
    ensures safe { Safe (K.kept keeper.old) (K.kept keeper.new) result }
    ensures puts { PutsUpTo 1 (K.kept keeper.old).puts (K.kept keeper.new).puts }
    ensures only { IfErr result IsOutside }
    ensures turns { (n : Node) (e : SeenEvent) (b : Brought) (m : Store) →
        (K.kept keeper.old).pending ≡ Some (Some m) → HoldsKept n e b m →
        Becomes (HasKept n e (with_view (set, seen_view view.now) b) m) (K.kept keeper.new) result }
{
    keep_view(alloc, keeper, set, view)
}

/// A node that applied an event in what is pending logs these rows of this origin too, each with the number of its
/// action.
///
/// # Errors
///
/// What stopped the store, and `NoMemory`.
pub fn log_rows<K: Keeper>(
    alloc: Global,
    keeper: &mut K,
    origin: u32,
    rows: &[(u64, LogRow)],
) -> Result<(), Stop>
    requires opened { is_some (K.kept keeper.old).pending ≡ true }
    requires id { IsId origin }
    requires can { AllByRecursion CanBeLogged rows.now }
    ensures safe { Safe (K.kept keeper.old) (K.kept keeper.new) result }
    ensures puts { PutsUpTo (length rows.now) (K.kept keeper.old).puts (K.kept keeper.new).puts }
    ensures only { IfErr result IsOutside }
    ensures turns { (n : Node) (e : SeenEvent) (b : Brought) (m : Store) (logs : List Logged) →
        (K.kept keeper.old).pending ≡ Some (Some m) → HoldsKept n e b m →
        AllByRecursion (λ l. l.origin ≡ origin) logs → rows.now ≡ map row_of logs →
        Becomes (HasKept n e (with_logs logs b) m) (K.kept keeper.new) result }
{
    append(alloc, keeper, origin, rows)
}
