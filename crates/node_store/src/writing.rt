// What a node does in its store: it begins, and emits events.
ghost use Rattle.std.specs.Prelude.{◌≡◌, ◌<◌, ◌^◌, Some, None, true, false, is_some, OnOk, IfErr};
ghost use Rattle.std.specs.Prelude.{List, [], ◌∷◌, map, ℕ};
ghost use Rattle.slon_base.specs.Codec.{AllAre, IsText};
ghost use Rattle.event_store.specs.Telling.{IsOfOther, named};
ghost use Rattle.slon_model.specs.Membership.{first_of_cluster, joining as joining_node};
ghost use Rattle.slon_model.specs.Sessions.{Running};
ghost use Rattle.slon_base.specs.Keeper.{Store, sight};
ghost use Rattle.node_rows.specs.Spellings.{CanBody};
ghost use Rattle.store_rows.specs.Rows.{IsId};
ghost use Rattle.store_rows.specs.Spending.{PutsUpTo};
ghost use Rattle.store_rows.specs.Steps.{Safe, IsWithinLimit};
ghost use Rattle.txn_core.specs.Snapshots.{seen_as};
ghost use Rattle.node_rows.specs.declared.body.Body.TheVariants.{StoreNode};
ghost use Rattle.node_change.specs.Becoming.{IsNode};
ghost use Rattle.slon_model.specs.Maps.{entry_at};
ghost use Rattle.slon_model.specs.Deeds.{Node, Hears, knowledge};
ghost use Rattle.slon_model.specs.Deeds.{Brought as Rules};
ghost use Rattle.slon_model.specs.Place.{Place, standing_rows};
ghost use Rattle.node_store.specs.Bringing.{CanBring, CanTake, IsBrought, IsSyncWith, WritesBrought, puts_allowed};
ghost use Rattle.node_store.specs.declared.bringing.SetSync.{SetSync};
ghost use Rattle.event_store.specs.Keeping.{KeepsViews};
ghost use Rattle.event_store.specs.Seen.{seen_event};
ghost use Rattle.event_store.specs.Spellings.{CanSnapshot};
ghost use Rattle.node_state.specs.Held.{HoldsNode};
ghost use Rattle.node_store.specs.Acting.{Emitter, IsTold, EmitsEach, WritesEvents, WritesDone, WritesNode, KeepsNode};
ghost use Rattle.node_change.specs.Both.{stopped};
ghost use Rattle.node_store.specs.Midways.{Enters, EntersSecond, EntersBoth, of_event};
ghost use Rattle.node_store.specs.Joining.{WritesBoth};

use crate::bringing::{Brought, take};
use crate::layout::{EVENTS, META, STAMP};
use app_store::begin;
use event_store::{Confirmation, Event};
use node_change::{Failed, Side, announce, found_node, hear, join_node, sided};
use node_rows::Body;
use node_state::{NodeMemory, find_node};
use slon_base::{Keeper, Text};
use std::alloc::Global;
use std::array;
use store_rows::{Stop, put_pair, spelling};
use txn_core::Snapshot;

/// Why work on events stopped: a number that is too big is that of an event.
fn event_stop(stop: Stop) -> Stop
    ensures told { result ≡ of_event stop }
{
    match stop {
        Stop::TooBig { .. } => Stop::TooBig { space: EVENTS },
        other => other,
    }
}

/// Has a node emit events with these bodies, one after the other, and make the changes that they name, in what is
/// pending. Answers the number of the last one.
fn emit_each<K: Keeper>(
    alloc: Global,
    keeper: &mut K,
    own: u32,
    taken: &Snapshot,
    bodies: &[Body],
) -> Result<u64, Stop>
    requires opened { is_some (K.kept keeper.old).pending ≡ true }
    requires own { IsId own }
    requires can { CanSnapshot (seen_as taken.now) × AllAre CanBody bodies.now }
    requires keeps { AllAre KeepsViews bodies.now }
    ensures safe { Safe (K.kept keeper.old) (K.kept keeper.new) result }
    ensures emits { (e : Emitter) → IsTold own (seen_as taken.now) bodies.now e →
        (K.kept keeper.old).pending ≡ Some (Some e.held) → EmitsEach e result (K.kept keeper.new) }
{
    let mut last = 0;
    for body in bodies {
        last = announce(alloc, keeper, own, taken, body)?;
    }
    Ok(last)
}

/// Begins a transaction, and has a node emit events with these bodies and make the changes that they name, with the
/// stamp of the transaction. Answers the number of the last one.
pub(crate) fn write_events<K: Keeper>(
    alloc: Global,
    keeper: &mut K,
    own: u32,
    taken: &Snapshot,
    bodies: &[Body],
    stamp: u64,
) -> Result<u64, Stop>
    requires idle { is_some (K.kept keeper.old).pending ≡ false }
    requires own { IsId own }
    requires can { CanSnapshot (seen_as taken.now) × AllAre CanBody bodies.now }
    requires keeps { AllAre KeepsViews bodies.now }
    requires room { stamp < 2 ^ 63 }
    ensures enters { Enters (K.kept keeper.old) (K.kept keeper.new) result }
    ensures writes { (e : Emitter) → IsTold own (seen_as taken.now) bodies.now e →
        (K.kept keeper.old).held ≡ Some e.held → WritesEvents e stamp result (K.kept keeper.new) }
{
    let stamp = spelling(alloc, &stamp)?;
    begin(keeper)?;
    match emit_each(alloc, keeper, own, taken, bodies) {
        Ok(number) => {
            put_pair(keeper, META, &STAMP, stamp.as_slice())?;
            Ok(number)
        }
        Err(stop) => Err(event_stop(stop)),
    }
}

/// What is kept of the node that a database becomes in the transaction that is pending, which gets its stamp.
fn keep_node<K: Keeper>(alloc: Global, keeper: &mut K, stamp: &[u8]) -> Result<NodeMemory, Stop>
    requires opened { is_some (K.kept keeper.old).pending ≡ true }
    ensures safe { Safe (K.kept keeper.old) (K.kept keeper.new) result }
    ensures within { IfErr result IsWithinLimit }
    ensures keeps { (n : Node) (m store : Store) → (K.kept keeper.old).pending ≡ Some (Some store) →
        IsNode n m store → KeepsNode n store stamp.now result (K.kept keeper.new) }
{
    let node = find_node(alloc, keeper)?;
    put_pair(keeper, META, &STAMP, stamp)?;
    Ok(node)
}

/// Begins a transaction, and makes a database that is no node the first node of a cluster of this name, with the stamp
/// of the transaction. Answers what is kept of the node.
pub(crate) fn write_first<K: Keeper>(
    alloc: Global,
    keeper: &mut K,
    id: u32,
    cluster: &Text,
    comment: &Text,
    stamp: u64,
) -> Result<NodeMemory, Stop>
    requires idle { is_some (K.kept keeper.old).pending ≡ false }
    requires can { IsId id × IsText cluster.now × IsText comment.now }
    requires room { stamp < 2 ^ 63 }
    ensures enters { Enters (K.kept keeper.old) (K.kept keeper.new) result }
    ensures writes { (run : Running) (m : Store) → run.cluster ≡ cluster.now → (K.kept keeper.old).held ≡ Some m →
        HoldsNode None m →
        WritesNode (first_of_cluster id comment.now run) m stamp result (K.kept keeper.new) }
{
    let stamp = spelling(alloc, &stamp)?;
    begin(keeper)?;
    found_node(alloc, keeper, id, cluster, comment)?;
    keep_node(alloc, keeper, stamp.as_slice())
}

/// A database that is to become a node: its id, the id of the event node, the name of the cluster, and the stamps of
/// the transactions of the event node and of the new one.
#[derive(Clone, Copy)]
pub(crate) struct Joining<'a> {
    pub(crate) own: u32,
    pub(crate) new: u32,
    pub(crate) cluster: &'a Text,
    pub(crate) event_stamp: u64,
    pub(crate) node_stamp: u64,
}

/// Begins a transaction, and makes a database that is no node a further node of the cluster, with what is kept of it,
/// as the store of the event node is seen now.
fn write_node<K: Keeper>(
    alloc: Global,
    from: &mut K,
    to: &mut K,
    joining: Joining<'_>,
) -> Result<NodeMemory, Failed>
    requires idle { is_some (K.kept to.old).pending ≡ false }
    requires can { IsId joining.own × IsId joining.new × IsText joining.cluster.now }
    requires room { joining.node_stamp < 2 ^ 63 }
    ensures enters { EntersSecond (K.kept from.old) (K.kept from.new) (K.kept to.old) (K.kept to.new) result }
    ensures same { OnOk result ((K.kept from.new).pending ≡ (K.kept from.old).pending) }
    ensures within { IfErr result (λ f. IsWithinLimit f.stop) }
    ensures writes { (n : Node) (run : Running) (m t : Store) → n.id ≡ joining.entry.own →
        run.cluster ≡ joining.entry.cluster.now → sight (K.kept from.old) ≡ Some m → HoldsNode (Some n) m →
        is_some (entry_at joining.entry.new (knowledge n).config.nodes) ≡ true →
        (K.kept to.old).held ≡ Some t → HoldsNode None t →
        WritesNode (joining_node joining.entry.new n run) t joining.entry.node_stamp (stopped result) (K.kept to.new) }
{
    let Ok(stamp) = spelling(alloc, &joining.node_stamp) else {
        return Err(Failed {
            side: Side::To,
            stop: Stop::NoMemory,
        });
    };
    sided(Side::To, begin(to))?;
    join_node(alloc, from, to, joining.own, joining.new, joining.cluster)?;
    sided(Side::To, keep_node(alloc, to, stamp.as_slice()))
}

/// Has the event node emit an event with this body, and makes the other database a further node of the cluster, each in
/// a transaction of its store that is left pending. Answers the number of the event, and what is kept of the new node.
pub(crate) fn write_both<K: Keeper>(
    alloc: Global,
    from: &mut K,
    to: &mut K,
    taken: &Snapshot,
    body: &Body,
    joining: Joining<'_>,
) -> Result<(u64, NodeMemory), Failed>
    requires idle { (is_some (K.kept from.old).pending ≡ false) × (is_some (K.kept to.old).pending ≡ false) }
    requires ids { IsId joining.own × IsId joining.new × IsText joining.cluster.now }
    requires can { CanSnapshot (seen_as taken.now) × CanBody body.now }
    requires keeps { KeepsViews body.now }
    requires room { (joining.event_stamp < 2 ^ 63) × (joining.node_stamp < 2 ^ 63) }
    ensures enters { EntersBoth (K.kept from.old) (K.kept from.new) (K.kept to.old) (K.kept to.new) result }
    ensures writes { (e : Emitter) (run : Running) (t : Store) (comment : List ℕ) →
        IsTold joining.entry.own (seen_as taken.now) (body.now ∷ []) e → run.cluster ≡ joining.entry.cluster.now →
        body.now ≡ StoreNode joining.entry.new comment → (K.kept from.old).held ≡ Some e.held →
        (K.kept to.old).held ≡ Some t → HoldsNode None t →
        WritesBoth e (record { id = joining.entry.new; run = run; held = t }) (record {
          from = joining.entry.event_stamp;
          to = joining.entry.node_stamp;
        }) result (K.kept from.new) (K.kept to.new) }
{
    let bodies = array::from_ref(body);
    match write_events(alloc, from, joining.own, taken, bodies, joining.event_stamp) {
        Err(stop) => Err(Failed {
            side: Side::From,
            stop,
        }),
        Ok(number) => {
            let node = write_node(alloc, from, to, joining)?;
            Ok((number, node))
        }
    }
}

/// Begins a transaction, and has the node hear these confirmations of other nodes, with the stamp of the transaction.
pub(crate) fn write_heard<K: Keeper>(
    alloc: Global,
    keeper: &mut K,
    own: u32,
    rows: &[Confirmation],
    stamp: u64,
) -> Result<(), Stop>
    requires idle { is_some (K.kept keeper.old).pending ≡ false }
    requires own { IsId own }
    requires rows { AllAre (IsOfOther own) rows.now }
    requires room { stamp < 2 ^ 63 }
    ensures enters { Enters (K.kept keeper.old) (K.kept keeper.new) result }
    ensures writes { (n : Node) (m : Store) → n.id ≡ own → (K.kept keeper.old).held ≡ Some m → HoldsNode (Some n) m →
        WritesDone n m (Hears (map named rows.now)) stamp result (K.kept keeper.new) }
{
    let stamp = spelling(alloc, &stamp)?;
    begin(keeper)?;
    hear(alloc, keeper, own, rows)?;
    put_pair(keeper, META, &STAMP, stamp.as_slice())
}

/// Begins a transaction, and has the node apply an event of another node with what comes with it, with the stamp of the
/// transaction.
pub(crate) fn write_applied<K: Keeper>(
    alloc: Global,
    keeper: &mut K,
    own: u32,
    event: &Event,
    brought: Option<Brought>,
    stamp: u64,
) -> Result<(), Stop>
    requires idle { is_some (K.kept keeper.old).pending ≡ false }
    requires own { IsId own }
    requires keeps { KeepsViews event.now.body }
    requires can { CanBring brought }
    requires room { stamp < 2 ^ 63 }
    ensures enters { Enters (K.kept keeper.old) (K.kept keeper.new) result }
    ensures puts { (deltas : List SetSync) → IsSyncWith deltas (seen_event event.now) brought →
        PutsUpTo (puts_allowed deltas) (K.kept keeper.old).puts (K.kept keeper.new).puts }
    ensures writes { (n : Node) (m : Store) (p : Place) (b : Rules) → n.id ≡ own →
        (K.kept keeper.old).held ≡ Some m → CanTake n (seen_event event.now) p m →
        IsBrought (seen_event event.now).origin p b brought →
        WritesBrought n (seen_event event.now) b (standing_rows p) m stamp result (K.kept keeper.new) }
{
    let stamp = spelling(alloc, &stamp)?;
    begin(keeper)?;
    match take(alloc, keeper, own, event, brought) {
        Ok(()) => put_pair(keeper, META, &STAMP, stamp.as_slice()),
        Err(stop) => Err(event_stop(stop)),
    }
}
