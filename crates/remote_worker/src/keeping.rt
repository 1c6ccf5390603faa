// What a node reads of the sets that it keeps, to bring what was logged of them with a SYNC.
ghost use Rattle.std.specs.Prelude.{◌≡◌, Some, OnOk, IfOk, IfErr, map};
ghost use Rattle.slon_base.specs.Codec.{AllAre, IsText};
ghost use Rattle.slon_base.specs.Keeper.{Store, sight};
ghost use Rattle.store_rows.specs.Rows.{IsId};
ghost use Rattle.store_rows.specs.Space.{AllOf};
ghost use Rattle.store_rows.specs.Steps.{Safe, IsWithinLimit, Gives};
ghost use Rattle.node_rows.specs.Spellings.{CanSubscription, CanTable};
ghost use Rattle.slon_model.specs.Config as config;
ghost use Rattle.slon_model.specs.Config.{Config};
ghost use Rattle.slon_model.specs.Deeds.{Node, knowledge};
ghost use Rattle.slon_model.specs.Following as rules;
ghost use Rattle.slon_model.specs.Views as views;
ghost use Rattle.set_config.specs.Holds.{HoldsConfig};
ghost use Rattle.txn_core.specs.Snapshots.{seen_as};
ghost use Rattle.event_store.specs.Kept.{seen_view};
ghost use Rattle.event_store.specs.Seen.{seen_event};
ghost use Rattle.event_store.specs.Spellings.{CanView};
ghost use Rattle.node_state.specs.Held.{IsOrderly, NodeHeld, seen_views};
ghost use Rattle.remote_worker.specs.Keeping.{CanFollow, forwards_in, kept_among, kept_for, leads_in};
ghost use Rattle.remote_worker.specs.Keeping.{names_to, provider_at, provider_in};
ghost use Rattle.remote_worker.specs.Keeping.{seen_kept, tables_among};

use crate::reading::{TABLES, names_among};
use event_store::{Event, View};
use node_change::{find_set_row, find_subscription};
use node_rows::{SetRow, Subscription, TableRow};
use node_state::{all_rows, kept_views};
use slon_base::{Keeper, Many, Text};
use std::alloc::{AllocError, Global};
use store_rows::Stop;
use txn_core::Snapshot;

/// A set that a node keeps, as it is to take a SYNC.
#[derive(Drop)]
pub struct KeptSet {
    /// The id of the set.
    pub set: u32,
    /// The id of the node whose log is read for it.
    pub provider: u32,
    /// How far the node is in the set.
    pub before: View,
    /// How far the node is in the set behind the SYNC.
    pub view: View,
    /// The ids and the names of the tables to which the node takes rows.
    pub tables: Many<(u32, Text)>,
    /// Whether the node logs what it takes.
    pub forwards: bool,
}

/// The later one of two snapshots: the first one, where it sees all that the second one sees.
fn later_of(alloc: Global, kept: &Snapshot, taken: &Snapshot) -> Result<Snapshot, AllocError>
    ensures { IfOk result (λ seen. seen_as seen ≡ views.later_of (seen_as kept.now) (seen_as taken.now)) }
{
    if kept.covers(taken) {
        return kept.copy(alloc);
    }
    taken.copy(alloc)
}

/// The same view of a set, copied.
fn copy_view(alloc: Global, view: &View) -> Result<View, AllocError>
    ensures { IfOk result (λ copy. seen_view copy ≡ seen_view view.now) }
{
    Ok(View {
        era: view.era,
        origin: view.origin,
        number: view.number,
        seen: view.seen.copy(alloc)?,
        base_era: view.base_era,
        base: view.base.copy(alloc)?,
    })
}

/// How far a node is in a set behind a SYNC, where it was so far before.
fn view_after(alloc: Global, view: &View, event: &Event) -> Result<View, AllocError>
    requires { CanView (seen_view view.now) }
    ensures can { IfOk result (λ after. CanView (seen_view after)) }
    ensures is { IfOk result (λ after. seen_view after ≡ views.view_after (seen_event event.now) (seen_view view.now)) }
{
    Ok(View {
        era: view.era,
        origin: view.origin,
        number: event.number,
        seen: later_of(alloc, &view.seen, &event.taken)?,
        base_era: view.base_era,
        base: view.base.copy(alloc)?,
    })
}

/// Whether the node of this id is the origin of the set of a row, which is live.
fn leads(own: u32, row: &Option<SetRow>) -> bool
    ensures { result ≡ leads_in own row.now }
{
    match row {
        None => false,
        Some(row) => row.live && row.origin == own,
    }
}

/// Whether a subscription forwards.
fn forwards(row: &Option<Subscription>) -> bool
    ensures { result ≡ forwards_in row.now }
{
    match row {
        None => false,
        Some(row) => row.forward,
    }
}

/// Those tables with these rows that are live and in this set, by their ids and names.
fn tables_among(
    alloc: Global,
    set: u32,
    rows: &[(u32, TableRow)],
) -> Result<Many<(u32, Text)>, AllocError>
    requires { AllAre (λ e. IsId e.0 × CanTable e.1) rows.now }
    ensures texts { IfOk result (AllAre (λ t. IsText t.1)) }
    ensures tables { IfOk result (λ tables. tables ≡ tables_among set rows.now) }
{
    let mut tables = Many::new(alloc);
    for (id, row) in rows {
        if !row.live || row.set_id != set {
            continue;
        }
        tables.push((*id, row.name.copy(alloc)?))?;
    }
    Ok(tables)
}

/// The tables of a set to which the node `own` takes rows: none, where it is itself the origin. These are the rows of
/// all tables.
fn tables_taken<K: Keeper>(
    alloc: Global,
    keeper: &mut K,
    own: u32,
    set: u32,
    rows: &[(u32, TableRow)],
) -> Result<Many<(u32, Text)>, Stop>
    requires set { IsId set }
    requires rows { AllAre (λ e. IsId e.0 × CanTable e.1) rows.now }
    ensures safe { Safe (K.kept keeper.old) (K.kept keeper.new) result }
    ensures same { OnOk result ((K.kept keeper.new).pending ≡ (K.kept keeper.old).pending) }
    ensures within { IfErr result IsWithinLimit }
    ensures texts { IfOk result (AllAre (λ t. IsText t.1)) }
    ensures says { (m : Store) (c : Config) → sight (K.kept keeper.old) ≡ Some m → HoldsConfig c m →
        rows.now ≡ c.tables → Gives (λ tables. tables ≡ rules.tables_taken own set c) result }
{
    let row = find_set_row(alloc, keeper, set)?;
    if leads(own, &row) {
        return Ok(Many::new(alloc));
    }
    Ok(tables_among(alloc, set, rows)?)
}

/// The names of the tables of a set to which the node `own` takes rows, ascending by the ids of the tables: none, where
/// it is itself the origin.
pub(crate) fn names_taken<K: Keeper>(
    alloc: Global,
    keeper: &mut K,
    own: u32,
    set: u32,
) -> Result<Many<Text>, Stop>
    requires set { IsId set }
    ensures safe { Safe (K.kept keeper.old) (K.kept keeper.new) result }
    ensures same { OnOk result ((K.kept keeper.new).pending ≡ (K.kept keeper.old).pending) }
    ensures within { IfErr result IsWithinLimit }
    ensures texts { IfOk result (AllAre IsText) }
    ensures says { (m : Store) (c : Config) → sight (K.kept keeper.old) ≡ Some m → HoldsConfig c m → IsOrderly c →
        Gives (λ names. names ≡ names_to own set c) result }
{
    let row = find_set_row(alloc, keeper, set)?;
    if leads(own, &row) {
        return Ok(Many::new(alloc));
    }
    let rows = all_rows(alloc, keeper, TABLES)?;
    Ok(names_among(alloc, set, rows.as_slice())?)
}

/// The node from which a subscription takes a set, or the origin where there is none.
fn provider_in(row: &Option<Subscription>, origin: u32) -> u32
    requires can { IsId origin × AllOf CanSubscription row.now }
    ensures id { IsId result }
    ensures is { result ≡ provider_in row.now origin }
{
    match row {
        None => origin,
        Some(row) => row.provider,
    }
}

/// From which node the node `own` takes a set of this origin, and whether it forwards that.
fn subscribed<K: Keeper>(
    alloc: Global,
    keeper: &mut K,
    own: u32,
    origin: u32,
    set: u32,
) -> Result<(u32, bool), Stop>
    requires ids { IsId own × IsId origin × IsId set }
    ensures safe { Safe (K.kept keeper.old) (K.kept keeper.new) result }
    ensures same { OnOk result ((K.kept keeper.new).pending ≡ (K.kept keeper.old).pending) }
    ensures within { IfErr result IsWithinLimit }
    ensures id { IfOk result (λ found. IsId found.0) }
    ensures says { (m : Store) (c : Config) → sight (K.kept keeper.old) ≡ Some m → HoldsConfig c m →
        Gives (λ found. (found.0 ≡ provider_at own origin set c) × (found.1 ≡ config.forwards set own c)) result }
{
    let row = find_subscription(alloc, keeper, set, own)?;
    Ok((provider_in(&row, origin), forwards(&row)))
}

/// One set of which the node `own` keeps this view, as it is to take a SYNC. These are the rows of all tables.
fn kept_set<K: Keeper>(
    alloc: Global,
    keeper: &mut K,
    own: u32,
    event: &Event,
    kept: &(u32, View),
    rows: &[(u32, TableRow)],
) -> Result<KeptSet, Stop>
    requires own { IsId own }
    requires kept { IsId kept.now.0 × CanView (seen_view kept.now.1) }
    requires rows { AllAre (λ e. IsId e.0 × CanTable e.1) rows.now }
    ensures safe { Safe (K.kept keeper.old) (K.kept keeper.new) result }
    ensures same { OnOk result ((K.kept keeper.new).pending ≡ (K.kept keeper.old).pending) }
    ensures within { IfErr result IsWithinLimit }
    ensures can { IfOk result CanFollow }
    ensures says { (m : Store) (c : Config) → sight (K.kept keeper.old) ≡ Some m → HoldsConfig c m →
        rows.now ≡ c.tables →
        Gives (λ found.
        seen_kept found ≡ kept_for own c (seen_event event.now) (kept.now.0, seen_view kept.now.1)) result }
{
    let (set, view) = kept;
    let tables = tables_taken(alloc, keeper, own, *set, rows)?;
    let (provider, forwards) = subscribed(alloc, keeper, own, event.origin, *set)?;
    Ok(KeptSet {
        set: *set,
        provider,
        before: copy_view(alloc, view)?,
        view: view_after(alloc, view, event)?,
        tables,
        forwards,
    })
}

/// Those of these views that are of sets of the event's origin, as the node `own` is to take the SYNC.
fn kept_among<K: Keeper>(
    alloc: Global,
    keeper: &mut K,
    own: u32,
    event: &Event,
    views: &[(u32, View)],
    rows: &[(u32, TableRow)],
) -> Result<Many<KeptSet>, Stop>
    requires own { IsId own }
    requires views { AllAre (λ e. IsId e.0 × CanView (seen_view e.1)) views.now }
    requires rows { AllAre (λ e. IsId e.0 × CanTable e.1) rows.now }
    ensures safe { Safe (K.kept keeper.old) (K.kept keeper.new) result }
    ensures same { OnOk result ((K.kept keeper.new).pending ≡ (K.kept keeper.old).pending) }
    ensures within { IfErr result IsWithinLimit }
    ensures can { IfOk result (AllAre CanFollow) }
    ensures says { (m : Store) (c : Config) → sight (K.kept keeper.old) ≡ Some m → HoldsConfig c m →
        rows.now ≡ c.tables →
        Gives (λ sets. map seen_kept sets ≡ kept_among own c (seen_event event.now) (seen_views views.now)) result }
{
    let mut sets = Many::new(alloc);
    for kept in views {
        if kept.1.origin != event.origin {
            continue;
        }
        sets.push(kept_set(alloc, keeper, own, event, kept, rows)?)?;
    }
    Ok(sets)
}

/// The sets of the event's origin that the node `own` keeps, as it is to take the SYNC.
pub(crate) fn kept_sets<K: Keeper>(
    alloc: Global,
    keeper: &mut K,
    own: u32,
    event: &Event,
) -> Result<Many<KeptSet>, Stop>
    requires own { IsId own }
    ensures safe { Safe (K.kept keeper.old) (K.kept keeper.new) result }
    ensures same { OnOk result ((K.kept keeper.new).pending ≡ (K.kept keeper.old).pending) }
    ensures within { IfErr result IsWithinLimit }
    ensures can { IfOk result (AllAre CanFollow) }
    ensures says { (m : Store) (n : Node) → sight (K.kept keeper.old) ≡ Some m → NodeHeld n m →
        Gives (λ sets. map seen_kept sets
        ≡ kept_among own (knowledge n).config (seen_event event.now) (knowledge n).views) result }
{
    let views = kept_views(alloc, keeper)?;
    let rows = all_rows(alloc, keeper, TABLES)?;
    kept_among(alloc, keeper, own, event, views.as_slice(), rows.as_slice())
}
