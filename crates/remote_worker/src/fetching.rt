// What a node brings with an event from another node: it looks at its own database, and at that of the provider.
ghost use Rattle.std.specs.Prelude.{◌≡◌, ◌==◌, ◌<◌, ◌^◌, nat_lt, not, true, is_some, unwrap_or, IfOk};
ghost use Rattle.std.specs.Option.{option_map};
ghost use Rattle.slon_base.specs.Codec.{AllAre, IsText};
ghost use Rattle.store_rows.specs.Rows.{IsId};
ghost use Rattle.store_rows.specs.Space.{AllOf};
ghost use Rattle.slon_model.specs.Deeds as deeds;
ghost use Rattle.slon_model.specs.Deeds.{knowledge};
ghost use Rattle.slon_model.specs.Sessions.{first_refusal, when};
ghost use Rattle.slon_model.specs.Views as views;
ghost use Rattle.slon_model.specs.declared.reply.Refusal.TheVariants.{BadWidth, Behind};
ghost use Rattle.txn_core.specs.Snapshots.{seen_as};
ghost use Rattle.event_store.specs.Kept.{seen_view};
ghost use Rattle.event_store.specs.Seen.{seen_event};
ghost use Rattle.event_store.specs.Spellings.{CanSnapshot, CanView};
ghost use Rattle.app_store.specs.Base.{base_of};
ghost use Rattle.app_store.specs.Parts.{Looks, Remembers};
ghost use Rattle.app_store.specs.Serves.{halts};
ghost use Rattle.node_store.specs.Acting.{Acts};
ghost use Rattle.node_store.specs.Looking.{OfConfig};
ghost use Rattle.node_store.specs.Polling.{OfNode};
ghost use Rattle.remote_worker.specs.Looking.{Looking, Seen, sided};
ghost use Rattle.remote_worker.specs.Fetching.{Brings, CanBringFound, CanCopy, Copies, Fetches, IsCalm, IsCalmFound};
ghost use Rattle.remote_worker.specs.Fetching.{IsForwarded, IsGiven, IsLed, IsOf, TableChecked, TablesChecked};
ghost use Rattle.remote_worker.specs.Fetching.{leads_by, provider_checks, seen_of};
ghost use Rattle.remote_worker.specs.Keeping.{names_to};
ghost use Rattle.remote_worker.specs.Working.{seen_copying};

use crate::carrying::Copying;
use crate::keeping::names_taken;
use crate::loading::Load;
use crate::worker::{Fetched, Taken, Worker};
use app_store::{Database, DbFault, fall};
use event_store::{Event, View};
use node_keeper::Keeper;
use node_store::{
    Fell, Reign, SetCopy, Side, kept_view, knows_forwarder, knows_live, progress_of, read_tables,
    set_reign, stored_snapshot, width,
};
use slon_base::{Many, Text};
use slon_model::Refusal;
use std::alloc::{AllocError, Global};
use txn_core::Snapshot;

/// What a node found where it was to bring something.
#[derive(Drop)]
pub enum Found {
    /// It cannot bring it, for this reason.
    Refused(Refusal),
    /// All is there that comes with the event.
    Brings(Worker<Fetched>),
}

/// What a call on the database of the node, or of the provider, gave.
fn at<T: Drop>(side: Side, given: Result<T, DbFault>) -> Result<T, Fell>
    ensures { result ≡ sided side given }
{
    match given {
        Ok(value) => Ok(value),
        Err(fault) => Err(Fell { side, fault }),
    }
}

/// Whether the provider leads the set that is to be copied in that era, where this says who leads it.
fn leads_by(copying: Copying, reign: Option<Reign>) -> bool
    ensures { result ≡ leads_by (seen_copying copying) reign }
{
    match reign {
        None => false,
        Some(reign) => reign.origin == copying.provider && reign.era == copying.era,
    }
}

/// Whether the provider, whose database this is, leads the set that is to be copied in that era.
fn leads<K: Keeper>(provider: &mut Database<K>, copying: Copying) -> Result<bool, DbFault>
    requires up { provider.old.state.up ≡ true }
    requires can { CanCopy copying }
    ensures { Seen (OfConfig (IsLed (seen_copying copying))) (base_of K.kept provider.old) result
        (base_of K.kept provider.new) }
{
    match set_reign(provider, copying.set) {
        Ok(reign) => Ok(leads_by(copying, reign)),
        Err(fault) => Err(fault),
    }
}

/// The snapshot behind which a view stands that is of this era.
fn seen_in(alloc: Global, view: &Option<View>, era: u64) -> Result<Option<Snapshot>, AllocError>
    requires can { AllOf (λ v. CanView (seen_view v)) view.now }
    ensures can { IfOk result (AllOf (λ s. CanSnapshot (seen_as s))) }
    ensures seen { IfOk result (λ seen. option_map seen_as seen ≡ seen_of era (option_map seen_view view.now)) }
{
    match view {
        None => Ok(None),
        Some(view) => {
            if view.era == era {
                return Ok(Some(view.seen.copy(alloc)?));
            }
            Ok(None)
        }
    }
}

/// The snapshot of the view that the provider, whose database this is, keeps of a set, where that is of this era.
fn kept_seen<K: Keeper>(
    provider: &mut Database<K>,
    set: u32,
    era: u64,
) -> Result<Option<Snapshot>, DbFault>
    requires up { provider.old.state.up ≡ true }
    requires node { is_some provider.old.state.node.identity ≡ true }
    requires set { IsId set }
    ensures can { IfOk result (AllOf (λ s. CanSnapshot (seen_as s))) }
    ensures looks { Seen (OfNode (λ k found. option_map seen_as found ≡ seen_of era (deeds.view_of set (knowledge k))))
        (base_of K.kept provider.old) result (base_of K.kept provider.new) }
{
    match kept_view(provider, set) {
        Ok(view) => Ok(seen_in(provider.alloc, &view, era)?),
        Err(fault) => Err(fault),
    }
}

/// The snapshot as which a provider that forwards the set in that era, whose database this is, keeps it; none, where it
/// does not.
fn forwarded<K: Keeper>(
    provider: &mut Database<K>,
    copying: Copying,
) -> Result<Option<Snapshot>, DbFault>
    requires up { provider.old.state.up ≡ true }
    requires node { is_some provider.old.state.node.identity ≡ true }
    requires can { CanCopy copying }
    ensures can { IfOk result (AllOf (λ s. CanSnapshot (seen_as s))) }
    ensures looks { Seen (IsForwarded (seen_copying copying)) (base_of K.kept provider.old) result
        (base_of K.kept provider.new) }
{
    match kept_seen(provider, copying.set, copying.era) {
        Ok(found) => match found {
            None => Ok(None),
            Some(seen) => match knows_forwarder(provider, copying.set, copying.provider) {
                Ok(true) => Ok(Some(seen)),
                Ok(false) => Ok(None),
                Err(fault) => Err(fault),
            },
        },
        Err(fault) => Err(fault),
    }
}

/// The snapshot as which the provider, whose database this is, gives the set: its present one, where it leads that in
/// the era, and that of its view, where it forwards it in the era; else none.
fn given_by<K: Keeper>(
    provider: &mut Database<K>,
    copying: Copying,
) -> Result<Option<Snapshot>, DbFault>
    requires up { provider.old.state.up ≡ true }
    requires node { is_some provider.old.state.node.identity ≡ true }
    requires can { CanCopy copying }
    ensures can { IfOk result (AllOf (λ s. CanSnapshot (seen_as s))) }
    ensures looks { Seen (IsGiven (seen_copying copying)) (base_of K.kept provider.old) result
        (base_of K.kept provider.new) }
{
    match leads(provider, copying) {
        Ok(true) => Ok(Some(stored_snapshot(provider)?)),
        Ok(false) => forwarded(provider, copying),
        Err(fault) => Err(fault),
    }
}

/// 63: the provider is only as far as this in the stream of the event.
fn behind(provider: u32, progress: u64, event: &Event) -> Option<Refusal>
    ensures calm { IsCalm result }
    ensures says { result ≡ when (nat_lt progress event.now.number) (Behind provider progress event.now.number) }
{
    if progress < event.number {
        let number = event.number;
        return Some(Refusal::Behind {
            provider,
            progress,
            number,
        });
    }
    None
}

/// 62: the provider, whose database this is, does not know the node, or 63: it has not met the event yet.
///
/// # Errors
///
/// What stopped the store; the database is down then.
pub fn check_provider<K: Keeper>(
    database: &mut Database<K>,
    node: u32,
    provider: u32,
    event: &Event,
) -> Result<Option<Refusal>, DbFault>
    requires up { database.old.state.up ≡ true }
    requires node { is_some database.old.state.node.identity ≡ true }
    requires id { IsId node }
    ensures calm { IfOk result IsCalm }
    ensures looks { Seen (OfNode (λ k refusal.
        first_refusal (provider_checks node provider (seen_event event.now) k) ≡ refusal))
        (base_of K.kept database.old) result (base_of K.kept database.new) }
{
    match knows_live(database, node) {
        Ok(true) => match progress_of(database, event.origin) {
            Ok(progress) => Ok(behind(provider, progress, event)),
            Err(fault) => Err(fault),
        },
        Ok(false) => Ok(Some(Refusal::NotKnown { node })),
        Err(fault) => Err(fault),
    }
}

/// The names of the tables of a set to which the node `id`, whose database this is, takes rows.
fn tables_of<K: Keeper>(own: &mut Database<K>, id: u32, set: u32) -> Result<Many<Text>, DbFault>
    requires up { own.old.state.up ≡ true }
    requires set { IsId set }
    ensures texts { IfOk result (AllAre IsText) }
    ensures acts { Acts (halts result) (base_of K.kept own.old) (base_of K.kept own.new) }
    ensures looks { Looks (OfConfig (λ c names. names ≡ names_to id set c)) (base_of K.kept own.old) result
        (base_of K.kept own.new) }
    ensures same { Remembers (base_of K.kept own.old) result (base_of K.kept own.new) }
{
    match names_taken(own.alloc, &mut own.keeper, id, set) {
        Ok(names) => Ok(names),
        Err(stop) => Err(fall(own.alloc, &mut own.state, &own.keeper, stop)),
    }
}

/// 57: a table of this many columns has another number of them at the provider.
fn width_refusal(here: u64, there: Option<u64>) -> Option<Refusal>
    ensures calm { IsCalm result }
    ensures says { result ≡ when (not (here == unwrap_or there 0)) (BadWidth here) }
{
    if here == there.unwrap_or(0) {
        return None;
    }
    Some(Refusal::BadWidth { columns: here })
}

/// 52: the node has no such table, or 57: it has another number of columns at the provider.
fn check_table<K: Keeper>(
    own: &mut Database<K>,
    provider: &mut Database<K>,
    name: &Text,
) -> Result<Option<Refusal>, Fell>
    requires up { (own.old.state.up ≡ true) × (provider.old.state.up ≡ true) }
    requires name { IsText name.now }
    ensures calm { IfOk result IsCalm }
    ensures looks { Looking (TableChecked name.now)
        (record { from = base_of K.kept own.old; to = base_of K.kept provider.old }) result
        (record { from = base_of K.kept own.new; to = base_of K.kept provider.new }) }
{
    match at(Side::From, width(own, name))? {
        None => {
            let table = name.copy(own.alloc)?;
            Ok(Some(Refusal::NoTable { table }))
        }
        Some(here) => {
            let there = at(Side::To, width(provider, name))?;
            Ok(width_refusal(here, there))
        }
    }
}

/// 52, 57 of each table in turn.
fn check_tables<K: Keeper>(
    own: &mut Database<K>,
    provider: &mut Database<K>,
    names: &[Text],
) -> Result<Option<Refusal>, Fell>
    requires up { (own.old.state.up ≡ true) × (provider.old.state.up ≡ true) }
    requires names { AllAre IsText names.now }
    ensures calm { IfOk result IsCalm }
    ensures looks { Looking (TablesChecked names.now)
        (record { from = base_of K.kept own.old; to = base_of K.kept provider.old }) result
        (record { from = base_of K.kept own.new; to = base_of K.kept provider.new }) }
{
    for name in names {
        match check_table(own, provider, name)? {
            Some(refusal) => return Ok(Some(refusal)),
            None => {}
        }
    }
    Ok(None)
}

/// How far a node is in a set that it copies with this event, in the era of the copy: as far as this snapshot.
fn first_view(alloc: Global, era: u64, event: &Event, seen: &Snapshot) -> Result<View, AllocError>
    requires can { (era < 2 ^ 63) × CanSnapshot (seen_as seen.now) }
    ensures can { IfOk result (λ view. CanView (seen_view view)) }
    ensures first { IfOk result (λ view.
        seen_view view ≡ views.first_view era event.now.origin event.now.number (seen_as seen.now)) }
{
    Ok(View {
        era,
        origin: event.origin,
        number: event.number,
        seen: seen.copy(alloc)?,
        base_era: era,
        base: seen.copy(alloc)?,
    })
}

impl Worker<Taken> {
    /// Copies a set from its provider, as that gives it: the origin of the set in that era as it is now, a node that
    /// forwards it as its view is; or nothing, where the provider is neither. It is refused where 62 the provider does
    /// not know the node, 63 it has not met the event, 52 the node lacks a table of the set, or 57 that has another
    /// number of columns at the provider.
    ///
    /// # Errors
    ///
    /// What stopped one of the two stores; its database is down then.
    pub fn fetch<K: Keeper>(
        self,
        own: &mut Database<K>,
        provider: &mut Database<K>,
        copying: Copying,
        event: &Event,
    ) -> Result<Found, Fell>
        requires up { (own.old.state.up ≡ true) × (provider.old.state.up ≡ true) }
        requires node { IsId self.node × (is_some provider.old.state.node.identity ≡ true) }
        requires can { CanCopy copying }
        ensures can { IfOk result CanBringFound }
        ensures calm { IfOk result IsCalmFound }
        ensures same { IfOk result (IsOf self) }
        ensures fetches { Looking
            (Fetches (record { copying = copying; own = self.node; event = seen_event event.now }))
            (record { from = base_of K.kept own.old; to = base_of K.kept provider.old }) result
            (record { from = base_of K.kept own.new; to = base_of K.kept provider.new }) }
    {
        match at(
            Side::To,
            check_provider(provider, self.node, copying.provider, event),
        )? {
            Some(refusal) => Ok(Found::Refused(refusal)),
            None => self.copy_given(own, provider, copying, event),
        }
    }

    /// Copies the set, unless the provider does not give it in that era.
    fn copy_given<K: Keeper>(
        self,
        own: &mut Database<K>,
        provider: &mut Database<K>,
        copying: Copying,
        event: &Event,
    ) -> Result<Found, Fell>
        requires up { (own.old.state.up ≡ true) × (provider.old.state.up ≡ true) }
        requires node { is_some provider.old.state.node.identity ≡ true }
        requires can { CanCopy copying }
        ensures can { IfOk result CanBringFound }
        ensures calm { IfOk result IsCalmFound }
        ensures same { IfOk result (IsOf self) }
        ensures brings { Looking
            (Brings (record { copying = copying; own = self.node; event = seen_event event.now }))
            (record { from = base_of K.kept own.old; to = base_of K.kept provider.old }) result
            (record { from = base_of K.kept own.new; to = base_of K.kept provider.new }) }
    {
        match at(Side::To, given_by(provider, copying))? {
            None => Ok(Found::Brings(self.with(None))),
            Some(seen) => self.copy(own, provider, copying, event, seen),
        }
    }

    /// Copies the set from a provider that gives it as this snapshot.
    fn copy<K: Keeper>(
        self,
        own: &mut Database<K>,
        provider: &mut Database<K>,
        copying: Copying,
        event: &Event,
        seen: Snapshot,
    ) -> Result<Found, Fell>
        requires up { (own.old.state.up ≡ true) × (provider.old.state.up ≡ true) }
        requires can { CanCopy copying × CanSnapshot (seen_as seen) }
        ensures can { IfOk result CanBringFound }
        ensures calm { IfOk result IsCalmFound }
        ensures same { IfOk result (IsOf self) }
        ensures copies { Looking
            (Copies (seen_as seen) (record { copying = copying; own = self.node; event = seen_event event.now }))
            (record { from = base_of K.kept own.old; to = base_of K.kept provider.old }) result
            (record { from = base_of K.kept own.new; to = base_of K.kept provider.new }) }
    {
        let names = at(Side::From, tables_of(own, self.node, copying.set))?;
        if let Some(refusal) = check_tables(own, provider, names.as_slice())? {
            return Ok(Found::Refused(refusal));
        }
        let view = first_view(own.alloc, copying.era, event, &seen)?;
        let tables = at(Side::To, read_tables(provider, names.as_slice()))?;
        let set = copying.set;
        Ok(Found::Brings(self.with(Some(Load::Copy(SetCopy { set, view, tables })))))
    }
}
