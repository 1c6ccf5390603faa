// What a node brings with a SYNC: for each set that it keeps, what the provider logged between two snapshots.
ghost use Rattle.std.specs.Prelude.{◌≡◌, ◌∷◌, [], true, is_some, IfOk, map};
ghost use Rattle.std.specs.List.{AllByRecursion};
ghost use Rattle.slon_base.specs.Codec.{AllAre};
ghost use Rattle.store_rows.specs.Rows.{IsId};
ghost use Rattle.slon_model.specs.Deeds.{knowledge};
ghost use Rattle.slon_model.specs.Logs.{logged};
ghost use Rattle.event_store.specs.Seen.{seen_event};
ghost use Rattle.app_store.specs.Base.{base_of};
ghost use Rattle.app_store.specs.Parts.{Looks, Remembers};
ghost use Rattle.app_store.specs.Serves.{halts};
ghost use Rattle.node_store.specs.Acting.{Acts};
ghost use Rattle.node_store.specs.Logged.{LooksWhere};
ghost use Rattle.node_store.specs.Polling.{OfNode};
ghost use Rattle.remote_worker.specs.Keeping.{CanFollow, HaveEndedBy, kept_among, seen_kept, taken_of};
ghost use Rattle.remote_worker.specs.Loading.{CanFetch, HasFetch, HaveFetches};
ghost use Rattle.remote_worker.specs.Running.{CanRun, seen_run, taken_run};

use crate::keeping::{KeptSet, kept_sets};
use crate::loading::SetFetch;
use crate::running::{Run, tables_of};
use crate::sharing::{alone, fetch_with, parts_of};
use app_store::{Database, DbFault, fall};
use event_store::Event;
use node_keeper::Keeper;
use node_store::read_log;
use slon_base::Many;

/// The sets of the event's origin that the node `own`, whose database this is, keeps, as it is to take the SYNC.
///
/// # Errors
///
/// What stopped the store; the database is down then.
pub fn sets_of<K: Keeper>(
    database: &mut Database<K>,
    own: u32,
    event: &Event,
) -> Result<Many<KeptSet>, DbFault>
    requires up { database.old.state.up ≡ true }
    requires node { is_some database.old.state.node.identity ≡ true }
    requires own { IsId own }
    ensures can { IfOk result (AllAre CanFollow) }
    ensures acts { Acts (halts result) (base_of K.kept database.old) (base_of K.kept database.new) }
    ensures looks { Looks (OfNode (λ n sets. map seen_kept sets
        ≡ kept_among own (knowledge n).config (seen_event event.now) (knowledge n).views))
        (base_of K.kept database.old) result (base_of K.kept database.new) }
    ensures same { Remembers (base_of K.kept database.old) result (base_of K.kept database.new) }
{
    match kept_sets(database.alloc, &mut database.keeper, own, event) {
        Ok(sets) => Ok(sets),
        Err(stop) => Err(fall(database.alloc, &mut database.state, &database.keeper, stop)),
    }
}

/// What the node takes of one set, from a provider whose database this is. Of the log of the provider that is read from
/// the number `known` on, where what was logged of the origin below that is of transactions that had ended as the node
/// was as far as it is in the set.
fn fetch_of<K: Keeper>(
    provider: &mut Database<K>,
    event: &Event,
    kept: KeptSet,
    known: u64,
) -> Result<SetFetch, DbFault>
    requires up { provider.old.state.up ≡ true }
    requires can { CanFollow kept }
    ensures can { IfOk result CanFetch }
    ensures acts { Acts (halts result) (base_of K.kept provider.old) (base_of K.kept provider.new) }
    ensures looks { LooksWhere (HaveEndedBy event.now.origin known (seen_kept kept))
        (OfNode (λ n fetch.
        HasFetch event.now.origin (taken_of (seen_event event.now) (logged n) (seen_kept kept)) fetch))
        (base_of K.kept provider.old) result (base_of K.kept provider.new) }
    ensures same { Remembers (base_of K.kept provider.old) result (base_of K.kept provider.new) }
{
    match read_log(
        provider,
        event.origin,
        known,
        kept.tables.as_slice(),
        &kept.before.seen,
        &event.taken,
    ) {
        Ok(found) => Ok(fetch_with(kept, found)),
        Err(fault) => Err(fault),
    }
}

/// The same of one set, in a list.
fn fetch_alone<K: Keeper>(
    provider: &mut Database<K>,
    event: &Event,
    kept: KeptSet,
    known: u64,
) -> Result<Many<SetFetch>, DbFault>
    requires up { provider.old.state.up ≡ true }
    requires can { CanFollow kept }
    ensures can { IfOk result (AllByRecursion CanFetch) }
    ensures acts { Acts (halts result) (base_of K.kept provider.old) (base_of K.kept provider.new) }
    ensures looks { LooksWhere (HaveEndedBy event.now.origin known (seen_kept kept))
        (OfNode (λ n fetches.
        HaveFetches event.now.origin (taken_run (seen_event event.now) (logged n) (seen_kept kept ∷ [])) fetches))
        (base_of K.kept provider.old) result (base_of K.kept provider.new) }
    ensures same { Remembers (base_of K.kept provider.old) result (base_of K.kept provider.new) }
{
    match fetch_of(provider, event, kept, known) {
        Ok(fetch) => Ok(alone(provider.alloc, fetch)?),
        Err(fault) => Err(fault),
    }
}

/// The same of the sets of a run, by one reading of what was logged on the tables of all of them.
fn fetch_together<K: Keeper>(
    provider: &mut Database<K>,
    event: &Event,
    run: Run,
    known: u64,
) -> Result<Many<SetFetch>, DbFault>
    requires up { provider.old.state.up ≡ true }
    requires can { CanRun run }
    ensures can { IfOk result (AllByRecursion CanFetch) }
    ensures acts { Acts (halts result) (base_of K.kept provider.old) (base_of K.kept provider.new) }
    ensures looks { LooksWhere (HaveEndedBy event.now.origin known (seen_kept run.first))
        (OfNode (λ n fetches.
        HaveFetches event.now.origin (taken_run (seen_event event.now) (logged n) (seen_run run)) fetches))
        (base_of K.kept provider.old) result (base_of K.kept provider.new) }
    ensures same { Remembers (base_of K.kept provider.old) result (base_of K.kept provider.new) }
{
    let tables = tables_of(provider.alloc, &run)?;
    match read_log(
        provider,
        event.origin,
        known,
        tables.as_slice(),
        &run.first.before.seen,
        &event.taken,
    ) {
        Ok(found) => Ok(parts_of(provider.alloc, &found, run)?),
        Err(fault) => Err(fault),
    }
}

/// What the node takes of each set of a run, from their provider, whose database this is. Of the log of the provider
/// that is read once, from the number `known` on, where what was logged of the origin below that is of transactions
/// that had ended as the node was as far as it is in the sets.
///
/// # Errors
///
/// What stopped the store; the database is down then.
pub fn fetch_run<K: Keeper>(
    provider: &mut Database<K>,
    event: &Event,
    run: Run,
    known: u64,
) -> Result<Many<SetFetch>, DbFault>
    requires up { provider.old.state.up ≡ true }
    requires can { CanRun run }
    ensures can { IfOk result (AllByRecursion CanFetch) }
    ensures acts { Acts (halts result) (base_of K.kept provider.old) (base_of K.kept provider.new) }
    ensures looks { LooksWhere (HaveEndedBy event.now.origin known (seen_kept run.first))
        (OfNode (λ n fetches.
        HaveFetches event.now.origin (taken_run (seen_event event.now) (logged n) (seen_run run)) fetches))
        (base_of K.kept provider.old) result (base_of K.kept provider.new) }
    ensures same { Remembers (base_of K.kept provider.old) result (base_of K.kept provider.new) }
{
    if run.others.len() > 0 {
        return fetch_together(provider, event, run, known);
    }
    let Run { first, .. } = run;
    fetch_alone(provider, event, first, known)
}
