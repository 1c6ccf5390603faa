// How far a node is in the streams of others and in the sets that it keeps, and how far it heard others.
ghost use Rattle.std.specs.Prelude.{◌≡◌, Some, true, is_some, OnOk, IfOk, IfErr};
ghost use Rattle.std.specs.Option.{option_map};
ghost use Rattle.slon_base.specs.Keeper.{Store, sight};
ghost use Rattle.store_rows.specs.Rows.{IsId};
ghost use Rattle.store_rows.specs.Space.{AllOf};
ghost use Rattle.store_rows.specs.Steps.{Safe, IsWithinLimit, Gives};
ghost use Rattle.slon_model.specs.Config as config;
ghost use Rattle.slon_model.specs.Deeds as deeds;
ghost use Rattle.slon_model.specs.Deeds.{Node, knowledge};
ghost use Rattle.event_store.specs.Kept.{seen_view};
ghost use Rattle.event_store.specs.Spellings.{CanView};
ghost use Rattle.node_state.specs.Held.{NodeHeld};
ghost use Rattle.app_store.specs.Base.{base_of};
ghost use Rattle.app_store.specs.Parts.{Looks, Remembers};
ghost use Rattle.app_store.specs.Serves.{halts};
ghost use Rattle.node_store.specs.Acting.{Acts};
ghost use Rattle.node_store.specs.Polling.{OfNode};
ghost use Rattle.node_store.specs.Looking.{OfConfig};
ghost use Rattle.node_store.specs.Reached.{has_heard, is_active_at, is_waiting_at, waits};

use app_store::{Database, DbFault, fall};
use event_store::{View, confirmed, find_view};
use node_change::{find_subscription, receivers};
use node_keeper::Keeper;
use node_rows::Subscription;
use slon_base::Many;
use std::alloc::Global;
use store_rows::Stop;

/// How far the node of the database is in the stream of an origin: the number of the last event that it met, or 0.
///
/// # Errors
///
/// What stopped the store; the database is down then.
pub fn progress_of<K: Keeper>(database: &mut Database<K>, origin: u32) -> Result<u64, DbFault>
    requires up { database.old.state.up ≡ true }
    requires node { is_some database.old.state.node.identity ≡ true }
    requires id { IsId origin }
    ensures acts { Acts (halts result) (base_of K.kept database.old) (base_of K.kept database.new) }
    ensures looks { Looks (OfNode (λ n found. found ≡ deeds.progress origin (knowledge n)))
        (base_of K.kept database.old) result (base_of K.kept database.new) }
    ensures same { Remembers (base_of K.kept database.old) result (base_of K.kept database.new) }
{
    let Some(own) = database.node_id() else {
        return Err(DbFault::Down);
    };
    match confirmed(database.alloc, &mut database.keeper, origin, own) {
        Ok(number) => Ok(number),
        Err(stop) => Err(fall(database.alloc, &mut database.state, &database.keeper, stop)),
    }
}

/// How far the node of the database is in a set, if it keeps that.
///
/// # Errors
///
/// What stopped the store; the database is down then.
pub fn kept_view<K: Keeper>(database: &mut Database<K>, set: u32) -> Result<Option<View>, DbFault>
    requires up { database.old.state.up ≡ true }
    requires node { is_some database.old.state.node.identity ≡ true }
    requires id { IsId set }
    ensures can { IfOk result (AllOf (λ v. CanView (seen_view v))) }
    ensures acts { Acts (halts result) (base_of K.kept database.old) (base_of K.kept database.new) }
    ensures looks { Looks (OfNode (λ n found. option_map seen_view found ≡ deeds.view_of set (knowledge n)))
        (base_of K.kept database.old) result (base_of K.kept database.new) }
    ensures same { Remembers (base_of K.kept database.old) result (base_of K.kept database.new) }
{
    match find_view(database.alloc, &mut database.keeper, set) {
        Ok(view) => Ok(view),
        Err(stop) => Err(fall(database.alloc, &mut database.state, &database.keeper, stop)),
    }
}

/// Whether a node that was heard to have met the event of this number has met the last event on its subscription.
fn has_heard(row: &Option<Subscription>, number: u64) -> bool
    ensures { result ≡ has_heard number row.now }
{
    match row {
        None => false,
        Some(row) => row.mark <= number,
    }
}

/// Whether the node `own` knows that a node receives a set, and has heard from it that it has met the last event on
/// that in the stream of `own`.
fn active_in<K: Keeper>(
    alloc: Global,
    keeper: &mut K,
    own: u32,
    set: u32,
    node: u32,
) -> Result<bool, Stop>
    requires ids { IsId own × IsId set × IsId node }
    ensures safe { Safe (K.kept keeper.old) (K.kept keeper.new) result }
    ensures same { OnOk result ((K.kept keeper.new).pending ≡ (K.kept keeper.old).pending) }
    ensures within { IfErr result IsWithinLimit }
    ensures says { (m : Store) (n : Node) → sight (K.kept keeper.old) ≡ Some m → n.id ≡ own → NodeHeld n m →
        Gives (λ found. found ≡ is_active_at set node n) result }
{
    let row = find_subscription(alloc, keeper, set, node)?;
    let number = confirmed(alloc, keeper, own, node)?;
    Ok(has_heard(&row, number))
}

/// Whether the node of the database knows that a node receives a set, and has heard from it that it has met the last
/// event on that.
///
/// # Errors
///
/// What stopped the store; the database is down then.
pub fn is_active<K: Keeper>(
    database: &mut Database<K>,
    set: u32,
    node: u32,
) -> Result<bool, DbFault>
    requires up { database.old.state.up ≡ true }
    requires node { is_some database.old.state.node.identity ≡ true }
    requires ids { IsId set × IsId node }
    ensures acts { Acts (halts result) (base_of K.kept database.old) (base_of K.kept database.new) }
    ensures looks { Looks (OfNode (λ n found. found ≡ is_active_at set node n))
        (base_of K.kept database.old) result (base_of K.kept database.new) }
    ensures same { Remembers (base_of K.kept database.old) result (base_of K.kept database.new) }
{
    let Some(own) = database.node_id() else {
        return Err(DbFault::Down);
    };
    match active_in(database.alloc, &mut database.keeper, own, set, node) {
        Ok(found) => Ok(found),
        Err(stop) => Err(fall(database.alloc, &mut database.state, &database.keeper, stop)),
    }
}

/// Whether a node that was heard to have met the event of this number receives a set, and has not met the last event on
/// its subscription.
fn waits(row: &Option<Subscription>, number: u64) -> bool
    ensures { result ≡ waits number row.now }
{
    match row {
        None => false,
        Some(row) => !(row.mark <= number),
    }
}

/// Whether the node `own` knows that a node receives a set, and has not heard from it that it has met the last event on
/// that in the stream of `own`.
fn waiting_in<K: Keeper>(
    alloc: Global,
    keeper: &mut K,
    own: u32,
    set: u32,
    node: u32,
) -> Result<bool, Stop>
    requires ids { IsId own × IsId set × IsId node }
    ensures safe { Safe (K.kept keeper.old) (K.kept keeper.new) result }
    ensures same { OnOk result ((K.kept keeper.new).pending ≡ (K.kept keeper.old).pending) }
    ensures within { IfErr result IsWithinLimit }
    ensures says { (m : Store) (n : Node) → sight (K.kept keeper.old) ≡ Some m → n.id ≡ own → NodeHeld n m →
        Gives (λ found. found ≡ is_waiting_at set node n) result }
{
    let row = find_subscription(alloc, keeper, set, node)?;
    let number = confirmed(alloc, keeper, own, node)?;
    Ok(waits(&row, number))
}

/// Whether the node of the database knows that a node receives a set, and has not heard from it that it has met the
/// last event on that.
///
/// # Errors
///
/// What stopped the store; the database is down then.
pub fn is_waiting<K: Keeper>(
    database: &mut Database<K>,
    set: u32,
    node: u32,
) -> Result<bool, DbFault>
    requires up { database.old.state.up ≡ true }
    requires node { is_some database.old.state.node.identity ≡ true }
    requires ids { IsId set × IsId node }
    ensures acts { Acts (halts result) (base_of K.kept database.old) (base_of K.kept database.new) }
    ensures looks { Looks (OfNode (λ n found. found ≡ is_waiting_at set node n))
        (base_of K.kept database.old) result (base_of K.kept database.new) }
    ensures same { Remembers (base_of K.kept database.old) result (base_of K.kept database.new) }
{
    let Some(own) = database.node_id() else {
        return Err(DbFault::Down);
    };
    match waiting_in(database.alloc, &mut database.keeper, own, set, node) {
        Ok(found) => Ok(found),
        Err(stop) => Err(fall(database.alloc, &mut database.state, &database.keeper, stop)),
    }
}

/// The receivers of a set with the rows of their subscriptions, ascending, as the node knows them.
///
/// # Errors
///
/// What stopped the store; the database is down then.
pub fn receivers_of<K: Keeper>(
    database: &mut Database<K>,
    set: u32,
) -> Result<Many<(u32, Subscription)>, DbFault>
    requires up { database.old.state.up ≡ true }
    requires id { IsId set }
    ensures acts { Acts (halts result) (base_of K.kept database.old) (base_of K.kept database.new) }
    ensures looks { Looks (OfConfig (λ c found. found ≡ config.receivers set c))
        (base_of K.kept database.old) result (base_of K.kept database.new) }
    ensures same { Remembers (base_of K.kept database.old) result (base_of K.kept database.new) }
{
    match receivers(database.alloc, &mut database.keeper, set) {
        Ok(rows) => Ok(rows),
        Err(stop) => Err(fall(database.alloc, &mut database.state, &database.keeper, stop)),
    }
}
