// SUBSCRIBE SET.
ghost use Rattle.std.specs.Prelude.{◌≡◌, true, is_some, ◌||◌, ◌&&◌, not, ◌==◌, [], ◌∷◌, Ok, IfOk, unwrap_or};
ghost use Rattle.std.specs.List.{list_any};
ghost use Rattle.std.specs.Option.{option_map};
ghost use Rattle.store_rows.specs.Rows.{IsId};
ghost use Rattle.slon_model.specs.Config.{forwards};
ghost use Rattle.slon_model.specs.Sessions.{when};
ghost use Rattle.slon_model.specs.Subscribing as rules;
ghost use Rattle.slon_model.specs.declared.reply.Refusal.TheVariants as refused;
ghost use Rattle.app_store.specs.Base.{base_of};
ghost use Rattle.slonik_exec.specs.Answering.{Answers, AtNode, AtSeat, Checks, is_id};
ghost use Rattle.slonik_exec.specs.Databases.{bases_of, Runs};
ghost use Rattle.slonik_exec.specs.Executing.{Executes};
ghost use Rattle.slonik_exec.specs.Heard.{AreDistinct};
ghost use Rattle.slonik_exec.specs.Statements.{feed_as, feed_said, row_checks, source_checks, told_said};

use crate::caller::Caller;
use crate::checks::{check_live, is_own};
use crate::databases::Named;
use crate::emitting::emit_all;
use crate::feeds::{leads_to, provides};
use crate::owning::{Owner, find_owner};
use crate::replies::told;
use crate::short::NoMemory;
use node_keeper::Keeper;
use node_rows::{Body, Subscription};
use node_store::{
    Database, Reign, is_active, is_waiting, knows_forwarder, knows_receiver, receivers_of,
    set_reign,
};
use slon_model::{Refusal, Reply};
use std::alloc::Global;

/// A node that is to receive a set from another one.
#[derive(Clone, Copy)]
pub(crate) struct NewFeed {
    pub(crate) set_id: u32,
    pub(crate) provider: u32,
    pub(crate) receiver: u32,
    /// Whether it forwards what it applies.
    pub(crate) forward: bool,
}

/// Whether a node would feed itself: the receiver is the node of the database, or the provider.
fn feeds_itself<K: Keeper>(database: &Database<K>, feed: NewFeed) -> bool
    ensures { result ≡ (is_id feed.receiver database.now.state.node.identity || feed.receiver == feed.provider) }
{
    is_own(database, feed.receiver) || feed.receiver == feed.provider
}

/// 78: the receiver is the node itself, or the provider.
fn check_apart<K: Keeper>(seat: &Named<K>, feed: NewFeed) -> Option<Reply>
    requires up { seat.now.database.state.up ≡ true }
    ensures checks { Checks seat.now.name (base_of K.kept seat.now.database) result
        (base_of K.kept seat.now.database) }
    ensures refuses { AtSeat seat.now.name (λ s.
        when (feed.receiver == s.node.id || feed.receiver == feed.provider) (refused.SameNode feed.receiver) ∷ [])
        (base_of K.kept seat.now.database) result (base_of K.kept seat.now.database) }
{
    if feeds_itself(&seat.database, feed) {
        let node = feed.receiver;
        return Some(Reply::Refused(Refusal::SameNode { node }));
    }
    None
}

/// 72: the provider is another node, and does not receive the set or has not confirmed the last event on that.
fn check_active<K: Keeper>(
    alloc: Global,
    seat: &mut Named<K>,
    feed: NewFeed,
) -> Result<Option<Reply>, NoMemory>
    requires up { seat.old.database.state.up ≡ true }
    requires node { is_some seat.old.database.state.node.identity ≡ true }
    requires can { IsId feed.set_id × IsId feed.provider }
    ensures checks { IfOk result (λ found. Checks seat.old.name (base_of K.kept seat.old.database) found
        (base_of K.kept seat.new.database)) }
    ensures refuses { IfOk result (λ found. AtSeat seat.old.name (λ s.
        when (rules.is_relayed s (feed_as feed) && not (rules.is_active s feed.set_id feed.provider))
        (refused.NotActive feed.provider) ∷ [])
        (base_of K.kept seat.old.database) found (base_of K.kept seat.new.database)) }
    ensures name { seat.new.name ≡ seat.old.name }
{
    let node = feed.provider;
    if is_own(&seat.database, node) {
        return Ok(None);
    }
    match is_active(&mut seat.database, feed.set_id, node) {
        Ok(true) => Ok(None),
        Ok(false) => Ok(Some(Reply::Refused(Refusal::NotActive { node }))),
        Err(fault) => Ok(Some(told(alloc, &seat.name, fault)?)),
    }
}

/// 73: the provider is another node, and does not forward the set.
fn check_forwarding<K: Keeper>(
    alloc: Global,
    seat: &mut Named<K>,
    feed: NewFeed,
) -> Result<Option<Reply>, NoMemory>
    requires up { seat.old.database.state.up ≡ true }
    requires can { IsId feed.set_id × IsId feed.provider }
    ensures checks { IfOk result (λ found. Checks seat.old.name (base_of K.kept seat.old.database) found
        (base_of K.kept seat.new.database)) }
    ensures refuses { IfOk result (λ found. AtSeat seat.old.name (λ s.
        when (rules.is_relayed s (feed_as feed) && not (forwards feed.set_id feed.provider s.known.config))
        (refused.NotForwarding feed.provider) ∷ [])
        (base_of K.kept seat.old.database) found (base_of K.kept seat.new.database)) }
    ensures name { seat.new.name ≡ seat.old.name }
{
    let node = feed.provider;
    if is_own(&seat.database, node) {
        return Ok(None);
    }
    match knows_forwarder(&mut seat.database, feed.set_id, node) {
        Ok(true) => Ok(None),
        Ok(false) => Ok(Some(Reply::Refused(Refusal::NotForwarding { node }))),
        Err(fault) => Ok(Some(told(alloc, &seat.name, fault)?)),
    }
}

/// 72: the receiver receives the set, and has not confirmed the last event on that.
fn check_waiting<K: Keeper>(
    alloc: Global,
    seat: &mut Named<K>,
    feed: NewFeed,
) -> Result<Option<Reply>, NoMemory>
    requires up { seat.old.database.state.up ≡ true }
    requires node { is_some seat.old.database.state.node.identity ≡ true }
    requires can { IsId feed.set_id × IsId feed.receiver }
    ensures checks { IfOk result (λ found. Checks seat.old.name (base_of K.kept seat.old.database) found
        (base_of K.kept seat.new.database)) }
    ensures refuses { IfOk result (λ found. AtSeat seat.old.name (λ s.
        when (rules.is_waiting s (feed_as feed)) (refused.NotActive feed.receiver) ∷ [])
        (base_of K.kept seat.old.database) found (base_of K.kept seat.new.database)) }
    ensures name { seat.new.name ≡ seat.old.name }
{
    let node = feed.receiver;
    match is_waiting(&mut seat.database, feed.set_id, node) {
        Ok(false) => Ok(None),
        Ok(true) => Ok(Some(Reply::Refused(Refusal::NotActive { node }))),
        Err(fault) => Ok(Some(told(alloc, &seat.name, fault)?)),
    }
}

/// Whether the receiver is not to forward the set, which another one has from there.
fn stops_providing(rows: &[(u32, Subscription)], feed: NewFeed) -> bool
    ensures { result ≡ (not feed.forward && list_any (λ e. e.1.provider == feed.receiver) rows.now) }
{
    !feed.forward && provides(rows, feed.receiver)
}

/// 46: the receiver is not to forward the set, and another one has it from there.
fn check_provides<K: Keeper>(
    alloc: Global,
    seat: &mut Named<K>,
    feed: NewFeed,
) -> Result<Option<Reply>, NoMemory>
    requires up { seat.old.database.state.up ≡ true }
    requires can { IsId feed.set_id }
    ensures checks { IfOk result (λ found. Checks seat.old.name (base_of K.kept seat.old.database) found
        (base_of K.kept seat.new.database)) }
    ensures refuses { IfOk result (λ found. AtSeat seat.old.name (λ s.
        when (rules.is_provider s (feed_as feed)) (refused.HasReceivers feed.receiver) ∷ [])
        (base_of K.kept seat.old.database) found (base_of K.kept seat.new.database)) }
    ensures name { seat.new.name ≡ seat.old.name }
{
    let node = feed.receiver;
    match receivers_of(&mut seat.database, feed.set_id) {
        Ok(rows) => {
            if stops_providing(rows.as_slice(), feed) {
                return Ok(Some(Reply::Refused(Refusal::HasReceivers { node })));
            }
            Ok(None)
        }
        Err(fault) => Ok(Some(told(alloc, &seat.name, fault)?)),
    }
}

/// 59: the provider has the set from the receiver, directly or by way of others.
fn check_below<K: Keeper>(
    alloc: Global,
    seat: &mut Named<K>,
    feed: NewFeed,
) -> Result<Option<Reply>, NoMemory>
    requires up { seat.old.database.state.up ≡ true }
    requires can { IsId feed.set_id }
    ensures checks { IfOk result (λ found. Checks seat.old.name (base_of K.kept seat.old.database) found
        (base_of K.kept seat.new.database)) }
    ensures refuses { IfOk result (λ found. AtSeat seat.old.name (λ s.
        when (rules.is_below s (feed_as feed)) (refused.Loop feed.set_id) ∷ [])
        (base_of K.kept seat.old.database) found (base_of K.kept seat.new.database)) }
    ensures name { seat.new.name ≡ seat.old.name }
{
    let set = feed.set_id;
    match receivers_of(&mut seat.database, set) {
        Ok(rows) => {
            if leads_to(rows.as_slice(), feed.receiver, feed.provider) {
                return Ok(Some(Reply::Refused(Refusal::Loop { set })));
            }
            Ok(None)
        }
        Err(fault) => Ok(Some(told(alloc, &seat.name, fault)?)),
    }
}

/// What is checked of the receiver's place among the receivers of the set: 72, 46 and 59.
fn check_row<K: Keeper>(
    alloc: Global,
    seat: &mut Named<K>,
    feed: NewFeed,
) -> Result<Option<Reply>, NoMemory>
    requires up { seat.old.database.state.up ≡ true }
    requires node { is_some seat.old.database.state.node.identity ≡ true }
    requires can { IsId feed.set_id × IsId feed.receiver }
    ensures checks { IfOk result (λ found. Checks seat.old.name (base_of K.kept seat.old.database) found
        (base_of K.kept seat.new.database)) }
    ensures refuses { IfOk result (λ found. AtSeat seat.old.name (λ s. row_checks s (feed_as feed))
        (base_of K.kept seat.old.database) found (base_of K.kept seat.new.database)) }
    ensures name { seat.new.name ≡ seat.old.name }
{
    if let Some(reply) = check_waiting(alloc, seat, feed)? {
        return Ok(Some(reply));
    }
    if let Some(reply) = check_provides(alloc, seat, feed)? {
        return Ok(Some(reply));
    }
    check_below(alloc, seat, feed)
}

/// What is checked of the provider, 72 and 73, and of the receiver's own subscription, 72, 46 and 59.
fn check_source<K: Keeper>(
    alloc: Global,
    seat: &mut Named<K>,
    feed: NewFeed,
) -> Result<Option<Reply>, NoMemory>
    requires up { seat.old.database.state.up ≡ true }
    requires node { is_some seat.old.database.state.node.identity ≡ true }
    requires can { IsId feed.set_id × IsId feed.provider × IsId feed.receiver }
    ensures checks { IfOk result (λ found. Checks seat.old.name (base_of K.kept seat.old.database) found
        (base_of K.kept seat.new.database)) }
    ensures refuses { IfOk result (λ found. AtSeat seat.old.name (λ s. source_checks s (feed_as feed))
        (base_of K.kept seat.old.database) found (base_of K.kept seat.new.database)) }
    ensures name { seat.new.name ≡ seat.old.name }
{
    if let Some(reply) = check_active(alloc, seat, feed)? {
        return Ok(Some(reply));
    }
    if let Some(reply) = check_forwarding(alloc, seat, feed)? {
        return Ok(Some(reply));
    }
    check_row(alloc, seat, feed)
}

/// What is checked of a subscription at the owner of its set: 44 of the receiver, 44 of the provider, 78; 72 and 73 of
/// the provider; 72 of the receiver, 46, 59.
fn check_feed<K: Keeper>(
    alloc: Global,
    seat: &mut Named<K>,
    feed: NewFeed,
) -> Result<Option<Reply>, NoMemory>
    requires up { seat.old.database.state.up ≡ true }
    requires node { is_some seat.old.database.state.node.identity ≡ true }
    requires can { IsId feed.set_id × IsId feed.provider × IsId feed.receiver }
    ensures checks { IfOk result (λ found. Checks seat.old.name (base_of K.kept seat.old.database) found
        (base_of K.kept seat.new.database)) }
    ensures refuses { IfOk result (λ found. AtSeat seat.old.name (λ s. rules.feed_checks s (feed_as feed))
        (base_of K.kept seat.old.database) found (base_of K.kept seat.new.database)) }
    ensures name { seat.new.name ≡ seat.old.name }
{
    if let Some(reply) = check_live(alloc, seat, feed.receiver)? {
        return Ok(Some(reply));
    }
    if let Some(reply) = check_live(alloc, seat, feed.provider)? {
        return Ok(Some(reply));
    }
    if let Some(reply) = check_apart(seat, feed) {
        return Ok(Some(reply));
    }
    check_source(alloc, seat, feed)
}

/// The era in which a set is led, or 0 where the node knows no such live set.
fn era_in(reign: Option<Reign>) -> u64
    ensures { result ≡ unwrap_or (option_map (λ r. r.era) reign) 0 }
{
    match reign {
        Some(reign) => reign.era,
        None => 0,
    }
}

/// What the owner emits of a new subscription: a SYNC, the subscription, and the event at which the receiver copies the
/// set.
fn feed_bodies(feed: NewFeed, era: u64) -> [Body; 3]
    ensures { result ≡ rules.feed_bodies era (feed_as feed) }
{
    let NewFeed {
        set_id: set,
        provider,
        receiver,
        forward,
    } = feed;
    [
        Body::Sync,
        Body::SubscribeSet {
            set,
            provider,
            receiver,
            forward,
        },
        Body::EnableSubscription {
            set,
            provider,
            receiver,
            forward,
            era,
        },
    ]
}

/// The node emits the events of a new subscription, in the era in which it knows the set.
fn emit_feed<K: Keeper>(
    alloc: Global,
    seat: &mut Named<K>,
    feed: NewFeed,
) -> Result<Reply, NoMemory>
    requires up { seat.old.database.state.up ≡ true }
    requires node { is_some seat.old.database.state.node.identity ≡ true }
    requires can { IsId feed.set_id × IsId feed.provider × IsId feed.receiver }
    ensures answers { IfOk result (λ reply. Answers seat.old.name (base_of K.kept seat.old.database) reply
        (base_of K.kept seat.new.database)) }
    ensures comes { IfOk result (λ reply. AtNode seat.old.name (λ s. Ok (feed_said (feed_as feed) s))
        (base_of K.kept seat.old.database) reply (base_of K.kept seat.new.database)) }
    ensures name { seat.new.name ≡ seat.old.name }
{
    match set_reign(&mut seat.database, feed.set_id) {
        Ok(reign) => emit_all(alloc, seat, &feed_bodies(feed, era_in(reign))),
        Err(fault) => told(alloc, &seat.name, fault),
    }
}

/// What the owner emits of a subscription that is there: a SYNC, and the subscription.
fn changed_bodies(feed: NewFeed) -> [Body; 2]
    ensures { result ≡ rules.changed_bodies (feed_as feed) }
{
    let NewFeed {
        set_id: set,
        provider,
        receiver,
        forward,
    } = feed;
    [
        Body::Sync,
        Body::SubscribeSet {
            set,
            provider,
            receiver,
            forward,
        },
    ]
}

/// The node emits the events of a subscription, which is new or there.
fn emit_told<K: Keeper>(
    alloc: Global,
    seat: &mut Named<K>,
    feed: NewFeed,
) -> Result<Reply, NoMemory>
    requires up { seat.old.database.state.up ≡ true }
    requires node { is_some seat.old.database.state.node.identity ≡ true }
    requires can { IsId feed.set_id × IsId feed.provider × IsId feed.receiver }
    ensures answers { IfOk result (λ reply. Answers seat.old.name (base_of K.kept seat.old.database) reply
        (base_of K.kept seat.new.database)) }
    ensures comes { IfOk result (λ reply. AtNode seat.old.name (λ s. Ok (told_said (feed_as feed) s))
        (base_of K.kept seat.old.database) reply (base_of K.kept seat.new.database)) }
    ensures name { seat.new.name ≡ seat.old.name }
{
    match knows_receiver(&mut seat.database, feed.set_id, feed.receiver) {
        Ok(true) => emit_all(alloc, seat, &changed_bodies(feed)),
        Ok(false) => emit_feed(alloc, seat, feed),
        Err(fault) => told(alloc, &seat.name, fault),
    }
}

/// The owner of the set emits the events of a subscription, unless 44 it does not know the receiver or the provider, 78
/// the receiver is the owner or the provider, of a provider that is another node 72 that is not active or 73 does not
/// forward the set, 72 the receiver has not confirmed its subscription, 46 it is to stop forwarding while it provides,
/// or 59 the provider is below it.
fn feed_at<K: Keeper>(alloc: Global, seat: &mut Named<K>, feed: NewFeed) -> Result<Reply, NoMemory>
    requires up { seat.old.database.state.up ≡ true }
    requires node { is_some seat.old.database.state.node.identity ≡ true }
    requires can { IsId feed.set_id × IsId feed.provider × IsId feed.receiver }
    ensures answers { IfOk result (λ reply. Answers seat.old.name (base_of K.kept seat.old.database) reply
        (base_of K.kept seat.new.database)) }
    ensures comes { IfOk result (λ reply. AtNode seat.old.name (rules.fed_at (feed_as feed))
        (base_of K.kept seat.old.database) reply (base_of K.kept seat.new.database)) }
    ensures name { seat.new.name ≡ seat.old.name }
{
    if let Some(reply) = check_feed(alloc, seat, feed)? {
        return Ok(reply);
    }
    emit_told(alloc, seat, feed)
}

/// SUBSCRIBE SET: the owner of the set is found, and emits the events of the subscription. 47 nobody owns it.
pub(crate) fn subscribe_set<K: Keeper>(
    alloc: Global,
    databases: &mut [Named<K>],
    caller: Caller<'_>,
    feed: NewFeed,
) -> Result<Reply, NoMemory>
    requires can { IsId feed.set_id × IsId feed.provider × IsId feed.receiver }
    requires distinct { AreDistinct (bases_of K.kept databases.old) }
    ensures runs { IfOk result (λ reply. Runs (bases_of K.kept databases.old) reply
        (bases_of K.kept databases.new)) }
    ensures executes { IfOk result (λ reply. Executes
        (record { lines = caller.entry.lines.now; cluster = caller.entry.cluster.now })
        (rules.subscribe_set (feed_as feed))
        (bases_of K.kept databases.old) reply (bases_of K.kept databases.new)) }
{
    match find_owner(alloc, databases, caller.lines, feed.set_id)? {
        Owner::At(i) => feed_at(alloc, &mut databases[i], feed),
        Owner::Nobody => Ok(Reply::Refused(Refusal::NoSet { set: feed.set_id })),
        Owner::Stopped(reply) => Ok(reply),
    }
}
