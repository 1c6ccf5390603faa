// What a poll reads: at the node that polls what it wants of a server, and at the server what that hands over.
ghost use Rattle.std.specs.Prelude.{◌≡◌, ◌++◌, map, Some, OnOk, IfOk, IfErr};
ghost use Rattle.slon_base.specs.Codec.{AllAre};
ghost use Rattle.slon_base.specs.Keeper.{Store, sight};
ghost use Rattle.store_rows.specs.Rows.{IsId};
ghost use Rattle.store_rows.specs.Steps.{Safe, IsWithinLimit, Gives};
ghost use Rattle.slon_model.specs.Deeds.{Node};
ghost use Rattle.event_store.specs.Giving.{IsConfirmation};
ghost use Rattle.event_store.specs.Seen.{seen_event};
ghost use Rattle.node_state.specs.Held.{NodeHeld};
ghost use Rattle.remote_listener.specs.Asking.{want_of, wants_of, behind, all_behind, Hands};
ghost use Rattle.remote_listener.specs.Reading.{AreRowsOf};

use event_store::{Confirmation, Event, Queue, after, confirmations, progress};
use node_change::{is_known, listens};
use slon_base::{Keeper, Many, STORED_LIMIT};
use std::alloc::{AllocError, Global};
use store_rows::Stop;

/// An origin, and the number behind which a node wants its events.
pub type Want = (u32, u64);

/// What a server hands over.
#[derive(Drop)]
pub struct Handed {
    /// The events that are wanted, each origin's ascending by number.
    pub events: Many<Event>,
    /// How far each node is in each stream, as the server knows it.
    pub rows: Many<Confirmation>,
}

/// How far the node `own` and what waits there are in the stream of each of these origins.
fn reaches<K: Keeper>(
    alloc: Global,
    keeper: &mut K,
    queue: &Queue,
    own: u32,
    origins: &[u32],
) -> Result<Many<Want>, Stop>
    requires own { IsId own }
    requires origins { AllAre IsId origins.now }
    ensures safe { Safe (K.kept keeper.old) (K.kept keeper.new) result }
    ensures same { OnOk result ((K.kept keeper.new).pending ≡ (K.kept keeper.old).pending) }
    ensures within { IfErr result IsWithinLimit }
    ensures ids { IfOk result (AllAre (λ w. IsId w.0)) }
    ensures says { (m : Store) (n : Node) → sight (K.kept keeper.old) ≡ Some m → n.id ≡ own → NodeHeld n m →
        Gives (λ wants. wants ≡ map (want_of n queue.now) origins.now) result }
{
    let mut wants = Many::new(alloc);
    for origin in origins {
        let number = progress(alloc, keeper, own, *origin)?.unwrap_or(0);
        wants.push((*origin, queue.reach(*origin, number)))?;
    }
    Ok(wants)
}

/// What the node `own` wants of a server: of each origin that it hears there the events behind those that it has met
/// and those that wait for it. It goes over the nodes that it knows, and reads no event.
pub(crate) fn wanted_at<K: Keeper>(
    alloc: Global,
    keeper: &mut K,
    queue: &Queue,
    own: u32,
    server: u32,
) -> Result<Many<Want>, Stop>
    requires ids { IsId own × IsId server }
    ensures safe { Safe (K.kept keeper.old) (K.kept keeper.new) result }
    ensures same { OnOk result ((K.kept keeper.new).pending ≡ (K.kept keeper.old).pending) }
    ensures within { IfErr result IsWithinLimit }
    ensures ids { IfOk result (AllAre (λ w. IsId w.0)) }
    ensures says { (m : Store) (n : Node) → sight (K.kept keeper.old) ≡ Some m → n.id ≡ own → NodeHeld n m →
        Gives (λ wants. wants ≡ wants_of server queue.now n) result }
{
    let origins = listens(alloc, keeper, own, server)?;
    reaches(alloc, keeper, queue, own, origins.as_slice())
}

/// Adds these events behind the others.
fn append(events: &mut Many<Event>, more: Many<Event>) -> Result<(), AllocError>
    ensures { OnOk result (events.new ≡ events.old ++ more) }
{
    for event in more.into_vec() {
        events.push(event)?;
    }
    Ok(())
}

/// Adds the events behind a number that the server holds. None is behind the limit of stored numbers.
fn add_behind<K: Keeper>(
    alloc: Global,
    keeper: &mut K,
    want: &Want,
    events: &mut Many<Event>,
) -> Result<(), Stop>
    requires id { IsId want.now.0 }
    ensures safe { Safe (K.kept keeper.old) (K.kept keeper.new) result }
    ensures same { OnOk result ((K.kept keeper.new).pending ≡ (K.kept keeper.old).pending) }
    ensures within { IfErr result IsWithinLimit }
    ensures says { (m : Store) (n : Node) → sight (K.kept keeper.old) ≡ Some m → NodeHeld n m →
        Gives (λ done. map seen_event events.new ≡ map seen_event events.old ++ behind n want.now) result }
{
    if want.1 > STORED_LIMIT {
        return Ok(());
    }
    let more = after(alloc, keeper, want.0, want.1)?;
    append(events, more)?;
    Ok(())
}

/// The events that the server holds behind these numbers, in the order of the origins. It goes over these alone.
fn events_for<K: Keeper>(alloc: Global, keeper: &mut K, wants: &[Want]) -> Result<Many<Event>, Stop>
    requires ids { AllAre (λ w. IsId w.0) wants.now }
    ensures safe { Safe (K.kept keeper.old) (K.kept keeper.new) result }
    ensures same { OnOk result ((K.kept keeper.new).pending ≡ (K.kept keeper.old).pending) }
    ensures within { IfErr result IsWithinLimit }
    ensures says { (m : Store) (n : Node) → sight (K.kept keeper.old) ≡ Some m → NodeHeld n m →
        Gives (λ events. map seen_event events ≡ all_behind n wants.now) result }
{
    let mut events = Many::new(alloc);
    for want in wants {
        add_behind(alloc, keeper, want, &mut events)?;
    }
    Ok(events)
}

/// What a server hands to the node `poller`, which wants these events, or nothing if it does not know that node as
/// live, or knows a fence against it.
pub(crate) fn hand_over<K: Keeper>(
    alloc: Global,
    keeper: &mut K,
    poller: u32,
    wants: &[Want],
) -> Result<Option<Handed>, Stop>
    requires poller { IsId poller }
    requires ids { AllAre (λ w. IsId w.0) wants.now }
    ensures safe { Safe (K.kept keeper.old) (K.kept keeper.new) result }
    ensures same { OnOk result ((K.kept keeper.new).pending ≡ (K.kept keeper.old).pending) }
    ensures within { IfErr result IsWithinLimit }
    ensures rows { IfOk result AreRowsOf }
    ensures says { (m : Store) (n : Node) → sight (K.kept keeper.old) ≡ Some m → NodeHeld n m →
        Gives (Hands poller wants.now n) result }
{
    if !is_known(alloc, keeper, poller)? {
        return Ok(None);
    }
    let events = events_for(alloc, keeper, wants)?;
    let rows = confirmations(alloc, keeper)?;
    Ok(Some(Handed { events, rows }))
}
