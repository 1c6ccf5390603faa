// What a node keeps of a set as it is told to forward it, and did not before, or to receive it no more.
ghost use Rattle.std.specs.Prelude.{◌≡◌, Some, true, is_some, not, if◌then◌else◌, OnOk};
ghost use Rattle.slon_base.specs.Keeper.{Store, sight};
ghost use Rattle.store_rows.specs.Rows.{IsId};
ghost use Rattle.store_rows.specs.Space.{IsPending, Becomes};
ghost use Rattle.store_rows.specs.Steps.{Safe, Gives};
ghost use Rattle.node_rows.specs.Spellings.{CanBody};
ghost use Rattle.slon_model.specs.Config.{Config, forwards};
ghost use Rattle.slon_model.specs.Views.{based_at, views_told};
ghost use Rattle.set_config.specs.Holds.{HoldsConfig};
ghost use Rattle.event_store.specs.Holds.{ShowsStreams};
ghost use Rattle.event_store.specs.Streams.{Streams};
ghost use Rattle.node_change.specs.Forwarding.{IsOfId, ShowsBoth, told_of};
ghost use Rattle.slon_model.specs.Events.{is_sync};
ghost use Rattle.store_rows.specs.Spending.{PutsUpTo};

use crate::lookup::find_subscription;
use event_store::{base_view, drop_view};
use node_rows::Body;
use slon_base::Keeper;
use std::alloc::Global;
use store_rows::Stop;

/// Whether a node forwards a set.
fn is_forwarder<K: Keeper>(alloc: Global, keeper: &mut K, set: u32, node: u32) -> Result<bool, Stop>
    requires ids { IsId set × IsId node }
    ensures safe { Safe (K.kept keeper.old) (K.kept keeper.new) result }
    ensures same { OnOk result ((K.kept keeper.new).pending ≡ (K.kept keeper.old).pending) }
    ensures says { (m : Store) (c : Config) → sight (K.kept keeper.old) ≡ Some m → HoldsConfig c m →
        Gives (λ found. found ≡ forwards set node c) result }
{
    match find_subscription(alloc, keeper, set, node)? {
        None => Ok(false),
        Some(row) => Ok(row.forward),
    }
}

/// The node is to forward a set: where it did not before, it logs from here on what it applies of it.
fn begin_forwarding<K: Keeper>(
    alloc: Global,
    keeper: &mut K,
    own: u32,
    set: u32,
) -> Result<(), Stop>
    requires opened { is_some (K.kept keeper.old).pending ≡ true }
    requires ids { IsId set × IsId own }
    ensures safe { Safe (K.kept keeper.old) (K.kept keeper.new) result }
    ensures turns { (base : Store) (c : Config) (s : Streams) → IsPending (ShowsBoth base c s) (K.kept keeper.old) →
        Becomes (ShowsStreams base (record s {
          views = if not (forwards set own c) then based_at set s.views else s.views;
        })) (K.kept keeper.new) result }
{
    if is_forwarder(alloc, keeper, set, own)? {
        return Ok(());
    }
    base_view(alloc, keeper, set)
}

/// What an event of another node tells a node of a set that it receives.
#[derive(Clone, Copy)]
enum Told {
    /// Nothing that changes what it keeps of the set.
    Nothing,
    /// It is to forward this set.
    Forwards(u32),
    /// It is to receive this set no more.
    Leaves(u32),
}

/// What an event tells the node of this id of a set that it receives.
fn told_of(own: u32, body: &Body) -> Told
    requires can { CanBody body.now }
    ensures ids { IsOfId result }
    ensures is { result ≡ told_of own body.now }
{
    match body {
        Body::SubscribeSet {
            set,
            receiver,
            forward,
            ..
        } => {
            if *receiver == own && *forward {
                return Told::Forwards(*set);
            }
            Told::Nothing
        }
        Body::UnsubscribeSet { set, receiver } => {
            if *receiver == own {
                return Told::Leaves(*set);
            }
            Told::Nothing
        }
        Body::DropSet { set } => Told::Leaves(*set),
        _ => Told::Nothing,
    }
}

/// What is kept of sets, as an event of another node tells the node how it receives one, in what is pending. The event
/// has not changed yet what the node knows of the cluster.
pub(crate) fn tell_views<K: Keeper>(
    alloc: Global,
    keeper: &mut K,
    own: u32,
    body: &Body,
) -> Result<(), Stop>
    requires opened { is_some (K.kept keeper.old).pending ≡ true }
    requires own { IsId own }
    requires can { CanBody body.now }
    ensures safe { Safe (K.kept keeper.old) (K.kept keeper.new) result }
    ensures puts { is_sync body.now ≡ true → PutsUpTo 0 (K.kept keeper.old).puts (K.kept keeper.new).puts }
    ensures turns { (base : Store) (c : Config) (s : Streams) → IsPending (ShowsBoth base c s) (K.kept keeper.old) →
        Becomes (ShowsStreams base (record s { views = views_told own body.now c s.views })) (K.kept keeper.new)
        result }
{
    match told_of(own, body) {
        Told::Nothing => Ok(()),
        Told::Forwards(set) => begin_forwarding(alloc, keeper, own, set),
        Told::Leaves(set) => drop_view(alloc, keeper, set),
    }
}
