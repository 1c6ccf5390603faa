// What a node makes of what an event says.
ghost use Rattle.std.specs.Prelude.{◌≡◌, option_map};
ghost use Rattle.slon_model.specs.Events as events;
ghost use Rattle.slon_model.specs.Working as rules;
ghost use Rattle.remote_worker.specs.Working.{seen_errand};

use node_rows::Body;
use slon_model::EventKind;

/// The kind of an event that says this.
pub fn kind_of(body: &Body) -> EventKind
    ensures { result ≡ events.kind_of body.now }
{
    match body {
        Body::Sync => EventKind::Sync,
        Body::StoreNode { .. } => EventKind::StoreNode,
        Body::DropNode { .. } => EventKind::DropNode,
        Body::StorePath { .. } => EventKind::StorePath,
        Body::DropPath { .. } => EventKind::DropPath,
        Body::StoreSet { .. } => EventKind::StoreSet,
        Body::DropSet { .. } => EventKind::DropSet,
        Body::SetAddTable { .. } => EventKind::SetAddTable,
        Body::SubscribeSet { .. } => EventKind::SubscribeSet,
        Body::EnableSubscription { .. } => EventKind::EnableSubscription,
        Body::UnsubscribeSet { .. } => EventKind::UnsubscribeSet,
        Body::MoveSet { .. } => EventKind::MoveSet,
        Body::AcceptSet { .. } => EventKind::AcceptSet,
        Body::FailoverSet { .. } => EventKind::FailoverSet,
    }
}

/// Whether a node can carry out what an event says. It takes over no set yet.
pub fn can_carry_out(body: &Body) -> bool
    ensures { result ≡ rules.can_carry_out body.now }
{
    match body {
        Body::MoveSet { .. } => false,
        Body::AcceptSet { .. } => false,
        Body::FailoverSet { .. } => false,
        _ => true,
    }
}

/// A set that a node is to copy.
#[derive(Clone, Copy, Debug, Drop, PartialEq, Eq)]
pub struct Copying {
    /// The id of the set.
    pub set: u32,
    /// The id of the node that it is copied from.
    pub provider: u32,
    /// The number of the era of the set in which the node was told so.
    pub era: u64,
}

/// What a node is to bring with an event from other nodes.
#[derive(Clone, Copy, Debug, Drop, PartialEq, Eq)]
pub enum Errand {
    /// A copy of a set.
    Copy(Copying),
    /// What was logged for the sets that the node keeps of the origin, each at its provider.
    Follow,
}

/// What the node of this id is to bring with an event of this origin: a copy of a set of which the event makes it a
/// receiver, and with a SYNC what was logged of the sets that it keeps of the origin, if it keeps one. Nothing comes to
/// it of itself.
pub fn errand_in(own: u32, receives: bool, origin: u32, body: &Body) -> Option<Errand>
    ensures { option_map seen_errand result ≡ rules.errand_in own receives origin body.now }
{
    match body {
        Body::EnableSubscription {
            set,
            provider,
            receiver,
            era,
            ..
        } => {
            let copying = Copying {
                set: *set,
                provider: *provider,
                era: *era,
            };
            (*receiver == own).then_some(Errand::Copy(copying))
        }
        Body::Sync => (receives && origin != own).then_some(Errand::Follow),
        _ => None,
    }
}
