//! The streams of events at a node: what its store holds of them, and how an event is emitted, met and found there.
#![tactic(auto)]

mod event;
mod following;
mod giving;
mod hearing;
mod lagging;
mod layout;
mod queue;
mod reading;
mod snapshot;
mod streams;
mod syncs;
mod telling;
mod view;
mod writing;

pub use event::Event;
pub use following::{streams_begin, streams_follow_deeds, streams_stand_apart};
pub use giving::give_streams;
pub use hearing::{confirm, confirmations_rise, confirmed};
pub use lagging::{least_confirmed, least_is_least};
pub use queue::Queue;
pub use reading::{after, after_is_all};
pub use streams::{emit, find_event, progress, store};
pub use syncs::last_sync;
pub use telling::{Confirmation, confirm_all, confirmations, news};
pub use view::{View, base_view, drop_view, find_view, keep_view};
