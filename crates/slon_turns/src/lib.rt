//! The turns of slons in which events are on their way: a node polls another one, and fetches
//! and applies what waits there.
#![tactic(auto)]

mod bounds;
mod fetching;
mod following;
mod held;
mod planning;
mod polling;
mod turn;
mod working;

pub use bounds::Bound;
pub use held::Held;
pub use planning::{are_cut, is_between};
pub use polling::Listen;
pub use turn::take_poll;
pub use working::{Aim, Switched, Work, take_work};
