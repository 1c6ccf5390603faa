//! The rows of a node's store, each with one spelling. Ids are 1 to 2,147,483,647, and numbers are at most 2^63 - 1.
#![tactic(auto)]

mod body;
mod life;
mod rows;

pub use body::Body;
pub use rows::{Fence, FenceState, NodeRow, SetRow, Subscription, TableRow};
