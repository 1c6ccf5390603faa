//! The log of a node: the rows that its transactions logged, and those that it received.
#![tactic(auto)]

mod appending;
mod layout;
mod selecting;
mod switch;

pub use appending::append;
pub use selecting::{between, between_from};
pub use switch::status;
