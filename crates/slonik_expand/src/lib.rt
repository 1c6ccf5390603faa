//! The expansion of a slonik script: names are replaced by what they stand for, and files are included.
#![tactic(auto)]

mod definition;
mod definitions;
mod expanding;
mod file;
mod forms;
mod laws;
mod output;
mod place;
mod progress;

pub use expanding::expand;
pub use laws::no_use_comes_out;
