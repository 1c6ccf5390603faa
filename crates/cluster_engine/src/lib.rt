//! The databases of a session, its scripts and its slons, and what each command does with them.
#![tactic(auto)]

mod cluster;
mod scripts;
mod slons;

pub use cluster::Cluster;
pub use scripts::{Started, is_accepted};
pub use slonik_exec::NoMemory;
