//! What an event changes in the rows by which a node's store holds what it knows of the cluster.
#![tactic(auto)]

mod config;
mod handing;
mod layout;
mod loading;
mod nodes;
mod paths;
mod sets;
mod subscriptions;

pub use config::change;
pub use loading::{Config, load};
