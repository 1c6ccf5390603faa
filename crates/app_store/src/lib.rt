//! One database over a store: its tables, its transactions and its rows.
#![tactic(auto)]

mod asking;
mod begun;
mod ceilings;
mod database;
mod falls;
mod founding;
mod layout;
mod look;
mod numbers;
mod obey;
mod opens;
mod restoring;
mod scan;
mod spelling;
mod state;
mod transact;
mod transactions;
mod work;
mod writes;

pub use database::Database;
pub use falls::{fall, overflow};
pub use node_keeper::{Fuse, Keeper};
pub use slon_model::DbFault;
pub use state::State;
pub use store_rows::Stop;
pub use transact::{Made, begin, finish};
pub use txn_core::Snapshot;
