//! What transactions share: snapshots, the counters that give ids, and the locks on rows.
#![tactic(auto)]

mod counters;
mod cover;
mod fault;
mod holders;
mod lock_table;
mod owned;
mod print;
mod read;
mod snapshot;
mod writers;
mod xid_list;

pub use counters::{BLOCK, Counters};
pub use fault::{BadSnapshot, LockFault};
pub use lock_table::LockTable;
pub use snapshot::Snapshot;
pub use xid_list::XidList;
