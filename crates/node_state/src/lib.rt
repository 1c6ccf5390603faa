//! What a database keeps in memory of the node that it is, and what it reads of the node in its store.
#![tactic(auto)]

mod closing;
mod entries;
mod keeping;
mod layout;
mod logging;
mod members;
mod memory;
mod reading;
mod telling;

pub use closing::find_closed;
pub use entries::all_rows;
pub use keeping::kept_views;
pub use logging::log_rows;
pub use memory::{Identity, Member, Members, NodeMemory};
pub use reading::find_node;
pub use telling::tell;
