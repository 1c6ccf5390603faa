//! What a database does as a node of a cluster: it becomes one, it emits events, and statements look up what it knows.
#![tactic(auto)]

mod announcing;
mod applying;
mod bringing;
mod copying;
mod finishing;
mod founding;
mod hearing;
mod joining;
mod layout;
mod logged;
mod looking;
mod polling;
mod reached;
mod syncing;
mod writing;

pub use announcing::{announce, stored_snapshot};
pub use app_store::{Database, DbFault, Keeper};
pub use applying::apply;
pub use bringing::{Brought, SetCopy, SetSync};
pub use copying::read_tables;
pub use founding::found;
pub use hearing::hear;
pub use joining::{Fell, Joined, join};
pub use logged::{LoggedRows, read_log};
pub use looking::{
    Reign, first_receiver, has_live, has_table, is_dropped, knows_forwarder, knows_live,
    knows_node, knows_path, knows_receiver, knows_set, knows_table, names_table, set_reign,
    set_used_by, width, writer,
};
pub use node_change::Side;
pub use polling::news_among;
pub use reached::{is_active, is_waiting, kept_view, progress_of, receivers_of};
pub use syncing::{is_same, is_synced};
