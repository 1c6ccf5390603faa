//! How a database becomes a node, what it does as one, and what statements look up before they change it.
#![tactic(auto)]

mod announcing;
mod applying;
mod confirming;
mod copying;
mod forwarding;
mod founding;
mod joining;
mod layout;
mod listening;
mod lookup;
mod side;
mod using;

pub use announcing::announce;
pub use applying::{apply, apply_keeping, keep_set, log_rows};
pub use confirming::hear;
pub use founding::found_node;
pub use joining::join_node;
pub use listening::{is_known, known, listens};
pub use lookup::{
    find_node_row, find_set_row, find_subscription, first_receiver, has_fence, has_path,
    has_subscription, has_table_row, receivers,
};
pub use side::{Failed, Side, sided};
pub use using::set_used_by;
