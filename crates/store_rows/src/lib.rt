//! Rows of many kinds in the spaces of one store.
#![tactic(auto)]

mod calls;
mod lists;
mod scan;
mod spelled;
mod stop;
mod stored_rows;

pub use calls::{count_pairs, del_pair, get_pair, next_pair, put_pair};
pub use scan::scan_rows;
pub use spelled::Spelled;
pub use stop::Stop;
pub use stored_rows::{
    del_row, get_row, has_row, put_row, put_row_in, read_alone, row_room, row_stop, spelling,
};
