//! What the actions of a log do to the rows of the tables of a store, one after the other.
//!
//! A node that takes a table from another one applies there what was logged: `apply_action` does what one action does,
//! `apply_actions` what several do, and `apply_rows` what the rows of a log do, in their order. Before that it copies
//! the table: `table_rows` reads the rows of one store, and `replace_table` puts them in the place of those of another.
#![tactic(auto)]

mod applying;
mod copying;
mod layout;
mod several;

pub use applying::{apply_action, apply_actions, apply_rows};
pub use copying::{replace_table, table_rows};
pub use several::{replace_tables, rows_of_tables};
