//! How an accepted write of an application is logged as a row, read back, and applied to the rows of its table.
//!
//! A row of the log names the columns that the write is about by number and value. `log_row_of` makes the row of a
//! write, and `action_of` reads the write from it. Each undoes the other: a row that no write makes is not read.
//! `apply` does what a write does to the rows of its table.
#![tactic(auto)]

mod action;
mod applying;
mod capture;
mod log_row;
mod reading;
mod spelled_texts;
mod table_names;
mod values;

pub use action::{Action, Change};
pub use applying::apply;
pub use capture::log_row_of;
pub use log_row::{LogCommand, LogRow};
pub use reading::{action_in, action_of};
pub use spelled_texts::SpelledTexts;
pub use table_names::TableNames;
pub use values::{copy_values, updated_values};
