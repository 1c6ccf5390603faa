//! The text of a session: its lines are read, its commands are understood, and its replies are printed.
#![tactic(auto)]

mod crash;
mod fits;
mod forms;
mod laws;
mod line_reader;
mod print;
mod read;
mod shapes;
mod words;
mod writes;

pub use fits::numbers_fit;
pub use laws::{outputs_are_injective, printing_is_injective};
pub use line_reader::{LINE_LIMIT, LineReader, NextLine, ReadStop};
pub use print::{print_line, print_reply};
pub use read::{LineFault, is_text, read_command};
pub use words::{Misread, name_of, words_of};
