//! The lines of a session that may hold scripts: each command is handed over, a script with what its text is read as.
#![tactic(auto)]

mod fault;
mod line;
mod reader;
mod script;
mod texts;

pub use fault::ReadFault;
pub use reader::SessionReader;
