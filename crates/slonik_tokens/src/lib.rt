//! The tokens of a slonik script: what its bytes are cut into, and why a script is not read.
#![tactic(auto)]

mod cut;
mod fault;
mod lexeme;
mod scan;
mod token;

pub use cut::tokens;
pub use fault::ParseFault;
pub use token::{Sign, Token};
