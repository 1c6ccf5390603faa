//! Slonik scripts as they are read, and what may be wrong with one: types alone.
#![tactic(auto)]

mod refusal;
mod script;

pub use refusal::ScriptRefusal;
pub use script::{
    Command, CommandList, NodeChoice, NodeLines, Script, Statement, StatementList, TryBlock,
};
