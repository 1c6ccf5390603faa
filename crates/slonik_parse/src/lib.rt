//! The slonik reader: what a script says, and where it goes wrong.
#![tactic(auto)]

mod choose;
mod form;
mod given;
mod goals;
mod laws;
mod machine;
mod misparse;
mod parsing;
mod state;
mod values;

pub use laws::one_reading;
pub use parsing::parse;
pub use slonik_script::{
    Command, CommandList, NodeChoice, NodeLines, Script, ScriptRefusal, Statement, StatementList,
    TryBlock,
};
pub use slonik_tokens::{ParseFault, Sign, Token, tokens};
