//! The words of a session: its commands and its replies, and what they mean. The definitions stand in `specs/`.
#![tactic(auto)]

mod columns;
mod command;
mod fault;
mod forms;
mod numbering;
mod reading;
mod reply;
mod standing;

pub use columns::ColumnList;
pub use command::{Command, Crash, Delivery};
pub use fault::DbFault;
pub use forms::is_part;
pub use numbering::Numbering;
pub use reading::Reading;
pub use reply::{Answer, Answered, EventKind, Refusal, Reply, TableRows};
pub use standing::{KeptList, ProgressList};
