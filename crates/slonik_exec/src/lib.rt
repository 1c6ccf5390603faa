//! What the commands of a script do on the databases of a session.
#![tactic(auto)]

mod caller;
mod checks;
mod command;
mod databases;
mod dropping;
mod emitting;
mod feeds;
mod knowing;
mod leaving;
mod membership;
mod owning;
mod paths;
mod reaching;
mod replies;
mod sets;
mod short;
mod subscribing;
mod syncing;
mod turns;
mod unsubscribing;

pub use caller::Caller;
pub use command::run_command;
pub use databases::{Named, index_of};
pub use knowing::{
    Heard, Question, down_database, down_node, first_node, has_node, known_somewhere,
};
pub use membership::Spots;
pub use reaching::{Reached, database_in, database_of_line, reach};
pub use replies::{answered, copied, halted, refused, told};
pub use short::NoMemory;
pub use syncing::take_sync;
pub use turns::{index_of_node, turn_of};
