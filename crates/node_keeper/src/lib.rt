//! Stores in memory, and a store that passes calls on to another one and fails them from a call on, as it is told.
#![tactic(auto)]

mod ahead;
mod fault_plan;
mod fuse;
mod journaled;
mod mem_files;
mod mem_keeper;
mod mem_shelf;
mod mem_sink;
mod slots;

pub use fuse::Fuse;
pub use mem_files::MemFiles;
pub use mem_keeper::MemKeeper;
pub use mem_shelf::MemShelf;
pub use mem_sink::MemSink;
pub use slon_base::{Charge, Files, Keeper, Shelf, Sink};
