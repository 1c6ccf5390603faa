//! The files, the output and the stores of the system, as the session's objects.
#![tactic(auto)]

mod fault_count;
mod real_files;
mod real_shelf;
mod real_sink;

pub use real_files::RealFiles;
pub use real_shelf::RealShelf;
pub use real_sink::RealSink;
