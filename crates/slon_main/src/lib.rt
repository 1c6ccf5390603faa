//! A session from its words and its bytes to the bytes written.
#![tactic(auto)]

mod run;
mod session;
mod status;

pub use cluster_engine::{Cluster, NoMemory};
pub use run::{Stop, run_session};
pub use session::{Ended, slon_main};
pub use status::Status;
