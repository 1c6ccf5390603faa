//! The slon of a node as it fetches and applies an event of another node: which one comes next, whether it waits and
//! the node can carry it out, what comes with it, what is left of that, and the one commit. Each state of that work is
//! a type of its own.
#![tactic(auto)]

mod carrying;
mod fetches;
mod fetching;
mod following;
mod keeping;
mod loading;
mod reading;
mod running;
mod sharing;
mod standing;
mod worker;

pub use carrying::{Copying, Errand, can_carry_out, errand_in, kind_of};
pub use fetches::{Fetches, Kept};
pub use fetching::{Found, check_provider};
pub use following::{fetch_run, sets_of};
pub use keeping::KeptSet;
pub use loading::{Load, SetFetch, last_logged};
pub use running::{Run, runs_of};
pub use worker::{Fetched, Next, Ready, Settled, Taken, Worker};
