//! The slon of a node as it polls servers: what it asks for, what it is handed, and what it keeps of that. Each state
//! of a poll is a type of its own.
#![tactic(auto)]

mod listener;
mod reading;

pub use listener::{Asked, Linked, Listener, Off, Polled};
pub use reading::{Handed, Want};
