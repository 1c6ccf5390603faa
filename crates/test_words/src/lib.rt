//! What tests say: words for what they found and wanted.
#![tactic(auto)]

mod expecting;

pub use expecting::{expect, keeping, require};
