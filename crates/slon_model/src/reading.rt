// What a text is read as.
use slonik_script::{Script, ScriptRefusal};

/// A script as it was read.
#[derive(Drop)]
pub enum Reading {
    /// The script.
    Read(Script),
    /// What is wrong with it.
    Wrong(ScriptRefusal),
}
