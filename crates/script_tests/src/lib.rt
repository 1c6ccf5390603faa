//! The tests of lines and replies, and of the reader of scripts, in a file for each subject.
#![tactic(auto)]

#[cfg(test)]
mod commands;
#[cfg(test)]
mod expansion;
#[cfg(test)]
mod lines;
#[cfg(test)]
mod printed;
#[cfg(test)]
mod scripts;
#[cfg(test)]
mod served;
#[cfg(test)]
mod sessions;
#[cfg(test)]
mod telling;
#[cfg(test)]
mod tokens;
