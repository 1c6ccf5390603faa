//! The tests of databases, of the nodes that they are, and of the rows in which they stand, in a file for each subject.
#![tactic(auto)]

#[cfg(test)]
mod acting;
#[cfg(test)]
mod applied;
#[cfg(test)]
mod codec;
#[cfg(test)]
mod forwarding;
#[cfg(test)]
mod handing;
#[cfg(test)]
mod joining;
#[cfg(test)]
mod keeping;
#[cfg(test)]
mod listening;
#[cfg(test)]
mod logged;
#[cfg(test)]
mod nodes;
#[cfg(test)]
mod reading_logs;
#[cfg(test)]
mod rows_of_nodes;
#[cfg(test)]
mod snapshots;
#[cfg(test)]
mod stored_nodes;
#[cfg(test)]
mod stored_rows;
#[cfg(test)]
mod subscribed;
#[cfg(test)]
mod taking;
#[cfg(test)]
mod viewed;
