//! The tests of the whole program and of its outside, in a file for each subject.
#![tactic(auto)]

#[cfg(test)]
mod cascades;
#[cfg(test)]
mod copies;
#[cfg(test)]
mod crashes;
#[cfg(test)]
mod dropping;
#[cfg(test)]
mod fetches;
#[cfg(test)]
mod known;
#[cfg(test)]
mod leaving;
#[cfg(test)]
mod outside;
#[cfg(test)]
mod polls;
#[cfg(test)]
mod running;
#[cfg(test)]
mod scripts;
#[cfg(test)]
mod sessions;
#[cfg(test)]
mod stores;
#[cfg(test)]
mod subscriptions;
#[cfg(test)]
mod sweeps;
#[cfg(test)]
mod syncs;
#[cfg(test)]
mod system;
#[cfg(test)]
mod together;
#[cfg(test)]
mod unsubscribing;
#[cfg(test)]
mod wanted;
#[cfg(test)]
mod works;
