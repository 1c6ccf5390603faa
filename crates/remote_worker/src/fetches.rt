// What a node fetched and keeps in memory.
ghost use Rattle.std.specs.Prelude.{◌≡◌, ◌==◌, ◌&&◌, if◌then◌else◌, ℕ, Some, None, is_some, OnOk};
ghost use Rattle.remote_worker.specs.Loading.{CanLoad};
ghost use Rattle.remote_worker.specs.Spelled.{CanLoad-prop};

use crate::loading::Load;
use crate::worker::{Fetched, Worker};
use std::alloc::{AllocError, Global};
use std::collections::BTreeMap;

/// What was fetched for an event.
#[derive(Drop)]
pub struct Kept {
    /// The number of the event.
    pub number: u64,
    /// What comes with it.
    pub load: Option<Load>,
    pub ghost can: { CanLoad load } by { CanLoad-prop _ },
}

impl Kept {
    ghost use Rattle.remote_worker.specs.Kept.{IsKeptOf};

    /// What a worker fetched.
    pub fn of(fetched: Worker<Fetched>) -> Kept
        requires { CanLoad fetched.state.load }
        ensures { IsKeptOf fetched result }
    {
        let Worker { state, .. } = fetched;
        let Fetched { number, load, .. } = state;
        Kept { number, load }
    }
}

/// What a node fetched and keeps: of each origin what comes with one event.
#[derive(Drop)]
pub struct Fetches {
    kept: BTreeMap<u32, Kept>,
}

impl Fetches {
    ghost use Rattle.remote_worker.specs.Kept.{for_number, kept_at};

    /// Nothing was fetched.
    pub fn new(alloc: Global) -> Fetches
        ensures { (origin : ℕ) → kept_at origin result ≡ None }
    {
        Fetches {
            kept: BTreeMap::new(alloc),
        }
    }

    /// Takes what is kept of an origin away, if anything is.
    pub fn take(&mut self, origin: u32) -> Option<Kept>
        ensures value { result ≡ kept_at origin self.old }
        ensures rest { (other : ℕ) → kept_at other self.new
            ≡ (if origin == other then None else kept_at other self.old) }
    {
        self.kept.remove(&origin)
    }

    /// Takes what is kept of an origin away where it was fetched for the event of this number.
    pub fn take_for(&mut self, origin: u32, number: u64) -> Option<Kept>
        ensures value { result ≡ for_number number (kept_at origin self.old) }
        ensures rest { (other : ℕ) → kept_at other self.new
            ≡ (if is_some result && origin == other then None else kept_at other self.old) }
    {
        match self.kept.get(&origin) {
            None => return None,
            Some(kept) => {
                if kept.number != number {
                    return None;
                }
            }
        }
        self.kept.remove(&origin)
    }

    /// Keeps this of an origin, in the place of what was kept of it before.
    ///
    /// # Errors
    ///
    /// There is no memory.
    pub fn put(&mut self, origin: u32, kept: Kept) -> Result<(), AllocError>
        ensures { OnOk result ((other : ℕ) → kept_at other self.new
            ≡ (if origin == other then Some kept else kept_at other self.old)) }
    {
        self.kept.insert(origin, kept)?;
        Ok(())
    }
}
