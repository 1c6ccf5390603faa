// The store of one database, and the shelf that gives such stores.
ghost use Rattle.std.specs.Prelude.{◌≡◌, true, false, is_some};
ghost use Rattle.slon_base.specs.Keeper.{Kept, Begins, Gets, GetsNext, Counts, Changes, Commits, RollsBack, put_at};
ghost use Rattle.slon_base.specs.Keeper.{del_at, one_put, none_put};
ghost use Rattle.std.specs.Option.{option_map};
ghost use Rattle.slon_base.specs.Shelf.{Shelved, Gives};

use crate::{Bytes, KeepFault, OutFault};

/// The store of one database: pairs of a key and a value in 256 spaces, changed in transactions.
/// No key is empty. What is pending is seen by reads.
pub trait Keeper: Drop {
    /// What is held and what is pending where that is told, and the counts.
    ghost kept: { Self → Kept };

    /// Begins a transaction.
    fn begin(&mut self) -> Result<(), KeepFault>
        requires { is_some (kept self.old).pending ≡ false }
        ensures { Begins (kept self.old) (kept self.new) result };

    /// The value at a key.
    fn get(&mut self, space: u8, key: &[u8]) -> Result<Option<Bytes>, KeepFault>
        ensures { Gets space key.now (kept self.old) (kept self.new) result };

    /// The pair with the least greater key, in the order of bytes.
    fn next_after(&mut self, space: u8, key: &[u8]) -> Result<Option<(Bytes, Bytes)>, KeepFault>
        ensures { GetsNext space key.now (kept self.old) (kept self.new) result };

    /// How many pairs the space has.
    fn count(&mut self, space: u8) -> Result<u64, KeepFault>
        ensures { Counts space (kept self.old) (kept self.new) result };

    /// Puts a value at a key, in the place of the one that is there.
    fn put(&mut self, space: u8, key: &[u8], value: &[u8]) -> Result<(), KeepFault>
        requires { is_some (kept self.old).pending ≡ true }
        ensures { Changes (put_at space key.now value.now) one_put (kept self.old) (kept self.new) result };

    /// Takes the pair of a key away, if it is there.
    fn del(&mut self, space: u8, key: &[u8]) -> Result<(), KeepFault>
        requires { is_some (kept self.old).pending ≡ true }
        ensures { Changes (del_at space key.now) none_put (kept self.old) (kept self.new) result };

    /// Makes what is pending held. Where it fails, it is held or not.
    fn commit(&mut self) -> Result<(), KeepFault>
        requires { is_some (kept self.old).pending ≡ true }
        ensures { Commits (kept self.old) (kept self.new) result };

    /// Forgets what is pending. Nothing is pending then, also where it fails.
    fn rollback(&mut self) -> Result<(), KeepFault>
        ensures { RollsBack (kept self.old) (kept self.new) result };

    /// How often a commit failed, up to the last value of a `u64`.
    fn doubts(&self) -> u64
        ensures { result ≡ (kept self.now).doubts };

    /// How often a call failed, up to the last value of a `u64`.
    fn faults(&self) -> u64
        ensures { result ≡ (kept self.now).faults };
}

/// Gives the stores of a session's databases, one for each place.
pub trait Shelf: Drop {
    /// The stores that it gives.
    type Store: Keeper;

    /// What is told of the stores to come, for which stores it was asked, and how often a call failed.
    ghost shelved: { Self → Shelved };

    /// The store of a place, in the folder `store` where there is one. Places are 0, 1, 2, .. in the order of the
    /// calls.
    fn give(&mut self, store: Option<&[u8]>, place: u32) -> Result<Self::Store, OutFault>
        ensures { Gives (option_map (λ folder. folder.now) store.entry) place Self.Store.kept
            (shelved self.old) (shelved self.new) result };

    /// How often a call failed, up to the last value of a `u64`.
    fn faults(&self) -> u64
        ensures { result ≡ (shelved self.now).faults };
}
