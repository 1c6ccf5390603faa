// A store that passes calls on, and fails them from a call on, as it is told.
ghost use Rattle.std.specs.Prelude.{◌≡◌, None, is_some, true, false};
ghost use Rattle.slon_base.specs.Keeper.{Begins, Gets, GetsNext, Counts, Changes, Commits, RollsBack, put_at, del_at};
ghost use Rattle.slon_base.specs.Keeper.{one_put, none_put};
ghost use Rattle.slon_base.specs.Charges.{burnt, burnt_by_commit, is_blown, strikes, strikes_commit, GoesOn, KeepsTold};
ghost use Rattle.node_keeper.specs.Fused.{fuse_kept, told_so, IsCharged, Burns, Fuses, FusesCommit, FusesRollback};
ghost use Rattle.node_keeper.specs.Fused.{masked};

use slon_base::{Bytes, Charge, KeepFault, Keeper};

/// A store that passes calls on to another one, and can be told to fail them from a call on.
///
/// The calls that can fail are `begin`, `get`, `next_after`, `count`, `put`, `del`, `commit` and `rollback`. From the
/// first one on that it fails it is blown: it fails every call, and counts each as a fault, until it is told otherwise.
/// What it counted stays counted, whatever it is told.
///
/// A commit that it fails is durable all the same if it was told to keep it: it answers `Failed` though the wrapped
/// store made the commit, or what the wrapped store answered where that failed; a want of memory is no fault. Else the
/// commit is not made. A rollback always reaches the wrapped store, so that nothing is pending afterwards. No other
/// call that it fails does.
#[derive(Drop)]
pub struct Fuse<K: Keeper> {
    /// The wrapped store.
    pub keeper: K,
    charge: Charge,
    own_faults: u64,
    own_doubts: u64,
}

impl<K: Keeper> Fuse<K> {
    /// Passes on to this store, and fails no call.
    pub fn new(keeper: K) -> Fuse<K>
        ensures kept { fuse_kept K.kept result ≡ told_so Charge.Off (K.kept keeper).can_fail (K.kept keeper) }
        ensures keeper { result.keeper ≡ keeper }
        ensures charge { result.charge ≡ Charge.Off }
        ensures faults { result.own_faults ≡ 0 }
        ensures doubts { result.own_doubts ≡ 0 }
    {
        // Both are values of a `u64`, so a sum with nothing is what they are.
        let _counts = (keeper.faults(), keeper.doubts());
        Fuse {
            keeper,
            charge: Charge::Off,
            own_faults: 0,
            own_doubts: 0,
        }
    }

    /// Lets `calls` of the calls through that can fail, and fails the next one and those after it. A commit that fails
    /// is durable if `keep` is set, and else is not made.
    pub fn arm(&mut self, calls: u64, keep: bool)
        ensures charged { IsCharged (Charge.After calls keep) self.old self.new }
        ensures kept { fuse_kept K.kept self.new ≡ told_so (Charge.After calls keep) None (fuse_kept K.kept self.old) }
    {
        self.charge = Charge::After { calls, keep };
    }

    /// Fails the next commit and the calls after it. A commit that fails is durable if `keep` is set, and else is not
    /// made.
    pub fn arm_commit(&mut self, keep: bool)
        ensures charged { IsCharged (Charge.AtCommit keep) self.old self.new }
        ensures kept { fuse_kept K.kept self.new ≡ told_so (Charge.AtCommit keep) None (fuse_kept K.kept self.old) }
    {
        self.charge = Charge::AtCommit { keep };
    }

    /// Fails no call from now on.
    pub fn disarm(&mut self)
        ensures charged { IsCharged Charge.Off self.old self.new }
        ensures kept { fuse_kept K.kept self.new ≡ told_so Charge.Off (K.kept self.old.keeper).can_fail
            (fuse_kept K.kept self.old) }
    {
        self.charge = Charge::Off;
    }

    // Counts a call that makes this of the charge, and says whether the fuse fails it.
    fn burn(&mut self, charge: Charge) -> bool
        ensures fails { result ≡ is_blown charge }
        ensures burns { Burns charge self.old self.new }
        ensures doubts { self.new.own_doubts ≡ self.old.own_doubts }
        ensures keeper { self.new.keeper ≡ self.old.keeper }
    {
        self.charge = charge;
        if charge.is_blown() {
            self.own_faults = self.own_faults.saturating_add(1);
        }
        charge.is_blown()
    }

    // Counts a call that is no commit, and says whether the fuse fails it.
    fn strikes(&mut self) -> bool
        ensures fails { result ≡ strikes self.old.charge }
        ensures burns { Burns (burnt self.old.charge) self.old self.new }
        ensures goes_on { GoesOn self.old.charge self.new.charge }
        ensures told { KeepsTold self.old.charge self.new.charge }
        ensures doubts { self.new.own_doubts ≡ self.old.own_doubts }
        ensures keeper { self.new.keeper ≡ self.old.keeper }
    {
        self.burn(self.charge.burnt())
    }

    // Lets a commit burn the charge, and says whether the fuse fails it.
    fn strikes_commit(&mut self) -> bool
        ensures fails { result ≡ strikes_commit self.old.charge }
        ensures burns { self.new.charge ≡ burnt_by_commit self.old.charge }
        ensures faults { self.new.own_faults ≡ self.old.own_faults }
        ensures goes_on { GoesOn self.old.charge self.new.charge }
        ensures told { KeepsTold self.old.charge self.new.charge }
        ensures doubts { self.new.own_doubts ≡ self.old.own_doubts }
        ensures keeper { self.new.keeper ≡ self.old.keeper }
    {
        self.charge = self.charge.burnt_by_commit();
        self.charge.is_blown()
    }
}

// What a fuse answers for a commit that it fails and that the wrapped store answered.
fn masked(answer: Result<(), KeepFault>) -> KeepFault
    ensures { result ≡ masked answer }
{
    match answer {
        Ok(()) => KeepFault::Failed,
        Err(fault) => fault,
    }
}

impl<K: Keeper> Keeper for Fuse<K> {
    ghost kept = { fuse_kept K.kept };

    fn begin(&mut self) -> Result<(), KeepFault>
        requires { is_some (K.kept self.old.keeper).pending ≡ false }
        ensures begins { Begins (fuse_kept K.kept self.old) (fuse_kept K.kept self.new) result }
        ensures fuses { Fuses Begins K.kept self.old self.new result }
    {
        if self.strikes() {
            return Err(KeepFault::Failed);
        }
        self.keeper.begin()
    }

    fn get(&mut self, space: u8, key: &[u8]) -> Result<Option<Bytes>, KeepFault>
        ensures gets { Gets space key.now (fuse_kept K.kept self.old) (fuse_kept K.kept self.new) result }
        ensures fuses { Fuses (Gets space key.now) K.kept self.old self.new result }
    {
        if self.strikes() {
            return Err(KeepFault::Failed);
        }
        self.keeper.get(space, key)
    }

    fn next_after(&mut self, space: u8, key: &[u8]) -> Result<Option<(Bytes, Bytes)>, KeepFault>
        ensures gets { GetsNext space key.now (fuse_kept K.kept self.old) (fuse_kept K.kept self.new) result }
        ensures fuses { Fuses (GetsNext space key.now) K.kept self.old self.new result }
    {
        if self.strikes() {
            return Err(KeepFault::Failed);
        }
        self.keeper.next_after(space, key)
    }

    fn count(&mut self, space: u8) -> Result<u64, KeepFault>
        ensures counts { Counts space (fuse_kept K.kept self.old) (fuse_kept K.kept self.new) result }
        ensures fuses { Fuses (Counts space) K.kept self.old self.new result }
    {
        if self.strikes() {
            return Err(KeepFault::Failed);
        }
        self.keeper.count(space)
    }

    fn put(&mut self, space: u8, key: &[u8], value: &[u8]) -> Result<(), KeepFault>
        requires { is_some (K.kept self.old.keeper).pending ≡ true }
        ensures changes { Changes (put_at space key.now value.now) one_put (fuse_kept K.kept self.old)
            (fuse_kept K.kept self.new) result }
        ensures fuses { Fuses (Changes (put_at space key.now value.now) one_put) K.kept self.old self.new result }
    {
        if self.strikes() {
            return Err(KeepFault::Failed);
        }
        self.keeper.put(space, key, value)
    }

    fn del(&mut self, space: u8, key: &[u8]) -> Result<(), KeepFault>
        requires { is_some (K.kept self.old.keeper).pending ≡ true }
        ensures changes { Changes (del_at space key.now) none_put (fuse_kept K.kept self.old)
            (fuse_kept K.kept self.new) result }
        ensures fuses { Fuses (Changes (del_at space key.now) none_put) K.kept self.old self.new result }
    {
        if self.strikes() {
            return Err(KeepFault::Failed);
        }
        self.keeper.del(space, key)
    }

    fn commit(&mut self) -> Result<(), KeepFault>
        requires { is_some (K.kept self.old.keeper).pending ≡ true }
        ensures commits { Commits (fuse_kept K.kept self.old) (fuse_kept K.kept self.new) result }
        ensures fuses { FusesCommit K.kept self.old self.new result }
    {
        if !self.strikes_commit() {
            return self.keeper.commit();
        }
        let fault = match self.charge {
            Charge::Blown { keep: true } => masked(self.keeper.commit()),
            _ => KeepFault::Failed,
        };
        if fault == KeepFault::Failed {
            self.own_faults = self.own_faults.saturating_add(1);
            self.own_doubts = self.own_doubts.saturating_add(1);
        }
        Err(fault)
    }

    fn rollback(&mut self) -> Result<(), KeepFault>
        ensures rolls_back { RollsBack (fuse_kept K.kept self.old) (fuse_kept K.kept self.new) result }
        ensures fuses { FusesRollback K.kept self.old self.new result }
    {
        let fails = self.strikes();
        let answer = self.keeper.rollback();
        if fails {
            return Err(KeepFault::Failed);
        }
        answer
    }

    fn doubts(&self) -> u64 {
        self.keeper.doubts().saturating_add(self.own_doubts)
    }

    fn faults(&self) -> u64 {
        self.keeper.faults().saturating_add(self.own_faults)
    }
}
