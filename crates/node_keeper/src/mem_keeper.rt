// A store in memory, with calls that fail as it was told.
ghost use Rattle.std.specs.Prelude.{◌≡◌, ◌+◌, ◌≤◌, Some, None, Ok, Err, vec_len, map, slice_index_or, true, false};
ghost use Rattle.std.specs.Prelude.{OnOk, OnErr, IfErr, IfOk, is_err, is_some, length, not, ◌&&◌, ◌||◌, min, ◌-◌, ◌^◌};
ghost use Rattle.std.specs.Prelude.{if◌then◌else◌};
ghost use Rattle.std.specs.FinMap.{empty, entries};
ghost use Rattle.std.specs.Option.{option_map};
ghost use Rattle.slon_base.specs.Keeper.{Begins, Gets, GetsNext, Counts, Changes, Commits, RollsBack, put_at, del_at};
ghost use Rattle.slon_base.specs.Keeper.{after, first, one_put, none_put};
ghost use Rattle.node_keeper.specs.Plan.{Counted, CountsCall, IsFrom, capped, left};
ghost use Rattle.node_keeper.specs.MemKept.{IsSettled, IsTracked, Touches, torn, is_open, ended, ended_in};

use crate::fault_plan::FaultPlan;
use crate::journaled::Journaled;
use slon_base::{Bytes, KeepFault, Keeper};
use std::alloc::{AllocError, Global};

/// How many spaces a store has.
const SPACES: usize = 256;

/// Where the transaction of a store stands.
#[derive(Clone, Copy, Debug, PartialEq, Eq)]
pub enum Phase {
    /// There is none.
    Idle,
    /// One is open.
    Open,
    /// One is open, and a call in it failed.
    Torn,
}

/// A store in memory.
///
/// A call takes time in proportion to the logarithm of how many pairs its space has, and the end of a transaction in
/// proportion to the changes in it. Only calls that copy a key or a value need memory,
/// so a commit and a rollback need none.
///
/// Where a call in a transaction failed, the transaction can only be rolled back: a commit of it holds nothing new and
/// answers `NoMemory`, if it does not have to fail itself.
#[derive(Drop)]
pub struct MemKeeper {
    alloc: Global,
    spaces: Vec<Journaled>,
    plan: FaultPlan,
    keep: bool,
    phase: Phase,
    doubts: u64,
    // How many pairs were put.
    puts: u64,
    // The spaces that the transaction changed.
    touched: Vec<u8>,
    ghost full: { vec_len spaces ≡ 256 },
    ghost tracked: { IsTracked touched.items spaces.items },
    ghost settled: { IsSettled phase spaces.items },
}

impl MemKeeper {
    ghost use Rattle.node_keeper.specs.Told.{kept_of, fresh};

    /// A store with no pairs and no transaction. The calls with the numbers `fails` fail, where all calls that can
    /// fail are counted from 1. A commit that fails holds what was pending if `keep` is set, and else forgets it.
    pub fn new(alloc: Global, fails: Vec<u64>, keep: bool) -> Result<MemKeeper, AllocError>
        ensures told { IfOk result (λ k. kept_of k ≡ fresh (left fails.items 0)) }
        ensures plan { IfOk result (λ k. IsFrom fails.items k.plan) }
        ensures keep { IfOk result (λ k. k.keep ≡ keep) }
    {
        let mut spaces = Vec::with_capacity(alloc, SPACES)?;
        for _space in 0..SPACES {
            spaces.push(Journaled::new(alloc))?;
        }
        Ok(MemKeeper {
            alloc,
            spaces,
            plan: FaultPlan::new(fails),
            keep,
            phase: Phase::Idle,
            doubts: 0,
            puts: 0,
            touched: Vec::new(alloc),
        })
    }

    /// How many pairs were put, up to the last value of a `u64`.
    pub fn puts(&self) -> u64
        ensures { Some result ≡ (kept_of self.now).puts }
    {
        self.puts
    }

    // Counts a call, and says whether it has to fail. If so, what is pending is not told from then on.
    fn strikes(&mut self) -> bool
        ensures counts { CountsCall self.old.plan self.new.plan result }
        ensures spaces { self.new.spaces.items ≡ self.old.spaces.items }
        ensures doubts { self.new.doubts ≡ self.old.doubts }
        ensures puts { self.new.puts ≡ self.old.puts }
        ensures keep { self.new.keep ≡ self.old.keep }
        ensures phase { self.new.phase ≡ (if result then torn self.old.phase else self.old.phase) }
    {
        let strikes = self.plan.strikes();
        if strikes && self.phase == Phase::Open {
            self.phase = Phase::Torn;
        }
        strikes
    }

    fn space(&self, space: u8) -> &Journaled
        ensures { result.now ≡ slice_index_or self.now.spaces.items space (empty, empty) }
    {
        &self.spaces[space as usize]
    }

    // Whether a commit holds what is pending.
    fn commits(&self, strikes: bool) -> bool
        ensures { result ≡ (is_open self.now.phase && (not strikes || self.now.keep)) }
    {
        self.phase == Phase::Open && (!strikes || self.keep)
    }

    // Ends the transaction: what is pending is held, or else what is held is pending again.
    fn end(&mut self, commits: bool)
        ensures spaces { self.new.spaces.items ≡ map (ended commits) self.old.spaces.items }
        ensures phase { self.new.phase ≡ Phase.Idle }
        ensures plan { self.new.plan ≡ self.old.plan }
        ensures keep { self.new.keep ≡ self.old.keep }
        ensures doubts { self.new.doubts ≡ self.old.doubts }
        ensures puts { self.new.puts ≡ self.old.puts }
    {
        end_touched(self.spaces.as_mut_slice(), self.touched.as_slice(), commits);
        self.touched.clear();
        self.phase = Phase::Idle;
    }
}

impl Keeper for MemKeeper {
    ghost use Rattle.node_keeper.specs.Told.{kept_of, fails_next, would_hold};

    ghost kept = { kept_of };

    fn begin(&mut self) -> Result<(), KeepFault>
        requires { is_some (kept_of self.old).pending ≡ false }
        ensures begins { Begins (kept_of self.old) (kept_of self.new) result }
        ensures fails { is_err result ≡ fails_next self.old }
        ensures plan { Counted self.old.plan self.new.plan }
        ensures keep { self.new.keep ≡ self.old.keep }
    {
        if self.strikes() {
            return Err(KeepFault::Failed);
        }
        self.phase = Phase::Open;
        Ok(())
    }

    fn get(&mut self, space: u8, key: &[u8]) -> Result<Option<Bytes>, KeepFault>
        ensures gets { Gets space key.now (kept_of self.old) (kept_of self.new) result }
        ensures fails { fails_next self.old ≡ true → result ≡ Err KeepFault.Failed }
        ensures plan { Counted self.old.plan self.new.plan }
        ensures keep { self.new.keep ≡ self.old.keep }
    {
        if self.strikes() {
            return Err(KeepFault::Failed);
        }
        let key = Bytes::from_slice(self.alloc, key)?;
        let found = copied(self.alloc, self.space(space).get(&key))?;
        Ok(found)
    }

    fn next_after(&mut self, space: u8, key: &[u8]) -> Result<Option<(Bytes, Bytes)>, KeepFault>
        ensures gets { GetsNext space key.now (kept_of self.old) (kept_of self.new) result }
        ensures fails { fails_next self.old ≡ true → result ≡ Err KeepFault.Failed }
        ensures plan { Counted self.old.plan self.new.plan }
        ensures keep { self.new.keep ≡ self.old.keep }
    {
        if self.strikes() {
            return Err(KeepFault::Failed);
        }
        Ok(next_in(self.spaces.as_mut_slice(), self.alloc, space, key)?)
    }

    fn count(&mut self, space: u8) -> Result<u64, KeepFault>
        ensures counts { Counts space (kept_of self.old) (kept_of self.new) result }
        ensures fails { is_err result ≡ fails_next self.old }
        ensures plan { Counted self.old.plan self.new.plan }
        ensures keep { self.new.keep ≡ self.old.keep }
    {
        if self.strikes() {
            return Err(KeepFault::Failed);
        }
        Ok(self.space(space).count())
    }

    fn put(&mut self, space: u8, key: &[u8], value: &[u8]) -> Result<(), KeepFault>
        requires { is_some (kept_of self.old).pending ≡ true }
        ensures changes { Changes (put_at space key.now value.now) one_put (kept_of self.old)
            (kept_of self.new) result }
        ensures fails { fails_next self.old ≡ true → result ≡ Err KeepFault.Failed }
        ensures plan { Counted self.old.plan self.new.plan }
        ensures keep { self.new.keep ≡ self.old.keep }
    {
        if self.strikes() {
            return Err(KeepFault::Failed);
        }
        touch(&mut self.touched, space)?;
        let put = self.spaces[space as usize].put(self.alloc, key, value);
        if put.is_ok() {
            self.puts = self.puts.saturating_add(1);
        }
        Ok(put?)
    }

    fn del(&mut self, space: u8, key: &[u8]) -> Result<(), KeepFault>
        requires { is_some (kept_of self.old).pending ≡ true }
        ensures changes { Changes (del_at space key.now) none_put (kept_of self.old) (kept_of self.new) result }
        ensures fails { fails_next self.old ≡ true → result ≡ Err KeepFault.Failed }
        ensures plan { Counted self.old.plan self.new.plan }
        ensures keep { self.new.keep ≡ self.old.keep }
    {
        if self.strikes() {
            return Err(KeepFault::Failed);
        }
        touch(&mut self.touched, space)?;
        self.spaces[space as usize].del(self.alloc, key)?;
        Ok(())
    }

    fn commit(&mut self) -> Result<(), KeepFault>
        requires { is_some (kept_of self.old).pending ≡ true }
        ensures commits { Commits (kept_of self.old) (kept_of self.new) result }
        ensures fails { is_err result ≡ (fails_next self.old || not (is_open self.old.phase)) }
        ensures plan { Counted self.old.plan self.new.plan }
        ensures keep { self.new.keep ≡ self.old.keep }
        ensures doubts { self.new.doubts ≡
            (if fails_next self.old then capped (self.old.doubts + 1) else self.old.doubts) }
        ensures ends { self.new.spaces.items ≡ map (ended (would_hold self.old)) self.old.spaces.items }
    {
        let strikes = self.plan.strikes();
        let is_whole = self.phase == Phase::Open;
        let commits = self.commits(strikes);
        self.end(commits);
        if strikes {
            self.doubts = self.doubts.saturating_add(1);
            return Err(KeepFault::Failed);
        }
        if !is_whole {
            return Err(KeepFault::NoMemory);
        }
        Ok(())
    }

    fn rollback(&mut self) -> Result<(), KeepFault>
        ensures rolls_back { RollsBack (kept_of self.old) (kept_of self.new) result }
        ensures fails { is_err result ≡ fails_next self.old }
        ensures plan { Counted self.old.plan self.new.plan }
        ensures keep { self.new.keep ≡ self.old.keep }
    {
        let strikes = self.plan.strikes();
        self.end(false);
        if strikes {
            return Err(KeepFault::Failed);
        }
        Ok(())
    }

    fn doubts(&self) -> u64 {
        self.doubts
    }

    fn faults(&self) -> u64 {
        self.plan.faults
    }
}

// Notes that the transaction changes this space, unless it was the last one noted.
fn touch(touched: &mut Vec<u8>, space: u8) -> Result<(), AllocError>
    ensures ok { OnOk result (Touches space touched.old.items touched.new.items) }
    ensures err { OnErr result (touched.new.items ≡ touched.old.items) }
{
    if let Some(last) = touched.last()
        && *last == space
    {
        return Ok(());
    }
    touched.push(space)?;
    Ok(())
}

// Ends the transaction in each of these spaces.
fn end_touched(spaces: &mut [Journaled], touched: &[u8], commits: bool)
    requires { length spaces.old ≡ 256 }
    ensures len { length spaces.new ≡ 256 }
    ensures ended { spaces.new ≡ ended_in commits touched.now spaces.old }
{
    for space in touched {
        spaces[*space as usize].end(commits);
    }
}

// Copies a value, if there is one.
fn copied(alloc: Global, value: Option<&Bytes>) -> Result<Option<Bytes>, AllocError>
    ensures { IfOk result (λ found. option_map (λ v. v.now) value.entry ≡ found) }
{
    match value {
        Some(value) => Ok(Some(value.copy(alloc)?)),
        None => Ok(None),
    }
}

// Copies the first pending pair of a space with a greater key.
fn next_in(
    spaces: &mut [Journaled],
    alloc: Global,
    space: u8,
    key: &[u8],
) -> Result<Option<(Bytes, Bytes)>, AllocError>
    requires { length spaces.old ≡ 256 }
    ensures next { IfOk result (λ found. found ≡ first (after key.now (entries (slice_index_or spaces.old space
        (empty, empty)).1))) }
    ensures same { spaces.new ≡ spaces.old }
{
    spaces[space as usize].next_after(alloc, key)
}
