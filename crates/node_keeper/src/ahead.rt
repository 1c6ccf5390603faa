// Pairs of a space that were read ahead of the calls that ask for them.
ghost use Rattle.std.specs.Prelude.{◌≡◌, [], OnOk, IfOk};
ghost use Rattle.std.specs.FinMap.{entries};
ghost use Rattle.slon_base.specs.Keeper.{Space, after, first};
ghost use Rattle.node_keeper.specs.Slots.{pairs};
ghost use Rattle.node_keeper.specs.Ahead.{IsAhead};

use crate::slots::Slots;
use slon_base::{Bytes, are_same};
use std::alloc::{AllocError, Global};
use std::collections::VecDeque;

/// How many pairs are read where a scan begins. Each time that it goes on, twice as many are read.
const FIRST_LEN: usize = 8;

/// The most pairs that are read at once.
const MOST_LEN: usize = 256;

/// The first pairs with greater keys than one, as far as they were read.
#[derive(Drop)]
pub(crate) struct Ahead {
    pub(crate) key: Bytes,
    pub(crate) pairs: VecDeque<(Bytes, Bytes)>,
    // How many were to be read last, or 0 where they were forgotten since.
    len: usize,
}

impl Ahead {
    /// No pairs.
    pub(crate) fn new(alloc: Global) -> Ahead
        ensures { result.pairs.items ≡ [] }
    {
        Ahead {
            key: Bytes::from_vec(Vec::new(alloc)),
            pairs: VecDeque::new(alloc),
            len: 0,
        }
    }

    /// Forgets the pairs.
    pub(crate) fn forget(&mut self)
        ensures { self.new.pairs.items ≡ [] }
    {
        self.pairs.clear();
        self.len = 0;
    }

    /// Reads the pairs behind this key, where they were not read yet.
    pub(crate) fn reach(
        &mut self,
        alloc: Global,
        slots: &Slots,
        key: &[u8],
    ) -> Result<(), AllocError>
        requires { IsAhead self.old.key self.old.pairs.items (pairs slots.now.map) }
        ensures ahead { IsAhead self.new.key self.new.pairs.items (pairs slots.now.map) }
        ensures key { OnOk result (self.new.key ≡ key.now) }
        ensures none { OnOk result (self.new.pairs.items ≡ [] → after key.now (entries (pairs slots.now.map)) ≡ []) }
    {
        let goes_on = are_same(self.key.as_slice(), key);
        if goes_on && !self.pairs.is_empty() {
            return Ok(());
        }
        self.len = next_len(self.len, goes_on);
        let pairs = slots.pairs_after(alloc, key, self.len)?;
        self.key = Bytes::from_slice(alloc, key)?;
        self.pairs = pairs;
        Ok(())
    }

    /// Takes the first of the pairs.
    pub(crate) fn take(&mut self, alloc: Global) -> Result<Option<(Bytes, Bytes)>, AllocError>
        ensures ahead { (space : Space) → IsAhead self.old.key self.old.pairs.items space →
            IsAhead self.new.key self.new.pairs.items space }
        ensures first { IfOk result (λ found. found ≡ first self.old.pairs.items) }
    {
        match self.pairs.front() {
            Some((key, _)) => {
                let key = key.copy(alloc)?;
                self.key = key;
                Ok(self.pairs.pop_front())
            }
            None => Ok(None),
        }
    }
}

/// How many pairs to read next, where `len` were to be read last.
fn next_len(len: usize, goes_on: bool) -> usize {
    if goes_on {
        len.min(MOST_LEN / 2).max(FIRST_LEN / 2) * 2
    } else {
        FIRST_LEN
    }
}
