// The pairs of one space in a transaction: what is held, and what is pending.
ghost use Rattle.std.specs.Prelude.{◌≡◌, OnOk, OnErr, IfOk, Some, None, [], length, if◌then◌else◌};
ghost use Rattle.std.specs.Option.{option_map};
ghost use Rattle.std.specs.FinMap.{empty, get, insert, remove, len, entries};
ghost use Rattle.slon_base.specs.Keeper.{after, first};
ghost use Rattle.node_keeper.specs.Slots.{pairs};
ghost use Rattle.node_keeper.specs.Journal.{undone, HaveSlots};

use crate::ahead::Ahead;
use crate::slots::Slots;
use slon_base::Bytes;
use std::alloc::{AllocError, Global};
use std::marker::Model;

/// A key that the open transaction changed, the value that it had before, and whether it has none since.
#[derive(Drop)]
pub struct Change {
    key: Bytes,
    old: Option<Bytes>,
    deletes: bool,
}

/// One space: the pairs that are pending, the changes since what is held, and pending pairs that were read ahead.
#[derive(Drop)]
pub struct Journaled {
    slots: Slots,
    changes: Vec<Change>,
    ahead: Ahead,
}

impl Model for Journaled {
    ghost use Rattle.std.specs.Prelude.{ℕ, List, length};
    ghost use Rattle.std.specs.Coded.{coded×, coded_list, coded_ℕ};
    ghost use Rattle.std.specs.FinMap.{code};
    ghost use Rattle.slon_base.specs.Keeper.{Space};

    ghost Value = { Space × Space };

    ghost coded = { coded× (code (coded_list coded_ℕ) (coded_list coded_ℕ))
        (code (coded_list coded_ℕ) (coded_list coded_ℕ)) };

    ghost use Rattle.node_keeper.specs.Slots.{pairs};
    ghost use Rattle.node_keeper.specs.Journal.{undone, HaveSlots};
    ghost use Rattle.node_keeper.specs.Ahead.{IsAhead};

    ghost view = { λ j. (undone j.changes.items (pairs j.slots.map), pairs j.slots.map) };

    ghost invariant = { λ j. HaveSlots j.slots.map j.changes.items (length j.changes.items)
        × IsAhead j.ahead.key j.ahead.pairs.items (pairs j.slots.map) };
}

impl Journaled {
    /// A space with no pairs.
    pub(crate) fn new(alloc: Global) -> Journaled
        ensures { result ≡ (empty, empty) }
    {
        Journaled {
            slots: Slots::new(alloc),
            changes: Vec::new(alloc),
            ahead: Ahead::new(alloc),
        }
    }

    /// The pending value at a key.
    pub(crate) fn get(&self, key: &Bytes) -> Option<&Bytes>
        ensures { option_map (λ v. v.now) result ≡ get self.now.1 key.now }
    {
        self.slots.get(key)
    }

    /// How many pairs are pending.
    pub(crate) fn count(&self) -> u64
        ensures { result ≡ len self.now.1 }
    {
        self.slots.count()
    }

    /// Copies the first pending pair with a greater key.
    pub(crate) fn next_after(
        &mut self,
        alloc: Global,
        key: &[u8],
    ) -> Result<Option<(Bytes, Bytes)>, AllocError>
        ensures next { IfOk result (λ found. found ≡ first (after key.now (entries self.old.1))) }
        ensures same { self.new ≡ self.old }
    {
        self.ahead.reach(alloc, &self.slots, key)?;
        self.ahead.take(alloc)
    }

    /// Puts a value at a key. Without memory nothing is changed.
    pub(crate) fn put(&mut self, alloc: Global, key: &[u8], value: &[u8]) -> Result<(), AllocError>
        ensures ok { OnOk result (self.new ≡ (self.old.0, insert self.old.1 key.now value.now)) }
        ensures err { OnErr result (self.new ≡ self.old) }
    {
        self.ahead.forget();
        let value = Bytes::from_slice(alloc, value)?;
        let key = Bytes::from_slice(alloc, key)?;
        let slot = key.copy(alloc)?;
        self.changes.reserve(1)?;
        let old = self.slots.put(slot, value)?;
        let change = Change {
            key,
            old,
            deletes: false,
        };
        self.changes.push(change).unwrap();
        Ok(())
    }

    /// Takes the pair of a key away, if it is there. Without memory nothing is changed.
    pub(crate) fn del(&mut self, alloc: Global, key: &[u8]) -> Result<(), AllocError>
        ensures ok { OnOk result (self.new ≡ (self.old.0, remove self.old.1 key.now)) }
        ensures err { OnErr result (self.new ≡ self.old) }
    {
        self.ahead.forget();
        let key = Bytes::from_slice(alloc, key)?;
        if self.slots.get(&key).is_none() {
            return Ok(());
        }
        self.changes.reserve(1)?;
        let old = self.slots.set(&key, None);
        let change = Change {
            key,
            old,
            deletes: true,
        };
        self.changes.push(change).unwrap();
        Ok(())
    }

    /// Ends the transaction: what is pending is held, or else what is held is pending again.
    pub(crate) fn end(&mut self, commits: bool)
        ensures { self.new ≡ (if commits then (self.old.1, self.old.1) else (self.old.0, self.old.0)) }
    {
        self.ahead.forget();
        if !commits {
            undo(&mut self.slots, &mut self.changes);
        }
        settle(&mut self.slots, &mut self.changes, commits);
    }
}

// Takes away the slots that the changes left with no value, and forgets the changes. After a commit only those that
// take a pair away can have left one.
fn settle(slots: &mut Slots, changes: &mut Vec<Change>, commits: bool)
    ensures pairs { pairs slots.new.map ≡ pairs slots.old.map }
    ensures none { changes.new.items ≡ [] }
{
    for change in changes.as_slice() {
        if change.deletes || !commits {
            slots.sweep(&change.key);
        }
    }
    changes.clear();
}

// Undoes the changes, the newest first. Each slot stays, since an older change may need it.
fn undo(slots: &mut Slots, changes: &mut Vec<Change>)
    requires { HaveSlots slots.old.map changes.old.items (length changes.old.items) }
    ensures { pairs slots.new.map ≡ undone changes.old.items (pairs slots.old.map) }
{
    for index in (0..changes.len()).rev() {
        let change = &mut changes[index];
        let old = change.old.take();
        drop(slots.set(&change.key, old));
    }
}
