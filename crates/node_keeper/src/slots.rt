// The slots of one space: what a transaction takes away keeps its slot until the transaction ends, so that it can be
// put back without memory.
ghost use Rattle.std.specs.Prelude.{◌≡◌, [], true, is_some, ℕ, List, Some, None, IfOk, OnOk, OnErr};
ghost use Rattle.std.specs.Option.{option_map};
ghost use Rattle.std.specs.FinMap.{empty, get, len, entries, insert};
ghost use Rattle.std.proofs.Props.{props};
ghost use Rattle.slon_base.specs.Keeper.{after};
ghost use Rattle.node_keeper.specs.Ahead.{IsAhead};
ghost use Rattle.node_keeper.specs.Slots.{IsInOrder, HasSlot, pairs, slot_at, with_at};

use slon_base::Bytes;
use std::alloc::{AllocError, Global};
use std::collections::{BTreeMap, VecDeque};
use std::mem;
use std::ops::Bound;

/// Keys in the order of their bytes, each with a value, or with none where that was taken away.
#[derive(Drop)]
pub struct Slots {
    map: BTreeMap<Bytes, Option<Bytes>>,
    live: u64,
    ghost ordered: { IsInOrder map } by { Prim.hlevel props },
    ghost counted: { live ≡ len (pairs map) },
}

impl Slots {
    /// No slots.
    pub(crate) fn new(alloc: Global) -> Slots
        ensures { pairs result.map ≡ empty }
    {
        Slots {
            map: BTreeMap::new(alloc),
            live: 0,
        }
    }

    /// The value at a key.
    pub(crate) fn get(&self, key: &Bytes) -> Option<&Bytes>
        ensures value { option_map (λ v. v.now) result ≡ get (pairs self.now.map) key.now }
        ensures has { is_some result ≡ true → HasSlot self.now.map key.now }
    {
        match self.map.get(key) {
            Some(slot) => slot.as_ref(),
            None => None,
        }
    }

    /// How many keys have a value.
    pub(crate) fn count(&self) -> u64
        ensures { result ≡ len (pairs self.now.map) }
    {
        self.live
    }

    /// Copies the first pairs with greater keys, no more than `most`: some, where there are any.
    pub(crate) fn pairs_after(
        &self,
        alloc: Global,
        key: &[u8],
        most: usize,
    ) -> Result<VecDeque<(Bytes, Bytes)>, AllocError>
        ensures ahead { IfOk result (λ found. IsAhead key.now found.items (pairs self.now.map)) }
        ensures none { IfOk result (λ found. found.items ≡ [] → after key.now (entries (pairs self.now.map)) ≡ []) }
    {
        let start = Bytes::from_slice(alloc, key)?;
        let mut found = VecDeque::with_capacity(alloc, most)?;
        for (key, slot) in self.map.range((Bound::Excluded(start), Bound::Unbounded)) {
            if let Some(value) = slot {
                found.push_back((key.copy(alloc)?, value.copy(alloc)?))?;
                if found.len() >= most {
                    return Ok(found);
                }
            }
        }
        Ok(found)
    }

    /// Puts a value at a key and answers the one that was there. Without memory nothing is changed.
    pub(crate) fn put(&mut self, key: Bytes, value: Bytes) -> Result<Option<Bytes>, AllocError>
        ensures old { IfOk result (λ old. old ≡ get (pairs self.old.map) key) }
        ensures ok { OnOk result (pairs self.new.map ≡ insert (pairs self.old.map) key value) }
        ensures has { OnOk result (HasSlot self.new.map key) }
        ensures keeps { (q : List ℕ) → HasSlot self.old.map q → HasSlot self.new.map q }
        ensures err { OnErr result (pairs self.new.map ≡ pairs self.old.map) }
    {
        let old = self.map.insert(key, Some(value))?.flatten();
        let _room = self.map.len();
        self.live = self.live + 1 - u64::from(old.is_some());
        Ok(old)
    }

    /// Gives the slot of a key this value, or none, and answers what it had.
    pub(crate) fn set(&mut self, key: &Bytes, value: Option<Bytes>) -> Option<Bytes>
        requires { HasSlot self.old.map key.now }
        ensures old { result ≡ get (pairs self.old.map) key.now }
        ensures pairs { pairs self.new.map ≡ with_at key.now value (pairs self.old.map) }
        ensures keeps { (q : List ℕ) → HasSlot self.old.map q → HasSlot self.new.map q }
    {
        let _room = self.map.len();
        let fills = value.is_some();
        let Some(slot) = self.map.get_mut(key) else {
            unreachable!();
        };
        let old = mem::replace(slot, value);
        self.live = self.live + u64::from(fills) - u64::from(old.is_some());
        old
    }

    /// Takes away the slot of a key where it has no value.
    pub(crate) fn sweep(&mut self, key: &Bytes)
        ensures { pairs self.new.map ≡ pairs self.old.map }
    {
        if let Some(None) = self.map.get(key) {
            let _ = self.map.remove(key);
        }
    }
}
