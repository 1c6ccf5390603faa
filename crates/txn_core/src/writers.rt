// Which transactions hold a lock on each table.
ghost use Rattle.std.specs.Prelude.{◌≡◌, ◌==◌, ◌&&◌, if◌then◌else◌, true, false, ℕ, List, OnOk, OnErr, MatchOption};
ghost use Rattle.std.specs.Prelude.{IsSome, IfSome, IsTrue, ◌↔◌, ◌<◌, bytes_eq};
ghost use Rattle.std.specs.Ordering.{nat_cmp};
ghost use Rattle.std.specs.BTreeSet.{btree_set_len, contains, IsLowerBound};
ghost use Rattle.txn_core.specs.LockMaps.{writes_in, IsFirst};

use std::alloc::{AllocError, Global};
use std::collections::{BTreeMap, BTreeSet};

/// For each table the transactions that hold a lock on a row of it.
#[derive(Drop)]
pub(crate) struct Writers {
    pub(crate) tables: BTreeMap<Vec<u8>, BTreeSet<u64>>,
}

/// The least id of the set.
fn least(xids: &BTreeSet<u64>) -> Option<u64>
    ensures some { IsSome result ↔ (0 < btree_set_len xids.now) }
    ensures member { IfSome result (λ x. IsTrue (contains nat_cmp xids.now x)) }
    ensures least { IfSome result (λ x. IsLowerBound nat_cmp xids.now x) }
{
    xids.first().copied()
}

impl Writers {
    /// No transactions.
    pub(crate) fn new(alloc: Global) -> Writers
        ensures { (t : List ℕ) (x : ℕ) → writes_in t x result.tables ≡ false }
    {
        Writers {
            tables: BTreeMap::new(alloc),
        }
    }

    /// The least of the table's transactions.
    pub(crate) fn first(&self, table: &[u8]) -> Option<u64>
        ensures { MatchOption result ((x : ℕ) → writes_in table.now x self.now.tables ≡ false)
            (λ x. IsFirst table.now x self.now.tables) }
    {
        match self.tables.get(table) {
            Some(xids) => least(xids),
            None => None,
        }
    }

    /// Adds a transaction to those of the table, or leaves all as it was.
    pub(crate) fn add(&mut self, alloc: Global, table: &[u8], xid: u64) -> Result<(), AllocError>
        ensures ok { OnOk result ((t : List ℕ) (x : ℕ) → writes_in t x self.new.tables ≡ (if bytes_eq table.now t
            && xid == x then true else writes_in t x self.old.tables)) }
        ensures err { OnErr result ((t : List ℕ) (x : ℕ) →
            writes_in t x self.new.tables ≡ writes_in t x self.old.tables) }
    {
        match self.tables.get_mut(table) {
            Some(xids) => {
                xids.insert(xid)?;
                Ok(())
            }
            None => {
                let mut xids = BTreeSet::new(alloc);
                xids.insert(xid)?;
                self.tables.insert(Vec::from_slice(alloc, table)?, xids)?;
                Ok(())
            }
        }
    }

    /// Takes a transaction from those of the table.
    pub(crate) fn remove(&mut self, table: &[u8], xid: u64)
        ensures { (t : List ℕ) (x : ℕ) → writes_in t x self.new.tables ≡ (if bytes_eq table.now t
            && xid == x then false else writes_in t x self.old.tables) }
    {
        if let Some(xids) = self.tables.get_mut(table) {
            xids.remove(&xid);
        }
    }
}
