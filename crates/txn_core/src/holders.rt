// Which transaction holds the lock of each row.
ghost use Rattle.std.specs.Prelude.{◌≡◌, ◌&&◌, if◌then◌else◌, ℕ, List, Some, None, OnOk, OnErr, bytes_eq};
ghost use Rattle.txn_core.specs.Locks.{without};
ghost use Rattle.txn_core.specs.LockMaps.{holder_in};

use std::alloc::{AllocError, Global};
use std::collections::BTreeMap;

/// For each table, and each key in it, the transaction that holds the lock.
#[derive(Drop)]
pub(crate) struct Holders {
    pub(crate) tables: BTreeMap<Vec<u8>, BTreeMap<Vec<u8>, u64>>,
}

impl Holders {
    /// No locks.
    pub(crate) fn new(alloc: Global) -> Holders
        ensures { (t k : List ℕ) → holder_in t k result.tables ≡ None }
    {
        Holders {
            tables: BTreeMap::new(alloc),
        }
    }

    /// The transaction that holds the lock of the row.
    pub(crate) fn get(&self, table: &[u8], key: &[u8]) -> Option<u64>
        ensures { result ≡ holder_in table.now key.now self.now.tables }
    {
        match self.tables.get(table) {
            Some(keys) => keys.get(key).copied(),
            None => None,
        }
    }

    /// Gives the lock of the row to the transaction, or leaves all as it was.
    pub(crate) fn set(
        &mut self,
        alloc: Global,
        table: &[u8],
        key: &[u8],
        xid: u64,
    ) -> Result<(), AllocError>
        ensures ok { OnOk result ((t k : List ℕ) → holder_in t k self.new.tables ≡ (if bytes_eq table.now t
            && bytes_eq key.now k then Some xid else holder_in t k self.old.tables)) }
        ensures err { OnErr result ((t k : List ℕ) → holder_in t k self.new.tables ≡ holder_in t k self.old.tables) }
    {
        let key = Vec::from_slice(alloc, key)?;
        match self.tables.get_mut(table) {
            Some(keys) => {
                keys.insert(key, xid)?;
                Ok(())
            }
            None => {
                let mut keys = BTreeMap::new(alloc);
                keys.insert(key, xid)?;
                self.tables.insert(Vec::from_slice(alloc, table)?, keys)?;
                Ok(())
            }
        }
    }

    /// Takes the lock of the row from the transaction, if it holds it.
    pub(crate) fn release(&mut self, table: &[u8], key: &[u8], xid: u64)
        ensures { (t k : List ℕ) → holder_in t k self.new.tables ≡ (if bytes_eq table.now t
            && bytes_eq key.now k then without xid (holder_in t k self.old.tables) else holder_in t k self.old.tables) }
    {
        if let Some(keys) = self.tables.get_mut(table) {
            if keys.get(key).copied() == Some(xid) {
                keys.remove(key);
            }
        }
    }
}
