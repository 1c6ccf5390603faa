// The rows that each transaction locked.
ghost use Rattle.std.specs.Prelude.{◌≡◌, ◌==◌, ◌++◌, if◌then◌else◌, [], ◌∷◌, ℕ, OnOk, OnErr};
ghost use Rattle.txn_core.specs.LockMaps.{owned_by, rows_of};

use slon_base::Bytes;
use std::alloc::{AllocError, Global};
use std::collections::BTreeMap;

/// For each transaction the table and the key of each row that it locked, or was about to lock.
#[derive(Drop)]
pub(crate) struct Owned {
    pub(crate) xids: BTreeMap<u64, Vec<(Bytes, Bytes)>>,
}

impl Owned {
    /// No rows.
    pub(crate) fn new(alloc: Global) -> Owned
        ensures { (x : ℕ) → owned_by x result.xids ≡ [] }
    {
        Owned {
            xids: BTreeMap::new(alloc),
        }
    }

    /// Adds a row to those of the transaction, or leaves all as it was.
    pub(crate) fn add(
        &mut self,
        alloc: Global,
        xid: u64,
        table: &[u8],
        key: &[u8],
    ) -> Result<(), AllocError>
        ensures ok { OnOk result ((x : ℕ) →
            owned_by x self.new.xids ≡ (if xid == x then owned_by x self.old.xids ++ (
              table.now,
              key.now,
            ) ∷ [] else owned_by x self.old.xids)) }
        ensures err { OnErr result ((x : ℕ) → owned_by x self.new.xids ≡ owned_by x self.old.xids) }
    {
        let row = (
            Bytes::from_slice(alloc, table)?,
            Bytes::from_slice(alloc, key)?,
        );
        match self.xids.get_mut(&xid) {
            Some(rows) => {
                rows.push(row)?;
                Ok(())
            }
            None => {
                let mut rows = Vec::new(alloc);
                rows.push(row)?;
                self.xids.insert(xid, rows)?;
                Ok(())
            }
        }
    }

    /// Takes out the rows of the transaction.
    pub(crate) fn take(&mut self, xid: u64) -> Option<Vec<(Bytes, Bytes)>>
        ensures rows { rows_of result ≡ owned_by xid self.old.xids }
        ensures others { (x : ℕ) → owned_by x self.new.xids ≡ (if xid == x then [] else owned_by x self.old.xids) }
    {
        self.xids.remove(&xid)
    }
}
