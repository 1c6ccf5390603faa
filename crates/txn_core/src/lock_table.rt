// The locks on rows of the transactions that are open.
ghost use Rattle.std.specs.Prelude.{◌≡◌, ◌&&◌, ◌==◌, if◌then◌else◌, false, ℕ, List, Some, None, OnOk, OnErr, IfErr};
ghost use Rattle.std.specs.Prelude.{MatchOption, bytes_eq};
ghost use Rattle.txn_core.specs.Locks.{holder_of, without, Refuses, IsFree, IsFirstWriter};
ghost use Rattle.txn_core.specs.LockMaps.{holder_in, writes_in, has_table, released};

use crate::fault::LockFault;
use crate::holders::Holders;
use crate::owned::Owned;
use crate::writers::Writers;
use slon_base::Bytes;
use std::alloc::Global;
use std::marker::Model;

/// The locks on rows, each held by one transaction until it gives back all that it holds. Contracts see them through
/// `holder_of`, which says who holds the lock of each row.
#[derive(Drop)]
pub struct LockTable {
    alloc: Global,
    holders: Holders,
    writers: Writers,
    owned: Owned,
}

impl Model for LockTable {
    ghost use Rattle.txn_core.specs.Locks.{Locks};

    ghost Value = { Locks };

    ghost use Rattle.txn_core.specs.LockMaps.{locks_of, Tied};

    ghost view = { λ l. locks_of l.holders.tables };

    ghost invariant = { λ l. Tied l.holders.tables l.writers.tables l.owned.xids };
}

/// Gives back the locks of the transaction on these rows.
fn release(holders: &mut Holders, writers: &mut Writers, xid: u64, rows: &[(Bytes, Bytes)])
    ensures holders { (t k : List ℕ) → holder_in t k holders.new.tables ≡ released xid t k rows.now
        (holder_in t k holders.old.tables) }
    ensures writers { (t : List ℕ) (x : ℕ) → writes_in t x writers.new.tables ≡ (if has_table t rows.now
        && xid == x then false else writes_in t x writers.old.tables) }
{
    for (table, key) in rows {
        holders.release(table.as_slice(), key.as_slice(), xid);
        writers.remove(table.as_slice(), xid);
    }
}

impl LockTable {
    /// No locks.
    pub fn new(alloc: Global) -> LockTable
        ensures { (t k : List ℕ) → holder_of t k result ≡ None }
    {
        LockTable {
            alloc,
            holders: Holders::new(alloc),
            writers: Writers::new(alloc),
            owned: Owned::new(alloc),
        }
    }

    /// The transaction that holds the lock of the row with this key.
    pub fn holder(&self, table: &[u8], key: &[u8]) -> Option<u64>
        ensures { result ≡ holder_of table.now key.now self.now }
    {
        self.holders.get(table, key)
    }

    /// Gives the lock of the row to the transaction, which may hold it already.
    ///
    /// # Errors
    ///
    /// `Locked` where another transaction holds the lock, and `NoMemory`; all locks are then as they were.
    pub fn take(&mut self, xid: u64, table: &[u8], key: &[u8]) -> Result<(), LockFault>
        ensures free { OnOk result (IsFree xid (holder_of table.now key.now self.old)) }
        ensures ok { OnOk result ((t k : List ℕ) → holder_of t k self.new ≡ (if bytes_eq table.now t
            && bytes_eq key.now k then Some xid else holder_of t k self.old)) }
        ensures refused { IfErr result (λ fault. Refuses xid (holder_of table.now key.now self.old) fault) }
        ensures err { OnErr result ((t k : List ℕ) → holder_of t k self.new ≡ holder_of t k self.old) }
    {
        match self.holders.get(table, key) {
            Some(holder) => {
                if holder == xid {
                    return Ok(());
                }
                Err(LockFault::Locked { xid: holder })
            }
            None => self.take_free(xid, table, key),
        }
    }

    /// Gives the lock of a row that nobody holds, or leaves all locks as they were.
    fn take_free(&mut self, xid: u64, table: &[u8], key: &[u8]) -> Result<(), LockFault>
        requires { holder_of table.now key.now self.old ≡ None }
        ensures ok { OnOk result ((t k : List ℕ) → holder_of t k self.new ≡ (if bytes_eq table.now t
            && bytes_eq key.now k then Some xid else holder_of t k self.old)) }
        ensures refused { IfErr result (λ fault. fault ≡ LockFault.NoMemory) }
        ensures err { OnErr result ((t k : List ℕ) → holder_of t k self.new ≡ holder_of t k self.old) }
    {
        self.owned.add(self.alloc, xid, table, key)?;
        self.holders.set(self.alloc, table, key, xid)?;
        if let Err(error) = self.writers.add(self.alloc, table, xid) {
            self.holders.release(table, key, xid);
            return Err(LockFault::from(error));
        }
        Ok(())
    }

    /// Gives back all locks of the transaction.
    pub fn release_all(&mut self, xid: u64)
        ensures { (t k : List ℕ) → holder_of t k self.new ≡ without xid (holder_of t k self.old) }
    {
        if let Some(rows) = self.owned.take(xid) {
            release(&mut self.holders, &mut self.writers, xid, rows.as_slice());
        }
    }

    /// The least transaction that holds a lock on a row of the table.
    pub fn wrote(&self, table: &[u8]) -> Option<u64>
        ensures { MatchOption result ((k : List ℕ) → holder_of table.now k self.now ≡ None)
            (λ x. IsFirstWriter x table.now self.now) }
    {
        self.writers.first(table)
    }
}
