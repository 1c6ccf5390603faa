// The tasks of a database on its tables and its transactions.
ghost use Rattle.std.specs.Prelude.{◌≡◌, ◌≤◌, ◌<◌, ◌+◌, ◌^◌, ℕ, List, IfOk, true, false, []};
ghost use Rattle.slon_base.specs.Codec.{IsText};
ghost use Rattle.slon_model.specs.Tasks.{ToMake, ToOpen, ToCommit, ToAbort, ToList};
ghost use Rattle.slon_model.specs.Moves.{stored_limit};
ghost use Rattle.slon_model.specs.Spoken.{most_columns};
ghost use Rattle.slon_model.specs.Place.{Place, is_running, taken};
ghost use Rattle.slon_model.specs.Snapshots.{first_or, IsSnapshot};
ghost use Rattle.txn_core.specs.Snapshots.{seen_as};
ghost use Rattle.app_store.specs.Base.{base_of, memory_of};
ghost use Rattle.slon_laws.specs.Older.{AreOlder};
ghost use Rattle.app_store.specs.Begun.{start_at};
ghost use Rattle.app_store.specs.Fits.{Ready};
ghost use Rattle.app_store.specs.Handed.{Hands};
ghost use Rattle.app_store.specs.Serves.{Serves, answered, settled};
ghost use Rattle.app_store.specs.Answers.{opened, committed, listed};
ghost use Rattle.app_store.specs.Taking.{IsTakenOf};

use crate::begun::number_at;
use crate::database::Database;
use crate::falls::{fall, overflow};
use crate::look::find_columns;
use crate::opens::open_xids;
use crate::spelling::spell_table;
use crate::transact::Made;
use crate::work::{list_rows, make_rows, make_table};
use node_keeper::Keeper;
use slon_base::{Halt, STORED_LIMIT, Text};
use slon_model::{DbFault, Numbering, TableRows};
use std::alloc::AllocError;
use txn_core::Snapshot;

/// The first of these ids, or the one that is given next where there is none.
fn least(xids: &[u64], next: u64) -> u64
    ensures { result ≡ first_or next xids.now }
{
    match xids.first() {
        Some(first) => *first,
        None => next,
    }
}

impl<K: Keeper> Database<K> {
    /// Makes a table with this number of columns.
    ///
    /// # Errors
    ///
    /// `TableExists` where a table has the name; `TooBig`, and what stopped the store.
    pub fn table(&mut self, table: &Text, columns: u32) -> Result<(), DbFault>
        requires text { IsText table.now }
        requires narrow { columns ≤ most_columns }
        ensures serves { Serves (ToMake table.now columns) (base_of K.kept self.old) (settled result)
            (base_of K.kept self.new) }
        ensures hands { Hands (ToMake table.now columns) (base_of K.kept self.old) (settled result) }
    {
        if !self.state.up {
            return Err(DbFault::Down);
        }
        if self.state.stamp >= STORED_LIMIT {
            return self.table_at_limit(table);
        }
        let stamp = self.state.stamp + 1;
        match make_table(self.alloc, &mut self.keeper, table, columns, stamp) {
            Ok(made) => match made {
                None => Err(DbFault::TableExists),
                Some(made) => match made {
                    Made::Done => {
                        self.state.stamp = stamp;
                        Ok(())
                    }
                    Made::InDoubt => {
                        self.state.take_down(self.alloc);
                        self.state.doubt = Some(stamp);
                        Err(DbFault::Halt(Halt::Doubt))
                    }
                },
            },
            Err(stop) => Err(fall(self.alloc, &mut self.state, &self.keeper, stop)),
        }
    }

    /// Refuses a table where the stamp can rise no more.
    fn table_at_limit(&mut self, table: &Text) -> Result<(), DbFault>
        requires up { self.old.state.up ≡ true }
        requires limit { stored_limit ≤ self.old.state.stamp + 1 }
        requires text { IsText table.now }
        ensures serves { (columns : ℕ) → Serves (ToMake table.now columns) (base_of K.kept self.old) (settled result)
            (base_of K.kept self.new) }
        ensures hands { (columns : ℕ) → Hands (ToMake table.now columns) (base_of K.kept self.old) (settled result) }
    {
        let key = spell_table(self.alloc, table)?;
        match find_columns(&mut self.keeper, key.as_slice()) {
            Ok(found) => match found {
                Some(_) => Err(DbFault::TableExists),
                None => Err(overflow(self.alloc, &mut self.state)),
            },
            Err(stop) => Err(fall(self.alloc, &mut self.state, &self.keeper, stop)),
        }
    }

    /// Opens a transaction and answers its id.
    ///
    /// # Errors
    ///
    /// `NameUsed` where one of the name is open; `TooBig`, and what stopped the store.
    pub fn begin(&mut self, name: &Text) -> Result<u64, DbFault>
        ensures serves { Serves (ToOpen name.now) (base_of K.kept self.old) (answered opened result)
            (base_of K.kept self.new) }
        ensures hands { Hands (ToOpen name.now) (base_of K.kept self.old) (answered opened result) }
    {
        if !self.state.up {
            return Err(DbFault::Down);
        }
        if self.state.opens.contains_key(name.as_slice()) {
            return Err(DbFault::NameUsed);
        }
        match self.raise(Numbering::Xids) {
            Ok(()) => {
                let xid = self.state.xids.draw();
                self.state.open(self.alloc, name.as_slice(), xid)?;
                Ok(xid)
            }
            Err(fault) => Err(fault),
        }
    }

    /// Makes what a transaction wrote stand, with the rows that a node logs of it. Answers how many actions that were,
    /// and whether the commit is in doubt. Without actions there is no call on the store.
    ///
    /// # Errors
    ///
    /// `NoTransaction` where none of the name is open; `TooBig`, and what stopped the store.
    pub fn commit(&mut self, name: &Text) -> Result<(u64, bool), DbFault>
        ensures serves { Serves (ToCommit name.now) (base_of K.kept self.old) (answered committed result)
            (base_of K.kept self.new) }
        ensures hands { Hands (ToCommit name.now) (base_of K.kept self.old) (answered committed result) }
    {
        if !self.state.up {
            return Err(DbFault::Down);
        }
        match self.state.opens.remove(name.as_slice()) {
            None => Err(DbFault::NoTransaction),
            Some(transaction) => {
                self.state.locks.release_all(transaction.xid);
                let actions = transaction.actions.len() as u64;
                if actions == 0 {
                    return Ok((actions, false));
                }
                if self.state.stamp >= STORED_LIMIT {
                    return Err(overflow(self.alloc, &mut self.state));
                }
                let stamp = self.state.stamp + 1;
                let node = &self.state.node;
                match make_rows(self.alloc, &mut self.keeper, node, &transaction, stamp) {
                    Ok(made) => match made {
                        Made::Done => {
                            self.state.stamp = stamp;
                            Ok((actions, false))
                        }
                        Made::InDoubt => {
                            self.state.take_down(self.alloc);
                            self.state.doubt = Some(stamp);
                            Ok((actions, true))
                        }
                    },
                    Err(stop) => Err(fall(self.alloc, &mut self.state, &self.keeper, stop)),
                }
            }
        }
    }

    /// Forgets what a transaction wrote.
    ///
    /// # Errors
    ///
    /// `NoTransaction` where none of the name is open.
    pub fn abort(&mut self, name: &Text) -> Result<(), DbFault>
        ensures serves { Serves (ToAbort name.now) (base_of K.kept self.old) (settled result)
            (base_of K.kept self.new) }
        ensures hands { Hands (ToAbort name.now) (base_of K.kept self.old) (settled result) }
    {
        if !self.state.up {
            return Err(DbFault::Down);
        }
        match self.state.opens.remove(name.as_slice()) {
            None => Err(DbFault::NoTransaction),
            Some(transaction) => {
                self.state.locks.release_all(transaction.xid);
                Ok(())
            }
        }
    }

    /// The rows of a table that stand, ascending by key.
    ///
    /// # Errors
    ///
    /// `NoTable` where there is no such table, and what stopped the store.
    pub fn rows(&mut self, table: &Text) -> Result<TableRows, DbFault>
        requires { IsText table.now }
        ensures serves { Serves (ToList table.now) (base_of K.kept self.old) (answered listed result)
            (base_of K.kept self.new) }
        ensures hands { Hands (ToList table.now) (base_of K.kept self.old) (answered listed result) }
    {
        if !self.state.up {
            return Err(DbFault::Down);
        }
        match list_rows(self.alloc, &mut self.keeper, table) {
            Ok(found) => match found {
                None => Err(DbFault::NoTable),
                Some(rows) => Ok(rows),
            },
            Err(stop) => Err(fall(self.alloc, &mut self.state, &self.keeper, stop)),
        }
    }

    /// The snapshot that is taken now, which sees the transactions that have ended. It lists none while the database is
    /// down.
    ///
    /// # Errors
    ///
    /// `AllocError` where there is no memory.
    pub fn snapshot(&self) -> Result<Snapshot, AllocError>
        ensures lists { IfOk result (λ s. IsTakenOf (memory_of self.now.state) (seen_as s)) }
        ensures down { self.now.state.up ≡ false → IfOk result (λ s. (seen_as s).running ≡ []) }
        ensures taken { (p : Place) → Ready p (base_of K.kept self.now) → is_running p.standing ≡ true →
            IfOk result (λ s. seen_as s ≡ taken p) }
        ensures form { (p : Place) → Ready p (base_of K.kept self.now) → is_running p.standing ≡ true →
            IfOk result (λ s. IsSnapshot (seen_as s)) }
    {
        let running = open_xids(self.alloc, &self.state.opens)?;
        let xmax = self.state.xids.next();
        Ok(Snapshot {
            xmin: least(running.as_slice(), xmax),
            xmax,
            running,
        })
    }

    /// The number of an action such that all actions with lower numbers are of transactions below this id: that of the
    /// action that came next as the last transaction up to this id began since the database came up, or 0 where none
    /// did. A snapshot below whose `xmin` all transactions have ended needs to look at no action below it.
    pub fn first_number(&self, xid: u64) -> u64
        requires up { self.now.state.up ≡ true }
        ensures is { result ≡ start_at xid self.now.state.begun }
        ensures small { result < 2 ^ 63 }
        ensures older { (p : Place) → Ready p (base_of K.kept self.now) → AreOlder result xid p.actions }
    {
        number_at(self.state.begun.as_slice(), xid)
    }
}
