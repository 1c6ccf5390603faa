// The tasks of a database that write rows.
ghost use Rattle.std.specs.Prelude.{◌≡◌, ◌≤◌, ◌<◌, ◌^◌, ◌∷◌, ◌==◌, ◌&&◌, nat_le, ℕ, List, length, map, true, false};
ghost use Rattle.std.specs.Prelude.{OnOk, IfErr, is_some};
ghost use Rattle.std.specs.List.{list_all};
ghost use Rattle.slon_model.specs.World.{halt_in};
ghost use Rattle.slon_model.specs.Forms.{is_table_name, is_value};
ghost use Rattle.change_capture.specs.declared.action.Change.TheVariants as captured;
ghost use Rattle.node_state.specs.Known.{is_change};
ghost use Rattle.slon_base.specs.Codec.{IsText, AllTexts};
ghost use Rattle.slon_model.specs.declared.numbering.Numbering.TheVariants.{Actions as NumbersActions};
ghost use Rattle.slon_model.specs.Rows.{Put, Set, Remove};
ghost use Rattle.slon_model.specs.Tasks.{Write, ToWrite, write_by, key_of, row_of};
ghost use Rattle.slon_model.specs.Deciding as rules;
ghost use Rattle.txn_core.specs.Locks.{holder_of, without};
ghost use Rattle.app_store.specs.Base.{base_of, memory_of};
ghost use Rattle.app_store.specs.Handed.{Hands, Tells, Told, Nothing, ReadsWidth, ReadsOpen, ReadsSeen};
ghost use Rattle.app_store.specs.Handed.{ReadsFree, UpdatesRow};
ghost use Rattle.app_store.specs.Spelled.{row_key as row_key_of};
ghost use Rattle.app_store.specs.Written.{IsWritten};
ghost use Rattle.app_store.specs.Serves.{Serves, answered, halts, NeedsNothing, NeedsNext};
ghost use Rattle.app_store.specs.Answers.{acted, acted_or_not};
ghost use Rattle.app_store.specs.Parts.{Part, FromPlace};
ghost use Rattle.app_store.specs.Targets.{FoundWidth, FoundOpen, ReadsTarget, FindsRow, AddsWrite, WritesRow, spot_of};

use crate::database::Database;
use crate::falls::fall;
use crate::look::{find_columns, read_row};
use crate::opens::{write, written};
use crate::spelling::{spell_key, spell_table, spell_values};
use crate::work::{copy_columns, update_values};
use change_capture::{Action, Change, copy_values};
use node_keeper::Keeper;
use node_state::find_closed;
use slon_base::{Bytes, Halt, Text, TextList};
use slon_model::{ColumnList, DbFault, Numbering};
use txn_core::LockFault;

/// The greatest number of columns of a table.
const MOST_COLUMNS: usize = 16;

/// A row that a write is on: its spelled key, and its spelled values as the transaction sees them.
#[derive(Drop)]
pub(crate) struct Target {
    pub(crate) key: Bytes,
    pub(crate) seen: Option<Bytes>,
}

/// A write that is added to a transaction: the spelled key of its row, the spelled values that the row gets, if any,
/// and what it does.
#[derive(Drop)]
pub(crate) struct Addition {
    pub(crate) key: Bytes,
    pub(crate) value: Option<Bytes>,
    pub(crate) change: Change,
}

/// Whether the columns are from 2 to the width of a table.
fn are_columns(columns: &[(u32, Text)], width: u64) -> bool
    ensures { result ≡ rules.are_columns columns.now width }
{
    columns
        .iter()
        .all(|column| 2 <= column.0 && u64::from(column.0) <= width)
}

/// Whether the values are as many as a table of this width has columns.
fn are_values(values: &TextList, width: u64) -> bool
    ensures { result ≡ (nat_le (length values.now) 16 && (length values.now == width)) }
{
    values.len() <= MOST_COLUMNS && values.len() as u64 == width
}

impl<K: Keeper> Database<K> {
    /// The id of the open transaction of this name, and the number of columns of the table.
    fn find_width(&mut self, name: &Text, table: &Text) -> Result<(u64, u64), DbFault>
        requires up { self.old.state.up ≡ true }
        requires text { IsText table.now }
        ensures part { Part NeedsNothing (base_of K.kept self.old) (base_of K.kept self.new) result }
        ensures finds { FromPlace (FoundWidth name.now table.now) (base_of K.kept self.old) result
            (base_of K.kept self.new) }
        ensures form { Told (base_of K.kept self.old) (λ m. ReadsWidth name.now table.now (base_of K.kept self.old) m
            result (base_of K.kept self.new)) }
        ensures up { OnOk result (self.new.state.up ≡ true) }
    {
        match self.state.opens.get(name.as_slice()) {
            None => Err(DbFault::NoTransaction),
            Some(transaction) => {
                let xid = transaction.xid;
                let key = spell_table(self.alloc, table)?;
                match find_columns(&mut self.keeper, key.as_slice()) {
                    Ok(found) => match found {
                        None => Err(DbFault::NoTable),
                        Some(columns) => Ok((xid, columns)),
                    },
                    Err(stop) => Err(fall(self.alloc, &mut self.state, &self.keeper, stop)),
                }
            }
        }
    }

    /// Refuses a table that no application may write, since the node receives its set, or is its origin and the set is
    /// locked.
    fn check_open(&mut self, table: &Text) -> Result<(), DbFault>
        requires up { self.old.state.up ≡ true }
        ensures part { Part NeedsNothing (base_of K.kept self.old) (base_of K.kept self.new) result }
        ensures finds { FromPlace (FoundOpen table.now) (base_of K.kept self.old) result (base_of K.kept self.new) }
        ensures form { Told (base_of K.kept self.old) (λ m. ReadsOpen table.now (base_of K.kept self.old) m result
            (base_of K.kept self.new)) }
        ensures up { OnOk result (self.new.state.up ≡ true) }
    {
        match find_closed(self.alloc, &mut self.keeper, &self.state.node, table) {
            Ok(found) => match found {
                None => Ok(()),
                Some(fault) => Err(fault),
            },
            Err(stop) => Err(fall(self.alloc, &mut self.state, &self.keeper, stop)),
        }
    }

    /// The other transaction that wrote a row, if one did.
    fn other_holder(&self, xid: u64, table: &Text, key: &Text) -> Option<u64>
        ensures { result ≡ without xid (holder_of table.now key.now self.now.state.locks) }
    {
        match self.state.locks.holder(table.as_slice(), key.as_slice()) {
            None => None,
            Some(holder) => {
                if holder == xid {
                    return None;
                }
                Some(holder)
            }
        }
    }

    /// A row as the transaction of this name sees it.
    fn read_target(&mut self, name: &Text, table: &Text, key: &Text) -> Result<Target, DbFault>
        requires up { self.old.state.up ≡ true }
        requires text { IsText table.now }
        requires key { IsText key.now }
        ensures part { Part NeedsNothing (base_of K.kept self.old) (base_of K.kept self.new) result }
        ensures reads { ReadsTarget name.now table.now key.now (base_of K.kept self.old) result
            (base_of K.kept self.new) }
        ensures form { Told (base_of K.kept self.old) (λ m. ReadsSeen name.now (row_key_of table.now key.now)
            (base_of K.kept self.old) m result (base_of K.kept self.new)) }
        ensures halts { IfErr result (λ fault. is_some (halt_in fault) ≡ true) }
        ensures up { OnOk result (self.new.state.up ≡ true) }
    {
        let row_key = spell_key(self.alloc, table, key)?;
        let opens = &self.state.opens;
        match written(self.alloc, opens, name.as_slice(), row_key.as_slice())? {
            Some(seen) => Ok(Target { key: row_key, seen }),
            None => match read_row(&mut self.keeper, row_key.as_slice()) {
                Ok(seen) => Ok(Target { key: row_key, seen }),
                Err(stop) => Err(fall(self.alloc, &mut self.state, &self.keeper, stop)),
            },
        }
    }

    /// A row as the transaction sees it. Refused where another open transaction wrote it.
    fn find_row(
        &mut self,
        name: &Text,
        xid: u64,
        table: &Text,
        key: &Text,
    ) -> Result<Target, DbFault>
        requires up { self.old.state.up ≡ true }
        requires text { IsText table.now }
        requires key { IsText key.now }
        ensures part { Part NeedsNothing (base_of K.kept self.old) (base_of K.kept self.new) result }
        ensures finds { FindsRow name.now xid table.now key.now (base_of K.kept self.old) result
            (base_of K.kept self.new) }
        ensures form { Told (base_of K.kept self.old) (λ m. ReadsSeen name.now (row_key_of table.now key.now)
            (base_of K.kept self.old) m result (base_of K.kept self.new)) }
        ensures free { ReadsFree xid table.now key.now (memory_of self.old.state) result }
        ensures up { OnOk result (self.new.state.up ≡ true) }
    {
        match self.other_holder(xid, table, key) {
            Some(xid) => Err(DbFault::Locked { xid }),
            None => self.read_target(name, table, key),
        }
    }

    /// Takes the lock of a row and adds a write of it to the transaction, and answers the number of the action.
    fn add_write(
        &mut self,
        name: &Text,
        xid: u64,
        table: &Text,
        key: &Text,
        addition: Addition,
    ) -> Result<u64, DbFault>
        requires up { self.old.state.up ≡ true }
        requires text { IsText table.now }
        requires key { IsText key.now }
        requires named { is_table_name table.now ≡ true }
        requires written { IsWritten addition.value }
        requires formed { is_change addition.change ≡ true }
        ensures part { Part (NeedsNext NumbersActions) (base_of K.kept self.old) (base_of K.kept self.new) result }
        ensures adds { AddsWrite (spot_of name.now xid table.now key.now) addition (base_of K.kept self.old)
            result (base_of K.kept self.new) }
        ensures form { Told (base_of K.kept self.old) (λ m. Tells Nothing (halts result)) }
    {
        match self.raise(Numbering::Actions) {
            Ok(()) => match self.state.locks.take(xid, table.as_slice(), key.as_slice()) {
                Ok(()) => {
                    let number = self.state.numbers.draw();
                    let Addition {
                        key: row_key,
                        value,
                        change,
                    } = addition;
                    let action = Action {
                        number,
                        table: table.copy(self.alloc)?,
                        change,
                    };
                    let opens = &mut self.state.opens;
                    write(
                        self.alloc,
                        opens,
                        name.as_slice(),
                        row_key.as_slice(),
                        value,
                        action,
                    )?;
                    Ok(number)
                }
                Err(fault) => match fault {
                    LockFault::Locked { xid } => Err(DbFault::Locked { xid }),
                    LockFault::NoMemory => Err(DbFault::Halt(Halt::NoMemory)),
                },
            },
            Err(fault) => Err(fault),
        }
    }

    /// Writes a row and answers the number of the action. The first value is the key.
    ///
    /// # Errors
    ///
    /// `NoTransaction` where no transaction of the name is open, `NoTable` where there is no such table, `BadWidth`
    /// where it has another number of columns, `Locked` where another open transaction wrote the row, `Duplicate` where
    /// the transaction sees a row of the key; `TooBig`, and what stopped the store.
    pub fn insert(&mut self, name: &Text, table: &Text, values: &TextList) -> Result<u64, DbFault>
        requires text { IsText table.now }
        requires texts { AllTexts values.now }
        requires some { 0 < length values.now }
        requires named { is_table_name table.now ≡ true }
        requires formed { list_all is_value values.now ≡ true }
        ensures serves { Serves (ToWrite (write_by name.now table.now (Put (key_of values.now) (row_of values.now))))
            (base_of K.kept self.old) (answered acted result) (base_of K.kept self.new) }
        ensures hands { Hands (ToWrite (write_by name.now table.now (Put (key_of values.now) (row_of values.now))))
            (base_of K.kept self.old) (answered acted result) }
    {
        if !self.state.up {
            return Err(DbFault::Down);
        }
        match self.find_width(name, table) {
            Ok((xid, width)) => {
                if !are_values(values, width) {
                    return Err(DbFault::BadWidth { columns: width });
                }
                let (first, row) = values.as_slice().split_at(1);
                match self.check_open(table) {
                    Ok(()) => self.insert_row(name, xid, table, &first[0], row),
                    Err(fault) => Err(fault),
                }
            }
            Err(fault) => Err(fault),
        }
    }

    /// Writes a new row, which fits its table.
    fn insert_row(
        &mut self,
        name: &Text,
        xid: u64,
        table: &Text,
        key: &Text,
        row: &[Text],
    ) -> Result<u64, DbFault>
        requires up { self.old.state.up ≡ true }
        requires text { IsText table.now }
        requires key { IsText key.now }
        requires texts { AllTexts row.now }
        requires few { length row.now ≤ 16 }
        requires named { is_table_name table.now ≡ true }
        requires formed { is_change (captured.Put key.now row.now) ≡ true }
        ensures part { Part (NeedsNext NumbersActions) (base_of K.kept self.old) (base_of K.kept self.new) result }
        ensures writes { WritesRow (write_by name.now table.now (Put key.now row.now)) xid (base_of K.kept self.old)
            (answered acted result) (base_of K.kept self.new) }
        ensures form { Told (base_of K.kept self.old) (λ m. Tells Nothing (halts result)) }
    {
        match self.find_row(name, xid, table, key) {
            Ok(target) => {
                let Target { key: row_key, seen } = target;
                match seen {
                    Some(_) => Err(DbFault::Duplicate),
                    None => {
                        let value = Some(spell_values(self.alloc, row)?);
                        let change = Change::Put {
                            key: key.copy(self.alloc)?,
                            values: copy_values(self.alloc, row)?,
                        };
                        let addition = Addition {
                            key: row_key,
                            value,
                            change,
                        };
                        self.add_write(name, xid, table, key, addition)
                    }
                }
            }
            Err(fault) => Err(fault),
        }
    }

    /// Gives columns of a row new values and answers the number of the action, or none where there is no row of the
    /// key.
    ///
    /// # Errors
    ///
    /// `NoTransaction` where no transaction of the name is open, `NoTable` where there is no such table, `BadWidth`
    /// where a column is not from 2 to its width, `Locked` where another open transaction wrote the row; `TooBig`, and
    /// what stopped the store.
    pub fn update(
        &mut self,
        name: &Text,
        table: &Text,
        key: &Text,
        columns: &ColumnList,
    ) -> Result<Option<u64>, DbFault>
        requires text { IsText table.now }
        requires key { IsText key.now }
        requires texts { AllTexts (map (λ c. c.1) columns.now) }
        requires named { is_table_name table.now ≡ true }
        requires formed { is_change (captured.Set key.now columns.now) ≡ true }
        ensures serves { Serves (ToWrite (write_by name.now table.now (Set key.now columns.now)))
            (base_of K.kept self.old)
            (answered acted_or_not result) (base_of K.kept self.new) }
        ensures hands { Hands (ToWrite (write_by name.now table.now (Set key.now columns.now)))
            (base_of K.kept self.old) (answered acted_or_not result) }
    {
        if !self.state.up {
            return Err(DbFault::Down);
        }
        match self.find_width(name, table) {
            Ok((xid, width)) => {
                if !are_columns(columns.as_slice(), width) {
                    return Err(DbFault::BadWidth { columns: width });
                }
                match self.check_open(table) {
                    Ok(()) => self.update_row(name, xid, table, key, columns.as_slice()),
                    Err(fault) => Err(fault),
                }
            }
            Err(fault) => Err(fault),
        }
    }

    /// Gives columns of a row new values, where there is a row of the key.
    fn update_row(
        &mut self,
        name: &Text,
        xid: u64,
        table: &Text,
        key: &Text,
        columns: &[(u32, Text)],
    ) -> Result<Option<u64>, DbFault>
        requires up { self.old.state.up ≡ true }
        requires text { IsText table.now }
        requires key { IsText key.now }
        requires texts { AllTexts (map (λ c. c.1) columns.now) }
        requires named { is_table_name table.now ≡ true }
        requires formed { is_change (captured.Set key.now columns.now) ≡ true }
        ensures part { Part (NeedsNext NumbersActions) (base_of K.kept self.old) (base_of K.kept self.new) result }
        ensures writes { WritesRow (write_by name.now table.now (Set key.now columns.now)) xid (base_of K.kept self.old)
            (answered acted_or_not result) (base_of K.kept self.new) }
        ensures form { Told (base_of K.kept self.old) (UpdatesRow
            (write_by name.now table.now (Set key.now columns.now)) xid
            (base_of K.kept self.old) result) }
    {
        match self.find_row(name, xid, table, key) {
            Ok(target) => {
                let Target { key: row_key, seen } = target;
                match seen {
                    None => Ok(None),
                    Some(values) => match update_values(self.alloc, &values, columns) {
                        Ok(value) => {
                            let change = Change::Set {
                                key: key.copy(self.alloc)?,
                                columns: copy_columns(self.alloc, columns)?,
                            };
                            let addition = Addition {
                                key: row_key,
                                value: Some(value),
                                change,
                            };
                            some(self.add_write(name, xid, table, key, addition))
                        }
                        Err(stop) => Err(fall(self.alloc, &mut self.state, &self.keeper, stop)),
                    },
                }
            }
            Err(fault) => Err(fault),
        }
    }

    /// Takes a row away and answers the number of the action, or none where there is no row of the key.
    ///
    /// # Errors
    ///
    /// `NoTransaction` where no transaction of the name is open, `NoTable` where there is no such table, `Locked` where
    /// another open transaction wrote the row; `TooBig`, and what stopped the store.
    pub fn delete(&mut self, name: &Text, table: &Text, key: &Text) -> Result<Option<u64>, DbFault>
        requires text { IsText table.now }
        requires key { IsText key.now }
        requires named { is_table_name table.now ≡ true }
        requires formed { is_change (captured.Remove key.now) ≡ true }
        ensures serves { Serves (ToWrite (write_by name.now table.now (Remove key.now))) (base_of K.kept self.old)
            (answered acted_or_not result) (base_of K.kept self.new) }
        ensures hands { Hands (ToWrite (write_by name.now table.now (Remove key.now)))
            (base_of K.kept self.old) (answered acted_or_not result) }
    {
        if !self.state.up {
            return Err(DbFault::Down);
        }
        match self.find_width(name, table) {
            Ok((xid, _)) => match self.check_open(table) {
                Ok(()) => self.delete_row(name, xid, table, key),
                Err(fault) => Err(fault),
            },
            Err(fault) => Err(fault),
        }
    }

    /// Takes a row away, where there is a row of the key.
    fn delete_row(
        &mut self,
        name: &Text,
        xid: u64,
        table: &Text,
        key: &Text,
    ) -> Result<Option<u64>, DbFault>
        requires up { self.old.state.up ≡ true }
        requires text { IsText table.now }
        requires key { IsText key.now }
        requires named { is_table_name table.now ≡ true }
        requires formed { is_change (captured.Remove key.now) ≡ true }
        ensures part { Part (NeedsNext NumbersActions) (base_of K.kept self.old) (base_of K.kept self.new) result }
        ensures writes { WritesRow (write_by name.now table.now (Remove key.now)) xid (base_of K.kept self.old)
            (answered acted_or_not result) (base_of K.kept self.new) }
        ensures form { Told (base_of K.kept self.old) (λ m. Tells Nothing (halts result)) }
    {
        match self.find_row(name, xid, table, key) {
            Ok(target) => {
                let Target { key: row_key, seen } = target;
                match seen {
                    None => Ok(None),
                    Some(_) => {
                        let change = Change::Remove {
                            key: key.copy(self.alloc)?,
                        };
                        let addition = Addition {
                            key: row_key,
                            value: None,
                            change,
                        };
                        some(self.add_write(name, xid, table, key, addition))
                    }
                }
            }
            Err(fault) => Err(fault),
        }
    }
}

/// The number of a write that was added.
fn some(added: Result<u64, DbFault>) -> Result<Option<u64>, DbFault>
    ensures value { answered acted_or_not result ≡ answered acted added }
    ensures halts { halts result ≡ halts added }
{
    match added {
        Ok(number) => Ok(Some(number)),
        Err(fault) => Err(fault),
    }
}
