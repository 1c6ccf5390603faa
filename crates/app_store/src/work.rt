// The work of each command on the store: what is read first, and then the transaction.
ghost use Rattle.std.specs.Prelude.{◌≡◌, ◌<◌, ◌^◌, ℕ, map, Option, Some, None, true, false, is_some};
ghost use Rattle.std.specs.Prelude.{IfOk, IfErr, OnOk};
ghost use Rattle.std.specs.Option.{option_map};
ghost use Rattle.std.specs.FinMap.{get, entries};
ghost use Rattle.slon_base.specs.Keeper.{Store, sight, nothing};
ghost use Rattle.slon_base.specs.Codec.{number_bytes, text_bytes, list_bytes, IsText, AllTexts, AreTexts};
ghost use Rattle.slon_model.specs.Rows.{Row, updated};
ghost use Rattle.app_store.specs.Spelled.{tables, rows, first_rows, new_table, new_ceiling, new_rows, IsSmall};
ghost use Rattle.store_rows.specs.Steps.{Safe, IsOutside, IsWithinLimit, is_failed};
ghost use Rattle.app_store.specs.Steps.{Looks, Says, Leaves, LeavesOr, Tries, TriesOr};
ghost use Rattle.app_store.specs.Formed.{IsNumber, AreValues, Lacks, Reads};
ghost use Rattle.app_store.specs.Finds.{ListsAll};
ghost use Rattle.node_state.specs.Known.{are_captured};
ghost use Rattle.app_store.specs.Works.{TellsEmpty, HasPair, batch_of, CanLog};
ghost use Rattle.app_store.specs.Written.{IsWritten};

use crate::layout::{ACTION_CEILING, LOG_STATUS, META, ROWS, STAMP, TABLES, XID_CEILING};
use crate::look::find_columns;
use crate::opens::Transaction;
use crate::scan::scan_table;
use crate::spelling::spell_table;
use crate::transact::{Made, Put, transact, transact_rows};
use change_capture::updated_values;
use node_state::{NodeMemory, log_rows};
use slon_base::{Bytes, Keeper, Text, TextList};
use slon_model::{ColumnList, TableRows};
use std::alloc::{AllocError, Global};
use store_rows::{Stop, count_pairs, read_alone, spelling};
use txn_core::BLOCK;

/// Whether the store has no pair in any space.
fn is_empty<K: Keeper>(keeper: &mut K) -> Result<bool, Stop>
    ensures safe { Safe (K.kept keeper.old) (K.kept keeper.new) result }
    ensures same { OnOk result ((K.kept keeper.new).pending ≡ (K.kept keeper.old).pending) }
    ensures only { IfErr result IsOutside }
    ensures tells { (m : Store) → sight (K.kept keeper.old) ≡ Some m → IfOk result (TellsEmpty m) }
{
    for space in 0..256u16 {
        if count_pairs(keeper, space as u8)? > 0 {
            return Ok(false);
        }
    }
    Ok(true)
}

/// Writes the first rows of a database.
pub(crate) fn found<K: Keeper>(alloc: Global, keeper: &mut K) -> Result<Made, Stop>
    requires { is_some (K.kept keeper.old).pending ≡ false }
    ensures tries { Tries (K.kept keeper.old) (K.kept keeper.new) result }
    ensures works { (m : Store) → (K.kept keeper.old).held ≡ Some m →
        Leaves (first_rows (number_bytes 1) (number_bytes 65)) m result (K.kept keeper.new) }
{
    let stamp = spelling(alloc, &1u64)?;
    let ceiling = spelling(alloc, &(1 + BLOCK))?;
    let puts = [
        Put::new(META, &LOG_STATUS, &[0]),
        Put::new(META, &ACTION_CEILING, ceiling.as_slice()),
        Put::new(META, &XID_CEILING, ceiling.as_slice()),
        Put::new(META, &STAMP, stamp.as_slice()),
    ];
    transact(keeper, &puts)
}

/// Writes the first rows of a new database into an empty store. Refused where the store has a row.
pub(crate) fn make_database<K: Keeper>(alloc: Global, keeper: &mut K) -> Result<Option<Made>, Stop>
    requires { is_some (K.kept keeper.old).pending ≡ false }
    ensures tries { TriesOr (K.kept keeper.old) (K.kept keeper.new) result }
    ensures works { (K.kept keeper.old).held ≡ Some nothing → LeavesOr false (first_rows (number_bytes 1)
        (number_bytes 65)) nothing result (K.kept keeper.new) }
    ensures full { (m : Store) → HasPair m → (K.kept keeper.old).held ≡ Some m → LeavesOr true
        (first_rows (number_bytes 1) (number_bytes 65)) m result (K.kept keeper.new) }
{
    let empty = is_empty(keeper)?;
    if !empty {
        return Ok(None);
    }
    Ok(Some(found(alloc, keeper)?))
}

/// Makes a table. Refused where one has its name.
pub(crate) fn make_table<K: Keeper>(
    alloc: Global,
    keeper: &mut K,
    table: &Text,
    columns: u32,
    stamp: u64,
) -> Result<Option<Made>, Stop>
    requires idle { is_some (K.kept keeper.old).pending ≡ false }
    requires text { IsText table.now }
    requires room { stamp < 2 ^ 63 }
    ensures tries { TriesOr (K.kept keeper.old) (K.kept keeper.new) result }
    ensures works { (m : Store) (found : Option ℕ) → (K.kept keeper.old).held ≡ Some m → IsSmall found → get (m tables)
        (text_bytes table.now) ≡ option_map number_bytes found →
        LeavesOr (is_some found) (new_table (text_bytes table.now) (number_bytes columns) (number_bytes stamp)) m result
        (K.kept keeper.new) }
    ensures form { (m : Store) → (K.kept keeper.old).held ≡ Some m →
        Reads (Lacks tables (IsNumber (get (m tables) (text_bytes table.now)))) result }
{
    let key = spell_table(alloc, table)?;
    let found = find_columns(keeper, key.as_slice())?;
    if found.is_some() {
        return Ok(None);
    }
    let columns = spelling(alloc, &u64::from(columns))?;
    let stamp = spelling(alloc, &stamp)?;
    let puts = [
        Put::new(TABLES, key.as_slice(), columns.as_slice()),
        Put::new(META, &STAMP, stamp.as_slice()),
    ];
    Ok(Some(transact(keeper, &puts)?))
}

/// Raises the ceiling that stands at this key.
pub(crate) fn make_ceiling<K: Keeper>(
    alloc: Global,
    keeper: &mut K,
    key: &[u8],
    ceiling: u64,
    stamp: u64,
) -> Result<Made, Stop>
    requires idle { is_some (K.kept keeper.old).pending ≡ false }
    requires small { ceiling < 2 ^ 63 }
    requires room { stamp < 2 ^ 63 }
    ensures tries { Tries (K.kept keeper.old) (K.kept keeper.new) result }
    ensures works { (m : Store) → (K.kept keeper.old).held ≡ Some m → Leaves (new_ceiling key.now (number_bytes ceiling)
        (number_bytes stamp)) m result (K.kept keeper.new) }
{
    let key = Bytes::from_slice(alloc, key)?;
    let ceiling = spelling(alloc, &ceiling)?;
    let stamp = spelling(alloc, &stamp)?;
    let puts = [
        Put::new(META, key.as_slice(), ceiling.as_slice()),
        Put::new(META, &STAMP, stamp.as_slice()),
    ];
    transact(keeper, &puts)
}

/// Writes what a transaction wrote, and what the node logs of it.
pub(crate) fn make_rows<K: Keeper>(
    alloc: Global,
    keeper: &mut K,
    node: &NodeMemory,
    transaction: &Transaction,
    stamp: u64,
) -> Result<Made, Stop>
    requires idle { is_some (K.kept keeper.old).pending ≡ false }
    requires room { stamp < 2 ^ 63 }
    requires captured { are_captured transaction.now.xid transaction.now.actions ≡ true }
    ensures tries { Tries (K.kept keeper.old) (K.kept keeper.new) result }
    ensures works { (m : Store) → (K.kept keeper.old).held ≡ Some m →
        Leaves (new_rows (batch_of node.now.identity node.now.members transaction.now) (number_bytes stamp)) m result
        (K.kept keeper.new) }
    ensures can { IfOk result (λ made. CanLog node.now.members transaction.now) }
{
    let logs = log_rows(alloc, node, transaction.xid, transaction.actions.as_slice())?;
    let stamp = spelling(alloc, &stamp)?;
    let last = Put::new(META, &STAMP, stamp.as_slice());
    transact_rows(
        alloc,
        keeper,
        node,
        logs.as_slice(),
        &transaction.writes,
        &last,
    )
}

/// The same columns, copied.
pub(crate) fn copy_columns(alloc: Global, columns: &[(u32, Text)]) -> Result<ColumnList, AllocError>
    ensures { IfOk result (λ copied. copied ≡ columns.now) }
{
    let mut copied = ColumnList::new(alloc);
    for (column, value) in columns {
        copied.push(*column, value.copy(alloc)?)?;
    }
    Ok(copied)
}

/// The spelled values of a row with new values for columns.
pub(crate) fn update_values(
    alloc: Global,
    values: &Bytes,
    columns: &[(u32, Text)],
) -> Result<Bytes, Stop>
    requires { AllTexts (map (λ c. c.1) columns.now) }
    ensures says { (row : Row) → AreTexts row → values.now ≡ list_bytes row →
        Says (list_bytes (updated columns.now row)) result }
    ensures form { Reads (Lacks rows (AreValues (Some values.now))) result }
    ensures written { IfOk result (λ value. IsWritten (Some value)) }
    ensures never { is_failed result ≡ false }
    ensures within { IfErr result IsWithinLimit }
{
    match read_alone::<TextList>(alloc, ROWS, values.as_slice()) {
        Ok(values) => {
            let row = updated_values(alloc, values.as_slice(), columns)?;
            Ok(spelling(alloc, &row)?)
        }
        Err(stop) => Err(stop),
    }
}

/// The rows of a table, if there is one of the name.
pub(crate) fn list_rows<K: Keeper>(
    alloc: Global,
    keeper: &mut K,
    table: &Text,
) -> Result<Option<TableRows>, Stop>
    requires idle { is_some (K.kept keeper.old).pending ≡ false }
    requires text { IsText table.now }
    ensures { Looks (ListsAll table.now) (K.kept keeper.old) (K.kept keeper.new) result }
{
    let name = spell_table(alloc, table)?;
    let columns = find_columns(keeper, name.as_slice())?;
    if columns.is_none() {
        return Ok(None);
    }
    Ok(Some(scan_table(alloc, keeper, name.as_slice())?))
}
