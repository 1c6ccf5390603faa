// What another node reads of the log of a node.
ghost use Rattle.std.specs.Prelude.{◌≡◌, ◌<◌, ◌^◌, ◌==◌, ◌&&◌, ◌++◌, ◌∷◌, ℕ};
ghost use Rattle.std.specs.Prelude.{[], List, Some, false, true, IfErr, IfOk, IfSome, OnOk};
ghost use Rattle.std.specs.Prelude.{map};
ghost use Rattle.std.specs.List.{AllByRecursion, list_any};
ghost use Rattle.std.specs.Str.{bytes_eq};
ghost use Rattle.slon_base.specs.Keeper.{Store, sight};
ghost use Rattle.store_rows.specs.Rows.{IsId};
ghost use Rattle.store_rows.specs.Steps.{Gives, IsWithinLimit, Safe, is_failed};
ghost use Rattle.slon_model.specs.Deeds.{Logged as SeenLogged, Node};
ghost use Rattle.slon_model.specs.Following.{delta, is_on_one};
ghost use Rattle.slon_model.specs.Logs.{logged};
ghost use Rattle.slon_model.specs.Maps.{ids};
ghost use Rattle.slon_model.specs.Place.{Place};
ghost use Rattle.slon_laws.specs.Spelled.{AreWritten, IsWritten, logs_in};
ghost use Rattle.txn_core.specs.Snapshots.{seen_as};
ghost use Rattle.change_capture.specs.Reading.{IsLogOf};
ghost use Rattle.log_switch.specs.Between.{CanBeLogged};
ghost use Rattle.log_switch.specs.Holds.{HoldsLog};
ghost use Rattle.node_state.specs.Held.{action_as, items_of};
ghost use Rattle.node_change.specs.Done.{row_of};
ghost use Rattle.app_store.specs.Base.{base_of};
ghost use Rattle.app_store.specs.Fits.{Ready};
ghost use Rattle.app_store.specs.Parts.{Remembers};
ghost use Rattle.app_store.specs.Serves.{halts};
ghost use Rattle.node_store.specs.Acting.{Acts};
ghost use Rattle.node_store.specs.Bringing.{CanLogAll, HasLogged};
ghost use Rattle.node_store.specs.Logged.{AreAllPassed, ArePassed, HaveEnded, IsAdded, LooksWhere};

use crate::layout::LOG;
use app_store::{Database, DbFault, fall};
use change_capture::{Action, LogRow, TableNames, action_in};
use log_switch::between_from;
use node_keeper::Keeper;
use slon_base::{Many, STORED_LIMIT, Text, are_same};
use std::alloc::{AllocError, Global};
use store_rows::{Stop, row_stop};
use txn_core::Snapshot;

/// Rows of a log, and the actions that they are of.
#[derive(Drop)]
pub struct LoggedRows {
    /// The rows, each with the number of its action, in the order of these numbers.
    pub rows: Many<(u64, LogRow)>,
    /// Their actions, in the same order.
    pub actions: Many<Action>,
}

/// The ids of these tables.
fn ids_of(alloc: Global, tables: &[(u32, Text)]) -> Result<Many<u32>, AllocError>
    ensures { IfOk result (λ found. found ≡ ids tables.now) }
{
    let mut found = Many::new(alloc);
    for (id, _) in tables {
        found.push(*id)?;
    }
    Ok(found)
}

/// Whether a row of a table of this id and this name is on one of these tables.
fn is_on_one(tables: &[(u32, Text)], table: u32, name: &Text) -> bool
    ensures { result ≡ list_any (λ t. t.0 == table && bytes_eq name.now t.1) tables.now }
{
    tables.iter().any(|(id, other)| *id == table && are_same(name.as_slice(), other.as_slice()))
}

/// Adds a row and its action.
fn add(found: &mut LoggedRows, number: u64, row: LogRow, action: Action) -> Result<(), AllocError>
    ensures rows { OnOk result (found.new.rows ≡ found.old.rows ++ (number, row) ∷ []) }
    ensures actions { OnOk result (found.new.actions ≡ found.old.actions ++ action ∷ []) }
{
    found.rows.push((number, row))?;
    found.actions.push(action)
}

/// The action that a row of a log is that of.
fn action_at(
    alloc: Global,
    names: &mut TableNames,
    number: u64,
    row: &LogRow,
) -> Result<Action, Stop>
    ensures never { is_failed result ≡ false }
    ensures within { IfErr result IsWithinLimit }
    ensures found { IfOk result (IsLogOf number row.now) }
    ensures says { (l : SeenLogged) → IsWritten l.action → (number, row.now) ≡ row_of l →
        Gives (λ action. action ≡ action_as l.action) result }
{
    match action_in(alloc, names, number, row) {
        Ok(action) => Ok(action),
        Err(fault) => Err(row_stop(LOG, fault)),
    }
}

/// Adds a row with its action, if it is on one of these tables.
fn add_on(
    alloc: Global,
    tables: &[(u32, Text)],
    found: &mut LoggedRows,
    names: &mut TableNames,
    number: u64,
    row: LogRow,
) -> Result<(), Stop>
    requires can { CanBeLogged (number, row) }
    ensures never { is_failed result ≡ false }
    ensures within { IfErr result IsWithinLimit }
    ensures can { CanLogAll found.old.rows found.old.actions →
        OnOk result (CanLogAll found.new.rows found.new.actions) }
    ensures says { (l : SeenLogged) → IsWritten l.action → (number, row) ≡ row_of l →
        Gives (λ u. IsAdded (is_on_one tables.now) l found.old found.new) result }
{
    let action = action_at(alloc, names, number, &row)?;
    if is_on_one(tables, row.table, &action.table) {
        Ok(add(found, number, row, action)?)
    } else {
        Ok(())
    }
}

/// Those of these rows of a log that are on one of these tables, with their actions.
fn pick_on(
    alloc: Global,
    tables: &[(u32, Text)],
    rows: Many<(u64, LogRow)>,
) -> Result<LoggedRows, Stop>
    requires can { AllByRecursion CanBeLogged rows }
    ensures never { is_failed result ≡ false }
    ensures within { IfErr result IsWithinLimit }
    ensures can { IfOk result (λ found. CanLogAll found.rows found.actions) }
    ensures says { (logs : List SeenLogged) → AreWritten logs → rows ≡ map row_of logs →
        Gives (ArePassed (is_on_one tables.now) logs) result }
{
    let mut found = LoggedRows {
        rows: Many::with_capacity(alloc, rows.len())?,
        actions: Many::with_capacity(alloc, rows.len())?,
    };
    let mut names = TableNames::new();
    for (number, row) in rows.into_vec() {
        add_on(alloc, tables, &mut found, &mut names, number, row)?;
    }
    Ok(found)
}

/// The actions of these rows of a log, if all of them are on one of these tables.
fn actions_on(
    alloc: Global,
    tables: &[(u32, Text)],
    rows: &[(u64, LogRow)],
) -> Result<Option<Many<Action>>, Stop>
    requires can { AllByRecursion CanBeLogged rows.now }
    ensures never { is_failed result ≡ false }
    ensures within { IfErr result IsWithinLimit }
    ensures can { IfOk result (λ found. IfSome found (CanLogAll rows.now)) }
    ensures says { (logs : List SeenLogged) → AreWritten logs → rows.now ≡ map row_of logs →
        Gives (λ found. IfSome found (AreAllPassed (is_on_one tables.now) logs rows.now)) result }
{
    let mut actions = Many::with_capacity(alloc, rows.len())?;
    let mut names = TableNames::new();
    for (number, row) in rows {
        let action = action_at(alloc, &mut names, *number, row)?;
        if !is_on_one(tables, row.table, &action.table) {
            return Ok(None);
        }
        actions.push(action)?;
    }
    Ok(Some(actions))
}

/// Those of these rows of a log that are on one of these tables, with their actions. Most often all of them are, and
/// stay where they are, since a row is large. Others were logged when a table of another name had the id.
fn rows_on(
    alloc: Global,
    tables: &[(u32, Text)],
    rows: Many<(u64, LogRow)>,
) -> Result<LoggedRows, Stop>
    requires can { AllByRecursion CanBeLogged rows }
    ensures never { is_failed result ≡ false }
    ensures within { IfErr result IsWithinLimit }
    ensures can { IfOk result (λ found. CanLogAll found.rows found.actions) }
    ensures says { (logs : List SeenLogged) → AreWritten logs → rows ≡ map row_of logs →
        Gives (ArePassed (is_on_one tables.now) logs) result }
{
    match actions_on(alloc, tables, rows.as_slice())? {
        Some(actions) => Ok(LoggedRows { rows, actions }),
        None => pick_on(alloc, tables, rows),
    }
}

/// The number of the action from which on what the node logged of the origin is to be read for a snapshot with this
/// `xmin`. Of its own actions the node knows where transactions began.
fn first_of<K: Keeper>(database: &Database<K>, origin: u32, xmin: u64) -> u64
    requires up { database.now.state.up ≡ true }
    ensures small { result < 2 ^ 63 }
    ensures over { (p : Place) → Ready p (base_of K.kept database.now) → HaveEnded origin result xmin (logs_in p.node) }
{
    match database.node_id() {
        Some(own) if own == origin => database.first_number(xmin),
        _ => 0,
    }
}

/// The later one of two numbers, below each of which all that was logged has ended. One that no action can have tells
/// nothing.
fn later_of(first: u64, known: u64) -> u64
    requires small { first < 2 ^ 63 }
    ensures small { result < 2 ^ 63 }
    ensures over { (origin xmin : ℕ) (logs : List SeenLogged) → HaveEnded origin first xmin logs →
        HaveEnded origin known xmin logs → HaveEnded origin result xmin logs }
{
    if known < first || known > STORED_LIMIT {
        return first;
    }
    known
}

/// What a store has in its log of the actions of an origin on these tables, between two snapshots, where the old one
/// sees what was logged of the actions below the number `first`.
fn find_logged<K: Keeper>(
    alloc: Global,
    keeper: &mut K,
    origin: u32,
    first: u64,
    tables: &[(u32, Text)],
    old: &Snapshot,
    new: &Snapshot,
) -> Result<LoggedRows, Stop>
    requires origin { IsId origin }
    requires small { first < 2 ^ 63 }
    ensures safe { Safe (K.kept keeper.old) (K.kept keeper.new) result }
    ensures same { OnOk result ((K.kept keeper.new).pending ≡ (K.kept keeper.old).pending) }
    ensures within { IfErr result IsWithinLimit }
    ensures can { IfOk result (λ found. CanLogAll found.rows found.actions) }
    ensures says { (m : Store) (logs : List SeenLogged) → sight (K.kept keeper.old) ≡ Some m →
        HoldsLog (items_of logs) m → AreWritten logs → HaveEnded origin first (seen_as old.now).xmin logs →
        Gives (λ found. HasLogged origin (delta origin tables.now (seen_as old.now) (seen_as new.now) logs) found.rows
        found.actions) result }
{
    let wanted = ids_of(alloc, tables)?;
    let rows = between_from(alloc, keeper, origin, first, wanted.as_slice(), old, new)?;
    rows_on(alloc, tables, rows)
}

/// What the node has logged of the actions of an origin on these tables, each of which has this id and this name: those
/// whose transactions the new snapshot sees and the old one does not. It reads those from the number `known` on, where
/// it is known that what was logged below that is of transactions below the `xmin` of the old snapshot. Of its own
/// actions it reads no more than those from where the first transaction began that the old snapshot may not see.
///
/// # Errors
///
/// What stopped the store; the database is down then. A row of the log that is that of no action is not in its form.
pub fn read_log<K: Keeper>(
    database: &mut Database<K>,
    origin: u32,
    known: u64,
    tables: &[(u32, Text)],
    old: &Snapshot,
    new: &Snapshot,
) -> Result<LoggedRows, DbFault>
    requires up { database.old.state.up ≡ true }
    requires origin { IsId origin }
    ensures can { IfOk result (λ found. CanLogAll found.rows found.actions) }
    ensures acts { Acts (halts result) (base_of K.kept database.old) (base_of K.kept database.new) }
    ensures looks { LooksWhere (λ p. HaveEnded origin known (seen_as old.now).xmin (logs_in p.node))
        (λ p found. (n : Node) → p.node ≡ Some n →
        HasLogged origin (delta origin tables.now (seen_as old.now) (seen_as new.now) (logged n)) found.rows
        found.actions) (base_of K.kept database.old) result (base_of K.kept database.new) }
    ensures same { Remembers (base_of K.kept database.old) result (base_of K.kept database.new) }
{
    let first = later_of(first_of(database, origin, old.xmin), known);
    match find_logged(
        database.alloc,
        &mut database.keeper,
        origin,
        first,
        tables,
        old,
        new,
    ) {
        Ok(found) => Ok(found),
        Err(stop) => Err(fall(database.alloc, &mut database.state, &database.keeper, stop)),
    }
}
