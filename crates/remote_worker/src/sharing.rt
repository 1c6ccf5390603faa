// What was read of a provider's log for several sets, as each of them takes it.
ghost use Rattle.std.specs.Prelude.{◌≡◌, ◌==◌, ◌&&◌, ◌++◌, ◌∷◌, [], ℕ, List, IfOk, OnOk, map};
ghost use Rattle.std.specs.List.{AllByRecursion, list_any};
ghost use Rattle.std.specs.Str.{bytes_eq};
ghost use Rattle.slon_base.specs.Codec.{IsText};
ghost use Rattle.slon_model.specs.Deeds.{Logged as SeenLogged};
ghost use Rattle.slon_model.specs.Following as on;
ghost use Rattle.change_capture.specs.Actions.{change_of};
ghost use Rattle.log_switch.specs.Between.{CanBeLogged};
ghost use Rattle.change_apply.specs.Applied.{CanApply};
ghost use Rattle.node_state.specs.Held.{action_as};
ghost use Rattle.node_change.specs.Done.{row_of};
ghost use Rattle.node_store.specs.Bringing.{HasLogged};
ghost use Rattle.node_store.specs.Logged.{IsAdded};
ghost use Rattle.remote_worker.specs.Keeping.{CanFollow, seen_kept};
ghost use Rattle.remote_worker.specs.Loading.{CanFetch, HasFetch, HaveFetches};
ghost use Rattle.remote_worker.specs.Running.{CanLogFound, CanRun, HasPart, seen_run, taken_among, taken_with};

use crate::keeping::KeptSet;
use crate::loading::SetFetch;
use crate::running::Run;
use change_capture::{Action, Change, LogRow, copy_values};
use node_store::{LoggedRows, SetSync};
use slon_base::{Many, Text};
use slon_model::ColumnList;
use std::alloc::{AllocError, Global};

/// The same row of a log, copied.
fn copy_row(alloc: Global, row: &LogRow) -> Result<LogRow, AllocError>
    ensures { IfOk result (λ copy. copy ≡ row.now) }
{
    Ok(LogRow {
        xid: row.xid,
        table: row.table,
        names: row.names.copy(alloc)?,
        command: row.command,
        columns: row.columns,
        arguments: row.arguments.copy(alloc)?,
    })
}

/// The same columns, copied.
fn copy_columns(alloc: Global, columns: &[(u32, Text)]) -> Result<ColumnList, AllocError>
    ensures { IfOk result (λ copied. copied ≡ columns.now) }
{
    let mut copied = ColumnList::new(alloc);
    for (column, value) in columns {
        copied.push(*column, value.copy(alloc)?)?;
    }
    Ok(copied)
}

/// The same change, copied.
fn copy_change(alloc: Global, change: &Change) -> Result<Change, AllocError>
    ensures { IfOk result (λ copy. copy ≡ change.now) }
{
    match change {
        Change::Put { key, values } => Ok(Change::Put {
            key: key.copy(alloc)?,
            values: copy_values(alloc, values.as_slice())?,
        }),
        Change::Set { key, columns } => Ok(Change::Set {
            key: key.copy(alloc)?,
            columns: copy_columns(alloc, columns.as_slice())?,
        }),
        Change::Remove { key } => Ok(Change::Remove {
            key: key.copy(alloc)?,
        }),
    }
}

/// The same action, copied.
fn copy_action(alloc: Global, action: &Action) -> Result<Action, AllocError>
    ensures { IfOk result (λ copy. copy ≡ action.now) }
{
    Ok(Action {
        number: action.number,
        table: action.table.copy(alloc)?,
        change: copy_change(alloc, &action.change)?,
    })
}

/// Whether a row of a table of this id and this name is on one of these tables.
fn is_on_one(tables: &[(u32, Text)], table: u32, name: &Text) -> bool
    ensures { result ≡ list_any (λ t. t.0 == table && bytes_eq name.now t.1) tables.now }
{
    tables.iter().any(|(id, other)| *id == table && name.as_slice() == other.as_slice())
}

/// Adds a copy of a row and of its action.
fn add_copy(
    alloc: Global,
    part: &mut LoggedRows,
    number: u64,
    row: &LogRow,
    action: &Action,
) -> Result<(), AllocError>
    ensures rows { OnOk result (part.new.rows ≡ part.old.rows ++ (number, row.now) ∷ []) }
    ensures actions { OnOk result (part.new.actions ≡ part.old.actions ++ action.now ∷ []) }
{
    part.rows.push((number, copy_row(alloc, row)?))?;
    part.actions.push(copy_action(alloc, action)?)
}

/// Adds a copy of a row and of its action, if it is on one of these tables.
fn copy_on(
    alloc: Global,
    tables: &[(u32, Text)],
    part: &mut LoggedRows,
    number: u64,
    row: &LogRow,
    action: &Action,
) -> Result<(), AllocError>
    requires can { CanBeLogged (number, row.now) × IsText action.now.table × CanApply (change_of action.now.change) }
    ensures can { CanLogFound part.old → OnOk result (CanLogFound part.new) }
    ensures adds { (l : SeenLogged) → (number, row.now) ≡ row_of l → action.now ≡ action_as l.action →
        OnOk result (IsAdded (on.is_on_one tables.now) l part.old part.new) }
{
    if is_on_one(tables, row.table, &action.table) {
        add_copy(alloc, part, number, row, action)
    } else {
        Ok(())
    }
}

/// Copies of those of these rows of a log that are on one of these tables, with their actions.
fn rows_on(
    alloc: Global,
    tables: &[(u32, Text)],
    found: &LoggedRows,
) -> Result<LoggedRows, AllocError>
    requires can { CanLogFound found.now }
    ensures can { IfOk result CanLogFound }
    ensures has { IfOk result (HasPart tables.now found.now) }
{
    let mut part = LoggedRows {
        rows: Many::new(alloc),
        actions: Many::new(alloc),
    };
    let mut actions = found.actions.as_slice();
    for (number, row) in found.rows.as_slice() {
        let Some((action, others)) = actions.split_first() else {
            return Err(AllocError);
        };
        copy_on(alloc, tables, &mut part, *number, row, action)?;
        actions = others;
    }
    Ok(part)
}

/// What is taken of a set, where these rows are on its tables.
pub(crate) fn fetch_with(kept: KeptSet, found: LoggedRows) -> SetFetch
    requires can { CanFollow kept × CanLogFound found }
    ensures can { CanFetch result }
    ensures has { (origin : ℕ) (logs : List SeenLogged) → HasLogged origin logs found.rows found.actions →
        HasFetch origin (taken_with logs (seen_kept kept)) result }
{
    let KeptSet {
        set,
        before,
        view,
        tables,
        forwards,
        ..
    } = kept;
    let LoggedRows { rows, actions } = found;
    let sync = SetSync {
        set,
        view,
        rows,
        actions,
        forwards,
    };
    SetFetch {
        before,
        tables,
        sync,
    }
}

/// This of one set, in a list.
pub(crate) fn alone(alloc: Global, fetch: SetFetch) -> Result<Many<SetFetch>, AllocError>
    ensures { IfOk result (λ fetches. fetches ≡ fetch ∷ []) }
{
    let mut fetches = Many::new(alloc);
    fetches.push(fetch)?;
    Ok(fetches)
}

/// What is taken of one of the sets for which these rows were read.
fn part_of(alloc: Global, found: &LoggedRows, kept: KeptSet) -> Result<SetFetch, AllocError>
    requires can { CanFollow kept × CanLogFound found.now }
    ensures can { IfOk result CanFetch }
    ensures has { (origin : ℕ) (logs : List SeenLogged) → HasLogged origin logs found.now.rows found.now.actions →
        IfOk result (HasFetch origin (taken_among logs (seen_kept kept))) }
{
    let part = rows_on(alloc, kept.tables.as_slice(), found)?;
    Ok(fetch_with(kept, part))
}

/// What is taken of each set of a run for which these rows were read.
pub(crate) fn parts_of(
    alloc: Global,
    found: &LoggedRows,
    run: Run,
) -> Result<Many<SetFetch>, AllocError>
    requires can { CanRun run × CanLogFound found.now }
    ensures can { IfOk result (AllByRecursion CanFetch) }
    ensures has { (origin : ℕ) (logs : List SeenLogged) → HasLogged origin logs found.now.rows found.now.actions →
        IfOk result (HaveFetches origin (map (taken_among logs) (seen_run run))) }
{
    let Run { first, others } = run;
    let mut fetches = Many::new(alloc);
    fetches.push(part_of(alloc, found, first)?)?;
    for kept in others.into_vec() {
        fetches.push(part_of(alloc, found, kept)?)?;
    }
    Ok(fetches)
}
