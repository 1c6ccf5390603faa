// The row of an action.
ghost use Rattle.std.specs.Prelude.{◌≡◌, [], ◌∷◌, ◌++◌, ◌<◌, ◌^◌, IfOk, OnOk};
ghost use Rattle.std.specs.Fmt.{decimal};
ghost use Rattle.slon_base.specs.Codec.{AreTexts};
ghost use Rattle.slon_model.specs.Spoken.{IsTableName};
ghost use Rattle.change_capture.specs.Capture.{numbered, paired, columns_of, command_of, changed_in, log_row};
ghost use Rattle.change_capture.specs.Capture.{names_of};
ghost use Rattle.change_capture.specs.Spellings.{CanLogRow, CanSpell};
ghost use Rattle.store_rows.specs.Rows.{IsId};

use crate::{Action, Change, LogCommand, LogRow, SpelledTexts};
use slon_base::{Text, TextList};
use slon_model::ColumnList;
use std::alloc::{AllocError, Global};

/// The number of the column of the key.
pub(crate) const KEY_COLUMN: u64 = 1;

/// Adds the number of a column and its value.
fn push_column(
    alloc: Global,
    arguments: &mut TextList,
    number: u64,
    value: &Text,
) -> Result<(), AllocError>
    ensures { OnOk result (arguments.new ≡ arguments.old ++ decimal number ∷ value.now ∷ []) }
{
    arguments.push(Text::from_string(format!(in alloc; "{number}")?))?;
    arguments.push(value.copy(alloc)?)
}

/// The key and the values of a new row.
fn put_arguments(alloc: Global, key: &Text, values: &[Text]) -> Result<TextList, AllocError>
    ensures { IfOk result (λ l. l ≡ paired (numbered 1 (key.now ∷ values.now))) }
{
    let mut arguments = TextList::new(alloc);
    push_column(alloc, &mut arguments, KEY_COLUMN, key)?;
    let mut number = KEY_COLUMN;
    for value in values {
        number += 1;
        push_column(alloc, &mut arguments, number, value)?;
    }
    Ok(arguments)
}

/// The changed columns, and then the key.
fn set_arguments(alloc: Global, key: &Text, columns: &[(u32, Text)]) -> Result<TextList, AllocError>
    ensures { IfOk result (λ l. l ≡ paired (columns.now ++ (1, key.now) ∷ [])) }
{
    let mut arguments = TextList::new(alloc);
    for (number, value) in columns {
        push_column(alloc, &mut arguments, u64::from(*number), value)?;
    }
    push_column(alloc, &mut arguments, KEY_COLUMN, key)?;
    Ok(arguments)
}

/// The key of a row that goes.
fn remove_arguments(alloc: Global, key: &Text) -> Result<TextList, AllocError>
    ensures { IfOk result (λ l. l ≡ paired ((1, key.now) ∷ [])) }
{
    let mut arguments = TextList::new(alloc);
    push_column(alloc, &mut arguments, KEY_COLUMN, key)?;
    Ok(arguments)
}

/// What the row of a change names: columns and their values.
fn arguments_of(alloc: Global, change: &Change) -> Result<TextList, AllocError>
    ensures { IfOk result (λ l. l ≡ paired (columns_of change.now)) }
{
    match change {
        Change::Put { key, values } => put_arguments(alloc, key, values.as_slice()),
        Change::Set { key, columns } => set_arguments(alloc, key, columns.as_slice()),
        Change::Remove { key } => remove_arguments(alloc, key),
    }
}

/// What a change does.
fn command_of(change: &Change) -> LogCommand
    ensures { result ≡ command_of change.now }
{
    match change {
        Change::Put { .. } => LogCommand::Insert,
        Change::Set { .. } => LogCommand::Update,
        Change::Remove { .. } => LogCommand::Delete,
    }
}

/// How many columns get new values.
fn changed_in(change: &Change) -> u64
    ensures { result ≡ changed_in change.now }
{
    match change {
        Change::Set { columns, .. } => columns.len() as u64,
        Change::Put { .. } | Change::Remove { .. } => 0,
    }
}

/// The two parts of a table's name.
fn names_of(alloc: Global, table: &Text) -> Result<TextList, AllocError>
    requires { IsTableName table.now }
    ensures { IfOk result (λ names. names ≡ names_of table.now) }
{
    match table.as_str().split_once('.') {
        Some((namespace, name)) => {
            let mut names = TextList::new(alloc);
            names.push(Text::from_str(alloc, namespace)?)?;
            names.push(Text::from_str(alloc, name)?)?;
            Ok(names)
        }
        None => unreachable!(),
    }
}

/// The row that an action of a transaction on the table of this id is logged as: the two parts of the table's name,
/// and the columns that the action is about, each as its number and its value. Of a new row these are all columns in
/// order, of a changed row the new values and then the key as column 1, and of a row that goes the key alone.
///
/// # Errors
///
/// There was no memory.
pub fn log_row_of(
    alloc: Global,
    xid: u64,
    table: u32,
    action: &Action,
) -> Result<LogRow, AllocError>
    requires table { IsTableName action.now.table }
    requires texts { AreTexts (paired (columns_of action.now.change)) }
    ensures row { IfOk result (λ row. row ≡ log_row xid table action.now) }
    // The row of an action that a line says can be spelled.
    ensures can { xid < 2 ^ 63 → IsId table → CanSpell action.now → IfOk result CanLogRow }
{
    let names = names_of(alloc, &action.table)?;
    let arguments = arguments_of(alloc, &action.change)?;
    Ok(LogRow {
        xid,
        table,
        names: SpelledTexts::new(alloc, names.as_slice())?,
        command: command_of(&action.change),
        columns: changed_in(&action.change),
        arguments: SpelledTexts::new(alloc, arguments.as_slice())?,
    })
}
