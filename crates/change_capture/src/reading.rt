// The action of a row.
ghost use Rattle.std.specs.Prelude.{◌≡◌, ◌<◌, ◌↔◌, IsTrue, IfOk, IfErr};
ghost use Rattle.std.specs.Fmt.{decimal};
ghost use Rattle.change_capture.specs.Reading.{IsPrinted, AreNamed, AreValues, IsLogOf, HasNames, IsLoggedBy};
ghost use Rattle.change_capture.specs.Reading.{IsReadFault, Gives, Reads};

use crate::capture::KEY_COLUMN;
use crate::spelled_texts::TextsIn;
use crate::{Action, Change, LogCommand, LogRow, TableNames};
use slon_base::{RowFault, Text, TextList};
use slon_model::ColumnList;
use std::alloc::{AllocError, Global};

/// The number of the column of the first value behind the key.
pub(crate) const FIRST_VALUE_COLUMN: u64 = 2;

/// Whether the text is this digit.
fn is_digit(text: &str, digit: u8) -> bool
    requires { digit < 10 }
    ensures { IsTrue result ↔ (text.now ≡ decimal digit) }
{
    match text.as_bytes() {
        [byte] => *byte == b'0' + digit,
        _ => false,
    }
}

/// Whether the text is what is printed for this number. Most numbers are digits, and nothing is printed for these.
fn is_number(alloc: Global, text: &str, number: u64) -> Result<bool, AllocError>
    ensures { IfOk result (λ is. IsTrue is ↔ (text.now ≡ decimal number)) }
{
    if number < 10 {
        return Ok(is_digit(text, number as u8));
    }
    let printed = format!(in alloc; "{number}")?;
    Ok(printed.as_str() == text)
}

/// Whether the text is the number of the column of the key.
fn is_key_number(text: &str) -> bool
    ensures { IsTrue result ↔ (text.now ≡ decimal 1) }
{
    is_digit(text, KEY_COLUMN as u8)
}

/// The number that the text is printed for.
fn number_of(alloc: Global, text: &Text) -> Result<u32, RowFault>
    ensures { Reads (IsPrinted text.now) result }
{
    let shown = text.as_str();
    match shown.parse::<u32>() {
        Err(_) => Err(RowFault::NotCanonical),
        Ok(number) => {
            if is_number(alloc, shown, u64::from(number))? {
                Ok(number)
            } else {
                Err(RowFault::NotCanonical)
            }
        }
    }
}

/// The columns that are named one after another.
fn columns_of(alloc: Global, arguments: &[Text]) -> Result<ColumnList, RowFault>
    ensures { Reads (AreNamed arguments.now) result }
{
    let mut columns = ColumnList::new(alloc);
    let mut rest = arguments;
    while let [number, value, behind @ ..] = rest {
        columns.push(number_of(alloc, number)?, value.copy(alloc)?)?;
        rest = behind;
    }
    if rest.is_empty() {
        Ok(columns)
    } else {
        Err(RowFault::NotCanonical)
    }
}

/// The values of the columns from 2 on, which are named in their order.
fn values_of(alloc: Global, arguments: TextsIn<'_>) -> Result<TextList, RowFault>
    ensures { Reads (AreValues arguments.entry) result }
{
    let mut values = TextList::new(alloc);
    let mut rest = arguments;
    while let Some(number) = rest.next_str() {
        let column = values.len() as u64 + FIRST_VALUE_COLUMN;
        if !is_number(alloc, number, column)? {
            return Err(RowFault::NotCanonical);
        }
        match rest.next_text(alloc)? {
            None => return Err(RowFault::NotCanonical),
            Some(value) => values.push(value)?,
        }
    }
    Ok(values)
}

/// The new row that the columns are those of.
fn put_of(alloc: Global, columns: u64, arguments: TextsIn<'_>) -> Result<Change, RowFault>
    ensures { Reads (IsLoggedBy LogCommand.Insert columns arguments.entry) result }
{
    let mut rest = arguments;
    let Some(number) = rest.next_str() else {
        return Err(RowFault::NotCanonical);
    };
    if columns != 0 || !is_key_number(number) {
        return Err(RowFault::NotCanonical);
    }
    match rest.next_text(alloc)? {
        None => Err(RowFault::NotCanonical),
        Some(key) => Ok(Change::Put {
            key,
            values: values_of(alloc, rest)?,
        }),
    }
}

/// The changed columns, and the key behind them.
fn set_of(alloc: Global, columns: u64, arguments: &[Text]) -> Result<Change, RowFault>
    ensures { Reads (IsLoggedBy LogCommand.Update columns arguments.now) result }
{
    let [front @ .., number, key] = arguments else {
        return Err(RowFault::NotCanonical);
    };
    if !is_key_number(number.as_str()) {
        return Err(RowFault::NotCanonical);
    }
    let changed = columns_of(alloc, front)?;
    if changed.len() as u64 != columns {
        return Err(RowFault::NotCanonical);
    }
    Ok(Change::Set {
        key: key.copy(alloc)?,
        columns: changed,
    })
}

/// The key of a row that goes.
fn remove_of(alloc: Global, columns: u64, arguments: &[Text]) -> Result<Change, RowFault>
    ensures { Reads (IsLoggedBy LogCommand.Delete columns arguments.now) result }
{
    let [number, key] = arguments else {
        return Err(RowFault::NotCanonical);
    };
    if columns != 0 || !is_key_number(number.as_str()) {
        return Err(RowFault::NotCanonical);
    }
    Ok(Change::Remove {
        key: key.copy(alloc)?,
    })
}

/// The change of a row.
fn change_of(alloc: Global, row: &LogRow) -> Result<Change, RowFault>
    ensures { Reads (IsLoggedBy row.now.command row.now.columns row.now.arguments) result }
{
    match row.command {
        LogCommand::Insert => put_of(alloc, row.columns, row.arguments.reader()),
        LogCommand::Update => {
            let texts = row.arguments.texts(alloc)?;
            set_of(alloc, row.columns, texts.as_slice())
        }
        LogCommand::Delete => {
            let texts = row.arguments.texts(alloc)?;
            remove_of(alloc, row.columns, texts.as_slice())
        }
    }
}

/// The action with this number that the row is that of.
fn read_action(
    alloc: Global,
    names: &mut TableNames,
    number: u64,
    row: &LogRow,
) -> Result<Action, RowFault>
    ensures { Reads (IsLogOf number row.now) result }
{
    let table = names.table_of(alloc, &row.names)?;
    let change = change_of(alloc, row)?;
    Ok(Action {
        number,
        table,
        change,
    })
}

/// The action with this number that is logged as this row. The row is read only if it is the row of an action, byte
/// by byte: the names of the table's two parts have their form, the numbers of columns have no 0 in front, a new row
/// has all of its columns in order, and behind changed columns the key stands as column 1.
///
/// # Errors
///
/// `NotCanonical` where the row is that of no action, and `NoMemory`.
pub fn action_of(alloc: Global, number: u64, row: &LogRow) -> Result<Action, RowFault>
    // What is answered is logged as this row,
    ensures found { IfOk result (IsLogOf number row.now) }
    // and every action that is logged as this row is the one that is answered.
    ensures again { (action : Action) → IsLogOf number row.now action → Gives action result }
    ensures refused { IfErr result IsReadFault }
{
    read_action(alloc, &mut TableNames::new(), number, row)
}

/// The same, of one of many rows. Most of them are of the table of the row before, whose name is kept here, so that it
/// is not made anew.
///
/// # Errors
///
/// As of `action_of`.
pub fn action_in(
    alloc: Global,
    names: &mut TableNames,
    number: u64,
    row: &LogRow,
) -> Result<Action, RowFault>
    ensures found { IfOk result (IsLogOf number row.now) }
    ensures again { (action : Action) → IsLogOf number row.now action → Gives action result }
    ensures refused { IfErr result IsReadFault }
{
    read_action(alloc, names, number, row)
}
