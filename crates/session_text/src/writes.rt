// The commands that write rows.
ghost use Rattle.std.specs.Prelude.{◌≡◌, ◌==◌, map};
ghost use Rattle.std.specs.List.{position};
ghost use Rattle.slon_model.specs.Forms.{number_between};
ghost use Rattle.slon_model.specs.Lines as lines;
ghost use Rattle.session_text.specs.Commands.{Gives};

use crate::words::{Misread, name_of, number_of, table_name_of, value_of, values_of};
use slon_base::Text;
use slon_model::{ColumnList, Command};
use std::alloc::Global;

/// A line names columns up to this number. A table may have fewer.
const COLUMN_NUMBER_LIMIT: u32 = 99;

/// Where the first `=` stands.
fn equals_at(word: &[u8]) -> Option<usize>
    ensures { result ≡ position (λ c. c == 61) word.now }
{
    word.iter().position(|byte| *byte == b'=')
}

/// The column of the two parts of its word.
fn column_with(alloc: Global, column: &[u8], value: &[u8]) -> Result<(u32, Text), Misread>
    ensures { Gives (lines.column_with (number_between 1 99 column.now) value.now) result }
{
    let column = number_of(column, 1, COLUMN_NUMBER_LIMIT)?;
    let value = value_of(alloc, value)?;
    Ok((column, value))
}

/// `COL=VALUE`
fn column_of(alloc: Global, word: &[u8]) -> Result<(u32, Text), Misread>
    ensures { Gives (lines.column_of word.now) result }
{
    match equals_at(word) {
        None => Err(Misread::BadForm),
        Some(equals) => column_with(alloc, &word[..equals], &word[equals + 1..]),
    }
}

/// `COL=VALUE COL=VALUE..`, with ascending columns.
fn columns_of(alloc: Global, words: &[&[u8]]) -> Result<ColumnList, Misread>
    ensures { Gives (lines.columns_behind 0 (map (λ word. word.now) words.now)) result }
{
    let mut columns = ColumnList::new(alloc);
    let mut last = 0;
    for word in words {
        let (column, value) = column_of(alloc, word)?;
        if column <= last {
            return Err(Misread::BadForm);
        }
        columns.push(column, value)?;
        last = column;
    }
    Ok(columns)
}

/// `insert DB NAME TABLE VALUE VALUE..`
pub fn insert_of(alloc: Global, words: &[&[u8]]) -> Result<Command, Misread>
    ensures { Gives (lines.insert_of (map (λ word. word.now) words.now)) result }
{
    if words.len() < 4 {
        return Err(Misread::BadForm);
    }
    Ok(Command::Insert {
        database: name_of(alloc, words[0])?,
        transaction: name_of(alloc, words[1])?,
        table: table_name_of(alloc, words[2])?,
        values: values_of(alloc, &words[3..])?,
    })
}

/// `update DB NAME TABLE VALUE COL=VALUE COL=VALUE..`
pub fn update_of(alloc: Global, words: &[&[u8]]) -> Result<Command, Misread>
    ensures { Gives (lines.update_of (map (λ word. word.now) words.now)) result }
{
    if words.len() < 5 {
        return Err(Misread::BadForm);
    }
    Ok(Command::Update {
        database: name_of(alloc, words[0])?,
        transaction: name_of(alloc, words[1])?,
        table: table_name_of(alloc, words[2])?,
        key: value_of(alloc, words[3])?,
        columns: columns_of(alloc, &words[4..])?,
    })
}

/// `delete DB NAME TABLE VALUE`
pub fn delete_of(alloc: Global, words: &[&[u8]]) -> Result<Command, Misread>
    ensures { Gives (lines.delete_of (map (λ word. word.now) words.now)) result }
{
    let [database, transaction, table, key] = words else {
        return Err(Misread::BadForm);
    };
    Ok(Command::Delete {
        database: name_of(alloc, database)?,
        transaction: name_of(alloc, transaction)?,
        table: table_name_of(alloc, table)?,
        key: value_of(alloc, key)?,
    })
}
