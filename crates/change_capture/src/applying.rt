// What an action does to the rows of its table.
ghost use Rattle.std.specs.Prelude.{◌≡◌, OnOk, OnErr};
ghost use Rattle.std.specs.FinMap.{insert};
ghost use Rattle.slon_model.specs.Rows.{apply};
ghost use Rattle.change_capture.specs.Actions.{change_of};

use crate::values::{copy_values, updated_values};
use crate::{Action, Change};
use slon_base::{ByteMap, Text, TextList};
use std::alloc::{AllocError, Global};

/// Puts a row, in the place of the one that is there, or leaves the rows as they were.
fn put_row(
    alloc: Global,
    rows: &mut ByteMap<TextList>,
    key: &Text,
    row: TextList,
) -> Result<(), AllocError>
    ensures ok { OnOk result (rows.new ≡ insert rows.old key.now row) }
    ensures err { OnErr result (rows.new ≡ rows.old) }
{
    rows.insert(Vec::from_slice(alloc, key.as_slice())?, row)
}

/// What an action does to the rows of its table, which are kept by key. A row that is put takes the place of the one
/// with its key; where no row has the key, there is none to change or to take away.
///
/// # Errors
///
/// There was no memory, and the rows are as they were.
pub fn apply(alloc: Global, rows: &mut ByteMap<TextList>, action: &Action) -> Result<(), AllocError>
    ensures ok { OnOk result (rows.new ≡ apply (change_of action.now.change) rows.old) }
    ensures err { OnErr result (rows.new ≡ rows.old) }
{
    match &action.change {
        Change::Put { key, values } => {
            let row = copy_values(alloc, values.as_slice())?;
            put_row(alloc, rows, key, row)
        }
        Change::Set { key, columns } => match rows.get(key.as_slice()) {
            None => Ok(()),
            Some(row) => {
                let row = updated_values(alloc, row.as_slice(), columns.as_slice())?;
                put_row(alloc, rows, key, row)
            }
        },
        Change::Remove { key } => {
            rows.remove(key.as_slice());
            Ok(())
        }
    }
}
