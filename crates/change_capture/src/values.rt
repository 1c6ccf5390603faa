// The values of rows.
ghost use Rattle.std.specs.Prelude.{◌≡◌, ℕ, List, IfOk, unwrap_or};
ghost use Rattle.std.specs.Option.{option_map};
ghost use Rattle.slon_model.specs.Rows.{column_value, updated};

use crate::reading::FIRST_VALUE_COLUMN;
use slon_base::{Text, TextList};
use std::alloc::{AllocError, Global};

/// The same values, copied.
pub fn copy_values(alloc: Global, values: &[Text]) -> Result<TextList, AllocError>
    ensures { IfOk result (λ row. row ≡ values.now) }
{
    let mut row = TextList::new(alloc);
    for value in values {
        row.push(value.copy(alloc)?)?;
    }
    Ok(row)
}

/// The new value of a column, if it has one.
fn find_column(columns: &[(u32, Text)], number: u64) -> Option<&Text>
    ensures { (old : List ℕ) →
        unwrap_or (option_map (λ value. value.now) result) old ≡ column_value columns.now number old }
{
    for (column, value) in columns {
        if u64::from(*column) == number {
            return Some(value);
        }
    }
    None
}

/// The values of a row with new values for columns. Where a column is named more than once, its first value counts.
pub fn updated_values(
    alloc: Global,
    values: &[Text],
    columns: &[(u32, Text)],
) -> Result<TextList, AllocError>
    ensures { IfOk result (λ row. row ≡ updated columns.now values.now) }
{
    let mut row = TextList::new(alloc);
    let mut number = FIRST_VALUE_COLUMN;
    for value in values {
        let value = find_column(columns, number).unwrap_or(value);
        row.push(value.copy(alloc)?)?;
        number += 1;
    }
    Ok(row)
}
