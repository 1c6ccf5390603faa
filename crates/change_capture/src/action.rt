// Accepted writes. What they mean stands in `specs/Actions.antt`.
use slon_base::{Text, TextList};
use slon_model::ColumnList;

/// What a write does to the rows of its table. The key of a row is the value of column 1.
#[derive(Drop)]
pub enum Change {
    /// Puts a row: its key, and the values of the columns from 2 on.
    Put { key: Text, values: TextList },
    /// Gives columns of the row with this key new values.
    Set { key: Text, columns: ColumnList },
    /// Takes the row with this key away.
    Remove { key: Text },
}

/// An accepted write.
#[derive(Drop)]
pub struct Action {
    /// Its number among all actions of the database.
    pub number: u64,
    /// The table's name: two parts joined by a dot.
    pub table: Text,
    /// What it does.
    pub change: Change,
}
