// Where a store holds the rows of its tables, and a log.

/// The space of the rows of tables, by table and key.
pub const ROWS: u8 = 3;

/// The space of the log.
pub const LOG: u8 = 15;
