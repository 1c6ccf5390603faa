// Where a database stands in its store: the spaces in use, and the keys of the meta numbers.

/// The space of the meta numbers.
pub const META: u8 = 1;

/// The space of the tables.
pub const TABLES: u8 = 2;

/// The space of the rows.
pub const ROWS: u8 = 3;

/// The key of the stamp.
pub const STAMP: [u8; 1] = [1];

/// The key of the ceiling of the ids of transactions.
pub const XID_CEILING: [u8; 1] = [2];

/// The key of the ceiling of the numbers of actions.
pub const ACTION_CEILING: [u8; 1] = [3];

/// The key of the status of the log.
pub const LOG_STATUS: [u8; 1] = [6];
