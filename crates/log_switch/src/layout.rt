// Where the store of a node holds its log, and the status of the log.

/// The space of the meta numbers.
pub const META: u8 = 1;

/// The space of the log, by origin and number of the action.
pub const LOG: u8 = 15;

/// The key of the status of the log.
pub const LOG_STATUS: [u8; 1] = [6];
