// Where a database stands in its store, as far as it is written here.

/// The space of the meta numbers.
pub const META: u8 = 1;

/// The space of the events.
pub const EVENTS: u8 = 10;

/// The key of the stamp.
pub const STAMP: [u8; 1] = [1];

/// The space of the log.
pub const LOG: u8 = 15;
