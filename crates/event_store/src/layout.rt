// Where a node's store holds what it has of the streams: the spaces in use, and their keys.

/// The space of how far the node is in the sets that it subscribes to, by set.
pub const VIEWS: u8 = 9;

/// The space of the events, by origin and number.
pub const EVENTS: u8 = 10;

/// The space of how far each node is in each stream, by the ids of the origin and of the node.
pub const CONFIRMATIONS: u8 = 11;

/// The space of the last event of each origin that is no SYNC, by origin.
pub const NEWS: u8 = 13;
