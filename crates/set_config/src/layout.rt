// Where a node's store holds what it knows of the cluster: the spaces in use, and their keys.

/// The space of the nodes, by id.
pub const NODES: u8 = 4;

/// The space of the paths, by the ids of the client and of the server.
pub const PATHS: u8 = 5;

/// The space of the sets, by id.
pub const SETS: u8 = 6;

/// The space of the tables, by id.
pub const TABLES: u8 = 7;

/// The space of the subscriptions, by the ids of the set and of the receiver.
pub const SUBSCRIPTIONS: u8 = 8;

/// The space of the fences, by the id of the failed node.
pub const FENCES: u8 = 14;
