// Where a store holds the node that its database is: the spaces that are read, and the keys of the meta entries.

/// The space of the meta entries.
pub const META: u8 = 1;

/// The space of the nodes, by id.
pub const NODES: u8 = 4;

/// The space of the sets, by id.
pub const SETS: u8 = 6;

/// The space of the tables of sets, by id.
pub const TABLES: u8 = 7;

/// The space of the sets that the node receives, by id.
pub const VIEWS: u8 = 9;

/// The space of what nodes confirmed, by the ids of the origin and of the node.
pub const CONFIRMATIONS: u8 = 11;

/// The key of the id of the node.
pub const NODE_ID: [u8; 1] = [4];

/// The key of the name of the cluster.
pub const CLUSTER: [u8; 1] = [5];
