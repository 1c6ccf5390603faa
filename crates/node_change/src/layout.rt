// Where a store holds the node that its database is: the spaces that are used here, and the keys of the meta entries.

/// The space of the meta entries.
pub const META: u8 = 1;

/// The space of the nodes, by id.
pub const NODES: u8 = 4;

/// The space of the paths, by the ids of the client and of the server.
pub const PATHS: u8 = 5;

/// The space of the sets, by id.
pub const SETS: u8 = 6;

/// The space of the tables of sets, by id.
pub const TABLES: u8 = 7;

/// The space of the subscriptions, by the ids of the set and of the receiver.
pub const SUBSCRIPTIONS: u8 = 8;

/// The space of the fences, by the id of the failed node.
pub const FENCES: u8 = 14;

/// The spaces that a new node is given: what is known of the cluster, and the streams but for the views.
pub const GIVEN: [u8; 10] = [4, 5, 6, 7, 8, 10, 11, 12, 13, 14];

/// The key of the id of the node.
pub const NODE_ID: [u8; 1] = [4];

/// The key of the name of the cluster.
pub const CLUSTER: [u8; 1] = [5];
