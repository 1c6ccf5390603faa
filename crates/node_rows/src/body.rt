// What events say, spelled by the byte of a kind and its parts.
ghost use Rattle.std.specs.Prelude.{◌≡◌, ◌++◌, ◌∷◌, [], List, ℕ, OnOk};
ghost use Rattle.node_rows.specs.Reading.{ReadsBody, IsFeeding};
ghost use Rattle.node_rows.specs.Spellings.{body_bytes, CanBody};

use slon_base::{Many, RowFault, RowIn, RowOut, Text};
use std::alloc::{AllocError, Global};
use store_rows::Spelled;

/// What an event tells all nodes of the cluster. The node that emits it is not part of it, nor is its number.
#[derive(Drop)]
pub enum Body {
    /// What was committed at the origin before this event can be taken over.
    Sync,
    /// A node is stored.
    StoreNode {
        /// The id of the node.
        node: u32,
        /// The comment of the statement that stored it.
        comment: Text,
    },
    /// A node is dropped.
    DropNode {
        /// The id of the node.
        node: u32,
    },
    /// A path is stored: how one node connects to another.
    StorePath {
        /// The id of the node that is connected to.
        server: u32,
        /// The id of the node that connects.
        client: u32,
        /// How the client connects to the server, as the statement gave it.
        conninfo: Text,
    },
    /// A path is dropped.
    DropPath {
        /// The id of the node that was connected to.
        server: u32,
        /// The id of the node that connected.
        client: u32,
    },
    /// A set is stored, with no table.
    StoreSet {
        /// The id of the set.
        set: u32,
        /// The id of the node where clients write its tables.
        origin: u32,
        /// The comment of the statement that stored it.
        comment: Text,
    },
    /// A set is dropped.
    DropSet {
        /// The id of the set.
        set: u32,
    },
    /// A table is added to a set.
    SetAddTable {
        /// The id of the set.
        set: u32,
        /// The id of the table.
        table: u32,
        /// The name of the table, as the statement gave it.
        name: Text,
        /// The comment of the statement that added it.
        comment: Text,
    },
    /// A node subscribes to a set, or changes how it does.
    SubscribeSet {
        /// The id of the set.
        set: u32,
        /// The id of the node that the receiver reads the set from.
        provider: u32,
        /// The id of the receiver.
        receiver: u32,
        /// Whether the receiver keeps what it reads, so that others can read it there.
        forward: bool,
    },
    /// A node that subscribed to a set copies it, and receives it from then on.
    EnableSubscription {
        /// The id of the set.
        set: u32,
        /// The id of the node that the receiver reads the set from.
        provider: u32,
        /// The id of the receiver.
        receiver: u32,
        /// Whether the receiver keeps what it reads, so that others can read it there.
        forward: bool,
        /// The number of the era of the set that is copied.
        era: u64,
    },
    /// A node receives a set no longer.
    UnsubscribeSet {
        /// The id of the set.
        set: u32,
        /// The id of the receiver.
        receiver: u32,
    },
    /// A set is handed by its origin to another node.
    MoveSet {
        /// The id of the set.
        set: u32,
        /// The id of the node that was the origin.
        old: u32,
        /// The id of the node that becomes the origin.
        new: u32,
        /// The number of the era that begins.
        era: u64,
        /// Who receives the set in that era: the ids of the receiver and of its provider, and whether it forwards.
        feeds: Many<(u32, (u32, bool))>,
    },
    /// The new origin of a set has taken it over.
    AcceptSet {
        /// The id of the set.
        set: u32,
        /// The id of the node that was the origin.
        old: u32,
        /// The id of the node that is the origin.
        new: u32,
        /// The number of the era that began.
        era: u64,
        /// The number of the event of the old origin that handed the set over.
        moved: u64,
    },
    /// The node that emits this takes over the sets of a node that failed.
    FailoverSet {
        /// The id of the node that failed.
        failed: u32,
        /// The number of the last event of the failed node that any node takes.
        limit: u64,
        /// Each set that is taken over: its id, the number of the era that begins, and who receives it then, as in
        /// `feeds`.
        sets: Many<(u32, (u64, Many<(u32, (u32, bool))>))>,
    },
}

// The parts of each kind are read behind the byte of the kind.

fn read_store_node(alloc: Global, row: &mut RowIn<'_>) -> Result<Body, RowFault>
    ensures { ReadsBody 2 row.old result row.new }
{
    match Spelled::read(alloc, row) {
        Ok((node, comment)) => Ok(Body::StoreNode { node, comment }),
        Err(fault) => Err(fault),
    }
}

fn read_drop_node(alloc: Global, row: &mut RowIn<'_>) -> Result<Body, RowFault>
    ensures { ReadsBody 3 row.old result row.new }
{
    match Spelled::read(alloc, row) {
        Ok(node) => Ok(Body::DropNode { node }),
        Err(fault) => Err(fault),
    }
}

fn read_store_path(alloc: Global, row: &mut RowIn<'_>) -> Result<Body, RowFault>
    ensures { ReadsBody 4 row.old result row.new }
{
    match Spelled::read(alloc, row) {
        Ok((server, (client, conninfo))) => Ok(Body::StorePath {
            server,
            client,
            conninfo,
        }),
        Err(fault) => Err(fault),
    }
}

fn read_drop_path(alloc: Global, row: &mut RowIn<'_>) -> Result<Body, RowFault>
    ensures { ReadsBody 5 row.old result row.new }
{
    match Spelled::read(alloc, row) {
        Ok((server, client)) => Ok(Body::DropPath { server, client }),
        Err(fault) => Err(fault),
    }
}

fn read_store_set(alloc: Global, row: &mut RowIn<'_>) -> Result<Body, RowFault>
    ensures { ReadsBody 6 row.old result row.new }
{
    match Spelled::read(alloc, row) {
        Ok((set, (origin, comment))) => Ok(Body::StoreSet {
            set,
            origin,
            comment,
        }),
        Err(fault) => Err(fault),
    }
}

fn read_drop_set(alloc: Global, row: &mut RowIn<'_>) -> Result<Body, RowFault>
    ensures { ReadsBody 7 row.old result row.new }
{
    match Spelled::read(alloc, row) {
        Ok(set) => Ok(Body::DropSet { set }),
        Err(fault) => Err(fault),
    }
}

fn read_set_add_table(alloc: Global, row: &mut RowIn<'_>) -> Result<Body, RowFault>
    ensures { ReadsBody 8 row.old result row.new }
{
    match Spelled::read(alloc, row) {
        Ok((set, (table, (name, comment)))) => Ok(Body::SetAddTable {
            set,
            table,
            name,
            comment,
        }),
        Err(fault) => Err(fault),
    }
}

fn read_subscribe_set(alloc: Global, row: &mut RowIn<'_>) -> Result<Body, RowFault>
    ensures { ReadsBody 9 row.old result row.new }
{
    match Spelled::read(alloc, row) {
        Ok((set, (provider, (receiver, forward)))) => Ok(Body::SubscribeSet {
            set,
            provider,
            receiver,
            forward,
        }),
        Err(fault) => Err(fault),
    }
}

fn read_enable_subscription(alloc: Global, row: &mut RowIn<'_>) -> Result<Body, RowFault>
    ensures { ReadsBody 10 row.old result row.new }
{
    match Spelled::read(alloc, row) {
        Ok((set, (provider, (receiver, (forward, era))))) => Ok(Body::EnableSubscription {
            set,
            provider,
            receiver,
            forward,
            era,
        }),
        Err(fault) => Err(fault),
    }
}

fn read_unsubscribe_set(alloc: Global, row: &mut RowIn<'_>) -> Result<Body, RowFault>
    ensures { ReadsBody 11 row.old result row.new }
{
    match Spelled::read(alloc, row) {
        Ok((set, receiver)) => Ok(Body::UnsubscribeSet { set, receiver }),
        Err(fault) => Err(fault),
    }
}

fn read_move_set(alloc: Global, row: &mut RowIn<'_>) -> Result<Body, RowFault>
    ensures { ReadsBody 12 row.old result row.new }
{
    match Spelled::read(alloc, row) {
        Ok((set, (old, (new, (era, feeds))))) => Ok(Body::MoveSet {
            set,
            old,
            new,
            era,
            feeds,
        }),
        Err(fault) => Err(fault),
    }
}

fn read_accept_set(alloc: Global, row: &mut RowIn<'_>) -> Result<Body, RowFault>
    ensures { ReadsBody 13 row.old result row.new }
{
    match Spelled::read(alloc, row) {
        Ok((set, (old, (new, (era, moved))))) => Ok(Body::AcceptSet {
            set,
            old,
            new,
            era,
            moved,
        }),
        Err(fault) => Err(fault),
    }
}

fn read_failover_set(alloc: Global, row: &mut RowIn<'_>) -> Result<Body, RowFault>
    ensures { ReadsBody 14 row.old result row.new }
{
    match Spelled::read(alloc, row) {
        Ok((failed, (limit, sets))) => Ok(Body::FailoverSet {
            failed,
            limit,
            sets,
        }),
        Err(fault) => Err(fault),
    }
}

/// Spells a kind, and its parts.
fn spell_kind<X: Spelled>(kind: u8, parts: &X, out: &mut RowOut) -> Result<(), AllocError>
    requires { X.Can parts.now }
    ensures { OnOk result (out.new ≡ out.old ++ kind ∷ X.bytes parts.now) }
{
    out.byte(kind)?;
    parts.spell(out)
}

/// Spells a kind, and its parts, of which the last stands apart.
fn spell_parts<A: Spelled, B: Spelled>(
    kind: u8,
    parts: &A,
    last: &B,
    out: &mut RowOut,
) -> Result<(), AllocError>
    requires { A.Can parts.now × B.Can last.now }
    ensures { OnOk result (out.new ≡ out.old ++ (kind ∷ A.bytes parts.now ++ B.bytes last.now)) }
{
    out.byte(kind)?;
    parts.spell(out)?;
    last.spell(out)
}

/// Spells a body that says who receives a set, or who is its origin.
fn spell_feeding(body: &Body, out: &mut RowOut) -> Result<(), AllocError>
    requires can { CanBody body.now }
    requires kind { IsFeeding body.now }
    ensures { OnOk result (out.new ≡ out.old ++ body_bytes body.now) }
{
    match body {
        Body::SubscribeSet {
            set,
            provider,
            receiver,
            forward,
        } => spell_kind(9, &(*set, (*provider, (*receiver, *forward))), out),
        Body::EnableSubscription {
            set,
            provider,
            receiver,
            forward,
            era,
        } => spell_kind(10, &(*set, (*provider, (*receiver, (*forward, *era)))), out),
        Body::UnsubscribeSet { set, receiver } => spell_kind(11, &(*set, *receiver), out),
        Body::MoveSet {
            set,
            old,
            new,
            era,
            feeds,
        } => spell_parts(12, &(*set, (*old, (*new, *era))), feeds, out),
        Body::AcceptSet {
            set,
            old,
            new,
            era,
            moved,
        } => spell_kind(13, &(*set, (*old, (*new, (*era, *moved)))), out),
        Body::FailoverSet {
            failed,
            limit,
            sets,
        } => spell_parts(14, &(*failed, *limit), sets, out),
        _ => unreachable!(),
    }
}

impl Spelled for Body {
    ghost use Rattle.node_rows.specs.Spellings.{body_bytes, CanBody};

    ghost bytes = { body_bytes };

    ghost Can = { CanBody };

    fn spell(&self, out: &mut RowOut) -> Result<(), AllocError> {
        match self {
            Body::Sync => out.byte(1),
            Body::StoreNode { node, comment } => spell_parts(2, node, comment, out),
            Body::DropNode { node } => spell_kind(3, node, out),
            Body::StorePath {
                server,
                client,
                conninfo,
            } => spell_parts(4, &(*server, *client), conninfo, out),
            Body::DropPath { server, client } => spell_kind(5, &(*server, *client), out),
            Body::StoreSet {
                set,
                origin,
                comment,
            } => spell_parts(6, &(*set, *origin), comment, out),
            Body::DropSet { set } => spell_kind(7, set, out),
            Body::SetAddTable {
                set,
                table,
                name,
                comment,
            } => {
                spell_parts(8, &(*set, *table), name, out)?;
                comment.spell(out)
            }
            feeding => spell_feeding(feeding, out),
        }
    }

    fn read(alloc: Global, row: &mut RowIn<'_>) -> Result<Body, RowFault> {
        match row.byte() {
            Ok(1) => Ok(Body::Sync),
            Ok(2) => read_store_node(alloc, row),
            Ok(3) => read_drop_node(alloc, row),
            Ok(4) => read_store_path(alloc, row),
            Ok(5) => read_drop_path(alloc, row),
            Ok(6) => read_store_set(alloc, row),
            Ok(7) => read_drop_set(alloc, row),
            Ok(8) => read_set_add_table(alloc, row),
            Ok(9) => read_subscribe_set(alloc, row),
            Ok(10) => read_enable_subscription(alloc, row),
            Ok(11) => read_unsubscribe_set(alloc, row),
            Ok(12) => read_move_set(alloc, row),
            Ok(13) => read_accept_set(alloc, row),
            Ok(14) => read_failover_set(alloc, row),
            Ok(_) => Err(RowFault::NotCanonical),
            Err(fault) => Err(fault),
        }
    }
}
