// The rows of what a node knows of the cluster.
ghost use Rattle.std.specs.Prelude.{◌≡◌, ◌++◌, ◌∷◌, [], List, ℕ};

use crate::life::Life;
use slon_base::{Many, RowFault, RowIn, RowOut, Text};
use std::alloc::{AllocError, Global};
use store_rows::Spelled;

/// A node that was heard of. Its id is the key of the row.
#[derive(Drop)]
pub struct NodeRow {
    /// Whether the node is live. If not, it was dropped.
    pub live: bool,
    /// The comment of the statement that stored the node.
    pub comment: Text,
}

impl Spelled for NodeRow {
    ghost use Rattle.node_rows.specs.Spellings.{node_bytes, CanNode};

    ghost bytes = { node_bytes };

    ghost Can = { CanNode };

    fn spell(&self, out: &mut RowOut) -> Result<(), AllocError> {
        Life::new(self.live).spell(out)?;
        self.comment.spell(out)
    }

    fn read(alloc: Global, row: &mut RowIn<'_>) -> Result<NodeRow, RowFault> {
        let life = Life::read(alloc, row)?;
        let comment = Text::read(alloc, row)?;
        Ok(NodeRow {
            live: life.get(),
            comment,
        })
    }
}

/// A set of tables. Its id is the key of the row.
#[derive(Drop)]
pub struct SetRow {
    /// The id of the node where clients write the tables of the set.
    pub origin: u32,
    /// The number of the era: 1 when the set is stored, and one more for each new origin.
    pub era: u64,
    /// Whether the set is locked, so that no client writes its tables.
    pub locked: bool,
    /// Whether the set is live. If not, it was dropped.
    pub live: bool,
    /// The comment of the statement that stored the set.
    pub comment: Text,
}

impl Spelled for SetRow {
    ghost use Rattle.node_rows.specs.Spellings.{set_bytes, CanSet};

    ghost bytes = { set_bytes };

    ghost Can = { CanSet };

    fn spell(&self, out: &mut RowOut) -> Result<(), AllocError> {
        self.origin.spell(out)?;
        self.era.spell(out)?;
        self.locked.spell(out)?;
        Life::new(self.live).spell(out)?;
        self.comment.spell(out)
    }

    fn read(alloc: Global, row: &mut RowIn<'_>) -> Result<SetRow, RowFault> {
        let origin = u32::read(alloc, row)?;
        let era = u64::read(alloc, row)?;
        let locked = bool::read(alloc, row)?;
        let life = Life::read(alloc, row)?;
        let comment = Text::read(alloc, row)?;
        Ok(SetRow {
            origin,
            era,
            locked,
            live: life.get(),
            comment,
        })
    }
}

/// A table of a set. Its id is the key of the row.
#[derive(Drop)]
pub struct TableRow {
    /// The id of the set that the table belongs to.
    pub set_id: u32,
    /// The name of the table, as the statement gave it.
    pub name: Text,
    /// Whether the table is live. If not, it was dropped.
    pub live: bool,
    /// The comment of the statement that added the table.
    pub comment: Text,
}

impl Spelled for TableRow {
    ghost use Rattle.node_rows.specs.Spellings.{table_bytes, CanTable};

    ghost bytes = { table_bytes };

    ghost Can = { CanTable };

    fn spell(&self, out: &mut RowOut) -> Result<(), AllocError> {
        self.set_id.spell(out)?;
        self.name.spell(out)?;
        Life::new(self.live).spell(out)?;
        self.comment.spell(out)
    }

    fn read(alloc: Global, row: &mut RowIn<'_>) -> Result<TableRow, RowFault> {
        let set_id = u32::read(alloc, row)?;
        let name = Text::read(alloc, row)?;
        let life = Life::read(alloc, row)?;
        let comment = Text::read(alloc, row)?;
        Ok(TableRow {
            set_id,
            name,
            live: life.get(),
            comment,
        })
    }
}

/// A receiver of a set. The ids of the set and of the receiver are the key of the row.
#[derive(Clone, Copy, Debug, Drop, PartialEq, Eq)]
pub struct Subscription {
    /// The id of the node that the receiver reads the set from.
    pub provider: u32,
    /// Whether the receiver keeps what it reads, so that others can read it there.
    pub forward: bool,
    /// The number of the event of the set's origin that the receiver has to confirm before it counts as active; 0 once
    /// the set got another origin.
    pub mark: u64,
}

impl Spelled for Subscription {
    ghost use Rattle.node_rows.specs.Spellings.{subscription_bytes, CanSubscription};

    ghost bytes = { subscription_bytes };

    ghost Can = { CanSubscription };

    fn spell(&self, out: &mut RowOut) -> Result<(), AllocError> {
        self.provider.spell(out)?;
        self.forward.spell(out)?;
        self.mark.spell(out)
    }

    fn read(alloc: Global, row: &mut RowIn<'_>) -> Result<Subscription, RowFault> {
        Ok(Subscription {
            provider: Spelled::read(alloc, row)?,
            forward: Spelled::read(alloc, row)?,
            mark: Spelled::read(alloc, row)?,
        })
    }
}

/// How far a fence is.
#[derive(Clone, Copy, Debug, Drop, PartialEq, Eq)]
pub enum FenceState {
    /// Nothing is decided yet, as far as this node knows.
    Set,
    /// The events up to the limit that the backup decided on are taken.
    Opened,
    /// The backup's decision is carried out at this node.
    Closed,
}

impl Spelled for FenceState {
    ghost use Rattle.std.specs.Prelude.{◌∷◌, []};
    ghost use Rattle.node_rows.specs.Spellings.{state_byte};

    ghost bytes = { λ s. state_byte s ∷ [] };

    ghost Can = { λ s. Unit {0} };

    fn spell(&self, out: &mut RowOut) -> Result<(), AllocError> {
        match self {
            FenceState::Set => out.byte(1),
            FenceState::Opened => out.byte(2),
            FenceState::Closed => out.byte(3),
        }
    }

    fn read(alloc: Global, row: &mut RowIn<'_>) -> Result<FenceState, RowFault> {
        match row.byte() {
            Ok(1) => Ok(FenceState::Set),
            Ok(2) => Ok(FenceState::Opened),
            Ok(3) => Ok(FenceState::Closed),
            Ok(_) => Err(RowFault::NotCanonical),
            Err(fault) => Err(fault),
        }
    }
}

/// A fence against a node that failed: how far its events are taken here, and who takes over. The id of the failed node
/// is the key of the row.
#[derive(Drop)]
pub struct Fence {
    /// The number of the last event of the failed node that is taken here.
    pub limit: u64,
    /// The id of the node that takes over the sets of the failed one.
    pub backup: u32,
    /// How far the fence is.
    pub state: FenceState,
    /// The ids of the sets that this node goes on receiving, from the backup.
    pub kept: Many<u32>,
    /// The ids of the sets that this node gave up.
    pub given_up: Many<u32>,
}

impl Spelled for Fence {
    ghost use Rattle.node_rows.specs.Spellings.{fence_bytes, CanFence};

    ghost bytes = { fence_bytes };

    ghost Can = { CanFence };

    fn spell(&self, out: &mut RowOut) -> Result<(), AllocError> {
        self.limit.spell(out)?;
        self.backup.spell(out)?;
        self.state.spell(out)?;
        self.kept.spell(out)?;
        self.given_up.spell(out)
    }

    fn read(alloc: Global, row: &mut RowIn<'_>) -> Result<Fence, RowFault> {
        let limit = u64::read(alloc, row)?;
        let backup = u32::read(alloc, row)?;
        let state = FenceState::read(alloc, row)?;
        let kept = Many::read(alloc, row)?;
        let given_up = Many::read(alloc, row)?;
        Ok(Fence {
            limit,
            backup,
            state,
            kept,
            given_up,
        })
    }
}
