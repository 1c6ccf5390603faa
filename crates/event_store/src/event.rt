// An event with its row: the origin and the number are the key, and the row has the snapshot and the body.
ghost use Rattle.event_store.specs.Parts.{event_by, CanEvent-prop};
ghost use Rattle.event_store.specs.Spellings.{CanEvent};

use crate::snapshot::{read_snapshot, spell_snapshot};
use node_rows::Body;
use slon_base::{RowFault, RowIn, RowOut};
use std::alloc::{AllocError, Global};
use store_rows::Spelled;
use txn_core::Snapshot;

/// An event of a node. The first one has number 1.
#[derive(Drop)]
pub struct Event {
    /// The id of the node that emitted it.
    pub origin: u32,
    /// Its number among the events of that node.
    pub number: u64,
    /// The transactions that had ended there as it was emitted.
    pub taken: Snapshot,
    /// What it tells all nodes.
    pub body: Body,
    pub ghost can: { CanEvent (event_by origin number taken body) } by { CanEvent-prop _ },
}

/// What the row of an event has.
#[derive(Drop)]
pub(crate) struct EventRow {
    pub(crate) taken: Snapshot,
    pub(crate) body: Body,
}

impl Spelled for EventRow {
    ghost use Rattle.event_store.specs.Seen.{row_bytes, CanRow};

    ghost bytes = { row_bytes };

    ghost Can = { CanRow };

    fn spell(&self, out: &mut RowOut) -> Result<(), AllocError> {
        spell_snapshot(&self.taken, out)?;
        self.body.spell(out)
    }

    fn read(alloc: Global, row: &mut RowIn<'_>) -> Result<EventRow, RowFault> {
        let taken = read_snapshot(alloc, row)?;
        let body = Body::read(alloc, row)?;
        Ok(EventRow { taken, body })
    }
}
