// Which transactions had ended when a snapshot was taken.
ghost use Rattle.std.specs.Prelude.{◌≡◌, IfOk};
ghost use Rattle.slon_model.specs.Rows.{member};
ghost use Rattle.slon_model.specs.Snapshots.{sees};
ghost use Rattle.txn_core.specs.Snapshots.{seen_as};

use crate::xid_list::XidList;
use std::alloc::{AllocError, Global};

/// The transactions that had ended when it was taken: all below `xmin`, and those below `xmax` that are not among the
/// running ones.
#[derive(Debug, Drop)]
pub struct Snapshot {
    /// Every transaction below it had ended.
    pub xmin: u64,
    /// No transaction at or above it had begun.
    pub xmax: u64,
    /// The transactions that had begun and not ended, ascending.
    pub running: XidList,
}

impl Snapshot {
    /// Whether the transaction had ended.
    pub fn sees(&self, xid: u64) -> bool
        ensures { result ≡ sees (seen_as self.now) xid }
    {
        if xid < self.xmin {
            return true;
        }
        if xid >= self.xmax {
            return false;
        }
        !lists(self.running.as_slice(), xid)
    }

    /// The same snapshot, copied.
    ///
    /// # Errors
    ///
    /// `AllocError` where there is no memory.
    pub fn copy(&self, alloc: Global) -> Result<Snapshot, AllocError>
        ensures { IfOk result (λ s. seen_as s ≡ seen_as self.now) }
    {
        Ok(Snapshot {
            xmin: self.xmin,
            xmax: self.xmax,
            running: self.running.copy(alloc)?,
        })
    }
}

/// Whether the list has the id.
pub(crate) fn lists(running: &[u64], xid: u64) -> bool
    ensures { result ≡ member xid running.now }
{
    running.contains(&xid)
}
