// Whether one snapshot sees all that another sees.
ghost use Rattle.std.specs.Prelude.{◌≡◌, IsTrue, ◌↔◌, ◌&&◌, not, true};
ghost use Rattle.slon_model.specs.Rows.{member};
ghost use Rattle.slon_model.specs.Snapshots.{Rising, sees, Covers};
ghost use Rattle.txn_core.specs.Snapshots.{seen_as};

use crate::snapshot::{Snapshot, lists};

/// Whether the list has the id, by a search where the list is known to ascend.
fn has(running: &[u64], rises: bool, xid: u64) -> bool
    requires { rises ≡ true → Rising running.now }
    ensures { result ≡ member xid running.now }
{
    if rises {
        return running.binary_search(&xid).is_ok();
    }
    lists(running, xid)
}

/// Whether the transaction had ended, by a search where the running ones are known to ascend.
fn sees_by_search(snapshot: &Snapshot, rises: bool, xid: u64) -> bool
    requires { rises ≡ true → Rising (seen_as snapshot.now).running }
    ensures { result ≡ sees (seen_as snapshot.now) xid }
{
    if xid < snapshot.xmin {
        return true;
    }
    if xid >= snapshot.xmax {
        return false;
    }
    !has(snapshot.running.as_slice(), rises, xid)
}

impl Snapshot {
    /// Whether its running transactions are known to ascend.
    fn rises(&self) -> bool
        ensures { result ≡ true → Rising (seen_as self.now).running }
    {
        self.is_canonical()
    }

    /// Whether it sees every transaction that the other sees.
    ///
    /// It looks at its own running transactions, and at the ids from its `xmax` on up to the first that the other sees.
    /// For snapshots that were taken these are no more than the running ones of both and one more, and each look is
    /// a search.
    pub fn covers(&self, other: &Snapshot) -> bool
        ensures { IsTrue result ↔ Covers (seen_as self.now) (seen_as other.now) }
    {
        let own_rises = self.rises();
        let other_rises = other.rises();
        for xid in self.running.as_slice() {
            if !sees_by_search(self, own_rises, *xid) && sees_by_search(other, other_rises, *xid) {
                return false;
            }
        }
        for later in self.xmin.max(self.xmax)..other.xmin.max(other.xmax) {
            if sees_by_search(other, other_rises, later) {
                return false;
            }
        }
        true
    }
}
