// A list of the ids of transactions, seen as the list of its numbers.
ghost use Rattle.std.specs.Prelude.{◌≡◌, ◌++◌, [], ◌∷◌, length, IfOk, OnOk, OnErr};

use std::alloc::{AllocError, Global};
use std::marker::Model;

/// A list of the ids of transactions. Contracts see it as the list of its numbers.
#[derive(Debug, Drop)]
pub struct XidList {
    inner: Vec<u64>,
}

impl Model for XidList {
    ghost use Rattle.std.specs.Prelude.{List, ℕ};

    ghost Value = { List ℕ };

    ghost view = { λ l. l.inner.items };
}

impl XidList {
    /// An empty list.
    pub fn new(alloc: Global) -> XidList
        ensures { result ≡ [] }
    {
        XidList {
            inner: Vec::new(alloc),
        }
    }

    /// The list of these ids.
    pub fn from_vec(ids: Vec<u64>) -> XidList
        ensures { result ≡ ids.items }
    {
        XidList { inner: ids }
    }

    /// The same ids, copied.
    ///
    /// # Errors
    ///
    /// `AllocError` where there is no memory.
    pub fn copy(&self, alloc: Global) -> Result<XidList, AllocError>
        ensures { IfOk result (λ l. l ≡ self.now) }
    {
        Ok(XidList {
            inner: Vec::from_slice(alloc, self.inner.as_slice())?,
        })
    }

    /// The ids in order.
    pub fn as_slice(&self) -> &[u64]
        ensures { result.now ≡ self.now }
    {
        self.inner.as_slice()
    }

    /// How many ids there are.
    pub fn len(&self) -> usize
        ensures { result ≡ length self.now }
    {
        self.inner.len()
    }

    /// Adds an id at the end, or leaves the list as it was.
    pub fn push(&mut self, xid: u64) -> Result<(), AllocError>
        ensures ok { OnOk result (self.new ≡ self.old ++ xid ∷ []) }
        ensures err { OnErr result (self.new ≡ self.old) }
    {
        self.inner.push(xid)?;
        Ok(())
    }
}
