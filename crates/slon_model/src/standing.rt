// How far a node is: the lists of what `status` answers.
ghost use Rattle.std.specs.Prelude.{◌≡◌, ◌++◌, [], ◌∷◌, OnOk, OnErr};

use slon_base::Text;
use std::alloc::{AllocError, Global};
use std::marker::Model;

/// How far a node is in the streams of others: each with its id, ascending. Contracts see them as a list of pairs.
#[derive(Drop)]
pub struct ProgressList {
    inner: Vec<(u32, u64)>,
}

impl Model for ProgressList {
    ghost use Rattle.std.specs.Prelude.{List, ℕ};

    ghost Value = { List (ℕ × ℕ) };

    ghost view = { λ l. l.inner.items };
}

impl ProgressList {
    /// Of no node.
    pub fn new(alloc: Global) -> ProgressList
        ensures { result ≡ [] }
    {
        ProgressList {
            inner: Vec::new(alloc),
        }
    }

    /// The nodes in order.
    pub fn as_slice(&self) -> &[(u32, u64)]
        ensures { result.now ≡ self.now }
    {
        self.inner.as_slice()
    }

    /// Adds a node at the end, or leaves the list as it was.
    pub fn push(&mut self, node: u32, number: u64) -> Result<(), AllocError>
        ensures ok { OnOk result (self.new ≡ self.old ++ (node, number) ∷ []) }
        ensures err { OnErr result (self.new ≡ self.old) }
    {
        self.inner.push((node, number))?;
        Ok(())
    }
}

/// The sets of which a node keeps progress: each with its id, its era and the printed snapshot, ascending. Contracts
/// see them as a list of triples.
#[derive(Drop)]
pub struct KeptList {
    inner: Vec<(u32, u64, Text)>,
}

impl Model for KeptList {
    ghost use Rattle.std.specs.Prelude.{List, ℕ};

    ghost Value = { List (ℕ × ℕ × List ℕ) };

    ghost view = { λ l. l.inner.items };
}

impl KeptList {
    /// No sets.
    pub fn new(alloc: Global) -> KeptList
        ensures { result ≡ [] }
    {
        KeptList {
            inner: Vec::new(alloc),
        }
    }

    /// The sets in order.
    pub fn as_slice(&self) -> &[(u32, u64, Text)]
        ensures { result.now ≡ self.now }
    {
        self.inner.as_slice()
    }

    /// Adds a set at the end, or leaves the list as it was.
    pub fn push(&mut self, set: u32, era: u64, snapshot: Text) -> Result<(), AllocError>
        ensures ok { OnOk result (self.new ≡ self.old ++ (set, era, snapshot) ∷ []) }
        ensures err { OnErr result (self.new ≡ self.old) }
    {
        self.inner.push((set, era, snapshot))?;
        Ok(())
    }
}
