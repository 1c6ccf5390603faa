// The stores of a session that keeps its databases in memory.
use node_keeper::MemKeeper;
use slon_base::{OutFault, Shelf};
use std::alloc::Global;

/// Gives empty stores in memory, of which no call fails.
#[derive(Drop)]
pub struct RealShelf {
    alloc: Global,
}

impl RealShelf {
    /// A shelf of such stores.
    pub fn new(alloc: Global) -> RealShelf {
        RealShelf { alloc }
    }
}

impl Shelf for RealShelf {
    ghost use Rattle.slon_system.specs.Told.{in_memory};

    type Store = MemKeeper;

    ghost shelved = { λ _. in_memory };

    fn give(&mut self, _store: Option<&[u8]>, _place: u32) -> Result<MemKeeper, OutFault> {
        Ok(MemKeeper::new(self.alloc, Vec::new(self.alloc), false)?)
    }

    fn faults(&self) -> u64 {
        0
    }
}
