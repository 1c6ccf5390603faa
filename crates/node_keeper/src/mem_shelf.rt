// Stores in memory for the databases of a session.
ghost use Rattle.std.specs.Prelude.{◌≡◌, ◌++◌, ◌∷◌, true, Err, Some, [], IfOk, OnOk, OnErr};
ghost use Rattle.std.specs.Option.{option_map};
ghost use Rattle.std.specs.List.{slice_get};
ghost use Rattle.slon_base.specs.Shelf.{Gives};
ghost use Rattle.node_keeper.specs.Plan.{Counted, IsFrom, is_due};
ghost use Rattle.node_keeper.specs.MemShelved.{can_fail, keeps, promised, shelved_of};

use crate::fault_plan::FaultPlan;
use crate::mem_keeper::MemKeeper;
use slon_base::{Bytes, OutFault, Shelf};
use std::alloc::{AllocError, Global};

/// Gives empty stores in memory.
#[derive(Drop)]
pub struct MemShelf {
    alloc: Global,
    plan: FaultPlan,
    keepers: Vec<(Vec<u64>, bool)>,
    asked: Vec<(Option<Bytes>, u32)>,
}

impl MemShelf {
    /// A shelf whose calls with the numbers `fails` fail, counted from 1. The store of place i is made with the i-th
    /// of `keepers`, the numbers of its calls that fail and whether a commit that fails holds; where there is none, no
    /// call of the store fails.
    pub fn new(alloc: Global, fails: Vec<u64>, keepers: Vec<(Vec<u64>, bool)>) -> MemShelf
        ensures told { shelved_of result.keepers.items result.asked.items result.plan ≡ record {
          promise = promised keepers.items;
          asked = Some [];
          faults = 0;
        } }
        ensures plan { IsFrom fails.items result.plan }
        ensures keepers { result.keepers.items ≡ keepers.items }
    {
        MemShelf {
            alloc,
            plan: FaultPlan::new(fails),
            keepers,
            asked: Vec::new(alloc),
        }
    }

    /// For which stores it was asked, in order: each by its folder, if there is one, and its place.
    pub fn asked(&self) -> &[(Option<Bytes>, u32)]
        ensures { result.now ≡ self.now.asked.items }
    {
        self.asked.as_slice()
    }
}

/// Keeps what a shelf was asked for.
fn note(
    alloc: Global,
    asked: &mut Vec<(Option<Bytes>, u32)>,
    store: Option<&[u8]>,
    place: u32,
) -> Result<(), AllocError>
    ensures asked { OnOk result (asked.new.items ≡
        asked.old.items ++ (option_map (λ folder. folder.now) store.entry, place) ∷ []) }
    ensures unasked { OnErr result (asked.new.items ≡ asked.old.items) }
{
    let folder = match store {
        Some(folder) => Some(Bytes::from_slice(alloc, folder)?),
        None => None,
    };
    asked.push((folder, place))?;
    Ok(())
}

impl Shelf for MemShelf {
    ghost use Rattle.node_keeper.specs.Told.{kept_of, fresh};

    type Store = MemKeeper;

    ghost shelved = { λ s. shelved_of s.keepers.items s.asked.items s.plan };

    fn give(&mut self, store: Option<&[u8]>, place: u32) -> Result<MemKeeper, OutFault>
        ensures gives { Gives (option_map (λ folder. folder.now) store.entry) place kept_of
            (shelved_of self.old.keepers.items self.old.asked.items self.old.plan)
            (shelved_of self.new.keepers.items self.new.asked.items self.new.plan) result }
        ensures made { IfOk result (λ store. kept_of store ≡ fresh
            (can_fail (slice_get self.old.keepers.items place))) }
        ensures keep { IfOk result (λ store. store.keep ≡ keeps (slice_get self.old.keepers.items place)) }
        ensures fails { is_due self.old.plan.fails.items self.old.plan.calls ≡ true → result ≡ Err OutFault.Failed }
        ensures plan { Counted self.old.plan self.new.plan }
        ensures keepers { self.new.keepers.items ≡ self.old.keepers.items }
    {
        let strikes = self.plan.strikes();
        let noted = note(self.alloc, &mut self.asked, store, place);
        if strikes {
            return Err(OutFault::Failed);
        }
        noted?;
        match self.keepers.get(place as usize) {
            Some((fails, keep)) => {
                let fails = Vec::from_slice(self.alloc, fails.as_slice())?;
                Ok(MemKeeper::new(self.alloc, fails, *keep)?)
            }
            None => Ok(MemKeeper::new(self.alloc, Vec::new(self.alloc), false)?),
        }
    }

    fn faults(&self) -> u64 {
        self.plan.faults
    }
}
