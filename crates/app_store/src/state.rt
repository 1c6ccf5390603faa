// What a database keeps in memory.
ghost use Rattle.std.specs.Prelude.{◌≡◌, ◌<◌, ◌^◌, false};
ghost use Rattle.app_store.specs.Begun.{AreSmall};
ghost use Rattle.app_store.specs.Closed.{IsClosed};
ghost use Rattle.app_store.specs.Settled.{settled_as};
ghost use Rattle.app_store.specs.Written.{AreWritten};

use crate::begun::Begun;
use crate::look::Numbers;
use crate::numbers::FIRST_CEILING;
use crate::opens::{Opens, open};
use node_state::NodeMemory;
use slon_base::{ByteMap, Many};
use slon_model::Answer;
use std::alloc::{AllocError, Global};
use txn_core::{Counters, LockTable};

/// What a database keeps in memory: its numbers, its open transactions and their locks, where transactions began among
/// the actions since it came up, and the node that it is. While it is down no transaction is open and no row is locked.
#[derive(Drop)]
pub struct State {
    pub up: bool,
    /// The stamp of the commit that is in doubt.
    pub doubt: Option<u64>,
    pub stamp: u64,
    pub(crate) xids: Counters,
    pub(crate) numbers: Counters,
    pub(crate) opens: Opens,
    pub(crate) locks: LockTable,
    // The transactions that began since it came up, ascending.
    pub(crate) begun: Many<Begun>,
    pub node: NodeMemory,
    ghost small: { stamp < 2 ^ 63 },
    ghost closed: { up ≡ false → IsClosed opens locks },
    ghost written: { AreWritten opens },
    ghost marked: { AreSmall begun },
}

impl State {
    ghost use Rattle.app_store.specs.Base.{memory_of, IsFresh, GoesDown, with_opened};
    ghost use Rattle.app_store.specs.Parts.{StartsWith};
    ghost use Rattle.app_store.specs.Works as works;
    ghost use Rattle.std.specs.Prelude.{Some, OnOk, true};

    /// The memory of a database with its first rows.
    pub(crate) fn fresh(alloc: Global, up: bool, doubt: Option<u64>) -> State
        ensures { IsFresh up doubt (memory_of result) }
    {
        let mut xids = Counters::resume(FIRST_CEILING);
        let mut numbers = Counters::resume(FIRST_CEILING);
        xids.raise();
        numbers.raise();
        State {
            up,
            doubt,
            stamp: 1,
            xids,
            numbers,
            opens: ByteMap::new(alloc),
            locks: LockTable::new(alloc),
            begun: Many::new(alloc),
            node: NodeMemory::none(alloc),
        }
    }

    /// The memory of a database that comes up with these numbers, as this node.
    pub(crate) fn starting(alloc: Global, numbers: Numbers, node: NodeMemory) -> State
        requires { works.AreSmall (Some numbers) }
        ensures { StartsWith numbers node (memory_of result) }
    {
        State {
            up: true,
            doubt: None,
            stamp: numbers.stamp,
            xids: Counters::resume(numbers.xid_ceiling),
            numbers: Counters::resume(numbers.number_ceiling),
            opens: ByteMap::new(alloc),
            locks: LockTable::new(alloc),
            begun: Many::new(alloc),
            node,
        }
    }

    /// Opens a transaction of this name and this id, which begins with the action that comes next.
    pub(crate) fn open(&mut self, alloc: Global, name: &[u8], xid: u64) -> Result<(), AllocError>
        requires up { self.old.up ≡ true }
        requires small { xid < 2 ^ 63 }
        ensures { OnOk result (memory_of self.new ≡ with_opened name.now xid (memory_of self.old)) }
    {
        let number = self.numbers.next();
        self.begun.push(Begun { xid, number })?;
        open(alloc, &mut self.opens, name, xid)
    }

    /// Takes the database down: what was open is forgotten.
    pub fn take_down(&mut self, alloc: Global)
        ensures { GoesDown (memory_of self.old) (memory_of self.new) }
    {
        self.up = false;
        self.opens = ByteMap::new(alloc);
        self.locks = LockTable::new(alloc);
        self.begun = Many::new(alloc);
    }
}

/// What is said of the commit in doubt, by the stamp that was found.
pub(crate) fn settled(doubt: Option<u64>, stamp: Option<u64>) -> Answer
    ensures { result ≡ settled_as doubt stamp }
{
    match doubt {
        None => Answer::Done,
        Some(written) => {
            if stamp == Some(written) {
                return Answer::Kept;
            }
            Answer::Lost
        }
    }
}
