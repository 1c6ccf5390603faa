// Files in memory, with calls that fail as it was told.
ghost use Rattle.std.specs.Prelude.{◌≡◌, ◌+◌, ◌^◌, ◌<◌, Some, None, Err, [], true, length, nat_eq, position};
ghost use Rattle.std.specs.Cmp.Lexicographic.{pointwise};
ghost use Rattle.node_keeper.specs.Plan.{Counted, IsFrom, is_due};
ghost use Rattle.slon_base.specs.Outside.{Enters, ReadsOn, Leaves};
ghost use Rattle.node_keeper.specs.NamedFiles.{named, rest_of};

use crate::fault_plan::FaultPlan;
use slon_base::{Bytes, Files, OutFault, Text};
use std::alloc::Global;
use std::collections::VecDeque;

/// An entered file by its place, and how many of its bytes were read.
#[derive(Drop)]
pub struct Entered {
    file: usize,
    at: usize,
}

/// Files that are given with their names.
#[derive(Drop)]
pub struct MemFiles {
    files: Vec<(Text, Bytes)>,
    stack: VecDeque<Entered>,
    // The one that was left last.
    left: Option<Entered>,
    plan: FaultPlan,
}

impl MemFiles {
    ghost use Rattle.node_keeper.specs.FilesTold.{filed_of};

    /// These files, with none entered. Of a name that stands twice the first file is taken. The calls of `enter` and
    /// `read` with the numbers `fails` fail, counted from 1.
    pub fn new(alloc: Global, names: Vec<(Text, Bytes)>, fails: Vec<u64>) -> MemFiles
        ensures told { filed_of result ≡ record {
          names = Some (named names.items);
          stack = [];
          unread = None;
          faults = 0;
        } }
        ensures plan { IsFrom fails.items result.plan }
    {
        MemFiles {
            files: names,
            stack: VecDeque::new(alloc),
            left: None,
            plan: FaultPlan::new(fails),
        }
    }

    fn place_of(&self, name: &[u8]) -> Option<usize>
        ensures { result ≡ position (λ f. pointwise nat_eq f.0 name.now) self.now.files.items }
    {
        self.files.iter().position(|file| file.0.as_slice() == name)
    }
}

impl Files for MemFiles {
    ghost use Rattle.node_keeper.specs.FilesTold.{filed_of};

    ghost filed = { filed_of };

    fn enter(&mut self, name: &[u8]) -> Result<bool, OutFault>
        ensures enters { Enters name.now (filed_of self.old) (filed_of self.new) result }
        ensures fails { is_due self.old.plan.fails.items self.old.plan.calls ≡ true → result ≡ Err OutFault.Failed }
        ensures plan { Counted self.old.plan self.new.plan }
    {
        if self.plan.strikes() {
            return Err(OutFault::Failed);
        }
        match self.place_of(name) {
            Some(file) => {
                self.stack.push_front(Entered { file, at: 0 })?;
                Ok(true)
            }
            None => Ok(false),
        }
    }

    fn read(&mut self, into: &mut [u8]) -> Result<usize, OutFault>
        requires entered { 0 < length (filed_of self.old).stack }
        requires room { 0 < length into.old }
        ensures reads { ReadsOn into.new (filed_of self.old) (filed_of self.new) result }
        ensures fails { is_due self.old.plan.fails.items self.old.plan.calls ≡ true → result ≡ Err OutFault.Failed }
        ensures plan { Counted self.old.plan self.new.plan }
    {
        if self.plan.strikes() {
            return Err(OutFault::Failed);
        }
        let left = rest(self.files.as_slice(), &self.stack[0]);
        let count = into.len().min(left.len());
        into[..count].copy_from_slice(&left[..count]);
        self.stack[0].at += count;
        Ok(count)
    }

    fn leave(&mut self)
        requires { 0 < length (filed_of self.old).stack }
        ensures leaves { Leaves (filed_of self.old) (filed_of self.new) }
        ensures plan { self.new.plan ≡ self.old.plan }
    {
        self.left = self.stack.pop_front();
    }

    fn faults(&self) -> u64 {
        self.plan.faults
    }
}

// What is left of an entered file.
fn rest<'a>(files: &'a [(Text, Bytes)], entered: &Entered) -> &'a [u8]
    ensures rest { result.now ≡ rest_of files.now entered.now }
    ensures fits { entered.now.at + length result.now < 2 ^ 64 }
{
    let at = entered.at;
    match files.get(entered.file) {
        Some(file) => {
            let bytes = file.1.as_slice();
            &bytes[at.min(bytes.len())..]
        }
        None => &[],
    }
}
