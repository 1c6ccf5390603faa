// How often a call failed.
ghost use Rattle.std.specs.Prelude.{◌≡◌, ◌+◌, ◌-◌, ◌^◌, ◌≤◌, ◌↔◌, min};
ghost use Rattle.std.specs.IoError.{error_kind};
ghost use Rattle.slon_base.specs.Counts.{Rose};

use slon_base::OutFault;
use std::io::{Error, ErrorKind};

/// How often a call of an object failed, up to the last value of a `u64`.
#[derive(Drop)]
pub(crate) struct FaultCount {
    count: u64,
}

impl FaultCount {
    ghost use Rattle.slon_system.specs.Faults.{faults_of};
    ghost use Rattle.slon_base.specs.declared.fault.OutFault.TheVariants.{Failed, NoMemory};

    /// No call failed yet.
    pub(crate) fn new() -> FaultCount
        ensures { faults_of result ≡ 0 }
    {
        FaultCount { count: 0 }
    }

    /// How many did.
    pub(crate) fn count(&self) -> u64
        ensures { result ≡ faults_of self.now }
    {
        self.count
    }

    /// Counts a call that failed.
    pub(crate) fn failed(&mut self) -> OutFault
        ensures fault { result ≡ Failed }
        ensures count { faults_of self.new ≡ min (faults_of self.old + 1) (2 ^ 64 - 1) }
        ensures later { faults_of self.old ≤ faults_of self.new }
        ensures rose { Rose (faults_of self.old) (faults_of self.new) }
    {
        self.count = self.count.saturating_add(1);
        OutFault::Failed
    }

    /// What the system's error is here. All but a want of memory count as a call that failed.
    pub(crate) fn of(&mut self, error: &Error) -> OutFault
        ensures later { faults_of self.old ≤ faults_of self.new }
        ensures rose { result ≡ Failed → Rose (faults_of self.old) (faults_of self.new) }
        ensures no_memory { result ≡ NoMemory → faults_of self.new ≡ faults_of self.old }
        ensures kind { result ≡ NoMemory ↔ (error_kind error.now ≡ ErrorKind.OutOfMemory) }
    {
        if error.kind() == ErrorKind::OutOfMemory {
            OutFault::NoMemory
        } else {
            self.failed()
        }
    }
}
