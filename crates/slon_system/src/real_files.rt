// The files of the system.
ghost use Rattle.std.specs.Prelude.{◌≤◌, IfOk, length};
ghost use Rattle.std.specs.Io.KnownBytes.{ReadConsumes};

use crate::fault_count::FaultCount;
use slon_base::{Files, OutFault};
use std::alloc::Global;
use std::collections::VecDeque;
use std::io::{ErrorKind, Read};
use std::{fs, io, rt, str};

/// Files of the system by their paths. They tell nothing of what they hold.
#[derive(Drop)]
pub struct RealFiles<R: rt::Files + Drop> {
    system: R,
    entered: VecDeque<R::File>,
    faults: FaultCount,
}

impl<R: rt::Files + Drop> RealFiles<R> {
    ghost use Rattle.std.specs.Prelude.{◌≡◌, None, []};
    ghost use Rattle.slon_system.specs.Told.{untold_files};

    /// The files of this system, with none entered.
    pub fn new(alloc: Global, system: R) -> RealFiles<R>
        ensures { untold_files result.entered.items result.faults ≡ record {
          names = None;
          stack = [];
          unread = None;
          faults = 0;
        } }
    {
        RealFiles {
            system,
            entered: VecDeque::new(alloc),
            faults: FaultCount::new(),
        }
    }
}

impl<R: rt::Files + Drop> Files for RealFiles<R> {
    ghost use Rattle.slon_system.specs.Told.{untold_files};

    ghost filed = { λ f. untold_files f.entered.items f.faults };

    fn enter(&mut self, name: &[u8]) -> Result<bool, OutFault> {
        let Ok(path) = str::from_utf8(name) else {
            return Err(self.faults.failed());
        };
        match fs::open(&self.system, path) {
            Ok(file) => {
                self.entered.push_front(file)?;
                Ok(true)
            }
            Err(error) if error.kind() == ErrorKind::NotFound => Ok(false),
            Err(error) => Err(self.faults.of(&error)),
        }
    }

    fn read(&mut self, into: &mut [u8]) -> Result<usize, OutFault> {
        match read_on(&mut self.entered[0], into) {
            Ok(count) => Ok(count),
            Err(error) => Err(self.faults.of(&error)),
        }
    }

    fn leave(&mut self) {
        let _ = self.entered.pop_front();
    }

    fn faults(&self) -> u64 {
        self.faults.count()
    }
}

// Reads on, again where a signal came in between.
fn read_on<F: Read>(file: &mut F, into: &mut [u8]) -> io::Result<usize>
    ensures count { IfOk result (λ n. n ≤ length into.new) }
    ensures bytes { ReadConsumes (F.remaining file.old) (F.remaining file.new) result into.new }
{
    for _ in 0..u64::MAX {
        match file.read(into) {
            Err(error) if error.kind() == ErrorKind::Interrupted => {}
            result => return result,
        }
    }
    Err(io::Error::from(ErrorKind::TimedOut))
}
