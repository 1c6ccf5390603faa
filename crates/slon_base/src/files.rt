// The files of a session: a stack of entered files, the top one is read.
ghost use Rattle.std.specs.Prelude.{◌≡◌, ◌<◌, length};
ghost use Rattle.slon_base.specs.Outside.{Filed, Enters, ReadsOn, Leaves};

use crate::OutFault;

/// Named files. An entered file is read in pieces from its front.
pub trait Files: Drop {
    /// What each name holds where that is told, what is left of each file that is entered and of the one that was left
    /// last, and how often a call failed.
    ghost filed: { Self → Filed };

    /// Enters the file of this name, or answers `false` where no file has it.
    fn enter(&mut self, name: &[u8]) -> Result<bool, OutFault>
        ensures { Enters name.now (filed self.old) (filed self.new) result };

    /// Reads on in the file entered last, and says how many bytes stand in front of `into` now: 0 only at its end.
    fn read(&mut self, into: &mut [u8]) -> Result<usize, OutFault>
        requires entered { 0 < length (filed self.old).stack }
        requires room { 0 < length into.old }
        ensures { ReadsOn into.new (filed self.old) (filed self.new) result };

    /// Leaves the file entered last.
    fn leave(&mut self)
        requires { 0 < length (filed self.old).stack }
        ensures { Leaves (filed self.old) (filed self.new) };

    /// How often a call failed, up to the last value of a `u64`.
    fn faults(&self) -> u64
        ensures { result ≡ (filed self.now).faults };
}
