// Where the output goes.
ghost use Rattle.std.specs.Prelude.{◌≡◌};
ghost use Rattle.slon_base.specs.Outside.{Poured, Writes};

use crate::OutFault;

/// The output of a session.
pub trait Sink: Drop {
    /// The pieces that were written where that is told, and how often a call failed.
    ghost poured: { Self → Poured };

    /// Writes the piece. Where that fails, a prefix of it was written; without memory nothing was.
    fn write(&mut self, piece: &[u8]) -> Result<(), OutFault>
        ensures { Writes piece.now (poured self.old) (poured self.new) result };

    /// How often a call failed, up to the last value of a `u64`.
    fn faults(&self) -> u64
        ensures { result ≡ (poured self.now).faults };
}
