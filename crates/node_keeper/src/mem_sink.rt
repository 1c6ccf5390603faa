// An output in memory, with writes that fail as it was told.
ghost use Rattle.std.specs.Prelude.{◌≡◌, ◌++◌, ◌∷◌, take, Err, [], Some, is_err, true, OnOk, OnErr};
ghost use Rattle.std.specs.List.{concat};
ghost use Rattle.slon_base.specs.Outside.{Writes};
ghost use Rattle.node_keeper.specs.Plan.{Counted, IsFrom, is_due};

use crate::fault_plan::FaultPlan;
use slon_base::{Bytes, OutFault, Sink};
use std::alloc::{AllocError, Global};

/// An output that keeps what was written, and the pieces in which it came.
#[derive(Drop)]
pub struct MemSink {
    alloc: Global,
    plan: FaultPlan,
    takes: usize,
    pieces: Vec<Bytes>,
    written: Vec<u8>,
    ghost whole: { written.items ≡ concat pieces.items },
}

impl MemSink {
    ghost use Rattle.slon_base.specs.Outside.{written};
    ghost use Rattle.node_keeper.specs.SinkTold.{poured_of};

    /// An empty output. The writes with the numbers `fails` fail, counted from 1, and take the first `takes` bytes of
    /// their piece, or all of it where it has fewer.
    pub fn new(alloc: Global, fails: Vec<u64>, takes: usize) -> MemSink
        ensures told { poured_of result ≡ record { pieces = Some []; faults = 0 } }
        ensures plan { IsFrom fails.items result.plan }
        ensures takes { result.takes ≡ takes }
    {
        MemSink {
            alloc,
            plan: FaultPlan::new(fails),
            takes,
            pieces: Vec::new(alloc),
            written: Vec::new(alloc),
        }
    }

    /// What was written.
    pub fn written(&self) -> &[u8]
        ensures { written (poured_of self.now) ≡ Some result.now }
    {
        self.written.as_slice()
    }

    /// The pieces that were written, in order.
    pub fn pieces(&self) -> &[Bytes]
        ensures { (poured_of self.now).pieces ≡ Some result.now }
    {
        self.pieces.as_slice()
    }
}

/// Adds a piece to the pieces and to all that was written. Without memory nothing is changed.
#[tactic(auto, using(crate::proofs::Pieces::concat_more))]
fn add(
    alloc: Global,
    pieces: &mut Vec<Bytes>,
    written: &mut Vec<u8>,
    piece: &[u8],
) -> Result<(), AllocError>
    ensures pieces { OnOk result (pieces.new.items ≡ pieces.old.items ++ piece.now ∷ []) }
    ensures written { OnOk result (written.new.items ≡ written.old.items ++ piece.now) }
    ensures no_pieces { OnErr result (pieces.new.items ≡ pieces.old.items) }
    ensures not_written { OnErr result (written.new.items ≡ written.old.items) }
    ensures whole { written.old.items ≡ concat pieces.old.items → written.new.items ≡ concat pieces.new.items }
{
    let kept = Bytes::from_slice(alloc, piece)?;
    let len = written.len();
    written.extend_from_slice(piece)?;
    if pieces.push(kept).is_err() {
        written.truncate(len);
        return Err(AllocError);
    }
    Ok(())
}

impl Sink for MemSink {
    ghost use Rattle.node_keeper.specs.SinkTold.{poured_of};

    ghost poured = { poured_of };

    fn write(&mut self, piece: &[u8]) -> Result<(), OutFault>
        ensures writes { Writes piece.now (poured_of self.old) (poured_of self.new) result }
        ensures fails { is_due self.old.plan.fails.items self.old.plan.calls ≡ true → is_err result ≡ true }
        ensures plan { Counted self.old.plan self.new.plan }
        ensures limit { self.new.takes ≡ self.old.takes }
        ensures takes { result ≡ Err OutFault.Failed →
            self.new.pieces.items ≡ self.old.pieces.items ++ take self.old.takes piece.now ∷ [] }
    {
        if self.plan.strikes() {
            let taken = piece.len().min(self.takes);
            add(
                self.alloc,
                &mut self.pieces,
                &mut self.written,
                &piece[..taken],
            )?;
            return Err(OutFault::Failed);
        }
        add(self.alloc, &mut self.pieces, &mut self.written, piece)?;
        Ok(())
    }

    fn faults(&self) -> u64 {
        self.plan.faults
    }
}
