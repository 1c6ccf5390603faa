// The standard output of the program.
use crate::fault_count::FaultCount;
use slon_base::{OutFault, Sink};
use std::io::{BufWriter, Write};

/// An output of the system. It tells nothing of what was written.
#[derive(Drop)]
pub struct RealSink<W: Write + Drop> {
    writer: W,
    faults: FaultCount,
}

impl<W: Write + Drop> RealSink<W> {
    ghost use Rattle.std.specs.Prelude.{◌≡◌, None};
    ghost use Rattle.slon_system.specs.Told.{untold_output};

    /// An output that writes on this writer.
    pub fn new(writer: W) -> RealSink<W>
        ensures { untold_output result.faults ≡ record { pieces = None; faults = 0 } }
    {
        RealSink {
            writer,
            faults: FaultCount::new(),
        }
    }
}

impl<W: Write + Drop> RealSink<BufWriter<W>> {
    ghost use Rattle.std.specs.Prelude.{◌≡◌, [], OnOk};
    ghost use Rattle.std.specs.Io.Buffered.{writer_buffer, writer_contents};
    ghost use Rattle.std.specs.Io.KnownBytes.{Keeps};
    ghost use Rattle.slon_base.specs.Outside.{Tells};
    ghost use Rattle.slon_system.specs.Faults.{faults_of};

    /// Hands on what the buffer holds back.
    ///
    /// # Errors
    ///
    /// `Failed` where the system's call failed, and `NoMemory`. What was not handed on is held back as before.
    pub fn flush(&mut self) -> Result<(), OutFault>
        ensures cause { Tells (faults_of self.old.faults) (faults_of self.new.faults) result }
        ensures all { OnOk result (writer_buffer self.new.writer ≡ []) }
        ensures keeps { Keeps (writer_contents W.contents self.old.writer)
            (writer_contents W.contents self.new.writer) }
    {
        match self.writer.flush() {
            Ok(()) => Ok(()),
            Err(error) => Err(self.faults.of(&error)),
        }
    }
}

impl<W: Write + Drop> Sink for RealSink<W> {
    ghost use Rattle.std.specs.Prelude.{OnOk};
    ghost use Rattle.std.specs.Io.KnownBytes.{Appends};
    ghost use Rattle.slon_base.specs.Outside.{Writes};
    ghost use Rattle.slon_system.specs.Told.{untold_output};

    ghost poured = { λ s. untold_output s.faults };

    fn write(&mut self, piece: &[u8]) -> Result<(), OutFault>
        ensures writes { Writes piece.now (untold_output self.old.faults) (untold_output self.new.faults) result }
        ensures written { OnOk result (Appends (W.contents self.old.writer) (W.contents self.new.writer) piece.now) }
    {
        match self.writer.write_all(piece) {
            Ok(()) => Ok(()),
            Err(error) => Err(self.faults.of(&error)),
        }
    }

    fn faults(&self) -> u64 {
        self.faults.count()
    }
}
