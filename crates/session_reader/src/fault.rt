// Why the reading of a session stopped.
use session_text::{LineFault, ReadStop};
use std::alloc::AllocError;
use thiserror::Error;

/// Why the reading of a session stopped.
#[derive(Clone, Copy, Debug, Drop, Error, PartialEq, Eq)]
pub enum ReadFault {
    /// The line of this number, from 1 on, is bad: it is no command and no comment, or it opens a script that is not
    /// closed, or it is a line of a script that is too long or no text.
    #[error("line {number} is bad")]
    BadLine { number: u64 },
    /// The files failed, and counted it.
    #[error("the files failed")]
    Failed,
    /// There was no memory.
    #[error("out of memory")]
    NoMemory,
    /// The session and the files that its scripts include have more than 16,777,216 bytes.
    #[error("the session is too long")]
    PastLimit,
}

impl From<AllocError> for ReadFault {
    ghost use Rattle.std.specs.Prelude.{◌≡◌};
    ghost use Rattle.session_reader.specs.declared.fault.ReadFault.TheVariants.{NoMemory};

    ghost from_gives = { λ _ e. e ≡ NoMemory };

    fn from(_: AllocError) -> Self {
        ReadFault::NoMemory
    }
}

impl From<LineFault> for ReadFault {
    ghost use Rattle.std.specs.Prelude.{◌≡◌};
    ghost use Rattle.session_reader.specs.Fetching.{fault_of};

    ghost from_gives = { λ fault e. e ≡ fault_of fault };

    fn from(fault: LineFault) -> Self {
        match fault {
            LineFault::BadLine { number } => ReadFault::BadLine { number },
            LineFault::NoMemory => ReadFault::NoMemory,
        }
    }
}

impl From<ReadStop> for ReadFault {
    ghost use Rattle.std.specs.Prelude.{◌≡◌};
    ghost use Rattle.session_reader.specs.Fetching.{stop_of};

    ghost from_gives = { λ stop e. e ≡ stop_of stop };

    fn from(stop: ReadStop) -> Self {
        match stop {
            ReadStop::Failed => ReadFault::Failed,
            ReadStop::NoMemory => ReadFault::NoMemory,
            ReadStop::PastLimit => ReadFault::PastLimit,
        }
    }
}
