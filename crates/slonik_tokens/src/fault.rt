// Why a script is not read.
use slon_base::OutFault;
use slonik_script::ScriptRefusal;
use std::alloc::{AllocError, AllocFailed};
use thiserror::Error;

/// Why a script is not read.
#[derive(Debug, Drop, Error)]
pub enum ParseFault {
    /// The script is wrong.
    #[error("the script is refused")]
    Refused(ScriptRefusal),
    /// The files failed, and counted it.
    #[error("the files failed")]
    ReadFault,
    /// The included files hold more bytes than were left.
    #[error("the included files are too long")]
    TooLong,
    /// There was no memory.
    #[error("out of memory")]
    NoMemory,
}

impl From<AllocError> for ParseFault {
    ghost use Rattle.std.specs.Prelude.{◌≡◌};
    ghost use Rattle.slonik_tokens.specs.declared.fault.ParseFault.TheVariants.{NoMemory};

    ghost from_gives = { λ _ e. e ≡ NoMemory };

    fn from(_: AllocError) -> Self {
        ParseFault::NoMemory
    }
}

impl<T: Drop> From<AllocFailed<T>> for ParseFault {
    ghost use Rattle.std.specs.Prelude.{◌≡◌};
    ghost use Rattle.slonik_tokens.specs.declared.fault.ParseFault.TheVariants.{NoMemory};

    ghost from_gives = { λ _ e. e ≡ NoMemory };

    fn from(_: AllocFailed<T>) -> Self {
        ParseFault::NoMemory
    }
}

impl From<OutFault> for ParseFault {
    ghost use Rattle.std.specs.Prelude.{◌≡◌};
    ghost use Rattle.slonik_tokens.specs.Faults.{fault_of};

    ghost from_gives = { λ out e. e ≡ fault_of out };

    fn from(out: OutFault) -> Self {
        match out {
            OutFault::Failed => ParseFault::ReadFault,
            OutFault::NoMemory => ParseFault::NoMemory,
        }
    }
}
