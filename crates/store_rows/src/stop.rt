// Why work on a store stops.
use slon_base::KeepFault;
use std::alloc::AllocError;
use thiserror::Error;

/// Why work on a store stopped.
#[derive(Clone, Copy, Debug, Drop, Error, PartialEq, Eq)]
pub enum Stop {
    /// The store failed.
    #[error("the store failed")]
    Failed,
    /// There was no memory.
    #[error("out of memory")]
    NoMemory,
    /// A row of this space is not in its form.
    #[error("a row of space {space} is not in its form")]
    BadRow { space: u8 },
    /// A number above the limit would be stored in this space.
    #[error("a number is too big for space {space}")]
    TooBig { space: u8 },
}

impl From<KeepFault> for Stop {
    ghost use Rattle.store_rows.specs.Stops.{StopOf};

    ghost from_gives = { StopOf };

    fn from(fault: KeepFault) -> Self {
        match fault {
            KeepFault::Failed => Stop::Failed,
            KeepFault::NoMemory => Stop::NoMemory,
        }
    }
}

impl From<AllocError> for Stop {
    ghost use Rattle.std.specs.Prelude.{◌≡◌};
    ghost use Rattle.store_rows.specs.declared.stop.Stop.TheVariants.{NoMemory};

    ghost from_gives = { λ _ e. e ≡ NoMemory };

    fn from(_: AllocError) -> Self {
        Stop::NoMemory
    }
}
