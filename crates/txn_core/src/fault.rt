// Why a lock or a snapshot is not given.
use std::alloc::AllocError;
use thiserror::Error;

/// Why a lock is not given.
#[derive(Clone, Copy, Debug, Drop, Error, PartialEq, Eq)]
pub enum LockFault {
    /// 12: this other transaction holds the lock of the row.
    #[error("the row is locked by transaction {xid}")]
    Locked { xid: u64 },
    /// There was no memory.
    #[error("out of memory")]
    NoMemory,
}

impl From<AllocError> for LockFault {
    ghost use Rattle.std.specs.Prelude.{◌≡◌};
    ghost use Rattle.txn_core.specs.declared.fault.LockFault.TheVariants.{NoMemory};

    ghost from_gives = { λ _ e. e ≡ NoMemory };

    fn from(_: AllocError) -> Self {
        LockFault::NoMemory
    }
}

/// Why a text is not read as a snapshot.
#[derive(Clone, Copy, Debug, Drop, Error, PartialEq, Eq)]
pub enum BadSnapshot {
    /// 20: the text is not the printed form of a snapshot.
    #[error("the text is not the printed form of a snapshot")]
    NotCanonical = 20,
    /// There was no memory.
    #[error("out of memory")]
    NoMemory = 11,
}

impl BadSnapshot {
    ghost use Rattle.std.specs.Prelude.{◌≡◌};
    ghost use Rattle.txn_core.specs.Faults.{number_of};

    /// Its number.
    pub fn number(self) -> u8
        ensures { result ≡ number_of self }
    {
        self as u8
    }
}

impl From<AllocError> for BadSnapshot {
    ghost use Rattle.std.specs.Prelude.{◌≡◌};
    ghost use Rattle.txn_core.specs.declared.fault.BadSnapshot.TheVariants.{NoMemory};

    ghost from_gives = { λ _ e. e ≡ NoMemory };

    fn from(_: AllocError) -> Self {
        BadSnapshot::NoMemory
    }
}
