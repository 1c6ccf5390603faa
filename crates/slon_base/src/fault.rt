// What can go wrong outside, and in rows.
use std::alloc::{AllocError, AllocFailed};
use thiserror::Error;

/// A file or the output did not do its work.
#[derive(Clone, Copy, Debug, Drop, Error, PartialEq, Eq)]
pub enum OutFault {
    /// The object failed, and counted it.
    #[error("the object failed")]
    Failed,
    /// There was no memory.
    #[error("out of memory")]
    NoMemory,
}

/// A store did not do its work.
#[derive(Clone, Copy, Debug, Drop, Error, PartialEq, Eq)]
pub enum KeepFault {
    /// The store failed, and counted it.
    #[error("the store failed")]
    Failed = 10,
    /// There was no memory.
    #[error("out of memory")]
    NoMemory = 11,
}

/// A part of a row is not there or not in its one form.
#[derive(Clone, Copy, Debug, Drop, Error, PartialEq, Eq)]
pub enum RowFault {
    /// Fewer bytes are left than the part needs.
    #[error("the row ends too early")]
    Short = 1,
    /// Bytes are left where the row has to end.
    #[error("bytes follow the row")]
    Trailing = 2,
    /// The part is there and not in its one form.
    #[error("a part is not canonical")]
    NotCanonical = 3,
    /// There was no memory for the part.
    #[error("out of memory")]
    NoMemory = 11,
}

/// Why a step over a store stopped.
#[derive(Clone, Copy, Debug, Drop, Error, PartialEq, Eq)]
pub enum Halt {
    /// The store failed; its count of faults.
    #[error("the store failed, {count} times by now")]
    Fault { count: u64 },
    /// The commit of the step's effect failed, so it stands or not.
    #[error("the commit is in doubt")]
    Doubt,
    /// A row of this space is not in its form.
    #[error("a row of space {space} is not in its form")]
    BadRow { space: u8 },
    /// A number above the limit would be stored in this space.
    #[error("a number is too big for space {space}")]
    TooBig { space: u8 },
    /// There was no memory.
    #[error("out of memory")]
    NoMemory,
}

impl KeepFault {
    ghost use Rattle.std.specs.Prelude.{◌≡◌};
    ghost use Rattle.slon_base.specs.Faults.{number_of_keep};

    /// Its number.
    pub fn number(self) -> u8
        ensures { result ≡ number_of_keep self }
    {
        self as u8
    }
}

impl RowFault {
    ghost use Rattle.std.specs.Prelude.{◌≡◌};
    ghost use Rattle.slon_base.specs.Faults.{number_of_row};

    /// Its number.
    pub fn number(self) -> u8
        ensures { result ≡ number_of_row self }
    {
        self as u8
    }
}

impl From<AllocError> for KeepFault {
    ghost use Rattle.std.specs.Prelude.{◌≡◌};
    ghost use Rattle.slon_base.specs.declared.fault.KeepFault.TheVariants.{NoMemory};

    ghost from_gives = { λ _ e. e ≡ NoMemory };

    fn from(_: AllocError) -> Self {
        KeepFault::NoMemory
    }
}

impl<T: Drop> From<AllocFailed<T>> for KeepFault {
    ghost use Rattle.std.specs.Prelude.{◌≡◌};
    ghost use Rattle.slon_base.specs.declared.fault.KeepFault.TheVariants.{NoMemory};

    ghost from_gives = { λ _ e. e ≡ NoMemory };

    fn from(_: AllocFailed<T>) -> Self {
        KeepFault::NoMemory
    }
}

impl From<AllocError> for OutFault {
    ghost use Rattle.std.specs.Prelude.{◌≡◌};
    ghost use Rattle.slon_base.specs.declared.fault.OutFault.TheVariants.{NoMemory};

    ghost from_gives = { λ _ e. e ≡ NoMemory };

    fn from(_: AllocError) -> Self {
        OutFault::NoMemory
    }
}

impl<T: Drop> From<AllocFailed<T>> for OutFault {
    ghost use Rattle.std.specs.Prelude.{◌≡◌};
    ghost use Rattle.slon_base.specs.declared.fault.OutFault.TheVariants.{NoMemory};

    ghost from_gives = { λ _ e. e ≡ NoMemory };

    fn from(_: AllocFailed<T>) -> Self {
        OutFault::NoMemory
    }
}

impl From<AllocError> for RowFault {
    ghost use Rattle.std.specs.Prelude.{◌≡◌};
    ghost use Rattle.slon_base.specs.declared.fault.RowFault.TheVariants.{NoMemory};

    ghost from_gives = { λ _ e. e ≡ NoMemory };

    fn from(_: AllocError) -> Self {
        RowFault::NoMemory
    }
}
