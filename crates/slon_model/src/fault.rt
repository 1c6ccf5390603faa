use slon_base::Halt;
use std::alloc::AllocError;
use thiserror::Error;

/// Why a call on one database did not do its work.
#[derive(Clone, Copy, Debug, Drop, Error, PartialEq, Eq)]
pub enum DbFault {
    /// 12: another open transaction, of this id, wrote the row.
    #[error("transaction {xid} wrote the row")]
    Locked { xid: u64 },
    /// 15: the store of a new database holds a row.
    #[error("the store is not empty")]
    NotEmpty,
    /// 16: the database is down.
    #[error("the database is down")]
    Down,
    /// 19: the database is up.
    #[error("the database is up")]
    IsUp,
    /// 50: there is a table of the name.
    #[error("there is such a table")]
    TableExists,
    /// 51: a transaction of the name is open.
    #[error("such a transaction is open")]
    NameUsed,
    /// 52: there is no table of the name.
    #[error("there is no such table")]
    NoTable,
    /// 53: no transaction of the name is open.
    #[error("no such transaction is open")]
    NoTransaction,
    /// 54: the table has a row with the key.
    #[error("there is a row with the key")]
    Duplicate,
    /// 55: the database subscribes to this set.
    #[error("it subscribes to set {set}")]
    NotOrigin { set: u32 },
    /// 56: this set of the table is locked.
    #[error("set {set} is locked")]
    SetLocked { set: u32 },
    /// 57: the values or columns do not fit a table with this number of columns.
    #[error("the table has {columns} columns")]
    BadWidth { columns: u64 },
    /// The step stopped at the store.
    #[error("{0}")]
    Halt(Halt),
}

impl From<AllocError> for DbFault {
    ghost use Rattle.std.specs.Prelude.{◌≡◌};
    ghost use Rattle.slon_base.specs.declared.fault.Halt.TheVariants.{NoMemory};
    ghost use Rattle.slon_model.specs.declared.fault.DbFault.TheVariants.{Halt};

    ghost from_gives = { λ _ e. e ≡ Halt NoMemory };

    fn from(_: AllocError) -> Self {
        DbFault::Halt(Halt::NoMemory)
    }
}
