// What is replied where a database did its work, and where it did not.
ghost use Rattle.std.specs.Prelude.{Ok, None, ◌≡◌, true, is_err, IfOk, unwrap_or, []};
ghost use Rattle.std.specs.Option.{option_map};
ghost use Rattle.slon_base.specs.declared.fault.Halt.TheVariants.{NoMemory as HaltsShort};
ghost use Rattle.slon_model.specs.World as world;
ghost use Rattle.slon_model.specs.World.{halt_in};
ghost use Rattle.app_store.specs.Serves.{is_memory};

use crate::short::NoMemory;
use slon_base::{Halt, Text};
use slon_model::{Answer, Answered, DbFault, Refusal, Reply};
use std::alloc::Global;

/// A copy of a word that a command names, and an empty text where it names none.
///
/// # Errors
///
/// `NoMemory` where there is none.
pub fn copied(alloc: Global, word: Option<&Text>) -> Result<Text, NoMemory>
    ensures { IfOk result (λ text. text ≡ unwrap_or (option_map (λ w. w.now) word.entry) []) }
{
    match word {
        Some(word) => Ok(word.copy(alloc)?),
        None => Ok(Text::from_str(alloc, "")?),
    }
}

/// The reply where the store of a database stopped.
///
/// # Errors
///
/// `NoMemory` where there is none, and where that stopped it.
pub fn halted(alloc: Global, database: &Text, halt: Halt) -> Result<Reply, NoMemory>
    ensures reply { IfOk result (λ reply. reply ≡ world.halted database.now halt) }
    ensures memory { halt ≡ HaltsShort → is_err result ≡ true }
{
    match halt {
        Halt::Fault { count } => {
            let database = database.copy(alloc)?;
            Ok(Reply::Refused(Refusal::Fault { database, count }))
        }
        Halt::BadRow { space } => Ok(Reply::Refused(Refusal::BadRow { space })),
        Halt::TooBig { space } => Ok(Reply::Refused(Refusal::TooBig { space })),
        Halt::Doubt => Ok(Reply::InDoubt {
            database: database.copy(alloc)?,
            answer: Answer::Done,
        }),
        Halt::NoMemory => Err(NoMemory),
    }
}

/// The reply to a command that names these words and whose database did not do its work.
///
/// # Errors
///
/// `NoMemory` where there is none, and where that stopped it.
pub fn refused(
    alloc: Global,
    database: &Text,
    transaction: Option<&Text>,
    table: Option<&Text>,
    fault: DbFault,
) -> Result<Reply, NoMemory>
    ensures reply { IfOk result (λ reply. reply ≡ world.refusal_of
        (record {
          database = database.now;
          transaction = option_map (λ w. w.now) transaction.entry;
          table = option_map (λ w. w.now) table.entry;
        }) fault) }
    ensures memory { is_memory (halt_in fault) ≡ true → is_err result ≡ true }
{
    let refusal = match fault {
        DbFault::Locked { xid } => Refusal::Locked { xid },
        DbFault::NotEmpty => Refusal::NotEmpty {
            database: database.copy(alloc)?,
        },
        DbFault::Down => Refusal::Down {
            database: database.copy(alloc)?,
        },
        DbFault::IsUp => Refusal::IsUp {
            database: database.copy(alloc)?,
        },
        DbFault::TableExists => Refusal::TableExists {
            table: copied(alloc, table)?,
        },
        DbFault::NameUsed => Refusal::NameUsed {
            name: copied(alloc, transaction)?,
        },
        DbFault::NoTable => Refusal::NoTable {
            table: copied(alloc, table)?,
        },
        DbFault::NoTransaction => Refusal::NoTransaction {
            transaction: copied(alloc, transaction)?,
        },
        DbFault::Duplicate => Refusal::Duplicate,
        DbFault::NotOrigin { set } => Refusal::NotOrigin { set },
        DbFault::SetLocked { set } => Refusal::SetLocked { set },
        DbFault::BadWidth { columns } => Refusal::BadWidth { columns },
        DbFault::Halt(halt) => return halted(alloc, database, halt),
    };
    Ok(Reply::Refused(refusal))
}

/// The reply to a command that a database accepted.
///
/// # Errors
///
/// `NoMemory` where there is none.
pub fn answered(alloc: Global, database: &Text, answered: Answered) -> Result<Reply, NoMemory>
    ensures { IfOk result (λ reply. reply ≡ world.reply_of
        (record { database = database.now; transaction = None; table = None }) (Ok answered)) }
{
    match answered {
        Answered::Sure(answer) => Ok(Reply::Accepted(answer)),
        Answered::InDoubt(answer) => {
            let database = database.copy(alloc)?;
            Ok(Reply::InDoubt { database, answer })
        }
    }
}

/// The reply to a statement on which a database did not do its work.
///
/// # Errors
///
/// `NoMemory` where there is none, and where that stopped it.
pub fn told(alloc: Global, database: &Text, fault: DbFault) -> Result<Reply, NoMemory>
    ensures reply { IfOk result (λ reply. reply ≡ world.refusal_of
        (record { database = database.now; transaction = None; table = None }) fault) }
    ensures memory { is_memory (halt_in fault) ≡ true → is_err result ≡ true }
{
    refused(alloc, database, None, None, fault)
}
