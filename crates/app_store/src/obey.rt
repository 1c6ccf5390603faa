// One command, by its task.
ghost use Rattle.std.specs.Prelude.{◌≡◌, ℕ, Ok, Err, if◌then◌else◌};
ghost use Rattle.slon_model.specs.Tasks.{ToTell, subject_of};
ghost use Rattle.slon_model.specs.Spoken.{IsSpoken};
ghost use Rattle.app_store.specs.Base.{base_of};
ghost use Rattle.app_store.specs.Serves.{Serves, ServesOn, answered, settled};
ghost use Rattle.app_store.specs.Answers as answers;
ghost use Rattle.app_store.specs.Fuses.{ArmsOn};
ghost use Rattle.app_store.specs.Handed.{Hands, HandsOn};

use crate::database::Database;
use crate::falls::fall;
use crate::look::read_status;
use node_keeper::Keeper;
use slon_base::Halt;
use slon_model::{Answer, Answered, Command, DbFault, KeptList, ProgressList, TableRows};

/// The answer to a transaction that was opened.
fn opened(method: Result<u64, DbFault>) -> Result<Answered, DbFault>
    ensures { result ≡ answered answers.opened method }
{
    match method {
        Ok(xid) => Ok(Answered::Sure(Answer::Opened { xid })),
        Err(fault) => Err(fault),
    }
}

/// The answer to a new row.
fn inserted(method: Result<u64, DbFault>) -> Result<Answered, DbFault>
    ensures { result ≡ answered answers.acted method }
{
    match method {
        Ok(number) => Ok(Answered::Sure(Answer::Acted { number })),
        Err(fault) => Err(fault),
    }
}

/// The answer to a row that is changed or taken away, if it is there.
fn changed(method: Result<Option<u64>, DbFault>) -> Result<Answered, DbFault>
    ensures { result ≡ answered answers.acted_or_not method }
{
    match method {
        Ok(acted) => match acted {
            None => Ok(Answered::Sure(Answer::Unchanged)),
            Some(number) => Ok(Answered::Sure(Answer::Acted { number })),
        },
        Err(fault) => Err(fault),
    }
}

/// The answer to a commit, which may be in doubt.
fn committed(method: Result<(u64, bool), DbFault>) -> Result<Answered, DbFault>
    ensures { result ≡ answered answers.committed method }
{
    match method {
        Ok((actions, doubt)) => {
            if doubt {
                return Ok(Answered::InDoubt(Answer::Committed { actions }));
            }
            Ok(Answered::Sure(Answer::Committed { actions }))
        }
        Err(fault) => Err(fault),
    }
}

/// The answer to a list of rows.
fn listed(method: Result<TableRows, DbFault>) -> Result<Answered, DbFault>
    ensures { result ≡ answered answers.listed method }
{
    match method {
        Ok(rows) => Ok(Answered::Sure(Answer::Listed { rows })),
        Err(fault) => Err(fault),
    }
}

/// The answer to what gives nothing back.
fn done(method: Result<(), DbFault>) -> Result<Answered, DbFault>
    ensures { result ≡ settled method }
{
    match method {
        Ok(()) => Ok(Answered::Sure(Answer::Done)),
        Err(fault) => match fault {
            DbFault::Halt(Halt::Doubt) => Ok(Answered::InDoubt(Answer::Done)),
            other => Err(other),
        },
    }
}

impl<K: Keeper> Database<K> {
    /// Runs a command that a line can say, and answers as the rules say for a place that fits the database.
    ///
    /// # Errors
    ///
    /// `Down` where the database is down and the command is not `up`, and for what is not asked of one database; else
    /// what the method of the command refuses, and `Fault`, `BadRow`, `TooBig` and `NoMemory` where it stopped.
    pub fn obey(&mut self, command: &Command) -> Result<Answered, DbFault>
        requires { IsSpoken command.now }
        ensures serves { ServesOn (subject_of command.now) (base_of K.kept self.old) result (base_of K.kept self.new) }
        ensures arms { ArmsOn K.kept (subject_of command.now) self.old self.new }
        ensures hands { HandsOn (subject_of command.now) (base_of K.kept self.old) result }
    {
        match command {
            Command::Table { table, columns, .. } => done(self.table(table, *columns)),
            Command::Begin { transaction, .. } => opened(self.begin(transaction)),
            Command::Insert {
                transaction,
                table,
                values,
                ..
            } => inserted(self.insert(transaction, table, values)),
            Command::Update {
                transaction,
                table,
                key,
                columns,
                ..
            } => changed(self.update(transaction, table, key, columns)),
            Command::Delete {
                transaction,
                table,
                key,
                ..
            } => changed(self.delete(transaction, table, key)),
            Command::Commit { transaction, .. } => committed(self.commit(transaction)),
            Command::Abort { transaction, .. } => done(self.abort(transaction)),
            Command::Rows { table, .. } => listed(self.rows(table)),
            Command::Status { .. } => self.status(),
            Command::Crash { crash, .. } => done(self.crash(*crash)),
            Command::Up { .. } => self.up(),
            _ => Err(DbFault::Down),
        }
    }

    /// The node that the database is, with its log, and how far it is: 0 and nothing where it is none.
    fn status(&mut self) -> Result<Answered, DbFault>
        ensures serves { Serves ToTell (base_of K.kept self.old) result (base_of K.kept self.new) }
        ensures hands { Hands ToTell (base_of K.kept self.old) result }
    {
        if !self.state.up {
            return Err(DbFault::Down);
        }
        match self.state.node.id() {
            None => Ok(Answered::Sure(Answer::Status {
                node: 0,
                log: 0,
                progress: ProgressList::new(self.alloc),
                kept: KeptList::new(self.alloc),
            })),
            Some(own) => match read_status(self.alloc, &mut self.keeper, own) {
                Ok(answer) => Ok(Answered::Sure(answer)),
                Err(stop) => Err(fall(self.alloc, &mut self.state, &self.keeper, stop)),
            },
        }
    }
}
