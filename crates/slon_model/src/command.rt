ghost use Rattle.std.specs.Prelude.{◌≡◌};
ghost use Rattle.std.specs.Option.{option_map};
ghost use Rattle.slon_model.specs.Tasks.{subject_of, subject_name, transaction_named, table_named};

use crate::{ColumnList, Reading};
use slon_base::{Text, TextList};

/// How a database is to crash.
#[derive(Clone, Copy, Debug, Drop, PartialEq, Eq)]
pub enum Crash {
    /// At once.
    Now,
    /// At the call of its store after this number of further calls. A commit that fails there stands if `keep` is set.
    After { calls: u32, keep: bool },
    /// At the next commit of its store, which stands if `keep` is set.
    AtCommit { keep: bool },
}

/// What becomes of what a poll brings.
#[derive(Clone, Copy, Debug, Drop, PartialEq, Eq)]
pub enum Delivery {
    /// It is delivered.
    Once,
    /// It is lost on the way.
    Lost,
    /// It is delivered twice.
    Again,
}

/// A line of a session that asks for something.
#[derive(Drop)]
pub enum Command {
    /// Makes a database of this name.
    Database {
        name: Text,
    },
    /// Makes a table with this number of columns in a database. The first column is the key.
    Table {
        database: Text,
        table: Text,
        columns: u32,
    },
    /// Opens a transaction of this name.
    Begin {
        database: Text,
        transaction: Text,
    },
    /// Writes a row. The first value is its key.
    Insert {
        database: Text,
        transaction: Text,
        table: Text,
        values: TextList,
    },
    /// Gives columns of the row with this key new values.
    Update {
        database: Text,
        transaction: Text,
        table: Text,
        key: Text,
        columns: ColumnList,
    },
    /// Takes the row with this key away.
    Delete {
        database: Text,
        transaction: Text,
        table: Text,
        key: Text,
    },
    /// Makes what the transaction wrote stand.
    Commit {
        database: Text,
        transaction: Text,
    },
    /// Forgets what the transaction wrote.
    Abort {
        database: Text,
        transaction: Text,
    },
    /// Asks for the rows of a table.
    Rows {
        database: Text,
        table: Text,
    },
    /// Asks which node the database is, and how far it is.
    Status {
        database: Text,
    },
    /// Takes a database down, or prepares that.
    Crash {
        database: Text,
        crash: Crash,
    },
    /// Brings a database up again.
    Up {
        database: Text,
    },
    /// Begins a script of this name, if its text was read as one.
    Slonik {
        script: Text,
        reading: Reading,
    },
    /// Runs the next statement of a script.
    Step {
        script: Text,
    },
    /// Ends a script.
    Kill {
        script: Text,
    },
    /// Turns the slon of a node on.
    Start {
        /// The id of the node.
        node: u32,
    },
    /// Turns the slon of a node off, which forgets what it was handed and what it fetched.
    Stop {
        /// The id of the node.
        node: u32,
    },
    /// Cuts two nodes off from one another.
    Cut {
        node: u32,
        other: u32,
    },
    /// Joins two nodes that were cut off from one another.
    Join {
        node: u32,
        other: u32,
    },
    /// Has a node emit a SYNC.
    Sync {
        node: u32,
    },
    /// Has a node poll a server.
    Listen {
        node: u32,
        server: u32,
        delivery: Delivery,
    },
    /// Has a node read what comes with the next event of another one, and keep it.
    Fetch {
        node: u32,
        origin: u32,
    },
    /// Has a node apply the next event of another one.
    Work {
        node: u32,
        origin: u32,
    },
}

impl Command {
    /// The database or the script that it names, if it names one.
    pub fn name(&self) -> Option<&Text>
        ensures { option_map (λ word. word.now) result ≡ subject_name (subject_of self.now) }
    {
        match self {
            Command::Start { .. }
            | Command::Stop { .. }
            | Command::Cut { .. }
            | Command::Join { .. }
            | Command::Sync { .. }
            | Command::Listen { .. }
            | Command::Fetch { .. }
            | Command::Work { .. } => None,
            Command::Database { name } => Some(name),
            Command::Slonik { script, .. } | Command::Step { script } | Command::Kill { script } =>
                Some(script),
            Command::Table { database, .. }
            | Command::Begin { database, .. }
            | Command::Insert { database, .. }
            | Command::Update { database, .. }
            | Command::Delete { database, .. }
            | Command::Commit { database, .. }
            | Command::Abort { database, .. }
            | Command::Rows { database, .. }
            | Command::Status { database }
            | Command::Crash { database, .. }
            | Command::Up { database } => Some(database),
        }
    }

    /// The transaction that it names, if it names one.
    pub fn transaction(&self) -> Option<&Text>
        ensures { option_map (λ word. word.now) result ≡ transaction_named (subject_of self.now) }
    {
        match self {
            Command::Begin { transaction, .. }
            | Command::Insert { transaction, .. }
            | Command::Update { transaction, .. }
            | Command::Delete { transaction, .. }
            | Command::Commit { transaction, .. }
            | Command::Abort { transaction, .. } => Some(transaction),
            _ => None,
        }
    }

    /// The table that it names, if it names one.
    pub fn table(&self) -> Option<&Text>
        ensures { option_map (λ word. word.now) result ≡ table_named (subject_of self.now) }
    {
        match self {
            Command::Table { table, .. }
            | Command::Insert { table, .. }
            | Command::Update { table, .. }
            | Command::Delete { table, .. }
            | Command::Rows { table, .. } => Some(table),
            _ => None,
        }
    }
}
