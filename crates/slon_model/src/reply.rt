ghost use Rattle.std.specs.Prelude.{◌≡◌, ◌++◌, [], ◌∷◌, length, OnOk, OnErr};

use crate::{KeptList, ProgressList};
use slon_base::{Text, TextList};
use slonik_script::ScriptRefusal;
use std::alloc::{AllocError, Global};
use std::marker::Model;

/// The rows of a table: each key with the values after it, ascending by the bytes of the keys.
/// Contracts see them as a list of pairs.
#[derive(Drop)]
pub struct TableRows {
    inner: Vec<(Text, TextList)>,
}

impl Model for TableRows {
    ghost use Rattle.std.specs.Prelude.{List, ℕ};

    ghost Value = { List (List ℕ × List (List ℕ)) };

    ghost view = { λ r. r.inner.items };
}

impl TableRows {
    /// No rows.
    pub fn new(alloc: Global) -> TableRows
        ensures { result ≡ [] }
    {
        TableRows {
            inner: Vec::new(alloc),
        }
    }

    /// These rows, with no copy.
    pub fn from_vec(rows: Vec<(Text, TextList)>) -> TableRows
        ensures { result ≡ rows.items }
    {
        TableRows { inner: rows }
    }

    /// The rows in order.
    pub fn as_slice(&self) -> &[(Text, TextList)]
        ensures { result.now ≡ self.now }
    {
        self.inner.as_slice()
    }

    /// How many rows there are.
    pub fn len(&self) -> usize
        ensures { result ≡ length self.now }
    {
        self.inner.len()
    }

    /// Adds a row at the end, or leaves the rows as they were.
    pub fn push(&mut self, key: Text, values: TextList) -> Result<(), AllocError>
        ensures ok { OnOk result (self.new ≡ self.old ++ (key, values) ∷ []) }
        ensures err { OnErr result (self.new ≡ self.old) }
    {
        self.inner.push((key, values))?;
        Ok(())
    }
}

/// The kind of an event.
#[derive(Clone, Copy, Debug, Drop, PartialEq, Eq)]
pub enum EventKind {
    Sync,
    StoreNode,
    DropNode,
    StorePath,
    DropPath,
    StoreSet,
    DropSet,
    SetAddTable,
    SubscribeSet,
    EnableSubscription,
    UnsubscribeSet,
    MoveSet,
    AcceptSet,
    FailoverSet,
}

/// What an accepted command answers.
#[derive(Drop)]
pub enum Answer {
    /// It was done.
    Done,
    /// The id of the transaction that was opened.
    Opened {
        xid: u64,
    },
    /// The number of the action that was taken.
    Acted {
        number: u64,
    },
    /// There was no row to change.
    Unchanged,
    /// How many actions the commit made stand.
    Committed {
        actions: u64,
    },
    /// The rows of a table.
    Listed {
        rows: TableRows,
    },
    /// The database is up, and the commit that was in doubt stands.
    Kept,
    /// The database is up, and the commit that was in doubt does not stand.
    Lost,
    /// The node that the database is, 0 for none, the status of its logs, how far it is in the stream of each live
    /// node, and the sets of which it keeps progress.
    Status {
        node: u32,
        log: u8,
        progress: ProgressList,
        kept: KeptList,
    },
    /// How many statements a script has.
    Statements {
        count: u64,
    },
    /// The node that emitted, and the number of its last event.
    Emitted {
        node: u32,
        number: u64,
    },
    /// A text of the script.
    Echoed {
        text: Text,
    },
    /// The script ended with this status.
    Ended {
        status: u8,
    },
    /// How many events and how many confirmations were delivered.
    Heard {
        events: u64,
        confirms: u64,
    },
    /// How many of both were lost on the way.
    LostOnTheWay {
        events: u64,
        confirms: u64,
    },
    /// The kind and the number of the event that was applied, and how many rows came with it.
    Applied {
        kind: EventKind,
        number: u64,
        rows: u64,
    },
    /// The number of the event for which rows were fetched, and how many.
    Fetched {
        number: u64,
        rows: u64,
    },
}

/// What one database answers to a command that it accepted.
#[derive(Drop)]
pub enum Answered {
    /// The command was done.
    Sure(Answer),
    /// Its commit failed, so it stands or not; what it answers if it stands.
    InDoubt(Answer),
}

/// Why a command was not accepted. The number of each refusal is printed before its name.
#[derive(Drop)]
pub enum Refusal {
    /// 10: the store of this database failed; its count of faults.
    Fault {
        database: Text,
        count: u64,
    },
    /// 12: the open transaction of this id wrote the row.
    Locked {
        xid: u64,
    },
    /// 13: the session has as many databases as it may have.
    Full {
        limit: u32,
    },
    /// 14: a row of this space is not in its form.
    BadRow {
        space: u8,
    },
    /// 15: the store of a new database holds a row.
    NotEmpty {
        database: Text,
    },
    /// 16: the database is down.
    Down {
        database: Text,
    },
    /// 17: the session has no database of the name.
    NoDatabase {
        database: Text,
    },
    /// 18: some node knows a node, a set or a table of this id.
    IdUsed {
        id: u32,
    },
    /// 19: the database is up.
    IsUp {
        database: Text,
    },
    /// 21: a number above the limit would be stored in this space.
    TooBig {
        space: u8,
    },
    /// 41: the database that was reached for this id is no node.
    NotInitialised {
        node: u32,
    },
    /// 42: the database that was reached for this id is another node, or one of another cluster.
    OtherNode {
        node: u32,
    },
    /// 43: the database is this node.
    AlreadyNode {
        node: u32,
    },
    /// 44: there is no node of this id.
    NoNode {
        node: u32,
    },
    /// 45: no NODE line has this id.
    NoConninfo {
        node: u32,
    },
    /// 46: this node receives the set; or another one receives the set from it, and it would not forward the set.
    HasReceivers {
        node: u32,
    },
    /// 47: there is no set of this id.
    NoSet {
        set: u32,
    },
    /// 50: there is a table of the name.
    TableExists {
        table: Text,
    },
    /// 51: the name is taken, of a database or of an open transaction.
    NameUsed {
        name: Text,
    },
    /// 52: there is no table of the name.
    NoTable {
        table: Text,
    },
    /// 53: no transaction of the name is open.
    NoTransaction {
        transaction: Text,
    },
    /// 54: the table has a row with the key.
    Duplicate,
    /// 55: the node is not the origin of this set.
    NotOrigin {
        set: u32,
    },
    /// 56: this set is locked.
    SetLocked {
        set: u32,
    },
    /// 57: the values or columns do not fit a table with this number of columns.
    BadWidth {
        columns: u64,
    },
    /// 58: some node knows a table of this name in a set.
    TableUsed {
        table: Text,
    },
    /// 59: the provider has this set from the receiver, directly or by way of others.
    Loop {
        set: u32,
    },
    /// 60: there is nothing to do.
    Nothing,
    /// 61: the node hears of no origin at this server.
    NotListed {
        server: u32,
    },
    /// 62: the server does not know this node.
    NotKnown {
        node: u32,
    },
    /// 63: this provider is as far as this in the stream of the origin, and the event has this number.
    Behind {
        provider: u32,
        progress: u64,
        number: u64,
    },
    /// 66: the open transaction of this id wrote a table of the set.
    Busy {
        xid: u64,
    },
    /// 67: the slon of this node is off.
    Off {
        node: u32,
    },
    /// 68: these nodes are cut off from one another.
    Severed {
        node: u32,
        other: u32,
    },
    /// 72: this node does not receive the set, or has not confirmed the last event on its subscription.
    NotActive {
        node: u32,
    },
    /// 73: this node does not forward the set.
    NotForwarding {
        node: u32,
    },
    /// 75: the node has no path to this server.
    NoPath {
        node: u32,
    },
    /// 76: the node is the origin, a provider or a receiver of this set.
    StillUsed {
        set: u32,
    },
    /// 78: this node is named twice.
    SameNode {
        node: u32,
    },
    /// 80 to 89, and 96: what is wrong with a script.
    Script(ScriptRefusal),
    /// 93: a script of this name runs.
    ScriptUsed {
        name: Text,
    },
    /// 94: no script of this name runs.
    NoScript {
        name: Text,
    },
    /// 98: a statement that begins with this word, in lower case, cannot be run yet.
    NotBuilt {
        word: Text,
    },
}

/// The reply to a command.
#[derive(Drop)]
pub enum Reply {
    /// The command was accepted.
    Accepted(Answer),
    /// The command was refused.
    Refused(Refusal),
    /// The commit of this database failed, so it stands or not; what it answers if it stands.
    InDoubt { database: Text, answer: Answer },
}
