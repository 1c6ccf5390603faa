// The command that a line is.
ghost use Rattle.std.specs.Prelude.{◌≡◌, map, Some, None, Ok, Err};
ghost use Rattle.std.specs.Str.{bytes_eq, is_utf8};
ghost use Rattle.slon_model.specs.Lines as lines;
ghost use Rattle.session_text.specs.Commands.{Gives, IsSaid, Reads};

use crate::crash::{crash_of, up_of};
use crate::line_reader::LINE_LIMIT;
use crate::words::{Misread, name_of, number_of, table_name_of, words_of};
use crate::writes::{delete_of, insert_of, update_of};
use slon_model::{Command, Delivery};
use std::alloc::Global;
use thiserror::Error;

/// The greatest number of columns of a table.
const COLUMN_LIMIT: u32 = 16;

/// The greatest id of a node.
const GREATEST_ID: u32 = 2_147_483_647;

/// Why a line was not read.
#[derive(Clone, Copy, Debug, Drop, Error, PartialEq, Eq)]
pub enum LineFault {
    /// The line of this number, from 1 on, is no command and no comment.
    #[error("line {number} is bad")]
    BadLine { number: u64 },
    /// There was no memory.
    #[error("out of memory")]
    NoMemory,
}

/// `database DB`
fn database_of(alloc: Global, words: &[&[u8]]) -> Result<Command, Misread>
    ensures { Gives (lines.database_of (map (λ word. word.now) words.now)) result }
{
    let [name] = words else {
        return Err(Misread::BadForm);
    };
    Ok(Command::Database {
        name: name_of(alloc, name)?,
    })
}

/// `table DB TABLE COLS`
fn table_of(alloc: Global, words: &[&[u8]]) -> Result<Command, Misread>
    ensures { Gives (lines.table_of (map (λ word. word.now) words.now)) result }
{
    let [database, table, columns] = words else {
        return Err(Misread::BadForm);
    };
    Ok(Command::Table {
        database: name_of(alloc, database)?,
        table: table_name_of(alloc, table)?,
        columns: number_of(columns, 1, COLUMN_LIMIT)?,
    })
}

/// `begin DB NAME`
fn begin_of(alloc: Global, words: &[&[u8]]) -> Result<Command, Misread>
    ensures { Gives (lines.begin_of (map (λ word. word.now) words.now)) result }
{
    let [database, transaction] = words else {
        return Err(Misread::BadForm);
    };
    Ok(Command::Begin {
        database: name_of(alloc, database)?,
        transaction: name_of(alloc, transaction)?,
    })
}

/// `commit DB NAME`
fn commit_of(alloc: Global, words: &[&[u8]]) -> Result<Command, Misread>
    ensures { Gives (lines.commit_of (map (λ word. word.now) words.now)) result }
{
    let [database, transaction] = words else {
        return Err(Misread::BadForm);
    };
    Ok(Command::Commit {
        database: name_of(alloc, database)?,
        transaction: name_of(alloc, transaction)?,
    })
}

/// `abort DB NAME`
fn abort_of(alloc: Global, words: &[&[u8]]) -> Result<Command, Misread>
    ensures { Gives (lines.abort_of (map (λ word. word.now) words.now)) result }
{
    let [database, transaction] = words else {
        return Err(Misread::BadForm);
    };
    Ok(Command::Abort {
        database: name_of(alloc, database)?,
        transaction: name_of(alloc, transaction)?,
    })
}

/// `rows DB TABLE`
fn rows_of(alloc: Global, words: &[&[u8]]) -> Result<Command, Misread>
    ensures { Gives (lines.rows_of (map (λ word. word.now) words.now)) result }
{
    let [database, table] = words else {
        return Err(Misread::BadForm);
    };
    Ok(Command::Rows {
        database: name_of(alloc, database)?,
        table: table_name_of(alloc, table)?,
    })
}

/// `status DB`
fn status_of(alloc: Global, words: &[&[u8]]) -> Result<Command, Misread>
    ensures { Gives (lines.status_of (map (λ word. word.now) words.now)) result }
{
    let [database] = words else {
        return Err(Misread::BadForm);
    };
    Ok(Command::Status {
        database: name_of(alloc, database)?,
    })
}

/// `step SCRIPT`
fn step_of(alloc: Global, words: &[&[u8]]) -> Result<Command, Misread>
    ensures { Gives (lines.step_of (map (λ word. word.now) words.now)) result }
{
    let [script] = words else {
        return Err(Misread::BadForm);
    };
    Ok(Command::Step {
        script: name_of(alloc, script)?,
    })
}

/// `kill SCRIPT`
fn kill_of(alloc: Global, words: &[&[u8]]) -> Result<Command, Misread>
    ensures { Gives (lines.kill_of (map (λ word. word.now) words.now)) result }
{
    let [script] = words else {
        return Err(Misread::BadForm);
    };
    Ok(Command::Kill {
        script: name_of(alloc, script)?,
    })
}

/// `start N`
fn start_of(words: &[&[u8]]) -> Result<Command, Misread>
    ensures { Gives (lines.start_of (map (λ word. word.now) words.now)) result }
{
    let [node] = words else {
        return Err(Misread::BadForm);
    };
    Ok(Command::Start {
        node: number_of(node, 1, GREATEST_ID)?,
    })
}

/// `stop N`
fn stop_of(words: &[&[u8]]) -> Result<Command, Misread>
    ensures { Gives (lines.stop_of (map (λ word. word.now) words.now)) result }
{
    let [node] = words else {
        return Err(Misread::BadForm);
    };
    Ok(Command::Stop {
        node: number_of(node, 1, GREATEST_ID)?,
    })
}

/// The id of a node that the word spells.
fn node_of(word: &[u8]) -> Result<u32, Misread>
    ensures { Gives (lines.node_in word.now) result }
{
    number_of(word, 1, GREATEST_ID)
}

/// `cut N N`
fn cut_of(words: &[&[u8]]) -> Result<Command, Misread>
    ensures { Gives (lines.cut_of (map (λ word. word.now) words.now)) result }
{
    let [node, other] = words else {
        return Err(Misread::BadForm);
    };
    Ok(Command::Cut {
        node: node_of(node)?,
        other: node_of(other)?,
    })
}

/// `join N N`
fn join_of(words: &[&[u8]]) -> Result<Command, Misread>
    ensures { Gives (lines.join_of (map (λ word. word.now) words.now)) result }
{
    let [node, other] = words else {
        return Err(Misread::BadForm);
    };
    Ok(Command::Join {
        node: node_of(node)?,
        other: node_of(other)?,
    })
}

/// `sync N`
fn sync_of(words: &[&[u8]]) -> Result<Command, Misread>
    ensures { Gives (lines.sync_of (map (λ word. word.now) words.now)) result }
{
    let [node] = words else {
        return Err(Misread::BadForm);
    };
    Ok(Command::Sync {
        node: node_of(node)?,
    })
}

/// Whether a word is this verb.
fn is_verb(word: &[u8], verb: &str) -> bool
    ensures { result ≡ bytes_eq word.now verb.now }
{
    word == verb.as_bytes()
}

/// How a poll is delivered: `lost` or `again`.
fn delivery_of(word: &[u8]) -> Result<Delivery, Misread>
    ensures { Gives (lines.delivery_of word.now) result }
{
    if is_verb(word, "lost") {
        Ok(Delivery::Lost)
    } else if is_verb(word, "again") {
        Ok(Delivery::Again)
    } else {
        Err(Misread::BadForm)
    }
}

/// A poll, from its two nodes.
fn listen_with(node: &[u8], server: &[u8], delivery: Delivery) -> Result<Command, Misread>
    ensures { Gives (lines.listen_with node.now server.now (Some delivery)) result }
{
    Ok(Command::Listen {
        node: node_of(node)?,
        server: node_of(server)?,
        delivery,
    })
}

/// `listen N N`, `listen N N lost` and `listen N N again`
fn listen_of(words: &[&[u8]]) -> Result<Command, Misread>
    ensures { Gives (lines.listen_of (map (λ word. word.now) words.now)) result }
{
    match words {
        [node, server] => listen_with(node, server, Delivery::Once),
        [node, server, word] => listen_with(node, server, delivery_of(word)?),
        _ => Err(Misread::BadForm),
    }
}

/// `fetch N N`
fn fetch_of(words: &[&[u8]]) -> Result<Command, Misread>
    ensures { Gives (lines.fetch_of (map (λ word. word.now) words.now)) result }
{
    let [node, origin] = words else {
        return Err(Misread::BadForm);
    };
    Ok(Command::Fetch {
        node: node_of(node)?,
        origin: node_of(origin)?,
    })
}

/// `work N N`
fn work_of(words: &[&[u8]]) -> Result<Command, Misread>
    ensures { Gives (lines.work_of (map (λ word. word.now) words.now)) result }
{
    let [node, origin] = words else {
        return Err(Misread::BadForm);
    };
    Ok(Command::Work {
        node: node_of(node)?,
        origin: node_of(origin)?,
    })
}

/// The command that the first word names, of the words behind it.
fn command_of(alloc: Global, verb: &[u8], rest: &[&[u8]]) -> Result<Command, Misread>
    ensures { Gives (lines.command_of verb.now (map (λ word. word.now) rest.now)) result }
{
    if is_verb(verb, "database") {
        database_of(alloc, rest)
    } else if is_verb(verb, "table") {
        table_of(alloc, rest)
    } else if is_verb(verb, "begin") {
        begin_of(alloc, rest)
    } else if is_verb(verb, "insert") {
        insert_of(alloc, rest)
    } else if is_verb(verb, "update") {
        update_of(alloc, rest)
    } else if is_verb(verb, "delete") {
        delete_of(alloc, rest)
    } else if is_verb(verb, "commit") {
        commit_of(alloc, rest)
    } else if is_verb(verb, "abort") {
        abort_of(alloc, rest)
    } else if is_verb(verb, "rows") {
        rows_of(alloc, rest)
    } else if is_verb(verb, "status") {
        status_of(alloc, rest)
    } else if is_verb(verb, "crash") {
        crash_of(alloc, rest)
    } else if is_verb(verb, "up") {
        up_of(alloc, rest)
    } else if is_verb(verb, "step") {
        step_of(alloc, rest)
    } else if is_verb(verb, "kill") {
        kill_of(alloc, rest)
    } else if is_verb(verb, "start") {
        start_of(rest)
    } else if is_verb(verb, "stop") {
        stop_of(rest)
    } else if is_verb(verb, "cut") {
        cut_of(rest)
    } else if is_verb(verb, "join") {
        join_of(rest)
    } else if is_verb(verb, "sync") {
        sync_of(rest)
    } else if is_verb(verb, "listen") {
        listen_of(rest)
    } else if is_verb(verb, "fetch") {
        fetch_of(rest)
    } else if is_verb(verb, "work") {
        work_of(rest)
    } else {
        Err(Misread::BadForm)
    }
}

/// Whether the word begins a comment.
fn is_comment(word: &[u8]) -> bool
    ensures { result ≡ lines.is_comment word.now }
{
    match word.first() {
        None => false,
        Some(first) => *first == b'#',
    }
}

/// What the words of a line say: a command, or nothing.
fn said_by_words(alloc: Global, words: &[&[u8]]) -> Result<Option<Command>, Misread>
    ensures { IsSaid (lines.meaning_of_words (map (λ word. word.now) words.now)) result }
{
    let Some((verb, rest)) = words.split_first() else {
        return Ok(None);
    };
    if is_comment(verb) {
        return Ok(None);
    }
    Ok(Some(command_of(alloc, verb, rest)?))
}

/// Whether the bytes of a line are a text.
pub fn is_text(line: &[u8]) -> bool
    ensures { result ≡ is_utf8 line.now }
{
    str::from_utf8(line).is_ok()
}

/// What a line says: a command, or nothing.
fn said(alloc: Global, line: &[u8]) -> Result<Option<Command>, Misread>
    ensures { IsSaid (lines.meaning line.now) result }
{
    if line.len() > LINE_LIMIT || !is_text(line) {
        return Err(Misread::BadForm);
    }
    let words = words_of(alloc, line)?;
    said_by_words(alloc, &words)
}

/// Reads the line of this number: the command that it says, or `None` where it says nothing, as an empty line and a
/// comment do.
///
/// # Errors
///
/// `BadLine` exactly where the line is no command and says something, `NoMemory` where there is none.
pub fn read_command(alloc: Global, line: &[u8], number: u64) -> Result<Option<Command>, LineFault>
    ensures { Reads number (lines.meaning line.now) result }
{
    match said(alloc, line) {
        Ok(command) => Ok(command),
        Err(Misread::BadForm) => Err(LineFault::BadLine { number }),
        Err(Misread::OutOfMemory) => Err(LineFault::NoMemory),
    }
}
