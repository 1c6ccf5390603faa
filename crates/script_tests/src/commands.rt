// Lines and what they say.
use session_text::{LineFault, read_command};
use slon_base::{Text, TextList};
use slon_model::{ColumnList, Command, Crash, Delivery};
use std::alloc::{AllocError, Global};
use std::test::Fail;
use test_words::{expect, keeping};

/// Adds a space and the word.
fn push_word(line: &mut String, word: &Text) -> Result<(), AllocError> {
    write!(line, " {}", word.as_str())
}

/// The word that a command begins with.
fn verb(command: &Command) -> &'static str {
    match command {
        Command::Database { .. } => "database",
        Command::Table { .. } => "table",
        Command::Begin { .. } => "begin",
        Command::Insert { .. } => "insert",
        Command::Update { .. } => "update",
        Command::Delete { .. } => "delete",
        Command::Commit { .. } => "commit",
        Command::Abort { .. } => "abort",
        Command::Rows { .. } => "rows",
        Command::Status { .. } => "status",
        Command::Crash { .. } => "crash",
        Command::Up { .. } => "up",
        Command::Slonik { .. } => "slonik",
        Command::Step { .. } => "step",
        Command::Kill { .. } => "kill",
        Command::Start { .. } => "start",
        Command::Stop { .. } => "stop",
        Command::Cut { .. } => "cut",
        Command::Join { .. } => "join",
        Command::Sync { .. } => "sync",
        Command::Listen { .. } => "listen",
        Command::Fetch { .. } => "fetch",
        Command::Work { .. } => "work",
    }
}

/// Adds each of these words.
fn push_words(line: &mut String, words: &TextList) -> Result<(), AllocError> {
    for word in words.as_slice() {
        push_word(line, word)?;
    }
    Ok(())
}

/// Adds the columns and their values.
fn push_columns(line: &mut String, columns: &ColumnList) -> Result<(), AllocError> {
    for (column, value) in columns.as_slice() {
        write!(line, " {column}={}", value.as_str())?;
    }
    Ok(())
}

/// Adds which calls fail.
fn push_crash(line: &mut String, crash: &Crash) -> Result<(), AllocError> {
    match crash {
        Crash::Now => Ok(()),
        Crash::After { calls, keep } => write!(line, " after {calls} {}", keeping(*keep)),
        Crash::AtCommit { keep } => write!(line, " commit {}", keeping(*keep)),
    }
}

/// Adds what becomes of what a poll brings.
fn push_delivery(line: &mut String, delivery: Delivery) -> Result<(), AllocError> {
    match delivery {
        Delivery::Once => Ok(()),
        Delivery::Lost => line.push_str(" lost"),
        Delivery::Again => line.push_str(" again"),
    }
}

/// Adds what a command says behind its names.
fn push_rest(line: &mut String, command: &Command) -> Result<(), AllocError> {
    match command {
        Command::Table { columns, .. } => write!(line, " {columns}"),
        Command::Insert { values, .. } => push_words(line, values),
        Command::Update { key, columns, .. } => {
            push_word(line, key)?;
            push_columns(line, columns)
        }
        Command::Delete { key, .. } => push_word(line, key),
        Command::Crash { crash, .. } => push_crash(line, crash),
        Command::Start { node } | Command::Stop { node } | Command::Sync { node } => {
            write!(line, " {node}")
        }
        Command::Cut { node, other }
        | Command::Join { node, other }
        | Command::Fetch {
            node,
            origin: other,
        }
        | Command::Work {
            node,
            origin: other,
        } => write!(line, " {node} {other}"),
        Command::Listen {
            node,
            server,
            delivery,
        } => {
            write!(line, " {node} {server}")?;
            push_delivery(line, *delivery)
        }
        _ => Ok(()),
    }
}

/// Adds a word, if there is one.
fn push_some(line: &mut String, word: Option<&Text>) -> Result<(), AllocError> {
    match word {
        Some(word) => push_word(line, word),
        None => Ok(()),
    }
}

/// Writes a command in its one spelling.
fn spell(line: &mut String, command: &Command) -> Result<(), AllocError> {
    line.push_str(verb(command))?;
    push_some(line, command.name())?;
    push_some(line, command.transaction())?;
    push_some(line, command.table())?;
    push_rest(line, command)
}

/// Writes what a line says, in its one spelling; nothing, or that it is bad.
fn tell(line: &mut String, read: &Result<Option<Command>, LineFault>) -> Result<(), AllocError> {
    match read {
        Ok(Some(command)) => spell(line, command),
        Ok(None) => Ok(()),
        Err(fault) => write!(line, "{fault}"),
    }
}

/// Writes what the line of number 7 says.
fn tell_line(seen: &mut String, alloc: Global, line: &[u8]) -> Result<(), AllocError> {
    let read = read_command(alloc, line, 7);
    let told = tell(seen, &read);
    drop(read);
    told
}

/// The line of number 7, which is called so, says this.
fn expect_reading(alloc: Global, of: &str, line: &[u8], wanted: &str) -> Result<(), Fail> {
    let mut seen = String::new(alloc);
    tell_line(&mut seen, alloc, line)?;
    expect(of, seen.as_str(), wanted)
}

/// Each of the lines is bad.
fn expect_bad(alloc: Global, lines: &[&str]) -> Result<(), Fail> {
    for line in lines {
        expect_reading(alloc, line, line.as_bytes(), "line 7 is bad")?;
    }
    Ok(())
}

/// Lines, each with the command that it is read as.
const COMMANDS: &[(&str, &str)] = &[
    ("", ""),
    ("   ", ""),
    ("# anything at all", ""),
    ("  #x", ""),
    ("database a", "database a"),
    ("  database   A-b.c_9  ", "database A-b.c_9"),
    ("table a s.t 1", "table a s.t 1"),
    ("table a _s1.t_2 16", "table a _s1.t_2 16"),
    ("begin a t", "begin a t"),
    ("insert a t s.t k", "insert a t s.t k"),
    (
        "insert a t s.t k v+w /x:y @z",
        "insert a t s.t k v+w /x:y @z",
    ),
    ("update a x s.t k 2=5 3=6", "update a x s.t k 2=5 3=6"),
    ("update a x s.t k 1=a/b 99=@", "update a x s.t k 1=a/b 99=@"),
    ("delete a x s.t k", "delete a x s.t k"),
    ("commit a t", "commit a t"),
    ("abort a x", "abort a x"),
    ("rows a s.t", "rows a s.t"),
    ("status a", "status a"),
    ("crash a", "crash a"),
    ("crash a after 0 lose", "crash a after 0 lose"),
    ("crash a after 1000000 keep", "crash a after 1000000 keep"),
    ("crash a commit keep", "crash a commit keep"),
    ("crash a commit lose", "crash a commit lose"),
    ("up a", "up a"),
    ("step s-1", "step s-1"),
    ("kill s", "kill s"),
    ("start 1", "start 1"),
    ("stop 2147483647", "stop 2147483647"),
    ("cut 1 2", "cut 1 2"),
    ("join 2147483647 2147483647", "join 2147483647 2147483647"),
    ("sync 7", "sync 7"),
    ("listen 1 2", "listen 1 2"),
    ("listen 2147483647 1 lost", "listen 2147483647 1 lost"),
    (" listen  2 2  again ", "listen 2 2 again"),
    ("fetch 2147483647 1", "fetch 2147483647 1"),
    ("work 2147483647 1", "work 2147483647 1"),
    (
        "database abcdefghijklmnopqrstuvwxyz01234",
        "database abcdefghijklmnopqrstuvwxyz01234",
    ),
];

#[test]
fn commands_are_read(rt: HostRuntime) -> Result<(), Fail> {
    for (line, said) in COMMANDS {
        expect_reading(rt.alloc(), line, line.as_bytes(), said)?;
    }
    Ok(())
}

/// Lines that are no commands.
const BAD_LINES: &[&str] = &[
    "Database a",
    "databases a",
    "database",
    "database a b",
    "database\ta",
    "database a#",
    "database abcdefghijklmnopqrstuvwxyz012345",
    "table a s.t",
    "table a s.t 0",
    "table a s.t 17",
    "table a s.t 01",
    "table a s.t 1x",
    "table a s.t 99999999999999999999999",
    "table a st 1",
    "table a s.t.u 1",
    "table a s. 1",
    "table a .t 1",
    "table a 1s.t 1",
    "table a S.t 1",
    "table a s.abcdefghijklmnopqrstuvwxyz_01234x 1",
    "step",
    "kill a b",
    "start",
    "start 0",
    "start 01",
    "start 2147483648",
    "start 99999999999999999999999",
    "stop a",
    "stop 1 2",
    "cut 1",
    "cut 1 0",
    "join 1 2 3",
    "join 2147483648 1",
    "sync",
    "sync 01",
    "listen 1",
    "listen 1 2 3",
    "listen 0 1",
    "listen 1 2147483648",
    "listen 1 2 lost again",
    "listen 1 2 Lost",
    "listen lost 1 2",
    "fetch 1",
    "fetch 1 2 3",
    "fetch 1 0",
    "fetch 1 2147483648",
    "work 1",
    "work 1 2 3",
    "work 1 0",
    "work 1 2147483648",
    "slonik s <<",
    "begin a",
    "begin a t u",
    "insert a t s.t",
    "insert a t s.t k,v",
    "insert a t s.t k=v",
    "commit a é",
    "rows a s.t x",
    "x # y",
    "insert a t s.t vvvvvvvvvvvvvvvvvvvvvvvvvvvvvvvvvvvvvvvvvvvvvvvvvvvvvvvvvvvvvvvvv",
];

#[test]
fn bad_lines_are_refused(rt: HostRuntime) -> Result<(), Fail> {
    expect_bad(rt.alloc(), BAD_LINES)
}

/// Writes, crashes and other commands with too few words, too many or wrong ones.
const BAD_WRITES: &[&str] = &[
    "update a x s.t k",
    "update a x s.t k 3=5 2=6",
    "update a x s.t k 2=5 2=6",
    "update a x s.t k 1=",
    "update a x s.t k =1",
    "update a x s.t k 0=1",
    "update a x s.t k 100=1",
    "update a x s.t k 2=5=6",
    "update a x s.t k 2",
    "update a x s.t 2=5",
    "delete a x s.t",
    "delete a x s.t k 1",
    "abort a",
    "status",
    "status a b",
    "crash",
    "crash a now",
    "crash a commit",
    "crash a commit kept",
    "crash a after 1 ",
    "crash a after 1000001 keep",
    "crash a after 01 keep",
    "crash a commit 1 keep",
    "crash a after 1 keep keep",
    "up",
    "up a b",
];

#[test]
fn bad_writes_and_crashes_are_refused(rt: HostRuntime) -> Result<(), Fail> {
    expect_bad(rt.alloc(), BAD_WRITES)
}

/// Numbers of spaces, and what a line of them says.
const LONG_LINES: &[(usize, &str)] = &[(8192, ""), (8193, "line 7 is bad")];

#[test]
fn long_lines_are_refused(rt: HostRuntime) -> Result<(), Fail> {
    for (len, said) in LONG_LINES {
        let line = vec![in rt.alloc(); b' '; *len]?;
        expect_reading(rt.alloc(), "a long line", line.as_slice(), said)?;
    }
    expect_reading(rt.alloc(), "no text", b"# \xff", "line 7 is bad")
}
