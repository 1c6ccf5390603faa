// Accepted writes as rows of the log.
use change_capture::{Action, Change, LogRow, action_of, log_row_of};
use slon_base::RowFault;
use std::alloc::Global;
use std::test::Fail;
use store_rows::read_alone;
use test_words::{expect, require};

/// The space of the first log.
const LOG: u8 = 15;

/// Tells what a write does.
fn tell_change(line: &mut String, change: &Change) -> Result<(), Fail> {
    match change {
        Change::Put { key, values } => {
            write!(line, " put {}", key.as_str())?;
            for value in values.as_slice() {
                write!(line, " {}", value.as_str())?;
            }
        }
        Change::Set { key, columns } => {
            write!(line, " set {}", key.as_str())?;
            for (number, value) in columns.as_slice() {
                write!(line, " {number}={}", value.as_str())?;
            }
        }
        Change::Remove { key } => write!(line, " remove {}", key.as_str())?,
    }
    Ok(())
}

/// Tells a write.
fn expect_action(alloc: Global, action: &Action, told: &str) -> Result<(), Fail> {
    let mut line = String::new(alloc);
    line.push_str(action.table.as_str())?;
    tell_change(&mut line, &action.change)?;
    expect("a row", line.as_str(), told)
}

/// Tells a row.
fn tell_row(alloc: Global, row: &LogRow) -> Result<String, Fail> {
    let mut line = String::new(alloc);
    write!(line, "{} {} {}", row.xid, row.table, row.columns)?;
    for texts in [&row.names, &row.arguments] {
        let texts = texts.texts(alloc)?;
        for text in texts.as_slice() {
            write!(line, " {}", text.as_str())?;
        }
    }
    Ok(line)
}

/// The write is logged as the row.
fn expect_row(alloc: Global, row: &LogRow, again: &LogRow) -> Result<(), Fail> {
    require(row.command == again.command, "the command")?;
    let wanted = tell_row(alloc, row)?;
    expect("a write", tell_row(alloc, again)?.as_str(), wanted.as_str())
}

/// The bytes of rows of the log, and the writes that they are.
const LOGGED: &[(&[u8], &str)] = &[
    (
        b"\0\0\0\0\0\0\0\x01\0\0\0\0\0\0\0\x01\0\0\0\x06public\0\0\0\x01tI\0\0\0\0\0\0\0\0\
          \0\0\0\x04\0\0\0\x011\0\0\0\x01p\0\0\0\x012\0\0\0\x011",
        "public.t put p 1",
    ),
    (
        b"\0\0\0\0\0\0\0\x07\0\0\0\0\0\0\0\x02\0\0\0\x06public\0\0\0\x03t_2I\0\0\0\0\0\0\0\
          \0\0\0\0\x02\0\0\0\x011\0\0\0\x01p",
        "public.t_2 put p",
    ),
    (
        b"\0\0\0\0\0\0\0\x07\0\0\0\0\0\0\0\x02\0\0\0\x01s\0\0\0\x01tU\0\0\0\0\0\0\0\x02\0\
          \0\0\x06\0\0\0\x012\0\0\0\x01a\0\0\0\x0212\0\0\0\x01b\0\0\0\x011\0\0\0\x01p",
        "s.t set p 2=a 12=b",
    ),
    (
        b"\0\0\0\0\0\0\0\x07\0\0\0\0\0\0\0\x02\0\0\0\x01s\0\0\0\x01tD\0\0\0\0\0\0\0\0\0\0\
          \0\x02\0\0\0\x011\0\0\0\x01p",
        "s.t remove p",
    ),
];

#[test]
fn writes_are_logged(rt: HostRuntime) -> Result<(), Fail> {
    for (bytes, told) in LOGGED {
        let row: LogRow = read_alone(rt.alloc(), LOG, bytes)?;
        let action = action_of(rt.alloc(), 1, &row)?;
        expect_action(rt.alloc(), &action, told)?;
        let again = log_row_of(rt.alloc(), row.xid, row.table, &action)?;
        expect_row(rt.alloc(), &row, &again)?;
    }
    Ok(())
}

/// Rows that no write is logged as.
const OTHER_ROWS: &[&[u8]] = &[
    b"\0\0\0\0\0\0\0\x01\0\0\0\0\0\0\0\x01\0\0\0\x06public\0\0\0\x01tI\0\0\0\0\0\0\0\
          \x01\0\0\0\x04\0\0\0\x011\0\0\0\x01p\0\0\0\x012\0\0\0\x011",
    b"\0\0\0\0\0\0\0\x01\0\0\0\0\0\0\0\x01\0\0\0\x06public\0\0\0\x01tI\0\0\0\0\0\0\0\0\
          \0\0\0\x03\0\0\0\x011\0\0\0\x01p\0\0\0\x012",
    b"\0\0\0\0\0\0\0\x01\0\0\0\0\0\0\0\x01\0\0\0\x06public\0\0\0\x01tI\0\0\0\0\0\0\0\0\
          \0\0\0\x04\0\0\0\x011\0\0\0\x01p\0\0\0\x013\0\0\0\x011",
    b"\0\0\0\0\0\0\0\x01\0\0\0\0\0\0\0\x01\0\0\0\x06public\0\0\0\x01tI\0\0\0\0\0\0\0\0\
          \0\0\0\0",
    b"\0\0\0\0\0\0\0\x01\0\0\0\0\0\0\0\x01\0\0\0\x06public\0\0\0\x01tU\0\0\0\0\0\0\0\
          \x01\0\0\0\x06\0\0\0\x012\0\0\0\x01a\0\0\0\x013\0\0\0\x01b\0\0\0\x011\0\0\0\x01p",
    b"\0\0\0\0\0\0\0\x01\0\0\0\0\0\0\0\x01\0\0\0\x06public\0\0\0\x01tU\0\0\0\0\0\0\0\
          \x01\0\0\0\x04\0\0\0\x0202\0\0\0\x01a\0\0\0\x011\0\0\0\x01p",
    b"\0\0\0\0\0\0\0\x01\0\0\0\0\0\0\0\x01\0\0\0\x06public\0\0\0\x01tU\0\0\0\0\0\0\0\
          \x01\0\0\0\x02\0\0\0\x012\0\0\0\x01a",
    b"\0\0\0\0\0\0\0\x01\0\0\0\0\0\0\0\x01\0\0\0\x06public\0\0\0\x01tD\0\0\0\0\0\0\0\0\
          \0\0\0\x04\0\0\0\x011\0\0\0\x01p\0\0\0\x012\0\0\0\x011",
    b"\0\0\0\0\0\0\0\x01\0\0\0\0\0\0\0\x01\0\0\0\x06public\0\0\0\x01tD\0\0\0\0\0\0\0\0\
          \0\0\0\x02\0\0\0\x012\0\0\0\x01p",
    b"\0\0\0\0\0\0\0\x01\0\0\0\0\0\0\0\x01\0\0\0\x06Public\0\0\0\x01tD\0\0\0\0\0\0\0\0\
          \0\0\0\x02\0\0\0\x011\0\0\0\x01p",
    b"\0\0\0\0\0\0\0\x01\0\0\0\0\0\0\0\x01\0\0\0\x06public\0\0\0\0D\0\0\0\0\0\0\0\0\0\
          \0\0\x02\0\0\0\x011\0\0\0\x01p",
];

#[test]
fn other_rows_are_no_writes(rt: HostRuntime) -> Result<(), Fail> {
    for bytes in OTHER_ROWS {
        let row: LogRow = read_alone(rt.alloc(), LOG, bytes)?;
        let read = action_of(rt.alloc(), 1, &row);
        require(matches!(read, Err(RowFault::NotCanonical)), "another row")?;
    }
    Ok(())
}
