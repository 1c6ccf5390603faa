// Accepted writes applied to the rows of their table.
use change_capture::{Action, Change, LogCommand, apply};
use slon_base::{ByteMap, Text, TextList};
use slon_model::ColumnList;
use std::alloc::Global;
use std::test::Fail;
use test_words::expect;

/// What a write does, to which key, with which columns, and the values of all rows behind it.
type Applied = (
    LogCommand,
    &'static str,
    &'static [(u32, &'static str)],
    &'static str,
);

/// The values of these columns.
fn values_of(alloc: Global, columns: &[(u32, &str)]) -> Result<TextList, Fail> {
    let mut values = TextList::new(alloc);
    for (_, value) in columns {
        values.push(Text::from_str(alloc, value)?)?;
    }
    Ok(values)
}

/// These columns.
fn columns_of(alloc: Global, columns: &[(u32, &str)]) -> Result<ColumnList, Fail> {
    let mut list = ColumnList::new(alloc);
    for (number, value) in columns {
        list.push(*number, Text::from_str(alloc, value)?)?;
    }
    Ok(list)
}

/// The change that the write makes.
fn change_of(alloc: Global, applied: &Applied) -> Result<Change, Fail> {
    let (command, key, columns, _) = applied;
    let key = Text::from_str(alloc, key)?;
    match command {
        LogCommand::Insert => Ok(Change::Put {
            key,
            values: values_of(alloc, columns)?,
        }),
        LogCommand::Update => Ok(Change::Set {
            key,
            columns: columns_of(alloc, columns)?,
        }),
        LogCommand::Delete => Ok(Change::Remove { key }),
    }
}

/// The write.
fn write_of(alloc: Global, applied: &Applied) -> Result<Action, Fail> {
    Ok(Action {
        number: 1,
        table: Text::from_str(alloc, "public.t")?,
        change: change_of(alloc, applied)?,
    })
}

/// Tells the values of the rows in the order of their keys.
fn tell_rows(alloc: Global, rows: &ByteMap<TextList>) -> Result<String, Fail> {
    let mut line = String::new(alloc);
    for (_, row) in rows.iter() {
        for value in row.as_slice() {
            line.push_str(value.as_str())?;
        }
        line.push_str(";")?;
    }
    Ok(line)
}

/// Applies the write.
fn apply_to(alloc: Global, rows: &mut ByteMap<TextList>, applied: &Applied) -> Result<(), Fail> {
    let action = write_of(alloc, applied)?;
    Ok(apply(alloc, rows, &action)?)
}

/// Writes one after another on a table, which is empty at first.
const APPLIED: &[Applied] = &[
    (LogCommand::Insert, "p", &[(2, "a"), (3, "b")], "ab;"),
    (LogCommand::Insert, "k", &[(2, "c"), (3, "d")], "cd;ab;"),
    (LogCommand::Update, "p", &[(3, "e"), (3, "f")], "cd;ae;"),
    (LogCommand::Update, "q", &[(2, "g")], "cd;ae;"),
    (LogCommand::Insert, "k", &[(2, "h"), (3, "i")], "hi;ae;"),
    (LogCommand::Delete, "q", &[], "hi;ae;"),
    (LogCommand::Delete, "k", &[], "ae;"),
];

#[test]
fn writes_are_applied(rt: HostRuntime) -> Result<(), Fail> {
    let mut rows = ByteMap::new(rt.alloc());
    for applied in APPLIED {
        apply_to(rt.alloc(), &mut rows, applied)?;
        expect("rows", tell_rows(rt.alloc(), &rows)?.as_str(), applied.3)?;
    }
    Ok(())
}
