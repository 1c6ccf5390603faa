// Sessions that hold scripts, over files in memory.
ghost use Rattle.std.specs.Prelude.{◌<◌, length};
ghost use Rattle.session_text.specs.Handing.{Stays};

use crate::telling::tell_refusal;
use node_keeper::MemFiles;
use session_reader::{ReadFault, SessionReader};
use slon_base::{Bytes, Files, Text};
use slon_model::{Command, Reading};
use std::alloc::AllocError;
use std::test::Fail;
use test_words::expect;

/// Writes what a text was read as: how many statements, or what is wrong with it.
fn tell_reading(seen: &mut String, reading: &Reading) -> Result<(), Fail> {
    match reading {
        Reading::Read(script) => Ok(write!(seen, "({})", script.statements.len())?),
        Reading::Wrong(refusal) => tell_refusal(seen, refusal),
    }
}

/// Writes the name in a command, and of a script what it was read as.
fn tell_command(seen: &mut String, command: &Command) -> Result<(), Fail> {
    match command.name() {
        Some(name) => write!(seen, "[{}]", name.as_str())?,
        None => seen.push_str("[]")?,
    }
    match command {
        Command::Slonik { reading, .. } => tell_reading(seen, reading),
        _ => Ok(()),
    }
}

/// Writes what came next, `.` at the end of the session, and answers whether it goes on.
fn tell(seen: &mut String, next: &Result<Option<Command>, ReadFault>) -> Result<bool, Fail> {
    match next {
        Ok(found) => match found {
            None => {
                seen.push('.')?;
                Ok(false)
            }
            Some(command) => {
                tell_command(seen, command)?;
                Ok(true)
            }
        },
        Err(fault) => {
            write!(seen, "{fault}")?;
            Ok(false)
        }
    }
}

/// Writes the next command of the session that was entered, or how it ends, and answers whether it goes on.
fn tell_next<F: Files>(
    rt: &HostRuntime,
    reader: &mut SessionReader,
    files: &mut F,
    seen: &mut String,
) -> Result<bool, Fail>
    requires { 0 < length (F.filed files.old).stack }
    ensures { Stays (F.filed files.old) (F.filed files.new) }
{
    let next = reader.next_command(rt.alloc(), files);
    let goes_on = tell(seen, &next);
    drop(next);
    goes_on
}

/// The commands of the session that was entered, and how the reading ended.
fn commands_of<F: Files>(rt: &HostRuntime, files: &mut F) -> Result<String, Fail>
    requires { 0 < length (F.filed files.old).stack }
{
    let mut reader = SessionReader::new(rt.alloc())?;
    let mut seen = String::new(rt.alloc());
    for _ in 0..3000 {
        if !tell_next(rt, &mut reader, files, &mut seen)? {
            break;
        }
    }
    Ok(seen)
}

/// A file with its name.
fn file_of(rt: &HostRuntime, path: &str, text: &str) -> Result<(Text, Bytes), AllocError> {
    let name = Text::from_str(rt.alloc(), path)?;
    Ok((name, Bytes::from_slice(rt.alloc(), text.as_bytes())?))
}

/// Files with their names.
fn named(rt: &HostRuntime, files: &[(&str, &str)]) -> Result<Vec<(Text, Bytes)>, AllocError> {
    let mut all = Vec::new(rt.alloc());
    for (path, text) in files {
        all.push(file_of(rt, path, text)?)?;
    }
    Ok(all)
}

/// These files in memory, of which the call of this number fails.
fn files_of(rt: &HostRuntime, files: &[(&str, &str)], fails: u64) -> Result<MemFiles, AllocError> {
    let names = named(rt, files)?;
    Ok(MemFiles::new(rt.alloc(), names, vec![in rt.alloc(); fails]?))
}

/// The commands of the session of this name.
fn commands_at<F: Files>(rt: &HostRuntime, files: &mut F, name: &str) -> Result<String, Fail> {
    if !files.enter(name.as_bytes())? {
        return Err(Fail::new("there is no such file"));
    }
    commands_of(rt, files)
}

/// The first of these files is read as this.
fn expect_session(
    rt: &HostRuntime,
    files: &[(&str, &str)],
    fails: u64,
    wanted: &str,
) -> Result<(), Fail> {
    let Some((name, text)) = files.first() else {
        return Err(Fail::new("no session"));
    };
    let mut served = files_of(rt, files, fails)?;
    let read = commands_at(rt, &mut served, name);
    drop(served);
    let seen = read?;
    expect(text, seen.as_str(), wanted)
}

/// Sessions, and what they are read as.
const SESSIONS: &[(&str, &str)] = &[
    ("", "."),
    ("database a\n# note\n\nup a", "[a][a]."),
    ("up a\nnothing\n", "[a]line 2 is bad"),
    (
        "slonik s <<\ncluster name = c;\necho 'x';\n>>\nstep s\n",
        "[s](1)[s].",
    ),
    ("  slonik  s  <<\n>>", "[s]84."),
    ("slonik s <<\n\n  $\n>>\nup a\n", "[s]80 2[a]."),
    ("up a\nslonik s <<\ncluster name = c;\n", "[a]line 2 is bad"),
    ("slonik s/t <<\n>>\n", "line 1 is bad"),
    ("slonik s <<<\n>>\n", "line 1 is bad"),
    ("slonik s <<\n >>\n>>\n", "[s]80 1."),
];

#[test]
fn sessions_are_read_command_by_command(rt: HostRuntime) -> Result<(), Fail> {
    for (text, wanted) in SESSIONS {
        expect_session(&rt, &[("s", text)], 0, wanted)?;
    }
    Ok(())
}

/// A script that includes a file.
const INCLUDING: &str = "slonik s <<\ncluster name = c;\ninclude <f>;\n>>\nup a\n";

#[test]
fn included_files_are_read_where_a_script_is_closed(rt: HostRuntime) -> Result<(), Fail> {
    let files = [("s", INCLUDING), ("f", "echo 'x';echo 'y';")];
    expect_session(&rt, &files, 0, "[s](2)[a].")?;
    expect_session(&rt, &files, 4, "the files failed")?;
    expect_session(&rt, &[("s", INCLUDING)], 0, "[s]89 f[a].")
}
