// The printed form of a reply.
ghost use Rattle.std.specs.Prelude.{◌≡◌, ◌++◌, List, ℕ, IfOk, OnOk, string_bytes, codes};
ghost use Rattle.slon_model.specs.declared.reply.Answer.TheVariants.{Applied, Listed, Status};
ghost use Rattle.slon_model.specs.declared.reply.Refusal.TheVariants.{Behind, Fault};
ghost use Rattle.slon_model.specs.Printed.{joined, row_text, rows_text, progress_text, kept_text, kind_text};
ghost use Rattle.slon_model.specs.Printed.{answer_text, refusal_text, reply_text, reply_line};
ghost use Rattle.std.specs.Fmt.{decimal};
ghost use Rattle.session_text.specs.Joining.{behind_commas};
ghost use Rattle.session_text.specs.Shapes.{shape_text};

use crate::shapes::{Shape, answer_shape, refusal_shape};
use slon_base::{Text, TextList};
use slon_model::{Answer, EventKind, KeptList, ProgressList, Refusal, Reply, TableRows};
use std::alloc::{AllocError, Global};

/// For how many bytes a line has room before it grows. Most replies are shorter.
const REPLY_ROOM: usize = 64;

/// Adds each value behind a comma.
fn push_behind_commas(line: &mut String, values: &[Text]) -> Result<(), AllocError>
    ensures { OnOk result (string_bytes line.new ≡ string_bytes line.old ++ behind_commas values.now) }
{
    for value in values {
        line.push_str(",")?;
        line.push_str(value.as_str())?;
    }
    Ok(())
}

/// Adds the values joined by commas.
fn push_joined(line: &mut String, values: &[Text]) -> Result<(), AllocError>
    ensures { OnOk result (string_bytes line.new ≡ string_bytes line.old ++ joined values.now) }
{
    match values.split_first() {
        None => Ok(()),
        Some((first, rest)) => {
            line.push_str(first.as_str())?;
            push_behind_commas(line, rest)
        }
    }
}

/// Adds each row: its key and its values.
fn push_rows(line: &mut String, rows: &[(Text, TextList)]) -> Result<(), AllocError>
    ensures { OnOk result (string_bytes line.new ≡ string_bytes line.old ++ rows_text rows.now) }
{
    for (key, values) in rows {
        line.push_str(" ")?;
        line.push_str(key.as_str())?;
        line.push_str("=")?;
        push_joined(line, values.as_slice())?;
    }
    Ok(())
}

/// Adds how far the node is in each stream.
fn push_progress(line: &mut String, progress: &[(u32, u64)]) -> Result<(), AllocError>
    ensures { OnOk result (string_bytes line.new ≡ string_bytes line.old ++ progress_text progress.now) }
{
    for (node, number) in progress {
        write!(line, " progress {node} {number}")?;
    }
    Ok(())
}

/// Adds each set of which progress is kept.
fn push_kept(line: &mut String, kept: &[(u32, u64, Text)]) -> Result<(), AllocError>
    ensures { OnOk result (string_bytes line.new ≡ string_bytes line.old ++ kept_text kept.now) }
{
    for (set, era, snapshot) in kept {
        write!(line, " set {set} era {era} at ")?;
        line.push_str(snapshot.as_str())?;
    }
    Ok(())
}

/// The word of a kind of events.
fn kind_word(kind: EventKind) -> &'static str
    ensures { result.now ≡ kind_text kind }
{
    match kind {
        EventKind::Sync => "SYNC",
        EventKind::StoreNode => "STORE_NODE",
        EventKind::DropNode => "DROP_NODE",
        EventKind::StorePath => "STORE_PATH",
        EventKind::DropPath => "DROP_PATH",
        EventKind::StoreSet => "STORE_SET",
        EventKind::DropSet => "DROP_SET",
        EventKind::SetAddTable => "SET_ADD_TABLE",
        EventKind::SubscribeSet => "SUBSCRIBE_SET",
        EventKind::EnableSubscription => "ENABLE_SUBSCRIPTION",
        EventKind::UnsubscribeSet => "UNSUBSCRIBE_SET",
        EventKind::MoveSet => "MOVE_SET",
        EventKind::AcceptSet => "ACCEPT_SET",
        EventKind::FailoverSet => "FAILOVER_SET",
    }
}

/// Adds words, and a number behind them.
fn push_number(line: &mut String, front: &str, number: u64) -> Result<(), AllocError>
    ensures { OnOk result (string_bytes line.new ≡ string_bytes line.old ++ (front.now ++ decimal number)) }
{
    write!(line, "{front}{number}")
}

/// Adds words, and a name or a text behind them.
fn push_named(line: &mut String, front: &str, name: &Text) -> Result<(), AllocError>
    ensures { OnOk result (string_bytes line.new ≡ string_bytes line.old ++ (front.now ++ name.now)) }
{
    line.push_str(front)?;
    line.push_str(name.as_str())
}

/// Adds words and two numbers, with words between these.
fn push_numbers(
    line: &mut String,
    front: &str,
    number: u64,
    between: &str,
    other: u64,
) -> Result<(), AllocError>
    ensures { OnOk result
        (string_bytes line.new
        ≡ string_bytes line.old ++ (front.now ++ decimal number ++ between.now ++ decimal other)) }
{
    write!(line, "{front}{number}{between}{other}")
}

/// Adds that the store of a database failed, and its count of faults.
fn push_fault(line: &mut String, database: &Text, count: u64) -> Result<(), AllocError>
    ensures { OnOk result (string_bytes line.new ≡ string_bytes line.old ++ refusal_text (Fault database.now count)) }
{
    push_named(line, "no 10 fault ", database)?;
    push_number(line, " ", count)
}

/// Adds that a provider is behind.
fn push_behind(
    line: &mut String,
    provider: u32,
    progress: u64,
    number: u64,
) -> Result<(), AllocError>
    ensures { OnOk result
        (string_bytes line.new ≡ string_bytes line.old ++ refusal_text (Behind provider progress number)) }
{
    write!(line, "no 63 behind {provider} {progress} {number}")
}

/// Adds which event was applied, and how many rows came with it.
fn push_applied(
    line: &mut String,
    kind: EventKind,
    number: u64,
    rows: u64,
) -> Result<(), AllocError>
    ensures { OnOk result (string_bytes line.new ≡ string_bytes line.old ++ answer_text (Applied kind number rows)) }
{
    line.push_str("ok ")?;
    line.push_str(kind_word(kind))?;
    write!(line, " {number} rows {rows}")
}

/// Adds how many rows there are, and each of them.
fn push_listed(line: &mut String, rows: &TableRows) -> Result<(), AllocError>
    ensures { OnOk result (string_bytes line.new ≡ string_bytes line.old ++ answer_text (Listed rows.now)) }
{
    push_number(line, "ok rows ", rows.len() as u64)?;
    push_rows(line, rows.as_slice())
}

/// Adds a node, the status of its logs, and what it keeps.
fn push_status(
    line: &mut String,
    node: u32,
    log: u8,
    progress: &ProgressList,
    kept: &KeptList,
) -> Result<(), AllocError>
    ensures { OnOk result
        (string_bytes line.new ≡ string_bytes line.old ++ answer_text (Status node log progress.now kept.now)) }
{
    write!(line, "ok node {node} log {log}")?;
    push_progress(line, progress.as_slice())?;
    push_kept(line, kept.as_slice())
}

/// Adds a line of this shape.
fn push_shape(line: &mut String, shape: Shape<'_>) -> Result<(), AllocError>
    ensures { OnOk result (string_bytes line.new ≡ string_bytes line.old ++ shape_text shape.entry) }
{
    match shape {
        Shape::Words(front) => line.push_str(front),
        Shape::Number(front, number) => push_number(line, front, number),
        Shape::Id(front, id) => push_number(line, front, u64::from(id)),
        Shape::Byte(front, byte) => push_number(line, front, u64::from(byte)),
        Shape::Numbers(front, number, between, other) => {
            push_numbers(line, front, number, between, other)
        }
        Shape::Named(front, name) => push_named(line, front, name),
        Shape::Fault(database, count) => push_fault(line, database, count),
        Shape::Behind(provider, progress, number) => push_behind(line, provider, progress, number),
        Shape::Severed(node, other) => {
            push_numbers(line, "no 68 cut ", u64::from(node), " ", u64::from(other))
        }
        Shape::Emitted(node, number) => {
            push_numbers(line, "ok event ", u64::from(node), " ", number)
        }
        Shape::Applied(kind, number, rows) => push_applied(line, kind, number, rows),
        Shape::Rows(rows) => push_listed(line, rows),
        Shape::Status(node, log, progress, kept) => push_status(line, node, log, progress, kept),
    }
}

/// Adds what an accepted command answers.
fn push_answer(line: &mut String, answer: &Answer) -> Result<(), AllocError>
    ensures { OnOk result (string_bytes line.new ≡ string_bytes line.old ++ answer_text answer.now) }
{
    push_shape(line, answer_shape(answer))
}

/// Adds why a command was not accepted.
fn push_refusal(line: &mut String, refusal: &Refusal) -> Result<(), AllocError>
    ensures { OnOk result (string_bytes line.new ≡ string_bytes line.old ++ refusal_text refusal.now) }
{
    push_shape(line, refusal_shape(refusal))
}

/// Adds the line of a reply, without its newline.
fn push_reply(line: &mut String, reply: &Reply) -> Result<(), AllocError>
    ensures { OnOk result (string_bytes line.new ≡ string_bytes line.old ++ reply_text reply.now) }
{
    match reply {
        Reply::Accepted(answer) => push_answer(line, answer),
        Reply::Refused(refusal) => push_refusal(line, refusal),
        Reply::InDoubt { database, answer } => {
            let name = database.as_str();
            write!(line, "doubt {name} ")?;
            push_answer(line, answer)
        }
    }
}

/// The line of a reply, without its newline.
///
/// # Errors
///
/// `AllocError` where there is no memory.
pub fn print_reply(alloc: Global, reply: &Reply) -> Result<Text, AllocError>
    ensures { IfOk result (λ text. text ≡ reply_text reply.now) }
{
    let mut line = String::with_capacity(alloc, REPLY_ROOM)?;
    push_reply(&mut line, reply)?;
    Ok(Text::from_string(line))
}

/// The line of a reply, with its newline.
///
/// # Errors
///
/// `AllocError` where there is no memory.
pub fn print_line(alloc: Global, reply: &Reply) -> Result<Text, AllocError>
    ensures { IfOk result (λ text. text ≡ reply_line reply.now) }
{
    let mut line = String::with_capacity(alloc, REPLY_ROOM)?;
    push_reply(&mut line, reply)?;
    line.push_str("\n")?;
    Ok(Text::from_string(line))
}
