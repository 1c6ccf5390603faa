// The texts of a reading that replies repeat.
ghost use Rattle.std.specs.Prelude.{◌≡◌, true};
ghost use Rattle.slon_model.specs.Forms as form;
ghost use Rattle.slon_model.specs.Spoken as spoken;
ghost use Rattle.slon_model.specs.Spoken.{IsReading};
ghost use Rattle.session_reader.specs.Texts as texts;

use slon_base::Text;
use slon_model::Reading;
use slonik_script::{Command, NodeLines, ScriptRefusal, Statement, StatementList};

/// Whether the text is on one line.
fn is_line(text: &Text) -> bool
    ensures { result ≡ form.is_line text.now }
{
    text.as_slice().iter().all(|byte| *byte != b'\n')
}

/// Whether the texts of a command that replies repeat are each on one line.
fn is_order(order: &Command) -> bool
    ensures { result ≡ texts.is_order order.now }
{
    match order {
        Command::Echo { text } => is_line(text),
        Command::SetAddTable {
            fully_qualified_name,
            ..
        } => is_line(fully_qualified_name),
        _ => true,
    }
}

/// Whether those of a statement are.
fn is_statement(statement: &Statement) -> bool
    ensures { result ≡ texts.is_statement statement.now }
{
    match statement {
        Statement::Single(order) => is_order(order),
        Statement::Try(_) => true,
    }
}

/// Whether those of the statements are.
fn are_statements(statements: &StatementList) -> bool
    ensures { result ≡ texts.are_statements statements.now }
{
    statements
        .as_slice()
        .iter()
        .all(|statement| is_statement(statement))
}

/// Whether the conninfo of each NODE line is.
fn are_node_lines(lines: &NodeLines) -> bool
    ensures { result ≡ texts.are_node_lines lines.now }
{
    lines.iter().all(|(_, conninfo)| is_line(conninfo))
}

/// Whether the text is that a refusal repeats.
fn is_refusal(refusal: &ScriptRefusal) -> bool
    ensures { result ≡ form.is_line (spoken.wrong_text refusal.now) }
{
    match refusal {
        ScriptRefusal::UnknownOption { word }
        | ScriptRefusal::NotInProfile { word }
        | ScriptRefusal::NotInTry { word } => is_line(word),
        ScriptRefusal::MissingOption { words } => is_line(words),
        ScriptRefusal::Undefined { name } => is_line(name),
        ScriptRefusal::Depth { path } | ScriptRefusal::NoFile { path } => is_line(path),
        _ => true,
    }
}

/// Whether the texts that replies repeat are each on one line. What a text was read as is always so.
pub(crate) fn is_reading(reading: &Reading) -> bool
    ensures { result ≡ true → IsReading reading.now }
{
    match reading {
        Reading::Read(script) => {
            are_node_lines(&script.nodes) && are_statements(&script.statements)
        }
        Reading::Wrong(refusal) => is_refusal(refusal),
    }
}
