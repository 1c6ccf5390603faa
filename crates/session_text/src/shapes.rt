// The shapes in which replies are printed.
ghost use Rattle.std.specs.Prelude.{◌≡◌, ◌++◌};
ghost use Rattle.slon_model.specs.Printed.{answer_text, script_text, refusal_text};
ghost use Rattle.session_text.specs.Shapes.{shape_text};

use slon_base::Text;
use slon_model::{Answer, EventKind, KeptList, ProgressList, Refusal, TableRows};
use slonik_script::ScriptRefusal;

/// The shape of a line: most have words in front, and behind them what is named.
#[derive(Clone, Copy)]
pub enum Shape<'a> {
    Words(&'static str),
    Number(&'static str, u64),
    Id(&'static str, u32),
    /// A space or a status.
    Byte(&'static str, u8),
    /// Two numbers, and words between them.
    Numbers(&'static str, u64, &'static str, u64),
    /// A name or another text.
    Named(&'static str, &'a Text),
    /// A database and its count of faults.
    Fault(&'a Text, u64),
    /// A provider, how far it is, and the number of the event that it lacks.
    Behind(u32, u64, u64),
    /// Two nodes that are cut off from one another.
    Severed(u32, u32),
    /// The node that emitted an event, and the number of the event.
    Emitted(u32, u64),
    /// Which event was applied, and how many rows came with it.
    Applied(EventKind, u64, u64),
    Rows(&'a TableRows),
    /// A node, the status of its logs, how far it is in each stream, and the sets of which it keeps progress.
    Status(u32, u8, &'a ProgressList, &'a KeptList),
}

/// The shape of an answer.
pub fn answer_shape(answer: &Answer) -> Shape<'_>
    ensures { answer_text answer.now ≡ shape_text result }
{
    match answer {
        Answer::Done => Shape::Words("ok"),
        Answer::Opened { xid } => Shape::Number("ok xid ", *xid),
        Answer::Acted { number } => Shape::Number("ok action ", *number),
        Answer::Unchanged => Shape::Words("ok none"),
        Answer::Committed { actions } => Shape::Number("ok actions ", *actions),
        Answer::Listed { rows } => Shape::Rows(rows),
        Answer::Kept => Shape::Words("ok kept"),
        Answer::Lost => Shape::Words("ok lost"),
        Answer::Status {
            node,
            log,
            progress,
            kept,
        } => Shape::Status(*node, *log, progress, kept),
        Answer::Statements { count } => Shape::Number("ok statements ", *count),
        Answer::Emitted { node, number } => Shape::Emitted(*node, *number),
        Answer::Echoed { text } => Shape::Named("ok echo ", text),
        Answer::Ended { status } => Shape::Byte("ok ended ", *status),
        Answer::Heard { events, confirms } => {
            Shape::Numbers("ok events ", *events, " confirms ", *confirms)
        }
        Answer::LostOnTheWay { events, confirms } => {
            Shape::Numbers("ok lost events ", *events, " confirms ", *confirms)
        }
        Answer::Applied { kind, number, rows } => Shape::Applied(*kind, *number, *rows),
        Answer::Fetched { number, rows } => Shape::Numbers("ok fetched ", *number, " rows ", *rows),
    }
}

/// The shape of what is wrong with a script.
fn script_shape(refusal: &ScriptRefusal) -> Shape<'_>
    ensures { script_text refusal.now ≡ shape_text result }
{
    match refusal {
        ScriptRefusal::BadToken { line } => Shape::Number("no 80 badtoken ", *line),
        ScriptRefusal::BadSyntax { place } => Shape::Number("no 81 badsyntax ", *place),
        ScriptRefusal::UnknownOption { word } => Shape::Named("no 82 unknownoption ", word),
        ScriptRefusal::MissingOption { words } => Shape::Named("no 83 missingoption ", words),
        ScriptRefusal::NoPreamble => Shape::Words("no 84 nopreamble"),
        ScriptRefusal::NotInProfile { word } => Shape::Named("no 85 notinprofile ", word),
        ScriptRefusal::NotInTry { word } => Shape::Named("no 86 notintry ", word),
        ScriptRefusal::Undefined { name } => Shape::Named("no 87 undefined ", name),
        ScriptRefusal::Depth { path } => Shape::Named("no 88 depth ", path),
        ScriptRefusal::NoFile { path } => Shape::Named("no 89 nofile ", path),
        ScriptRefusal::TooMany => Shape::Words("no 96 toomany"),
    }
}

/// The shape of why a command was not accepted.
pub fn refusal_shape(refusal: &Refusal) -> Shape<'_>
    ensures { refusal_text refusal.now ≡ shape_text result }
{
    match refusal {
        Refusal::Fault { database, count } => Shape::Fault(database, *count),
        Refusal::Locked { xid } => Shape::Number("no 12 locked ", *xid),
        Refusal::Full { limit } => Shape::Id("no 13 full ", *limit),
        Refusal::BadRow { space } => Shape::Byte("no 14 badrow ", *space),
        Refusal::NotEmpty { database } => Shape::Named("no 15 notempty ", database),
        Refusal::Down { database } => Shape::Named("no 16 down ", database),
        Refusal::NoDatabase { database } => Shape::Named("no 17 nodatabase ", database),
        Refusal::IdUsed { id } => Shape::Id("no 18 idused ", *id),
        Refusal::IsUp { database } => Shape::Named("no 19 isup ", database),
        Refusal::TooBig { space } => Shape::Byte("no 21 toobig ", *space),
        Refusal::NotInitialised { node } => Shape::Id("no 41 notinitialised ", *node),
        Refusal::OtherNode { node } => Shape::Id("no 42 othernode ", *node),
        Refusal::AlreadyNode { node } => Shape::Id("no 43 alreadynode ", *node),
        Refusal::NoNode { node } => Shape::Id("no 44 nonode ", *node),
        Refusal::NoConninfo { node } => Shape::Id("no 45 noconninfo ", *node),
        Refusal::HasReceivers { node } => Shape::Id("no 46 hasreceivers ", *node),
        Refusal::NoSet { set } => Shape::Id("no 47 noset ", *set),
        Refusal::TableExists { table } => Shape::Named("no 50 tableexists ", table),
        Refusal::NameUsed { name } => Shape::Named("no 51 nameused ", name),
        Refusal::NoTable { table } => Shape::Named("no 52 notable ", table),
        Refusal::NoTransaction { transaction } => Shape::Named("no 53 notransaction ", transaction),
        Refusal::Duplicate => Shape::Words("no 54 duplicate"),
        Refusal::NotOrigin { set } => Shape::Id("no 55 notorigin ", *set),
        Refusal::SetLocked { set } => Shape::Id("no 56 setlocked ", *set),
        Refusal::BadWidth { columns } => Shape::Number("no 57 badwidth ", *columns),
        Refusal::TableUsed { table } => Shape::Named("no 58 tableused ", table),
        Refusal::Loop { set } => Shape::Id("no 59 loop ", *set),
        Refusal::Nothing => Shape::Words("no 60 nothing"),
        Refusal::NotListed { server } => Shape::Id("no 61 notlisted ", *server),
        Refusal::NotKnown { node } => Shape::Id("no 62 notknown ", *node),
        Refusal::Behind {
            provider,
            progress,
            number,
        } => Shape::Behind(*provider, *progress, *number),
        Refusal::Busy { xid } => Shape::Number("no 66 busy ", *xid),
        Refusal::Off { node } => Shape::Id("no 67 off ", *node),
        Refusal::Severed { node, other } => Shape::Severed(*node, *other),
        Refusal::NotActive { node } => Shape::Id("no 72 notactive ", *node),
        Refusal::NotForwarding { node } => Shape::Id("no 73 notforwarding ", *node),
        Refusal::NoPath { node } => Shape::Id("no 75 nopath ", *node),
        Refusal::StillUsed { set } => Shape::Id("no 76 stillused ", *set),
        Refusal::SameNode { node } => Shape::Id("no 78 samenode ", *node),
        Refusal::Script(script) => script_shape(script),
        Refusal::ScriptUsed { name } => Shape::Named("no 93 scriptused ", name),
        Refusal::NoScript { name } => Shape::Named("no 94 noscript ", name),
        Refusal::NotBuilt { word } => Shape::Named("no 98 notbuilt ", word),
    }
}
