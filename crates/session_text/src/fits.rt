// That the numbers of a reply are of their types.
ghost use Rattle.std.specs.Prelude.{◌<◌, ◌^◌};
ghost use Rattle.std.specs.List.{AllByRecursion};
ghost use Rattle.session_text.specs.Replies.{ProgressFits, KeptFits, AnswerFits, ScriptFits, RefusalFits, NumbersFit};

use slon_base::Text;
use slon_model::{Answer, Refusal, Reply};
use slonik_script::ScriptRefusal;

/// A number is of its type.
fn number_fits(number: &u64)
    ensures { number.now < 2 ^ 64 }
{
    let _number = *number;
}

/// An id is of its type.
fn id_fits(id: &u32)
    ensures { id.now < 2 ^ 32 }
{
    let _id = *id;
}

/// A space or a status is of its type.
fn space_fits(space: &u8)
    ensures { space.now < 256 }
{
    let _space = *space;
}

/// The nodes and numbers of a progress are of their types.
fn progress_fits(progress: &[(u32, u64)])
    ensures { AllByRecursion ProgressFits progress.now }
{
    for (node, number) in progress {
        let _numbers = (*node, *number);
    }
}

/// The sets and eras of which progress is kept are of their types.
fn kept_fits(kept: &[(u32, u64, Text)])
    ensures { AllByRecursion KeptFits kept.now }
{
    for (set, era, _) in kept {
        let _numbers = (*set, *era);
    }
}

/// The numbers of an answer are of their types.
fn answer_fits(answer: &Answer)
    ensures { AnswerFits answer.now }
{
    match answer {
        Answer::Opened { xid } => number_fits(xid),
        Answer::Acted { number } => number_fits(number),
        Answer::Committed { actions } => number_fits(actions),
        Answer::Listed { rows } => {
            let _count = rows.len();
        }
        Answer::Status {
            node,
            log,
            progress,
            kept,
        } => {
            let _numbers = (*node, *log);
            progress_fits(progress.as_slice());
            kept_fits(kept.as_slice());
        }
        Answer::Statements { count } => number_fits(count),
        Answer::Emitted { node, number } => {
            let _numbers = (*node, *number);
        }
        Answer::Ended { status } => space_fits(status),
        Answer::Heard { events, confirms } | Answer::LostOnTheWay { events, confirms } => {
            let _numbers = (*events, *confirms);
        }
        Answer::Applied { number, rows, .. } | Answer::Fetched { number, rows } => {
            let _numbers = (*number, *rows);
        }
        Answer::Done | Answer::Unchanged | Answer::Kept | Answer::Lost | Answer::Echoed { .. } => {}
    }
}

/// The numbers of what is wrong with a script are of their types.
fn script_fits(refusal: &ScriptRefusal)
    ensures { ScriptFits refusal.now }
{
    match refusal {
        ScriptRefusal::BadToken { line } => number_fits(line),
        ScriptRefusal::BadSyntax { place } => number_fits(place),
        _ => {}
    }
}

/// The numbers of a refusal are of their types.
fn refusal_fits(refusal: &Refusal)
    ensures { RefusalFits refusal.now }
{
    match refusal {
        Refusal::Fault { count, .. } => number_fits(count),
        Refusal::Locked { xid } | Refusal::Busy { xid } => number_fits(xid),
        Refusal::BadWidth { columns } => number_fits(columns),
        Refusal::Full { limit } => id_fits(limit),
        Refusal::IdUsed { id } => id_fits(id),
        Refusal::NotInitialised { node }
        | Refusal::OtherNode { node }
        | Refusal::AlreadyNode { node }
        | Refusal::NoNode { node }
        | Refusal::NoConninfo { node }
        | Refusal::HasReceivers { node }
        | Refusal::NotKnown { node }
        | Refusal::Off { node }
        | Refusal::NotActive { node }
        | Refusal::NotForwarding { node }
        | Refusal::NoPath { node }
        | Refusal::SameNode { node } => id_fits(node),
        Refusal::NotListed { server } => id_fits(server),
        Refusal::Severed { node, other } => {
            let _numbers = (*node, *other);
        }
        Refusal::Behind {
            provider,
            progress,
            number,
        } => {
            let _numbers = (*provider, *progress, *number);
        }
        Refusal::NoSet { set }
        | Refusal::NotOrigin { set }
        | Refusal::SetLocked { set }
        | Refusal::Loop { set }
        | Refusal::StillUsed { set } => id_fits(set),
        Refusal::BadRow { space } | Refusal::TooBig { space } => space_fits(space),
        Refusal::Script(script) => script_fits(script),
        _ => {}
    }
}

/// The numbers of a reply are of their types. It is a fact for proofs, and does nothing.
pub fn numbers_fit(reply: &Reply)
    ensures { NumbersFit reply.now }
{
    match reply {
        Reply::Accepted(answer) => answer_fits(answer),
        Reply::Refused(refusal) => refusal_fits(refusal),
        Reply::InDoubt { answer, .. } => answer_fits(answer),
    }
}
