// The commands that take a database down and bring it up again.
ghost use Rattle.std.specs.Prelude.{◌≡◌, [], ◌∷◌, map};
ghost use Rattle.slon_model.specs.Lines as lines;
ghost use Rattle.session_text.specs.Commands.{Gives};

use crate::words::{Misread, name_of, number_of};
use slon_model::{Command, Crash};
use std::alloc::Global;

/// The greatest number of calls that a crash waits for.
const CALL_LIMIT: u32 = 1_000_000;

/// Whether a commit that fails stands: `keep` or `lose`.
fn keeping(word: &[u8]) -> Result<bool, Misread>
    ensures { Gives (lines.keeping word.now) result }
{
    if word == b"keep".as_slice() {
        Ok(true)
    } else if word == b"lose".as_slice() {
        Ok(false)
    } else {
        Err(Misread::BadForm)
    }
}

/// `commit keep`, from its two words.
fn crash_at_commit(form: &[u8], keep: &[u8]) -> Result<Crash, Misread>
    ensures { Gives (lines.crash_kind (form.now ∷ keep.now ∷ [])) result }
{
    if form != b"commit".as_slice() {
        return Err(Misread::BadForm);
    }
    Ok(Crash::AtCommit {
        keep: keeping(keep)?,
    })
}

/// `after CALLS keep`, from its three words.
fn crash_after(form: &[u8], calls: &[u8], keep: &[u8]) -> Result<Crash, Misread>
    ensures { Gives (lines.crash_kind (form.now ∷ calls.now ∷ keep.now ∷ [])) result }
{
    if form != b"after".as_slice() {
        return Err(Misread::BadForm);
    }
    Ok(Crash::After {
        calls: number_of(calls, 0, CALL_LIMIT)?,
        keep: keeping(keep)?,
    })
}

/// What stands behind the database of a crash: nothing, `commit keep` or `after CALLS keep`.
fn crash_kind(words: &[&[u8]]) -> Result<Crash, Misread>
    ensures { Gives (lines.crash_kind (map (λ word. word.now) words.now)) result }
{
    match words {
        [] => Ok(Crash::Now),
        [form, keep] => crash_at_commit(form, keep),
        [form, calls, keep] => crash_after(form, calls, keep),
        _ => Err(Misread::BadForm),
    }
}

/// `crash DB`, `crash DB commit keep` and `crash DB after CALLS keep`
pub fn crash_of(alloc: Global, words: &[&[u8]]) -> Result<Command, Misread>
    ensures { Gives (lines.crash_of (map (λ word. word.now) words.now)) result }
{
    let Some((database, kind)) = words.split_first() else {
        return Err(Misread::BadForm);
    };
    let crash = crash_kind(kind)?;
    Ok(Command::Crash {
        database: name_of(alloc, database)?,
        crash,
    })
}

/// `up DB`
pub fn up_of(alloc: Global, words: &[&[u8]]) -> Result<Command, Misread>
    ensures { Gives (lines.up_of (map (λ word. word.now) words.now)) result }
{
    let [database] = words else {
        return Err(Misread::BadForm);
    };
    Ok(Command::Up {
        database: name_of(alloc, database)?,
    })
}
