// What a line between the scripts of a session says.
ghost use Rattle.std.specs.Prelude.{◌≡◌, map, None, IfOk};
ghost use Rattle.std.specs.Str.{bytes_eq};
ghost use Rattle.slon_model.specs.Lines.{meaning};
ghost use Rattle.session_text.specs.Commands as words;
ghost use Rattle.session_reader.specs.Sessions as session;
ghost use Rattle.session_reader.specs.Fetching.{IsSaid};

use crate::ReadFault;
use session_text::{LINE_LIMIT, Misread, is_text, name_of, read_command, words_of};
use slon_base::Text;
use slon_model::Command;
use std::alloc::{AllocError, Global};

/// What a line between scripts says.
#[derive(Drop)]
pub(crate) enum Said {
    /// Nothing.
    Nothing,
    /// A command.
    Command(Command),
    /// The script of this name is opened.
    Opening(Text),
}

/// Whether a line is short and a text.
pub(crate) fn is_readable(line: &[u8]) -> bool
    ensures { result ≡ session.is_readable line.now }
{
    line.len() <= LINE_LIMIT && is_text(line)
}

/// Whether a line closes a script.
pub(crate) fn is_closing(line: &[u8]) -> bool
    ensures { result ≡ bytes_eq line.now session.closing }
{
    is_word(line, ">>")
}

/// Whether a word is this one.
fn is_word(word: &[u8], wanted: &str) -> bool
    ensures { result ≡ bytes_eq word.now wanted.now }
{
    word == wanted.as_bytes()
}

/// The name that the word is, if it is one.
fn name_in(alloc: Global, word: &[u8]) -> Result<Option<Text>, AllocError>
    ensures { IfOk result (λ found. found ≡ words.name_in word.now) }
{
    match name_of(alloc, word) {
        Ok(name) => Ok(Some(name)),
        Err(misread) => match misread {
            Misread::BadForm => Ok(None),
            Misread::OutOfMemory => Err(AllocError),
        },
    }
}

/// The name of the script that a line of these words opens.
fn opening_in(alloc: Global, words: &[&[u8]]) -> Result<Option<Text>, AllocError>
    ensures { IfOk result (λ found. found ≡ session.opening_of (map (λ word. word.now) words.now)) }
{
    let [verb, name, sign] = words else {
        return Ok(None);
    };
    if is_word(verb, "slonik") && is_word(sign, "<<") {
        name_in(alloc, name)
    } else {
        Ok(None)
    }
}

/// The name of the script that a line opens, if it opens one.
#[tactic(auto, unfolding(crate::specs::Sessions::opening))]
fn opening(alloc: Global, line: &[u8]) -> Result<Option<Text>, AllocError>
    ensures { IfOk result (λ found. found ≡ session.opening line.now) }
{
    if !is_readable(line) {
        return Ok(None);
    }
    let words = words_of(alloc, line)?;
    opening_in(alloc, &words)
}

/// What the line of this number says, which opens no script.
fn meant(alloc: Global, line: &[u8], number: u64) -> Result<Said, ReadFault>
    ensures { IsSaid number None (meaning line.now) result }
{
    match read_command(alloc, line, number)? {
        None => Ok(Said::Nothing),
        Some(command) => Ok(Said::Command(command)),
    }
}

/// What the line of this number says.
pub(crate) fn line_says(alloc: Global, line: &[u8], number: u64) -> Result<Said, ReadFault>
    ensures { IsSaid number (session.opening line.now) (meaning line.now) result }
{
    match opening(alloc, line)? {
        None => meant(alloc, line, number),
        Some(name) => Ok(Said::Opening(name)),
    }
}
