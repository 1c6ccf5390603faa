// The words of a line, each read by its form.
ghost use Rattle.std.specs.Prelude.{◌≡◌, ◌<◌, ◌^◌, ℕ, List, map, Some, IfOk};
ghost use Rattle.std.specs.Str.{IsUtf8};
ghost use Rattle.slon_model.specs.Forms.{number_between};
ghost use Rattle.slon_model.specs.Lines.{words};
ghost use Rattle.session_text.specs.Commands.{Gives, name_in, table_name_in, value_in, values_in};

use crate::forms::{is_name, is_plain_number, is_table_name, is_value};
use slon_base::{Text, TextList};
use std::alloc::{AllocError, AllocFailed, Global};
use thiserror::Error;

/// Why words were not read.
#[derive(Clone, Copy, Debug, Drop, Error, PartialEq, Eq)]
pub enum Misread {
    /// They are not of the form.
    #[error("the words are of another form")]
    BadForm,
    /// There was no memory.
    #[error("out of memory")]
    OutOfMemory,
}

impl From<AllocError> for Misread {
    ghost use Rattle.std.specs.Prelude.{◌≡◌};
    ghost use Rattle.session_text.specs.declared.words.Misread.TheVariants.{OutOfMemory};

    ghost from_gives = { λ _ e. e ≡ OutOfMemory };

    fn from(_: AllocError) -> Self {
        Misread::OutOfMemory
    }
}

/// The words between the spaces of a line.
pub fn words_of(alloc: Global, line: &[u8]) -> Result<Vec<&[u8]>, AllocError>
    ensures { IfOk result (λ v. map (λ word. word.now) v.items ≡ words line.now) }
{
    line.split(|b| *b == b' ')
        .filter(|word| !word.is_empty())
        .collect(alloc)
}

/// The text of a word of a form, each of which has ASCII bytes alone.
fn text_of(alloc: Global, word: &[u8]) -> Result<Text, Misread>
    requires { IsUtf8 word.now }
    ensures { Gives (Some word.now) result }
{
    match Text::from_bytes(alloc, word)? {
        Some(text) => Ok(text),
        None => Err(Misread::BadForm),
    }
}

/// The name that the word is.
pub fn name_of(alloc: Global, word: &[u8]) -> Result<Text, Misread>
    ensures { Gives (name_in word.now) result }
{
    if !is_name(word) {
        return Err(Misread::BadForm);
    }
    text_of(alloc, word)
}

/// The table's name that the word is.
pub fn table_name_of(alloc: Global, word: &[u8]) -> Result<Text, Misread>
    ensures { Gives (table_name_in word.now) result }
{
    if !is_table_name(word) {
        return Err(Misread::BadForm);
    }
    text_of(alloc, word)
}

/// The value that the word is.
pub fn value_of(alloc: Global, word: &[u8]) -> Result<Text, Misread>
    ensures { Gives (value_in word.now) result }
{
    if !is_value(word) {
        return Err(Misread::BadForm);
    }
    text_of(alloc, word)
}

/// The values that the words are.
pub fn values_of(alloc: Global, words: &[&[u8]]) -> Result<TextList, Misread>
    ensures { Gives (values_in (map (λ word. word.now) words.now)) result }
{
    let mut values = TextList::new(alloc);
    for word in words {
        values.push(value_of(alloc, word)?)?;
    }
    Ok(values)
}

/// The number from `low` to `high` that the word spells.
pub fn number_of(word: &[u8], low: u32, high: u32) -> Result<u32, Misread>
    ensures { Gives (number_between low high word.now) result }
{
    if !is_plain_number(word) {
        return Err(Misread::BadForm);
    }
    let mut number = 0_u64;
    for digit in word {
        number = 10 * number + u64::from(*digit - b'0');
        if number > u64::from(high) {
            return Err(Misread::BadForm);
        }
    }
    if number < u64::from(low) {
        return Err(Misread::BadForm);
    }
    Ok(number as u32)
}
