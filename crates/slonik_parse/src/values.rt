// Tokens as values.
ghost use Rattle.std.specs.Prelude.{◌≡◌, ◌<◌, ◌^◌, IfOk, map};
ghost use Rattle.std.specs.Char.{to_ascii_lowercase};
ghost use Rattle.std.specs.List.{list_all};
ghost use Rattle.slonik_parse.specs.Answered.{Answers, fit};
ghost use Rattle.slonik_tokens.specs.Spelling.{is_identifier, is_word_byte};
ghost use Rattle.slonik_parse.specs.Values as value;

use crate::misparse::Misparse;
use slon_base::Text;
use slonik_script::NodeChoice;
use slonik_tokens::Token;
use std::alloc::{AllocError, Global};

/// The greatest id.
const ID_LIMIT: u64 = 2_147_483_647;

/// The greatest time, in seconds.
const SECONDS_LIMIT: u64 = 1_000_000_000;

/// Whether these are bytes of a word.
fn are_word_bytes(bytes: &[u8]) -> bool
    ensures { result ≡ list_all is_word_byte bytes.now }
{
    bytes
        .iter()
        .all(|byte| byte.is_ascii_alphanumeric() || *byte == b'_')
}

/// Whether the bytes are an identifier: a letter or `_`, and then letters, digits and `_`.
fn is_identifier(bytes: &[u8]) -> bool
    ensures { result ≡ is_identifier bytes.now }
{
    match bytes.split_first() {
        None => false,
        Some((first, rest)) => {
            (first.is_ascii_alphabetic() || *first == b'_') && are_word_bytes(rest)
        }
    }
}

/// The word that the token is, or the string that is one.
pub fn name_value(alloc: Global, token: &Token) -> Result<Text, Misparse>
    ensures { Answers (fit (value.name_in token.now)) result }
{
    match token {
        Token::Word(text) => Ok(text.copy(alloc)?),
        Token::Quoted(text) => {
            if is_identifier(text.as_slice()) {
                Ok(text.copy(alloc)?)
            } else {
                Err(Misparse::Misfit)
            }
        }
        _ => Err(Misparse::Misfit),
    }
}

/// The string that the token is.
pub fn string_value(alloc: Global, token: &Token) -> Result<Text, Misparse>
    ensures { Answers (fit (value.string_in token.now)) result }
{
    match token {
        Token::Quoted(text) => Ok(text.copy(alloc)?),
        _ => Err(Misparse::Misfit),
    }
}

/// The number that digits spell, if it is at most `high`.
fn magnitude(digits: &[u8], high: u64) -> Option<u64>
    requires { high < 2 ^ 32 }
    ensures { result ≡ value.magnitude high digits.now }
{
    if digits.is_empty() {
        return None;
    }
    let mut number = 0;
    for digit in digits {
        if !digit.is_ascii_digit() {
            return None;
        }
        number = 10 * number + u64::from(*digit - b'0');
        if number > high {
            return None;
        }
    }
    Some(number)
}

/// The number from 0 to `high` that the bytes spell. `-0` is 0.
fn natural(bytes: &[u8], high: u64) -> Option<u64>
    requires { high < 2 ^ 32 }
    ensures { result ≡ value.natural high bytes.now }
{
    match bytes.split_first() {
        None => None,
        Some((first, rest)) => {
            if *first == b'-' {
                magnitude(rest, 0)
            } else {
                magnitude(bytes, high)
            }
        }
    }
}

/// The number from -128 to 255 that the bytes spell, modulo 256.
fn status(bytes: &[u8]) -> Option<u64>
    ensures { result ≡ value.status bytes.now }
{
    match bytes.split_first() {
        None => None,
        Some((first, rest)) => {
            if *first == b'-' {
                let number = magnitude(rest, 128)?;
                Some((256 - number) % 256)
            } else {
                magnitude(bytes, 255)
            }
        }
    }
}

/// The id that the token is.
pub fn id_value(token: &Token) -> Result<u32, Misparse>
    ensures { Answers (fit (value.id_in token.now)) result }
{
    let Token::Number(text) = token else {
        return Err(Misparse::Misfit);
    };
    match natural(text.as_slice(), ID_LIMIT) {
        None => Err(Misparse::Misfit),
        Some(number) => {
            if number == 0 {
                Err(Misparse::Misfit)
            } else {
                Ok(number as u32)
            }
        }
    }
}

/// The time in seconds that the token is.
pub fn seconds_value(token: &Token) -> Result<u32, Misparse>
    ensures { Answers (fit (value.seconds_in token.now)) result }
{
    let Token::Number(text) = token else {
        return Err(Misparse::Misfit);
    };
    match natural(text.as_slice(), SECONDS_LIMIT) {
        None => Err(Misparse::Misfit),
        Some(number) => Ok(number as u32),
    }
}

/// The status that the token is: a number from -128 to 255, modulo 256.
pub fn status_value(token: &Token) -> Result<u8, Misparse>
    ensures { Answers (fit (value.status_in token.now)) result }
{
    let Token::Number(text) = token else {
        return Err(Misparse::Misfit);
    };
    match status(text.as_slice()) {
        None => Err(Misparse::Misfit),
        Some(number) => Ok(number as u8),
    }
}

/// Whether the token says YES, or NO.
pub fn answer_value(token: &Token) -> Result<bool, Misparse>
    ensures { Answers (fit (value.answer_in token.now)) result }
{
    if token.is_word(b"yes") {
        Ok(true)
    } else if token.is_word(b"no") {
        Ok(false)
    } else {
        Err(Misparse::Misfit)
    }
}

/// The node of the id that the token is, or ALL.
pub fn choice_value(token: &Token) -> Result<NodeChoice, Misparse>
    ensures { Answers (fit (value.choice_in token.now)) result }
{
    if token.is_word(b"all") {
        return Ok(NodeChoice::All);
    }
    let id = id_value(token)?;
    Ok(NodeChoice::Node(id))
}

/// The text in lower case.
pub fn lower_text(alloc: Global, text: &Text) -> Result<Text, AllocError>
    ensures { IfOk result (λ lower. lower ≡ map to_ascii_lowercase text.now) }
{
    let lower = text.as_str().to_ascii_lowercase(alloc)?;
    Text::from_str(alloc, lower.as_str())
}
