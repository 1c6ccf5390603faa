// The token at the front of a text.
ghost use Rattle.std.specs.Prelude.{◌≡◌, ◌≤◌, ◌++◌, false, ◌∷◌, [], ℕ, List, length, IfOk, IfSome, Option, Some, None};
ghost use Rattle.std.specs.Prelude.{MatchOption};
ghost use Rattle.std.specs.Option.{option_map};
ghost use Rattle.slonik_tokens.specs.Spelling.{doubled};
ghost use Rattle.slonik_tokens.specs.Cut as cut;

use crate::scan::{digits_len, is_word_start, path_len, word_len};
use crate::{Sign, Token};
use slon_base::Text;
use std::alloc::{AllocError, Global};

/// The text of these bytes, or `None` where they are not UTF-8.
fn text_in(alloc: Global, bytes: &[u8]) -> Result<Option<Text>, AllocError>
    ensures { IfOk result (λ found. found ≡ cut.text_in bytes.now) }
{
    Text::from_bytes(alloc, bytes)
}

/// The identifier at the front.
#[tactic(auto, unfolding(crate::specs::Cut::identifier_at))]
fn identifier_at(alloc: Global, bytes: &[u8]) -> Result<Option<Text>, AllocError>
    ensures { IfOk result (λ found. found ≡ cut.identifier_at bytes.now) }
{
    match bytes.first() {
        Some(first) if is_word_start(*first) => {
            let (text, _) = bytes.split_at(word_len(bytes));
            text_in(alloc, text)
        }
        _ => Ok(None),
    }
}

/// The number at the front, where a digit or a `-` begins it.
#[tactic(auto, unfolding(crate::specs::Cut::number_at))]
fn number_at(alloc: Global, bytes: &[u8]) -> Result<Option<Text>, AllocError>
    ensures { IfOk result (λ found. found ≡ cut.number_at bytes.now) }
{
    match bytes.split_first() {
        None => Ok(None),
        Some((first, rest)) => {
            let len = digits_len(rest);
            if *first == b'-' && len == 0 {
                return Ok(None);
            }
            let (text, _) = bytes.split_at(len + 1);
            text_in(alloc, text)
        }
    }
}

/// What stands up to the quote that closes the string, with one quote for two, and how many bytes these are with that
/// quote. The first quote stands before them. `None` where no quote closes it in its line.
fn unquoted(alloc: Global, bytes: &[u8]) -> Result<Option<(Vec<u8>, usize)>, AllocError>
    ensures within { IfOk result (λ found. IfSome found (λ f. f.1 ≤ length bytes.now)) }
    ensures found { IfOk result (λ found. MatchOption found (cut.unquoted bytes.now false ≡ None)
        (λ f. (cut.unquoted bytes.now false ≡ Some f.0.items) × (f.1 ≡ length (doubled f.0.items ++ 39 ∷ [])))) }
{
    let mut text = Vec::new(alloc);
    let mut after_quote = false;
    let mut len = 0;
    for byte in bytes {
        if after_quote && *byte != b'\'' {
            return Ok(Some((text, len)));
        }
        if *byte == b'\n' {
            return Ok(None);
        }
        after_quote = *byte == b'\'' && !after_quote;
        if !after_quote {
            text.push(*byte)?;
        }
        len += 1;
    }
    Ok(if after_quote { Some((text, len)) } else { None })
}

/// The path whose `<` stands before these bytes.
#[tactic(auto, unfolding(crate::specs::Cut::path_at))]
fn path_at(alloc: Global, bytes: &[u8]) -> Result<Option<Text>, AllocError>
    ensures { IfOk result (λ found. found ≡ cut.path_at bytes.now) }
{
    let (path, behind) = bytes.split_at(path_len(bytes));
    match behind.first() {
        Some(first) if *first == b'>' => text_in(alloc, path),
        _ => Ok(None),
    }
}

/// The sign of a byte.
#[tactic(auto, unfolding(crate::specs::Cut::sign_of))]
fn sign_of(byte: u8) -> Option<Sign>
    ensures { result ≡ cut.sign_of byte }
{
    match byte {
        b';' => Some(Sign::Semicolon),
        b',' => Some(Sign::Comma),
        b'=' => Some(Sign::Equals),
        b'(' => Some(Sign::OpenBracket),
        b')' => Some(Sign::CloseBracket),
        b'{' => Some(Sign::OpenBrace),
        b'}' => Some(Sign::CloseBrace),
        _ => None,
    }
}

/// The string whose first quote stands before these bytes, and the length of it with both quotes.
#[tactic(auto, using(crate::proofs::Quotes::no_quoted))]
fn quoted_token(alloc: Global, bytes: &[u8]) -> Result<Option<(Token, usize)>, AllocError>
    ensures { IfOk result (λ found. found ≡ cut.sized (option_map Token.Quoted (cut.quoted_at bytes.now))) }
{
    match unquoted(alloc, bytes)? {
        None => Ok(None),
        Some((text, len)) => match text_in(alloc, text.as_slice())? {
            None => Ok(None),
            Some(text) => Ok(Some((Token::Quoted(text), len + 1))),
        },
    }
}

/// The word at the front, and its length.
fn word_token(alloc: Global, bytes: &[u8]) -> Result<Option<(Token, usize)>, AllocError>
    ensures { IfOk result (λ found. found ≡ cut.sized (option_map Token.Word (cut.identifier_at bytes.now))) }
{
    match identifier_at(alloc, bytes)? {
        None => Ok(None),
        Some(text) => {
            let len = text.as_slice().len();
            Ok(Some((Token::Word(text), len)))
        }
    }
}

/// The number at the front, and its length.
fn number_token(alloc: Global, bytes: &[u8]) -> Result<Option<(Token, usize)>, AllocError>
    ensures { IfOk result (λ found. found ≡ cut.sized (option_map Token.Number (cut.number_at bytes.now))) }
{
    match number_at(alloc, bytes)? {
        None => Ok(None),
        Some(text) => {
            let len = text.as_slice().len();
            Ok(Some((Token::Number(text), len)))
        }
    }
}

/// The name use whose `@` stands before these bytes, and the length of it with the `@`.
fn name_token(alloc: Global, bytes: &[u8]) -> Result<Option<(Token, usize)>, AllocError>
    ensures { IfOk result (λ found. found ≡ cut.sized (option_map Token.NameUse (cut.identifier_at bytes.now))) }
{
    match identifier_at(alloc, bytes)? {
        None => Ok(None),
        Some(name) => {
            let len = 1 + name.as_slice().len();
            Ok(Some((Token::NameUse(name), len)))
        }
    }
}

/// The path whose `<` stands before these bytes, and the length of it with both brackets.
fn path_token(alloc: Global, bytes: &[u8]) -> Result<Option<(Token, usize)>, AllocError>
    ensures { IfOk result (λ found. found ≡ cut.sized (option_map Token.Path (cut.path_at bytes.now))) }
{
    match path_at(alloc, bytes)? {
        None => Ok(None),
        Some(path) => {
            let len = 2 + path.as_slice().len();
            Ok(Some((Token::Path(path), len)))
        }
    }
}

/// The token at the front, and its length. `after_include` says that the token before is the word INCLUDE.
#[tactic(auto, unfolding(crate::specs::Cut::token_at))]
pub(crate) fn token_at(
    alloc: Global,
    after_include: bool,
    bytes: &[u8],
) -> Result<Option<(Token, usize)>, AllocError>
    ensures { IfOk result (λ found. found ≡ cut.sized (cut.token_at after_include bytes.now)) }
{
    match bytes.split_first() {
        None => Ok(None),
        Some((first, rest)) => match *first {
            b'\'' => quoted_token(alloc, rest),
            b'@' => name_token(alloc, rest),
            b'<' if after_include => path_token(alloc, rest),
            byte if is_word_start(byte) => word_token(alloc, bytes),
            byte if byte == b'-' || byte.is_ascii_digit() => number_token(alloc, bytes),
            byte => Ok(sign_of(byte).map(|sign| (Token::Mark(sign), 1))),
        },
    }
}
