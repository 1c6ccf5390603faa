// The text of a script is cut into tokens.
ghost use Rattle.std.specs.Prelude.{◌≡◌, ℕ, List, Result, Ok, Err, IfOk, IsErrOf};
ghost use Rattle.slonik_tokens.specs.Cut.{cut_of};
ghost use Rattle.slonik_tokens.specs.Faults.{Cuts};
ghost use Rattle.slonik_tokens.specs.Spelling.{ReadsText};
ghost use Rattle.slonik_tokens.specs.Spelling as spelled;

use crate::lexeme::token_at;
use crate::scan::blank_len;
use crate::{ParseFault, Token};
use slonik_script::ScriptRefusal;
use std::alloc::Global;

/// How many lines the byte ends.
fn lines_in(byte: u8) -> u64
    ensures { result ≡ spelled.lines_in byte }
{
    if byte == b'\n' { 1 } else { 0 }
}

/// Goes over the text from left to right.
fn cut(alloc: Global, text: &[u8]) -> Result<Vec<Token>, ParseFault>
    ensures { Cuts (λ v. v.items) (cut_of text.now) result }
{
    let mut tokens = Vec::new(alloc);
    let mut after_include = false;
    let mut line = 1;
    let mut rest = text;
    while let Some((first, _)) = rest.split_first() {
        let blank = blank_len(rest);
        if blank > 0 {
            line += lines_in(*first);
            rest = rest.split_at(blank).1;
        } else {
            match token_at(alloc, after_include, rest)? {
                None => return Err(ParseFault::Refused(ScriptRefusal::BadToken { line })),
                Some((token, len)) => {
                    after_include = token.is_word(b"include");
                    tokens.push(token)?;
                    rest = rest.split_at(len).1;
                }
            }
        }
    }
    Ok(tokens)
}

/// The tokens of a text.
///
/// # Errors
///
/// `BadToken` with the line, from 1 on, of the first place that begins no token, separator or comment, and `NoMemory`.
pub fn tokens(alloc: Global, text: &[u8]) -> Result<Vec<Token>, ParseFault>
    ensures exact { Cuts (λ v. v.items) (cut_of text.now) result }
    // The grammar reads the text as these tokens,
    ensures read { IfOk result (λ v. ReadsText text.now (Ok v.items)) }
    // or as a text that begins no piece in this line,
    ensures refused { (line : ℕ) → IsErrOf result (ParseFault.Refused (ScriptRefusal.BadToken line))
        → ReadsText text.now (Err line) }
    // and what it reads is answered, unless memory runs out.
    ensures only { (outcome : Result (List Token) ℕ) → ReadsText text.now outcome → Cuts (λ v. v.items) outcome result }
{
    cut(alloc, text)
}
