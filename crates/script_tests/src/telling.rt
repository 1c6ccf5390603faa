// Tokens, faults and crashes in short, as the tables of the tests have them.
use slonik_script::ScriptRefusal;
use slonik_tokens::{ParseFault, Sign, Token};
use std::test::Fail;

/// The character of a sign.
fn sign_char(sign: Sign) -> char {
    match sign {
        Sign::Semicolon => ';',
        Sign::Comma => ',',
        Sign::Equals => '=',
        Sign::OpenBracket => '(',
        Sign::CloseBracket => ')',
        Sign::OpenBrace => '{',
        Sign::CloseBrace => '}',
    }
}

/// What stands before the text of a token.
fn mark_before(token: &Token) -> &'static str {
    match token {
        Token::Quoted(_) => "'",
        Token::NameUse(_) => "@",
        Token::Path(_) => "<",
        _ => "",
    }
}

/// Writes a token and `|` behind it: a quoted text behind `'`, a name behind `@`, a path behind `<`.
fn tell_token(line: &mut String, token: &Token) -> Result<(), Fail> {
    match token {
        Token::Mark(sign) => write!(line, "{}|", sign_char(*sign))?,
        Token::Word(text)
        | Token::Number(text)
        | Token::Quoted(text)
        | Token::NameUse(text)
        | Token::Path(text) => write!(line, "{}{}|", mark_before(token), text.as_str())?,
    }
    Ok(())
}

/// The number of a refusal.
fn number_of(refusal: &ScriptRefusal) -> u32 {
    match refusal {
        ScriptRefusal::BadToken { .. } => 80,
        ScriptRefusal::BadSyntax { .. } => 81,
        ScriptRefusal::UnknownOption { .. } => 82,
        ScriptRefusal::MissingOption { .. } => 83,
        ScriptRefusal::NoPreamble => 84,
        ScriptRefusal::NotInProfile { .. } => 85,
        ScriptRefusal::NotInTry { .. } => 86,
        ScriptRefusal::Undefined { .. } => 87,
        ScriptRefusal::Depth { .. } => 88,
        ScriptRefusal::NoFile { .. } => 89,
        ScriptRefusal::TooMany => 96,
    }
}

/// Writes the number of a refusal, and behind it what the refusal says.
pub fn tell_refusal(line: &mut String, refusal: &ScriptRefusal) -> Result<(), Fail> {
    write!(line, "{}", number_of(refusal))?;
    match refusal {
        ScriptRefusal::BadToken { line: number } | ScriptRefusal::BadSyntax { place: number } => {
            write!(line, " {number}")?
        }
        ScriptRefusal::UnknownOption { word: text }
        | ScriptRefusal::MissingOption { words: text }
        | ScriptRefusal::NotInProfile { word: text }
        | ScriptRefusal::NotInTry { word: text }
        | ScriptRefusal::Undefined { name: text }
        | ScriptRefusal::Depth { path: text }
        | ScriptRefusal::NoFile { path: text } => write!(line, " {}", text.as_str())?,
        _ => {}
    }
    Ok(())
}

/// Writes a refusal in short, and another fault in its words.
pub fn tell_fault(line: &mut String, fault: &ParseFault) -> Result<(), Fail> {
    match fault {
        ParseFault::Refused(refusal) => tell_refusal(line, refusal)?,
        _ => write!(line, "{fault}")?,
    }
    Ok(())
}

/// Writes the tokens, or why there are none.
pub fn tell_tokens(line: &mut String, read: &Result<Vec<Token>, ParseFault>) -> Result<(), Fail> {
    match read {
        Ok(tokens) => {
            for token in tokens.as_slice() {
                tell_token(line, token)?;
            }
        }
        Err(fault) => tell_fault(line, fault)?,
    }
    Ok(())
}
