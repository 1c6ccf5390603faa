// Tokens of the slonik language.
ghost use Rattle.std.specs.Prelude.{◌≡◌, IfOk};
ghost use Rattle.slonik_tokens.specs.Tokens.{is_word, is_sign};

use slon_base::Text;
use std::alloc::{AllocError, Global};

/// A sign.
#[derive(Clone, Copy, Debug, PartialEq, Eq)]
pub enum Sign {
    /// `;`
    Semicolon,
    /// `,`
    Comma,
    /// `=`
    Equals,
    /// `(`
    OpenBracket,
    /// `)`
    CloseBracket,
    /// `{`
    OpenBrace,
    /// `}`
    CloseBrace,
}

/// A token, with its text.
#[derive(Drop)]
pub enum Token {
    /// A letter or `_`, and then letters, digits and `_`.
    Word(Text),
    /// Digits, with a `-` before them or none.
    Number(Text),
    /// What stands between quotes, with one quote for each two in it.
    Quoted(Text),
    /// A sign.
    Mark(Sign),
    /// The name behind an `@`.
    NameUse(Text),
    /// What stands between `<` and `>` behind the word INCLUDE.
    Path(Text),
}

impl Token {
    /// The same token, copied.
    pub fn copy(&self, alloc: Global) -> Result<Token, AllocError>
        ensures { IfOk result (λ token. token ≡ self.now) }
    {
        match self {
            Token::Word(text) => Ok(Token::Word(text.copy(alloc)?)),
            Token::Number(text) => Ok(Token::Number(text.copy(alloc)?)),
            Token::Quoted(text) => Ok(Token::Quoted(text.copy(alloc)?)),
            Token::Mark(sign) => Ok(Token::Mark(*sign)),
            Token::NameUse(text) => Ok(Token::NameUse(text.copy(alloc)?)),
            Token::Path(text) => Ok(Token::Path(text.copy(alloc)?)),
        }
    }

    /// Whether the token is this word of the language, in whatever case.
    pub fn is_word(&self, word: &[u8]) -> bool
        ensures { result ≡ is_word word.now self.now }
    {
        match self {
            Token::Word(text) => text.as_slice().eq_ignore_ascii_case(word),
            _ => false,
        }
    }

    /// Whether the token is this sign.
    pub fn is_sign(&self, sign: Sign) -> bool
        ensures { result ≡ is_sign sign self.now }
    {
        match self {
            Token::Mark(mark) => *mark == sign,
            _ => false,
        }
    }
}
