// Where a token of a script comes to stand.
ghost use Rattle.std.specs.Prelude.{◌≡◌, ◌&&◌, not};
ghost use Rattle.slonik_expand.specs.Expansion.{first_place, place_after};

use slonik_tokens::{Sign, Token};

/// Where the next token of a script comes to stand.
#[derive(Clone, Copy)]
pub(crate) struct Place {
    // it is the first one, or follows `;`, `{` or `}`
    starts: bool,
    // it follows a TRY that starts a statement
    tries: bool,
    // it stands in a try block
    inside: bool,
}

impl Place {
    /// The place of the first token.
    pub(crate) fn first() -> Place
        ensures { result ≡ first_place }
    {
        Place {
            starts: true,
            tries: false,
            inside: false,
        }
    }

    /// The place behind a token that stands here.
    pub(crate) fn after(self, token: &Token) -> Place
        ensures { result ≡ place_after token.now self }
    {
        let opens = token.is_sign(Sign::OpenBrace);
        let closes = token.is_sign(Sign::CloseBrace);
        Place {
            starts: token.is_sign(Sign::Semicolon) || opens || closes,
            tries: self.starts && token.is_word(b"try"),
            inside: !closes && (self.inside || opens && self.tries),
        }
    }

    /// Whether a DEFINE or an INCLUDE counts here.
    pub(crate) fn takes_forms(self) -> bool
        ensures { result ≡ (self.starts && not self.inside) }
    {
        self.starts && !self.inside
    }
}
