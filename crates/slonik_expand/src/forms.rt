// What the first of some tokens begins.
ghost use Rattle.std.specs.Prelude.{◌≡◌, ◌≤◌, ℕ, false, drop, None};
ghost use Rattle.std.specs.Option.{option_map};
ghost use Rattle.std.specs.List.{position};
ghost use Rattle.slonik_tokens.specs.Tokens.{is_sign};
ghost use Rattle.slonik_expand.specs.Expansion.{before_semicolon, definition_in, inclusion_in, form_at};
ghost use Rattle.slonik_expand.specs.Steps.{form_seen};

use crate::place::Place;
use slon_base::Text;
use slonik_tokens::{Sign, Token};

/// What a token begins.
#[derive(Clone, Copy)]
pub(crate) enum Form<'a> {
    /// The token itself.
    Itself,
    /// `@name`.
    Use(&'a Text),
    /// `DEFINE name tokens ;`.
    Definition(&'a Text, &'a [Token]),
    /// `INCLUDE <path> ;`.
    Inclusion(&'a Text),
}

/// How many tokens there are up to the last `;` with it.
pub(crate) fn closed_len(tokens: &[Token]) -> usize
    ensures { (n : ℕ) → result ≤ n → before_semicolon (drop n tokens.now) ≡ None }
{
    let mut len = 0;
    for (i, token) in tokens.iter().enumerate() {
        if token.is_sign(Sign::Semicolon) {
            len = i + 1;
        }
    }
    len
}

/// Where the first `;` stands.
fn semicolon_at(tokens: &[Token]) -> Option<usize>
    ensures { result ≡ position (λ token. is_sign Sign.Semicolon token) tokens.now }
{
    tokens
        .iter()
        .position(|token| token.is_sign(Sign::Semicolon))
}

/// The tokens before the first `;`, if there is one.
fn before_semicolon(tokens: &[Token]) -> Option<&[Token]>
    ensures { option_map (λ front. front.now) result ≡ before_semicolon tokens.now }
{
    let end = semicolon_at(tokens)?;
    Some(&tokens[..end])
}

/// What begins with DEFINE and goes on so, where `closes` may be false only if no `;` follows.
fn definition_in<'a>(rest: &'a [Token], closes: bool) -> Form<'a>
    requires { closes ≡ false → before_semicolon (drop 1 rest.now) ≡ None }
    ensures { form_seen result ≡ definition_in rest.now }
{
    match rest {
        [Token::Word(name), body @ ..] if closes => match before_semicolon(body) {
            Some(tokens) => Form::Definition(name, tokens),
            None => Form::Itself,
        },
        _ => Form::Itself,
    }
}

/// What begins with INCLUDE and goes on so.
fn inclusion_in<'a>(rest: &'a [Token]) -> Form<'a>
    ensures { form_seen result ≡ inclusion_in rest.now }
{
    match rest {
        [Token::Path(path), token, ..] if token.is_sign(Sign::Semicolon) => Form::Inclusion(path),
        _ => Form::Itself,
    }
}

/// What begins with this token at this place and goes on so, where `closes` may be false only if no `;` stands behind
/// the next token.
pub(crate) fn form_at<'a>(
    place: Place,
    token: &'a Token,
    rest: &'a [Token],
    closes: bool,
) -> Form<'a>
    requires { closes ≡ false → before_semicolon (drop 1 rest.now) ≡ None }
    ensures { form_seen result ≡ form_at place token.now rest.now }
{
    match token {
        Token::NameUse(name) => Form::Use(name),
        Token::Word(_) if place.takes_forms() => {
            if token.is_word(b"define") {
                definition_in(rest, closes)
            } else if token.is_word(b"include") {
                inclusion_in(rest)
            } else {
                Form::Itself
            }
        }
        _ => Form::Itself,
    }
}
