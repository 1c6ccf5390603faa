// What was made of a script so far.
ghost use Rattle.std.specs.Prelude.{◌≡◌, ◌<◌, ◌≤◌, ℕ, List, [], ◌∷◌, drop, length, None, IfOk, IfSome};
ghost use Rattle.slonik_expand.specs.Expansion.{Making, Ending, nothing_made, put_all, within_limit, used, defined};
ghost use Rattle.slonik_expand.specs.Expansion.{replaced, before_semicolon, expand_from};
ghost use Rattle.slonik_expand.specs.Steps.{names_of, making_of, Goes, Runs};

use crate::definitions::Definitions;
use crate::forms::{Form, form_at};
use crate::output::Output;
use slon_base::Text;
use slonik_script::ScriptRefusal;
use slonik_tokens::{ParseFault, Token};
use std::alloc::Global;

/// What was made so far, and how many bytes the included files may still hold. Contracts see it by `making_of`.
#[derive(Drop)]
pub(crate) struct Progress {
    pub(crate) output: Output,
    definitions: Definitions,
    pub(crate) left: u64,
}

impl Progress {
    /// Nothing was made yet.
    pub(crate) fn new(alloc: Global, left: u64) -> Progress
        ensures { making_of result ≡ nothing_made left }
    {
        Progress {
            output: Output::new(alloc),
            definitions: Definitions::new(alloc),
            left,
        }
    }

    /// A token comes out.
    fn put(&mut self, alloc: Global, token: &Token) -> Result<(), ParseFault>
        ensures { Goes (within_limit (put_all (token.now ∷ []) (making_of self.old))) (making_of self.new) result }
    {
        self.output.put(alloc, token)
    }

    /// A name is replaced by what it stands for.
    fn put_named(&mut self, alloc: Global, name: &Text) -> Result<(), ParseFault>
        ensures { Goes (used name.now ((making_of self.old).names name.now) (making_of self.old)) (making_of self.new)
            result }
    {
        match self.definitions.find(name) {
            Some(place) => self.output.put_definition(alloc, &self.definitions, place),
            None => {
                let name = name.copy(alloc)?;
                Err(ParseFault::Refused(ScriptRefusal::Undefined { name }))
            }
        }
    }

    /// A name stands for these tokens from now on, with the names in them replaced.
    fn define(&mut self, alloc: Global, name: &Text, tokens: &[Token]) -> Result<(), ParseFault>
        ensures { Goes (defined name.now (replaced (making_of self.old).names tokens.now) (making_of self.old))
            (making_of self.new) result }
    {
        self.definitions.define(alloc, name, tokens)
    }

    /// Expands the tokens from a place on up to the next INCLUDE, and gives the place behind it and its path, or
    /// `None` at the end. No `;` stands at `closed` or behind it.
    pub(crate) fn run<'a>(
        &mut self,
        alloc: Global,
        tokens: &'a [Token],
        start: usize,
        closed: usize,
    ) -> Result<Option<(usize, &'a Text)>, ParseFault>
        requires { (n : ℕ) → closed ≤ n → before_semicolon (drop n tokens.now) ≡ None }
        ensures runs { (include : List ℕ → Making → Ending)
            → Runs include tokens.now (expand_from include 0 (drop start tokens.now) (making_of self.old))
            (making_of self.new) result }
        ensures moves { IfOk result (λ found. IfSome found (λ f. (start < length tokens.now) × (start < f.0))) }
    {
        let mut at = start;
        while at < tokens.len() {
            let token = &tokens[at];
            let rest = &tokens[at + 1..];
            match form_at(self.output.place, token, rest, at + 2 < closed) {
                Form::Itself => {
                    self.put(alloc, token)?;
                    at += 1;
                }
                Form::Use(name) => {
                    self.put_named(alloc, name)?;
                    at += 1;
                }
                Form::Definition(name, body) => {
                    self.define(alloc, name, body)?;
                    at += body.len() + 3;
                }
                Form::Inclusion(path) => return Ok(Some((at + 3, path))),
            }
        }
        Ok(None)
    }
}
