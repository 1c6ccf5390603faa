// The tokens that came out.
ghost use Rattle.std.specs.Prelude.{◌≡◌, [], ◌∷◌, OnOk};
ghost use Rattle.slonik_expand.specs.Expansion.{first_place};
ghost use Rattle.slonik_expand.specs.Shared.{meaning};
ghost use Rattle.slonik_expand.specs.Steps.{IsBehind, Puts};

use crate::definition::Part;
use crate::definitions::Definitions;
use crate::place::Place;
use slonik_script::ScriptRefusal;
use slonik_tokens::{ParseFault, Token};
use std::alloc::{AllocError, Global};

/// The greatest number of tokens of a script.
const TOKEN_LIMIT: usize = 65_536;

/// The tokens that came out, and the place of the next one.
#[derive(Drop)]
pub(crate) struct Output {
    pub(crate) tokens: Vec<Token>,
    pub(crate) place: Place,
}

impl Output {
    /// Nothing came out yet.
    pub(crate) fn new(alloc: Global) -> Output
        ensures tokens { result.tokens.items ≡ [] }
        ensures place { result.place ≡ first_place }
    {
        Output {
            tokens: Vec::new(alloc),
            place: Place::first(),
        }
    }

    /// A token comes out too, if there are not too many then.
    pub(crate) fn put(&mut self, alloc: Global, token: &Token) -> Result<(), ParseFault>
        ensures { Puts self.old (token.now ∷ []) self.new result }
    {
        if self.tokens.len() >= TOKEN_LIMIT {
            return Err(ParseFault::Refused(ScriptRefusal::TooMany));
        }
        self.emit(alloc, token)?;
        Ok(())
    }

    /// All that the definition at a place stands for comes out too, if there are not too many tokens then.
    pub(crate) fn put_definition(
        &mut self,
        alloc: Global,
        definitions: &Definitions,
        place: usize,
    ) -> Result<(), ParseFault>
        ensures { Puts self.old (meaning definitions.now.made.items place) self.new result }
    {
        if self.tokens.len().saturating_add(definitions.len(place)) > TOKEN_LIMIT {
            return Err(ParseFault::Refused(ScriptRefusal::TooMany));
        }
        self.emit_definition(alloc, definitions, place)?;
        Ok(())
    }

    /// A token comes out.
    fn emit(&mut self, alloc: Global, token: &Token) -> Result<(), AllocError>
        ensures { OnOk result (IsBehind self.old (token.now ∷ []) self.new) }
    {
        self.tokens.push(token.copy(alloc)?)?;
        self.place = self.place.after(token);
        Ok(())
    }

    /// All that the definition at a place stands for comes out. Definitions may use one another in a chain of any
    /// length, so what is still to come out is kept in a list.
    fn emit_definition(
        &mut self,
        alloc: Global,
        definitions: &Definitions,
        place: usize,
    ) -> Result<(), AllocError>
        ensures { OnOk result (IsBehind self.old (meaning definitions.now.made.items place) self.new) }
    {
        let mut pending = Vec::new(alloc);
        pending.push(definitions.parts(place))?;
        while let Some(parts) = pending.pop() {
            if let Some((part, rest)) = parts.split_first() {
                pending.push(rest)?;
                match part {
                    Part::Single(token) => self.emit(alloc, token)?,
                    Part::Earlier(earlier) => pending.push(definitions.parts(*earlier))?,
                }
            }
        }
        Ok(())
    }
}
