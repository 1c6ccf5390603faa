// What names stand for.
ghost use Rattle.std.specs.Prelude.{◌≡◌, ◌<◌, ℕ, List, Some, true, length, map};
ghost use Rattle.indexmap.specs.IndexMap.{get_by_text};
ghost use Rattle.slonik_expand.specs.Shared.{capped, meanings, are_ordered};

use crate::definition::{Definition, Part};
use indexmap::IndexMap;
use slon_base::Text;
use slonik_script::ScriptRefusal;
use slonik_tokens::{ParseFault, Token};
use std::alloc::{AllocError, Global};

/// What names stand for. A definition that uses another shares it, so what is kept grows with the text of the
/// definitions and not with the tokens that they stand for.
#[derive(Drop)]
pub(crate) struct Definitions {
    // each that was made, also those whose name stands for another one since
    made: Vec<Definition>,
    // the place of the definition that a name stands for
    places: IndexMap<String, usize>,
    ghost ordered: { are_ordered 0 made.items ≡ true },
    ghost counted: { map (λ d. d.len) made.items ≡ map (λ tokens. capped (length tokens)) (meanings made.items) },
    ghost placed: { (name : List ℕ) (place : ℕ) → get_by_text places name ≡ Some place → place < length made.items },
}

impl Definitions {
    ghost use Rattle.std.specs.Prelude.{◌++◌, [], ◌∷◌, None, OnOk, IfOk, if◌then◌else◌, ◌==◌};
    ghost use Rattle.slonik_expand.specs.Expansion.{replaced, replaced_one};
    ghost use Rattle.slonik_tokens.specs.declared.token.Token.{Token as AToken};
    ghost use Rattle.slonik_expand.specs.declared.definition.Part.TheVariants.{Earlier};
    ghost use Rattle.slonik_expand.specs.Shared.{meaning, parts_at, parts_tokens, only_earlier, made_with};
    ghost use Rattle.slonik_expand.specs.Steps.{names_of, Means, Adds, AddsAll, Settles, Defines};

    /// No name stands for anything.
    pub(crate) fn new(alloc: Global) -> Definitions
        ensures { (name : List ℕ) → names_of result name ≡ None }
    {
        Definitions {
            made: Vec::new(alloc),
            places: IndexMap::new(alloc),
        }
    }

    /// The place of the definition that a name stands for.
    pub(crate) fn find(&self, name: &Text) -> Option<usize>
        ensures { result ≡ get_by_text self.now.places name.now }
    {
        self.places.get(name.as_str()).copied()
    }

    /// The parts of the definition at a place.
    pub(crate) fn parts(&self, place: usize) -> &[Part]
        ensures { result.now ≡ parts_at self.now.made.items place }
    {
        match self.made.get(place) {
            Some(definition) => definition.parts.as_slice(),
            None => &[],
        }
    }

    /// How many tokens the definition at a place stands for, up to the last value of a `usize`.
    pub(crate) fn len(&self, place: usize) -> usize
        ensures { result ≡ capped (length (meaning self.now.made.items place)) }
    {
        match self.made.get(place) {
            Some(definition) => definition.len,
            None => 0,
        }
    }

    /// Adds a token, or the definition that its name stands for.
    fn add(
        &self,
        alloc: Global,
        definition: &mut Definition,
        token: &Token,
    ) -> Result<(), ParseFault>
        ensures { Adds self.now.made.items (replaced_one (names_of self.now) token.now) definition.old definition.new
            result }
    {
        match token {
            Token::NameUse(name) => match self.find(name) {
                Some(place) => {
                    self.add_earlier(definition, place)?;
                    Ok(())
                }
                None => {
                    let name = name.copy(alloc)?;
                    Err(ParseFault::Refused(ScriptRefusal::Undefined { name }))
                }
            },
            _ => {
                definition.push(Part::Single(token.copy(alloc)?), 1)?;
                Ok(())
            }
        }
    }

    /// Adds an earlier definition, unless that stands for nothing.
    fn add_earlier(&self, definition: &mut Definition, place: usize) -> Result<(), AllocError>
        requires { place < length self.now.made.items }
        ensures means { OnOk result ((tokens : List AToken) → Means self.now.made.items definition.old tokens
            → Means self.now.made.items definition.new (tokens ++ meaning self.now.made.items place)) }
        ensures parts { OnOk result (definition.new.parts.items
            ≡ (if length (meaning self.now.made.items place) == 0 then definition.old.parts.items
            else definition.old.parts.items ++ Earlier place ∷ [])) }
    {
        let len = self.len(place);
        if len > 0 {
            definition.push(Part::Earlier(place), len)?;
        }
        Ok(())
    }

    /// The definition of these tokens.
    fn definition_of(&self, alloc: Global, tokens: &[Token]) -> Result<Definition, ParseFault>
        ensures { AddsAll self.now.made.items (replaced (names_of self.now) tokens.now) result }
    {
        let mut definition = Definition::new(alloc);
        for token in tokens {
            self.add(alloc, &mut definition, token)?;
        }
        Ok(definition)
    }

    /// The place of a definition that stands for the same as this one, which is made here unless it is an earlier one.
    fn settle(&mut self, definition: Definition) -> Result<usize, AllocError>
        requires { Means self.old.made.items definition
            (parts_tokens (meanings self.old.made.items) definition.parts.items) }
        ensures settles { IfOk result (λ place. Settles self.old.made.items definition self.new.made.items place) }
        ensures made { OnOk result (self.new.made.items
            ≡ made_with definition (only_earlier definition.parts.items) self.old.made.items) }
        ensures places { self.new.places ≡ self.old.places }
    {
        match definition.only_earlier() {
            Some(place) => Ok(place),
            None => {
                self.made.push(definition)?;
                Ok(self.made.len() - 1)
            }
        }
    }

    /// A name stands for these tokens from now on, with the names in them replaced.
    pub(crate) fn define(
        &mut self,
        alloc: Global,
        name: &Text,
        tokens: &[Token],
    ) -> Result<(), ParseFault>
        ensures { Defines (names_of self.old) name.now (replaced (names_of self.old) tokens.now) (names_of self.new)
            result }
    {
        let definition = self.definition_of(alloc, tokens)?;
        let place = self.settle(definition)?;
        let name = String::from_str(alloc, name.as_str())?;
        self.places.insert(name, place)?;
        Ok(())
    }
}
