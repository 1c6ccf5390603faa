// What a definition keeps.
ghost use Rattle.std.specs.Prelude.{◌≡◌, ◌+◌, ◌++◌, [], ◌∷◌, OnOk};
ghost use Rattle.slonik_expand.specs.Shared.{capped, only_earlier};

use slonik_tokens::Token;
use std::alloc::{AllocError, Global};

/// A part of a definition.
#[derive(Drop)]
pub(crate) enum Part {
    /// A token.
    Single(Token),
    /// All that an earlier definition stands for, by its place among the definitions.
    Earlier(usize),
}

/// What stands between the name and the `;` of a DEFINE, where each name use is the definition of that name.
#[derive(Drop)]
pub(crate) struct Definition {
    pub(crate) parts: Vec<Part>,
    /// How many tokens it stands for, up to the last value of a `usize`.
    pub(crate) len: usize,
}

impl Definition {
    /// It stands for nothing yet.
    pub(crate) fn new(alloc: Global) -> Definition
        ensures parts { result.parts.items ≡ [] }
        ensures len { result.len ≡ 0 }
    {
        Definition {
            parts: Vec::new(alloc),
            len: 0,
        }
    }

    /// Adds a part that stands for this number of tokens.
    pub(crate) fn push(&mut self, part: Part, len: usize) -> Result<(), AllocError>
        ensures parts { OnOk result (self.new.parts.items ≡ self.old.parts.items ++ part ∷ []) }
        ensures len { OnOk result (self.new.len ≡ capped (self.old.len + len)) }
    {
        self.parts.push(part)?;
        self.len = self.len.saturating_add(len);
        Ok(())
    }
    /// The earlier definition that is its only part.
    pub(crate) fn only_earlier(&self) -> Option<usize>
        ensures { result ≡ only_earlier self.now.parts.items }
    {
        let [part] = self.parts.as_slice() else {
            return None;
        };
        match part {
            Part::Earlier(place) => Some(*place),
            Part::Single(_) => None,
        }
    }
}
