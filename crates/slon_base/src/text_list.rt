// A list of texts, seen as the list of their bytes.
ghost use Rattle.std.specs.Prelude.{◌≡◌, ◌++◌, [], ◌∷◌, length, IfOk, OnOk, OnErr};

use crate::Text;
use crate::few::Few;
use std::alloc::{AllocError, Global};
use std::marker::Model;

/// A list of texts, a single one with no allocation of the list. Contracts see it as the list of their bytes.
#[derive(Debug, Drop)]
pub struct TextList {
    alloc: Global,
    inner: Few<Text>,
}

impl Model for TextList {
    ghost use Rattle.std.specs.Prelude.{List, ℕ};
    ghost use Rattle.slon_base.specs.Few.{values_in};

    ghost Value = { List (List ℕ) };

    ghost view = { λ l. values_in l.inner };
}

impl TextList {
    /// An empty list.
    pub fn new(alloc: Global) -> TextList
        ensures { result ≡ [] }
    {
        TextList {
            alloc,
            inner: Few::Empty,
        }
    }

    /// An empty list with room for this many texts.
    pub fn with_capacity(alloc: Global, capacity: usize) -> Result<TextList, AllocError>
        ensures { IfOk result (λ list. list ≡ []) }
    {
        Ok(TextList {
            alloc,
            inner: Few::with_capacity(alloc, capacity)?,
        })
    }

    /// The texts in order.
    pub fn as_slice(&self) -> &[Text]
        ensures value { result.now ≡ self.now }
    {
        self.inner.as_slice()
    }

    /// How many texts there are.
    pub fn len(&self) -> usize
        ensures { result ≡ length self.now }
    {
        self.inner.as_slice().len()
    }

    /// Adds a text at the end, or leaves the list as it was.
    #[inline(always)]
    pub fn push(&mut self, text: Text) -> Result<(), AllocError>
        ensures ok { OnOk result (self.new ≡ self.old ++ text ∷ []) }
        ensures err { OnErr result (self.new ≡ self.old) }
    {
        self.inner.push(self.alloc, text)
    }
}
