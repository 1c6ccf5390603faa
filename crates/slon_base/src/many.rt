// A list of values, seen as the list of what they are seen as.
ghost use Rattle.std.specs.Prelude.{◌≡◌, ◌++◌, [], ◌∷◌, length, IfOk, OnOk, OnErr};

use std::alloc::{AllocError, Global};
use std::marker::Model;

/// A list of its own. Contracts see it as its values in order.
#[derive(Debug, Drop)]
pub struct Many<X> {
    inner: Vec<X>,
}

impl<X> Model for Many<X> {
    ghost use Rattle.std.specs.Prelude.{List};

    ghost Value = { List X };

    ghost view = { λ l. l.inner.items };
}

impl<X: Drop> Many<X> {
    /// An empty list.
    pub fn new(alloc: Global) -> Many<X>
        ensures { result ≡ [] }
    {
        Many {
            inner: Vec::new(alloc),
        }
    }

    /// An empty list with room for this many values.
    pub fn with_capacity(alloc: Global, capacity: usize) -> Result<Many<X>, AllocError>
        ensures { IfOk result (λ l. l ≡ []) }
    {
        Ok(Many {
            inner: Vec::with_capacity(alloc, capacity)?,
        })
    }

    /// The values in order.
    pub fn as_slice(&self) -> &[X]
        ensures value { result.now ≡ self.now }
    {
        self.inner.as_slice()
    }

    /// How many values there are.
    pub fn len(&self) -> usize
        ensures { result ≡ length self.now }
    {
        self.inner.len()
    }

    /// The values in order, as a vector.
    pub fn into_vec(self) -> Vec<X>
        ensures { result.items ≡ self }
    {
        let Many { inner } = self;
        inner
    }

    /// These values, with no copy.
    pub fn from_vec(values: Vec<X>) -> Many<X>
        ensures { result ≡ values.items }
    {
        Many { inner: values }
    }

    /// Adds a value at the end, or leaves the list as it was.
    pub fn push(&mut self, value: X) -> Result<(), AllocError>
        ensures ok { OnOk result (self.new ≡ self.old ++ value ∷ []) }
        ensures err { OnErr result (self.new ≡ self.old) }
    {
        self.inner.push(value)?;
        Ok(())
    }
}
