// A list of which one value is kept with no allocation.
ghost use Rattle.std.specs.Prelude.{◌≡◌, ◌++◌, ◌∷◌, [], IfOk, OnOk, OnErr};
ghost use Rattle.slon_base.specs.Few.{values_in, value_alone};
ghost use Rattle.std.specs.Mem.{FitsInMemory};

use std::alloc::{AllocError, Global};
use std::{array, mem};

/// For how many values there is room where a second one comes.
const ROOM: usize = 4;

/// Where the values of a list stand.
#[derive(Debug)]
pub(crate) enum Few<X> {
    /// There is none.
    Empty,
    /// One, in the list itself.
    One(X),
    /// In an allocation.
    Heap(Vec<X>),
}

// By hand, so that each use is one call and no choice between the three.
impl<X: Drop> Drop for Few<X> {
    fn drop(self) {
        match self {
            Few::Empty => {}
            Few::One(value) => drop(value),
            Few::Heap(values) => drop(values),
        }
    }
}

impl<X: Drop> Few<X> {
    /// An empty list with room for this many values.
    pub(crate) fn with_capacity(alloc: Global, capacity: usize) -> Result<Few<X>, AllocError>
        ensures { IfOk result (λ list. values_in list ≡ []) }
    {
        if capacity < 2 {
            return Ok(Few::Empty);
        }
        Ok(Few::Heap(Vec::with_capacity(alloc, capacity)?))
    }

    /// The values in order.
    pub(crate) fn as_slice(&self) -> &[X]
        requires { FitsInMemory X.row }
        ensures { result.now ≡ values_in self.now }
    {
        match self {
            Few::Empty => &[],
            Few::One(value) => array::from_ref(value),
            Few::Heap(values) => values.as_slice(),
        }
    }

    /// The value that stands in the list itself.
    fn alone(self) -> Option<X>
        ensures { result ≡ value_alone self }
    {
        match self {
            Few::Empty => None,
            Few::One(value) => Some(value),
            Few::Heap(_) => None,
        }
    }

    /// Adds a value at the end, or leaves the list as it was.
    #[inline(always)]
    pub(crate) fn push(&mut self, alloc: Global, value: X) -> Result<(), AllocError>
        ensures ok { OnOk result (values_in self.new ≡ values_in self.old ++ value ∷ []) }
        ensures err { OnErr result (values_in self.new ≡ values_in self.old) }
    {
        match self {
            Few::Empty => {
                *self = Few::One(value);
                Ok(())
            }
            Few::One(_) => {
                let mut values = Vec::with_capacity(alloc, ROOM)?;
                if let Some(first) = mem::replace(self, Few::Empty).alone() {
                    values.push_reserved(first);
                }
                values.push_reserved(value);
                *self = Few::Heap(values);
                Ok(())
            }
            Few::Heap(values) => {
                values.push(value)?;
                Ok(())
            }
        }
    }
}
