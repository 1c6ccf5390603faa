// Bytes of which few are kept with no allocation.
ghost use Rattle.std.specs.Prelude.{◌≡◌, IfOk, length, take};
ghost use Rattle.slon_base.specs.Compact.{bytes_at, IsPadded};

use std::alloc::{AllocError, Global};

/// How many bytes are kept in the value itself.
pub(crate) const INLINE_LEN: usize = 30;

/// Where bytes stand.
#[derive(Debug)]
pub(crate) enum Compact {
    /// In the value: the first `len` of these. Of a key the others are zero.
    Inline { len: u8, bytes: [u8; INLINE_LEN] },
    /// In an allocation.
    Heap(Vec<u8>),
}

// By hand, so that each use is one call and no choice between the two.
impl Drop for Compact {
    fn drop(self) {
        match self {
            Compact::Inline { len: _, bytes: _ } => {}
            Compact::Heap(bytes) => drop(bytes),
        }
    }
}

impl Compact {
    /// The same bytes, copied.
    #[inline(always)]
    pub(crate) fn from_slice(alloc: Global, slice: &[u8]) -> Result<Compact, AllocError>
        ensures bytes { IfOk result (λ kept. bytes_at kept ≡ slice.now) }
        ensures padded { IfOk result IsPadded }
    {
        if slice.len() > INLINE_LEN {
            return from_long(alloc, slice);
        }
        let mut bytes = [0; INLINE_LEN];
        bytes[..slice.len()].copy_from_slice(slice);
        Ok(Compact::Inline {
            len: slice.len() as u8,
            bytes,
        })
    }

    /// The same bytes, copied, where they are the first of others. Where there are enough of those the value takes as
    /// many as it keeps, since that costs less than to take few.
    #[inline(always)]
    pub(crate) fn from_front(
        alloc: Global,
        slice: &[u8],
        whole: &[u8],
    ) -> Result<Compact, AllocError>
        requires { take (length slice.now) whole.now ≡ slice.now }
        ensures { IfOk result (λ kept. bytes_at kept ≡ slice.now) }
    {
        if slice.len() <= INLINE_LEN {
            if let Some(first) = whole.first_chunk::<INLINE_LEN>() {
                return Ok(first_of(first, slice.len() as u8));
            }
        }
        Compact::from_slice(alloc, slice)
    }

    /// The same bytes once more. Those in the value itself are copied with it, however many they are.
    pub(crate) fn copy(&self, alloc: Global) -> Result<Compact, AllocError>
        ensures bytes { IfOk result (λ kept. bytes_at kept ≡ bytes_at self.now) }
        ensures padded { IsPadded self.now → IfOk result IsPadded }
    {
        match self {
            Compact::Inline { len, bytes } => Ok(Compact::Inline {
                len: *len,
                bytes: *bytes,
            }),
            Compact::Heap(bytes) => Compact::from_slice(alloc, bytes.as_slice()),
        }
    }

    /// The bytes.
    pub(crate) fn as_slice(&self) -> &[u8]
        ensures { result.now ≡ bytes_at self.now }
    {
        match self {
            Compact::Inline { len, bytes } => front(bytes, usize::from(*len)),
            Compact::Heap(bytes) => bytes.as_slice(),
        }
    }
}

/// The same bytes, copied into an allocation.
#[inline(never)]
fn from_long(alloc: Global, slice: &[u8]) -> Result<Compact, AllocError>
    ensures bytes { IfOk result (λ kept. bytes_at kept ≡ slice.now) }
    ensures padded { IfOk result IsPadded }
{
    Ok(Compact::Heap(Vec::from_slice(alloc, slice)?))
}

/// The first `len` of these bytes, in a value.
fn first_of(bytes: &[u8; INLINE_LEN], len: u8) -> Compact
    ensures { bytes_at result ≡ take len bytes.now }
{
    Compact::Inline { len, bytes: *bytes }
}

/// The first `len` of the bytes.
pub(crate) fn front(bytes: &[u8], len: usize) -> &[u8]
    ensures { result.now ≡ take len bytes.now }
{
    &bytes[..len.min(bytes.len())]
}
