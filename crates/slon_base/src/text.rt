// Texts are UTF-8 and seen as their bytes.
ghost use Rattle.std.specs.Prelude.{◌≡◌, ◌↔◌, IfOk, IsTrue, MatchOption, length, string_bytes, take};
ghost use Rattle.std.specs.Str.{IsUtf8};

use crate::compact::Compact;
use std::alloc::{AllocError, Global};
use std::marker::Model;
use std::str;

/// A text of its own, a short one with no allocation. Contracts see it as its bytes.
#[derive(Debug, Drop)]
pub struct Text {
    inner: Compact,
}

impl Model for Text {
    ghost use Rattle.std.specs.Prelude.{◌≡◌, List, ℕ, true};
    ghost use Rattle.std.specs.Str.{is_utf8};

    ghost Value = { List ℕ };

    ghost use Rattle.slon_base.specs.Compact.{bytes_at};

    ghost view = { λ t. bytes_at t.inner };

    ghost invariant = { λ t. is_utf8 (bytes_at t.inner) ≡ true };
}

impl Text {
    /// The same text, copied.
    pub fn from_str(alloc: Global, text: &str) -> Result<Text, AllocError>
        ensures { IfOk result (λ t. t ≡ text.now) }
    {
        Ok(Text {
            inner: Compact::from_slice(alloc, text.as_bytes())?,
        })
    }

    /// This text, with no copy.
    pub fn from_string(text: String) -> Text
        ensures { result ≡ string_bytes text }
    {
        Text {
            inner: Compact::Heap(text.into_bytes()),
        }
    }

    /// The text of these bytes, or `None` exactly where they are not UTF-8.
    pub fn from_bytes(alloc: Global, bytes: &[u8]) -> Result<Option<Text>, AllocError>
        ensures { IfOk result (λ found. MatchOption found (¬ (IsUtf8 bytes.now)) (λ t. (t ≡ bytes.now)
            × IsUtf8 bytes.now)) }
    {
        Text::from_front(alloc, bytes, bytes)
    }

    /// The same, where these bytes are the first of others.
    #[inline(always)]
    pub(crate) fn from_front(
        alloc: Global,
        bytes: &[u8],
        whole: &[u8],
    ) -> Result<Option<Text>, AllocError>
        requires { take (length bytes.now) whole.now ≡ bytes.now }
        ensures { IfOk result (λ found. MatchOption found (¬ (IsUtf8 bytes.now)) (λ t. (t ≡ bytes.now)
            × IsUtf8 bytes.now)) }
    {
        if !is_text(bytes) {
            return Ok(None);
        }
        let inner = Compact::from_front(alloc, bytes, whole)?;
        Ok(Some(Text { inner }))
    }

    /// The same text, copied.
    pub fn copy(&self, alloc: Global) -> Result<Text, AllocError>
        ensures { IfOk result (λ t. t ≡ self.now) }
    {
        Ok(Text {
            inner: self.inner.copy(alloc)?,
        })
    }

    /// The text as Rust has it.
    pub fn as_str(&self) -> &str
        ensures value { result.now ≡ self.now }
        ensures text { IsUtf8 self.now }
    {
        unsafe { str::from_utf8_unchecked(self.inner.as_slice()) }
    }

    /// The bytes of the text.
    pub fn as_slice(&self) -> &[u8]
        ensures value { result.now ≡ self.now }
        ensures text { IsUtf8 self.now }
    {
        self.inner.as_slice()
    }
}

/// Whether the bytes are UTF-8.
pub(crate) fn is_text(bytes: &[u8]) -> bool
    ensures { IsTrue result ↔ IsUtf8 bytes.now }
{
    if is_ascii(bytes) {
        return true;
    }
    str::from_utf8(bytes).is_ok()
}

/// Whether each of the bytes is ASCII. Most texts are short, and so this costs less than to read UTF-8.
fn is_ascii(bytes: &[u8]) -> bool
    ensures { IsTrue result → IsUtf8 bytes.now }
{
    for byte in bytes {
        if !byte.is_ascii() {
            return false;
        }
    }
    true
}
