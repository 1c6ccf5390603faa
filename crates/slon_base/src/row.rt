// Rows are spelled part by part. What was written is read back, whatever follows, and nothing else is read.
ghost use Rattle.std.specs.Prelude.{◌≡◌, ◌<◌, ◌≤◌, ◌^◌, ◌++◌, [], ◌∷◌, ℕ, List, length, take, IfOk, IfErr, OnOk, OnErr};
ghost use Rattle.std.specs.Prelude.{IfSome, IfNone, IsOk, IsOkAnd, ◌↔◌, Ok, Err};
ghost use Rattle.std.specs.Str.{IsUtf8};
ghost use Rattle.slon_base.specs.Codec.{number_bytes, count_bytes, text_bytes, IsNoByte, IsNoNumber, IsNoCount};
ghost use Rattle.slon_base.specs.Codec.{HasText, IsNoText, IsNoStr, IsShortText, MatchRead};
ghost use Rattle.slon_base.specs.declared.fault.RowFault.TheVariants.{Trailing};

use crate::text::is_text;
use crate::{Bytes, RowFault, Text};
use std::alloc::{AllocError, Global};
use std::marker::Model;
use std::str;

/// The greatest number that a row holds.
pub const STORED_LIMIT: u64 = 9_223_372_036_854_775_807;

/// How many bytes a count has.
const COUNT_LEN: usize = 4;

/// A row that is being written. Contracts see its bytes so far.
#[derive(Debug, Drop)]
pub struct RowOut {
    inner: Vec<u8>,
}

impl Model for RowOut {
    ghost use Rattle.std.specs.Prelude.{List, ℕ};

    ghost Value = { List ℕ };

    ghost view = { λ r. r.inner.items };
}

impl RowOut {
    /// An empty row.
    pub fn new(alloc: Global) -> RowOut
        ensures { result ≡ [] }
    {
        RowOut {
            inner: Vec::new(alloc),
        }
    }

    /// An empty row with room for this many bytes.
    pub fn with_capacity(alloc: Global, capacity: usize) -> Result<RowOut, AllocError>
        ensures { IfOk result (λ r. r ≡ []) }
    {
        Ok(RowOut {
            inner: Vec::with_capacity(alloc, capacity)?,
        })
    }

    /// Takes all bytes away again, and keeps the room for them.
    pub fn clear(&mut self)
        ensures { self.new ≡ [] }
    {
        self.inner.clear();
    }

    /// Adds one byte, or leaves the row as it was.
    pub fn byte(&mut self, byte: u8) -> Result<(), AllocError>
        ensures ok { OnOk result (self.new ≡ self.old ++ byte ∷ []) }
        ensures err { OnErr result (self.new ≡ self.old) }
    {
        self.inner.push(byte)?;
        Ok(())
    }

    /// Adds a number, or leaves the row as it was.
    #[tactic(auto, unfolding(crate::specs::Codec::number_bytes))]
    pub fn u64(&mut self, number: u64) -> Result<(), AllocError>
        requires { number < 2 ^ 63 }
        ensures ok { OnOk result (self.new ≡ self.old ++ number_bytes number) }
        ensures err { OnErr result (self.new ≡ self.old) }
    {
        self.inner.extend_from_slice(&number.to_be_bytes())
    }

    /// Adds a text, or leaves the row as it was.
    pub fn text(&mut self, text: &[u8]) -> Result<(), AllocError>
        requires short { length text.now < 2 ^ 32 }
        requires utf8 { IsUtf8 text.now }
        ensures ok { OnOk result (self.new ≡ self.old ++ text_bytes text.now) }
        ensures err { OnErr result (self.new ≡ self.old) }
    {
        let start = self.inner.len();
        self.inner.reserve(COUNT_LEN + text.len())?;
        self.count(text.len() as u32)?;
        if let Err(error) = self.inner.extend_from_slice(text) {
            self.inner.truncate(start);
            return Err(error);
        }
        Ok(())
    }

    /// Adds a count, or leaves the row as it was.
    #[tactic(auto, unfolding(crate::specs::Codec::count_bytes))]
    pub fn count(&mut self, count: u32) -> Result<(), AllocError>
        ensures ok { OnOk result (self.new ≡ self.old ++ count_bytes count) }
        ensures err { OnErr result (self.new ≡ self.old) }
    {
        self.inner.extend_from_slice(&count.to_be_bytes())
    }

    /// Adds bytes that are spelled already, or leaves the row as it was.
    pub fn bytes(&mut self, bytes: &[u8]) -> Result<(), AllocError>
        ensures ok { OnOk result (self.new ≡ self.old ++ bytes.now) }
        ensures err { OnErr result (self.new ≡ self.old) }
    {
        self.inner.extend_from_slice(bytes)
    }

    /// How many bytes it has so far.
    pub fn len(&self) -> usize
        ensures { result ≡ length self.now }
    {
        self.inner.len()
    }

    /// Its bytes so far.
    pub fn as_slice(&self) -> &[u8]
        ensures { result.now ≡ self.now }
    {
        self.inner.as_slice()
    }

    /// The bytes of the row.
    pub fn finish(self) -> Bytes
        ensures { result ≡ self }
    {
        let RowOut { inner } = self;
        Bytes::from_vec(inner)
    }
}

/// A row that is being read. Contracts see the bytes that are left.
#[derive(Drop)]
pub struct RowIn<'a> {
    rest: &'a [u8],
}

impl<'a> Model for RowIn<'a> {
    ghost use Rattle.std.specs.Prelude.{List, ℕ};

    ghost Value = { List ℕ };

    ghost view = { λ r. r.rest.now };
}

pub(crate) fn number_at(bytes: &[u8]) -> Option<(u64, &[u8])>
    ensures found { IfSome result (λ r. (r.0 < 2 ^ 64) × (bytes.now ≡ number_bytes r.0 ++ r.1.now)) }
    ensures short { IfNone result (length bytes.now < 8) }
{
    if bytes.len() < 8 {
        return None;
    }
    let (front, rest) = bytes.split_at(8);
    let number = u64::from_be_bytes([
        front[0], front[1], front[2], front[3], front[4], front[5], front[6], front[7],
    ]);
    Some((number, rest))
}

fn count_at(bytes: &[u8]) -> Option<(u32, &[u8])>
    ensures found { IfSome result (λ r. (r.0 < 2 ^ 32) × (bytes.now ≡ count_bytes r.0 ++ r.1.now)) }
    ensures short { IfNone result (length bytes.now < 4) }
{
    if bytes.len() < 4 {
        return None;
    }
    let (front, rest) = bytes.split_at(4);
    let count = u32::from_be_bytes([front[0], front[1], front[2], front[3]]);
    Some((count, rest))
}

// The bytes of a text at the front, which may be no UTF-8, what follows, and both together.
#[inline(always)]
fn text_at(bytes: &[u8]) -> Option<(&[u8], &[u8], &[u8])>
    ensures found { IfSome result (λ r. (length r.0.now < 2 ^ 32) × (bytes.now ≡ text_bytes r.0.now ++ r.1.now)) }
    ensures both { IfSome result (λ r. take (length r.0.now) r.2.now ≡ r.0.now) }
    ensures short { IfNone result (IsShortText bytes.now) }
{
    let (count, after) = count_at(bytes)?;
    let len = count as usize;
    if after.len() < len {
        return None;
    }
    let (front, rest) = after.split_at(len);
    Some((front, rest, after))
}

impl<'a> RowIn<'a> {
    /// The row of these bytes, from its front.
    pub fn new(bytes: &'a [u8]) -> RowIn<'a>
        ensures { result ≡ bytes.now }
    {
        RowIn { rest: bytes }
    }

    /// Reads one byte. A fault leaves all as it was.
    pub fn byte(&mut self) -> Result<u8, RowFault>
        ensures found { IfOk result (λ b. self.old ≡ b ∷ self.new) }
        ensures fault { IfErr result (IsNoByte self.old) }
        ensures err { OnErr result (self.new ≡ self.old) }
    {
        match self.rest {
            [] => Err(RowFault::Short),
            [byte, rest @ ..] => {
                let byte = *byte;
                self.rest = rest;
                Ok(byte)
            }
        }
    }

    /// Reads a number. A fault leaves all as it was.
    pub fn u64(&mut self) -> Result<u64, RowFault>
        ensures found { IfOk result (λ n. (n < 2 ^ 63) × (self.old ≡ number_bytes n ++ self.new)) }
        ensures again { (n : ℕ) (rest : List ℕ) → n < 2 ^ 63 → self.old ≡ number_bytes n ++ rest → (result ≡ Ok n)
            × (self.new ≡ rest) }
        ensures fault { IfErr result (IsNoNumber self.old) }
        ensures err { OnErr result (self.new ≡ self.old) }
    {
        match number_at(self.rest) {
            None => Err(RowFault::Short),
            Some((number, rest)) => {
                if number > STORED_LIMIT {
                    return Err(RowFault::NotCanonical);
                }
                self.rest = rest;
                Ok(number)
            }
        }
    }

    /// Reads a text. A fault leaves all as it was.
    #[inline(always)]
    pub fn text(&mut self, alloc: Global) -> Result<Text, RowFault>
        ensures found { IfOk result (λ t. (length t < 2 ^ 32) × IsUtf8 t × (self.old ≡ text_bytes t ++ self.new)) }
        ensures again { (t rest : List ℕ) → length t < 2 ^ 32 → IsUtf8 t → self.old ≡ text_bytes t ++ rest →
            MatchRead result t rest self.new }
        ensures fault { IfErr result (IsNoText self.old) }
        ensures err { OnErr result (self.new ≡ self.old) }
    {
        let Some((front, rest, both)) = text_at(self.rest) else {
            return Err(RowFault::Short);
        };
        match Text::from_front(alloc, front, both) {
            Err(_) => Err(RowFault::NoMemory),
            Ok(None) => Err(RowFault::NotCanonical),
            Ok(Some(text)) => {
                self.rest = rest;
                Ok(text)
            }
        }
    }

    /// Reads a text where it is, with no copy. A fault leaves all as it was.
    #[inline(always)]
    pub fn str(&mut self) -> Result<&'a str, RowFault>
        ensures found { IfOk result (λ t. (length t.now < 2 ^ 32) × IsUtf8 t.now
            × (self.old ≡ text_bytes t.now ++ self.new)) }
        ensures again { (t rest : List ℕ) → length t < 2 ^ 32 → IsUtf8 t → self.old ≡ text_bytes t ++ rest →
            IsOkAnd result (λ found. found.now ≡ t) × (self.new ≡ rest) }
        ensures fault { IfErr result (IsNoStr self.old) }
        ensures err { OnErr result (self.new ≡ self.old) }
    {
        let Some((front, rest, _)) = text_at(self.rest) else {
            return Err(RowFault::Short);
        };
        if !is_text(front) {
            return Err(RowFault::NotCanonical);
        }
        self.rest = rest;
        Ok(unsafe { str::from_utf8_unchecked(front) })
    }

    /// Reads the text that is in front, where it is. That there is one is known, and not looked at again.
    #[inline(always)]
    pub fn known_str(&mut self) -> &'a str
        requires { HasText self.old }
        ensures { (t rest : List ℕ) → length t < 2 ^ 32 → self.old ≡ text_bytes t ++ rest →
            (result.now ≡ t) × (self.new ≡ rest) }
    {
        let Some((front, rest, _)) = text_at(self.rest) else {
            unreachable!();
        };
        self.rest = rest;
        unsafe { str::from_utf8_unchecked(front) }
    }

    /// Reads a count. A fault leaves all as it was.
    pub fn count(&mut self) -> Result<u32, RowFault>
        ensures found { IfOk result (λ n. self.old ≡ count_bytes n ++ self.new) }
        ensures again { (n : ℕ) (rest : List ℕ) → n < 2 ^ 32 → self.old ≡ count_bytes n ++ rest → (result ≡ Ok n)
            × (self.new ≡ rest) }
        ensures fault { IfErr result (IsNoCount self.old) }
        ensures err { OnErr result (self.new ≡ self.old) }
    {
        match count_at(self.rest) {
            None => Err(RowFault::Short),
            Some((count, rest)) => {
                self.rest = rest;
                Ok(count)
            }
        }
    }

    /// The bytes that are left.
    pub fn rest(&self) -> &'a [u8]
        ensures { result.now ≡ self.now }
    {
        self.rest
    }

    /// Ends the row: nothing may be left.
    pub fn end(&self) -> Result<(), RowFault>
        ensures ok { IsOk result ↔ (self.now ≡ []) }
        ensures fault { IfErr result (λ f. f ≡ Trailing) }
    {
        if self.rest.is_empty() {
            Ok(())
        } else {
            Err(RowFault::Trailing)
        }
    }
}
