// A list in a row: the count of its values, and the values.
ghost use Rattle.std.specs.Prelude.{◌≡◌, ◌++◌, ◌∷◌, [], ℕ, List, length, IfOk, OnOk};
ghost use Rattle.slon_base.specs.Codec.{all_bytes, many_bytes, AllAre, AreMany};
ghost use Rattle.store_rows.specs.Rows.{ReadAs};

use crate::Spelled;
use slon_base::{Many, RowFault, RowIn, RowOut, Text, TextList};
use std::alloc::{AllocError, Global};

/// For at most how many values there is room before the first is read.
const MOST_ROOM: u32 = 16;

/// A list that is filled value by value.
pub(crate) trait Filled<X: Spelled>: Drop {
    /// Its values.
    ghost seen: { Self → List X };

    /// An empty list, for this many values.
    fn begin(alloc: Global, count: u32) -> Result<Self, AllocError>
        ensures { IfOk result (λ l. seen l ≡ []) };

    /// Adds a value at the end.
    fn add(&mut self, value: X) -> Result<(), AllocError>
        ensures { OnOk result (seen self.new ≡ seen self.old ++ value ∷ []) };
}

impl<X: Spelled> Filled<X> for Many<X> {
    ghost seen = { λ l. l };

    fn begin(alloc: Global, count: u32) -> Result<Many<X>, AllocError> {
        Many::with_capacity(alloc, count.min(MOST_ROOM) as usize)
    }

    fn add(&mut self, value: X) -> Result<(), AllocError> {
        self.push(value)
    }
}

impl Filled<Text> for TextList {
    ghost seen = { λ l. l };

    fn begin(alloc: Global, count: u32) -> Result<TextList, AllocError> {
        TextList::with_capacity(alloc, count.min(MOST_ROOM) as usize)
    }

    fn add(&mut self, text: Text) -> Result<(), AllocError> {
        self.push(text)
    }
}

/// Reads a list of this count of values.
fn read_many<X: Spelled, L: Filled<X>>(
    alloc: Global,
    row: &mut RowIn<'_>,
    count: u32,
) -> Result<L, RowFault>
    ensures can { IfOk result (λ l. (length (L.seen l) ≡ count) × AllAre X.Can (L.seen l)) }
    ensures found { IfOk result (λ l. row.old ≡ all_bytes X.bytes (L.seen l) ++ row.new) }
    ensures again { (xs : List X) (rest : List ℕ) → AllAre X.Can xs → count ≡ length xs →
        row.old ≡ all_bytes X.bytes xs ++ rest → ReadAs L.seen xs rest result row.new }
{
    let mut found = L::begin(alloc, count)?;
    for _ in 0..count {
        let value = X::read(alloc, row)?;
        found.add(value)?;
    }
    Ok(found)
}

/// Spells a list of these values.
#[tactic(auto, unfolding(slon_base::specs::Codec::many_bytes))]
fn spell_many<X: Spelled>(values: &[X], out: &mut RowOut) -> Result<(), AllocError>
    requires { AreMany X.Can values.now }
    ensures { OnOk result (out.new ≡ out.old ++ many_bytes X.bytes values.now) }
{
    out.count(values.len() as u32)?;
    for value in values {
        value.spell(out)?;
    }
    Ok(())
}

impl<X: Spelled> Spelled for Many<X> {
    ghost use Rattle.slon_base.specs.Codec.{many_bytes, AreMany};

    ghost bytes = { many_bytes X.bytes };

    ghost Can = { AreMany X.Can };

    fn spell(&self, out: &mut RowOut) -> Result<(), AllocError> {
        spell_many(self.as_slice(), out)
    }

    #[tactic(auto, unfolding(slon_base::specs::Codec::many_bytes))]
    fn read(alloc: Global, row: &mut RowIn<'_>) -> Result<Many<X>, RowFault> {
        let count = row.count()?;
        read_many(alloc, row, count)
    }
}

/// Texts.
impl Spelled for TextList {
    ghost use Rattle.slon_base.specs.Codec.{list_bytes, AreTexts};

    ghost bytes = { list_bytes };

    ghost Can = { AreTexts };

    fn spell(&self, out: &mut RowOut) -> Result<(), AllocError> {
        spell_many(self.as_slice(), out)
    }

    #[tactic(auto, unfolding(slon_base::specs::Codec::many_bytes))]
    fn read(alloc: Global, row: &mut RowIn<'_>) -> Result<TextList, RowFault> {
        let count = row.count()?;
        read_many(alloc, row, count)
    }
}
