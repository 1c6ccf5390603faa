// The texts of a row of the log. What its bytes mean stands in `specs/Texts.antt`.
ghost use Rattle.std.specs.Prelude.{◌≡◌, ◌++◌, [], ◌∷◌, ℕ, List, length, IfOk, OnOk, IsOk, IsTrue, ◌↔◌, MatchOption};
ghost use Rattle.slon_base.specs.Codec.{text_bytes, all_bytes, AllTexts, AreTexts};
ghost use Rattle.store_rows.specs.Rows.{Read};
ghost use Rattle.change_capture.specs.Texts.{PassesTexts};

use slon_base::{Bytes, RowFault, RowIn, RowOut, Text, TextList, are_same};
use std::alloc::{AllocError, Global};
use std::marker::Model;
use store_rows::Spelled;

/// Texts that are kept as the bytes that they are spelled with, so that a row of the log is read without memory for
/// each of its texts, and spelled by a copy. Contracts see the list of the texts.
#[derive(Debug, Drop)]
pub struct SpelledTexts {
    count: u32,
    spelled: Bytes,
}

impl Model for SpelledTexts {
    ghost use Rattle.std.specs.Prelude.{List, ℕ};
    ghost use Rattle.change_capture.specs.Texts.{texts_from, AreLeft};

    ghost Value = { List (List ℕ) };

    ghost view = { λ a. texts_from a.count a.spelled };

    ghost invariant = { λ a. AreLeft a.count a.spelled };
}

/// Texts that are read one after another. Contracts see those that are left.
#[derive(Drop)]
pub(crate) struct TextsIn<'a> {
    row: RowIn<'a>,
    left: u32,
}

impl<'a> Model for TextsIn<'a> {
    ghost use Rattle.std.specs.Prelude.{List, ℕ};
    ghost use Rattle.change_capture.specs.Texts.{texts_from, AreLeft};

    ghost Value = { List (List ℕ) };

    ghost view = { λ t. texts_from t.left t.row };

    ghost invariant = { λ t. AreLeft t.left t.row };
}

impl<'a> TextsIn<'a> {
    /// The next text, where it is.
    pub(crate) fn next_str(&mut self) -> Option<&'a str>
        ensures { MatchOption result (self.old ≡ []) (λ t. self.old ≡ t.now ∷ self.new) }
    {
        if self.left == 0 {
            return None;
        }
        self.left -= 1;
        Some(self.row.known_str())
    }

    /// The next text, copied.
    pub(crate) fn next_text(&mut self, alloc: Global) -> Result<Option<Text>, AllocError>
        ensures { IfOk result (λ found. MatchOption found (self.old ≡ []) (λ t. self.old ≡ t ∷ self.new)) }
    {
        match self.next_str() {
            None => Ok(None),
            Some(text) => Ok(Some(Text::from_str(alloc, text)?)),
        }
    }
}

/// Passes this many texts.
fn skip_texts(row: &mut RowIn<'_>, count: u32) -> Result<(), RowFault>
    ensures found { OnOk result (PassesTexts count row.old row.new) }
    ensures again { (texts : List (List ℕ)) (rest : List ℕ) → AllTexts texts → count ≡ length texts →
        row.old ≡ all_bytes text_bytes texts ++ rest → IsOk result × (row.new ≡ rest) }
{
    for _ in 0..count {
        row.str()?;
    }
    Ok(())
}

impl SpelledTexts {
    /// These texts.
    pub fn new(alloc: Global, texts: &[Text]) -> Result<SpelledTexts, AllocError>
        requires { AreTexts texts.now }
        ensures { IfOk result (λ copy. copy ≡ texts.now) }
    {
        let mut spelled = RowOut::new(alloc);
        for text in texts {
            text.spell(&mut spelled)?;
        }
        Ok(SpelledTexts {
            count: texts.len() as u32,
            spelled: spelled.finish(),
        })
    }

    /// The same texts, copied.
    pub fn copy(&self, alloc: Global) -> Result<SpelledTexts, AllocError>
        ensures { IfOk result (λ copy. copy ≡ self.now) }
    {
        Ok(SpelledTexts {
            count: self.count,
            spelled: self.spelled.copy(alloc)?,
        })
    }

    /// The texts, each copied.
    pub fn texts(&self, alloc: Global) -> Result<TextList, AllocError>
        ensures { IfOk result (λ texts. texts ≡ self.now) }
    {
        let mut texts = TextList::new(alloc);
        let mut rest = self.reader();
        while let Some(text) = rest.next_text(alloc)? {
            texts.push(text)?;
        }
        Ok(texts)
    }

    /// The texts, to be read one after another.
    pub(crate) fn reader(&self) -> TextsIn<'_>
        ensures { result ≡ self.now }
    {
        TextsIn {
            row: RowIn::new(self.spelled.as_slice()),
            left: self.count,
        }
    }

    /// How many there are.
    fn len(&self) -> u32
        ensures { result ≡ length self.now }
    {
        self.count
    }

    /// Whether they are the same.
    pub(crate) fn is_same(&self, others: &SpelledTexts) -> bool
        ensures { IsTrue result ↔ (self.now ≡ others.now) }
    {
        self.count == others.count && are_same(self.spelled.as_slice(), others.spelled.as_slice())
    }

    /// Spells them behind the row, without their count.
    pub(crate) fn spell_all(&self, out: &mut RowOut) -> Result<(), AllocError>
        ensures { OnOk result (out.new ≡ out.old ++ all_bytes text_bytes self.now) }
    {
        out.bytes(self.spelled.as_slice())
    }

    /// Reads this many from the front of the row.
    pub(crate) fn read_all(
        alloc: Global,
        row: &mut RowIn<'_>,
        count: u32,
    ) -> Result<SpelledTexts, RowFault>
        ensures can { IfOk result (λ texts. (length texts ≡ count) × AllTexts texts) }
        ensures found { IfOk result (λ texts. row.old ≡ all_bytes text_bytes texts ++ row.new) }
        ensures again { (texts : List (List ℕ)) (rest : List ℕ) → AllTexts texts → count ≡ length texts →
            row.old ≡ all_bytes text_bytes texts ++ rest → Read texts rest result row.new }
    {
        let whole = row.rest();
        skip_texts(row, count)?;
        let len = whole.len() - row.rest().len();
        Ok(SpelledTexts {
            count,
            spelled: Bytes::from_slice(alloc, &whole[..len])?,
        })
    }
}

impl Spelled for SpelledTexts {
    ghost use Rattle.slon_base.specs.Codec.{list_bytes, AreTexts};

    ghost bytes = { list_bytes };

    ghost Can = { AreTexts };

    #[tactic(auto, unfolding(slon_base::specs::Codec::many_bytes))]
    fn spell(&self, out: &mut RowOut) -> Result<(), AllocError> {
        out.count(self.len())?;
        self.spell_all(out)
    }

    #[tactic(auto, unfolding(slon_base::specs::Codec::many_bytes))]
    fn read(alloc: Global, row: &mut RowIn<'_>) -> Result<SpelledTexts, RowFault> {
        let count = row.count()?;
        SpelledTexts::read_all(alloc, row, count)
    }
}
