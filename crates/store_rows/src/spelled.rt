// Values that are spelled in a row, and read back from it.
ghost use Rattle.std.specs.Prelude.{◌≡◌, ◌++◌, ℕ, List, IfOk, OnOk};
ghost use Rattle.store_rows.specs.Rows.{Read};

use slon_base::{RowFault, RowIn, RowOut, Text};
use std::alloc::{AllocError, Global};

const GREATEST_ID: u64 = 0x7fff_ffff;

/// A value with one spelling.
pub trait Spelled: Drop {
    /// Its bytes.
    ghost bytes: { Self → List ℕ };

    /// Which values are spelled.
    ghost Can: { Self → Type 0 };

    /// Spells it behind the row.
    fn spell(&self, out: &mut RowOut) -> Result<(), AllocError>
        requires { Can self.now }
        ensures { OnOk result (out.new ≡ out.old ++ bytes self.now) };

    /// Reads it from the front of the row.
    fn read(alloc: Global, row: &mut RowIn<'_>) -> Result<Self, RowFault>
        ensures can { IfOk result Can }
        ensures found { IfOk result (λ x. row.old ≡ bytes x ++ row.new) }
        ensures again { (x : Self) (rest : List ℕ) → Can x → row.old ≡ bytes x ++ rest →
            Read x rest result row.new };
}

/// An id: 1 to 2,147,483,647.
impl Spelled for u32 {
    ghost use Rattle.slon_base.specs.Codec.{number_bytes};
    ghost use Rattle.store_rows.specs.Rows.{IsId};

    ghost bytes = { number_bytes };

    ghost Can = { IsId };

    fn spell(&self, out: &mut RowOut) -> Result<(), AllocError> {
        out.u64(*self as u64)
    }

    fn read(alloc: Global, row: &mut RowIn<'_>) -> Result<u32, RowFault> {
        match row.u64() {
            Ok(number) => {
                if number == 0 || number > GREATEST_ID {
                    return Err(RowFault::NotCanonical);
                }
                Ok(number as u32)
            }
            Err(fault) => Err(fault),
        }
    }
}

/// A number up to the limit of stored numbers.
impl Spelled for u64 {
    ghost use Rattle.std.specs.Prelude.{◌<◌, ◌^◌};
    ghost use Rattle.slon_base.specs.Codec.{number_bytes};

    ghost bytes = { number_bytes };

    ghost Can = { λ n. n < 2 ^ 63 };

    fn spell(&self, out: &mut RowOut) -> Result<(), AllocError> {
        out.u64(*self)
    }

    fn read(alloc: Global, row: &mut RowIn<'_>) -> Result<u64, RowFault> {
        row.u64()
    }
}

impl Spelled for bool {
    ghost use Rattle.std.specs.Prelude.{◌∷◌, []};
    ghost use Rattle.store_rows.specs.Rows.{flag_byte};

    ghost bytes = { λ b. flag_byte b ∷ [] };

    ghost Can = { λ b. Unit {0} };

    fn spell(&self, out: &mut RowOut) -> Result<(), AllocError> {
        out.byte(if *self { 1 } else { 0 })
    }

    fn read(alloc: Global, row: &mut RowIn<'_>) -> Result<bool, RowFault> {
        match row.byte() {
            Ok(0) => Ok(false),
            Ok(1) => Ok(true),
            Ok(_) => Err(RowFault::NotCanonical),
            Err(fault) => Err(fault),
        }
    }
}

impl Spelled for Text {
    ghost use Rattle.slon_base.specs.Codec.{text_bytes, IsText};

    ghost bytes = { text_bytes };

    ghost Can = { IsText };

    fn spell(&self, out: &mut RowOut) -> Result<(), AllocError> {
        out.text(self.as_slice())
    }

    #[inline(always)]
    fn read(alloc: Global, row: &mut RowIn<'_>) -> Result<Text, RowFault> {
        row.text(alloc)
    }
}

impl<A: Spelled, B: Spelled> Spelled for (A, B) {
    ghost use Rattle.std.specs.Prelude.{◌++◌};

    ghost bytes = { λ p. A.bytes p.0 ++ B.bytes p.1 };

    ghost Can = { λ p. A.Can p.0 × B.Can p.1 };

    fn spell(&self, out: &mut RowOut) -> Result<(), AllocError> {
        self.0.spell(out)?;
        self.1.spell(out)
    }

    fn read(alloc: Global, row: &mut RowIn<'_>) -> Result<(A, B), RowFault> {
        let front = A::read(alloc, row)?;
        let back = B::read(alloc, row)?;
        Ok((front, back))
    }
}
