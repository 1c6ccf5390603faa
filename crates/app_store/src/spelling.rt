// Keys and values of rows, as their bytes.
ghost use Rattle.std.specs.Prelude.{◌≡◌, ◌<◌, ◌^◌, length, IfOk, drop, All, take};
ghost use Rattle.slon_base.specs.Codec.{text_bytes, list_bytes, IsText};
ghost use Rattle.app_store.specs.Spelled.{row_key, IsShort, AreShort};

use slon_base::{Bytes, RowOut, Text};
use std::alloc::{AllocError, Global};
use store_rows::spelling;

/// The key of a table.
pub(crate) fn spell_table(alloc: Global, table: &Text) -> Result<Bytes, AllocError>
    requires { IsText table.now }
    ensures { IfOk result (λ b. b ≡ text_bytes table.now) }
{
    spelling(alloc, table)
}

/// The key of a row.
pub(crate) fn spell_key(alloc: Global, table: &Text, key: &Text) -> Result<Bytes, AllocError>
    requires table { IsShort table.now }
    requires key { IsShort key.now }
    ensures { IfOk result (λ b. b ≡ row_key table.now key.now) }
{
    let mut out = RowOut::new(alloc);
    out.text(table.as_slice())?;
    out.text(key.as_slice())?;
    Ok(out.finish())
}

/// The value of a row.
#[tactic(auto, unfolding(slon_base::specs::Codec::many_bytes))]
pub(crate) fn spell_values(alloc: Global, values: &[Text]) -> Result<Bytes, AllocError>
    requires few { length values.now < 2 ^ 32 }
    requires short { AreShort values.now }
    ensures { IfOk result (λ b. b ≡ list_bytes values.now) }
{
    let mut out = RowOut::new(alloc);
    out.count(values.len() as u32)?;
    for value in values {
        out.text(value.as_slice())?;
    }
    Ok(out.finish())
}
