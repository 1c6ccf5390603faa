// Whether something that was heard of is live, as it is spelled: one byte.
ghost use Rattle.std.specs.Prelude.{◌≡◌};

use slon_base::{RowFault, RowIn, RowOut};
use std::alloc::{AllocError, Global};
use std::marker::Model;
use store_rows::Spelled;

/// Whether something that was heard of is live, or was dropped. Contracts see it as that.
#[derive(Drop)]
pub(crate) struct Life {
    live: bool,
}

impl Model for Life {
    ghost use Rattle.std.specs.Prelude.{Bool};

    ghost Value = { Bool };

    ghost view = { λ l. l.live };
}

impl Life {
    /// What is live, or was dropped.
    pub(crate) fn new(live: bool) -> Life
        ensures { result ≡ live }
    {
        Life { live }
    }

    /// Whether it is live.
    pub(crate) fn get(&self) -> bool
        ensures { result ≡ self.now }
    {
        self.live
    }
}

impl Spelled for Life {
    ghost use Rattle.std.specs.Prelude.{◌∷◌, []};
    ghost use Rattle.node_rows.specs.Spellings.{life_byte};

    ghost bytes = { λ l. life_byte l ∷ [] };

    ghost Can = { λ l. Unit {0} };

    fn spell(&self, out: &mut RowOut) -> Result<(), AllocError> {
        out.byte(if self.live { 1 } else { 2 })
    }

    fn read(alloc: Global, row: &mut RowIn<'_>) -> Result<Life, RowFault> {
        match row.byte() {
            Ok(1) => Ok(Life::new(true)),
            Ok(2) => Ok(Life::new(false)),
            Ok(_) => Err(RowFault::NotCanonical),
            Err(fault) => Err(fault),
        }
    }
}
