// The names of tables, as rows of the log have them.
ghost use Rattle.change_capture.specs.Reading.{HasNames, Reads};

use crate::SpelledTexts;
use crate::spelled_texts::TextsIn;
use arrayvec::ArrayString;
use slon_base::{RowFault, Text};
use slon_model::is_part;
use std::alloc::Global;
use std::marker::Model;

/// The greatest length of a table's name: two parts of at most 31 bytes, and a dot.
const NAME_LEN: usize = 63;

/// The table's name of two parts that was made last.
#[derive(Drop)]
pub struct TableNames {
    last: Option<(SpelledTexts, Text)>,
}

impl Model for TableNames {
    ghost use Rattle.std.specs.Prelude.{IfSome};
    ghost use Rattle.change_capture.specs.Reading.{HasNames};

    ghost Value = { Unit {0} };

    ghost view = { λ n. tt };

    ghost invariant = { λ n. IfSome n.last (λ last. HasNames last.0 last.1) };
}

/// The table's name of these two parts.
fn table_of(alloc: Global, names: TextsIn<'_>) -> Result<Text, RowFault>
    ensures { Reads (HasNames names.entry) result }
{
    let mut rest = names;
    let (Some(namespace), Some(name), None) = (rest.next_str(), rest.next_str(), rest.next_str())
    else {
        return Err(RowFault::NotCanonical);
    };
    if !is_part(namespace.as_bytes()) || !is_part(name.as_bytes()) {
        return Err(RowFault::NotCanonical);
    }
    // No name is longer, so that a short one needs no allocation.
    let mut text = ArrayString::<NAME_LEN>::new();
    text.push_str(namespace);
    text.push_str(".");
    text.push_str(name);
    Ok(Text::from_str(alloc, text.as_str())?)
}

impl TableNames {
    /// No name.
    pub fn new() -> TableNames {
        TableNames { last: None }
    }

    /// The table's name of these two parts.
    pub(crate) fn table_of(&mut self, alloc: Global, names: &SpelledTexts) -> Result<Text, RowFault>
        ensures { Reads (HasNames names.now) result }
    {
        if let Some((known, table)) = &self.last {
            if known.is_same(names) {
                return Ok(table.copy(alloc)?);
            }
        }
        let table = table_of(alloc, names.reader())?;
        self.last = Some((names.copy(alloc)?, table.copy(alloc)?));
        Ok(table)
    }
}
