// The rows of several tables that are read, and those that take their place.
ghost use Rattle.std.specs.Prelude.{◌≡◌, List, ℕ, Some, true, is_some, OnOk, IfOk, IfErr};
ghost use Rattle.slon_base.specs.Codec.{AllAre, IsText};
ghost use Rattle.slon_base.specs.Keeper.{Store, sight};
ghost use Rattle.store_rows.specs.Steps.{Safe, IsWithinLimit, IsOfSpace, Gives};
ghost use Rattle.store_rows.specs.Space.{IsPending, Becomes};
ghost use Rattle.slon_model.specs.Names.{Named};
ghost use Rattle.slon_model.specs.Rows.{Rows};
ghost use Rattle.change_apply.specs.Applied.{HoldsRows, OthersStay};
ghost use Rattle.change_apply.specs.Copied.{AreListed, CanCopyAll, held_in, with_tables};

use crate::copying::{replace_table, table_rows};
use slon_base::{Keeper, Many, Text, TextList};
use std::alloc::Global;
use store_rows::Stop;

/// All rows of each of these tables, in their order, each row with its key.
///
/// # Errors
///
/// `BadRow` where a row of one of the tables is not in its form, and what stopped the store.
pub fn rows_of_tables<K: Keeper>(
    alloc: Global,
    keeper: &mut K,
    tables: &[Text],
) -> Result<Many<(Text, Many<(Text, TextList)>)>, Stop>
    requires { AllAre IsText tables.now }
    ensures safe { Safe (K.kept keeper.old) (K.kept keeper.new) result }
    ensures same { OnOk result ((K.kept keeper.new).pending ≡ (K.kept keeper.old).pending) }
    ensures within { IfErr result IsWithinLimit }
    ensures space { IfErr result (IsOfSpace 3) }
    ensures can { IfOk result CanCopyAll }
    ensures says { (m : Store) (held : List ℕ → Rows) → sight (K.kept keeper.old) ≡ Some m → HoldsRows held m →
        Gives (AreListed (held_in held tables.now)) result }
{
    let mut all = Many::new(alloc);
    for table in tables {
        let rows = table_rows(alloc, keeper, table)?;
        all.push((table.copy(alloc)?, rows))?;
    }
    Ok(all)
}

/// Puts these rows, in the transaction that is pending, in the place of all that their tables have. Of two entries for
/// one table the first stands.
///
/// # Errors
///
/// `BadRow` where a row that one of the tables has is not in its form, and what stopped the store.
pub fn replace_tables<K: Keeper>(
    alloc: Global,
    keeper: &mut K,
    tables: Many<(Text, Many<(Text, TextList)>)>,
) -> Result<(), Stop>
    requires opened { is_some (K.kept keeper.old).pending ≡ true }
    requires can { CanCopyAll tables }
    ensures safe { Safe (K.kept keeper.old) (K.kept keeper.new) result }
    ensures within { IfErr result IsWithinLimit }
    ensures space { IfErr result (IsOfSpace 3) }
    ensures others { (m : Store) → (K.kept keeper.old).pending ≡ Some (Some m) →
        IfOk result (λ u. IsPending (OthersStay m) (K.kept keeper.new)) }
    // A store that holds rows of tables then holds these rows in their tables, and in all others what it held.
    ensures replaces { (held : List ℕ → Rows) (given : Named Rows) → AreListed given tables →
        IsPending (HoldsRows held) (K.kept keeper.old) →
        Becomes (HoldsRows (with_tables given held)) (K.kept keeper.new) result }
{
    let mut left = tables.into_vec();
    while let Some((table, rows)) = left.pop() {
        replace_table(alloc, keeper, &table, rows)?;
    }
    Ok(())
}
