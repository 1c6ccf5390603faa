// The rows of a table that are read, and those that take their place.
ghost use Rattle.std.specs.Prelude.{◌≡◌, List, ℕ, Some, true, is_some, OnOk, IfOk, IfErr};
ghost use Rattle.slon_base.specs.Codec.{IsText};
ghost use Rattle.slon_base.specs.Keeper.{Store, sight};
ghost use Rattle.store_rows.specs.Steps.{Safe, IsWithinLimit, IsOfSpace, Gives};
ghost use Rattle.store_rows.specs.Space.{IsPending, Becomes};
ghost use Rattle.slon_model.specs.Rows.{Rows};
ghost use Rattle.change_capture.specs.Actions.{change_of};
ghost use Rattle.change_apply.specs.Applied.{HoldsRows, OthersStay};
ghost use Rattle.change_apply.specs.Copied.{AreRowsOf, CanCopy, AreFound, with_table, played, turned, turns};

use crate::applying::apply_change;
use crate::layout::ROWS;
use change_capture::Change;
use slon_base::{Keeper, Many, Text, TextList};
use std::alloc::Global;
use store_rows::{Stop, row_room, scan_rows, spelling};

/// All rows of a table, each with its key.
///
/// # Errors
///
/// `BadRow` where a row of the table is not in its form, and what stopped the store.
pub fn table_rows<K: Keeper>(
    alloc: Global,
    keeper: &mut K,
    table: &Text,
) -> Result<Many<(Text, TextList)>, Stop>
    requires { IsText table.now }
    ensures safe { Safe (K.kept keeper.old) (K.kept keeper.new) result }
    ensures same { OnOk result ((K.kept keeper.new).pending ≡ (K.kept keeper.old).pending) }
    ensures within { IfErr result IsWithinLimit }
    ensures space { IfErr result (IsOfSpace 3) }
    ensures can { IfOk result CanCopy }
    // What is answered are all pairs of the table, in whatever store they are found,
    ensures found { (m : Store) → sight (K.kept keeper.old) ≡ Some m → IfOk result (AreFound table.now m) }
    // and in a store that holds rows of tables these are the rows of the table.
    ensures says { (m : Store) (tables : List ℕ → Rows) → sight (K.kept keeper.old) ≡ Some m → HoldsRows tables m →
        Gives (AreRowsOf (tables table.now)) result }
{
    let prefix = spelling(alloc, table)?;
    scan_rows(alloc, keeper, ROWS, prefix.as_slice(), prefix.as_slice())
}

/// What is done with a row.
#[derive(Clone, Copy, Drop)]
enum Turn {
    /// It is taken away.
    Take,
    /// It is put.
    Give,
}

/// What is done with this row, as a change.
fn change_of_row(turn: Turn, key: Text, values: TextList) -> Change
    ensures { change_of result ≡ turned turn (key, values) }
{
    match turn {
        Turn::Take => Change::Remove { key },
        Turn::Give => Change::Put { key, values },
    }
}

/// Takes all of these rows of a table away, or puts all of them.
fn turn_rows<K: Keeper>(
    alloc: Global,
    keeper: &mut K,
    table: &Text,
    turn: Turn,
    rows: Many<(Text, TextList)>,
) -> Result<(), Stop>
    requires opened { is_some (K.kept keeper.old).pending ≡ true }
    requires table { IsText table.now }
    requires can { CanCopy rows }
    ensures safe { Safe (K.kept keeper.old) (K.kept keeper.new) result }
    ensures within { IfErr result IsWithinLimit }
    ensures space { IfErr result (IsOfSpace 3) }
    ensures others { (m : Store) → (K.kept keeper.old).pending ≡ Some (Some m) →
        IfOk result (λ u. IsPending (OthersStay m) (K.kept keeper.new)) }
    ensures turns { (tables : List ℕ → Rows) → IsPending (HoldsRows tables) (K.kept keeper.old) →
        Becomes (HoldsRows (played table.now (turns turn rows) tables)) (K.kept keeper.new) result }
{
    let mut room = row_room(alloc)?;
    for (key, values) in rows.into_vec() {
        let change = change_of_row(turn, key, values);
        apply_change(alloc, &mut room, keeper, table.copy(alloc)?, change)?;
    }
    Ok(())
}

/// Puts these rows, in the transaction that is pending, in the place of all that a table has.
///
/// # Errors
///
/// `BadRow` where a row that the table has is not in its form, and what stopped the store.
pub fn replace_table<K: Keeper>(
    alloc: Global,
    keeper: &mut K,
    table: &Text,
    rows: Many<(Text, TextList)>,
) -> Result<(), Stop>
    requires opened { is_some (K.kept keeper.old).pending ≡ true }
    requires table { IsText table.now }
    requires can { CanCopy rows }
    ensures safe { Safe (K.kept keeper.old) (K.kept keeper.new) result }
    ensures within { IfErr result IsWithinLimit }
    ensures space { IfErr result (IsOfSpace 3) }
    ensures others { (m : Store) → (K.kept keeper.old).pending ≡ Some (Some m) →
        IfOk result (λ u. IsPending (OthersStay m) (K.kept keeper.new)) }
    // A store that holds rows of tables then holds these rows in the table, and in all others what it held.
    ensures replaces { (tables : List ℕ → Rows) (given : Rows) → AreRowsOf given rows →
        IsPending (HoldsRows tables) (K.kept keeper.old) →
        Becomes (HoldsRows (with_table table.now given tables)) (K.kept keeper.new) result }
{
    let old = table_rows(alloc, keeper, table)?;
    turn_rows(alloc, keeper, table, Turn::Take, old)?;
    turn_rows(alloc, keeper, table, Turn::Give, rows)
}
