// What actions do to the rows of their tables in a store.
ghost use Rattle.std.specs.Prelude.{◌≡◌, List, ℕ, Some, true, is_some, length, IfOk, IfErr};
ghost use Rattle.slon_base.specs.Codec.{IsText, AllAre};
ghost use Rattle.slon_base.specs.Keeper.{Store};
ghost use Rattle.store_rows.specs.Spending.{PutsUpTo};
ghost use Rattle.store_rows.specs.Steps.{Safe, IsOutside, IsWithinLimit, IsOfSpace};
ghost use Rattle.store_rows.specs.Space.{IsPending, Becomes};
ghost use Rattle.slon_model.specs.Rows.{Rows};
ghost use Rattle.change_capture.specs.declared.action.Action.{Action as SpecAction};
ghost use Rattle.change_capture.specs.Actions.{change_of};
ghost use Rattle.change_capture.specs.Reading.{IsLogOf};
ghost use Rattle.change_capture.specs.Spellings.{CanLogRow};
ghost use Rattle.change_apply.specs.Applied.{CanApply, IsChanged, HoldsRows, OthersStay, IsActed, AreActed};
ghost use Rattle.change_apply.specs.Applied.{changed_in, acted, acted_all, AreLogOf, CanApplyAll, IsOfEither};

use crate::layout::{LOG, ROWS};
use change_capture::{Action, Change, LogRow, action_of, updated_values};
use slon_base::{Keeper, Many, RowOut, Text, TextList};
use std::alloc::Global;
use store_rows::{Stop, del_row, get_row, put_row_in, row_room, row_stop};

/// Does what a change does to the rows of a table. Its row is spelled in this room.
pub(crate) fn apply_change<K: Keeper>(
    alloc: Global,
    room: &mut RowOut,
    keeper: &mut K,
    table: Text,
    change: Change,
) -> Result<(), Stop>
    requires opened { is_some (K.kept keeper.old).pending ≡ true }
    requires table { IsText table }
    requires words { CanApply (change_of change) }
    ensures safe { Safe (K.kept keeper.old) (K.kept keeper.new) result }
    ensures puts { PutsUpTo 1 (K.kept keeper.old).puts (K.kept keeper.new).puts }
    ensures within { IfErr result IsWithinLimit }
    ensures space { IfErr result (IsOfSpace 3) }
    ensures changed { (m : Store) → (K.kept keeper.old).pending ≡ Some (Some m) →
        IfOk result (λ u. IsPending (IsChanged table (change_of change) m) (K.kept keeper.new)) }
    ensures applies { (tables : List ℕ → Rows) → IsPending (HoldsRows tables) (K.kept keeper.old) →
        Becomes (HoldsRows (changed_in table (change_of change) tables)) (K.kept keeper.new) result }
{
    match change {
        Change::Put { key, values } => put_row_in(room, keeper, ROWS, &(table, key), &values),
        Change::Set { key, columns } => {
            let key = (table, key);
            match get_row::<K, (Text, Text), TextList>(alloc, keeper, ROWS, &key)? {
                None => Ok(()),
                Some(row) => {
                    let row = updated_values(alloc, row.as_slice(), columns.as_slice())?;
                    put_row_in(room, keeper, ROWS, &key, &row)
                }
            }
        }
        Change::Remove { key } => del_row(alloc, keeper, ROWS, &(table, key)),
    }
}

/// Does what a write does to the rows of its table. Its row is spelled in this room.
fn apply_in<K: Keeper>(
    alloc: Global,
    room: &mut RowOut,
    keeper: &mut K,
    action: Action,
) -> Result<(), Stop>
    requires opened { is_some (K.kept keeper.old).pending ≡ true }
    requires table { IsText action.table }
    requires words { CanApply (change_of action.change) }
    ensures safe { Safe (K.kept keeper.old) (K.kept keeper.new) result }
    ensures puts { PutsUpTo 1 (K.kept keeper.old).puts (K.kept keeper.new).puts }
    ensures within { IfErr result IsWithinLimit }
    ensures space { IfErr result (IsOfSpace 3) }
    ensures changed { (m : Store) → (K.kept keeper.old).pending ≡ Some (Some m) →
        IfOk result (λ u. IsPending (IsChanged action.table (change_of action.change) m) (K.kept keeper.new)) }
    ensures applies { (tables : List ℕ → Rows) → IsPending (HoldsRows tables) (K.kept keeper.old) →
        Becomes (HoldsRows (acted action tables)) (K.kept keeper.new) result }
{
    let Action { table, change, .. } = action;
    apply_change(alloc, room, keeper, table, change)
}

/// Does, in the transaction that is pending, what a write does to the rows of its table. A row that is put takes the
/// place of the one with its key; where no row has the key, there is none to change or to take away.
///
/// # Errors
///
/// `BadRow` where the row that is changed is not in its form, and what stopped the store.
pub fn apply_action<K: Keeper>(alloc: Global, keeper: &mut K, action: Action) -> Result<(), Stop>
    requires opened { is_some (K.kept keeper.old).pending ≡ true }
    requires table { IsText action.table }
    requires words { CanApply (change_of action.change) }
    ensures safe { Safe (K.kept keeper.old) (K.kept keeper.new) result }
    ensures puts { PutsUpTo 1 (K.kept keeper.old).puts (K.kept keeper.new).puts }
    ensures within { IfErr result IsWithinLimit }
    ensures space { IfErr result (IsOfSpace 3) }
    // One row is put or taken away, or none, in whatever store is pending,
    ensures changed { (m : Store) → (K.kept keeper.old).pending ≡ Some (Some m) →
        IfOk result (λ u. IsPending (IsChanged action.table (change_of action.change) m) (K.kept keeper.new)) }
    // and a store that holds rows of tables then holds what the action makes of them.
    ensures applies { (tables : List ℕ → Rows) → IsPending (HoldsRows tables) (K.kept keeper.old) →
        Becomes (HoldsRows (acted action tables)) (K.kept keeper.new) result }
{
    apply_in(alloc, &mut row_room(alloc)?, keeper, action)
}

/// Does, in the transaction that is pending, what these writes do to the rows of their tables, one after the other.
///
/// # Errors
///
/// `BadRow` where a row that is changed is not in its form, and what stopped the store.
pub fn apply_actions<K: Keeper>(
    alloc: Global,
    keeper: &mut K,
    actions: Many<Action>,
) -> Result<(), Stop>
    requires opened { is_some (K.kept keeper.old).pending ≡ true }
    requires can { CanApplyAll actions }
    ensures safe { Safe (K.kept keeper.old) (K.kept keeper.new) result }
    ensures puts { PutsUpTo (length actions) (K.kept keeper.old).puts (K.kept keeper.new).puts }
    ensures within { IfErr result IsWithinLimit }
    ensures space { IfErr result (IsOfSpace 3) }
    ensures others { (m : Store) → (K.kept keeper.old).pending ≡ Some (Some m) →
        IfOk result (λ u. IsPending (OthersStay m) (K.kept keeper.new)) }
    // A store that holds rows of tables then holds what all actions make of them.
    ensures applies { (tables : List ℕ → Rows) → IsPending (HoldsRows tables) (K.kept keeper.old) →
        Becomes (HoldsRows (acted_all actions tables)) (K.kept keeper.new) result }
{
    let mut room = row_room(alloc)?;
    for action in actions.into_vec() {
        apply_in(alloc, &mut room, keeper, action)?;
    }
    Ok(())
}

/// Does what the row of a log with this number does to the row of its table.
fn apply_row<K: Keeper>(
    alloc: Global,
    keeper: &mut K,
    number: u64,
    row: &LogRow,
) -> Result<(), Stop>
    requires opened { is_some (K.kept keeper.old).pending ≡ true }
    requires can { CanLogRow row.now }
    ensures safe { Safe (K.kept keeper.old) (K.kept keeper.new) result }
    ensures space { IfErr result IsOfEither }
    ensures acted { (m : Store) → (K.kept keeper.old).pending ≡ Some (Some m) →
        IfOk result (λ u. IsPending (IsActed (number, row.now) m) (K.kept keeper.new)) }
    ensures applies { (tables : List ℕ → Rows) (action : SpecAction) → IsLogOf number row.now action →
        IsPending (HoldsRows tables) (K.kept keeper.old) →
        Becomes (HoldsRows (acted action tables)) (K.kept keeper.new) result }
{
    match action_of(alloc, number, row) {
        Ok(action) => apply_action(alloc, keeper, action),
        Err(fault) => Err(row_stop(LOG, fault)),
    }
}

/// Does, in the transaction that is pending, what these rows of a log do to the rows of their tables, one after the
/// other. A row comes with the number of its action.
///
/// # Errors
///
/// `BadRow` where a row is that of no action, or where the row that is changed is not in its form, and what stopped the
/// store.
pub fn apply_rows<K: Keeper>(
    alloc: Global,
    keeper: &mut K,
    rows: &[(u64, LogRow)],
) -> Result<(), Stop>
    requires opened { is_some (K.kept keeper.old).pending ≡ true }
    requires can { AllAre (λ r. CanLogRow r.1) rows.now }
    ensures safe { Safe (K.kept keeper.old) (K.kept keeper.new) result }
    ensures space { IfErr result IsOfEither }
    // Each row is that of an action, which is done, in whatever store is pending,
    ensures acted { (m : Store) → (K.kept keeper.old).pending ≡ Some (Some m) →
        IfOk result (λ u. IsPending (AreActed rows.now m) (K.kept keeper.new)) }
    ensures others { (m : Store) → (K.kept keeper.old).pending ≡ Some (Some m) →
        IfOk result (λ u. IsPending (OthersStay m) (K.kept keeper.new)) }
    // and a store that holds rows of tables then holds what all actions make of them.
    ensures applies { (tables : List ℕ → Rows) (actions : List SpecAction) → AreLogOf rows.now actions →
        IsPending (HoldsRows tables) (K.kept keeper.old) →
        Becomes (HoldsRows (acted_all actions tables)) (K.kept keeper.new) result }
{
    for (number, row) in rows {
        apply_row(alloc, keeper, *number, row)?;
    }
    Ok(())
}
