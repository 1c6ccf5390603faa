// The sets, and the tables of the sets.
ghost use Rattle.std.specs.Prelude.{◌≡◌, ◌<◌, ◌^◌, ℕ, true, false, is_some, OnOk, IfOk, IfErr};
ghost use Rattle.std.specs.Option.{option_map};
ghost use Rattle.slon_base.specs.Keeper.{Store, put_at};
ghost use Rattle.slon_base.specs.Codec.{IsText, AllAre, number_bytes};
ghost use Rattle.store_rows.specs.Rows.{IsId};
ghost use Rattle.store_rows.specs.Steps.{Safe, Gives, IsOutside};
ghost use Rattle.store_rows.specs.Space.{IsPending, Becomes, AllOf};
ghost use Rattle.node_rows.specs.declared.rows.SetRow.{SetRow};
ghost use Rattle.node_rows.specs.declared.rows.TableRow.{TableRow};
ghost use Rattle.node_rows.specs.Spellings.{CanSet, CanTable, table_bytes};
ghost use Rattle.slon_model.specs.Maps.{entry_at, with_entry};
ghost use Rattle.slon_model.specs.Config.{Config, changed_set, dropped_tables, set_row};
ghost use Rattle.set_config.specs.Holds.{Shows};
ghost use Rattle.set_config.specs.Rows.{each, drop_row};

use crate::layout::{SETS, TABLES};
use node_rows::{SetRow, TableRow};
use slon_base::{Keeper, Many, Text};
use std::alloc::{AllocError, Global};
use store_rows::{Stop, get_row, put_row, scan_rows};

/// The row of a set, as it is from now on.
fn put_set<K: Keeper>(alloc: Global, keeper: &mut K, set: u32, row: &SetRow) -> Result<(), Stop>
    requires opened { is_some (K.kept keeper.old).pending ≡ true }
    requires can { IsId set × CanSet row.now }
    ensures safe { Safe (K.kept keeper.old) (K.kept keeper.new) result }
    ensures turns { (base : Store) (c : Config) → IsPending (Shows base c) (K.kept keeper.old) →
        Becomes (Shows base (record c { sets = with_entry set row.now c.sets })) (K.kept keeper.new) result }
{
    put_row(alloc, keeper, SETS, &set, row)
}

/// The row of a set, if it was heard of.
fn find_set<K: Keeper>(alloc: Global, keeper: &mut K, set: u32) -> Result<Option<SetRow>, Stop>
    requires can { IsId set }
    ensures safe { Safe (K.kept keeper.old) (K.kept keeper.new) result }
    ensures same { OnOk result ((K.kept keeper.new).pending ≡ (K.kept keeper.old).pending) }
    ensures can { IfOk result (AllOf CanSet) }
    ensures gives { (base : Store) (c : Config) → IsPending (Shows base c) (K.kept keeper.old) →
        Gives (λ found. found ≡ entry_at set c.sets) result }
{
    get_row(alloc, keeper, SETS, &set)
}

/// Whether there is a set of this id that was not dropped.
pub(crate) fn is_live_set<K: Keeper>(alloc: Global, keeper: &mut K, set: u32) -> Result<bool, Stop>
    requires can { IsId set }
    ensures safe { Safe (K.kept keeper.old) (K.kept keeper.new) result }
    ensures same { OnOk result ((K.kept keeper.new).pending ≡ (K.kept keeper.old).pending) }
    ensures gives { (base : Store) (c : Config) → IsPending (Shows base c) (K.kept keeper.old) →
        Gives (λ live. live ≡ is_some (set_row set c)) result }
{
    match find_set(alloc, keeper, set)? {
        None => Ok(false),
        Some(row) => Ok(row.live),
    }
}

/// A set that was heard of is live no longer.
pub(crate) fn end_set<K: Keeper>(alloc: Global, keeper: &mut K, set: u32) -> Result<(), Stop>
    requires opened { is_some (K.kept keeper.old).pending ≡ true }
    requires can { IsId set }
    ensures safe { Safe (K.kept keeper.old) (K.kept keeper.new) result }
    ensures turns { (base : Store) (c : Config) → IsPending (Shows base c) (K.kept keeper.old) →
        Becomes (Shows base (changed_set set (λ row. record row { live = false }) c)) (K.kept keeper.new) result }
{
    match find_set(alloc, keeper, set)? {
        None => Ok(()),
        Some(row) => {
            let row = SetRow { live: false, ..row };
            put_set(alloc, keeper, set, &row)
        }
    }
}

/// A set that was heard of gets another origin, in another era.
pub(crate) fn give_origin<K: Keeper>(
    alloc: Global,
    keeper: &mut K,
    set: u32,
    origin: u32,
    era: u64,
) -> Result<(), Stop>
    requires opened { is_some (K.kept keeper.old).pending ≡ true }
    requires can { IsId set × IsId origin × (era < 2 ^ 63) }
    ensures safe { Safe (K.kept keeper.old) (K.kept keeper.new) result }
    ensures turns { (base : Store) (c : Config) → IsPending (Shows base c) (K.kept keeper.old) →
        Becomes (Shows base (changed_set set (λ row. record row { origin = origin; era = era }) c))
        (K.kept keeper.new) result }
{
    match find_set(alloc, keeper, set)? {
        None => Ok(()),
        Some(row) => {
            let row = SetRow { origin, era, ..row };
            put_set(alloc, keeper, set, &row)
        }
    }
}

/// A set that was heard of is open to clients.
pub(crate) fn unlock_set<K: Keeper>(alloc: Global, keeper: &mut K, set: u32) -> Result<(), Stop>
    requires opened { is_some (K.kept keeper.old).pending ≡ true }
    requires can { IsId set }
    ensures safe { Safe (K.kept keeper.old) (K.kept keeper.new) result }
    ensures turns { (base : Store) (c : Config) → IsPending (Shows base c) (K.kept keeper.old) →
        Becomes (Shows base (changed_set set (λ row. record row { locked = false }) c)) (K.kept keeper.new) result }
{
    match find_set(alloc, keeper, set)? {
        None => Ok(()),
        Some(row) => {
            let row = SetRow {
                locked: false,
                ..row
            };
            put_set(alloc, keeper, set, &row)
        }
    }
}

/// A set is stored: in its first era, open to clients, and with no table.
pub(crate) fn store_set<K: Keeper>(
    alloc: Global,
    keeper: &mut K,
    set: u32,
    origin: u32,
    comment: &Text,
) -> Result<(), Stop>
    requires opened { is_some (K.kept keeper.old).pending ≡ true }
    requires can { IsId set × IsId origin × IsText comment.now }
    ensures safe { Safe (K.kept keeper.old) (K.kept keeper.new) result }
    ensures turns { (base : Store) (c : Config) →
        let row : SetRow = record { origin = origin; era = 1; locked = false; live = true; comment = comment.now } in
        IsPending (Shows base c) (K.kept keeper.old) →
        Becomes (Shows base (record c { sets = with_entry set row c.sets })) (K.kept keeper.new) result }
{
    let row = SetRow {
        origin,
        era: 1,
        locked: false,
        live: true,
        comment: comment.copy(alloc)?,
    };
    put_set(alloc, keeper, set, &row)
}

/// The row of a table, as it is from now on.
fn put_table<K: Keeper>(
    alloc: Global,
    keeper: &mut K,
    table: u32,
    row: &TableRow,
) -> Result<(), Stop>
    requires opened { is_some (K.kept keeper.old).pending ≡ true }
    requires can { IsId table × CanTable row.now }
    ensures safe { Safe (K.kept keeper.old) (K.kept keeper.new) result }
    ensures turns { (base : Store) (c : Config) → IsPending (Shows base c) (K.kept keeper.old) →
        Becomes (Shows base (record c { tables = with_entry table row.now c.tables })) (K.kept keeper.new) result }
{
    put_row(alloc, keeper, TABLES, &table, row)
}

/// The row of a table that is added to a set.
fn added_table(alloc: Global, set: u32, name: &Text, comment: &Text) -> Result<TableRow, AllocError>
    ensures { let added : TableRow = record { set_id = set; name = name.now; live = true; comment = comment.now } in
        IfOk result (λ row. row ≡ added) }
{
    Ok(TableRow {
        set_id: set,
        name: name.copy(alloc)?,
        live: true,
        comment: comment.copy(alloc)?,
    })
}

/// A table is added to a set.
pub(crate) fn add_table<K: Keeper>(
    alloc: Global,
    keeper: &mut K,
    set: u32,
    table: u32,
    name: &Text,
    comment: &Text,
) -> Result<(), Stop>
    requires opened { is_some (K.kept keeper.old).pending ≡ true }
    requires can { IsId set × IsId table × IsText name.now × IsText comment.now }
    ensures safe { Safe (K.kept keeper.old) (K.kept keeper.new) result }
    ensures turns { (base : Store) (c : Config) →
        let row : TableRow = record { set_id = set; name = name.now; live = true; comment = comment.now } in
        IsPending (Shows base c) (K.kept keeper.old) →
        Becomes (Shows base (record c { tables = with_entry table row c.tables })) (K.kept keeper.new) result }
{
    let row = added_table(alloc, set, name, comment)?;
    put_table(alloc, keeper, table, &row)
}

/// The row of a table, once it is dropped.
fn dropped_table(alloc: Global, row: &TableRow) -> Result<TableRow, AllocError>
    ensures { IfOk result (λ dropped. dropped ≡ record row.now { live = false }) }
{
    Ok(TableRow {
        set_id: row.set_id,
        name: row.name.copy(alloc)?,
        live: false,
        comment: row.comment.copy(alloc)?,
    })
}

/// The table of a row is dropped.
fn put_dropped<K: Keeper>(
    alloc: Global,
    keeper: &mut K,
    table: u32,
    row: &TableRow,
) -> Result<(), Stop>
    requires opened { is_some (K.kept keeper.old).pending ≡ true }
    requires can { IsId table × CanTable row.now }
    ensures safe { Safe (K.kept keeper.old) (K.kept keeper.new) result }
    ensures only { IfErr result IsOutside }
    ensures put { OnOk result ((K.kept keeper.new).pending ≡
        option_map (option_map (put_at 7 (number_bytes table) (table_bytes (record row.now { live = false }))))
        (K.kept keeper.old).pending) }
{
    let dropped = dropped_table(alloc, row)?;
    put_row(alloc, keeper, TABLES, &table, &dropped)
}

/// The same, if the table is in the set.
fn drop_table<K: Keeper>(
    alloc: Global,
    keeper: &mut K,
    set: u32,
    table: u32,
    row: &TableRow,
) -> Result<(), Stop>
    requires opened { is_some (K.kept keeper.old).pending ≡ true }
    requires can { IsId table × CanTable row.now }
    ensures safe { Safe (K.kept keeper.old) (K.kept keeper.new) result }
    ensures only { IfErr result IsOutside }
    ensures put { OnOk result ((K.kept keeper.new).pending ≡
        option_map (option_map (drop_row set (table, row.now))) (K.kept keeper.old).pending) }
{
    if row.set_id == set {
        return put_dropped(alloc, keeper, table, row);
    }
    Ok(())
}

/// Those of these tables that are in the set are dropped.
fn drop_each<K: Keeper>(
    alloc: Global,
    keeper: &mut K,
    set: u32,
    rows: &[(u32, TableRow)],
) -> Result<(), Stop>
    requires opened { is_some (K.kept keeper.old).pending ≡ true }
    requires can { AllAre (λ e. IsId e.0 × CanTable e.1) rows.now }
    ensures safe { Safe (K.kept keeper.old) (K.kept keeper.new) result }
    ensures only { IfErr result IsOutside }
    ensures put { OnOk result ((K.kept keeper.new).pending ≡
        option_map (option_map (each (drop_row set) rows.now)) (K.kept keeper.old).pending) }
{
    for (table, row) in rows {
        drop_table(alloc, keeper, set, *table, row)?;
    }
    Ok(())
}

/// The tables of a set are dropped. They keep their names and their comments.
pub(crate) fn drop_tables<K: Keeper>(alloc: Global, keeper: &mut K, set: u32) -> Result<(), Stop>
    requires opened { is_some (K.kept keeper.old).pending ≡ true }
    ensures safe { Safe (K.kept keeper.old) (K.kept keeper.new) result }
    ensures turns { (base : Store) (c : Config) → IsPending (Shows base c) (K.kept keeper.old) →
        Becomes (Shows base (record c { tables = dropped_tables set c.tables })) (K.kept keeper.new) result }
{
    let rows: Many<(u32, TableRow)> = scan_rows(alloc, keeper, TABLES, &[], &[])?;
    drop_each(alloc, keeper, set, rows.as_slice())
}
