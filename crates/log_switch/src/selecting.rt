// The rows of a log that one snapshot sees and another does not.
ghost use Rattle.std.specs.Prelude.{◌≡◌, ◌<◌, ◌^◌, ◌++◌, List, ℕ, Some, OnOk, IfOk, IfErr};
ghost use Rattle.slon_base.specs.Codec.{number_bytes, AllAre};
ghost use Rattle.slon_base.specs.Keeper.{Store, sight};
ghost use Rattle.store_rows.specs.Rows.{IsId};
ghost use Rattle.store_rows.specs.Steps.{Safe, IsWithinLimit, IsOfSpace, Gives};
ghost use Rattle.change_capture.specs.declared.log_row.LogRow.{LogRow};
ghost use Rattle.change_capture.specs.Spellings.{CanLogRow};
ghost use Rattle.slon_model.specs.Rows.{member};
ghost use Rattle.txn_core.specs.Snapshots.{seen_as};
ghost use Rattle.log_switch.specs.Between.{is_between, passed, ArePassed, AreOf, SeesBelow, bound};
ghost use Rattle.log_switch.specs.Holds.{Logged, HoldsLog};

use crate::layout::LOG;
use change_capture::LogRow;
use slon_base::{Bytes, Keeper, Many};
use std::alloc::{AllocError, Global};
use store_rows::{Stop, scan_rows, spelling};
use txn_core::Snapshot;

/// Whether the list has the id.
fn lists(tables: &[u32], table: u32) -> bool
    ensures { result ≡ member table tables.now }
{
    tables.contains(&table)
}

/// Whether the row is of one of these tables, and the new snapshot sees its transaction, which the old one does not.
fn is_between(tables: &[u32], old: &Snapshot, new: &Snapshot, row: &LogRow) -> bool
    ensures { result ≡ is_between tables.now (seen_as old.now) (seen_as new.now) row.now }
{
    lists(tables, row.table) && new.sees(row.xid) && !old.sees(row.xid)
}

/// Those of these rows that are of one of these tables, and whose transaction the new snapshot sees and the old one
/// does not. They stay where they are, since a row is large.
fn keep_between(
    rows: Many<(u64, LogRow)>,
    tables: &[u32],
    old: &Snapshot,
    new: &Snapshot,
) -> Many<(u64, LogRow)>
    ensures { result ≡ passed (is_between tables.now (seen_as old.now) (seen_as new.now)) rows }
{
    let mut kept = rows.into_vec();
    kept.retain(|(_, row)| is_between(tables, old, new, row));
    Many::from_vec(kept)
}

/// The key that the rows of an origin from this number on come after.
fn start_at(alloc: Global, origin: u32, first: u64) -> Result<Bytes, AllocError>
    requires id { IsId origin }
    requires small { first < 2 ^ 63 }
    ensures { IfOk result (λ key. key ≡ number_bytes origin ++ bound first) }
{
    if first == 0 {
        spelling(alloc, &origin)
    } else {
        spelling(alloc, &(origin, first - 1))
    }
}

/// The rows of the origin in the log that are of one of these tables, and whose transaction the new snapshot sees and
/// the old one does not, each with its number, ascending by number.
///
/// # Errors
///
/// `BadRow` where a row of the origin is not in its form, and what stopped the store.
pub fn between<K: Keeper>(
    alloc: Global,
    keeper: &mut K,
    origin: u32,
    tables: &[u32],
    old: &Snapshot,
    new: &Snapshot,
) -> Result<Many<(u64, LogRow)>, Stop>
    requires { IsId origin }
    ensures safe { Safe (K.kept keeper.old) (K.kept keeper.new) result }
    ensures same { OnOk result ((K.kept keeper.new).pending ≡ (K.kept keeper.old).pending) }
    ensures within { IfErr result IsWithinLimit }
    ensures space { IfErr result (IsOfSpace 15) }
    ensures can { IfOk result (AllAre (λ r. CanLogRow r.1)) }
    ensures numbers { IfOk result (AllAre (λ r. r.0 < 2 ^ 63)) }
    // What is answered are all rows of the origin that pass, in whatever store they are found,
    ensures found { (m : Store) → sight (K.kept keeper.old) ≡ Some m → IfOk result (λ rows.
        (all : List (ℕ × LogRow)) × AreOf origin 0 m all
        × (rows ≡ passed (is_between tables.now (seen_as old.now) (seen_as new.now)) all)) }
    ensures gives { (m : Store) (all : List (ℕ × LogRow)) → sight (K.kept keeper.old) ≡ Some m →
        AreOf origin 0 m all →
        Gives (λ rows. rows ≡ passed (is_between tables.now (seen_as old.now) (seen_as new.now)) all) result }
    // and in a store that holds a log these are the rows of the log.
    ensures says { (m : Store) (items : List Logged) → sight (K.kept keeper.old) ≡ Some m → HoldsLog items m →
        Gives (ArePassed (is_between tables.now (seen_as old.now) (seen_as new.now)) origin items) result }
{
    between_from(alloc, keeper, origin, 0, tables, old, new)
}

/// The same as `between`, where the old snapshot sees the transactions of all rows of the origin below the number
/// `first`. The rows below it are not read, so that the cost is that of the rows from there on.
///
/// # Errors
///
/// `BadRow` where a row of the origin from that number on is not in its form, and what stopped the store.
pub fn between_from<K: Keeper>(
    alloc: Global,
    keeper: &mut K,
    origin: u32,
    first: u64,
    tables: &[u32],
    old: &Snapshot,
    new: &Snapshot,
) -> Result<Many<(u64, LogRow)>, Stop>
    requires id { IsId origin }
    requires small { first < 2 ^ 63 }
    ensures safe { Safe (K.kept keeper.old) (K.kept keeper.new) result }
    ensures same { OnOk result ((K.kept keeper.new).pending ≡ (K.kept keeper.old).pending) }
    ensures within { IfErr result IsWithinLimit }
    ensures space { IfErr result (IsOfSpace 15) }
    ensures can { IfOk result (AllAre (λ r. CanLogRow r.1)) }
    ensures numbers { IfOk result (AllAre (λ r. r.0 < 2 ^ 63)) }
    // What is answered are all rows of the origin from the number on that pass, in whatever store they are found,
    ensures found { (m : Store) → sight (K.kept keeper.old) ≡ Some m → IfOk result (λ rows.
        (all : List (ℕ × LogRow)) × AreOf origin first m all
        × (rows ≡ passed (is_between tables.now (seen_as old.now) (seen_as new.now)) all)) }
    ensures gives { (m : Store) (all : List (ℕ × LogRow)) → sight (K.kept keeper.old) ≡ Some m →
        AreOf origin first m all →
        Gives (λ rows. rows ≡ passed (is_between tables.now (seen_as old.now) (seen_as new.now)) all) result }
    // and where the old snapshot sees what a log has below the number, these are the rows of the log that pass.
    ensures says { (m : Store) (items : List Logged) → sight (K.kept keeper.old) ≡ Some m → HoldsLog items m →
        SeesBelow first (seen_as old.now) origin items →
        Gives (ArePassed (is_between tables.now (seen_as old.now) (seen_as new.now)) origin items) result }
{
    let prefix = spelling(alloc, &origin)?;
    let start = start_at(alloc, origin, first)?;
    let rows = scan_rows(alloc, keeper, LOG, prefix.as_slice(), start.as_slice())?;
    Ok(keep_between(rows, tables, old, new))
}
