// The rows of one table, read from the space of the rows.
ghost use Rattle.std.specs.Prelude.{◌≡◌, Some, OnOk, IfOk, IfErr};
ghost use Rattle.slon_base.specs.Keeper.{Store, sight};
ghost use Rattle.store_rows.specs.Steps.{Safe, IsWithinLimit};
ghost use Rattle.app_store.specs.Formed.{AreListed, Lacks, Reads};
ghost use Rattle.app_store.specs.Scan.{FindsRows, AreArranged};
ghost use Rattle.app_store.specs.Spelled.{rows};

use crate::layout::ROWS;
use slon_base::{Keeper, Many, Text, TextList};
use slon_model::TableRows;
use std::alloc::{AllocError, Global};
use store_rows::{Stop, scan_rows};

/// Rows in the order of their keys.
fn by_keys(rows: Many<(Text, TextList)>) -> Result<TableRows, AllocError>
    ensures { IfOk result (λ listed. AreArranged rows listed) }
{
    let mut rows = rows.into_vec();
    rows.sort_by(|a, b| a.0.as_slice().cmp(&b.0.as_slice()))?;
    Ok(TableRows::from_vec(rows))
}

/// The rows of the table whose spelled name is the prefix, by their keys.
pub(crate) fn scan_table<K: Keeper>(
    alloc: Global,
    keeper: &mut K,
    prefix: &[u8],
) -> Result<TableRows, Stop>
    ensures safe { Safe (K.kept keeper.old) (K.kept keeper.new) result }
    ensures same { OnOk result ((K.kept keeper.new).pending ≡ (K.kept keeper.old).pending) }
    ensures within { IfErr result IsWithinLimit }
    ensures finds { (m : Store) → sight (K.kept keeper.old) ≡ Some m → FindsRows prefix.now m result }
    ensures form { (m : Store) → sight (K.kept keeper.old) ≡ Some m →
        Reads (Lacks rows (AreListed prefix.now m)) result }
{
    let rows = scan_rows(alloc, keeper, ROWS, prefix, prefix)?;
    Ok(by_keys(rows)?)
}
