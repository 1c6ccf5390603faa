// Rows that are put into a log.
ghost use Rattle.std.specs.Prelude.{◌≡◌, ◌<◌, ◌^◌, true, is_some, length, OnOk, IfErr};
ghost use Rattle.std.specs.Option.{option_map};
ghost use Rattle.std.specs.List.{AllByRecursion};
ghost use Rattle.store_rows.specs.Rows.{IsId};
ghost use Rattle.store_rows.specs.Spending.{PutsUpTo};
ghost use Rattle.store_rows.specs.Steps.{Safe, IsOutside};
ghost use Rattle.change_capture.specs.Spellings.{CanLogRow};
ghost use Rattle.log_switch.specs.Holds.{put_logs};

use crate::layout::LOG;
use change_capture::LogRow;
use slon_base::Keeper;
use std::alloc::Global;
use store_rows::{Stop, put_row_in, row_room};

/// Puts rows of this origin, each with the number of its action, into the log in the transaction that is pending.
///
/// # Errors
///
/// What stopped the store, or want of memory.
pub fn append<K: Keeper>(
    alloc: Global,
    keeper: &mut K,
    origin: u32,
    rows: &[(u64, LogRow)],
) -> Result<(), Stop>
    requires opened { is_some (K.kept keeper.old).pending ≡ true }
    requires id { IsId origin }
    requires can { AllByRecursion (λ r. (r.0 < 2 ^ 63) × CanLogRow r.1) rows.now }
    ensures safe { Safe (K.kept keeper.old) (K.kept keeper.new) result }
    ensures puts { PutsUpTo (length rows.now) (K.kept keeper.old).puts (K.kept keeper.new).puts }
    ensures only { IfErr result IsOutside }
    ensures put { OnOk result ((K.kept keeper.new).pending ≡
        option_map (option_map (put_logs origin rows.now)) (K.kept keeper.old).pending) }
{
    let mut room = row_room(alloc)?;
    for (number, row) in rows {
        put_row_in(&mut room, keeper, LOG, &(origin, *number), row)?;
    }
    Ok(())
}
