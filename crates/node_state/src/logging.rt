// The rows that a commit logs.
ghost use Rattle.std.specs.Prelude.{◌≡◌, ◌<◌, ◌^◌, true, IfOk};
ghost use Rattle.std.specs.FinMap.{get};
ghost use Rattle.std.specs.List.{AllByRecursion};
ghost use Rattle.store_rows.specs.Space.{AllOf};
ghost use Rattle.change_capture.specs.Spellings.{CanLogRow};
ghost use Rattle.node_state.specs.Known.{is_captured, are_captured, logged_as, log_rows_of};

use crate::memory::NodeMemory;
use change_capture::{Action, LogRow, log_row_of};
use slon_base::Many;
use std::alloc::{AllocError, Global};

/// The row that an action is logged as, with its number, if its table is in a set of which the node is the origin.
fn numbered_row(
    alloc: Global,
    memory: &NodeMemory,
    xid: u64,
    action: &Action,
) -> Result<Option<(u64, LogRow)>, AllocError>
    requires small { xid < 2 ^ 63 }
    requires captured { is_captured action.now ≡ true }
    ensures row { IfOk result (λ row.
        row ≡ logged_as xid action.now (get memory.now.members.live action.now.table)) }
    ensures can { IfOk result (AllOf (λ r. (r.0 < 2 ^ 63) × CanLogRow r.1)) }
{
    match memory.members.live.get(action.table.as_slice()) {
        Some(member) if member.leads => {
            let row = log_row_of(alloc, xid, member.table, action)?;
            Ok(Some((action.number, row)))
        }
        _ => Ok(None),
    }
}

/// The rows that a commit of a transaction logs, by their numbers: those of its actions on the tables of sets of which
/// the node is the origin.
///
/// # Errors
///
/// `AllocError` where there is no memory.
pub fn log_rows(
    alloc: Global,
    memory: &NodeMemory,
    xid: u64,
    actions: &[Action],
) -> Result<Many<(u64, LogRow)>, AllocError>
    requires { are_captured xid actions.now ≡ true }
    ensures rows { IfOk result (λ rows. rows ≡ log_rows_of memory.now.members xid actions.now) }
    ensures can { IfOk result (AllByRecursion (λ r. (r.0 < 2 ^ 63) × CanLogRow r.1)) }
{
    let mut rows = Many::new(alloc);
    for action in actions {
        if let Some(row) = numbered_row(alloc, memory, xid, action)? {
            rows.push(row)?;
        }
    }
    Ok(rows)
}
