// Snapshots in rows: where one begins and ends, and the running ids. One that has not the form of every snapshot is not
// read.
ghost use Rattle.std.specs.Prelude.{◌≡◌, ◌++◌, ℕ, List, OnOk, IfOk};
ghost use Rattle.slon_base.specs.Codec.{number_bytes, many_bytes, AreMany};
ghost use Rattle.store_rows.specs.Rows.{ReadAs};
ghost use Rattle.slon_model.specs.Snapshots.{Snapshot as Model};
ghost use Rattle.txn_core.specs.Snapshots.{seen_as};
ghost use Rattle.event_store.specs.Spellings.{IsStored, snapshot_bytes, CanSnapshot};

use slon_base::{Many, RowFault, RowIn, RowOut};
use std::alloc::{AllocError, Global};
use store_rows::Spelled;
use txn_core::{Snapshot, XidList};

/// Spells a list of ids.
#[tactic(auto, unfolding(slon_base::specs::Codec::many_bytes))]
fn spell_ids(ids: &[u64], out: &mut RowOut) -> Result<(), AllocError>
    requires { AreMany IsStored ids.now }
    ensures { OnOk result (out.new ≡ out.old ++ many_bytes number_bytes ids.now) }
{
    out.count(ids.len() as u32)?;
    for id in ids {
        out.u64(*id)?;
    }
    Ok(())
}

/// Spells a snapshot behind the row.
pub(crate) fn spell_snapshot(snapshot: &Snapshot, out: &mut RowOut) -> Result<(), AllocError>
    requires { CanSnapshot (seen_as snapshot.now) }
    ensures { OnOk result (out.new ≡ out.old ++ snapshot_bytes (seen_as snapshot.now)) }
{
    snapshot.xmin.spell(out)?;
    snapshot.xmax.spell(out)?;
    spell_ids(snapshot.running.as_slice(), out)
}

/// Reads a snapshot from the front of the row.
pub(crate) fn read_snapshot(alloc: Global, row: &mut RowIn<'_>) -> Result<Snapshot, RowFault>
    ensures can { IfOk result (λ s. CanSnapshot (seen_as s)) }
    ensures found { IfOk result (λ s. row.old ≡ snapshot_bytes (seen_as s) ++ row.new) }
    ensures again { (s : Model) (rest : List ℕ) → CanSnapshot s → row.old ≡ snapshot_bytes s ++ rest →
        ReadAs seen_as s rest result row.new }
{
    let xmin = u64::read(alloc, row)?;
    let xmax = u64::read(alloc, row)?;
    let running = Many::<u64>::read(alloc, row)?;
    let snapshot = Snapshot {
        xmin,
        xmax,
        running: XidList::from_vec(running.into_vec()),
    };
    if !snapshot.is_canonical() {
        return Err(RowFault::NotCanonical);
    }
    Ok(snapshot)
}
