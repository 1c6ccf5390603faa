// The printed form of a snapshot.
ghost use Rattle.std.specs.Prelude.{◌≡◌, ◌++◌, IfOk, OnOk, string_bytes};
ghost use Rattle.slon_model.specs.Snapshots.{ids_text, snapshot_text};
ghost use Rattle.txn_core.specs.Snapshots.{seen_as, behind_commas};

use crate::snapshot::Snapshot;
use slon_base::Text;
use std::alloc::{AllocError, Global};

/// Adds each id behind a comma.
fn push_behind_commas(text: &mut String, xids: &[u64]) -> Result<(), AllocError>
    ensures { OnOk result (string_bytes text.new ≡ string_bytes text.old ++ behind_commas xids.now) }
{
    for xid in xids {
        write!(text, ",{xid}")?;
    }
    Ok(())
}

/// Adds the ids joined by commas.
fn push_ids(text: &mut String, xids: &[u64]) -> Result<(), AllocError>
    ensures { OnOk result (string_bytes text.new ≡ string_bytes text.old ++ ids_text xids.now) }
{
    match xids.split_first() {
        None => Ok(()),
        Some((first, rest)) => {
            write!(text, "{first}")?;
            push_behind_commas(text, rest)
        }
    }
}

impl Snapshot {
    /// The snapshot as `xmin:xmax:list`.
    ///
    /// # Errors
    ///
    /// `AllocError` where there is no memory.
    pub fn print(&self, alloc: Global) -> Result<Text, AllocError>
        ensures { IfOk result (λ text. text ≡ snapshot_text (seen_as self.now)) }
    {
        let mut text = String::new(alloc);
        let xmin = self.xmin;
        let xmax = self.xmax;
        write!(text, "{xmin}:{xmax}:")?;
        push_ids(&mut text, self.running.as_slice())?;
        Ok(Text::from_string(text))
    }
}
