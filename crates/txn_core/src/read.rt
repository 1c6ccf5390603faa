// A snapshot read from its printed form.
ghost use Rattle.std.specs.Prelude.{◌≡◌, [], ◌∷◌, eqb, IsTrue, ◌↔◌, ◌<◌, ◌^◌, ℕ, List, map, Some, IfOk};
ghost use Rattle.std.specs.List.{AllByRecursion, slice_split};
ghost use Rattle.std.specs.Fmt.{decimal};
ghost use Rattle.slon_model.specs.Snapshots.{Snapshot as Model, ids_text, snapshot_text};
ghost use Rattle.txn_core.specs.Snapshots.{seen_as, rises_below, IsPrinted, Parses, GetsIds, GetsSnapshot};

use crate::fault::BadSnapshot;
use crate::snapshot::Snapshot;
use crate::xid_list::XidList;
use std::alloc::{AllocError, Global};
use std::str;

/// The parts of the text between the bytes that are equal to this one.
fn split_at(alloc: Global, text: &[u8], byte: u8) -> Result<Vec<&[u8]>, AllocError>
    ensures { IfOk result (λ parts. map (λ part. part.now) parts.items ≡ slice_split (λ b. eqb b byte) text.now) }
{
    text.split(|b| *b == byte).collect(alloc)
}

/// The number that the word spells.
fn number_of(word: &[u8]) -> Option<u64>
    ensures { (n : ℕ) → n < 2 ^ 64 → word.now ≡ decimal n → result ≡ Some n }
{
    match str::from_utf8(word) {
        Ok(digits) => digits.parse::<u64>().ok(),
        Err(_) => None,
    }
}

/// The ids that the text spells with commas between them.
fn ids_of(alloc: Global, text: &[u8]) -> Result<XidList, BadSnapshot>
    ensures { (xs : List ℕ) → AllByRecursion (λ x. x < 2 ^ 64) xs → text.now ≡ ids_text xs → GetsIds xs result }
{
    let mut ids = XidList::new(alloc);
    if text.is_empty() {
        return Ok(ids);
    }
    let words = split_at(alloc, text, b',')?;
    for word in words.as_slice() {
        match number_of(word) {
            Some(xid) => ids.push(xid)?,
            None => return Err(BadSnapshot::NotCanonical),
        }
    }
    Ok(ids)
}

/// The snapshot of these three parts of a text.
fn snapshot_of(alloc: Global, parts: &[&[u8]]) -> Result<Snapshot, BadSnapshot>
    ensures { (s : Model) → IsPrinted s → map (λ part. part.now) parts.now ≡ decimal s.xmin ∷ decimal s.xmax ∷ ids_text
        s.running ∷ [] → GetsSnapshot s result }
{
    let [xmin, xmax, running] = parts else {
        return Err(BadSnapshot::NotCanonical);
    };
    let (Some(xmin), Some(xmax)) = (number_of(xmin), number_of(xmax)) else {
        return Err(BadSnapshot::NotCanonical);
    };
    Ok(Snapshot {
        xmin,
        xmax,
        running: ids_of(alloc, running)?,
    })
}

/// Whether each id is below the one behind it, and the last below the limit.
fn rises_below(xids: &[u64], limit: u64) -> bool
    ensures { result ≡ rises_below limit xids.now }
{
    for index in 0..xids.len() {
        let above = xids.get(index + 1).copied().unwrap_or(limit);
        if xids[index] >= above {
            return false;
        }
    }
    true
}

impl Snapshot {
    /// Whether it has the form of every snapshot: the running transactions ascend below `xmax`, and `xmin` is the first
    /// of them, or `xmax` where none is running.
    pub fn is_canonical(&self) -> bool
        ensures { IsTrue result ↔ IsPrinted (seen_as self.now) }
    {
        let running = self.running.as_slice();
        let first = running.first().copied().unwrap_or(self.xmax);
        if self.xmin != first {
            return false;
        }
        rises_below(running, self.xmax)
    }

    /// The snapshot that is printed as this text. What was printed is read back as it was.
    ///
    /// # Errors
    ///
    /// `NotCanonical` exactly where no snapshot is printed so, and `NoMemory`.
    pub fn parse(alloc: Global, text: &[u8]) -> Result<Snapshot, BadSnapshot>
        ensures parses { Parses text.now result }
        ensures again { (s : Model) → IsPrinted s → snapshot_text s ≡ text.now →
            IfOk result (λ found. seen_as found ≡ s) }
    {
        let parts = split_at(alloc, text, b':')?;
        let snapshot = snapshot_of(alloc, parts.as_slice())?;
        if !snapshot.is_canonical() {
            return Err(BadSnapshot::NotCanonical);
        }
        let printed = snapshot.print(alloc)?;
        if printed.as_slice() != text {
            return Err(BadSnapshot::NotCanonical);
        }
        Ok(snapshot)
    }
}
