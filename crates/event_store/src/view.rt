// How far a node is in the sets that it subscribes to: the snapshot that it keeps of each.
ghost use Rattle.std.specs.Prelude.{◌≡◌, ℕ, Some, true, is_some, OnOk, IfOk, IfErr};
ghost use Rattle.std.specs.Option.{option_map};
ghost use Rattle.std.specs.FinMap.{get};
ghost use Rattle.slon_base.specs.Codec.{number_bytes};
ghost use Rattle.slon_base.specs.Keeper.{Store, sight};
ghost use Rattle.store_rows.specs.Rows.{IsId};
ghost use Rattle.store_rows.specs.Spending.{PutsUpTo};
ghost use Rattle.store_rows.specs.Steps.{Safe, IsOutside, IsWithinLimit, IsOfSpace, Gives};
ghost use Rattle.store_rows.specs.Space.{IsPending, Becomes, AllOf};
ghost use Rattle.slon_model.specs.Maps.{entry_at, with_entry, without_entry};
ghost use Rattle.slon_model.specs.Views.{based, based_at};
ghost use Rattle.event_store.specs.Formed.{Lacks, Reads};
ghost use Rattle.event_store.specs.Holds.{HoldsStreams, ShowsStreams};
ghost use Rattle.event_store.specs.Kept.{seen_view, HasView};
ghost use Rattle.event_store.specs.Spellings.{view_bytes, CanView};
ghost use Rattle.event_store.specs.Streams.{Streams};

use crate::layout::VIEWS;
use crate::snapshot::{read_snapshot, spell_snapshot};
use slon_base::{Keeper, RowFault, RowIn, RowOut};
use std::alloc::{AllocError, Global};
use store_rows::{Spelled, Stop, del_row, get_row, put_row};
use txn_core::Snapshot;

/// What a node keeps of a set that it subscribes to: up to where it has applied what the origin of the set logged.
#[derive(Drop)]
pub struct View {
    /// The era of the set.
    pub era: u64,
    /// The id of the origin of the set in that era.
    pub origin: u32,
    /// The number of the event of that origin that the node applied last.
    pub number: u64,
    /// The transactions of the origin whose actions the tables of the set show here.
    pub seen: Snapshot,
    /// The era in which the node began to log what it applies, if it forwards.
    pub base_era: u64,
    /// The snapshot behind which it did so.
    pub base: Snapshot,
}

impl Spelled for View {
    ghost use Rattle.event_store.specs.Spellings.{view_bytes, CanView};
    ghost use Rattle.event_store.specs.Kept.{seen_view};

    ghost bytes = { λ v. view_bytes (seen_view v) };

    ghost Can = { λ v. CanView (seen_view v) };

    #[tactic(auto, using(std::proofs::Common::append_assoc))]
    fn spell(&self, out: &mut RowOut) -> Result<(), AllocError> {
        self.era.spell(out)?;
        self.origin.spell(out)?;
        self.number.spell(out)?;
        spell_snapshot(&self.seen, out)?;
        self.base_era.spell(out)?;
        spell_snapshot(&self.base, out)
    }

    #[tactic(auto, using(std::proofs::Common::append_assoc))]
    fn read(alloc: Global, row: &mut RowIn<'_>) -> Result<View, RowFault> {
        let era = u64::read(alloc, row)?;
        let origin = u32::read(alloc, row)?;
        let number = u64::read(alloc, row)?;
        let seen = read_snapshot(alloc, row)?;
        let base_era = u64::read(alloc, row)?;
        let base = read_snapshot(alloc, row)?;
        Ok(View {
            era,
            origin,
            number,
            seen,
            base_era,
            base,
        })
    }
}

/// What the node keeps of a set, if it subscribes to it.
///
/// # Errors
///
/// `BadRow` of space 9 exactly where the row of the set is not in its form, what stopped the store, and `NoMemory`.
pub fn find_view<K: Keeper>(alloc: Global, keeper: &mut K, set: u32) -> Result<Option<View>, Stop>
    requires { IsId set }
    ensures safe { Safe (K.kept keeper.old) (K.kept keeper.new) result }
    ensures same { OnOk result ((K.kept keeper.new).pending ≡ (K.kept keeper.old).pending) }
    ensures within { IfErr result IsWithinLimit }
    ensures space { IfErr result (IsOfSpace 9) }
    ensures can { IfOk result (AllOf (λ v. CanView (seen_view v))) }
    ensures found { (m : Store) → sight (K.kept keeper.old) ≡ Some m → IfOk result
        (λ found. get (m 9) (number_bytes set) ≡ option_map (λ v. view_bytes (seen_view v)) found) }
    ensures says { (m : Store) (s : Streams) → sight (K.kept keeper.old) ≡ Some m → HoldsStreams s m →
        Gives (λ found. option_map seen_view found ≡ entry_at set s.views) result }
    ensures form { (m : Store) → sight (K.kept keeper.old) ≡ Some m → Reads (Lacks 9 (HasView set m)) result }
{
    get_row(alloc, keeper, VIEWS, &set)
}

/// The node keeps this of a set from then on, in what is pending, in the place of what it kept of the set before.
///
/// # Errors
///
/// What stopped the store, and `NoMemory`.
pub fn keep_view<K: Keeper>(
    alloc: Global,
    keeper: &mut K,
    set: u32,
    view: &View,
) -> Result<(), Stop>
    requires opened { is_some (K.kept keeper.old).pending ≡ true }
    requires set { IsId set }
    requires can { CanView (seen_view view.now) }
    ensures safe { Safe (K.kept keeper.old) (K.kept keeper.new) result }
    ensures puts { PutsUpTo 1 (K.kept keeper.old).puts (K.kept keeper.new).puts }
    ensures only { IfErr result IsOutside }
    ensures turns { (base : Store) (s : Streams) → IsPending (ShowsStreams base s) (K.kept keeper.old) →
        Becomes (ShowsStreams base (record s { views = with_entry set (seen_view view.now) s.views }))
        (K.kept keeper.new) result }
{
    put_row(alloc, keeper, VIEWS, &set, view)
}

/// What is kept of a set, where the node logs from here on what it applies of it.
fn rebased(alloc: Global, view: &View) -> Result<View, AllocError>
    ensures { IfOk result (λ v. seen_view v ≡ based (seen_view view.now)) }
{
    Ok(View {
        era: view.era,
        origin: view.origin,
        number: view.number,
        seen: view.seen.copy(alloc)?,
        base_era: view.era,
        base: view.seen.copy(alloc)?,
    })
}

/// The node logs from here on what it applies of a set, in what is pending: the base of what it keeps of the set
/// becomes the era and the snapshot that it has reached. Where it keeps nothing of the set, nothing is changed.
///
/// # Errors
///
/// `BadRow` of space 9 where the row of the set is not in its form, what stopped the store, and `NoMemory`.
pub fn base_view<K: Keeper>(alloc: Global, keeper: &mut K, set: u32) -> Result<(), Stop>
    requires opened { is_some (K.kept keeper.old).pending ≡ true }
    requires set { IsId set }
    ensures safe { Safe (K.kept keeper.old) (K.kept keeper.new) result }
    ensures turns { (base : Store) (s : Streams) → IsPending (ShowsStreams base s) (K.kept keeper.old) →
        Becomes (ShowsStreams base (record s { views = based_at set s.views })) (K.kept keeper.new) result }
{
    match find_view(alloc, keeper, set)? {
        None => Ok(()),
        Some(view) => {
            let now = rebased(alloc, &view)?;
            keep_view(alloc, keeper, set, &now)
        }
    }
}

/// The node keeps nothing of a set from then on, in what is pending.
///
/// # Errors
///
/// What stopped the store, and `NoMemory`.
pub fn drop_view<K: Keeper>(alloc: Global, keeper: &mut K, set: u32) -> Result<(), Stop>
    requires opened { is_some (K.kept keeper.old).pending ≡ true }
    requires set { IsId set }
    ensures safe { Safe (K.kept keeper.old) (K.kept keeper.new) result }
    ensures puts { PutsUpTo 0 (K.kept keeper.old).puts (K.kept keeper.new).puts }
    ensures only { IfErr result IsOutside }
    ensures turns { (base : Store) (s : Streams) → IsPending (ShowsStreams base s) (K.kept keeper.old) →
        Becomes (ShowsStreams base (record s { views = without_entry set s.views })) (K.kept keeper.new) result }
{
    del_row(alloc, keeper, VIEWS, &set)
}
