// What a node hears of other nodes: how far each of them is in the streams.
ghost use Rattle.std.specs.Prelude.{◌≡◌, Some, true, is_some, unwrap_or, OnOk, IfOk, IfErr};
ghost use Rattle.std.specs.Option.{option_map};
ghost use Rattle.std.specs.FinMap.{get};
ghost use Rattle.slon_base.specs.Codec.{number_bytes};
ghost use Rattle.slon_base.specs.Keeper.{Store, sight};
ghost use Rattle.store_rows.specs.Space.{IsPending, AllOf};
ghost use Rattle.store_rows.specs.Steps.{Safe, IsWithinLimit, IsOfSpace, Gives};
ghost use Rattle.set_config.specs.Holds.{AreIds, pair_key};
ghost use Rattle.event_store.specs.Formed.{HasProgress, Lacks, Reads};
ghost use Rattle.event_store.specs.Hearing.{Stands, Hears, IsRaised};
ghost use Rattle.event_store.specs.Hearing.{ConfirmingHears, ConfirmingRaises, ConfirmingStays};
ghost use Rattle.event_store.specs.Holds.{HoldsStreams, ShowsStreams};
ghost use Rattle.event_store.specs.Spellings.{IsStored};
ghost use Rattle.event_store.specs.Streams.{Streams, confirmed_at};

use crate::layout::CONFIRMATIONS;
use slon_base::Keeper;
use std::alloc::Global;
use store_rows::{Stop, get_row, put_row};

/// The row of how far a node is in the stream of an origin, if there is one.
pub(crate) fn find_confirmed<K: Keeper>(
    alloc: Global,
    keeper: &mut K,
    origin: u32,
    node: u32,
) -> Result<Option<u64>, Stop>
    requires can { AreIds (origin, node) }
    ensures safe { Safe (K.kept keeper.old) (K.kept keeper.new) result }
    ensures same { OnOk result ((K.kept keeper.new).pending ≡ (K.kept keeper.old).pending) }
    ensures within { IfErr result IsWithinLimit }
    ensures space { IfErr result (IsOfSpace 11) }
    ensures small { IfOk result (AllOf IsStored) }
    ensures found { (m : Store) → sight (K.kept keeper.old) ≡ Some m → IfOk result
        (λ found. get (m 11) (pair_key (origin, node)) ≡ option_map number_bytes found) }
    ensures says { (m : Store) (s : Streams) → sight (K.kept keeper.old) ≡ Some m → HoldsStreams s m →
        Gives (λ found. found ≡ confirmed_at s (origin, node)) result }
    ensures form { (m : Store) → sight (K.kept keeper.old) ≡ Some m →
        Reads (Lacks 11 (HasProgress node origin m)) result }
{
    get_row(alloc, keeper, CONFIRMATIONS, &(origin, node))
}

/// How far a node is in the stream of an origin, as the store has it: the number of an event, or 0 where nothing says
/// so. Of the node of the store it is the last event that it met, of another one what that one confirmed.
///
/// # Errors
///
/// `BadRow` of space 11 exactly where that row is not in its form, what stopped the store, and `NoMemory`.
pub fn confirmed<K: Keeper>(
    alloc: Global,
    keeper: &mut K,
    origin: u32,
    node: u32,
) -> Result<u64, Stop>
    requires can { AreIds (origin, node) }
    ensures safe { Safe (K.kept keeper.old) (K.kept keeper.new) result }
    ensures same { OnOk result ((K.kept keeper.new).pending ≡ (K.kept keeper.old).pending) }
    ensures within { IfErr result IsWithinLimit }
    ensures space { IfErr result (IsOfSpace 11) }
    ensures small { IfOk result IsStored }
    ensures found { (m : Store) → sight (K.kept keeper.old) ≡ Some m → IfOk result (Stands m (origin, node)) }
    ensures says { (m : Store) (s : Streams) → sight (K.kept keeper.old) ≡ Some m → HoldsStreams s m →
        Gives (λ found. found ≡ unwrap_or (confirmed_at s (origin, node)) 0) result }
    ensures form { (m : Store) → sight (K.kept keeper.old) ≡ Some m →
        Reads (Lacks 11 (HasProgress node origin m)) result }
{
    Ok(find_confirmed(alloc, keeper, origin, node)?.unwrap_or(0))
}

/// The node `own` is told that `node` has got as far as this number in the stream of `origin`. From then on that stands
/// in what is pending, unless as much or more stood there before. The answer is whether it rose.
///
/// # Errors
///
/// `BadRow` of space 11 exactly where the row of how far that node is is not in its form, what stopped the store, and
/// `NoMemory`.
pub fn confirm<K: Keeper>(
    alloc: Global,
    keeper: &mut K,
    own: u32,
    origin: u32,
    node: u32,
    number: u64,
) -> Result<bool, Stop>
    requires opened { is_some (K.kept keeper.old).pending ≡ true }
    requires can { AreIds (origin, node) }
    requires number { IsStored number }
    requires other { (node ≡ own → ⊥) × (node ≡ origin → ⊥) }
    ensures safe { Safe (K.kept keeper.old) (K.kept keeper.new) result }
    ensures within { IfErr result IsWithinLimit }
    ensures space { IfErr result (IsOfSpace 11) }
    ensures turns { (base : Store) (s : Streams) → s.own ≡ own →
        IsPending (ShowsStreams base s) (K.kept keeper.old) →
        Hears base s (origin, node) number (K.kept keeper.new) result }
    // It never falls, in whatever store it stands.
    ensures raises { (m : Store) → (K.kept keeper.old).pending ≡ Some (Some m) → IfOk result
        (λ rose. IsPending (IsRaised (origin, node) number rose m) (K.kept keeper.new)) }
    ensures form { (m : Store) → sight (K.kept keeper.old) ≡ Some m →
        Reads (Lacks 11 (HasProgress node origin m)) result }
{
    let standing = confirmed(alloc, keeper, origin, node)?;
    if number <= standing {
        return Ok(false);
    }
    put_row(alloc, keeper, CONFIRMATIONS, &(origin, node), &number)?;
    Ok(true)
}

/// What a node is told of another one raises how far that one is, and changes nothing else; and the node goes on
/// hearing of others alone.
pub fn confirmations_rise()
    ensures hears { ConfirmingHears }
    ensures raises { ConfirmingRaises }
    ensures stays { ConfirmingStays }
{}
