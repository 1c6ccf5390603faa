// Which node is least far in a stream.
ghost use Rattle.std.specs.Prelude.{◌≡◌, Option, Some, None, OnOk, IfOk, IfErr};
ghost use Rattle.slon_base.specs.Codec.{AllAre};
ghost use Rattle.slon_base.specs.Keeper.{Store, sight};
ghost use Rattle.store_rows.specs.Rows.{IsId};
ghost use Rattle.store_rows.specs.Steps.{Safe, IsWithinLimit, IsOfSpace, Gives};
ghost use Rattle.set_config.specs.Holds.{AreIds};
ghost use Rattle.event_store.specs.Formed.{Reads};
ghost use Rattle.event_store.specs.Hearing.{LeastIsLeast, lesser, with_node, least_confirmed, HandedNode, HandedLeast};
ghost use Rattle.event_store.specs.Holds.{HoldsStreams};
ghost use Rattle.event_store.specs.Streams.{Streams};

use crate::hearing::confirmed;
use slon_base::Keeper;
use std::alloc::Global;
use store_rows::Stop;

/// A node, and how far it is in a stream.
type Progress = (u32, u64);

/// The one that is less far, and the first where both are as far.
fn lesser(first: Option<Progress>, second: Progress) -> Progress
    ensures { result ≡ lesser first second }
{
    match first {
        Some(found) if found.1 <= second.1 => found,
        _ => second,
    }
}

/// What is least with one more node, of which the origin is none.
fn with_node<K: Keeper>(
    alloc: Global,
    keeper: &mut K,
    origin: u32,
    least: Option<Progress>,
    node: u32,
) -> Result<Option<Progress>, Stop>
    requires can { AreIds (origin, node) }
    ensures safe { Safe (K.kept keeper.old) (K.kept keeper.new) result }
    ensures same { OnOk result ((K.kept keeper.new).pending ≡ (K.kept keeper.old).pending) }
    ensures within { IfErr result IsWithinLimit }
    ensures space { IfErr result (IsOfSpace 11) }
    ensures says { (m : Store) (s : Streams) → sight (K.kept keeper.old) ≡ Some m → HoldsStreams s m →
        Gives (λ found. found ≡ with_node s origin least node) result }
    ensures origin { IfOk result (λ found. node ≡ origin → found ≡ least) }
    ensures none { IfOk result (λ found. found ≡ None → (node ≡ origin) × (least ≡ None)) }
    ensures form { (m : Store) → sight (K.kept keeper.old) ≡ Some m → Reads (HandedNode m origin node) result }
{
    if node == origin {
        return Ok(least);
    }
    let number = confirmed(alloc, keeper, origin, node)?;
    Ok(Some(lesser(least, (node, number))))
}

/// Among these nodes, without the origin, the one that confirmed the least of the stream of the origin, and the number
/// that it confirmed; the first of several. Where no other node is among them it is the origin, with how far the node
/// `own` is.
///
/// # Errors
///
/// `BadRow` of space 11 exactly where a row that is read for that is not in its form, what stopped the store, and
/// `NoMemory`.
pub fn least_confirmed<K: Keeper>(
    alloc: Global,
    keeper: &mut K,
    own: u32,
    origin: u32,
    known: &[u32],
) -> Result<(u32, u64), Stop>
    requires can { AreIds (origin, own) }
    requires known { AllAre IsId known.now }
    ensures safe { Safe (K.kept keeper.old) (K.kept keeper.new) result }
    ensures same { OnOk result ((K.kept keeper.new).pending ≡ (K.kept keeper.old).pending) }
    ensures within { IfErr result IsWithinLimit }
    ensures space { IfErr result (IsOfSpace 11) }
    ensures says { (m : Store) (s : Streams) → sight (K.kept keeper.old) ≡ Some m → s.own ≡ own → HoldsStreams s m →
        Gives (λ found. found ≡ least_confirmed s origin known.now) result }
    ensures form { (m : Store) → sight (K.kept keeper.old) ≡ Some m →
        Reads (HandedLeast m own origin known.now) result }
{
    let mut least = None;
    for node in known {
        least = with_node(alloc, keeper, origin, least, *node)?;
    }
    match least {
        Some(found) => Ok(found),
        None => Ok((origin, confirmed(alloc, keeper, origin, own)?)),
    }
}

/// The node that is least far is no farther than any other that is known.
pub fn least_is_least()
    ensures { LeastIsLeast }
{}
