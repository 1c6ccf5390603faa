// Whether a table may be written at a node.
ghost use Rattle.std.specs.Prelude.{◌≡◌, Option, Some, OnOk, IfOk, IfErr};
ghost use Rattle.std.specs.Option.{option_map};
ghost use Rattle.std.specs.FinMap.{get};
ghost use Rattle.slon_base.specs.Codec.{number_bytes};
ghost use Rattle.slon_base.specs.Keeper.{Store, sight};
ghost use Rattle.store_rows.specs.Rows.{IsId};
ghost use Rattle.store_rows.specs.Space.{AllOf};
ghost use Rattle.store_rows.specs.Steps.{Safe, IsWithinLimit, Gives};
ghost use Rattle.node_rows.specs.declared.rows.SetRow.{SetRow};
ghost use Rattle.node_rows.specs.Spellings.{set_bytes, CanSet};
ghost use Rattle.slon_model.specs.Config.{is_origin};
ghost use Rattle.slon_model.specs.Deeds.{Node, knowledge};
ghost use Rattle.slon_model.specs.Deciding.{closed_at, closed_set};
ghost use Rattle.node_state.specs.Closing.{locked_in, IsLockedAs, IsOpenBy, HandedMember};
ghost use Rattle.event_store.specs.Formed.{Lacks, Reads};
ghost use Rattle.node_state.specs.Handed.{IsSet, HandedSet, IsOpenAs, IsPlain};
ghost use Rattle.node_state.specs.Held.{NodeHeld, HoldsNode};
ghost use Rattle.node_state.specs.Known.{IsKnown};

use crate::layout::{SETS, VIEWS};
use crate::memory::{Member, NodeMemory};
use node_rows::SetRow;
use slon_base::{Keeper, Text};
use slon_model::DbFault;
use std::alloc::Global;
use store_rows::{Stop, get_row, has_row};

/// Whether a set is locked. One that is not known is not.
fn is_locked<K: Keeper>(alloc: Global, keeper: &mut K, set: u32) -> Result<bool, Stop>
    requires { IsId set }
    ensures safe { Safe (K.kept keeper.old) (K.kept keeper.new) result }
    ensures same { OnOk result ((K.kept keeper.new).pending ≡ (K.kept keeper.old).pending) }
    ensures within { IfErr result IsWithinLimit }
    ensures says { (m : Store) (row : Option SetRow) → sight (K.kept keeper.old) ≡ Some m → AllOf CanSet row →
        get (m 6) (number_bytes set) ≡ option_map set_bytes row →
        Gives (λ locked. locked ≡ locked_in row) result }
    ensures found { (m : Store) → sight (K.kept keeper.old) ≡ Some m → IfOk result (IsLockedAs set m) }
    ensures form { (m : Store) → sight (K.kept keeper.old) ≡ Some m →
        Reads (Lacks 6 (IsSet (get (m 6) (number_bytes set)))) result }
{
    match get_row::<K, u32, SetRow>(alloc, keeper, SETS, &set)? {
        Some(row) => Ok(row.locked),
        None => Ok(false),
    }
}

/// Why no application may write a table of a set, if none may.
fn closed_member<K: Keeper>(
    alloc: Global,
    keeper: &mut K,
    member: Member,
) -> Result<Option<DbFault>, Stop>
    requires { IsId member.set }
    ensures safe { Safe (K.kept keeper.old) (K.kept keeper.new) result }
    ensures same { OnOk result ((K.kept keeper.new).pending ≡ (K.kept keeper.old).pending) }
    ensures within { IfErr result IsWithinLimit }
    ensures says { (m : Store) (n : Node) → sight (K.kept keeper.old) ≡ Some m → NodeHeld n m →
        member.leads ≡ is_origin n.id member.set (knowledge n).config →
        Gives (λ found. found ≡ closed_set n.id (knowledge n) (Some member.set)) result }
    ensures tells { (m : Store) → sight (K.kept keeper.old) ≡ Some m → IfOk result (IsOpenBy member m) }
    ensures plain { IfOk result IsPlain }
    ensures form { (m : Store) → sight (K.kept keeper.old) ≡ Some m → Reads (HandedMember member m) result }
{
    let set = member.set;
    if has_row(alloc, keeper, VIEWS, &set)? {
        return Ok(Some(DbFault::NotOrigin { set }));
    }
    if !member.leads {
        return Ok(None);
    }
    if is_locked(alloc, keeper, set)? {
        return Ok(Some(DbFault::SetLocked { set }));
    }
    Ok(None)
}

/// Why no application may write the table of this name, if none may: the node receives its set, or it is the origin of
/// the set and the set is locked.
///
/// # Errors
///
/// `BadRow` where the row of the set is not in its form, and what stopped the store.
pub fn find_closed<K: Keeper>(
    alloc: Global,
    keeper: &mut K,
    memory: &NodeMemory,
    table: &Text,
) -> Result<Option<DbFault>, Stop>
    ensures safe { Safe (K.kept keeper.old) (K.kept keeper.new) result }
    ensures same { OnOk result ((K.kept keeper.new).pending ≡ (K.kept keeper.old).pending) }
    ensures within { IfErr result IsWithinLimit }
    ensures says { (m : Store) (node : Option Node) → sight (K.kept keeper.old) ≡ Some m → HoldsNode node m →
        IsKnown node memory.now.identity memory.now.members → Gives (λ found. found ≡ closed_at table.now node) result }
    ensures tells { (m : Store) → sight (K.kept keeper.old) ≡ Some m →
        IfOk result (IsOpenAs memory.now.members table.now m) }
    ensures plain { IfOk result IsPlain }
    ensures form { (m : Store) → sight (K.kept keeper.old) ≡ Some m →
        Reads (HandedSet memory.now.members table.now m) result }
{
    match memory.members.live.get(table.as_slice()) {
        Some(member) => closed_member(alloc, keeper, *member),
        None => Ok(None),
    }
}
