// The tables of sets, by their names.
ghost use Rattle.std.specs.Prelude.{◌≡◌, List, ℕ, Some, OnOk, IfOk, IfErr};
ghost use Rattle.std.specs.Option.{option_map, option_or, option_copied};
ghost use Rattle.std.specs.BTreeMap as by_id;
ghost use Rattle.std.specs.FinMap.{get, insert};
ghost use Rattle.std.specs.Ordering.{nat_cmp};
ghost use Rattle.slon_base.specs.Codec.{AllAre};
ghost use Rattle.slon_base.specs.Keeper.{Store, sight};
ghost use Rattle.store_rows.specs.Rows.{IsId};
ghost use Rattle.store_rows.specs.Steps.{Safe, IsWithinLimit, Gives};
ghost use Rattle.node_rows.specs.declared.rows.SetRow.{SetRow};
ghost use Rattle.node_rows.specs.Spellings.{CanTable};
ghost use Rattle.set_config.specs.Holds.{HoldsConfig};
ghost use Rattle.slon_model.specs.Config.{Config};
ghost use Rattle.slon_model.specs.Maps.{Map};
ghost use Rattle.event_store.specs.Formed.{Reads};
ghost use Rattle.node_state.specs.Handed.{HandedSets};
ghost use Rattle.node_state.specs.Held.{IsOrderly};
ghost use Rattle.node_state.specs.Known.{AreMembers};
ghost use Rattle.node_state.specs.Members.{config_of, flat, AreLeads, member_by, AreThose};

use crate::entries::all_rows;
use crate::layout::{SETS, TABLES};
use crate::memory::{Member, Members};
use node_rows::{SetRow, TableRow};
use slon_base::{ByteMap, Keeper};
use std::alloc::{AllocError, Global};
use std::collections::BTreeMap;
use store_rows::Stop;

/// Whether the node is the origin of each set, by the id of the set. A set that is not live has `None`.
fn leads_of(
    alloc: Global,
    own: u32,
    sets: &[(u32, SetRow)],
) -> Result<BTreeMap<u32, Option<bool>>, AllocError>
    ensures { IfOk result (AreLeads own sets.now) }
{
    let mut leads = BTreeMap::new(alloc);
    for (set, row) in sets {
        if leads.contains_key(set) {
            continue;
        }
        leads.insert(*set, row.live.then_some(row.origin == own))?;
    }
    Ok(leads)
}

/// Whether the node is the origin of a set, or `None` where no live set has the id.
fn leading(leads: &BTreeMap<u32, Option<bool>>, set: u32) -> Option<bool>
    ensures { result ≡ flat (by_id.get nat_cmp leads.now set) }
{
    match leads.get(&set) {
        Some(found) => *found,
        None => None,
    }
}

/// Adds a table under its name, if it is live and in a live set and no table has the name yet.
fn add_member(
    alloc: Global,
    members: &mut ByteMap<Member>,
    leads: &BTreeMap<u32, Option<bool>>,
    table: u32,
    row: &TableRow,
) -> Result<(), AllocError>
    ensures { (own : ℕ) (sets : Map SetRow) → AreLeads own sets leads.now →
        OnOk result ((name : List ℕ) → get members.new name ≡
        option_or (get members.old name) (member_by own sets (table, row.now) name)) }
{
    if !row.live || members.contains_key(row.name.as_slice()) {
        return Ok(());
    }
    match leading(leads, row.set_id) {
        None => Ok(()),
        Some(leads) => {
            let name = Vec::from_slice(alloc, row.name.as_slice())?;
            let set = row.set_id;
            members.insert(name, Member { table, set, leads })
        }
    }
}

/// Adds the name of a table, whether the table is live or not.
fn add_name(alloc: Global, names: &mut ByteMap<()>, row: &TableRow) -> Result<(), AllocError>
    ensures { OnOk result (names.new ≡ insert names.old row.now.name tt) }
{
    let name = Vec::from_slice(alloc, row.name.as_slice())?;
    names.insert(name, ())
}

/// The tables of sets, by their names.
fn members_of(
    alloc: Global,
    own: u32,
    sets: &[(u32, SetRow)],
    tables: &[(u32, TableRow)],
) -> Result<Members, AllocError>
    ensures { IfOk result (AreThose own (config_of sets.now tables.now)) }
{
    let leads = leads_of(alloc, own, sets)?;
    let mut live = ByteMap::new(alloc);
    let mut names = ByteMap::new(alloc);
    for (table, row) in tables {
        add_member(alloc, &mut live, &leads, *table, row)?;
        add_name(alloc, &mut names, row)?;
    }
    Ok(Members { live, names })
}

/// Reads the tables of sets, by their names.
pub(crate) fn find_members<K: Keeper>(
    alloc: Global,
    keeper: &mut K,
    own: u32,
) -> Result<Members, Stop>
    ensures safe { Safe (K.kept keeper.old) (K.kept keeper.new) result }
    ensures same { OnOk result ((K.kept keeper.new).pending ≡ (K.kept keeper.old).pending) }
    ensures within { IfErr result IsWithinLimit }
    ensures ids { IfOk result AreMembers }
    ensures says { (m : Store) (c : Config) → sight (K.kept keeper.old) ≡ Some m → HoldsConfig c m → IsOrderly c →
        Gives (AreThose own c) result }
    ensures form { (m : Store) → sight (K.kept keeper.old) ≡ Some m → Reads (HandedSets m) result }
{
    let sets = all_rows(alloc, keeper, SETS)?;
    let tables = all_rows(alloc, keeper, TABLES)?;
    Ok(members_of(alloc, own, sets.as_slice(), tables.as_slice())?)
}
