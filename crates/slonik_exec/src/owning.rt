// The owner of a set: of the databases of a script's NODE lines, the one whose node leads the set in the last era.
ghost use Rattle.std.specs.Prelude.{◌≡◌, true, is_err, IfOk};
ghost use Rattle.store_rows.specs.Rows.{IsId};
ghost use Rattle.slon_model.specs.Reaching.{is_on_line};
ghost use Rattle.app_store.specs.Base.{base_of};
ghost use Rattle.app_store.specs.Parts.{Looks, Remembers};
ghost use Rattle.app_store.specs.Serves.{halts};
ghost use Rattle.node_store.specs.Acting.{Acts};
ghost use Rattle.slonik_exec.specs.Databases.{bases_of};
ghost use Rattle.slonik_exec.specs.Heard.{AreDistinct};
ghost use Rattle.slonik_exec.specs.Owned.{reign_of_node, is_before, better_claim, HasSeat, IsLed, IsLedOn};
ghost use Rattle.slonik_exec.specs.Owned.{RunsOwned, IsOwnerHere, Owns};

use crate::databases::Named;
use crate::reaching::database_in;
use crate::replies::told;
use crate::short::NoMemory;
use node_keeper::Keeper;
use node_store::{Database, DbFault, Reign, set_reign};
use slon_base::Text;
use slon_model::Reply;
use slonik_script::NodeLines;
use std::alloc::Global;

/// Whether a NODE line names this database.
fn is_on_line(lines: &NodeLines, name: &Text) -> bool
    ensures { result ≡ is_on_line lines.now name.now }
{
    lines.iter().any(|(_, conninfo)| name.as_slice() == database_in(conninfo.as_slice()))
}

/// Who leads a set, if it is this node.
fn led_by(reign: Option<Reign>, own: u32) -> Option<Reign>
    ensures { result ≡ reign_of_node own reign }
{
    reign.filter(|reign| reign.origin == own)
}

/// How the node of a database leads a set, by what it knows. A database that is down leads none, nor does one that is
/// no node.
fn led<K: Keeper>(database: &mut Database<K>, set: u32) -> Result<Option<Reign>, DbFault>
    requires id { IsId set }
    ensures acts { Acts (halts result) (base_of K.kept database.old) (base_of K.kept database.new) }
    ensures same { Remembers (base_of K.kept database.old) result (base_of K.kept database.new) }
    ensures up { is_err result ≡ true → database.old.state.up ≡ true }
    ensures here { IfOk result (HasSeat (base_of K.kept database.old)) }
    ensures leads { Looks (IsLed set) (base_of K.kept database.old) result (base_of K.kept database.new) }
{
    if !database.is_up() {
        return Ok(None);
    }
    let Some(own) = database.node_id() else {
        return Ok(None);
    };
    match set_reign(database, set) {
        Ok(reign) => Ok(led_by(reign, own)),
        Err(fault) => Err(fault),
    }
}

/// The same of a database of these NODE lines. Of another one nothing is asked.
fn led_on_line<K: Keeper>(
    named: &mut Named<K>,
    lines: &NodeLines,
    set: u32,
) -> Result<Option<Reign>, DbFault>
    requires id { IsId set }
    ensures acts { Acts (halts result) (base_of K.kept named.old.database) (base_of K.kept named.new.database) }
    ensures same { Remembers (base_of K.kept named.old.database) result (base_of K.kept named.new.database) }
    ensures up { is_err result ≡ true → named.old.database.state.up ≡ true }
    ensures here { IfOk result (HasSeat (base_of K.kept named.old.database)) }
    ensures leads { Looks (IsLedOn lines.now set named.old.name) (base_of K.kept named.old.database) result
        (base_of K.kept named.new.database) }
    ensures name { named.new.name ≡ named.old.name }
{
    if !is_on_line(lines, &named.name) {
        return Ok(None);
    }
    led(&mut named.database, set)
}

/// The owner of a set, as a search has found it so far.
#[derive(Clone, Copy)]
pub(crate) struct Claim {
    /// How its node leads the set.
    pub(crate) reign: Reign,
    /// The index of its database.
    pub(crate) at: usize,
}

/// Whether one who leads a set comes before the owner that was found so far: the greater era counts, and then the
/// lower id.
fn beats(reign: Reign, best: Option<Claim>) -> bool
    ensures { result ≡ is_before reign best }
{
    match best {
        None => true,
        Some(Claim { reign: other, .. }) => {
            other.era < reign.era || (reign.era == other.era && reign.origin < other.origin)
        }
    }
}

/// The better one of the owner that was found so far and of the database at this index, which leads the set so, if it
/// does.
fn better(best: Option<Claim>, found: Option<Reign>, at: usize) -> Option<Claim>
    ensures { result ≡ better_claim best found at }
{
    match found {
        None => best,
        Some(reign) => {
            if beats(reign, best) {
                return Some(Claim { reign, at });
            }
            best
        }
    }
}

/// What a search for the owner of a set found.
#[derive(Drop)]
pub(crate) enum Owner {
    /// The database at this index.
    At(usize),
    /// None.
    Nobody,
    /// The store of a database stopped, and this is replied.
    Stopped(Reply),
}

/// The owner of a set among the databases of these NODE lines. It asks each of them that is up and a node.
pub(crate) fn find_owner<K: Keeper>(
    alloc: Global,
    databases: &mut [Named<K>],
    lines: &NodeLines,
    set: u32,
) -> Result<Owner, NoMemory>
    requires id { IsId set }
    requires distinct { AreDistinct (bases_of K.kept databases.old) }
    ensures runs { IfOk result (λ owner. RunsOwned (bases_of K.kept databases.old) owner
        (bases_of K.kept databases.new)) }
    ensures here { IfOk result (λ owner. IsOwnerHere databases.new owner) }
    ensures owns { IfOk result (λ owner. Owns K.kept set lines.now (bases_of K.kept databases.old) owner
        databases.new) }
{
    let mut best = None;
    for (i, named) in databases.iter_mut().enumerate() {
        match led_on_line(named, lines, set) {
            Ok(found) => best = better(best, found, i),
            Err(fault) => return Ok(Owner::Stopped(told(alloc, &named.name, fault)?)),
        }
    }
    match best {
        None => Ok(Owner::Nobody),
        Some(claim) => Ok(Owner::At(claim.at)),
    }
}
