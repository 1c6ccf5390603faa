// What a statement checks at the node that it reached, and all nodes.
ghost use Rattle.std.specs.Prelude.{◌≡◌, true, is_none, is_some, not, [], ◌∷◌, IfOk};
ghost use Rattle.std.specs.Option.{option_map};
ghost use Rattle.slon_base.specs.Codec.{IsText};
ghost use Rattle.store_rows.specs.Rows.{IsId};
ghost use Rattle.slon_model.specs.Config.{has_path, is_known, is_origin, set_row};
ghost use Rattle.slon_model.specs.Maps.{entry_at};
ghost use Rattle.slon_model.specs.Membership as membership;
ghost use Rattle.slon_model.specs.Names.{find_named};
ghost use Rattle.slon_model.specs.Reaching.{receiver_with, origin_checks};
ghost use Rattle.slon_model.specs.Sessions.{when, writer_of};
ghost use Rattle.slon_model.specs.declared.reply.Refusal.TheVariants as refused;
ghost use Rattle.app_store.specs.Base.{base_of};
ghost use Rattle.slon_model.specs.Sessions.{World};
ghost use Rattle.slon_model.specs.Reaching.{any_down};
ghost use Rattle.slonik_exec.specs.Answering.{AtSeat, Checks, is_id};
ghost use Rattle.slonik_exec.specs.Databases.{AreQuiet, FitsAll, bases_of};

use crate::databases::Named;
use crate::knowing::down_node;
use crate::replies::told;
use crate::short::NoMemory;
use node_keeper::Keeper;
use node_store::{
    Database, first_receiver, has_table, is_dropped, knows_live, knows_path, set_reign, writer,
};
use slon_base::Text;
use slon_model::{Refusal, Reply};
use std::alloc::Global;
use std::array;

/// 44: the node knows that the server of a path was dropped.
pub(crate) fn check_server<K: Keeper>(
    alloc: Global,
    seat: &mut Named<K>,
    server: u32,
) -> Result<Option<Reply>, NoMemory>
    requires up { seat.old.database.state.up ≡ true }
    requires id { IsId server }
    ensures checks { IfOk result (λ found. Checks seat.old.name (base_of K.kept seat.old.database) found
        (base_of K.kept seat.new.database)) }
    ensures refuses { IfOk result (λ found. AtSeat seat.old.name (λ s.
        when (membership.is_dropped (entry_at server s.known.config.nodes)) (refused.NoNode server) ∷ [])
        (base_of K.kept seat.old.database) found (base_of K.kept seat.new.database)) }
    ensures name { seat.new.name ≡ seat.old.name }
{
    match is_dropped(&mut seat.database, server) {
        Ok(false) => Ok(None),
        Ok(true) => Ok(Some(Reply::Refused(Refusal::NoNode { node: server }))),
        Err(fault) => Ok(Some(told(alloc, &seat.name, fault)?)),
    }
}

/// 75: the node knows no such path.
pub(crate) fn check_path<K: Keeper>(
    alloc: Global,
    seat: &mut Named<K>,
    client: u32,
    server: u32,
) -> Result<Option<Reply>, NoMemory>
    requires up { seat.old.database.state.up ≡ true }
    requires ids { IsId client × IsId server }
    ensures checks { IfOk result (λ found. Checks seat.old.name (base_of K.kept seat.old.database) found
        (base_of K.kept seat.new.database)) }
    ensures refuses { IfOk result (λ found. AtSeat seat.old.name (λ s.
        when (not (has_path client server s.known.config)) (refused.NoPath server) ∷ [])
        (base_of K.kept seat.old.database) found (base_of K.kept seat.new.database)) }
    ensures name { seat.new.name ≡ seat.old.name }
{
    match knows_path(&mut seat.database, client, server) {
        Ok(true) => Ok(None),
        Ok(false) => Ok(Some(Reply::Refused(Refusal::NoPath { node: server }))),
        Err(fault) => Ok(Some(told(alloc, &seat.name, fault)?)),
    }
}

/// 44: the node does not know that another one is live, or knows a fence against it.
pub(crate) fn check_live<K: Keeper>(
    alloc: Global,
    seat: &mut Named<K>,
    node: u32,
) -> Result<Option<Reply>, NoMemory>
    requires up { seat.old.database.state.up ≡ true }
    requires id { IsId node }
    ensures checks { IfOk result (λ found. Checks seat.old.name (base_of K.kept seat.old.database) found
        (base_of K.kept seat.new.database)) }
    ensures refuses { IfOk result (λ found. AtSeat seat.old.name (λ s.
        when (not (is_known node s.known.config)) (refused.NoNode node) ∷ [])
        (base_of K.kept seat.old.database) found (base_of K.kept seat.new.database)) }
    ensures name { seat.new.name ≡ seat.old.name }
{
    match knows_live(&mut seat.database, node) {
        Ok(true) => Ok(None),
        Ok(false) => Ok(Some(Reply::Refused(Refusal::NoNode { node }))),
        Err(fault) => Ok(Some(told(alloc, &seat.name, fault)?)),
    }
}

/// Whether the database is this node.
pub(crate) fn is_own<K: Keeper>(database: &Database<K>, id: u32) -> bool
    ensures { result ≡ is_id id database.now.state.node.identity }
{
    match database.node_id() {
        Some(own) => id == own,
        None => false,
    }
}

/// 47 the node knows no such live set, or 55 it is not its origin.
pub(crate) fn check_origin<K: Keeper>(
    alloc: Global,
    seat: &mut Named<K>,
    set: u32,
) -> Result<Option<Reply>, NoMemory>
    requires up { seat.old.database.state.up ≡ true }
    requires node { is_some seat.old.database.state.node.identity ≡ true }
    requires id { IsId set }
    ensures checks { IfOk result (λ found. Checks seat.old.name (base_of K.kept seat.old.database) found
        (base_of K.kept seat.new.database)) }
    ensures refuses { IfOk result (λ found. AtSeat seat.old.name (λ s. origin_checks s set)
        (base_of K.kept seat.old.database) found (base_of K.kept seat.new.database)) }
    ensures name { seat.new.name ≡ seat.old.name }
{
    match set_reign(&mut seat.database, set) {
        Ok(None) => Ok(Some(Reply::Refused(Refusal::NoSet { set }))),
        Ok(Some(reign)) => {
            if is_own(&seat.database, reign.origin) {
                return Ok(None);
            }
            Ok(Some(Reply::Refused(Refusal::NotOrigin { set })))
        }
        Err(fault) => Ok(Some(told(alloc, &seat.name, fault)?)),
    }
}

/// 46: the node knows a receiver of the set.
pub(crate) fn check_receivers<K: Keeper>(
    alloc: Global,
    seat: &mut Named<K>,
    set: u32,
) -> Result<Option<Reply>, NoMemory>
    requires up { seat.old.database.state.up ≡ true }
    requires id { IsId set }
    ensures checks { IfOk result (λ found. Checks seat.old.name (base_of K.kept seat.old.database) found
        (base_of K.kept seat.new.database)) }
    ensures refuses { IfOk result (λ found. AtSeat seat.old.name (λ s.
        option_map refused.HasReceivers (receiver_with (λ e. true) set s.known.config) ∷ [])
        (base_of K.kept seat.old.database) found (base_of K.kept seat.new.database)) }
    ensures name { seat.new.name ≡ seat.old.name }
{
    match first_receiver(&mut seat.database, set) {
        Ok(None) => Ok(None),
        Ok(Some(node)) => Ok(Some(Reply::Refused(Refusal::HasReceivers { node }))),
        Err(fault) => Ok(Some(told(alloc, &seat.name, fault)?)),
    }
}

/// 52: the database has no table of this name.
pub(crate) fn check_table<K: Keeper>(
    alloc: Global,
    seat: &mut Named<K>,
    table: &Text,
) -> Result<Option<Reply>, NoMemory>
    requires up { seat.old.database.state.up ≡ true }
    requires text { IsText table.now }
    ensures checks { IfOk result (λ found. Checks seat.old.name (base_of K.kept seat.old.database) found
        (base_of K.kept seat.new.database)) }
    ensures refuses { IfOk result (λ found. AtSeat seat.old.name (λ s.
        when (is_none (find_named table.now s.place.tables)) (refused.NoTable table.now) ∷ [])
        (base_of K.kept seat.old.database) found (base_of K.kept seat.new.database)) }
    ensures name { seat.new.name ≡ seat.old.name }
{
    match has_table(&mut seat.database, table) {
        Ok(true) => Ok(None),
        Ok(false) => {
            let table = table.copy(alloc)?;
            Ok(Some(Reply::Refused(Refusal::NoTable { table })))
        }
        Err(fault) => Ok(Some(told(alloc, &seat.name, fault)?)),
    }
}

/// 66: an open transaction wrote the table.
pub(crate) fn check_writers<K: Keeper>(
    alloc: Global,
    seat: &mut Named<K>,
    table: &Text,
) -> Result<Option<Reply>, NoMemory>
    requires { seat.old.database.state.up ≡ true }
    ensures checks { IfOk result (λ found. Checks seat.old.name (base_of K.kept seat.old.database) found
        (base_of K.kept seat.new.database)) }
    ensures refuses { IfOk result (λ found. AtSeat seat.old.name (λ s.
        option_map refused.Busy (writer_of (table.now ∷ []) s.place) ∷ [])
        (base_of K.kept seat.old.database) found (base_of K.kept seat.new.database)) }
    ensures name { seat.new.name ≡ seat.old.name }
{
    match writer(&mut seat.database, array::from_ref(table)) {
        Ok(None) => Ok(None),
        Ok(Some(xid)) => Ok(Some(Reply::Refused(Refusal::Busy { xid }))),
        Err(fault) => Ok(Some(told(alloc, &seat.name, fault)?)),
    }
}

/// 16: a database is down that is a node, or would be by a commit in doubt.
pub(crate) fn check_nodes<K: Keeper>(
    alloc: Global,
    databases: &[Named<K>],
) -> Result<Option<Refusal>, NoMemory>
    ensures due { IfOk result (λ found. (w : World) → FitsAll w.places (bases_of K.kept databases.now) →
        any_down w ≡ found) }
    ensures quiet { IfOk result (λ found. AreQuiet found) }
{
    match down_node(databases) {
        None => Ok(None),
        Some(name) => {
            let database = name.copy(alloc)?;
            Ok(Some(Refusal::Down { database }))
        }
    }
}
