// What statements look up at a database that is a node.
ghost use Rattle.std.specs.Prelude.{◌≡◌, is_some, true, IfOk};
ghost use Rattle.std.specs.List.{list_any};
ghost use Rattle.std.specs.Option.{option_map};
ghost use Rattle.std.specs.Str.{bytes_eq};
ghost use Rattle.slon_base.specs.Codec.{IsText};
ghost use Rattle.store_rows.specs.Rows.{IsId};
ghost use Rattle.store_rows.specs.Space.{AllOf};
ghost use Rattle.slon_model.specs.Config as config;
ghost use Rattle.slon_model.specs.Config.{has_path, set_row};
ghost use Rattle.slon_model.specs.Maps.{entry_at, pair_at};
ghost use Rattle.slon_model.specs.Membership as membership;
ghost use Rattle.slon_model.specs.Names.{find_named};
ghost use Rattle.slon_model.specs.Reaching.{receiver_with};
ghost use Rattle.slon_model.specs.Sessions.{writer_of};
ghost use Rattle.app_store.specs.Base.{base_of};
ghost use Rattle.app_store.specs.Parts.{Looks, Remembers};
ghost use Rattle.app_store.specs.Serves.{halts};
ghost use Rattle.node_store.specs.Acting.{Acts};
ghost use Rattle.node_store.specs.Looking.{IsSmall, OfConfig, forwards_in, live_reign, reign_of};

use app_store::{Database, DbFault, fall};
use node_change::{
    find_node_row, find_set_row, find_subscription, has_path, has_subscription, has_table_row,
    is_known,
};
use node_keeper::Keeper;
use node_rows::{NodeRow, SetRow, Subscription};
use slon_base::Text;

/// Whether the node knows of a node of this id, live or not.
///
/// # Errors
///
/// What stopped the store; the database is down then.
pub fn knows_node<K: Keeper>(database: &mut Database<K>, id: u32) -> Result<bool, DbFault>
    requires up { database.old.state.up ≡ true }
    requires id { IsId id }
    ensures acts { Acts (halts result) (base_of K.kept database.old) (base_of K.kept database.new) }
    ensures looks { Looks (OfConfig (λ c found. found ≡ is_some (entry_at id c.nodes)))
        (base_of K.kept database.old) result (base_of K.kept database.new) }
    ensures same { Remembers (base_of K.kept database.old) result (base_of K.kept database.new) }
{
    match find_node_row(database.alloc, &mut database.keeper, id) {
        Ok(found) => Ok(found.is_some()),
        Err(stop) => Err(fall(database.alloc, &mut database.state, &database.keeper, stop)),
    }
}

/// Whether the row of a node says that it was dropped.
fn is_gone(row: &Option<NodeRow>) -> bool
    ensures { result ≡ membership.is_dropped row.now }
{
    match row {
        None => false,
        Some(row) => !row.live,
    }
}

/// Whether the node knows that a node was dropped.
///
/// # Errors
///
/// What stopped the store; the database is down then.
pub fn is_dropped<K: Keeper>(database: &mut Database<K>, id: u32) -> Result<bool, DbFault>
    requires up { database.old.state.up ≡ true }
    requires id { IsId id }
    ensures acts { Acts (halts result) (base_of K.kept database.old) (base_of K.kept database.new) }
    ensures looks { Looks (OfConfig (λ c found. found ≡ membership.is_dropped (entry_at id c.nodes)))
        (base_of K.kept database.old) result (base_of K.kept database.new) }
    ensures same { Remembers (base_of K.kept database.old) result (base_of K.kept database.new) }
{
    match find_node_row(database.alloc, &mut database.keeper, id) {
        Ok(row) => Ok(is_gone(&row)),
        Err(stop) => Err(fall(database.alloc, &mut database.state, &database.keeper, stop)),
    }
}

/// Whether the node knows a path of this client to this server.
///
/// # Errors
///
/// What stopped the store; the database is down then.
pub fn knows_path<K: Keeper>(
    database: &mut Database<K>,
    client: u32,
    server: u32,
) -> Result<bool, DbFault>
    requires up { database.old.state.up ≡ true }
    requires ids { IsId client × IsId server }
    ensures acts { Acts (halts result) (base_of K.kept database.old) (base_of K.kept database.new) }
    ensures looks { Looks (OfConfig (λ c found. found ≡ has_path client server c))
        (base_of K.kept database.old) result (base_of K.kept database.new) }
    ensures same { Remembers (base_of K.kept database.old) result (base_of K.kept database.new) }
{
    match has_path(database.alloc, &mut database.keeper, client, server) {
        Ok(found) => Ok(found),
        Err(stop) => Err(fall(database.alloc, &mut database.state, &database.keeper, stop)),
    }
}

/// Whether the node knows of a set of this id, live or not.
///
/// # Errors
///
/// What stopped the store; the database is down then.
pub fn knows_set<K: Keeper>(database: &mut Database<K>, id: u32) -> Result<bool, DbFault>
    requires up { database.old.state.up ≡ true }
    requires id { IsId id }
    ensures acts { Acts (halts result) (base_of K.kept database.old) (base_of K.kept database.new) }
    ensures looks { Looks (OfConfig (λ c found. found ≡ is_some (entry_at id c.sets)))
        (base_of K.kept database.old) result (base_of K.kept database.new) }
    ensures same { Remembers (base_of K.kept database.old) result (base_of K.kept database.new) }
{
    match find_set_row(database.alloc, &mut database.keeper, id) {
        Ok(found) => Ok(found.is_some()),
        Err(stop) => Err(fall(database.alloc, &mut database.state, &database.keeper, stop)),
    }
}

/// Who leads a set, and in which era.
#[derive(Clone, Copy, Debug, PartialEq, Eq)]
pub struct Reign {
    /// The origin of the set.
    pub origin: u32,
    /// The number of the era, which is 1 for the first one.
    pub era: u64,
}

/// Who leads the set of a row, if the set is live.
fn reign_in(row: &Option<SetRow>) -> Option<Reign>
    ensures { result ≡ live_reign row.now }
{
    match row {
        None => None,
        Some(row) => {
            let reign = Reign {
                origin: row.origin,
                era: row.era,
            };
            row.live.then_some(reign)
        }
    }
}

/// Who leads a set, if the node knows that the set is live.
///
/// # Errors
///
/// What stopped the store; the database is down then.
pub fn set_reign<K: Keeper>(database: &mut Database<K>, set: u32) -> Result<Option<Reign>, DbFault>
    requires up { database.old.state.up ≡ true }
    requires id { IsId set }
    ensures acts { Acts (halts result) (base_of K.kept database.old) (base_of K.kept database.new) }
    ensures small { IfOk result (AllOf IsSmall) }
    ensures looks { Looks (OfConfig (λ c found. found ≡ option_map reign_of (set_row set c)))
        (base_of K.kept database.old) result (base_of K.kept database.new) }
    ensures same { Remembers (base_of K.kept database.old) result (base_of K.kept database.new) }
{
    match find_set_row(database.alloc, &mut database.keeper, set) {
        Ok(row) => Ok(reign_in(&row)),
        Err(stop) => Err(fall(database.alloc, &mut database.state, &database.keeper, stop)),
    }
}

/// Whether the row of a node says that it is live.
fn is_there(row: &Option<NodeRow>) -> bool
    ensures { result ≡ config.is_live_row row.now }
{
    match row {
        None => false,
        Some(row) => row.live,
    }
}

/// Whether the node knows that a node is live, whatever fence it knows against it.
///
/// # Errors
///
/// What stopped the store; the database is down then.
pub fn has_live<K: Keeper>(database: &mut Database<K>, id: u32) -> Result<bool, DbFault>
    requires up { database.old.state.up ≡ true }
    requires id { IsId id }
    ensures acts { Acts (halts result) (base_of K.kept database.old) (base_of K.kept database.new) }
    ensures looks { Looks (OfConfig (λ c found. found ≡ config.is_live id c))
        (base_of K.kept database.old) result (base_of K.kept database.new) }
    ensures same { Remembers (base_of K.kept database.old) result (base_of K.kept database.new) }
{
    match find_node_row(database.alloc, &mut database.keeper, id) {
        Ok(found) => Ok(is_there(&found)),
        Err(stop) => Err(fall(database.alloc, &mut database.state, &database.keeper, stop)),
    }
}

/// The least live set that a node has a part in, as far as this one knows: the other one is the origin of the set,
/// receives it, or provides it.
///
/// # Errors
///
/// What stopped the store; the database is down then.
pub fn set_used_by<K: Keeper>(database: &mut Database<K>, id: u32) -> Result<Option<u32>, DbFault>
    requires up { database.old.state.up ≡ true }
    ensures acts { Acts (halts result) (base_of K.kept database.old) (base_of K.kept database.new) }
    ensures looks { Looks (OfConfig (λ c found. found ≡ membership.set_used_by id c))
        (base_of K.kept database.old) result (base_of K.kept database.new) }
    ensures same { Remembers (base_of K.kept database.old) result (base_of K.kept database.new) }
{
    match node_change::set_used_by(database.alloc, &mut database.keeper, id) {
        Ok(found) => Ok(found),
        Err(stop) => Err(fall(database.alloc, &mut database.state, &database.keeper, stop)),
    }
}

/// Whether the node knows that a node is live, and knows no fence against it.
///
/// # Errors
///
/// What stopped the store; the database is down then.
pub fn knows_live<K: Keeper>(database: &mut Database<K>, id: u32) -> Result<bool, DbFault>
    requires up { database.old.state.up ≡ true }
    requires id { IsId id }
    ensures acts { Acts (halts result) (base_of K.kept database.old) (base_of K.kept database.new) }
    ensures looks { Looks (OfConfig (λ c found. found ≡ config.is_known id c))
        (base_of K.kept database.old) result (base_of K.kept database.new) }
    ensures same { Remembers (base_of K.kept database.old) result (base_of K.kept database.new) }
{
    match is_known(database.alloc, &mut database.keeper, id) {
        Ok(found) => Ok(found),
        Err(stop) => Err(fall(database.alloc, &mut database.state, &database.keeper, stop)),
    }
}

/// Whether the node knows that a node receives a set.
///
/// # Errors
///
/// What stopped the store; the database is down then.
pub fn knows_receiver<K: Keeper>(
    database: &mut Database<K>,
    set: u32,
    receiver: u32,
) -> Result<bool, DbFault>
    requires up { database.old.state.up ≡ true }
    requires ids { IsId set × IsId receiver }
    ensures acts { Acts (halts result) (base_of K.kept database.old) (base_of K.kept database.new) }
    ensures looks { Looks (OfConfig (λ c found. found ≡ is_some (pair_at set receiver c.subscriptions)))
        (base_of K.kept database.old) result (base_of K.kept database.new) }
    ensures same { Remembers (base_of K.kept database.old) result (base_of K.kept database.new) }
{
    match has_subscription(database.alloc, &mut database.keeper, set, receiver) {
        Ok(found) => Ok(found),
        Err(stop) => Err(fall(database.alloc, &mut database.state, &database.keeper, stop)),
    }
}

/// Whether the row of a subscription says that the node forwards the set.
fn is_forwarded(row: &Option<Subscription>) -> bool
    ensures { result ≡ forwards_in row.now }
{
    match row {
        None => false,
        Some(row) => row.forward,
    }
}

/// Whether the node knows that a node receives a set and forwards it.
///
/// # Errors
///
/// What stopped the store; the database is down then.
pub fn knows_forwarder<K: Keeper>(
    database: &mut Database<K>,
    set: u32,
    receiver: u32,
) -> Result<bool, DbFault>
    requires up { database.old.state.up ≡ true }
    requires ids { IsId set × IsId receiver }
    ensures acts { Acts (halts result) (base_of K.kept database.old) (base_of K.kept database.new) }
    ensures looks { Looks (OfConfig (λ c found. found ≡ config.forwards set receiver c))
        (base_of K.kept database.old) result (base_of K.kept database.new) }
    ensures same { Remembers (base_of K.kept database.old) result (base_of K.kept database.new) }
{
    match find_subscription(database.alloc, &mut database.keeper, set, receiver) {
        Ok(row) => Ok(is_forwarded(&row)),
        Err(stop) => Err(fall(database.alloc, &mut database.state, &database.keeper, stop)),
    }
}

/// Whether the node knows of a table of this id in a set, live or not.
///
/// # Errors
///
/// What stopped the store; the database is down then.
pub fn knows_table<K: Keeper>(database: &mut Database<K>, id: u32) -> Result<bool, DbFault>
    requires up { database.old.state.up ≡ true }
    requires id { IsId id }
    ensures acts { Acts (halts result) (base_of K.kept database.old) (base_of K.kept database.new) }
    ensures looks { Looks (OfConfig (λ c found. found ≡ is_some (entry_at id c.tables)))
        (base_of K.kept database.old) result (base_of K.kept database.new) }
    ensures same { Remembers (base_of K.kept database.old) result (base_of K.kept database.new) }
{
    match has_table_row(database.alloc, &mut database.keeper, id) {
        Ok(found) => Ok(found),
        Err(stop) => Err(fall(database.alloc, &mut database.state, &database.keeper, stop)),
    }
}

/// Whether the node knows of a table of this name in a set, live or not.
///
/// # Errors
///
/// What stopped the store; the database is down then.
pub fn names_table<K: Keeper>(database: &mut Database<K>, name: &Text) -> Result<bool, DbFault>
    requires up { database.old.state.up ≡ true }
    requires name { IsText name.now }
    ensures acts { Acts (halts result) (base_of K.kept database.old) (base_of K.kept database.new) }
    ensures looks { Looks (OfConfig (λ c found. found ≡ list_any (λ e. bytes_eq name.now e.1.name) c.tables))
        (base_of K.kept database.old) result (base_of K.kept database.new) }
    ensures same { Remembers (base_of K.kept database.old) result (base_of K.kept database.new) }
{
    Ok(database.state.node.names(name))
}

/// The least receiver of a set, if the node knows one.
///
/// # Errors
///
/// What stopped the store; the database is down then.
pub fn first_receiver<K: Keeper>(
    database: &mut Database<K>,
    set: u32,
) -> Result<Option<u32>, DbFault>
    requires up { database.old.state.up ≡ true }
    requires id { IsId set }
    ensures acts { Acts (halts result) (base_of K.kept database.old) (base_of K.kept database.new) }
    ensures looks { Looks (OfConfig (λ c found. found ≡ receiver_with (λ e. true) set c))
        (base_of K.kept database.old) result (base_of K.kept database.new) }
    ensures same { Remembers (base_of K.kept database.old) result (base_of K.kept database.new) }
{
    match node_change::first_receiver(database.alloc, &mut database.keeper, set) {
        Ok(found) => Ok(found),
        Err(stop) => Err(fall(database.alloc, &mut database.state, &database.keeper, stop)),
    }
}

/// Whether the database has a table of this name.
///
/// # Errors
///
/// What stopped the store; the database is down then.
pub fn has_table<K: Keeper>(database: &mut Database<K>, name: &Text) -> Result<bool, DbFault>
    requires up { database.old.state.up ≡ true }
    requires name { IsText name.now }
    ensures acts { Acts (halts result) (base_of K.kept database.old) (base_of K.kept database.new) }
    ensures looks { Looks (λ p found. found ≡ is_some (find_named name.now p.tables))
        (base_of K.kept database.old) result (base_of K.kept database.new) }
    ensures same { Remembers (base_of K.kept database.old) result (base_of K.kept database.new) }
{
    match width(database, name) {
        Ok(found) => Ok(found.is_some()),
        Err(fault) => Err(fault),
    }
}

/// How many columns the table of this name has at the database, if there is one.
///
/// # Errors
///
/// What stopped the store; the database is down then.
pub fn width<K: Keeper>(database: &mut Database<K>, name: &Text) -> Result<Option<u64>, DbFault>
    requires up { database.old.state.up ≡ true }
    requires name { IsText name.now }
    ensures acts { Acts (halts result) (base_of K.kept database.old) (base_of K.kept database.new) }
    ensures looks { Looks (λ p found. found ≡ find_named name.now p.tables)
        (base_of K.kept database.old) result (base_of K.kept database.new) }
    ensures same { Remembers (base_of K.kept database.old) result (base_of K.kept database.new) }
{
    database.width(name)
}

/// The least id of an open transaction that wrote one of these tables, if one did.
///
/// # Errors
///
/// What stopped the store; the database is down then.
pub fn writer<K: Keeper>(database: &mut Database<K>, names: &[Text]) -> Result<Option<u64>, DbFault>
    requires { database.old.state.up ≡ true }
    ensures acts { Acts (halts result) (base_of K.kept database.old) (base_of K.kept database.new) }
    ensures looks { Looks (λ p found. found ≡ writer_of names.now p)
        (base_of K.kept database.old) result (base_of K.kept database.new) }
    ensures same { Remembers (base_of K.kept database.old) result (base_of K.kept database.new) }
{
    Ok(database.writer(names)?)
}
