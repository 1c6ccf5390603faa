// What is asked of all databases.
ghost use Rattle.std.specs.Prelude.{◌≡◌, true, None, is_err, IfOk};
ghost use Rattle.std.specs.Option.{option_copied};
ghost use Rattle.app_store.specs.Base.{base_of};
ghost use Rattle.app_store.specs.Parts.{Looks, Remembers};
ghost use Rattle.app_store.specs.Serves.{halts};
ghost use Rattle.node_store.specs.Acting.{Acts};
ghost use Rattle.node_store.specs.Looking.{OfConfig};
ghost use Rattle.slonik_exec.specs.Databases.{bases_of};
ghost use Rattle.slonik_exec.specs.Heard.{test_of, CanAsk, Knows, AreDistinct, RunsHeard, Hears, KeepsFound};
ghost use Rattle.slonik_exec.specs.Reached.{AreFree, IsDown, IsDownNode, IsFirstNode, HasNode};

use crate::databases::Named;
use crate::replies::told;
use crate::short::NoMemory;
use node_keeper::Keeper;
use node_store::{Database, DbFault, knows_node, knows_set, knows_table, names_table};
use slon_base::Text;
use slon_model::Reply;
use std::alloc::Global;

/// The name of the first database that is down.
pub fn down_database<K: Keeper>(databases: &[Named<K>]) -> Option<&Text>
    ensures { IsDown (bases_of K.kept databases.now) (option_copied result) }
{
    let down = databases.iter().find(|named| !named.database.is_up())?;
    Some(&down.name)
}

/// The name of the first database that is down and is a node, or would be by a commit in doubt.
pub fn down_node<K: Keeper>(databases: &[Named<K>]) -> Option<&Text>
    ensures { IsDownNode (bases_of K.kept databases.now) (option_copied result) }
{
    let down = databases.iter().find(|named| !named.database.is_up()
        && named.database.node_id().is_some())?;
    Some(&down.name)
}

/// The id of the first database that is a node, or would be by a commit in doubt.
pub fn first_node<K: Keeper>(databases: &[Named<K>]) -> Option<u32>
    ensures first { IsFirstNode (bases_of K.kept databases.now) result }
    ensures none { result ≡ None → AreFree databases.now }
{
    let node = databases
        .iter()
        .find(|named| named.database.node_id().is_some())?;
    node.database.node_id()
}

/// Whether a database is this node, or would be by a commit in doubt.
pub fn has_node<K: Keeper>(databases: &[Named<K>], node: u32) -> bool
    ensures { HasNode node (bases_of K.kept databases.now) result }
{
    databases
        .iter()
        .any(|named| named.database.node_id() == Some(node))
}

/// What all nodes are asked.
#[derive(Clone, Copy)]
pub enum Question<'a> {
    /// Whether one knows of a node of this id.
    Node(u32),
    /// Of a set of this id.
    Set(u32),
    /// Of a table of this id in a set.
    Table(u32),
    /// Of a table of this name in a set.
    Name(&'a Text),
}

/// What all nodes answered.
#[derive(Drop)]
pub enum Heard {
    /// Whether one knows of it.
    Known(bool),
    /// The store of one stopped, and this is replied.
    Stopped(Reply),
}

/// Asks a database that is up and a node.
fn look<K: Keeper>(database: &mut Database<K>, question: &Question<'_>) -> Result<bool, DbFault>
    requires up { database.old.state.up ≡ true }
    requires can { CanAsk question.now }
    ensures acts { Acts (halts result) (base_of K.kept database.old) (base_of K.kept database.new) }
    ensures looks { Looks (OfConfig (λ c found. found ≡ test_of question.now c))
        (base_of K.kept database.old) result (base_of K.kept database.new) }
    ensures same { Remembers (base_of K.kept database.old) result (base_of K.kept database.new) }
{
    match question {
        Question::Node(id) => knows_node(database, *id),
        Question::Set(id) => knows_set(database, *id),
        Question::Table(id) => knows_table(database, *id),
        Question::Name(name) => names_table(database, name),
    }
}

/// Asks a database, which says no where it is down or no node.
fn ask<K: Keeper>(database: &mut Database<K>, question: &Question<'_>) -> Result<bool, DbFault>
    requires can { CanAsk question.now }
    ensures acts { Acts (halts result) (base_of K.kept database.old) (base_of K.kept database.new) }
    ensures same { Remembers (base_of K.kept database.old) result (base_of K.kept database.new) }
    ensures up { is_err result ≡ true → database.old.state.up ≡ true }
    ensures knows { Knows (test_of question.now) (base_of K.kept database.old) result
        (base_of K.kept database.new) }
{
    if !database.is_up() || database.node_id().is_none() {
        return Ok(false);
    }
    look(database, question)
}

/// Whether some node knows of it. The first one that does is the last one that is asked.
///
/// # Errors
///
/// `NoMemory` where there is none.
pub fn known_somewhere<K: Keeper>(
    alloc: Global,
    databases: &mut [Named<K>],
    question: &Question<'_>,
) -> Result<Heard, NoMemory>
    requires can { CanAsk question.now }
    requires distinct { AreDistinct (bases_of K.kept databases.old) }
    ensures runs { IfOk result (λ heard. RunsHeard (bases_of K.kept databases.old) heard
        (bases_of K.kept databases.new)) }
    ensures keeps { IfOk result (λ heard. KeepsFound databases.old heard databases.new) }
    ensures hears { IfOk result (λ heard. Hears question.now (bases_of K.kept databases.old) heard
        (bases_of K.kept databases.new)) }
{
    for named in databases.iter_mut() {
        match ask(&mut named.database, question) {
            Ok(false) => {}
            Ok(true) => return Ok(Heard::Known(true)),
            Err(fault) => return Ok(Heard::Stopped(told(alloc, &named.name, fault)?)),
        }
    }
    Ok(Heard::Known(false))
}
