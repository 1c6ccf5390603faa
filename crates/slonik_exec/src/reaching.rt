// How a script reaches a node: by its NODE line, the name of a database in it, and what that database is.
ghost use Rattle.std.specs.Prelude.{◌≡◌, IfOk};
ghost use Rattle.std.specs.List.{slice_split};
ghost use Rattle.std.specs.Option.{option_copied};
ghost use Rattle.std.specs.Str.{IsUtf8};
ghost use Rattle.slon_model.specs.Reaching as rules;
ghost use Rattle.slonik_exec.specs.Databases.{bases_of};
ghost use Rattle.slonik_exec.specs.Reached.{name_on, seat_in, IsUpHere, IsNodeHere, IsQuietly, FindsLine};
ghost use Rattle.slonik_exec.specs.Reached.{Reaches};

use crate::databases::{Named, index_of};
use crate::short::NoMemory;
use node_keeper::Keeper;
use node_store::Database;
use slon_base::Text;
use slon_model::Refusal;
use slonik_script::NodeLines;
use std::alloc::Global;

/// Whether a script reaches a database.
#[derive(Drop)]
pub enum Reached {
    /// It reaches the one at this index.
    At(usize),
    /// It does not, for this reason.
    Refused(Refusal),
}

/// What stands behind this prefix in the last word of a conninfo that begins with it.
fn value_in<'a>(conninfo: &'a [u8], prefix: &[u8]) -> Option<&'a [u8]>
    ensures { option_copied result ≡ rules.last_behind prefix.now (slice_split rules.is_blank conninfo.now) }
{
    let mut value = None;
    for word in conninfo.split(|c| matches!(*c, b' ' | b'\t' | b'\r')) {
        value = word.strip_prefix(prefix).or(value);
    }
    value
}

/// The database that a conninfo names: the value of `dbname`, else of `service`, else nothing.
pub fn database_in(conninfo: &[u8]) -> &[u8]
    ensures name { result.now ≡ rules.database_in conninfo.now }
    ensures text { IsUtf8 conninfo.now → IsUtf8 result.now }
{
    match value_in(conninfo, b"dbname=") {
        Some(name) => name,
        None => value_in(conninfo, b"service=").unwrap_or(b""),
    }
}

/// The text of these bytes.
fn text_of(alloc: Global, bytes: &[u8]) -> Result<Text, NoMemory>
    requires { IsUtf8 bytes.now }
    ensures { IfOk result (λ text. text ≡ bytes.now) }
{
    match Text::from_bytes(alloc, bytes)? {
        Some(text) => Ok(text),
        None => unreachable!(),
    }
}

/// The database of the NODE line of this id, which is up. Else 45 there is no line, 17 there is no such database, or 16
/// it is down.
///
/// # Errors
///
/// `NoMemory` where there is none.
pub fn database_of_line<K: Keeper>(
    alloc: Global,
    databases: &[Named<K>],
    lines: &NodeLines,
    id: u32,
) -> Result<Reached, NoMemory>
    ensures here { IfOk result (λ reached. IsUpHere (name_on id lines.now) databases.now reached) }
    ensures quiet { IfOk result (λ reached. IsQuietly reached) }
    ensures finds { IfOk result (λ reached. FindsLine lines.now id (bases_of K.kept databases.now) reached) }
{
    let Some(conninfo) = lines.conninfo(id) else {
        return Ok(Reached::Refused(Refusal::NoConninfo { node: id }));
    };
    let name = database_in(conninfo.as_slice());
    let Some(i) = index_of(databases, name) else {
        let database = text_of(alloc, name)?;
        return Ok(Reached::Refused(Refusal::NoDatabase { database }));
    };
    if databases[i].database.is_up() {
        return Ok(Reached::At(i));
    }
    let database = databases[i].name.copy(alloc)?;
    Ok(Reached::Refused(Refusal::Down { database }))
}

/// The database at this index, if it is this node of this cluster. Else 41 it is no node, or 42 it is another one.
fn seated<K: Keeper>(database: &Database<K>, i: usize, cluster: &Text, id: u32) -> Reached
    ensures { result ≡ seat_in i id cluster.now database.now.state.node.identity }
{
    match &database.state.node.identity {
        None => Reached::Refused(Refusal::NotInitialised { node: id }),
        Some(own) => {
            if own.id == id && own.cluster.as_slice() == cluster.as_slice() {
                return Reached::At(i);
            }
            Reached::Refused(Refusal::OtherNode { node: id })
        }
    }
}

/// The database of the NODE line of this id, which is up and this node of the cluster. Else 45, 17, 16, 41 it is no
/// node, or 42 it is another one.
///
/// # Errors
///
/// `NoMemory` where there is none.
pub fn reach<K: Keeper>(
    alloc: Global,
    databases: &[Named<K>],
    lines: &NodeLines,
    cluster: &Text,
    id: u32,
) -> Result<Reached, NoMemory>
    ensures here { IfOk result (λ reached. IsNodeHere (name_on id lines.now) databases.now reached) }
    ensures quiet { IfOk result (λ reached. IsQuietly reached) }
    ensures reaches { IfOk result (λ reached. Reaches (record { lines = lines.now; cluster = cluster.now }) id
        (bases_of K.kept databases.now) reached) }
{
    match database_of_line(alloc, databases, lines, id)? {
        Reached::At(i) => Ok(seated(&databases[i].database, i, cluster, id)),
        Reached::Refused(refusal) => Ok(Reached::Refused(refusal)),
    }
}
