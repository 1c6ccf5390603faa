// The database at which a slon has its turn.
ghost use Rattle.std.specs.Prelude.{◌≡◌, IfOk};
ghost use Rattle.std.specs.List.{position};
ghost use Rattle.slonik_exec.specs.Databases.{bases_of};
ghost use Rattle.slonik_exec.specs.Heard.{AreDistinct};
ghost use Rattle.slonik_exec.specs.Reached.{IsQuietly};
ghost use Rattle.slonik_exec.specs.Turning.{is_this, IsSeatHere, IsThisAt, HasTurn};

use crate::databases::Named;
use crate::reaching::Reached;
use crate::short::NoMemory;
use node_keeper::Keeper;
use slon_model::Refusal;
use std::alloc::Global;

/// The first database that is this node, or would be by a commit in doubt.
pub fn index_of_node<K: Keeper>(databases: &[Named<K>], node: u32) -> Option<usize>
    ensures { result ≡ position (is_this node) databases.now }
{
    databases
        .iter()
        .position(|named| named.database.node_id() == Some(node))
}

/// The database that is this node, which is up, and whose slon is on. Else 44 there is none, 16 it is down, or 67 its
/// slon is off.
///
/// # Errors
///
/// `NoMemory` where there is none.
pub fn turn_of<K: Keeper>(
    alloc: Global,
    databases: &[Named<K>],
    started: &[u32],
    node: u32,
) -> Result<Reached, NoMemory>
    requires distinct { AreDistinct (bases_of K.kept databases.now) }
    ensures here { IfOk result (λ reached. IsSeatHere databases.now reached) }
    ensures at { IfOk result (λ reached. IsThisAt node databases.now reached) }
    ensures quiet { IfOk result (λ reached. IsQuietly reached) }
    ensures turns { IfOk result (λ reached. HasTurn K.kept node started.now databases.now reached) }
{
    let Some(i) = index_of_node(databases, node) else {
        return Ok(Reached::Refused(Refusal::NoNode { node }));
    };
    if !databases[i].database.is_up() {
        let database = databases[i].name.copy(alloc)?;
        return Ok(Reached::Refused(Refusal::Down { database }));
    }
    if !started.contains(&node) {
        return Ok(Reached::Refused(Refusal::Off { node }));
    }
    Ok(Reached::At(i))
}
