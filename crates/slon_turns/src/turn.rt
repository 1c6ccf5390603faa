// The turn of a slon by which its node polls another one.
ghost use Rattle.std.specs.Prelude.{◌≡◌, IfOk};
ghost use Rattle.store_rows.specs.Rows.{IsId};
ghost use Rattle.slonik_exec.specs.Databases.{bases_of, Runs};
ghost use Rattle.slonik_exec.specs.Heard.{AreDistinct};
ghost use Rattle.slon_turns.specs.Holding.{KeepBounds};
ghost use Rattle.slon_turns.specs.Pairing.{AreMeeting, PolledAt};
ghost use Rattle.slon_turns.specs.Turning.{Polls};

use crate::held::{Held, put_back};
use crate::polling::{Listen, poll_between};
use event_store::Queue;
use node_keeper::Keeper;
use slon_base::{ByteMap, Text};
use slon_model::{Refusal, Reply};
use slonik_exec::{Named, NoMemory, Reached, Spots, index_of_node, turn_of};
use std::alloc::{AllocError, Global};

/// A poll at two places.
fn poll_both<K: Keeper>(
    alloc: Global,
    databases: &mut [Named<K>],
    spots: Spots,
    queue: &mut Queue,
    listen: Listen,
) -> Result<Reply, NoMemory>
    requires meeting { AreMeeting databases.old spots }
    requires ids { IsId listen.server × (listen.server ≡ listen.node → ⊥) }
    ensures polled { IfOk result (λ reply. PolledAt K.kept (listen, spots) (databases.old, queue.old) reply
        (databases.new, queue.new)) }
{
    if spots.from < spots.to {
        let (front, back) = databases.split_at_mut(spots.to);
        poll_between(alloc, &mut front[spots.from], &mut back[0], queue, listen)
    } else {
        let (front, back) = databases.split_at_mut(spots.from);
        poll_between(alloc, &mut back[0], &mut front[spots.to], queue, listen)
    }
}

/// The bytes of a name.
pub(crate) fn key_of(alloc: Global, name: &Text) -> Result<Vec<u8>, AllocError>
    ensures { IfOk result (λ key. key.items ≡ name.now) }
{
    let mut key = Vec::new(alloc);
    key.extend_from_slice(name.as_slice())?;
    Ok(key)
}

/// The slon of a node has its turn to poll a server, and replies: 44, 16, 67 of the node, 44, 61, 68, 16, 62 of the
/// server, 60, or what the poll brought.
///
/// # Errors
///
/// `NoMemory` where there is none.
pub fn take_poll<K: Keeper>(
    alloc: Global,
    databases: &mut [Named<K>],
    held: &mut ByteMap<Held>,
    started: &[u32],
    listen: Listen,
) -> Result<Reply, NoMemory>
    requires distinct { AreDistinct (bases_of K.kept databases.old) }
    requires id { IsId listen.server }
    ensures runs { IfOk result (λ reply. Runs (bases_of K.kept databases.old) reply
        (bases_of K.kept databases.new)) }
    ensures polls { IfOk result (λ reply. Polls listen started.now
        (record { bases = bases_of K.kept databases.old; held = held.old }) reply
        (record { bases = bases_of K.kept databases.new; held = held.new })) }
    ensures bounds { IfOk result (λ reply. KeepBounds held.old held.new) }
{
    let from = match turn_of(alloc, databases, started, listen.node)? {
        Reached::At(from) => from,
        Reached::Refused(refusal) => return Ok(Reply::Refused(refusal)),
    };
    let Some(to) = index_of_node(databases, listen.server) else {
        let node = listen.server;
        return Ok(Reply::Refused(Refusal::NoNode { node }));
    };
    if listen.server == listen.node {
        let server = listen.server;
        return Ok(Reply::Refused(Refusal::NotListed { server }));
    }
    let key = key_of(alloc, &databases[from].name)?;
    let mut own = Held::take(alloc, held, key.as_slice());
    let spots = Spots { from, to };
    let polled = poll_both(alloc, databases, spots, &mut own.queue, listen);
    put_back(held, key, own, polled)
}
