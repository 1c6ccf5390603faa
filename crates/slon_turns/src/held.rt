// What the node of a database has in memory.
ghost use Rattle.std.specs.Prelude.{◌≡◌, IfOk, Ok};
ghost use Rattle.std.specs.FinMap.{get, insert, remove};

use crate::bounds::Bound;
use event_store::Queue;
use remote_worker::Fetches;
use slon_base::ByteMap;
use slon_model::Reply;
use slonik_exec::NoMemory;
use std::alloc::Global;

/// What the node of a database has in memory: the events that wait there, what it fetched of them and keeps, and what
/// it knows of the transactions of other nodes.
pub struct Held {
    /// The events that wait.
    pub queue: Queue,
    /// What was fetched.
    pub fetches: Fetches,
    /// What it knows of the transactions of other nodes.
    pub bounds: Vec<Bound>,
}

// By hand: a derived destructor would be proved anew, with those of all its parts, in each crate that drops a value of
// this type.
impl Drop for Held {
    fn drop(self) {
        let Held {
            queue,
            fetches,
            bounds,
        } = self;
        drop(queue);
        drop(fetches);
        drop(bounds);
    }
}

impl Held {
    ghost use Rattle.slon_turns.specs.Holding.{IsTaken};

    /// Takes out what is held under a name; where nothing is, nothing waits, nothing was fetched, and
    /// nothing is known.
    pub(crate) fn take(alloc: Global, held: &mut ByteMap<Held>, name: &[u8]) -> Held
        ensures map { held.new ≡ remove held.old name.now }
        ensures is { IsTaken (get held.old name.now) result }
    {
        match held.remove(name) {
            Some(held) => held,
            None => Held {
                queue: Queue::new(alloc),
                fetches: Fetches::new(alloc),
                bounds: Vec::new(alloc),
            },
        }
    }
}

/// Puts what is held back under its name behind a turn, and hands on the reply. Values with owned parts are let go by
/// name: where they fall out of scope, the check of the function opens all their variants.
pub(crate) fn put_back(
    held: &mut ByteMap<Held>,
    key: Vec<u8>,
    own: Held,
    turned: Result<Reply, NoMemory>,
) -> Result<Reply, NoMemory>
    ensures { IfOk result (λ reply. (turned ≡ Ok reply) × (held.new ≡ insert held.old key.items own)) }
{
    match turned {
        Ok(reply) => match held.insert(key, own) {
            Ok(()) => Ok(reply),
            Err(_) => {
                drop(reply);
                Err(NoMemory)
            }
        },
        Err(short) => {
            drop((key, own));
            Err(short)
        }
    }
}
