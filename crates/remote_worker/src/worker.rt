// The states of the work of a node. Each is a value that holds what the next one needs.
ghost use Rattle.std.specs.Prelude.{◌≡◌, List, Some, true, is_some, IfOk, IfErr};
ghost use Rattle.store_rows.specs.Rows.{IsId};
ghost use Rattle.store_rows.specs.Spending.{PutsUpTo};
ghost use Rattle.slon_model.specs.Deeds.{knowledge};
ghost use Rattle.slon_model.specs.Sessions.{writer_of};
ghost use Rattle.event_store.specs.Seen.{seen_event};
ghost use Rattle.event_store.specs.declared.event.Event.{Event};
ghost use Rattle.app_store.specs.Base.{base_of};
ghost use Rattle.app_store.specs.Parts.{Looks, Remembers};
ghost use Rattle.app_store.specs.Serves.{answered, halts, trouble};
ghost use Rattle.node_store.specs.Acting.{Acts, joined, own_id};
ghost use Rattle.node_store.specs.Bringing.{CanBring, IsSyncWith, puts_allowed};
ghost use Rattle.node_store.specs.declared.bringing.SetSync.{SetSync};
ghost use Rattle.node_store.specs.Polling.{OfNode};
ghost use Rattle.remote_worker.specs.Loading.{CanLoad, IsStill, names_loaded, rows_loaded};
ghost use Rattle.remote_worker.specs.Working.{waits_as, Applies, DropsUnless, IsAble, IsReady, IsSameEvent};
ghost use Rattle.remote_worker.specs.Working.{IsSettled, IsWith, Takes};

use crate::carrying::{Errand, can_carry_out, errand_in, kind_of};
use crate::loading::{Load, brought_by, count_loaded, names_loaded};
use crate::reading::next_of;
use crate::standing::left_of;
use app_store::{Database, DbFault, fall};
use event_store::Queue;
use node_keeper::Keeper;
use node_store::{Brought, apply, writer};
use slon_model::EventKind;
use std::alloc::{AllocError, Global};

/// Where the node of this id is with the events of an origin.
#[derive(Drop)]
pub struct Worker<S: Drop> {
    /// The id of the node that applies them.
    pub node: u32,
    /// The id of the origin.
    pub origin: u32,
    /// What is known by now.
    pub state: S,
}

/// It is known which event of the origin comes next.
#[derive(Drop)]
pub struct Ready {
    /// Its number: one more than that of the last one that the node has met.
    pub number: u64,
    /// Whether the node receives a set of the origin.
    pub receives: bool,
}

/// That event waits, and the node can carry it out.
#[derive(Drop)]
pub struct Taken {
    /// Its number.
    pub number: u64,
    /// Its kind.
    pub kind: EventKind,
    /// What the node is to bring with it from another node, if anything.
    pub errand: Option<Errand>,
}

/// All is there that comes with the event.
#[derive(Drop)]
pub struct Fetched {
    /// Its number.
    pub number: u64,
    /// Its kind.
    pub kind: EventKind,
    /// What comes with it.
    pub load: Option<Load>,
}

/// The event is to be applied with what comes with it.
#[derive(Drop)]
pub struct Settled {
    /// Its number.
    pub number: u64,
    /// What it brings.
    pub brought: Option<Brought>,
}

/// What there is for a node to apply.
#[derive(Drop)]
pub enum Next {
    /// The event that comes next, which the node can carry out.
    Due(Worker<Taken>),
    /// That event does not wait.
    Missing,
    /// It waits, and the node cannot carry it out yet.
    NotBuilt,
}

impl Worker<Ready> {
    /// Looks up which event of the origin comes next at the node of this database.
    ///
    /// # Errors
    ///
    /// What stopped the store; the database is down then.
    pub fn resume<K: Keeper>(own: &mut Database<K>, origin: u32) -> Result<Worker<Ready>, DbFault>
        requires up { own.old.state.up ≡ true }
        requires node { is_some own.old.state.node.identity ≡ true }
        requires origin { IsId origin }
        ensures acts { Acts (halts result) (base_of K.kept own.old) (base_of K.kept own.new) }
        ensures own { IfOk result (λ w. (w.node ≡ own_id own.old.state.node.identity) × (w.origin ≡ origin)) }
        ensures looks { Looks (OfNode (IsReady origin)) (base_of K.kept own.old) result (base_of K.kept own.new) }
        ensures same { Remembers (base_of K.kept own.old) result (base_of K.kept own.new) }
    {
        let Some(node) = own.node_id() else {
            return Err(DbFault::Down);
        };
        match next_of(own.alloc, &mut own.keeper, node, origin) {
            Ok((number, receives)) => Ok(Worker {
                node,
                origin,
                state: Ready { number, receives },
            }),
            Err(stop) => Err(fall(own.alloc, &mut own.state, &own.keeper, stop)),
        }
    }

    /// Takes the event that comes next, where it waits and the node can carry it out.
    pub fn take(self, queue: &Queue) -> Next
        ensures { Takes self queue.now result }
    {
        let Worker {
            node,
            origin,
            state,
        } = self;
        let Ready { number, receives } = state;
        let Some(event) = queue.get(origin, number) else {
            return Next::Missing;
        };
        if !can_carry_out(&event.body) {
            return Next::NotBuilt;
        }
        let state = Taken {
            number,
            kind: kind_of(&event.body),
            errand: errand_in(node, receives, origin, &event.body),
        };
        Next::Due(Worker {
            node,
            origin,
            state,
        })
    }
}

impl Worker<Taken> {
    /// This comes with the event, or nothing but what it says.
    pub fn with(self, load: Option<Load>) -> Worker<Fetched>
        ensures { IsWith self load result }
    {
        let Worker {
            node,
            origin,
            state,
        } = self;
        let Taken { number, kind, .. } = state;
        Worker {
            node,
            origin,
            state: Fetched { number, kind, load },
        }
    }
}

impl Worker<Fetched> {
    /// How many rows come with the event.
    ///
    /// # Errors
    ///
    /// `AllocError` where there are more than a number can tell.
    pub fn rows(&self) -> Result<u64, AllocError>
        ensures { IfOk result (λ count. count ≡ rows_loaded self.now.state.load) }
    {
        count_loaded(&self.state.load)
    }

    /// The same event with what is left of what comes with it at the node, whose database this is: that of the sets of
    /// which the view that stood as it was fetched stands still.
    ///
    /// # Errors
    ///
    /// What stopped the store; the database is down then. `NoMemory`.
    pub fn still<K: Keeper>(self, own: &mut Database<K>) -> Result<Worker<Fetched>, DbFault>
        requires up { own.old.state.up ≡ true }
        requires node { is_some own.old.state.node.identity ≡ true }
        requires can { CanLoad self.state.load }
        ensures can { IfOk result (λ w. CanLoad w.state.load) }
        ensures event { IfOk result (IsSameEvent self) }
        ensures acts { Acts (halts result) (base_of K.kept own.old) (base_of K.kept own.new) }
        ensures looks { Looks (OfNode (λ n w. IsStill (knowledge n) self.state.load w.state.load))
            (base_of K.kept own.old) result (base_of K.kept own.new) }
        ensures same { Remembers (base_of K.kept own.old) result (base_of K.kept own.new) }
    {
        let Worker {
            node,
            origin,
            state,
        } = self;
        let Fetched { number, kind, load } = state;
        match left_of(own, load) {
            Ok(load) => Ok(Worker {
                node,
                origin,
                state: Fetched { number, kind, load },
            }),
            Err(fault) => Err(fault),
        }
    }

    /// The least id of an open transaction of the node, whose database this is, that wrote one of the tables that are
    /// filled, if one did.
    ///
    /// # Errors
    ///
    /// What stopped the store; the database is down then. `NoMemory`.
    pub fn writer<K: Keeper>(&self, own: &mut Database<K>) -> Result<Option<u64>, DbFault>
        requires { own.old.state.up ≡ true }
        ensures acts { Acts (halts result) (base_of K.kept own.old) (base_of K.kept own.new) }
        ensures looks { Looks (λ p found. found ≡ writer_of (names_loaded self.now.state.load) p)
            (base_of K.kept own.old) result (base_of K.kept own.new) }
        ensures same { Remembers (base_of K.kept own.old) result (base_of K.kept own.new) }
    {
        let names = names_loaded(own.alloc, &self.state.load)?;
        writer(own, names.as_slice())
    }

    /// The event is to be applied with what comes with it.
    ///
    /// # Errors
    ///
    /// `AllocError` where there is no memory.
    pub fn settle(self, alloc: Global) -> Result<Worker<Settled>, AllocError>
        requires { CanLoad self.state.load }
        ensures can { IfOk result (λ w. CanBring w.state.brought) }
        ensures is { IfOk result (IsSettled self) }
    {
        let Worker {
            node,
            origin,
            state,
        } = self;
        let Fetched { number, load, .. } = state;
        let brought = brought_by(alloc, load)?;
        Ok(Worker {
            node,
            origin,
            state: Settled { number, brought },
        })
    }
}

impl Worker<Settled> {
    /// The node, whose database this is, applies the event, which waits in this queue, with what comes with it, in one
    /// transaction; then that event waits no more, nor does what is before it. Answers whether the commit is in doubt:
    /// the database is down then, and the same waits as before.
    ///
    /// # Errors
    ///
    /// `TooBig`, and what stopped the store: the database is down then. `NoMemory`. The same waits as before.
    pub fn commit<K: Keeper>(
        self,
        own: &mut Database<K>,
        queue: &mut Queue,
    ) -> Result<bool, DbFault>
        requires up { own.old.state.up ≡ true }
        requires node { is_some own.old.state.node.identity ≡ true }
        requires due { IsAble (waits_as self.origin self.state.number queue.old) }
        requires can { CanBring self.state.brought }
        ensures acts { Acts (trouble (answered joined result)) (base_of K.kept own.old) (base_of K.kept own.new) }
        ensures applies { Applies (waits_as self.origin self.state.number queue.old) self.state.brought
            (base_of K.kept own.old) (answered joined result) (base_of K.kept own.new) }
        ensures queue { IfOk result (DropsUnless self.origin self.state.number queue.old queue.new) }
        ensures stays { IfErr result (λ fault. queue.new ≡ queue.old) }
        // As far as the store tells it, with a SYNC so few pairs are put, however it ends.
        ensures puts { (e : Event) (deltas : List SetSync) → waits_as self.origin self.state.number queue.old ≡ Some e →
            IsSyncWith deltas (seen_event e) self.state.brought →
            PutsUpTo (puts_allowed deltas) (base_of K.kept own.old).kept.puts (base_of K.kept own.new).kept.puts }
    {
        let Worker { origin, state, .. } = self;
        let Settled { number, brought } = state;
        let Some(event) = queue.get(origin, number) else {
            return Err(DbFault::Down);
        };
        if apply(own, event, brought)? {
            return Ok(true);
        }
        queue.drop_to(origin, number);
        Ok(false)
    }
}
