// One database: its store and its memory; how it begins, goes down and comes up again.
ghost use Rattle.std.specs.Prelude.{◌≡◌, ◌≤◌, ℕ, List, OnOk, OnErr, true, false, is_some, not, if◌then◌else◌, Ok, Err};
ghost use Rattle.std.specs.Prelude.{Some};
ghost use Rattle.node_keeper.specs.Fused.{fuse_kept};

use crate::ceilings::{Unlifted, lift};
use crate::falls::{fall, overflow};
use crate::founding::first_state;
use crate::layout::{ACTION_CEILING, XID_CEILING};
use crate::restoring::{Restored, restore};
use crate::state::{State, settled};
use node_keeper::{Fuse, Keeper};
use slon_model::{Answer, Answered, Crash, DbFault, Numbering};
use std::alloc::Global;

/// One database over a store behind a fuse. What it does as a node is done on its parts, by the crate above.
///
/// While it is up it keeps in memory its numbers, its open transactions and their locks, and the node that it is. A
/// step that stops at the store takes it down, and then it makes no call on its store until it comes up again.
pub struct Database<K: Keeper> {
    pub alloc: Global,
    pub keeper: Fuse<K>,
    pub state: State,
    ghost idle: { state.up ≡ true → is_some (fuse_kept K.kept keeper).pending ≡ false },
}

// By hand: a derived destructor would be proved anew, with those of all its parts, in each crate that drops a value of
// this type.
impl<K: Keeper> Drop for Database<K> {
    fn drop(self) {
        let Database {
            alloc: _,
            keeper,
            state,
        } = self;
        drop(keeper);
        drop(state);
    }
}

impl<K: Keeper> Database<K> {
    ghost use Rattle.slon_base.specs.Keeper.{nothing};
    ghost use Rattle.slon_model.specs.Tasks.{ToFound, ToCrash, ToRise};
    ghost use Rattle.slon_model.specs.declared.fault.DbFault.TheVariants.{Down as IsDown};
    ghost use Rattle.slon_model.specs.declared.reply.Answer.TheVariants.{Done as IsDone};
    ghost use Rattle.slon_model.specs.declared.reply.Answered.TheVariants.{Sure as IsSure};
    ghost use Rattle.app_store.specs.Base.{Base, base_of, memory_of};
    ghost use Rattle.app_store.specs.Serves.{Serves, Founds, settled, halts, NeedsNext, counter_in};
    ghost use Rattle.app_store.specs.Parts.{Part, FromPlace, RaisedTo};
    ghost use Rattle.app_store.specs.Fuses.{Arms};
    ghost use Rattle.app_store.specs.Handed.{Hands, Tells, Told, Nothing};
    ghost use Rattle.std.specs.Prelude.{◌≢◌};
    ghost use Rattle.std.specs.Option.{option_map};

    /// The database of a store that holds no row yet: its first rows are written.
    ///
    /// # Errors
    ///
    /// `NotEmpty` where the store holds a row, `Fault` and `Doubt` where it failed; the database is down then.
    pub fn create(alloc: Global, keeper: Fuse<K>) -> (Database<K>, Result<(), DbFault>)
        ensures founds { Founds (fuse_kept K.kept keeper) (settled result.1) (base_of K.kept result.0) }
        ensures down { OnErr result.1 (result.0.state.up ≡ false) }
    {
        let mut keeper = keeper;
        let (state, result) = first_state(alloc, &mut keeper);
        let database = Database {
            alloc,
            keeper,
            state,
        };
        (database, result)
    }

    /// Whether the database is up.
    pub fn is_up(&self) -> bool
        ensures { result ≡ self.now.state.up }
    {
        self.state.up
    }

    /// The id of the node that the database is, if it is one.
    pub fn node_id(&self) -> Option<u32>
        ensures id { result ≡ option_map (λ i. i.id) self.now.state.node.identity }
        ensures has { is_some self.now.state.node.identity ≡ is_some result }
    {
        self.state.node.id()
    }

    /// Raises a ceiling if the next number is at it.
    pub(crate) fn raise(&mut self, kind: Numbering) -> Result<(), DbFault>
        requires { self.old.state.up ≡ true }
        ensures part { Part (NeedsNext kind) (base_of K.kept self.old) (base_of K.kept self.new) result }
        ensures raises { FromPlace (RaisedTo kind) (base_of K.kept self.old) result (base_of K.kept self.new) }
        ensures ready { OnOk result ((counter_in kind (memory_of self.new.state)).next
            ≢ (counter_in kind (memory_of self.new.state)).ceiling) }
        ensures form { Told (base_of K.kept self.old) (λ m. Tells Nothing (halts result)) }
        ensures up { OnOk result (self.new.state.up ≡ true) }
    {
        match kind {
            Numbering::Xids => match lift(
                self.alloc,
                &mut self.keeper,
                &XID_CEILING,
                &mut self.state.xids,
                &mut self.state.stamp,
            ) {
                Ok(()) => Ok(()),
                Err(unlifted) => match unlifted {
                    Unlifted::TooBig => Err(overflow(self.alloc, &mut self.state)),
                    Unlifted::Stopped(stop) => {
                        Err(fall(self.alloc, &mut self.state, &self.keeper, stop))
                    }
                },
            },
            Numbering::Actions => match lift(
                self.alloc,
                &mut self.keeper,
                &ACTION_CEILING,
                &mut self.state.numbers,
                &mut self.state.stamp,
            ) {
                Ok(()) => Ok(()),
                Err(unlifted) => match unlifted {
                    Unlifted::TooBig => Err(overflow(self.alloc, &mut self.state)),
                    Unlifted::Stopped(stop) => {
                        Err(fall(self.alloc, &mut self.state, &self.keeper, stop))
                    }
                },
            },
        }
    }

    /// Takes the database down at once, or has its store fail later.
    ///
    /// # Errors
    ///
    /// `Down` where it is down.
    pub fn crash(&mut self, crash: Crash) -> Result<(), DbFault>
        ensures serves { Serves (ToCrash crash) (base_of K.kept self.old) (settled result) (base_of K.kept self.new) }
        ensures answer { result ≡ (if self.old.state.up then Ok tt else Err IsDown) }
        ensures hands { Hands (ToCrash crash) (base_of K.kept self.old) (settled result) }
        ensures arms { Arms K.kept (ToCrash crash) self.old self.new }
    {
        if !self.state.up {
            return Err(DbFault::Down);
        }
        match crash {
            Crash::Now => self.state.take_down(self.alloc),
            Crash::After { calls, keep } => self.keeper.arm(u64::from(calls), keep),
            Crash::AtCommit { keep } => self.keeper.arm_commit(keep),
        }
        Ok(())
    }

    /// Brings the database up again, and says whether a commit that was in doubt stands.
    ///
    /// # Errors
    ///
    /// `IsUp` where it is up, and `Fault`, `BadRow` and `NoMemory` where its store stopped.
    pub fn up(&mut self) -> Result<Answered, DbFault>
        ensures serves { Serves ToRise (base_of K.kept self.old) result (base_of K.kept self.new) }
        ensures hands { Hands ToRise (base_of K.kept self.old) result }
        ensures arms { Arms K.kept ToRise self.old self.new }
    {
        if self.state.up {
            return Err(DbFault::IsUp);
        }
        self.keeper.disarm();
        let _ = self.keeper.rollback();
        match restore(self.alloc, &mut self.keeper) {
            Ok(restored) => {
                let Restored {
                    node,
                    stamp,
                    numbers,
                } = restored;
                let answer = settled(self.state.doubt, stamp);
                self.state = State::starting(self.alloc, numbers, node);
                Ok(Answered::Sure(answer))
            }
            Err(stop) => Err(fall(self.alloc, &mut self.state, &self.keeper, stop)),
        }
    }
}
