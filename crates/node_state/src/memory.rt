// What a database keeps in memory of the node that it is.
ghost use Rattle.std.specs.Prelude.{◌≡◌, ℕ, List, IfOk};
ghost use Rattle.std.specs.FinMap.{get};
ghost use Rattle.node_state.specs.Known as known;
ghost use Rattle.node_state.specs.Known.{IsIdentified, AreMembers};

use node_rows::Body;
use slon_base::{ByteMap, Text};
use std::alloc::{AllocError, Global};
use std::mem;

/// Which node a database is.
#[derive(Drop)]
pub struct Identity {
    /// The id of the node.
    pub id: u32,
    /// The name of its cluster.
    pub cluster: Text,
}

/// A live table of a live set.
#[derive(Clone, Copy, Debug, Drop, PartialEq, Eq)]
pub struct Member {
    /// The id of the table.
    pub table: u32,
    /// The id of its set.
    pub set: u32,
    /// Whether the node is the origin of the set.
    pub leads: bool,
}

/// The tables of sets, by their names.
#[derive(Drop)]
pub struct Members {
    /// The live tables of live sets.
    pub live: ByteMap<Member>,
    /// The names of all tables that were ever in a set.
    pub names: ByteMap<()>,
}

/// What a database keeps in memory of the node that it is: which one, and the tables of sets by their names. A database
/// that is no node keeps nothing.
#[derive(Drop)]
pub struct NodeMemory {
    pub identity: Option<Identity>,
    pub members: Members,
    ghost identified: { IsIdentified identity },
    ghost numbered: { AreMembers members },
}

/// The tables that are in another set than this one.
fn outside(alloc: Global, live: ByteMap<Member>, set: u32) -> Result<ByteMap<Member>, AllocError>
    ensures { IfOk result (λ left. (name : List ℕ) → get left name ≡ known.outside set (get live name)) }
{
    let mut left = ByteMap::new(alloc);
    for (name, member) in live.into_entries() {
        if member.set != set {
            left.insert(name, member)?;
        }
    }
    Ok(left)
}

impl NodeMemory {
    ghost use Rattle.std.specs.Prelude.{◌≡◌, ℕ, List, OnOk, Some, None, is_some};
    ghost use Rattle.std.specs.FinMap.{get};
    ghost use Rattle.node_rows.specs.Spellings.{CanBody};
    ghost use Rattle.std.specs.Option.{option_map};
    ghost use Rattle.store_rows.specs.Rows.{IsId};
    ghost use Rattle.node_state.specs.Known.{IsKnown, learned_as, learned_name};

    /// The memory of a database that is no node.
    pub fn none(alloc: Global) -> NodeMemory
        ensures { IsKnown None result.identity result.members }
    {
        NodeMemory {
            identity: None,
            members: Members {
                live: ByteMap::new(alloc),
                names: ByteMap::new(alloc),
            },
        }
    }

    /// Keeps what an event with this body changes of the tables of sets. A table that the event puts into a set is one
    /// of a set of which the node is the origin, or of another one, as it is told.
    pub fn learn(&mut self, alloc: Global, body: &Body, leads: bool) -> Result<(), AllocError>
        requires { CanBody body.now }
        ensures members { OnOk result ((name : List ℕ) →
            get self.new.members.live name ≡ learned_as leads body.now name (get self.old.members.live name)) }
        ensures names { OnOk result ((name : List ℕ) → is_some (get self.new.members.names name)
            ≡ learned_name body.now name (is_some (get self.old.members.names name))) }
        ensures identity { self.new.identity ≡ self.old.identity }
    {
        match body {
            Body::SetAddTable {
                set,
                table,
                name,
                ..
            } => {
                let member = Member {
                    table: *table,
                    set: *set,
                    leads,
                };
                let live = Vec::from_slice(alloc, name.as_slice())?;
                let name = Vec::from_slice(alloc, name.as_slice())?;
                self.members.live.insert(live, member)?;
                self.members.names.insert(name, ())
            }
            Body::DropSet { set } => {
                let live = mem::replace(&mut self.members.live, ByteMap::new(alloc));
                self.members.live = outside(alloc, live, *set)?;
                Ok(())
            }
            _ => Ok(()),
        }
    }

    /// Whether a table of this name is or was in a set.
    pub fn names(&self, name: &Text) -> bool
        ensures { result ≡ is_some (get self.now.members.names name.now) }
    {
        self.members.names.contains_key(name.as_slice())
    }

    /// The id of the node, if the database is one.
    pub fn id(&self) -> Option<u32>
        ensures value { result ≡ option_map (λ i. i.id) self.now.identity }
        ensures small { (id : ℕ) → result ≡ Some id → IsId id }
    {
        match &self.identity {
            None => None,
            Some(identity) => Some(identity.id),
        }
    }
}
