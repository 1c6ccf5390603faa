// A database becomes a further node of a cluster, by an event of another one.
ghost use Rattle.std.specs.Prelude.{◌≡◌, ℕ, List, ◌+◌, ◌<◌, ◌^◌, true, false, Some, is_some, IfOk};
ghost use Rattle.std.specs.Option.{option_map};
ghost use Rattle.slon_base.specs.Codec.{IsText};
ghost use Rattle.store_rows.specs.Rows.{IsId};
ghost use Rattle.app_store.specs.Base.{base_of, base_with};
ghost use Rattle.node_rows.specs.Spellings.{CanBody};
ghost use Rattle.txn_core.specs.Snapshots.{seen_as};
ghost use Rattle.event_store.specs.Keeping.{KeepsViews};
ghost use Rattle.event_store.specs.Spellings.{CanSnapshot};
ghost use Rattle.node_rows.specs.declared.body.Body.TheVariants.{StoreNode};
ghost use Rattle.node_keeper.specs.Fused.{fuse_kept};
ghost use Rattle.node_store.specs.Joining.{ActsBoth, Joins, JoinsWith, EndsBoth, joiner};

use crate::announcing::stored_snapshot;
use crate::finishing::{become_node, give_up};
use crate::writing::{Joining, write_both};
use app_store::{Database, DbFault, Made, Snapshot, State, fall, finish, overflow};
use node_change::Side;
use node_keeper::{Fuse, Keeper};
use node_rows::Body;
use node_state::NodeMemory;
use slon_base::{STORED_LIMIT, Text};
use std::alloc::{AllocError, Global};

/// What came of the two commits by which a node joins.
#[derive(Clone, Copy, Debug, PartialEq, Eq)]
pub enum Joined {
    /// Both stand.
    Done,
    /// That of the event is in doubt, and the other one was not made.
    EventInDoubt,
    /// That of the event stands, and that of the new node is in doubt.
    NodeInDoubt,
}

/// Which of two databases went down, and why.
#[derive(Clone, Copy, Debug)]
pub struct Fell {
    /// The database.
    pub side: Side,
    /// Why it went down.
    pub fault: DbFault,
}

impl Fell {
    /// This database went down for this reason.
    fn new(side: Side, fault: DbFault) -> Fell
        ensures side { result.side ≡ side }
        ensures fault { result.fault ≡ fault }
    {
        Fell { side, fault }
    }
}

/// That memory ran out is told of the first one.
impl From<AllocError> for Fell {
    ghost use Rattle.std.specs.Prelude.{◌≡◌};
    ghost use Rattle.node_change.specs.declared.side.Side.TheVariants as sides;
    ghost use Rattle.slon_base.specs.declared.fault.Halt.TheVariants.{NoMemory};
    ghost use Rattle.slon_model.specs.declared.fault.DbFault.TheVariants.{Halt};

    ghost from_gives = { λ _ f. f ≡ record { side = sides.From; fault = Halt NoMemory } };

    fn from(error: AllocError) -> Self {
        Fell::new(Side::From, DbFault::from(error))
    }
}

/// The greatest length of a text that can be stored, in bytes.
const LONGEST: usize = 4_294_967_295;

/// The id of the node that a database is, and a copy of the name of its cluster, as it can be stored.
///
/// # Errors
///
/// `AllocError` where there is no memory.
fn stored_identity<K: Keeper>(database: &Database<K>) -> Result<(u32, Text), AllocError>
    requires node { is_some database.now.state.node.identity ≡ true }
    ensures id { IfOk result (λ i. option_map (λ k. k.id) database.now.state.node.identity ≡ Some i.0) }
    ensures cluster { IfOk result (λ i. option_map (λ k. k.cluster) database.now.state.node.identity ≡ Some i.1) }
    ensures can { IfOk result (λ i. IsId i.0 × IsText i.1) }
{
    let Some(identity) = &database.state.node.identity else {
        return Err(AllocError);
    };
    let cluster = identity.cluster.copy(database.alloc)?;
    if cluster.as_slice().len() > LONGEST {
        return Err(AllocError);
    }
    Ok((identity.id, cluster))
}

/// Has the database `from`, which is a node, emit the event that stores a node, and makes the database `to`, which is
/// none, that node of its cluster. Answers the number of the event. Where one of the two fails before its commit,
/// nothing of it stands.
///
/// # Errors
///
/// `TooBig`, and what stopped one of the two stores; that database is down then.
pub fn join<K: Keeper>(
    from: &mut Database<K>,
    to: &mut Database<K>,
    id: u32,
    comment: &Text,
) -> Result<(u64, Joined), Fell>
    requires up { (from.old.state.up ≡ true) × (to.old.state.up ≡ true) }
    requires node { is_some from.old.state.node.identity ≡ true }
    requires none { is_some to.old.state.node.identity ≡ false }
    requires can { IsId id × IsText comment.now }
    ensures acts { ActsBoth (record { from = base_of K.kept from.old; to = base_of K.kept to.old }) result
        (record { from = base_of K.kept from.new; to = base_of K.kept to.new }) }
    ensures joins { Joins (joiner id comment.now)
        (record { from = base_of K.kept from.old; to = base_of K.kept to.old }) result
        (record { from = base_of K.kept from.new; to = base_of K.kept to.new }) }
{
    let alloc = from.alloc;
    let (own, cluster) = stored_identity(from)?;
    if from.state.stamp >= STORED_LIMIT {
        return Err(Fell::new(Side::From, overflow(alloc, &mut from.state)));
    }
    if to.state.stamp >= STORED_LIMIT {
        return Err(Fell::new(Side::To, overflow(alloc, &mut to.state)));
    }
    let taken = stored_snapshot(from)?;
    let body = Body::StoreNode {
        node: id,
        comment: comment.copy(alloc)?,
    };
    let joining = Joining {
        own,
        new: id,
        cluster: &cluster,
        event_stamp: from.state.stamp + 1,
        node_stamp: to.state.stamp + 1,
    };
    join_as(from, to, &taken, &body, joining)
}

/// The same as the node `joining.own`, with the snapshot and the body of the event.
fn join_as<K: Keeper>(
    from: &mut Database<K>,
    to: &mut Database<K>,
    taken: &Snapshot,
    body: &Body,
    joining: Joining<'_>,
) -> Result<(u64, Joined), Fell>
    requires up { (from.old.state.up ≡ true) × (to.old.state.up ≡ true) }
    requires ids { IsId joining.own × IsId joining.new × IsText joining.cluster.now }
    requires own { option_map (λ i. i.id) from.old.state.node.identity ≡ Some joining.own }
    requires can { CanSnapshot (seen_as taken.now) × CanBody body.now }
    requires keeps { KeepsViews body.now }
    requires room { (joining.event_stamp < 2 ^ 63) × (joining.node_stamp < 2 ^ 63) }
    requires stamps { (joining.event_stamp ≡ from.old.state.stamp + 1) × (joining.node_stamp ≡ to.old.state.stamp + 1) }
    ensures acts { ActsBoth (record { from = base_of K.kept from.old; to = base_of K.kept to.old }) result
        (record { from = base_of K.kept from.new; to = base_of K.kept to.new }) }
    ensures joins { (comment : List ℕ) → body.now ≡ StoreNode joining.entry.new comment →
        JoinsWith (record {
          seen = seen_as taken.now;
          joiner = joiner joining.entry.new comment;
          cluster = joining.entry.cluster.now;
        }) (record { from = base_of K.kept from.old; to = base_of K.kept to.old }) result
        (record { from = base_of K.kept from.new; to = base_of K.kept to.new }) }
{
    let alloc = from.alloc;
    let (first, second) = (&mut from.keeper, &mut to.keeper);
    match write_both(alloc, first, second, taken, body, joining) {
        Ok((number, node)) => {
            let ending = Ending {
                node,
                event_stamp: joining.event_stamp,
                node_stamp: joining.node_stamp,
            };
            let joined = finish_both(alloc, first, &mut from.state, second, &mut to.state, ending)?;
            Ok((number, joined))
        }
        Err(failed) => match failed.side {
            Side::From => {
                give_up(second);
                let fault = fall(alloc, &mut from.state, first, failed.stop);
                Err(Fell::new(Side::From, fault))
            }
            Side::To => {
                give_up(first);
                let fault = fall(alloc, &mut to.state, second, failed.stop);
                Err(Fell::new(Side::To, fault))
            }
        },
    }
}

/// What is kept of a new node once its commit stands, and the stamps of the event node and of the new one.
#[derive(Drop)]
struct Ending {
    node: NodeMemory,
    event_stamp: u64,
    node_stamp: u64,
}

/// Commits the event, and then what makes the other database a node.
fn finish_both<K: Keeper>(
    alloc: Global,
    first: &mut Fuse<K>,
    from: &mut State,
    second: &mut Fuse<K>,
    to: &mut State,
    ending: Ending,
) -> Result<Joined, Fell>
    requires opened { (is_some (fuse_kept K.kept first.old).pending ≡ true)
        × (is_some (fuse_kept K.kept second.old).pending ≡ true) }
    requires small { (ending.event_stamp < 2 ^ 63) × (ending.node_stamp < 2 ^ 63) }
    ensures { EndsBoth ending.node (record { from = ending.event_stamp; to = ending.node_stamp })
        (record {
          from = base_with (fuse_kept K.kept first.old) from.old;
          to = base_with (fuse_kept K.kept second.old) to.old;
        }) result (record {
          from = base_with (fuse_kept K.kept first.new) from.new;
          to = base_with (fuse_kept K.kept second.new) to.new;
        }) }
{
    match finish(first) {
        Ok(Made::Done) => {
            from.stamp = ending.event_stamp;
            match become_node(alloc, second, to, ending.node, ending.node_stamp) {
                Ok(false) => Ok(Joined::Done),
                Ok(true) => Ok(Joined::NodeInDoubt),
                Err(fault) => Err(Fell::new(Side::To, fault)),
            }
        }
        Ok(Made::InDoubt) => {
            give_up(second);
            from.take_down(alloc);
            from.doubt = Some(ending.event_stamp);
            Ok(Joined::EventInDoubt)
        }
        Err(stop) => {
            give_up(second);
            Err(Fell::new(Side::From, fall(alloc, from, first, stop)))
        }
    }
}
