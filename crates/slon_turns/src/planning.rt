// What a node is to do at its turn, as far as its own database tells.
ghost use Rattle.std.specs.Prelude.{◌≡◌, ◌==◌, ◌&&◌, if◌then◌else◌, true, is_some, None, ℕ, IfOk};
ghost use Rattle.store_rows.specs.Rows.{IsId};
ghost use Rattle.slon_model.specs.Turns as rules;
ghost use Rattle.app_store.specs.Base.{base_of};
ghost use Rattle.node_store.specs.Acting.{own_id};
ghost use Rattle.slonik_exec.specs.Answering.{AtSeat, Checks};
ghost use Rattle.remote_worker.specs.Kept.{kept_at};
ghost use Rattle.slon_turns.specs.Applying.{goal_in};
ghost use Rattle.slon_turns.specs.Planning.{CanPlan, IsApart, PlanRuns, PlansAt, PlansFrom, PlansOwn, apart_reply};
ghost use Rattle.slon_turns.specs.Planning.{link_checks, kept_to};
ghost use Rattle.slon_turns.specs.Recalling.{IsAnew, IsBringer, IsRecalled, PlansAnew, Recalls};

use crate::held::Held;
use crate::working::{Aim, Work};
use node_keeper::Keeper;
use node_store::knows_path;
use remote_worker::{Copying, Errand, Fetched, Fetches, Kept, Next, Taken, Worker};
use slon_base::Text;
use slon_model::{Refusal, Reply};
use slonik_exec::{Named, NoMemory, told};
use std::alloc::Global;

/// What a node is to do at its turn.
#[derive(Drop)]
pub(crate) enum Plan {
    /// It replies this, and is done.
    Told(Reply),
    /// All is there that comes with the event.
    Has(Worker<Fetched>),
    /// It copies this first, from another node that it has a path to.
    Bring(Worker<Taken>, Copying),
    /// It reads first what was logged for the sets that it keeps of the origin.
    Follow(Worker<Taken>),
}

/// Whether a cut is between these two nodes, whichever of them it names first.
pub fn is_between(cut: &(u32, u32), node: u32, other: u32) -> bool
    ensures { result ≡ rules.cuts_both node other cut.now }
{
    *cut == (node, other) || *cut == (other, node)
}

/// Whether two nodes are cut off from one another.
pub fn are_cut(cuts: &[(u32, u32)], node: u32, other: u32) -> bool
    ensures { result ≡ rules.are_cut node other cuts.now }
{
    cuts.iter().any(|cut| is_between(cut, node, other))
}

/// 68: the node is cut off from the provider, 44: it is the provider itself.
fn apart(cuts: &[(u32, u32)], node: u32, provider: u32) -> Option<Reply>
    ensures { result ≡ apart_reply node provider (rules.are_cut node provider cuts.now) (provider == node) }
{
    if are_cut(cuts, node, provider) {
        return Some(Reply::Refused(Refusal::Severed {
            node,
            other: provider,
        }));
    }
    if provider == node {
        return Some(Reply::Refused(Refusal::NoNode { node: provider }));
    }
    None
}

/// 75: the node has no path to the provider, 68: it is cut off from it, 44: it is the provider itself.
pub(crate) fn check_link<K: Keeper>(
    alloc: Global,
    own: &mut Named<K>,
    cuts: &[(u32, u32)],
    node: u32,
    provider: u32,
) -> Result<Option<Reply>, NoMemory>
    requires up { own.old.database.state.up ≡ true }
    requires ids { IsId node × IsId provider }
    ensures checks { IfOk result (λ found. Checks own.old.name (base_of K.kept own.old.database) found
        (base_of K.kept own.new.database)) }
    ensures refuses { IfOk result (λ found. AtSeat own.old.name (link_checks node provider cuts.now)
        (base_of K.kept own.old.database) found (base_of K.kept own.new.database)) }
    ensures apart { IfOk result (IsApart node provider) }
    ensures name { own.new.name ≡ own.old.name }
{
    match knows_path(&mut own.database, node, provider) {
        Ok(true) => Ok(apart(cuts, node, provider)),
        Ok(false) => Ok(Some(Reply::Refused(Refusal::NoPath { node: provider }))),
        Err(fault) => Ok(Some(told(alloc, &own.name, fault)?)),
    }
}

/// What the node keeps of the event that it took, where it is to apply that. It is taken out.
fn take_kept(fetches: &mut Fetches, taken: &Worker<Taken>, aim: Aim) -> Option<Kept>
    ensures value { result ≡ kept_to aim taken.now.state.number (kept_at taken.now.origin fetches.old) }
    ensures rest { (other : ℕ) → kept_at other fetches.new
        ≡ (if is_some result && taken.now.origin == other then None else kept_at other fetches.old) }
{
    match aim {
        Aim::Fetch => None,
        Aim::Apply => fetches.take_for(taken.origin, taken.state.number),
    }
}

/// What is left of what the node kept of the event.
fn recall<K: Keeper>(
    alloc: Global,
    own: &mut Named<K>,
    taken: Worker<Taken>,
    kept: Kept,
) -> Result<Plan, NoMemory>
    requires up { own.old.database.state.up ≡ true }
    requires node { is_some own.old.database.state.node.identity ≡ true }
    ensures same { IfOk result (IsRecalled taken) }
    ensures runs { IfOk result (λ plan. PlanRuns own.old.name (base_of K.kept own.old.database) plan
        (base_of K.kept own.new.database)) }
    ensures recalls { IfOk result (λ plan. Recalls own.old.name kept.load (base_of K.kept own.old.database) plan
        (base_of K.kept own.new.database)) }
    ensures name { own.new.name ≡ own.old.name }
{
    let Kept { load, .. } = kept;
    match taken.with(load).still(&mut own.database) {
        Ok(fetched) => Ok(Plan::Has(fetched)),
        Err(fault) => Ok(Plan::Told(told(alloc, &own.name, fault)?)),
    }
}

/// The node took an event of which it keeps nothing: it has all that comes with that, unless it is to bring something,
/// and a set that it is to copy at a node that it reaches, or not.
fn plan_anew<K: Keeper>(
    alloc: Global,
    own: &mut Named<K>,
    cuts: &[(u32, u32)],
    taken: Worker<Taken>,
) -> Result<Plan, NoMemory>
    requires up { own.old.database.state.up ≡ true }
    requires node { IsId taken.node × IsBringer taken.state.errand }
    ensures anew { IfOk result (IsAnew taken) }
    ensures runs { IfOk result (λ plan. PlanRuns own.old.name (base_of K.kept own.old.database) plan
        (base_of K.kept own.new.database)) }
    ensures plans { IfOk result (λ plan. PlansAnew taken cuts.now own.old.name (base_of K.kept own.old.database) plan
        (base_of K.kept own.new.database)) }
    ensures name { own.new.name ≡ own.old.name }
{
    let Some(errand) = taken.state.errand else {
        return Ok(Plan::Has(taken.with(None)));
    };
    match errand {
        Errand::Follow => Ok(Plan::Follow(taken)),
        Errand::Copy(copying) => {
            match check_link(alloc, own, cuts, taken.node, copying.provider)? {
                Some(reply) => Ok(Plan::Told(reply)),
                None => Ok(Plan::Bring(taken, copying)),
            }
        }
    }
}

/// The node of the database is to fetch what comes with the next event of the origin, or to apply it, unless 60 that
/// does not wait, 98 the node cannot carry it out, or it cannot reach the node from which it is to copy a set.
/// Where it is to apply what it fetched before, that is taken out of what it holds, and it brings nothing.
pub(crate) fn plan_at<K: Keeper>(
    alloc: Global,
    own: &mut Named<K>,
    held: &mut Held,
    cuts: &[(u32, u32)],
    work: Work,
) -> Result<Plan, NoMemory>
    requires up { own.old.database.state.up ≡ true }
    requires node { is_some own.old.database.state.node.identity ≡ true }
    requires origin { IsId work.origin }
    ensures can { IfOk result (CanPlan held.old.queue) }
    ensures queue { held.new.queue ≡ held.old.queue }
    ensures bounds { held.new.bounds ≡ held.old.bounds }
    ensures own { IfOk result (PlansOwn (own_id own.old.database.state.node.identity)) }
    ensures from { IfOk result (PlansFrom work.origin) }
    ensures runs { IfOk result (λ plan. PlanRuns own.old.name (base_of K.kept own.old.database) plan
        (base_of K.kept own.new.database)) }
    ensures plans { IfOk result (λ plan. PlansAt (goal_in work) cuts.now own.old.name
        (base_of K.kept own.old.database, held.old) plan (base_of K.kept own.new.database, held.new)) }
    ensures name { own.new.name ≡ own.old.name }
{
    let ready = match Worker::resume(&mut own.database, work.origin) {
        Ok(ready) => ready,
        Err(fault) => return Ok(Plan::Told(told(alloc, &own.name, fault)?)),
    };
    match ready.take(&held.queue) {
        Next::Missing => Ok(Plan::Told(Reply::Refused(Refusal::Nothing))),
        Next::NotBuilt => {
            let word = Text::from_str(alloc, "work")?;
            Ok(Plan::Told(Reply::Refused(Refusal::NotBuilt { word })))
        }
        Next::Due(taken) => match take_kept(&mut held.fetches, &taken, work.aim) {
            Some(kept) => recall(alloc, own, taken, kept),
            None => plan_anew(alloc, own, cuts, taken),
        },
    }
}
