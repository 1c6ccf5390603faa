// What is left of what was fetched: that of the sets of which the view that stood then stands still.
ghost use Rattle.std.specs.Prelude.{◌≡◌, true, is_some, filter, IfOk};
ghost use Rattle.std.specs.List.{AllByRecursion};
ghost use Rattle.slon_model.specs.Deeds.{knowledge};
ghost use Rattle.slon_model.specs.Maps.{entry_at};
ghost use Rattle.slon_model.specs.Working as rules;
ghost use Rattle.event_store.specs.Kept.{seen_view};
ghost use Rattle.app_store.specs.Base.{base_of};
ghost use Rattle.app_store.specs.Parts.{Looks, Remembers};
ghost use Rattle.app_store.specs.Serves.{halts};
ghost use Rattle.node_state.specs.Held.{seen_views};
ghost use Rattle.node_store.specs.Acting.{Acts};
ghost use Rattle.node_store.specs.Polling.{OfNode};
ghost use Rattle.remote_worker.specs.Loading.{CanFetch, CanLoad, IsStill};
ghost use Rattle.remote_worker.specs.Standing.{stands_in};

use crate::loading::{Load, SetFetch};
use app_store::{Database, DbFault, fall};
use event_store::View;
use node_keeper::Keeper;
use node_state::kept_views;
use node_store::is_same;
use slon_base::Many;
use std::alloc::{AllocError, Global};

/// Whether two views of a set are the same.
fn is_same_view(one: &View, other: &View) -> bool
    ensures { result ≡ rules.same_view (seen_view one.now) (seen_view other.now) }
{
    one.era == other.era
        && one.origin == other.origin
        && one.number == other.number
        && is_same(&one.seen, &other.seen)
        && one.base_era == other.base_era
        && is_same(&one.base, &other.base)
}

/// Whether the view that is kept of a set, if one is, is this one.
fn is_kept(views: &[(u32, View)], set: u32, view: &View) -> bool
    ensures { result ≡ rules.is_view (seen_view view.now) (entry_at set (seen_views views.now)) }
{
    for (id, kept) in views {
        if set == *id {
            return is_same_view(kept, view);
        }
    }
    false
}

/// What was fetched of the sets of which the view that stood then is kept still.
fn kept_still(
    alloc: Global,
    views: &[(u32, View)],
    fetches: Many<SetFetch>,
) -> Result<Many<SetFetch>, AllocError>
    requires { AllByRecursion CanFetch fetches }
    ensures can { IfOk result (AllByRecursion CanFetch) }
    ensures is { IfOk result (λ left. left ≡ filter (stands_in (seen_views views.now)) fetches) }
{
    let mut left = Many::new(alloc);
    for fetch in fetches.into_vec() {
        if !is_kept(views, fetch.sync.set, &fetch.before) {
            continue;
        }
        left.push(fetch)?;
    }
    Ok(left)
}

/// What was fetched of the sets of which the view that stood then stands still at the node, whose database this is.
fn still_of<K: Keeper>(
    own: &mut Database<K>,
    fetches: Many<SetFetch>,
) -> Result<Many<SetFetch>, DbFault>
    requires up { own.old.state.up ≡ true }
    requires node { is_some own.old.state.node.identity ≡ true }
    requires can { AllByRecursion CanFetch fetches }
    ensures can { IfOk result (AllByRecursion CanFetch) }
    ensures acts { Acts (halts result) (base_of K.kept own.old) (base_of K.kept own.new) }
    ensures looks { Looks (OfNode (λ n left. left ≡ filter (stands_in (knowledge n).views) fetches))
        (base_of K.kept own.old) result (base_of K.kept own.new) }
    ensures same { Remembers (base_of K.kept own.old) result (base_of K.kept own.new) }
{
    match kept_views(own.alloc, &mut own.keeper) {
        Ok(views) => Ok(kept_still(own.alloc, views.as_slice(), fetches)?),
        Err(stop) => Err(fall(own.alloc, &mut own.state, &own.keeper, stop)),
    }
}

/// What is left of what was fetched at the node, whose database this is.
pub(crate) fn left_of<K: Keeper>(
    own: &mut Database<K>,
    load: Option<Load>,
) -> Result<Option<Load>, DbFault>
    requires up { own.old.state.up ≡ true }
    requires node { is_some own.old.state.node.identity ≡ true }
    requires can { CanLoad load }
    ensures can { IfOk result CanLoad }
    ensures acts { Acts (halts result) (base_of K.kept own.old) (base_of K.kept own.new) }
    ensures looks { Looks (OfNode (λ n left. IsStill (knowledge n) load left)) (base_of K.kept own.old) result
        (base_of K.kept own.new) }
    ensures same { Remembers (base_of K.kept own.old) result (base_of K.kept own.new) }
{
    match load {
        None => Ok(None),
        Some(Load::Copy(copy)) => Ok(Some(Load::Copy(copy))),
        Some(Load::Syncs(fetches)) => Ok(Some(Load::Syncs(still_of(own, fetches)?))),
    }
}
