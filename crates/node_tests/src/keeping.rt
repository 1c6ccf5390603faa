// A node that applies an event and keeps, from then on, how far it is in a set.
ghost use Rattle.std.specs.Prelude.{◌≡◌, is_some, true, false, OnOk, IfOk};
ghost use Rattle.event_store.specs.Kept.{seen_view};
ghost use Rattle.event_store.specs.Keeping.{KeepsViews};
ghost use Rattle.event_store.specs.Spellings.{CanView};

use crate::stored_nodes::{found_first, join_second};
use crate::viewed::{VIEW, put_first};
use event_store::{Event, View, find_view};
use node_change::apply_keeping;
use node_keeper::{Fuse, Keeper, MemKeeper};
use node_rows::Body;
use node_state::{kept_views, tell};
use session_text::print_reply;
use slon_model::Reply;
use std::alloc::Global;
use std::test::Fail;
use test_words::{expect, require};
use txn_core::{Snapshot, XidList};

/// The space of what a store has once, and the key there of the status of its logs.
const META: u8 = 1;

const LOG_STATUS: &[u8] = &[6];

/// The view that a row of another store is, which is put there.
fn put_and_find<K: Keeper>(alloc: Global, keeper: &mut K) -> Result<View, Fail>
    requires { is_some (K.kept keeper.old).pending ≡ false }
    ensures { IfOk result (λ v. CanView (seen_view v)) }
{
    put_first(keeper, VIEW)?;
    match find_view(alloc, keeper, 1)? {
        None => Err(Fail::new("a view")),
        Some(view) => Ok(view),
    }
}

/// The same of a store that is made for it.
fn some_view(alloc: Global) -> Result<View, Fail>
    ensures { IfOk result (λ v. CanView (seen_view v)) }
{
    let mut keeper = Fuse::new(MemKeeper::new(alloc, Vec::new(alloc), false)?);
    let view = put_and_find(alloc, &mut keeper);
    drop(keeper);
    view
}

/// The first log of this store is the active one.
fn put_log<K: Keeper>(keeper: &mut K) -> Result<(), Fail>
    requires { is_some (K.kept keeper.old).pending ≡ false }
    ensures { OnOk result (is_some (K.kept keeper.new).pending ≡ false) }
{
    keeper.begin()?;
    keeper.put(META, LOG_STATUS, &[0])?;
    keeper.commit()?;
    Ok(())
}

/// The second node applies this event, and keeps this of set 5 from then on.
fn keep_with<K: Keeper>(
    alloc: Global,
    keeper: &mut K,
    event: &Event,
    view: &View,
) -> Result<(), Fail>
    requires closed { is_some (K.kept keeper.old).pending ≡ false }
    requires can { CanView (seen_view view.now) }
    requires event { KeepsViews event.now.body }
{
    keeper.begin()?;
    apply_keeping(alloc, keeper, 2, event, 5, view)?;
    keeper.commit()?;
    Ok(())
}

/// The same with the first event of the first node.
fn keep<K: Keeper>(alloc: Global, keeper: &mut K, view: &View) -> Result<(), Fail>
    requires closed { is_some (K.kept keeper.old).pending ≡ false }
    requires can { CanView (seen_view view.now) }
{
    let taken = Snapshot {
        xmin: 1,
        xmax: 1,
        running: XidList::new(alloc),
    };
    let event = Event {
        origin: 1,
        number: 1,
        taken,
        body: Body::Sync,
    };
    let kept = keep_with(alloc, keeper, &event, view);
    drop(event);
    kept
}

/// The line that the second node tells of itself.
fn told<K: Keeper>(alloc: Global, keeper: &mut K, wanted: &str) -> Result<(), Fail> {
    let reply = Reply::Accepted(tell(alloc, keeper, 2)?);
    let line = print_reply(alloc, &reply);
    drop(reply);
    expect("the node", line?.as_str(), wanted)
}

/// The node of this store keeps nothing but set 5.
fn keeps_one<K: Keeper>(alloc: Global, keeper: &mut K) -> Result<(), Fail> {
    let views = kept_views(alloc, keeper)?;
    match views.as_slice() {
        [(set, view)] => require(*set == 5 && view.era == 3, "set 5 of era 3"),
        _ => Err(Fail::new("one set")),
    }
}

/// The second node keeps a set of which it was given nothing.
fn keep_one<F: Keeper, T: Keeper>(
    alloc: Global,
    first: &mut F,
    second: &mut T,
    view: &View,
) -> Result<(), Fail>
    requires closed { is_some (T.kept second.old).pending ≡ false }
    requires can { CanView (seen_view view.now) }
{
    put_log(second)?;
    join_second(alloc, first, second)?;
    keep(alloc, second, view)?;
    let wanted = "ok node 2 log 0 progress 1 1 set 5 era 3 at 7:9:7,8";
    told(alloc, second, wanted)?;
    keeps_one(alloc, second)
}

/// The same of a second store that is made for it.
fn keep_at_a_second<F: Keeper>(alloc: Global, first: &mut F, view: &View) -> Result<(), Fail>
    requires { CanView (seen_view view.now) }
{
    let mut second = Fuse::new(MemKeeper::new(alloc, Vec::new(alloc), false)?);
    let done = keep_one(alloc, first, &mut second, view);
    drop(second);
    done
}

/// The same with a first node in this store.
fn found_and_keep<F: Keeper>(alloc: Global, first: &mut F, view: &View) -> Result<(), Fail>
    requires closed { is_some (F.kept first.old).pending ≡ false }
    requires can { CanView (seen_view view.now) }
{
    found_first(alloc, first)?;
    keep_at_a_second(alloc, first, view)
}

/// The same with a first store that is made for it.
fn keep_behind_a_first(alloc: Global, view: &View) -> Result<(), Fail>
    requires { CanView (seen_view view.now) }
{
    let mut first = Fuse::new(MemKeeper::new(alloc, Vec::new(alloc), false)?);
    let done = found_and_keep(alloc, &mut first, view);
    drop(first);
    done
}

#[test]
fn a_set_is_kept_with_the_event(rt: HostRuntime) -> Result<(), Fail> {
    let view = some_view(rt.alloc())?;
    let done = keep_behind_a_first(rt.alloc(), &view);
    drop(view);
    done
}
