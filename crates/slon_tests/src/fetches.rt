// A node that fetches what comes with an event before it applies that: what it keeps, what it applies of that, and when
// what it keeps is gone.
use crate::copies::SUBSCRIBED;
use crate::polls::{DATABASES, NODES, PAIR, STARTED, expect_each};
use crate::syncs::EMPTY;
use crate::wanted::{Wanted, expect_wanted, nothing_wanted};
use std::alloc::{AllocError, Global};
use std::test::Fail;

const ALONE: &str = "\
# An event with which nothing comes is fetched too, and applied then.
fetch 2 1 => no 60 nothing
listen 2 1 => ok events 3 confirms 0
fetch 2 1 => ok fetched 2 rows 0
status b => ok node 2 log 0 progress 1 1 progress 2 1
work 2 1 => ok STORE_PATH 2 rows 0
fetch 2 1 => ok fetched 3 rows 0
fetch 2 1 => ok fetched 3 rows 0
fetch 2 2 => no 60 nothing
work 2 1 => ok STORE_SET 3 rows 0
work 2 1 => ok SET_ADD_TABLE 4 rows 0
fetch 2 1 => no 60 nothing

# Each refusal of the node itself, in their order.
fetch 3 1 => no 44 nonode 3
stop 2 => ok
crash b => ok
fetch 2 1 => no 16 down b
up b => ok
fetch 2 1 => no 67 off 2
start 2 => ok
fetch 2 1 => no 60 nothing
";

#[test]
fn events_are_fetched(rt: HostRuntime) -> Result<(), Fail> {
    expect_each(rt.alloc(), PAIR, STARTED, ALONE)
}

const COPIED: &str = "\
# What commits at the origin behind the fetch does not come with the copy, unless it is fetched anew.
fetch 2 1 => ok fetched 7 rows 1
commit a x => ok actions 1
rows b public.t => ok rows 0
work 2 1 => ok ENABLE_SUBSCRIPTION 7 rows 1
rows b public.t => ok rows 1 q=2
sync 1 => ok event 1 8
listen 2 1 => ok events 1 confirms 0
fetch 2 1 => ok fetched 8 rows 1
work 2 1 => ok SYNC 8 rows 1
rows b public.t => ok rows 2 p=1 q=2

fetch 2 1 => ok fetched 7 rows 1
commit a x => ok actions 1
fetch 2 1 => ok fetched 7 rows 2
crash a => ok
work 2 1 => ok ENABLE_SUBSCRIPTION 7 rows 2
rows b public.t => ok rows 2 p=1 q=2

# An open transaction stands in the way of the work, not of the fetch, and what was fetched is given up.
begin b z => ok xid 1
insert b z public.t k 1 => ok action 1
fetch 2 1 => ok fetched 7 rows 1
work 2 1 => no 66 busy 1
abort b z => ok
cut 1 2 => ok
work 2 1 => no 68 cut 2 1
fetch 2 1 => no 68 cut 2 1
join 1 2 => ok
commit a x => ok actions 1
work 2 1 => ok ENABLE_SUBSCRIPTION 7 rows 2
";

#[test]
fn copies_are_fetched(rt: HostRuntime) -> Result<(), Fail> {
    expect_each(rt.alloc(), PAIR, SUBSCRIBED, COPIED)
}

/// One row waits at node 2 with a SYNC.
const WAITING: &str = "\
begin a x => ok xid 1
insert a x public.t p 1 => ok action 1
commit a x => ok actions 1
sync 1 => ok event 1 8
listen 2 1 => ok events 1 confirms 0
fetch 2 1 => ok fetched 8 rows 1
";

const KEPT: &str = "\
# A row that is committed at the origin behind the fetch comes with the next SYNC.
begin a y => ok xid 2
insert a y public.t q 2 => ok action 2
commit a y => ok actions 1
sync 1 => ok event 1 9
work 2 1 => ok SYNC 8 rows 1
rows b public.t => ok rows 1 p=1
work 2 1 => no 60 nothing
listen 2 1 => ok events 1 confirms 0
fetch 2 1 => ok fetched 9 rows 1
work 2 1 => ok SYNC 9 rows 1
rows b public.t => ok rows 2 p=1 q=2

# The work looks at no provider: the nodes are cut off from one another, and the origin is down. A fetch that is
# refused leaves what was fetched.
cut 1 2 => ok
fetch 2 1 => no 68 cut 2 1
join 1 2 => ok
crash a => ok
fetch 2 1 => no 16 down a
work 2 1 => ok SYNC 8 rows 1
rows b public.t => ok rows 1 p=1
fetch 2 1 => no 60 nothing

crash a after 0 lose => ok
fetch 2 1 => no 10 fault a 1
work 2 1 => ok SYNC 8 rows 1
rows b public.t => ok rows 1 p=1

stop 1 => ok
work 2 1 => ok SYNC 8 rows 1
work 2 1 => no 60 nothing
";

/// What was fetched is gone where the slon of the node stops, and where its database goes down: by a crash, by a fault,
/// and by a doubt. The event waits no more either, and is fetched anew from a provider that is to be reached.
const GONE: &str = "\
stop 2 => ok
start 2 => ok
work 2 1 => no 60 nothing
listen 2 1 => ok events 1 confirms 0
cut 1 2 => ok
work 2 1 => no 68 cut 2 1

crash b => ok
work 2 1 => no 16 down b
up b => ok
listen 2 1 => ok events 1 confirms 0
cut 1 2 => ok
work 2 1 => no 68 cut 2 1

crash b after 0 lose => ok
work 2 1 => no 10 fault b 1
up b => ok
listen 2 1 => ok events 1 confirms 0
cut 1 2 => ok
work 2 1 => no 68 cut 2 1

crash b commit lose => ok
work 2 1 => doubt b ok SYNC 8 rows 1
up b => ok lost
rows b public.t => ok rows 0
listen 2 1 => ok events 1 confirms 0
cut 1 2 => ok
work 2 1 => no 68 cut 2 1

crash b commit keep => ok
work 2 1 => doubt b ok SYNC 8 rows 1
up b => ok kept
rows b public.t => ok rows 1 p=1
listen 2 1 => no 60 nothing
";

/// Adds these lines behind a fetch.
fn push_behind(wanted: &mut Wanted, lines: &str) -> Result<(), AllocError> {
    wanted.push_all(DATABASES)?;
    wanted.push_script(NODES, PAIR)?;
    wanted.push_all(EMPTY)?;
    wanted.push_all(WAITING)?;
    wanted.push_all(lines)
}

/// These lines are answered so behind a fetch.
fn expect_behind(alloc: Global, lines: &str) -> Result<(), Fail> {
    let mut wanted = nothing_wanted(alloc);
    push_behind(&mut wanted, lines)?;
    expect_wanted(alloc, &wanted)
}

/// The same for each of these, which have empty lines between them.
fn expect_fetched(alloc: Global, each: &str) -> Result<(), Fail> {
    for lines in each.split("\n\n") {
        expect_behind(alloc, lines)?;
    }
    Ok(())
}

#[test]
fn fetched_rows_are_kept(rt: HostRuntime) -> Result<(), Fail> {
    expect_fetched(rt.alloc(), KEPT)
}

#[test]
fn fetched_rows_are_lost(rt: HostRuntime) -> Result<(), Fail> {
    expect_fetched(rt.alloc(), GONE)
}
