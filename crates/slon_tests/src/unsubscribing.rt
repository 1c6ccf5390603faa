// A subscription that ends: when the statement is accepted, what the node keeps then, and a node that subscribes again.
use crate::cascades::{CLUSTER, FORWARDED};
use crate::polls::{DATABASES, NODES};
use crate::sweeps::Sweep;
use crate::wanted::{Wanted, expect_wanted, nothing_wanted};
use std::alloc::AllocError;
use std::test::Fail;
use test_words::require;

const COPIED: &str = "work 3 1 => ok ENABLE_SUBSCRIPTION 12 rows 2";

/// Node 3 has the set from node 2.
const NOT_YET: &str = "\
unsubscribe set (id = 9, receiver = 3); => no 47 noset 9
unsubscribe set (id = 1, receiver = 1); => no 72 notactive 1
unsubscribe set (id = 1, receiver = 2); => no 46 hasreceivers 2
";

const THREE_ENDS: &str = "unsubscribe set (id = 1, receiver = 3); => ok event 1 13";

const ENDED: &str = "\
unsubscribe set (id = 1, receiver = 3); => no 72 notactive 3
subscribe set (id = 1, provider = 3, receiver = 2, forward = yes); => no 72 notactive 3
";

/// Node 3 has the set until it applies the event, and its own rows from then on, also behind a crash. SYNCs bring it
/// nothing.
const OWN: &str = "\
sync 1 => ok event 1 14
begin c w => ok xid 1
insert c w public.t y 9 => no 55 notorigin 1
listen 3 1 => ok events 2 confirms 0
work 3 1 => ok UNSUBSCRIBE_SET 13 rows 0
insert c w public.t y 9 => ok action 1
commit c w => ok actions 1
work 3 1 => ok SYNC 14 rows 0
rows c public.t => ok rows 3 p=1 r=3 y=9
status c => ok node 3 log 0 progress 1 14 progress 2 0 progress 3 2
crash c => ok
up c => ok
begin c v => ok xid 65
delete c v public.t p => ok action 65
commit c v => ok actions 1
";

/// Nobody has the set from node 2 any more, and node 3 subscribes again, at the origin.
const TWO_ENDS: &str = "\
unsubscribe set (id = 1, receiver = 2); => ok event 1 15
subscribe set (id = 1, provider = 1, receiver = 3); => ok event 1 18
";

/// It copies the set, and has none of its own rows then.
const AGAIN: &str = "\
step s => ok ended 0
listen 3 1 => ok events 4 confirms 0
work 3 1 => ok UNSUBSCRIBE_SET 15 rows 0
work 3 1 => ok SYNC 16 rows 0
work 3 1 => ok SUBSCRIBE_SET 17 rows 0
work 3 1 => ok ENABLE_SUBSCRIPTION 18 rows 3
rows c public.t => ok rows 3 p=1 r=3 s=4
status c => ok node 3 log 0 progress 1 18 progress 2 0 progress 3 2 set 1 era 1 at 4:4:
begin c u => ok xid 66
delete c u public.t p => no 55 notorigin 1
";

/// Adds how node 3 gives up the set, which it has from node 2.
fn push_ending(wanted: &mut Wanted) -> Result<(), AllocError> {
    wanted.push_all(DATABASES)?;
    wanted.push_script(NODES, CLUSTER)?;
    wanted.push("step s", "ok ended 0")?;
    wanted.push_all(FORWARDED)?;
    wanted.push_all(COPIED)?;
    wanted.push_each(NODES, NOT_YET)?;
    wanted.push_script(NODES, THREE_ENDS)?;
    wanted.push("step s", "ok ended 0")
}

#[test]
fn a_receiver_gives_the_set_up(rt: HostRuntime) -> Result<(), Fail> {
    let mut wanted = nothing_wanted(rt.alloc());
    push_ending(&mut wanted)?;
    wanted.push_each(NODES, ENDED)?;
    wanted.push_all(OWN)?;
    wanted.push_script(NODES, TWO_ENDS)?;
    wanted.push_all(AGAIN)?;
    expect_wanted(rt.alloc(), &wanted)
}

/// Node 3 has copied the set, and heard of the event by which it gives it up.
const TOLD: &str = "\
work 3 1 => ok ENABLE_SUBSCRIPTION 12 rows 2
slonik u <<
cluster name = demo;
node 1 admin conninfo = 'dbname=a';
unsubscribe set (id = 1, receiver = 3);
>> => ok statements 1
step u => ok event 1 13
listen 3 1 => ok events 1 confirms 0
";

/// The event, over a store of the node that fails: the node has the set still, or gave it up.
const ENDING: Sweep = Sweep {
    databases: DATABASES,
    nodes: NODES,
    cluster: CLUSTER,
    front: [FORWARDED, TOLD],
    database: "c",
    calls: 40,
    lines: "work 3 1\ncrash c\nup c\nbegin c w\ninsert c w public.t y 9\n",
    done: "\
ok UNSUBSCRIBE_SET 13 rows 0
ok
ok
ok xid 65
ok action 65
",
    failed: "\
no 10 fault c 1
no 16 down c
ok
ok xid 65
no 55 notorigin 1
",
    kept: "\
doubt c ok UNSUBSCRIBE_SET 13 rows 0
no 16 down c
ok kept
ok xid 65
ok action 65
",
    lost: "\
doubt c ok UNSUBSCRIBE_SET 13 rows 0
no 16 down c
ok lost
ok xid 65
no 55 notorigin 1
",
};

#[test]
fn a_set_is_given_up_at_one_moment(rt: HostRuntime) -> Result<(), Fail> {
    let told = ENDING.told_of_both(rt.alloc())?;
    require(told > 5, "the calls of the node")
}
