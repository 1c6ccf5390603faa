// A receiver of several sets of one origin, which are read together where it is as far in each of them.
use crate::wanted::{expect_wanted, nothing_wanted};
use std::test::Fail;

/// Two of the three sets of node 1 are received by node 2, both from there.
const SETS: &str = "\
database a => ok
database b => ok
table a public.t 2 => ok
table a public.v 2 => ok
table a public.w 2 => ok
table b public.t 2 => ok
table b public.v 2 => ok
table b public.w 2 => ok
slonik s <<
cluster name = demo;
node 1 admin conninfo = 'dbname=a';
node 2 admin conninfo = 'dbname=b';
init cluster (id = 1);
store node (id = 2, event node = 1);
store path (server = 1, client = 2, conninfo = 'dbname=a');
create set (id = 1, origin = 1);
set add table (set id = 1, origin = 1, id = 1, fully qualified name = 'public.t');
create set (id = 2, origin = 1);
set add table (set id = 2, origin = 1, id = 2, fully qualified name = 'public.v');
create set (id = 3, origin = 1);
set add table (set id = 3, origin = 1, id = 3, fully qualified name = 'public.w');
subscribe set (id = 1, provider = 1, receiver = 2, forward = yes);
subscribe set (id = 2, provider = 1, receiver = 2);
>> => ok statements 11
step s => ok
step s => ok event 1 1
step s => ok event 2 1
step s => ok event 1 2
step s => ok event 1 3
step s => ok event 1 4
step s => ok event 1 5
step s => ok event 1 6
step s => ok event 1 7
step s => ok event 1 10
step s => ok event 1 13
";

/// It copies them.
const COPIED: &str = "\
start 1 => ok
start 2 => ok
listen 2 1 => ok events 12 confirms 0
work 2 1 => ok STORE_SET 2 rows 0
work 2 1 => ok SET_ADD_TABLE 3 rows 0
work 2 1 => ok STORE_SET 4 rows 0
work 2 1 => ok SET_ADD_TABLE 5 rows 0
work 2 1 => ok STORE_SET 6 rows 0
work 2 1 => ok SET_ADD_TABLE 7 rows 0
work 2 1 => ok SYNC 8 rows 0
work 2 1 => ok SUBSCRIBE_SET 9 rows 0
work 2 1 => ok ENABLE_SUBSCRIPTION 10 rows 0
work 2 1 => ok SYNC 11 rows 0
work 2 1 => ok SUBSCRIBE_SET 12 rows 0
work 2 1 => ok ENABLE_SUBSCRIPTION 13 rows 0
";

/// A transaction writes tables of all sets. What it wrote in the set that is not received is not brought.
const FIRST: &str = "\
begin a x => ok xid 1
insert a x public.t p 1 => ok action 1
insert a x public.v q 2 => ok action 2
insert a x public.w r 3 => ok action 3
insert a x public.v s 4 => ok action 4
commit a x => ok actions 4
sync 1 => ok event 1 14
listen 2 1 => ok events 1 confirms 0
work 2 1 => ok SYNC 14 rows 3
rows b public.t => ok rows 1 p=1
rows b public.v => ok rows 2 q=2 s=4
rows b public.w => ok rows 0
status b => ok node 2 log 0 progress 1 14 progress 2 1 set 1 era 1 at 2:2: set 2 era 1 at 2:2:
";

/// Rows are changed and deleted, fetched and applied later; and there are rows of the second set alone, also behind
/// a crash.
const CHANGED: &str = "\
begin a y => ok xid 2
update a y public.t p 2=5 => ok action 5
delete a y public.v q => ok action 6
update a y public.v s 2=6 => ok action 7
insert a y public.w t 7 => ok action 8
commit a y => ok actions 4
sync 1 => ok event 1 15
listen 2 1 => ok events 1 confirms 0
fetch 2 1 => ok fetched 15 rows 3
work 2 1 => ok SYNC 15 rows 3
rows b public.t => ok rows 1 p=5
rows b public.v => ok rows 1 s=6
begin a z => ok xid 3
insert a z public.v u 8 => ok action 9
commit a z => ok actions 1
sync 1 => ok event 1 16
listen 2 1 => ok events 1 confirms 0
crash b => ok
up b => ok
start 2 => ok
listen 2 1 => ok events 1 confirms 0
work 2 1 => ok SYNC 16 rows 1
rows b public.v => ok rows 2 s=6 u=8
";

/// Node 2 receives the third set, too. It has copied that at a later snapshot than it is at in the others.
const THIRD: &str = "\
slonik u <<
cluster name = demo;
node 1 admin conninfo = 'dbname=a';
node 2 admin conninfo = 'dbname=b';
subscribe set (id = 3, provider = 1, receiver = 2);
>> => ok statements 1
step u => ok event 1 19
begin a k => ok xid 4
insert a k public.t v 1 => ok action 10
insert a k public.v v 2 => ok action 11
insert a k public.w v 3 => ok action 12
commit a k => ok actions 3
listen 2 1 => ok events 3 confirms 0
work 2 1 => ok SYNC 17 rows 0
work 2 1 => ok SUBSCRIBE_SET 18 rows 0
work 2 1 => ok ENABLE_SUBSCRIPTION 19 rows 3
rows b public.w => ok rows 3 r=3 t=7 v=3
status b => ok node 2 log 0 progress 1 19 progress 2 1 set 1 era 1 at 4:4: set 2 era 1 at 4:4: set 3 era 1 at 5:5:
sync 1 => ok event 1 20
listen 2 1 => ok events 1 confirms 0
work 2 1 => ok SYNC 20 rows 2
rows b public.t => ok rows 2 p=5 v=1
rows b public.v => ok rows 3 s=6 u=8 v=2
rows b public.w => ok rows 3 r=3 t=7 v=3
status b => ok node 2 log 0 progress 1 20 progress 2 1 set 1 era 1 at 5:5: set 2 era 1 at 5:5: set 3 era 1 at 5:5:
";

#[test]
fn sets_of_one_origin_are_read_together(rt: HostRuntime) -> Result<(), Fail> {
    let mut wanted = nothing_wanted(rt.alloc());
    wanted.push_all(SETS)?;
    wanted.push_all(COPIED)?;
    wanted.push_all(FIRST)?;
    wanted.push_all(CHANGED)?;
    wanted.push_all(THIRD)?;
    expect_wanted(rt.alloc(), &wanted)
}
