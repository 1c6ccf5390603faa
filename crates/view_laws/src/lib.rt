//! What nodes that subscribe know of sets, in every session that a legal history leads to: the snapshots that they keep
//! of sets, and the tables in these. There is no code: each law is what a function of an empty body ensures.
#![tactic(auto)]

ghost use Rattle.view_laws.specs.Laws.{EventsDivide, ViewsBegin, ViewsGoOn, ViewsReach, TablesAgree};

/// A node that keeps a set keeps it from then on, from the same origin and in the same era, and the snapshot that it
/// keeps of it never goes back, until it applies an event of that origin by which it gives the set up.
pub fn views_go_on()
    ensures { ViewsGoOn }
{}

/// A node that keeps a set has applied an event by which it copied the set, and since then none by which it gives the
/// set up. So a set that was given up and is kept again was copied anew.
pub fn views_begin()
    ensures { ViewsBegin }
{}

/// The snapshot that a node keeps of a set sees all that a SYNC of the origin of the set saw, once the node has applied
/// that SYNC.
pub fn views_reach()
    ensures { ViewsReach }
{}

/// Of an action that the snapshot of an event sees, and of all that the event's origin drew before it, the transactions
/// had begun when the event was emitted.
pub fn events_divide()
    ensures { EventsDivide }
{}

/// The origin of a set has each table in the set that a node knows which keeps the set. The node knows each table that
/// the origin has in the set, unless the origin has told it to give the set up.
pub fn tables_agree()
    ensures { TablesAgree }
{}
