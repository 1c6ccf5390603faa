//! What nodes that subscribe hold of the tables of sets, in every session that a legal history leads to. There is no
//! code: each law is what a function of an empty body ensures.
#![tactic(auto)]

ghost use Rattle.follow_laws.specs.Laws.{TablesFollow, SetsWereSo, TablesStay};

/// Of each set that a node keeps, each table that it knows holds exactly the rows that the snapshot which it keeps sees
/// of the table at the origin of the set, whatever has failed, been written or been lost on the way since.
pub fn tables_follow()
    ensures { TablesFollow }
{}

/// A set that a node keeps stands there as it stood at its origin in an earlier session of the same history, all its
/// tables at one time: that in which the origin took the snapshot which the node keeps.
pub fn sets_were_so()
    ensures { SetsWereSo }
{}

/// A table that a node keeps changes with the events that the node applies, and with nothing else: no transaction of an
/// application, no event that the node emits, and no fault touches it.
pub fn tables_stay()
    ensures { TablesStay }
{}
