//! The laws of every database of a legal history. There is no code: each law is what a function of an empty body
//! ensures.
#![tactic(auto)]

ghost use Rattle.slon_laws.specs.Laws.{LocksOrderActions, NumbersRise, CommitApplies, CeilingsBound, RepliesStayBelow};
ghost use Rattle.slon_laws.specs.Laws.{SnapshotsStayBelow, SnapshotsCover};

/// Locks order actions: of two committed actions on one row by two transactions, the transaction of the lower number
/// committed first.
pub fn locks_order_actions()
    ensures { LocksOrderActions }
{}

/// What a table holds is a fold over committed actions in the order of their numbers, and it is what a commit leaves
/// that applies the actions of its own transaction to what the table held.
pub fn commit_applies()
    ensures in_order { NumbersRise }
    ensures applies { CommitApplies }
{}

/// The durable ceilings are above every number and every id that was drawn, those that a reply gave at any time before
/// among them, and no snapshot that was taken until now ends above them.
pub fn ceilings_bound_numbers()
    ensures bound { CeilingsBound }
    ensures replies { RepliesStayBelow }
    ensures snapshots { SnapshotsStayBelow }
{}

/// Of two snapshots of one database that are taken one after the other, the later one sees all that the earlier one
/// sees.
pub fn snapshots_cover()
    ensures { SnapshotsCover }
{}
