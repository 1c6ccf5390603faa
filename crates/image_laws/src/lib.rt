//! What snapshots see of the tables of sets, in every session that a legal history leads to. There is no code: each law
//! is what a function of an empty body ensures.
#![tactic(auto)]

ghost use Rattle.image_laws.specs.Laws.{ImageIsCommittedRows, DeltaLeads, SnapshotsAreMoments};
ghost use Rattle.image_laws.specs.Laws.{CountsTell, LogsHaveTheActions, ReadingLeads, SnapshotsDivide, OlderStay};
ghost use Rattle.image_laws.specs.Laws.{LogsHadTheActions, ReadingLed};

/// What a snapshot sees of a table of a set, in the era in which it is taken at the origin of the set, is what the
/// table holds at that moment; and it is so still after whatever happens later: transactions that were open then, or
/// begin later, do not show in it.
pub fn image_is_committed_rows()
    ensures { ImageIsCommittedRows }
{}

/// The committed actions on a table that one snapshot sees and an earlier one does not, in the order of their numbers,
/// lead from what the earlier one sees of the table to what the later one sees, whichever transactions were open at
/// the one and at the other.
pub fn delta_leads()
    ensures { DeltaLeads }
{}

/// The transactions of a database end in an order. The snapshot of each event that its node emitted, and the one that
/// is taken now, sees exactly those that ended before some moment of it. Of two snapshots that were taken in one order,
/// the later one sees all that the other one sees.
pub fn snapshots_are_moments()
    ensures moments { SnapshotsAreMoments }
    ensures tells { CountsTell }
{}

/// Of an action that a snapshot sees, and of all that were drawn before it, the transactions had begun when the
/// snapshot was taken, and so it is still after whatever happens later. So a log in the order of numbers need not be
/// read from its beginning for a later snapshot, whose oldest open transaction began behind the earlier one.
pub fn snapshots_divide()
    ensures divide { SnapshotsDivide }
    ensures stay { OlderStay }
{}

/// The log of the origin of a set has, of each table of the set, exactly the committed actions since the table came
/// into the set. Once the set has ended, the log has all of them that a snapshot sees which was taken before.
pub fn logs_have_the_actions()
    ensures have { LogsHaveTheActions }
    ensures had { LogsHadTheActions }
{}

/// Who holds what a snapshot of the origin sees of a table, and applies what the log of the origin has of the table
/// between it and a later snapshot, in the order of numbers, holds what the later one sees; also where the set has
/// ended since the later one was taken.
pub fn readings_lead()
    ensures lead { ReadingLeads }
    ensures led { ReadingLed }
{}
