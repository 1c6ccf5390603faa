//! The laws of a replicated table over many nodes, for one era of its set at a time: as long as one node is the origin
//! of the set. The origin emits one stream of events. Each node has applied the first events of it, and knows of
//! subscriptions what these say. A subscriber may keep a view: the snapshot of the origin's data that it has. A
//! forwarder also keeps a log of what it applied, from its base on, for those that subscribe to it. There is no code:
//! each law is what a function of an empty body ensures.
#![tactic(auto)]

ghost use Rattle.net_laws.specs.Laws.{Always, ViewCovers, CopyCovers, ViewHasRow, ViewsRise};
ghost use Rattle.net_laws.specs.Laws.{LogsHold, BackupServes, ForwarderLogs, LoggedOnce, LogsAreCommitted};
ghost use Rattle.net_laws.specs.Laws.{CleanedIsSeen, CopyFinds, ActiveHasView, GoneStays};
ghost use Rattle.net_laws.specs.Laws.{MoveLosesNothing, MoveIsWhole, MoveKeepsRow, MoveBegins};
ghost use Rattle.net_laws.specs.Laws.{FailoverBegins, TakeoverIsWhole, TakeoverStaysBelow, KeptKeepsView};
ghost use Rattle.net_laws.specs.Laws.{BeginningStays};
ghost use Rattle.net_laws.specs.Crossing.{CrossesByMove, CrossesByFailover};
ghost use Rattle.net_laws.specs.Eras.{OfAllEras, ErasInOrder, StandsInLast, OpensRise, ReadsOwnEra};
ghost use Rattle.net_laws.specs.Fences.{FencesHold};
ghost use Rattle.net_laws.specs.Confirmations.{ToldIsBehind};

/// The view of a subscriber sees all that each SYNC sees that the node has applied, and nothing that has not ended at
/// the origin. So does the view that a new subscriber copies from a forwarder that has come at least as far. Who keeps
/// a view has a subscription, and that is enabled. While a node keeps a view, it never goes back.
pub fn views_cover()
    ensures covers { Always ViewCovers }
    ensures copies { Always CopyCovers }
    ensures rows { Always ViewHasRow }
    ensures rise { Always ViewsRise }
{}

/// Where a subscriber applies a SYNC, the log of its provider has, and still holds, all that the SYNC sees and the view
/// of the subscriber does not: if the provider has come as far, has not given the set up, and has the subscriber
/// neither as dropped nor as fenced. Any forwarder may stand in so for another provider, for views at or above its
/// base, since it has logged all from its base to its view. What a SYNC brings to a node was not in its log before, and
/// logs hold only what has ended at the origin. What a node has cleaned out of its logs is seen by the view of each
/// node that it has neither as dropped nor as fenced.
pub fn logs_hold()
    ensures provider { Always LogsHold }
    ensures backup { Always BackupServes }
    ensures forwarder { Always ForwarderLogs }
    ensures once { Always LoggedOnce }
    ensures committed { Always LogsAreCommitted }
    ensures cleaned { Always CleanedIsSeen }
{}

/// Where a node comes to the event that enables its subscription, and the origin still has the subscription as enabled
/// by this event, the provider is an active forwarder, unless it is the origin: if it has come as far, and has not
/// given the set up. Where the origin no longer has a subscription that was enabled by an event, that stays so, since
/// streams only grow. A node that has passed the event that enabled its subscription keeps a view as long as the origin
/// has the subscription, unless it gave the set up.
pub fn copies_find()
    ensures finds { Always CopyFinds }
    ensures active { Always ActiveHasView }
    ensures gone { GoneStays }
{}

/// A set that moves loses nothing. Once it has moved, the last SYNC sees every transaction of the era, and so does the
/// view of each node that has passed the move; and who has passed it and keeps a view has one of the subscriptions with
/// which the set moved. Where every subscription is enabled and confirmed, they can begin the next era: each provider
/// but the new origin forwards, and each subscriber that has not given the set up has a view.
pub fn moves_lose_nothing()
    ensures nothing_lost { Always MoveLosesNothing }
    ensures whole { Always MoveIsWhole }
    ensures keeps_row { Always MoveKeepsRow }
    ensures begins { Always MoveBegins }
{}

/// Where a backup takes the set over from a failed origin, the subscriptions that it keeps can begin the next era: each
/// provider but the backup forwards. A receiver of which the backup has the subscription, and which has passed the last
/// event on that, keeps its view as it catches up with the backup. Its view stays at or below that of the backup until
/// then, and is that very view where it has come as far, if it was at or above the base of the backup.
pub fn takeovers_keep_views()
    ensures begins { Always FailoverBegins }
    ensures kept { Always KeptKeepsView }
    ensures below { Always TakeoverStaysBelow }
    ensures whole { Always TakeoverIsWhole }
{}

/// Until a node has passed the event that opens an era, it has the view, the base and the log with which the era began,
/// unless it gave the set up.
pub fn beginnings_stay()
    ensures { BeginningStays }
{}

/// Take a node that has passed a move, but of the stream of the new origin not yet more than that with which the new
/// era begins. If it keeps a view in the old era, that sees the whole of it, and the node has the view with which the
/// new era begins; if it keeps none, it has none in the new era. After a failover a receiver that the backup keeps
/// stays one as it catches up, and has the view of the backup where it has come as far.
pub fn nodes_cross()
    ensures moved { CrossesByMove }
    ensures failed { Always CrossesByFailover }
{}

/// Nodes pass the eras of a set in their order: who has passed the opening of one has left the era that it follows.
/// Eras of one origin are opened one after the other, and a node stands in the last one of them that it has passed. So
/// the next event of that origin belongs to the era in which the node stands, or opens another.
pub fn eras_pass_in_order()
    ensures in_order { OfAllEras ErasInOrder }
    ensures stands { OfAllEras StandsInLast }
    ensures opens { OfAllEras OpensRise }
    ensures own { OfAllEras ReadsOwnEra }
{}

/// In the stream of a failed node, no node that has a fence is past it, and no fence is past the last event that a
/// survivor may pass.
pub fn fences_hold()
    ensures { FencesHold }
{}

/// What a node was told of another one's progress is behind that, and progress is behind the stream.
pub fn told_is_behind()
    ensures { ToldIsBehind }
{}
