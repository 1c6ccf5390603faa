//! What nodes hold of one another's streams, in every session that a legal history leads to. There is no code: each law
//! is what a function of an empty body ensures.
#![tactic(auto)]

ghost use Rattle.stream_laws.specs.Laws.{EventsAreTheStream, StreamsAreNumbered, ConfirmationsAreBehind};
ghost use Rattle.stream_laws.specs.Laws.{NodesAreDistinct, MarksAreMadeOnce, EventsAreAppliedOnce};

/// Each event that a node holds, and each that waits at a node, is one of the stream of the node that is its origin.
pub fn events_are_the_stream()
    ensures { EventsAreTheStream }
{}

/// The events of the stream of a node have the numbers from 1 on, in the order in which it emitted them, and it is as
/// far in its own stream as that is long. No node has deleted more of a stream than it has had, or has had more than
/// there is.
pub fn streams_are_numbered()
    ensures { StreamsAreNumbered }
{}

/// The events of another stream that a node applied have, in the order in which it did, the numbers from behind what it
/// was given of that stream as it became a node up to where it is: none is applied twice, and none is left out. Each is
/// one of the stream of its origin. Of its own stream a node applies none.
pub fn events_are_applied_once()
    ensures { EventsAreAppliedOnce }
{}

/// A node is told no more of another one than that one has done.
pub fn confirmations_are_behind()
    ensures { ConfirmationsAreBehind }
{}

/// No two databases of a session are nodes of one id.
pub fn nodes_are_distinct()
    ensures { NodesAreDistinct }
{}

/// A set, a table, and that a table has a name, is made known by one event of one node. The nodes that are as far as
/// that event know it, and no others. Each event that waits at a node is of an origin that the node knows.
pub fn marks_are_made_once()
    ensures { MarksAreMadeOnce }
{}
