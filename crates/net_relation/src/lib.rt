//! Sessions and nets: each set of each node of a session has a net, so that the laws of nets (`net_laws`) hold of
//! sessions. There is no code: each law is what a function of an empty body ensures.
#![tactic(auto)]

ghost use Rattle.net_relation.specs.Laws.{SessionsHaveNets, LawsApply, KeepersSubscribe, SubscribersKeep};
ghost use Rattle.net_relation.specs.Laws.{ForwardersLog, ForwardersHaveTheActions, ForwardersServe};
ghost use Rattle.net_relation.specs.Laws.{ForwardersGiveTheSame, LogsHaveOrigins, KeepersSee, ProvidersServe};
ghost use Rattle.net_relation.specs.Laws.{ProvidersGiveTheSame};

/// Take a node of a session and a set. There is a net that has gone by steps, from a beginning without events, to
/// where the session is: it has the stream of the node and counts the transactions that have ended there, and each
/// other node of the session has made of that stream what the node of the net has made of it. The laws of nets hold
/// of it.
pub fn sessions_have_nets()
    ensures nets { SessionsHaveNets }
    ensures laws { LawsApply }
{}

/// A node that keeps a set has its subscription to it in its configuration. A node that has applied the event by which
/// its subscription was enabled keeps the set from then on, from the node that emitted the event, as long as that node
/// has emitted no later event by which the other one gives the set up. The snapshot that it keeps sees all that each
/// SYNC of that node saw which is no later in the stream than the node has come.
pub fn subscribers_keep()
    ensures rows { KeepersSubscribe }
    ensures keep { SubscribersKeep }
    ensures see { KeepersSee }
{}

/// A node that forwards a set has in its log every action that the origin has logged on the set, if the snapshot that
/// the node keeps sees it and the one with which it last began to forward the set does not. So it has there every such
/// action that was committed at the origin on the tables of the set. No node has more: each entry of its log is in the
/// log of the node that is the origin of the entry.
pub fn forwarders_log()
    ensures entries { ForwardersLog }
    ensures actions { ForwardersHaveTheActions }
    ensures only { LogsHaveOrigins }
{}

/// A node that forwards a set could serve any other node that keeps the set and is not behind the snapshot with which
/// the first one last began to forward it: of each SYNC that the first one has applied, it has in its log all that the
/// other one takes with that SYNC from the origin. So the other one would take the same rows from it, in the same
/// order.
pub fn forwarders_serve()
    ensures entries { ForwardersServe }
    ensures same { ForwardersGiveTheSame }
{}

/// A node takes a set from the node that its own subscription names as the provider. Where that has applied the next
/// SYNC of the origin which the other one is to apply, it has in its log all that the other one takes with that SYNC
/// from the origin. So the other one takes the same rows from it, in the same order.
pub fn providers_serve()
    ensures entries { ProvidersServe }
    ensures same { ProvidersGiveTheSame }
{}
