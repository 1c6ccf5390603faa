// Laws of the streams of a node: how they follow how it began and what it did since, and what they leave as it was.
ghost use Rattle.event_store.specs.Apart.{ConfigStays, StreamsStay};
ghost use Rattle.event_store.specs.Following.{EmittingAdds, KeepingAdds, ApplyingAdds, CommittingStays, HearingAdds};
ghost use Rattle.event_store.specs.Following.{RegularStays, FirstHasNone, FirstRegular, JoiningGives, GivenRegular};

/// The streams of a node follow what it does: an event that it emits or applies is added to them, a transaction of an
/// application changes nothing of them, and confirmations change what it was told of others.
pub fn streams_follow_deeds()
    ensures adds { EmittingAdds }
    ensures keeps { KeepingAdds }
    ensures applies { ApplyingAdds }
    ensures stays { CommittingStays }
    ensures confirms { HearingAdds }
    ensures regular { RegularStays }
{}

/// The streams of a node begin with nothing, where it is the first of its cluster, or with what it is given.
pub fn streams_begin()
    ensures none { FirstHasNone }
    ensures first { FirstRegular }
    ensures joining { JoiningGives }
    ensures given { GivenRegular }
{}

/// The streams of a node and what it knows of the cluster stand in spaces of their own, so a change of the one leaves
/// the other.
pub fn streams_stand_apart()
    ensures config { ConfigStays }
    ensures streams { StreamsStay }
{}
