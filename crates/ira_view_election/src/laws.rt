ghost use Rattle.ira_view_election.specs.Laws.{LeadersAreAtTheEnd, MomentsGoOn};

/// A law: of logs of a run, one of which is an initiator's, something comes next at each moment at which no node leads; and
/// where one leads nothing does, but for its yield.
pub fn moments_go_on()
    ensures on { MomentsGoOn }
    ensures end { LeadersAreAtTheEnd }
{}
