ghost use Rattle.ira_safety.specs.OneLeader.{OneLeaderInATerm, OneLeaderOfVersion1, OneLeaderAtACut, OthersArePassive};
ghost use Rattle.ira_safety.specs.Reaches.{NoRunHasTwoLeaders, LeadersOfRunsAreAlone};
ghost use Rattle.ira_safety.specs.TwoNodes.{OneMayLead, TwoMayLeadUnmatched, TwoMayLeadInTurn};

/// A law: of logs that match, and all of whose events have steps, at most one node leads in a term.
pub fn one_leader_in_a_term()
    ensures { OneLeaderInATerm }
{}

/// A law: of such logs of version 1 at most one node ever leads.
pub fn one_leader_of_version_1()
    ensures { OneLeaderOfVersion1 }
{}

/// A law: of such logs of either version at most one node leads at a consistent cut, and the others are
/// passive there.
pub fn one_leader_at_a_cut()
    ensures one { OneLeaderAtACut }
    ensures others { OthersArePassive }
{}

/// A law: no run of a ring comes to a configuration in which two nodes lead, or in which one leads and
/// another isn't passive.
pub fn no_run_has_two_leaders()
    ensures one { NoRunHasTwoLeaders }
    ensures others { LeadersOfRunsAreAlone }
{}

/// Examples of two nodes: one leads; both do, where the logs don't match; and one after the other, in
/// two terms.
pub fn leaders_by_example()
    ensures matched { OneMayLead }
    ensures unmatched { TwoMayLeadUnmatched }
    ensures in_turn { TwoMayLeadInTurn }
{}
