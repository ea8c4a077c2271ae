ghost use Rattle.ira_election.specs.AnOrder.{LocalRunsHaveAnOrder, CirclesHaveAFault, MatchingIsNotEnough};
ghost use Rattle.ira_election.specs.Draws.{AllTheGreatestGoOn, AllWhoStartDraw, BothMayLeadUnmatched};
ghost use Rattle.ira_election.specs.Draws.{DrawsDecide, FirstTermInOrder, NobodyDrawsLate};
ghost use Rattle.ira_election.specs.Draws.{OneDrawInARound, OnlyWhoStartDraw, RoundsCountFromOne, TheGreatestGoOn};
ghost use Rattle.ira_election.specs.Draws.{OnlyContendersLead, TheGreatestAreStillIn, TheGreatestLeads};
ghost use Rattle.ira_election.specs.Rounds.{FewElectNobody};
ghost use Rattle.ira_election.specs.Tables.{ElectedIsSomebody, FirstLeadersAreElected, LeadersAreElected, TablesElectOne};
ghost use Rattle.ira_election.specs.Ways.{AtLeastHalfElect, HalfIsSharp, WaysToDraw, WaysToElect};
ghost use Rattle.ira_election.specs.Ending.{LeadersEndElections, ElectionsEndAtCuts, LeadsBeforeTheEnd};
ghost use Rattle.ira_election.specs.GoingOn.{LoadsHaveSteps, LoadsAtCutsHaveSteps, RunsGoOn};
ghost use Rattle.ira_election.specs.StandingStill.{NoRunStandsStill, NoCutStandsStill, StillWithoutInitiators};

/// A law: a ring some node of which is an initiator never stands still. No run comes to a configuration, and
/// no consistent cut of logs that match, and all of whose events have steps, is one, in which each node
/// waits for a load and none is on its way.
pub fn no_ring_stands_still()
    ensures runs { NoRunStandsStill }
    ensures cuts { NoCutStandsStill }

    // Without an initiator a ring is still as it begins.
    ensures needed { StillWithoutInitiators }
{}

/// A law: where a node leads its election is over. In a configuration of a run, and at a consistent cut of
/// such logs, nothing is on its way and nobody owes then, and each other node is passive, in its term.
pub fn leaders_end_elections()
    ensures runs { LeadersEndElections }
    ensures cuts { ElectionsEndAtCuts }

    // At another cut a node may lead while its message is on its way.
    ensures needed { LeadsBeforeTheEnd }
{}

/// A law: what stands first on the link to a node that waits has a step there, limits aside; logs are too
/// short for a limit. So a run goes on from each configuration that it comes to, but where a node leads, or a
/// limit is met.
pub fn runs_go_on()
    ensures loads { LoadsHaveSteps }
    ensures cuts { LoadsAtCutsHaveSteps }
    ensures on { RunsGoOn }
{}

/// A law: logs that match, and all of whose events have steps, have an order; so where events wait for one
/// another in a circle, some event has no step.
pub fn local_runs_have_an_order()
    ensures order { LocalRunsHaveAnOrder }
    ensures circles { CirclesHaveAFault }

    // Logs that match may have none.
    ensures needed { MatchingIsNotEnough }
{}

/// A law: who leads is decided by what the nodes draw, and not by the order in which messages come. In logs
/// that match, and all of whose events have steps, those draw in the first round of a term who begin to
/// choose in it, and in each next one those who drew the greatest ID of the one before; who leads drew
/// the greatest alone. So logs of which the same nodes begin and draw the same have one leader.
pub fn draws_decide()
    ensures decide { DrawsDecide }
    ensures start { OnlyWhoStartDraw }
    ensures all_start { AllWhoStartDraw }
    ensures from_one { RoundsCountFromOne }
    ensures one { OneDrawInARound }
    ensures go_on { TheGreatestGoOn }
    ensures all_go_on { AllTheGreatestGoOn }
    ensures leads { TheGreatestLeads }
    ensures late { NobodyDrawsLate }
    ensures still_in { TheGreatestAreStillIn }
    ensures in_order { FirstTermInOrder }

    // Of logs that don't match two nodes may lead with the same draw.
    ensures needed { BothMayLeadUnmatched }
{}

/// A law: however the events of a ring go on from a cut of its logs, who leads then in a term is one of those that can lead
/// by its draws up to the cut.
pub fn only_contenders_lead()
    ensures { OnlyContendersLead }
{}

/// A law: of the n^k ways in which k nodes may draw IDs of 1 to n just k (0^(k-1) + 1^(k-1) + .. + (n-1)^(k-1)) have
/// one greatest, and those are at least half, where k is at most n.
pub fn half_of_the_draws_elect()
    ensures ways { WaysToDraw }
    ensures elect { WaysToElect }
    ensures half { AtLeastHalfElect }
    ensures sharp { HalfIsSharp }

    // So of all tables of so many rounds at most one in 2^rounds elects nobody.
    ensures rounds { FewElectNobody }
{}

/// A law: who leads is whom the draws of its term elect, as a table with a row for each round, whatever the table
/// says of those who don't draw. So that can be told before anything runs: a table elects one node at most.
pub fn tables_elect_leaders()
    ensures leaders { LeadersAreElected }
    ensures first { FirstLeadersAreElected }
    ensures one { TablesElectOne }

    // And those that elect some node are not among those that elect nobody.
    ensures somebody { ElectedIsSomebody }
{}
