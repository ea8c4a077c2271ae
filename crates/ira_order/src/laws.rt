ghost use Rattle.ira_order.specs.Laws.{OrdersMeanEvents, OrdersAreRuns, RunsAreOrders, UnmatchedLogsHaveNoRun, CircledLogsHaveNoRun, FaultyLogsHaveNoRun, MomentsAreCuts, CutsAreMoments, EventsHaveCounts, HappenedBeforeIsDecided, CountsAreCuts, CountsAreLeast, JoinsAreCuts, MeetsAreCuts};
ghost use Rattle.ira_order.specs.Upgrade.{UpgradesKeepPairs, UpgradesKeepMatching, UpgradesKeepBefore, UpgradesKeepOrders, UpgradesKeepCuts, UpgradesKeepConsistentCuts};

/// A law: an order means a list of events.
pub fn orders_mean_events()
    ensures { OrdersMeanEvents }
{}

/// A law: each order of matched logs all of whose events have node steps is a run of the ring.
pub fn orders_are_runs()
    ensures { OrdersAreRuns }
{}

/// A law: the logs of a run of the ring match, all their events have node steps, and the run's places
/// are an order of them.
pub fn runs_are_orders()
    ensures { RunsAreOrders }
{}

/// A law: logs that don't match, that have a circle, or that have an event without a node step are
/// the logs of no run of the ring.
pub fn refused_logs_have_no_run()
    ensures unmatched { UnmatchedLogsHaveNoRun }
    ensures circled { CircledLogsHaveNoRun }
    ensures faulty { FaultyLogsHaveNoRun }
{}

/// A law: a beginning of an order is a consistent cut (Mattern, Virtual Time and Global States of
/// Distributed Systems, 1989).
pub fn moments_are_cuts()
    ensures { MomentsAreCuts }
{}

/// A law: each consistent cut of logs that have an order is a beginning of some order.
pub fn cuts_are_moments()
    ensures { CutsAreMoments }
{}

/// A law: where logs have an order, each event has its counts, one for each node; so whether one event
/// happened before another is decided there.
pub fn events_have_counts()
    ensures counts { EventsHaveCounts }
    ensures decided { HappenedBeforeIsDecided }
{}

/// A law: the counts of an event are a consistent cut, the least one that holds the event (Mattern,
/// Virtual Time and Global States of Distributed Systems, 1989).
pub fn counts_are_cuts()
    ensures cuts { CountsAreCuts }
    ensures least { CountsAreLeast }
{}

/// A law: the consistent cuts are a lattice, by the greater and the lesser position at each place
/// (Mattern 1989).
pub fn cuts_are_a_lattice()
    ensures join { JoinsAreCuts }
    ensures meet { MeetsAreCuts }
{}

/// A law: the pairs and orders of upgraded logs are those of the old ones, and so is what happened before
/// what.
pub fn upgrades_keep_orders()
    ensures pairs { UpgradesKeepPairs }
    ensures matching { UpgradesKeepMatching }
    ensures before { UpgradesKeepBefore }
    ensures orders { UpgradesKeepOrders }
{}

/// A law: the cuts of upgraded logs, and those among them that are consistent, are those of the old ones.
pub fn upgrades_keep_cuts()
    ensures cuts { UpgradesKeepCuts }
    ensures consistent { UpgradesKeepConsistentCuts }
{}
