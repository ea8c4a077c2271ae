ghost use Rattle.ira_ring_alone.specs.Existence.{SetupsHaveFullRuns};

/// A law: a setup that keeps the rules has a full run, whether or not there is memory to make it. So what is
/// said of each full run of such a setup is said of one at least.
pub fn setups_have_full_runs()
    ensures { SetupsHaveFullRuns }
{}
