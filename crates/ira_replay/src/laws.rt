ghost use Rattle.ira_replay.specs.Laws.{OneListOfStates, StatesAreReached, LocalRunsGoOnAlike, UpgradesKeepStates};

/// A law: events have one list of states from a given first state.
pub fn one_list_of_states()
    ensures { OneListOfStates }
{}

/// A law: the state at a position is the one to which so many events lead, and there is one exactly
/// where they all have steps.
pub fn states_are_reached()
    ensures { StatesAreReached }
{}

/// A law: what a node does next is fixed by what it did, but for the ID that it draws and the load that it
/// receives. Two local runs of one ring size and one start kind that agree in their first events go on
/// with two draws, two receipts, two yields, or two sendings of one load.
pub fn local_runs_go_on_alike()
    ensures { LocalRunsGoOnAlike }
{}

/// A law: an upgraded log has the states of the old one.
pub fn upgrades_keep_states()
    ensures { UpgradesKeepStates }
{}
