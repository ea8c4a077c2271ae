ghost use Rattle.ira_ring_setup.specs.Agreement.{FullRunsHaveTheSameLogs, FullRunsShowEnds, LogsShowOneEnd, RecordingsAgree};
ghost use Rattle.ira_ring_setup.specs.FullRunLaws.{FullRunsAreRuns, FullRunsAreBusy, NoFullRunLacksAStep, FullRunsElectOrStop, FullRunLeadersAreAlone, FullRunsElectByDraws};

/// A law: a full run of a setup is a run of its ring.
#[tactic(auto, using(crate::proofs::FullRuns::full_run_is_run))]
pub fn full_runs_are_runs()
    ensures { FullRunsAreRuns }
{}

/// A law: all full runs of a setup have the same logs, whichever node steps first wherever several can.
pub fn full_runs_have_the_same_logs()
    ensures { FullRunsHaveTheSameLogs }
{}

/// A law: the logs of a full run show an end of each node, and none of these is `Stopped`.
pub fn full_runs_show_ends()
    ensures { FullRunsShowEnds }
{}

/// A law: logs show one end of each node, but that `Quiet` and `Stopped` say the same.
pub fn logs_show_one_end()
    ensures { LogsShowOneEnd }
{}

/// A law: some node of each full run ends otherwise than as `Quiet`, and none as `NoStep`. So some node leads in
/// the last term or in a later one, or is out of draws, or has a full log; and where one leads each other one
/// waits for a load that doesn't come, or has a full log.
pub fn full_runs_are_busy()
    ensures busy { FullRunsAreBusy }
    ensures steps { NoFullRunLacksAStep }
    ensures elects { FullRunsElectOrStop }
    ensures alone { FullRunLeadersAreAlone }
{}

/// A law: what the nodes of a ring recorded, each of them for itself, agrees with the full runs of their
/// setup, where that keeps the rules. It speaks of logs and ends alone.
pub fn recordings_agree()
    ensures { RecordingsAgree }
{}

/// A law: who leads in the first term of a full run is whom the IDs that nodes are given elect.
pub fn full_runs_elect_by_draws()
    ensures { FullRunsElectByDraws }
{}
