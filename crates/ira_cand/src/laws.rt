ghost use Rattle.ira_cand.specs.Laws.{OneListOfCandidates};

/// A law: a log has one list of candidates for what is asked.
pub fn one_list_of_candidates()
    ensures { OneListOfCandidates }
{}
