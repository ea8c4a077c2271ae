ghost use Rattle.ira_mend.specs.Laws.{ConsistentCutsAreKept, CutOffLogsDontDiffer, CutTextsAreOfLogs, CutTextsDontDiffer, CutTextsGetYes, JoinsAreBeginnings, LeftTextsAreOne, LogsHaveAGreatestBeginning, MeetsAreBeginnings, MendedRunsAreRuns, MendedRunsGetYes, MendingKeepsWholePasts, NoReasonAgainstARing, RecordedReasonsAreOne};

/// A law: the consistent beginnings are a lattice, by the greater and the lesser position at each place, and have a
/// greatest one.
pub fn beginnings_are_a_lattice()
    ensures join { JoinsAreBeginnings }
    ensures meet { MeetsAreBeginnings }
    ensures greatest { LogsHaveAGreatestBeginning }
{}

/// A law: of logs that match and were cut off anywhere, mending loses no more than it must. It keeps the events of which
/// the whole past is left, no other, and so all of a consistent cut; and it never finds a difference.
pub fn mending_keeps_whole_pasts()
    ensures pasts { MendingKeepsWholePasts }
    ensures cuts { ConsistentCutsAreKept }
    ensures differ { CutOffLogsDontDiffer }
{}

/// A law: where the logs that were cut off are those of a run, the mended ones are those of a run too, and `yes` is
/// said of their texts.
pub fn mended_runs_are_runs()
    ensures runs { MendedRunsAreRuns }
    ensures answer { MendedRunsGetYes }
{}

/// A law: texts are what is left of at most one list of logs, and there is at most one reason against them; none where
/// they are what is left of the logs of a ring.
pub fn left_texts_have_one_answer()
    ensures logs { LeftTextsAreOne }
    ensures reasons { RecordedReasonsAreOne }
    ensures none { NoReasonAgainstARing }
{}

/// A law: from the bytes that a crash left of a run to a yes. Of each of the texts of its logs some first bytes are left,
/// cut anywhere or none, and of one of them a whole head. Then they are gathered, mending finds no difference, and `yes`
/// is said of the mended texts.
pub fn cut_texts_of_runs_get_yes()
    ensures gathered { CutTextsAreOfLogs }
    ensures alike { CutTextsDontDiffer }
    ensures answer { CutTextsGetYes }
{}
