ghost use Rattle.ira_audit.specs.LogTextAnswer.{EachTextHasAnAnswer, NoTextHasTwoAnswers};
ghost use Rattle.ira_audit.specs.CheckAnswer.{AnyTextsHaveAnAuditAnswer, NoTextsHaveTwoAuditAnswers};
ghost use Rattle.ira_audit.specs.RingAnswer.{AnyTextsHaveAnAnswer, NoTextsHaveTwoAnswers};
ghost use Rattle.ira_audit.specs.Never.{NoMomentMeetsAny, NeverTwoLeaders, NoCutMeetsAPair, YesMeansNoCaseIsMet, YesWithoutQuestion};
ghost use Rattle.ira_audit.specs.TextRuns.{YesMeansRuns, NoMeansNoRun};
ghost use Rattle.ira_audit.specs.Upgrade.{TextsAreUpgraded, UpgradesKeepAnswer, UpgradesKeepLogsAnswer, UpgradesKeepAuditAnswer};

/// A law: the text of one log, the texts of the logs of a ring, and these with a question and a
/// certificate, have at most one answer.
pub fn answers_are_one()
    ensures one_log { NoTextHasTwoAnswers }
    ensures ring_logs { NoTextsHaveTwoAnswers }
    ensures certified { NoTextsHaveTwoAuditAnswers }
{}

/// A law: each of these has an answer, whether or not there is memory to find it.
pub fn texts_have_answers()
    ensures one_log { EachTextHasAnAnswer }
    ensures ring_logs { AnyTextsHaveAnAnswer }
    ensures certified { AnyTextsHaveAnAuditAnswer }
{}

/// A law: after a yes the logs have an order, and each order of them is a run of the ring; and after a reason of matching,
/// circle or replay no run of the ring is a run of them.
pub fn answers_tell_of_runs()
    ensures yes { YesMeansRuns }
    ensures no { NoMeansNoRun }
{}

/// A law: after a yes with a question and a certificate the logs are those of runs, and no consistent cut of them meets an
/// asked case.
pub fn no_case_is_met()
    ensures { YesMeansNoCaseIsMet }
{}

/// A law: after a yes no order of the logs meets an asked case at any of its moments.
pub fn no_moment_meets_a_case()
    ensures { NoMomentMeetsAny }
{}

/// A law: after a yes, with or without a question, no two nodes ever led at once.
pub fn never_two_leaders()
    ensures leaders { NeverTwoLeaders }
    ensures pairs { NoCutMeetsAPair }
    ensures unasked { YesWithoutQuestion }
{}

/// A law: where each text is that of a log of version 1, the texts of the upgraded logs have the same answer,
/// alone, together, and with a question and a certificate; and there are such texts.
pub fn upgrades_keep_answers()
    ensures texts { TextsAreUpgraded }
    ensures one_log { UpgradesKeepAnswer }
    ensures ring_logs { UpgradesKeepLogsAnswer }
    ensures certified { UpgradesKeepAuditAnswer }
{}
