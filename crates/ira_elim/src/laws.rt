ghost use Rattle.ira_cert.specs.Laws.{SoundSectionsLeaveNoCut};
ghost use Rattle.ira_elim.specs.Laws.{CasesAreAbsentOrPresent, NoCaseHasTwoLeastCuts};

/// A law: where the logs have an order, either a sound section shows that no consistent cut meets the
/// case, or there is one least consistent cut that meets it; never both (Garg and Waldecker, Detection of
/// Weak Unstable Predicates in Distributed Programs, IEEE TPDS 5(3), 1994).
pub fn a_case_is_absent_or_present()
    ensures either { CasesAreAbsentOrPresent }
    ensures never_both { SoundSectionsLeaveNoCut }
    ensures one_least { NoCaseHasTwoLeastCuts }
{}
