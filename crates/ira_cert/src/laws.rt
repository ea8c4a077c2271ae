ghost use Rattle.ira_cert.specs.Laws.{SoundSectionsLeaveNoCut, NoSectionHasTwoVerdicts, NoSectionIsWithoutVerdict, SectionsOfOrderedLogsHaveVerdicts};

/// A law: a section that is sound for a case leaves no consistent cut of the logs that meets it
/// (Garg and Waldecker, Detection of Weak Unstable Predicates in Distributed Programs, IEEE TPDS 5(3),
/// 1994).
pub fn sound_sections_leave_no_cut()
    ensures { SoundSectionsLeaveNoCut }
{}

/// A law: a section is sound or has one fault.
pub fn a_section_has_one_verdict()
    ensures one { NoSectionHasTwoVerdicts }
    ensures some { NoSectionIsWithoutVerdict }
    ensures found { SectionsOfOrderedLogsHaveVerdicts }
{}
