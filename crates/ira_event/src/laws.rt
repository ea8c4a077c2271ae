//! Laws over the definitions: each is the contract of a function that does nothing.
ghost use Rattle.ira_event.specs.LogLaws.{EachLogHasOneText, NoTextIsTwoLogs, EachTextHasAnAnswer, NoLogTextHasFaults, NoTextHasTwoFaults, NoTextIsOutOfMemory};

/// Each log has exactly one text.
pub fn each_log_has_one_text()
    ensures { EachLogHasOneText }
{}

/// A text is the text of one log at the most.
pub fn no_text_is_two_logs()
    ensures { NoTextIsTwoLogs }
{}

/// A text has exactly one answer: it is a log's, or it has one fault.
pub fn a_text_has_one_answer()
    ensures answered { EachTextHasAnAnswer }
    ensures log_or_fault { NoLogTextHasFaults }
    ensures one_fault { NoTextHasTwoFaults }
    ensures memory { NoTextIsOutOfMemory }
{}
