//! What is said of texts: of one log alone, of the logs of a whole ring together, or of these with a
//! question and a certificate; and what is found for a question about them.
#![tactic(auto)]

mod answer;
mod asked_question;
mod audits;
mod cases_draft;
mod decided_cases;
mod findings;
mod findings_writer;
mod good_logs;
mod judged;
mod laws;
mod link_lines;
mod log_audit;
mod order_search;
mod partial_replay;
mod reason;
mod refusal;
mod refused_logs;
mod replayed_log;
mod report;
mod ring_audit;

pub use answer::Answer;
pub use asked_question::AskedQuestion;
pub use audits::{audit, audit_logs, audit_one, decide_all};
pub use decided_cases::DecidedCases;
pub use findings::Findings;
pub use findings_writer::write_findings;
pub use good_logs::GoodLogs;
pub use judged::Judged;
pub use laws::{
    answers_are_one, answers_tell_of_runs, never_two_leaders, no_case_is_met,
    no_moment_meets_a_case, texts_have_answers, upgrades_keep_answers,
};
pub use log_audit::LogAudit;
pub use reason::Reason;
pub use refusal::Refusal;
pub use refused_logs::RefusedLogs;
pub use report::{reason_line, write_report};
pub use ring_audit::RingAudit;
