//! Logs of a ring that crashed, mended: of each log the longest beginning such that all are consistent.
#![tactic(auto)]

mod beginning;
mod laws;
mod longest;
mod mend_fault;
mod mending;
mod recorded_log;
mod recorded_logs;

pub use laws::{
    beginnings_are_a_lattice, cut_texts_of_runs_get_yes, left_texts_have_one_answer,
    mended_runs_are_runs, mending_keeps_whole_pasts,
};
pub use mend_fault::MendFault;
pub use mending::{greatest_beginning, mend};
pub use recorded_logs::RecordedLogs;
