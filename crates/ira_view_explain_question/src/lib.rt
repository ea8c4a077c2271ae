//! Why an answer to a question is as it is, with a certificate or without one: the lines that follow it for a person
//! who asks.
#![tactic(auto)]

mod asked_files;
mod asked_finding;
mod asked_hint;
mod asked_lines;
mod asked_ring;
mod case_finding;
mod certificate_finding;
mod chosen_cases;
mod clause_stop;
mod elimination_lines;
mod explain;
mod explained_case;
mod front_left;
mod moment_lines;
mod question_finding;
mod section_finding;
mod sentence_page;

pub use asked_files::AskedFiles;
pub use explain::{
    explain_found, explain_no_certificate, explain_no_question, explain_size, explain_sound,
    explain_unsound,
};
pub use sentence_page::explain_sentence;
