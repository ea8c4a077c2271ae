//! What the views tell, as JSON Lines: each line is one object, whose members stand in the order of their keys.
#![tactic(auto)]

mod answer_lines;
mod answer_values;
mod election_values;
mod event_lines;
mod evidence_values;
mod explained;
mod folder_lines;
mod line;
mod line_block;
mod log_lines;
mod moment_answer;
mod moment_lines;
mod object;
mod page_lines;
mod picture_values;
mod ring_lines;
mod run_features;
mod shown_answer;
mod to_value;
mod value;
mod values;

pub use answer_lines::{answer_line, cases_lines, explained_findings_lines, explained_line};
pub use folder_lines::{folder_answer_line, sum_line, unread_line};
pub use log_lines::log_line;
pub use page_lines::{explanation_line, yes_line};
pub use picture_values::picture_line;
pub use ring_lines::write_ring;
pub use run_features::RunFeatures;
pub use shown_answer::ShownAnswer;
