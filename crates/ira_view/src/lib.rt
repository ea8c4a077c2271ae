//! From what was judged to what a person is told: the answer and a page after its line, or a ring at a moment, as a
//! page, as lines of JSON or as a picture.
#![tactic(auto)]

mod certified;
mod cut_fault_line;
mod draw_fault_line;
mod explain;
mod find_moment;
mod findings_view;
mod form;
mod has_name;
mod html;
mod leads;
mod mended_lines;
mod not_asked;
mod question;
mod ring_fault;
mod ring_view;
mod run_fault_line;
mod run_features;
mod shown_ring;
mod status;
mod taken;
mod upgraded_line;
mod view;
mod view_writer;

pub use certified::explain_certified;
pub use cut_fault_line::write_cut_fault;
pub use draw_fault_line::too_many_events;
pub use explain::{explain_text, explain_texts};
pub use findings_view::FindingsView;
pub use form::Form;
pub use html::{refused_html, refused_lines, ring_html};
pub use ira_view_explain_question::AskedFiles;
pub use leads::{differences, explain_differences, missing_leader, unfinished_election};
pub use mended_lines::write_mended;
pub use question::explain_findings;
pub use ring_fault::RingFault;
pub use ring_view::RingView;
pub use run_fault_line::refused_run;
pub use run_features::features_of_run;
pub use shown_ring::ShownRing;
pub use status::Status;
pub use taken::{judge_texts, take_texts};
pub use upgraded_line::upgraded_logs;
pub use view::View;
pub use view_writer::{
    write_answer_as, write_decided_as, write_findings_view_as, write_sum, write_view, write_view_as,
};
