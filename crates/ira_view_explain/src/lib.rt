//! Why an answer is as it is: the lines that follow an answer for a person who asks.
#![tactic(auto)]

mod carets;
mod circle_finding;
mod exchange_table;
mod explain;
mod faulty_link;
mod field;
mod head_line;
mod heads_finding;
mod heads_hint;
mod line_form;
mod line_slip;
mod line_stop;
mod link_block;
mod link_hint;
mod link_search;
mod load_differences;
mod numbered;
mod other_faults;
mod place_list;
mod refused_finding;
mod reordering;
mod ring_files;
mod ring_hint;
mod ring_search;
mod steps_finding;
mod stop_hint;
mod stopped;
mod stopped_log;
mod text_finding;
mod text_hint;

pub use explain::{explain_log, explain_logs};
