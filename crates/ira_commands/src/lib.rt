//! The commands of the auditor over what was judged and texts in memory: what is printed and written of each, as a value. The
//! program and the module for a web page are shells over it.
#![tactic(auto)]

mod answers;
mod ask;
mod asked_run;
mod begun;
mod check;
mod command_fault;
mod decide;
mod decided_line;
mod expected;
mod explain;
mod explain_expected;
mod explain_question;
mod files;
mod given_files;
mod json_lines;
mod laws;
mod logs;
mod logs_command;
mod mend;
mod output;
mod overview;
mod pairs;
mod reply;
mod ring_form;
mod ring_leaders;
mod ring_moment;
mod run;
mod show;
mod upgrade;

pub use answers::answer;
pub use ask::{ask_sentence, asked_text};
pub use asked_run::AskedRun;
pub use begun::take_left;
pub use command_fault::CommandFault;
pub use expected::{Expected, Unmet};
pub use explain::explain_one;
pub use files::Files;
pub use given_files::GivenFiles;
pub use json_lines::JsonLines;
pub use laws::{answers_have_one_reply, replies_have_one_status};
pub use logs_command::LogsCommand;
pub use mend::mend_left;
pub use output::Output;
pub use overview::{Overview, OverviewQuestion, answer_overview};
pub use pairs::ask_pairs;
pub use reply::Reply;
pub use ring_form::{LinesForm, RingForm};
pub use ring_leaders::RingLeaders;
pub use ring_moment::RingMoment;
pub use run::{run_asked, run_asked_on_threads};
pub use upgrade::upgrade_taken;
