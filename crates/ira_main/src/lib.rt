//! The program `ira` as a function of its words, its input, its files and its two output streams.
#![tactic(auto)]

mod answer_files;
mod answer_logs;
mod ask_files;
mod asked_run;
mod cert_file;
mod delivery;
mod draw_files;
mod file_fault;
mod folder_answer;
mod given;
mod guide;
mod judge_each;
mod judge_files;
mod judged_folder;
mod leaders_file;
mod left_files;
mod log_files;
mod mend_files;
mod overwriting;
mod program;
mod program_fault;
mod progress;
mod read_files;
mod show_command;
mod shown_name;
mod source_names;
mod system;
mod tell_unread;
mod tell_why;
mod text_file;
mod upgrade_files;
mod version;

pub use cert_file::keep_cert;
pub use file_fault::FileFault;
pub use program::{serve, serve_without_wait};
pub use program_fault::ProgramFault;
pub use progress::Progress;
pub use system::start;
