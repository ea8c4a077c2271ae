//! What a run of a ring starts from and what it gives: setups, their faults, the logs and ends of the nodes,
//! the collector of what they wrote, the draws of the nodes, the lines of their ends, and the laws of full runs.
#![tactic(auto)]

mod collector;
mod draws;
mod ends_writer;
mod laws;
mod node_end;
mod node_part;
mod run;
mod run_fault;
mod setup;
mod terms;

pub use collector::Collector;
pub use draws::draw_lists;
pub use ends_writer::write_ends;
pub use laws::{
    full_runs_are_busy, full_runs_are_runs, full_runs_elect_by_draws, full_runs_have_the_same_logs,
    full_runs_show_ends, logs_show_one_end, recordings_agree,
};
pub use node_end::NodeEnd;
pub use node_part::NodePart;
pub use run::Run;
pub use run_fault::RunFault;
pub use setup::Setup;
pub use terms::{is_last_leader, log_version};
