//! The run of a ring on one thread.
#![tactic(auto)]

mod laws;
mod lone_node;
mod lone_ring;
mod lone_run;
mod seeded_run;

pub use laws::setups_have_full_runs;
pub use lone_run::run_alone;
pub use seeded_run::run_alone_seeded;
