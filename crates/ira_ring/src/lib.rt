//! Runs of a ring: what a run starts from and gives, the run with a thread for each node, the run on one
//! thread, the draws of the nodes, the collector of what they wrote, and the lines of their ends. Each part
//! stands in a crate of its own, so that the parts are proved side by side.
#![tactic(auto)]

mod leader;
mod seeded_ring;
mod sizes;

pub use ira_ring_alone::{run_alone, run_alone_seeded, setups_have_full_runs};
pub use ira_ring_setup::{
    Collector, NodeEnd, NodePart, Run, RunFault, Setup, draw_lists, full_runs_are_runs,
    full_runs_have_the_same_logs, full_runs_show_ends, logs_show_one_end, recordings_agree,
    write_ends,
};
pub use ira_ring_threads::{NodeWork, node_body, run_ring};
pub use leader::has_leader;
pub use seeded_ring::SeededRing;
pub use sizes::ring_size;
