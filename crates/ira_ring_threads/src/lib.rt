//! The run of a ring with a thread for each node.
#![tactic(auto)]

mod finished_node;
mod node_task;
mod node_thread;
mod node_work;
mod record_fault;
mod recorder;
mod ring_run;
mod room;
mod started_node;
mod task_promise;
mod threads;

pub use node_thread::node_body;
pub use node_work::NodeWork;
pub use ring_run::run_ring;
