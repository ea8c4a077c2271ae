//! The states of one node along its log.
#![tactic(auto)]

mod laws;
mod replay_fault;
mod replay_log;
mod states;

pub use laws::{
    local_runs_go_on_alike, one_list_of_states, states_are_reached, upgrades_keep_states,
};
pub use replay_fault::ReplayFault;
pub use replay_log::replay;
pub use states::States;
