//! One node of an election as an automaton: the algorithm of Itai and Rodeh for anonymous rings, in
//! the form with round numbers (Symmetry breaking in distributed networks, Information and
//! Computation 88, 1990).
#![tactic(auto)]

mod handling;
mod laws;
mod node_state;
mod phase;
mod step_fault;
mod wanted;

pub use handling::Handling;
pub use laws::{
    a_step_or_a_fault, no_step_beside_a_fault, numbers_stay_recordable, one_fault, one_next_state,
    raised_hop_is_recordable, sendings_are_recordable, version_1_has_no_resets,
};
pub use node_state::NodeState;
pub use phase::Phase;
pub use step_fault::StepFault;
pub use wanted::Wanted;
