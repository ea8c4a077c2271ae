//! Laws of the algorithm: at most one node leads.
#![tactic(auto)]

mod laws;

pub use laws::{
    leaders_by_example, no_run_has_two_leaders, one_leader_at_a_cut, one_leader_in_a_term,
    one_leader_of_version_1,
};
