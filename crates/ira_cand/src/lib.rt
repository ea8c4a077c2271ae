//! The positions of a log at which the node's state passes a test, one after the other.
#![tactic(auto)]

mod ahead;
mod find_candidates;
mod holding;
mod laws;
mod local_test;
mod phase_span;
mod profile;
mod stage;

pub use ahead::Ahead;
pub use find_candidates::{candidates, table};
pub use holding::Holding;
pub use laws::one_list_of_candidates;
pub use local_test::LocalTest;
pub use profile::Profile;
