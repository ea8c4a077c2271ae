//! How an election stands at a moment: it is over, or who can still lead, and what comes next.
#![tactic(auto)]

mod at_moment;
mod contenders;
mod due;
mod election;
mod laws;

pub use at_moment::{election_at, election_at_end};
pub use due::{Due, NodeDue};
pub use election::{Election, print_election, print_unfinished};
pub use laws::moments_go_on;
