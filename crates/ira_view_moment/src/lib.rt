//! A ring at a moment: the state of each node at a consistent cut of its logs, and the loads on the links.
#![tactic(auto)]

mod chosen_moment;
mod cut_fault;
mod cuts;
mod moment;
mod node_progress;
mod rounds;
mod totals;

pub use chosen_moment::ChosenMoment;
pub use cut_fault::CutFault;
pub use cuts::{check_cut, cut_at_end};
pub use moment::Moment;
pub use node_progress::NodeProgress;
pub use rounds::{Round, Rounds};
pub use totals::Totals;
