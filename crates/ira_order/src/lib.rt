//! The logs of a ring judged together: whether receipts match sendings, an order of all events, and which of
//! them happened before which.
#![tactic(auto)]

mod direct_dependencies;
mod event_at;
mod faulty_event;
mod happened_before;
mod laws;
mod links;
mod match_fault;
mod node_dependencies;
mod node_stamps;
mod order_fault;
mod order_prefix;
mod ordered;
mod receipt_numbers;
mod ring;
mod search;
mod stamps;
mod tally;

pub use direct_dependencies::DirectDependencies;
pub use event_at::EventAt;
pub use faulty_event::FaultyEvent;
pub use happened_before::HappenedBefore;
pub use laws::{
    counts_are_cuts, cuts_are_a_lattice, cuts_are_moments, events_have_counts, moments_are_cuts,
    orders_are_runs, orders_mean_events, refused_logs_have_no_run, runs_are_orders,
    upgrades_keep_cuts, upgrades_keep_orders,
};
pub use links::match_links;
pub use match_fault::MatchFault;
pub use order_fault::OrderFault;
pub use order_prefix::OrderPrefix;
pub use ordered::Ordered;
pub use ring::{predecessor, successor};
pub use search::{find_order, order};
pub use tally::Tally;
