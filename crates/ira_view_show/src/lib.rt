//! What a ring looks like at a moment, for a person who asks what happened.
#![tactic(auto)]

mod cells;
mod change;
mod event_line;
mod event_lines;
mod heading;
mod leaders;
mod listed;
mod moment_page;
mod nodes;
mod own_receipt;
mod reasons;
mod rounds;
mod summary;
mod totals;
mod way;

pub use event_lines::show_events;
pub use leaders::{leader_missing, leads_differ};
pub use moment_page::show_moment;
pub use reasons::explain_leads;
pub use summary::print_run;
