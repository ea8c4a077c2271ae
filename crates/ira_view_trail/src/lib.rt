//! A column for each event of a ring's logs, the events in one order by columns, and the nodes' states on the way.
#![tactic(auto)]

mod clock;
mod columns;
mod columns_fault;
mod laws;
mod links;
mod order;
mod right;
mod state_step;
mod state_trail;
mod trail_step;

pub use columns::Columns;
pub use columns_fault::ColumnsFault;
pub use laws::{columns_rise, lines_are_cuts, trails_are_orders};
pub use state_step::StateStep;
pub use state_trail::StateTrail;
pub use trail_step::TrailStep;
