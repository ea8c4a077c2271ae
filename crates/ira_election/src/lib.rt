//! Laws of the algorithm: no election stands still, and each ends with one leader and all else at rest.
#![tactic(auto)]

mod laws;

pub use laws::{
    draws_decide, half_of_the_draws_elect, leaders_end_elections, local_runs_have_an_order,
    no_ring_stands_still, only_contenders_lead, runs_go_on, tables_elect_leaders,
};
