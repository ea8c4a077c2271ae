//! The maker: for a case either a section that shows that no consistent cut meets it, or the least consistent
//! cut that does.
#![tactic(auto)]

mod candidate_clock;
mod cut;
mod decided;
mod elimination;
mod found;
mod laws;
mod maker;
mod pair_set;
mod step_sink;

pub use cut::Cut;
pub use decided::Decided;
pub use elimination::decide_queues;
pub use found::Found;
pub use laws::a_case_is_absent_or_present;
pub use maker::{decide, decide_into, decide_profiled};
pub use step_sink::{StepCount, StepSink};
