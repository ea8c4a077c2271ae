//! For tests: an allocator that refuses one growth, a sink that fails once, and trials that have each growth of calls
//! refused in turn, or each byte of a text.
#![tactic(auto)]

mod answer;
mod each_byte;
mod each_growth;
mod failing_sink;
mod refusing;

pub use answer::answered;
pub use each_byte::{Writer, each_byte_refused};
pub use each_growth::{each_growth_refused, has_answered};
pub use failing_sink::FailingSink;
pub use refusing::Refusing;
