use crate::cut::Cut;
use crate::step_sink::StepSink;
use std::alloc::Allocator;

/// What is found of a case, whatever became of the steps.
#[derive(Drop)]
pub enum Decided<S: StepSink, A: Allocator> {
    /// No consistent cut meets it; the section of the steps that were taken, and of the node that is spent after them, shows
    /// why.
    Absent { steps: S, spent: u8 },
    /// Some consistent cut meets it; this is the least one.
    Present(Cut<A>),
}
