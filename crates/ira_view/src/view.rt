use ira_audit::Answer;
use ira_view_page::Explanation;
use std::alloc::Allocator;

/// What is told of texts: their answer, and why it is so.
#[derive(Drop)]
pub struct View<A: Allocator> {
    pub answer: Answer,
    pub explanation: Explanation<A>,
}
