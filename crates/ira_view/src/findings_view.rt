use ira_audit::Findings;
use ira_view_page::Explanation;
use std::alloc::Allocator;

/// What is told of texts and a question: what is found for it, and why it is so.
#[derive(Drop)]
pub struct FindingsView<A: Allocator> {
    pub findings: Findings<A>,
    pub explanation: Explanation<A>,
}
