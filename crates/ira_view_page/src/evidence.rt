use crate::front::Front;
use crate::head_row::HeadRow;
use crate::quoted_line::QuotedLine;
use crate::record_at::RecordAt;
use ira_cert_text::CertStep;
use ira_node::StepFault;
use std::alloc::Allocator;

/// What an answer rests on: one thing that a reader has to look at.
#[derive(Drop)]
pub enum Evidence<A: Allocator> {
    /// A text as a whole: the name of its file.
    Text(String<A>),
    Line(QuotedLine<A>),
    /// The head of a log.
    Head(HeadRow<A>),
    Sent(RecordAt<A>),
    Received(RecordAt<A>),
    /// The event without a step that the answer names.
    Faulty(RecordAt<A>),
    /// Another node's first event without a step.
    OtherFaulty {
        event: RecordAt<A>,
        fault: StepFault,
        /// Whether it happened before the one that the answer names.
        happened_before: bool,
    },
    /// The line of a certificate with a step that isn't sound.
    Step {
        file: String<A>,
        line: usize,
        step: CertStep,
    },
    /// The line of a certificate that says of a node that it is spent.
    Spent {
        file: String<A>,
        line: usize,
        node: u8,
    },
    Front(Front),
}
