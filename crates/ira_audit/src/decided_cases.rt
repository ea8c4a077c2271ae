ghost use Rattle.std.specs.Prelude.{◌≡◌};
ghost use Rattle.std.specs.List.{enumerate_from, flat_map};
ghost use Rattle.std.specs.Option.{option_map};
ghost use Rattle.ira_event.specs.Sink.{Wrote};
ghost use Rattle.ira_audit.specs.FindingsText.{decided_line};

use crate::findings_writer::write_decided;
use ira_elim::{Decided, StepCount};
use ira_event::{MemorySink, RingSize, Sink, WriteFault};
use std::alloc::Allocator;

/// What is found for the cases of a question about a ring of so many nodes. No section is kept: of a case that is absent
/// its steps are counted.
#[derive(Drop)]
pub struct DecidedCases<A: Allocator> {
    pub nodes: RingSize,
    pub cases: Vec<Decided<StepCount, A>, A>,
    /// Whether each case is absent.
    pub are_absent: bool,
    /// The text of the certificate that the sections make, where it was asked for, each case is absent, and the text is
    /// within the limits.
    pub certificate: Option<MemorySink<A>>,
}

impl<A: Allocator> DecidedCases<A> {
    /// The text of the certificate, where there is one.
    pub fn certificate_text(&self) -> Option<&[u8]>
        ensures { option_map (λ t. t.now) result ≡ option_map (λ t. t.bytes) self.now.certificate }
    {
        match &self.certificate {
            Some(text) => Some(text.bytes()),
            None => None,
        }
    }

    /// Writes a line for each case, as `write_findings` does.
    pub fn write<W: Sink>(&self, sink: &mut W) -> Result<(), WriteFault>
        ensures { Wrote result (flat_map decided_line (enumerate_from 0 self.now.cases.items))
            (W.state sink.old) (W.state sink.new) }
    {
        write_decided(&self.cases, sink)
    }
}
