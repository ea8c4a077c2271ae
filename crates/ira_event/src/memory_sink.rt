ghost use Rattle.std.specs.Prelude.{◌≡◌, []};

use crate::sink::{Sink, SinkFault};
use std::alloc::Allocator;
use std::marker::Model;

/// Keeps in memory what it takes. A growth that is refused is a failure and leaves the bytes as they
/// were.
#[derive(Drop)]
pub struct MemorySink<A: Allocator> {
    bytes: Vec<u8, A>,
    failures: u64,
}

impl<A: Allocator> Model for MemorySink<A> {
    ghost use Rattle.ira_event.specs.Sink.{Memory};

    ghost Value = { Memory };

    ghost view = { λ s. record { bytes = s.bytes.items; failures = s.failures } };
}

impl<A: Allocator> MemorySink<A> {
    /// A sink that has taken nothing. It takes no memory yet.
    pub fn new(alloc: A) -> MemorySink<A>
        ensures { result ≡ record { bytes = []; failures = 0 } }
    {
        MemorySink {
            bytes: Vec::new(alloc),
            failures: 0,
        }
    }

    /// What was taken.
    pub fn bytes(&self) -> &[u8]
        ensures { result.now ≡ self.now.bytes }
    {
        &self.bytes
    }
}

impl<A: Allocator> Sink for MemorySink<A> {
    ghost use Rattle.std.specs.Prelude.{Some};

    ghost state = { λ s. record { taken = Some s.bytes; failures = s.failures } };

    fn push(&mut self, bytes: &[u8]) -> Result<usize, SinkFault> {
        if self.bytes.extend_from_slice(bytes).is_err() {
            self.failures = self.failures.saturating_add(1);
            return Err(SinkFault);
        }
        Ok(bytes.len())
    }
}
