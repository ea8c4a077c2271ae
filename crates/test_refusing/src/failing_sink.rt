use ira_event::{Sink, SinkFault};
use std::alloc::Global;

/// The most bytes that it takes at a time.
const PIECE: usize = 3;

/// A sink that keeps what it takes, in pieces, fails once after so many bytes, and then goes on.
#[derive(Drop)]
pub struct FailingSink {
    bytes: Vec<u8>,
    /// How many bytes it takes before it fails.
    left: usize,
    failures: u64,
}

impl FailingSink {
    /// A sink that has taken nothing, and fails after so many bytes.
    pub fn new(alloc: Global, left: usize) -> FailingSink {
        FailingSink {
            bytes: Vec::new(alloc),
            left,
            failures: 0,
        }
    }

    /// What was taken.
    pub fn bytes(&self) -> &[u8] {
        &self.bytes
    }
}

impl Sink for FailingSink {
    ghost use Rattle.std.specs.Prelude.{Some};

    ghost state = { λ s. record { taken = Some s.bytes.items; failures = s.failures } };

    fn push(&mut self, bytes: &[u8]) -> Result<usize, SinkFault> {
        let taken = bytes.len().min(PIECE).min(self.left);
        let is_due = taken == 0 && !bytes.is_empty();
        if is_due || self.bytes.extend_from_slice(&bytes[..taken]).is_err() {
            self.left = usize::MAX;
            self.failures = self.failures.saturating_add(1);
            return Err(SinkFault);
        }
        self.left -= taken;
        Ok(taken)
    }
}
