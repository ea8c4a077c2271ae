ghost use Rattle.std.specs.Prelude.{◌≡◌};
ghost use Rattle.std.specs.Io.KnownBytes.{WriteAppends};
ghost use Rattle.std.specs.Io.{WritesAtMost};
ghost use Rattle.ira_event.specs.Sink.{SinkState, failures_after};

use thiserror::Error;

/// A sink took nothing of what was pushed to it.
#[derive(Clone, Copy, Debug, PartialEq, Eq, Error)]
#[error("the sink failed")]
pub struct SinkFault;

/// What takes bytes, and counts how often it failed.
pub trait Sink {
    // the bytes taken so far, where the sink tells them, and how often it has failed
    ghost state: { Self → SinkState };

    /// Takes the first bytes of these and answers how many. `Ok(0)` for some bytes and `Err` take
    /// nothing, and are one failure.
    fn push(&mut self, bytes: &[u8]) -> Result<usize, SinkFault>
        ensures bound { WritesAtMost result bytes.now }
        ensures bytes { WriteAppends (state self.old).taken (state self.new).taken result bytes.now }
        ensures failures { (state self.new).failures
            ≡ failures_after result bytes.now (state self.old).failures };
}
