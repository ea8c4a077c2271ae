ghost use Rattle.std.specs.Prelude.{◌≡◌, []};
ghost use Rattle.ira_event.specs.Sink.{Wrote, passing_state};

use crate::sink::{Sink, SinkFault};
use crate::write::WriteFault;
use std::io::Write;
use std::marker::Model;

/// Hands on to a writer what it takes. It tells its bytes where the writer does. Where the writer is
/// buffered, `flush` is the last step: only then is it known that nothing was lost.
#[derive(Drop)]
pub struct ToWriter<W: Write> {
    writer: W,
    failures: u64,
}

impl<W: Write> Model for ToWriter<W> {
    ghost use Rattle.ira_event.specs.Sink.{Passing};

    ghost Value = { Passing W };

    ghost view = { λ s. record { writer = s.writer; failures = s.failures } };
}

impl<W: Write> ToWriter<W> {
    pub fn new(writer: W) -> ToWriter<W>
        ensures { result ≡ record { writer = writer; failures = 0 } }
    {
        ToWriter {
            writer,
            failures: 0,
        }
    }

    /// Flushes the writer. It takes no byte more, and a writer that can't be flushed is a failure of
    /// the sink.
    pub fn flush(&mut self) -> Result<(), WriteFault>
        ensures { Wrote result [] (passing_state W.contents self.old) (passing_state W.contents self.new) }
    {
        if self.writer.flush().is_err() {
            self.failures = self.failures.saturating_add(1);
            return Err(WriteFault);
        }
        Ok(())
    }
}

impl<W: Write> Sink for ToWriter<W> {
    ghost state = { passing_state W.contents };

    fn push(&mut self, bytes: &[u8]) -> Result<usize, SinkFault> {
        match self.writer.write(bytes) {
            Ok(n) => {
                if n == 0 && !bytes.is_empty() {
                    self.failures = self.failures.saturating_add(1);
                }
                Ok(n)
            }
            Err(_) => {
                self.failures = self.failures.saturating_add(1);
                Err(SinkFault)
            }
        }
    }
}
