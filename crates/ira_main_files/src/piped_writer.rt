ghost use Rattle.std.specs.Prelude.{◌≡◌, ◌≢◌, IfErr, true};
ghost use Rattle.std.specs.Io.{WritesAtMost};
ghost use Rattle.std.specs.IoError.{error_kind};
ghost use Rattle.std.specs.declared.io.ErrorKind.{ErrorKind};

use std::io::{self, ErrorKind, Write};

/// Writes to a writer whose reader may go away, as that of a pipe does. From then on nothing is written, and nothing fails.
#[derive(Drop)]
pub struct PipedWriter<W: Write> {
    writer: W,
    has_reader: bool,
}

impl<W: Write> PipedWriter<W> {
    /// Writes to this writer.
    pub fn new(writer: W) -> PipedWriter<W>
        ensures { result ≡ record { writer = writer; has_reader = true } }
    {
        PipedWriter {
            writer,
            has_reader: true,
        }
    }
}

impl<W: Write> Write for PipedWriter<W> {
    fn write(&mut self, bytes: &[u8]) -> io::Result<usize>
        ensures bound { WritesAtMost result bytes.now }
        ensures reader { IfErr result (λ error. error_kind error ≢ ErrorKind.BrokenPipe) }
    {
        if !self.has_reader {
            return Ok(bytes.len());
        }
        match self.writer.write(bytes) {
            Err(error) if error.kind() == ErrorKind::BrokenPipe => {
                self.has_reader = false;
                Ok(bytes.len())
            }
            given => given,
        }
    }

    fn flush(&mut self) -> io::Result<()> {
        self.writer.flush()
    }
}
