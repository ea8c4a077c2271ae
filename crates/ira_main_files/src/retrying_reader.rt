ghost use Rattle.std.specs.Prelude.{◌≡◌, ◌≢◌, IfErr};
ghost use Rattle.std.specs.Io.{ReadsAtMost};
ghost use Rattle.std.specs.Io.KnownBytes.{ReadConsumes};
ghost use Rattle.std.specs.IoError.{error_kind};
ghost use Rattle.std.specs.declared.io.ErrorKind.{ErrorKind};

use std::io::{self, ErrorKind, Read};

/// Reads from a reader, and once more where a signal interrupted the read: no byte was taken then.
#[derive(Drop)]
pub struct RetryingReader<I: Read> {
    reader: I,
}

impl<I: Read> RetryingReader<I> {
    /// Reads what this reader has left.
    pub fn new(reader: I) -> RetryingReader<I>
        ensures { result.reader ≡ reader }
    {
        RetryingReader { reader }
    }
}

impl<I: Read> Read for RetryingReader<I> {
    ghost remaining = { λ r. I.remaining r.reader };

    fn read(&mut self, buffer: &mut [u8]) -> io::Result<usize>
        ensures bound { ReadsAtMost result buffer.new }
        ensures bytes { ReadConsumes (I.remaining self.old.reader) (I.remaining self.new.reader) result buffer.new }
        ensures retried { IfErr result (λ error. error_kind error ≢ ErrorKind.Interrupted) }
    {
        for _ in 0..u64::MAX {
            match self.reader.read(buffer) {
                Err(error) if error.kind() == ErrorKind::Interrupted => {}
                given => return given,
            }
        }
        Err(io::Error::from(ErrorKind::TimedOut))
    }
}
