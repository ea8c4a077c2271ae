ghost use Rattle.std.specs.Prelude.{◌≡◌, ◌<◌, false, length, is_err};
ghost use Rattle.std.specs.Io.{ReadsAtMost};
ghost use Rattle.std.specs.Io.KnownBytes.{ReadConsumes};
ghost use Rattle.ira_main_files.specs.CountingReader.{one_more, gives_none};

use std::io;
use std::io::Read;
use std::marker::Model;

/// Counts the reads that are made of a reader, and knows when the last one gave no byte: the reader
/// has ended then, or has failed, and isn't read again.
#[derive(Drop)]
pub struct CountingReader<I: Read> {
    reader: I,
    reads: u64,
    is_over: bool,
    has_failed: bool,
}

impl<I: Read> Model for CountingReader<I> {
    ghost use Rattle.ira_main_files.specs.CountingReader.{Reads};

    ghost Value = { Reads };

    ghost view = { λ s. record {
      left = I.remaining s.reader;
      reads = s.reads;
      is_over = s.is_over;
      has_failed = s.has_failed;
    } };
}

impl<I: Read> CountingReader<I> {
    /// A reader that wasn't read yet.
    pub fn new(reader: I) -> CountingReader<I>
        ensures { result
            ≡ record { left = I.remaining reader; reads = 0; is_over = false; has_failed = false } }
    {
        CountingReader {
            reader,
            reads: 0,
            is_over: false,
            has_failed: false,
        }
    }

    /// How many reads were made.
    pub fn reads(&self) -> u64
        ensures { result ≡ self.now.reads }
    {
        self.reads
    }

    /// Whether a read gave no byte: the reader has ended or failed.
    pub fn is_over(&self) -> bool
        ensures { result ≡ self.now.is_over }
    {
        self.is_over
    }

    /// Whether the last read failed.
    pub fn has_failed(&self) -> bool
        ensures { result ≡ self.now.has_failed }
    {
        self.has_failed
    }

    /// Reads once, into the front of the buffer. A failure is the end as well.
    pub fn read(&mut self, buffer: &mut [u8]) -> io::Result<usize>
        requires room { 0 < length buffer.old }
        requires open { self.old.is_over ≡ false }
        ensures bound { ReadsAtMost result buffer.new }
        ensures bytes { ReadConsumes self.old.left self.new.left result buffer.new }
        ensures count { self.new.reads ≡ one_more self.old.reads }
        ensures over { self.new.is_over ≡ gives_none result }
        ensures failed { self.new.has_failed ≡ is_err result }
    {
        self.reads = self.reads.saturating_add(1);
        let given = self.reader.read(buffer);
        self.is_over = !matches!(&given, Ok(1..));
        self.has_failed = given.is_err();
        given
    }
}
