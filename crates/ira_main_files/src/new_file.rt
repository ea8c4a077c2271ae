use crate::draft::Draft;
use ira_event::{Sink, SinkFault, ToWriter, WriteFault};
use std::alloc::Allocator;
use std::fs::Files;
use std::io::BufWriter;

/// A file of the system that is being written, through a buffer: beside the one whose name it is to get, or, if that is a
/// device or a pipe, as it is.
#[derive(Drop)]
pub struct NewFile<'a, R: Files, A: Allocator> {
    writer: ToWriter<BufWriter<R::File, A>>,
    draft: Option<Draft<'a, R, A>>,
}

impl<'a, R: Files, A: Allocator> NewFile<'a, R, A> {
    pub(crate) fn new(
        writer: BufWriter<R::File, A>,
        draft: Option<Draft<'a, R, A>>,
    ) -> NewFile<'a, R, A> {
        NewFile {
            writer: ToWriter::new(writer),
            draft,
        }
    }

    /// Writes what the buffer still holds.
    pub(crate) fn flush(mut self) -> Result<Option<Draft<'a, R, A>>, WriteFault> {
        self.writer.flush()?;
        Ok(self.draft)
    }
}

impl<R: Files, A: Allocator> Sink for NewFile<'_, R, A> {
    ghost use Rattle.std.specs.Prelude.{None};

    // what the system does with the bytes isn't said
    ghost state = { λ file. record { taken = None; failures = file.writer.failures } };

    fn push(&mut self, bytes: &[u8]) -> Result<usize, SinkFault> {
        self.writer.push(bytes)
    }
}
