use crate::failing_sink::FailingSink;
use std::alloc::Global;

/// What writes a text.
pub trait Writer {
    /// Writes the text to a sink that fails, and answers whether it says that it can't.
    fn is_refused(&self, sink: &mut FailingSink) -> bool;
}

/// Whether the text, written to a sink that fails after each of its bytes in turn, leaves those before there. Gives the
/// first byte after which it doesn't.
pub fn each_byte_refused<W: Writer>(alloc: Global, writer: &W, text: &[u8]) -> Result<(), usize> {
    for k in 0..text.len() {
        let mut sink = FailingSink::new(alloc, k);
        if !writer.is_refused(&mut sink) || sink.bytes() != &text[..k] {
            return Err(k);
        }
    }
    Ok(())
}
