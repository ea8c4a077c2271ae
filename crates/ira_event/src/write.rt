ghost use Rattle.std.specs.Prelude.{◌≡◌, ◌++◌, codes, decimal};
ghost use Rattle.ira_event.specs.Sink.{Wrote};

use crate::sink::Sink;
use itoa::Buffer;
use thiserror::Error;

/// A sink failed: it holds a first part of what was written.
#[derive(Clone, Copy, Debug, PartialEq, Eq, Error)]
#[error("the sink failed")]
pub struct WriteFault;

/// Writes all of these bytes.
pub fn write_bytes<W: Sink>(bytes: &[u8], sink: &mut W) -> Result<(), WriteFault>
    ensures { Wrote result bytes.now (W.state sink.old) (W.state sink.new) }
{
    let mut rest = bytes;
    while !rest.is_empty() {
        match sink.push(rest) {
            Ok(n) if 0 < n => {
                let (_, after) = rest.split_at(n);
                rest = after;
            }
            _ => return Err(WriteFault),
        }
    }
    Ok(())
}

/// Writes a number in plain decimal.
pub fn write_number<W: Sink>(n: u64, sink: &mut W) -> Result<(), WriteFault>
    ensures { Wrote result (decimal n) (W.state sink.old) (W.state sink.new) }
{
    write_bytes(Buffer::new().format(n).as_bytes(), sink)
}
