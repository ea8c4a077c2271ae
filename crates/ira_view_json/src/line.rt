ghost use Rattle.std.specs.Prelude.{IfOk, string_bytes};
ghost use Rattle.std.specs.Str.{IsUtf8};
ghost use Rattle.ira_view_json.specs.Line.{IsLineOf, WroteLine};
ghost use Rattle.ira_view_json.specs.View.{view};

use crate::value::Value;
use ira_event::{OutOfMemory, Sink, write_bytes};
use ira_view_page::ShowFault;
use json::Writer;
use std::alloc::Allocator;

/// Room for most lines.
const LINE: usize = 256;

/// The line of a value, as bytes.
pub(crate) fn line_bytes<A: Allocator>(
    alloc: A,
    value: &Value<A>,
) -> Result<Vec<u8, A>, OutOfMemory>
    ensures line { IfOk result (λ line. IsLineOf (view value.now) line.items) }
    ensures utf8 { IfOk result (λ line. IsUtf8 line.items) }
{
    let mut writer = Writer::new(Vec::with_capacity(alloc, LINE)?);
    value.write(&mut writer)?;
    let mut line = writer.into_inner();
    line.push(b'\n')?;
    Ok(line)
}

/// The line of a value.
pub(crate) fn line_of<A: Allocator>(alloc: A, value: &Value<A>) -> Result<String<A>, OutOfMemory>
    ensures { IfOk result (λ text. IsLineOf (view value.now) (string_bytes text)) }
{
    match String::from_utf8(line_bytes(alloc, value)?) {
        Ok(line) => Ok(line),
        Err(_) => unreachable!(),
    }
}

/// Writes a value as a line. Where memory runs out nothing was written.
pub(crate) fn write_line<A: Allocator, W: Sink>(
    alloc: A,
    value: &Value<A>,
    sink: &mut W,
) -> Result<(), ShowFault>
    ensures { WroteLine result (view value.now) (W.state sink.old) (W.state sink.new) }
{
    let line = line_bytes(alloc, value)?;
    write_bytes(&line, sink)?;
    Ok(())
}
