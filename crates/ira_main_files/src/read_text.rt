ghost use Rattle.std.specs.Prelude.{◌≡◌, ◌≢◌, ◌+◌, ◌≤◌, ◌<◌, true, false, take, drop, length, IfOk, is_err, max};
ghost use Rattle.std.specs.Io.KnownBytes.{ReadConsumes};
ghost use Rattle.ira_main_files.specs.CountingReader.{one_more, gives_none};
ghost use Rattle.ira_main_files.specs.ReadText.{IsReadTo, IsReadOnce};

use crate::counting_reader::CountingReader;
use crate::shelf_fault::ShelfFault;
use ira_event::MAX_TEXT;
use std::alloc::Allocator;
use std::io;
use std::io::Read;

/// How many bytes longer a full buffer is made. They are zeroed before they are read over, and those after a text's
/// end for nothing.
const MORE_ROOM: usize = 65_536;

/// Room for as many bytes is asked for at first. Most texts fit, and a page that no byte touches costs nothing.
const FIRST_ROOM: usize = 4_194_304;

// One read into the buffer from a place on.
fn read_at<I: Read>(
    input: &mut CountingReader<I>,
    buffer: &mut [u8],
    at: usize,
) -> io::Result<usize>
    requires within { at < length buffer.old }
    requires open { input.old.is_over ≡ false }
    ensures front { take at buffer.new ≡ take at buffer.old }
    ensures bound { IfOk result (λ n. at + n ≤ length buffer.new) }
    ensures bytes { ReadConsumes input.old.left input.new.left result (drop at buffer.new) }
    ensures count { input.new.reads ≡ one_more input.old.reads }
    ensures over { input.new.is_over ≡ gives_none result }
    ensures failed { input.new.has_failed ≡ is_err result }
{
    input.read(&mut buffer[at..])
}

/// Reads once, after the part of the buffer that is filled.
fn read_after<A: Allocator, I: Read>(
    input: &mut CountingReader<I>,
    buffer: &mut Vec<u8, A>,
    filled: usize,
) -> Result<usize, ShelfFault>
    requires within { filled < length buffer.old.items }
    requires open { input.old.is_over ≡ false }
    ensures front { take filled buffer.new.items ≡ take filled buffer.old.items }
    ensures size { length buffer.new.items ≡ length buffer.old.items }
    ensures bound { IfOk result (λ n. filled + n ≤ length buffer.new.items) }
    ensures once { IfOk result (λ n. IsReadOnce input.old input.new (take n (drop filled buffer.new.items))) }
    ensures count { input.new.reads ≤ input.old.reads + 1 }
    ensures device { result ≡ Err ShelfFault.Device
        → (input.new.has_failed ≡ true) × (input.new.is_over ≡ true) }
    ensures found { result ≢ Err ShelfFault.NotFound }
{
    match read_at(input, buffer.as_mut_slice(), filled) {
        Ok(n) => Ok(n),
        Err(_) => Err(ShelfFault::Device),
    }
}

// Reads after the part of the buffer that is filled; a full buffer is made longer first.
fn read_more<A: Allocator, I: Read>(
    input: &mut CountingReader<I>,
    buffer: &mut Vec<u8, A>,
    filled: usize,
) -> Result<usize, ShelfFault>
    requires within { filled ≤ length buffer.old.items }
    requires short { filled ≤ MAX_TEXT }
    requires open { input.old.is_over ≡ false }
    ensures front { take filled buffer.new.items ≡ take filled buffer.old.items }
    ensures size { length buffer.new.items ≤ max (length buffer.old.items) (MAX_TEXT + 1) }
    ensures bound { IfOk result (λ n. filled + n ≤ length buffer.new.items) }
    ensures once { IfOk result (λ n. IsReadOnce input.old input.new (take n (drop filled buffer.new.items))) }
    ensures count { input.new.reads ≤ input.old.reads + 1 }
    ensures device { result ≡ Err ShelfFault.Device
        → (input.new.has_failed ≡ true) × (input.new.is_over ≡ true) }
    ensures found { result ≢ Err ShelfFault.NotFound }
{
    if filled == buffer.len() {
        let longer = (filled + MORE_ROOM).min(MAX_TEXT + 1);
        if buffer.resize(longer, 0).is_err() {
            return Err(ShelfFault::OutOfMemory);
        }
    }
    read_after(input, buffer, filled)
}

/// Reads the bytes that the input has left, to its end or to one more than `MAX_TEXT`, whichever comes first, into
/// the front of the buffer, which grows as they come. It gives their number.
pub(crate) fn read_text<A: Allocator, I: Read>(
    input: &mut CountingReader<I>,
    buffer: &mut Vec<u8, A>,
) -> Result<usize, ShelfFault>
    requires { length buffer.old.items ≤ MAX_TEXT + 1 }
    ensures text { IfOk result (λ filled.
        IsReadTo (MAX_TEXT + 1) input.old input.new (take filled buffer.new.items)) }
    ensures within { IfOk result (λ filled. filled ≤ length buffer.new.items) }
    ensures size { length buffer.new.items ≤ MAX_TEXT + 1 }
    ensures reads { input.new.reads ≤ input.old.reads + (MAX_TEXT + 1) }
    ensures device { result ≡ Err ShelfFault.Device
        → (input.new.has_failed ≡ true) × (input.new.is_over ≡ true) }
    ensures found { result ≢ Err ShelfFault.NotFound }
{
    if buffer.is_empty() && buffer.reserve(FIRST_ROOM).is_err() {
        return Err(ShelfFault::OutOfMemory);
    }
    let mut filled = 0;
    while !input.is_over() && filled <= MAX_TEXT {
        filled += read_more(input, buffer, filled)?;
    }
    Ok(filled)
}
