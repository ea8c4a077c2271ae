//! The files of the system.

use crate::fakes::Memory;
use ira_event::write_bytes;
use ira_main_files::{FileShelf, Shelf, ShelfFault, TextBuffer, TextSource};
use std::alloc::{Allocator, Global};
use std::fs;
use std::process::Abort;
use std::rt::Files;
use test_refusing::each_growth_refused;

/// Writes a file whole.
fn write<A: Allocator + Clone>(
    shelf: &mut FileShelf<'_, impl Files, A>,
    name: &str,
    text: &[u8],
) -> Result<(), ShelfFault> {
    let mut file = shelf.create(name)?;
    write_bytes(text, &mut file)?;
    let file = shelf.close(file)?;
    shelf.keep(file)
}

/// Writes a file whole, and reads it back.
fn write_and_read<A: Allocator + Clone>(
    shelf: &mut FileShelf<'_, impl Files, A>,
    name: &str,
    text: &[u8],
    found: &mut TextBuffer<A>,
) -> Result<(), ShelfFault> {
    write(shelf, name, text)?;
    shelf.read(name, found)
}

#[test]
fn file_written_and_read(rt: HostRuntime) {
    let name = "file_written_and_read.log";
    let mut shelf = FileShelf::new(&rt, rt.alloc());
    let mut found = TextBuffer::new(rt.alloc());
    assert!(rt; shelf.read(name, &mut found) == Err(ShelfFault::NotFound));
    let texts: [&[u8]; 3] = [b"irlog 1\nnodes 2\n", b"", b"end 0\n"];
    for text in texts {
        let read = write_and_read(&mut shelf, name, text, &mut found);
        assert!(rt; read == Ok(()) && found.bytes() == text, "{read:?}");
    }
    assert!(rt; fs::remove_file(&rt, name).is_ok());
}

/// Texts longer than a buffer is, and than the room that a text gets at first; then one that is as short again.
#[test]
fn long_file_written_and_read(rt: HostRuntime) {
    let name = "long_file_written_and_read.log";
    let mut shelf = FileShelf::new(&rt, rt.alloc());
    let mut found = TextBuffer::new(rt.alloc());
    for (lines, bytes) in [(5_100, 66_300), (330_000, 4_290_000), (1, 13)] {
        let text = b"draw 1000000\n"
            .repeat(rt.alloc(), lines)
            .expect(&rt, "memory");
        let read = write_and_read(&mut shelf, name, &text, &mut found);
        let is_whole = text.len() == bytes && found.bytes() == text.as_slice();
        assert!(rt; read == Ok(()) && is_whole, "{read:?} of {bytes} bytes");
    }
    assert!(rt; fs::remove_file(&rt, name).is_ok());
}

/// Begins a file over another one, of this text, and lets it go before it is closed or, if so told, afterwards.
fn begin_over(
    shelf: &mut FileShelf<'_, impl Files, Global>,
    name: &str,
    old: &[u8],
    is_closed: bool,
) -> Result<(), ShelfFault> {
    write(shelf, name, old)?;
    let mut file = shelf.create(name)?;
    write_bytes(b"irlog 2\n", &mut file)?;
    if is_closed {
        let _written = shelf.close(file)?;
    }
    Ok(())
}

/// Where a new file is let go before it has its name, the old one is there, and nothing beside it. The folder is made.
#[test]
fn file_that_does_not_get_its_name(rt: HostRuntime) {
    let old: &[u8] = b"irlog 1\nnodes 2\n";
    let name = "not_named/0.log";
    let mut shelf = FileShelf::new(&rt, rt.alloc());
    let mut found = TextBuffer::new(rt.alloc());
    for is_closed in [false, true] {
        assert!(rt; begin_over(&mut shelf, name, old, is_closed).is_ok());
        assert!(rt; shelf.read(name, &mut found).is_ok() && found.bytes() == old);
    }
    assert!(rt; fs::remove_file(&rt, name).is_ok());
    // it has no other file
    assert!(rt; fs::remove_dir(&rt, "not_named").is_ok());
}

#[test]
fn files_that_cannot_be_used(rt: HostRuntime) {
    let mut shelf = FileShelf::new(&rt, rt.alloc());
    let mut found = TextBuffer::new(rt.alloc());
    assert!(rt; shelf.read(".", &mut found) == Err(ShelfFault::Device));
    for (name, fault) in [
        ("", ShelfFault::NotFound),
        ("/dev/null/0.log", ShelfFault::Device),
        (".", ShelfFault::Device),
        ("/dev/full", ShelfFault::Device),
    ] {
        assert!(rt; write(&mut shelf, name, b"end 0\n") == Err(fault), "{name}");
    }
}

/// Whether a file of this name, which has another text before, is written and read back with this memory. Where memory
/// runs out before it is made anew, it is as it was. `None` where neither is so.
fn kept(rt: &(impl AllocGlobal + Files), alloc: &Memory, name: &str) -> Option<bool> {
    let old: &[u8] = b"irlog 1\nnodes 2\n";
    let text: &[u8] = b"irlog 1\n";
    let mut found = TextBuffer::new(rt.alloc());
    write(&mut FileShelf::new(rt, rt.alloc()), name, old).ok()?;
    let written = write(&mut FileShelf::new(rt, alloc), name, text);
    FileShelf::new(rt, rt.alloc()).read(name, &mut found).ok()?;
    match written {
        Ok(()) if found.bytes() == text => Some(true),
        Err(ShelfFault::OutOfMemory) if found.bytes() == old => Some(false),
        _ => None,
    }
}

fn is_kept(rt: &(impl Abort + AllocGlobal + Files), alloc: &Memory, name: &str) -> bool {
    kept(rt, alloc, name).expect(rt, "the text, or that memory ran out")
}

#[test]
fn memory_refused_to_a_file(rt: HostRuntime) {
    let name = "memory_refused_to_a_file.log";
    let refused = each_growth_refused(
        rt.alloc(),
        &[name],
        |name, alloc| is_kept(&rt, &alloc, *name),
    );
    assert!(rt; refused.is_ok(), "{refused:?}");
    assert!(rt; fs::remove_file(&rt, name).is_ok());
}
