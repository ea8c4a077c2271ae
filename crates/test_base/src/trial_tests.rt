//! The trials themselves, and the memory that refuses.

use ira_event::write_bytes;
use std::alloc::Global;
use std::cell::Cell;
use test_refusing::{FailingSink, Refusing, Writer, each_byte_refused, each_growth_refused};

type Memory = Refusing<Global>;

/// Whether there is room for a number.
fn has_room(memory: &Memory) -> bool {
    match memory.clone() {
        Ok(alloc) => Vec::<u8, Memory>::with_capacity(alloc, 1).is_ok(),
        Err(_) => false,
    }
}

#[test]
fn one_growth_is_refused_and_all_are_counted(rt: HostRuntime) {
    let memory = Refusing::new(rt.alloc()).expect(&rt, "memory");
    memory.refuse(2);
    let has_room = [has_room(&memory), has_room(&memory), has_room(&memory)];
    assert!(rt; has_room == [true, false, true] && memory.asked() == 3);
}

/// What is wrong with a call.
#[derive(Drop)]
enum Flaw {
    AsksForNothing,
    /// It asks for room each time, and gives up this time also where there is some.
    GivesUpAt(u8),
}

/// Whether a call with this flaw answers, of which so many were made.
fn answers(flaw: &Flaw, alloc: &Memory, made: &Cell<u8>) -> bool {
    made.set(made.get().saturating_add(1));
    match flaw {
        Flaw::AsksForNothing => true,
        Flaw::GivesUpAt(time) => has_room(alloc) && made.get() != *time,
    }
}

/// What the trial says of a call with this flaw.
fn tried(heap: Global, flaw: Flaw) -> Result<u64, (usize, u64)> {
    let made = Cell::new(0);
    each_growth_refused(heap, &[flaw], |flaw, alloc| answers(flaw, &alloc, &made))
}

#[test]
fn a_flaw_is_seen(rt: HostRuntime) {
    // a call is made once with a refusal, then with ample memory, and then with none refused
    let found = [
        tried(rt.alloc(), Flaw::AsksForNothing),
        tried(rt.alloc(), Flaw::GivesUpAt(2)),
        tried(rt.alloc(), Flaw::GivesUpAt(3)),
        tried(rt.alloc(), Flaw::GivesUpAt(4)),
    ];
    assert!(rt; found == [Err((0, 1)), Err((0, 1)), Err((0, 2)), Ok(1)]);
}

/// What is wrong with a writer of a text.
#[derive(Drop)]
enum BadWriter {
    SaysNothing,
    WritesNothing,
}

impl Writer for BadWriter {
    fn is_refused(&self, sink: &mut FailingSink) -> bool {
        match self {
            BadWriter::SaysNothing => write_bytes(b"ab", sink).is_ok(),
            BadWriter::WritesNothing => true,
        }
    }
}

#[test]
fn a_wrong_text_is_seen(rt: HostRuntime) {
    let found = [
        each_byte_refused(rt.alloc(), &BadWriter::SaysNothing, b"ab"),
        each_byte_refused(rt.alloc(), &BadWriter::WritesNothing, b"ab"),
    ];
    assert!(rt; found == [Err(0), Err(1)], "{found:?}");
}
