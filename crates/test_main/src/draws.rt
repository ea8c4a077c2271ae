//! The command `draw` where a growth is refused.

use crate::fakes::{Input, Memory, MemoryShelf, NEVER, served};
use ira_main_files::CountingReader;
use std::process::Abort;
use std::sync::Wait;
use std::thread::Threads;
use std::time::Clock;
use test_fixtures::{ELECTION_0, ELECTION_1, TWO_CASES};
use test_refusing::each_growth_refused;

const FILES: &[(&str, &[u8])] = &[
    ("0", ELECTION_0),
    ("1", ELECTION_1),
    ("two", TWO_CASES),
    (
        "wide",
        b"irlog 1\nnodes 2\nplace 0\nstart initiator\ndraw 3\nend 1\n",
    ),
    ("none", b"irlog 1\nnodes 2\nplace 1\nstart passive\nend 0\n"),
];

/// Whether the picture is kept with this memory, or memory runs out before anything is printed.
fn draws_or_gives_up<R>(rt: &R, words: &[&str], alloc: Memory) -> bool
where
    R: AllocGlobal + Threads + Wait + Clock + Sync,
{
    let mut shelf = MemoryShelf::new(rt.alloc(), FILES);
    let mut input = CountingReader::new(Input::empty());
    let found = served(rt, alloc, words, &mut shelf, &mut input, [NEVER, NEVER]);
    match found.status {
        0 | 1 => shelf.has_drawn("p", &[]) && !found.out.bytes().is_empty(),
        status => status == 3 && shelf.has_written(&[]) && found.out.bytes().is_empty(),
    }
}

#[test]
fn each_growth_of_a_picture_is_refused(rt: HostRuntime) {
    let calls = [
        ["draw", "--out=p", "--question=two", "0", "1"],
        ["draw", "--out=p", "--at=0,0", "wide", "none"],
    ];
    let refused = each_growth_refused(rt.alloc(), &calls, |words, alloc| {
        draws_or_gives_up(&rt, words, alloc)
    });
    assert!(rt; refused.is_ok(), "{refused:?}");
}
