//! Each step by which a file is written is refused in turn: the files that were there are as they were.

use crate::fakes::{Input, MemoryShelf, NEVER, served_amply};
use ira_main_files::CountingReader;
use std::process::Abort;
use std::sync::Wait;
use std::thread::Threads;
use std::time::Clock;
use test_fixtures::{ELECTION_0, ELECTION_1, LEADER_AND_ACTIVE};

const FILES: &[(&str, &[u8])] = &[
    ("d/0.log", ELECTION_0),
    ("d/1.log", ELECTION_1),
    ("0.log", ELECTION_0),
    ("1.log", ELECTION_1),
    ("q", LEADER_AND_ACTIVE),
];

const CALLS: &[&[&str]] = &[
    &["run", "--nodes=2", "--seed=7", "--out=d"],
    &["run", "--nodes=2", "--seed=7", "--out=d", "--alone"],
    &["upgrade", "--out=d", "--dir=d"],
    &["mend", "--out=d", "0.log", "1.log"],
    &["decide", "--question=q", "--out=c", "0.log", "1.log"],
    &["draw", "--out=p.svg", "0.log", "1.log"],
    &["draw", "--out=p.html", "0.log", "1.log"],
];

/// Whether a call is told that a file can't be written, where the step after so many is refused. `None` where it is told
/// otherwise, or a file isn't as it was.
fn is_refused<R>(rt: &R, words: &[&str], steps: u64) -> Option<bool>
where
    R: Abort + AllocGlobal + Threads + Wait + Clock + Sync,
{
    let mut shelf = MemoryShelf::refusing(rt.alloc(), FILES, steps);
    let mut input = CountingReader::new(Input::empty());
    let found = served_amply(rt, words, &mut shelf, &mut input, [NEVER, NEVER]);
    let is_told = found.err.bytes().starts_with(b"ira: cannot write ");
    match found.status {
        0 => Some(false),
        2 => (is_told && shelf.has_kept_files()).then_some(true),
        _ => None,
    }
}

/// How many steps of a call were refused; none where a refused one was told otherwise, or changed a file.
fn refused_steps<R>(rt: &R, words: &[&str]) -> Option<u64>
where
    R: Abort + AllocGlobal + Threads + Wait + Clock + Sync,
{
    for steps in 0..10_000 {
        if !is_refused(rt, words, steps)? {
            return Some(steps);
        }
    }
    None
}

#[test]
fn each_step_of_a_write_is_refused(rt: HostRuntime) {
    for words in CALLS {
        let steps = refused_steps(&rt, words);
        // a file is made, takes its text, is closed and gets its name
        assert!(rt; matches!(steps, Some(4..)), "{steps:?}");
    }
}
