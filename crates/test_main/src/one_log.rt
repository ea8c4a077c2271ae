//! The program without words: one log on its input.

use crate::fakes::{Input, assert_served};
use ira_main_files::CountingReader;
use std::alloc::Global;
use std::process::Abort;
use std::sync::Wait;
use std::test::Fail;
use std::thread::Threads;
use std::time::Clock;
use test_fixtures::SECOND_TERM;

const EMPTY_HEAD: &str = "irlog 1\nnodes 2\nplace 0\nstart initiator\n";

const ELECTED: &str = "irlog 1\nnodes 2\nplace 0\nstart initiator\ndraw 2\nsend 1 2 1 clean\n\
                       recv 1 1 1 clean\nrecv 1 2 2 clean\n";

/// Judges this text with so many reads.
fn assert_read(
    rt: &(impl Abort + AllocGlobal + Threads + Wait + Clock + Sync),
    text: &[u8],
    line: &str,
    reads: u64,
) {
    let status = if line == "yes\n" { 0 } else { 1 };
    let mut input = CountingReader::new(Input::new(text));
    assert_served(rt, &[], &mut input, status, line, "");
    assert!(rt; input.reads() == reads && !input.has_failed());
}

/// Judges the text that these parts make.
fn assert_judged(
    rt: &(impl Abort + AllocGlobal + Threads + Wait + Clock + Sync),
    [first, second]: [&str; 2],
    line: &str,
) {
    let text = format!(in rt.alloc(); "{first}{second}").expect(rt, "memory");
    assert_read(rt, text.as_bytes(), line, 2);
}

#[test]
fn first_words_of_the_program(rt: HostRuntime) {
    assert_judged(&rt, [ELECTED, "end 4\n"], "yes\n");
    let line = "no: node 0: event 1: draw range\n";
    assert_judged(&rt, [EMPTY_HEAD, "draw 3\nend 1\n"], line);
    assert_judged(&rt, [EMPTY_HEAD, "draw 2\nend 1\n"], "yes\n");
}

#[test]
fn endings_of_a_log_text(rt: HostRuntime) {
    assert_judged(&rt, [ELECTED, ""], "no: log 0: cut\n");
    assert_judged(&rt, [ELECTED, "end 3\n"], "no: log 0: count\n");
    assert_judged(&rt, [ELECTED, "end 4\nx"], "no: log 0: trailing\n");
    assert_judged(&rt, [ELECTED, "end 3\nx"], "no: log 0: count\n");
}

#[test]
fn log_text_table(rt: HostRuntime) {
    for text in [
        "irlog 3\nnodes 2\nplace 0\nstart initiator\nend 0\n",
        "irlog 1\nnodes 1\nplace 0\nstart initiator\nend 0\n",
        "irlog 1\nnodes 65\nplace 0\nstart initiator\nend 0\n",
        "irlog 2\nnodes 256\nplace 0\nstart initiator\nend 0\n",
        "irlog 1\nnodes 2\nplace 2\nstart initiator\nend 0\n",
    ] {
        assert_judged(&rt, [text, ""], "no: log 0: head\n");
    }
    for (ending, line) in [
        ("draw 01\nend 0\n", "no: log 0: line 5\n"),
        ("draw 1000001\nend 0\n", "no: log 0: range 5\n"),
        ("draw 0\nend 0\n", "no: log 0: range 5\n"),
        ("draw 1000000\nend 1\n", "no: node 0: event 1: draw range\n"),
        ("recv 0 1 1 clean\nend 0\n", "no: log 0: range 5\n"),
        ("recv 1 1 1 Clean\nend 0\n", "no: log 0: line 5\n"),
        ("end 0\r\n", "no: log 0: line 5\n"),
        ("yield\nend 1\n", "no: log 0: line 5\n"),
        ("end 0", "no: log 0: cut\n"),
    ] {
        assert_judged(&rt, [EMPTY_HEAD, ending], line);
    }
    assert_judged(&rt, [EMPTY_HEAD, "end 0\n"], "yes\n");
}

#[test]
fn second_term(rt: HostRuntime) {
    assert_read(&rt, SECOND_TERM[0], "yes\n", 2);
}

#[test]
fn no_bytes(rt: HostRuntime) {
    let mut input = CountingReader::new(Input::empty());
    assert_served(&rt, &[], &mut input, 1, "no: log 0: head\n", "");
    assert_eq!(rt; input.reads(), 1);
}

#[test]
fn reader_fails_in_mid_text(rt: HostRuntime) {
    let mut input = CountingReader::new(Input::failing(EMPTY_HEAD.as_bytes()));
    assert_served(&rt, &[], &mut input, 2, "", "ira: cannot read -\n");
    assert_eq!(rt; input.reads(), 21);
    assert!(rt; input.has_failed());
}

/// A log of 20,000 lines, of which this is the first, with this end.
fn long_text(alloc: Global, first: &str, end: &str) -> Result<Vec<u8>, Fail> {
    let mut text = EMPTY_HEAD.as_bytes().to_vec(alloc)?;
    text.extend_from_slice(first.as_bytes())?;
    for _ in 1..20_000 {
        text.extend_from_slice(b"draw 1\n")?;
    }
    text.extend_from_slice(end.as_bytes())?;
    Ok(text)
}

#[test]
fn input_of_several_reads(rt: HostRuntime) -> Result<(), Fail> {
    for (first, end, line) in [
        ("draw 1\n", "", "no: log 0: cut\n"),
        ("draw 1\n", "end 19999\n", "no: log 0: count\n"),
        ("draw 1\n", "end 20000\nx", "no: log 0: trailing\n"),
        ("draw 1\n", "end 20000\n", "no: node 0: event 2: owes\n"),
        ("draw x\n", "end 20000\n", "no: log 0: line 5\n"),
    ] {
        let text = long_text(rt.alloc(), first, end)?;
        assert_read(&rt, &text, line, 4);
    }
    Ok(())
}
