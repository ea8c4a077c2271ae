//! Texts of questions that are made to do harm.

use crate::question_samples::{HEAD, PAIRS_OF_THREE, assert_answer};
use crate::samples::text_of;
use ira_pred::AskFault;
use std::process::Abort;

/// Compares what reading the text after the head of a ring of two answers: these lines so often, and then the last
/// bytes.
fn assert_lines(
    rt: &(impl Abort + AllocGlobal),
    lines: &[u8],
    count: usize,
    last: &[u8],
    wanted: Result<usize, AskFault>,
) {
    assert_answer(rt, &text_of(rt, HEAD, lines, count, last), wanted);
}

#[test]
fn queues_of_a_question(rt: HostRuntime) {
    for len in 0..PAIRS_OF_THREE.len() {
        let wanted = if len < 16 {
            AskFault::Head
        } else {
            AskFault::Cut
        };
        assert_answer(&rt, &PAIRS_OF_THREE[..len], Err(wanted));
    }
}

#[test]
fn malicious_questions(rt: HostRuntime) {
    let twice = text_of(&rt, b"", PAIRS_OF_THREE, 2, b"");
    assert_answer(&rt, &twice, Err(AskFault::Trailing));
    let larger = b"irask 1\nnodes 256\ncase\n0: true\nend\n";
    assert_answer(&rt, larger, Err(AskFault::Head));
    for (lines, count, last, wanted) in [
        (
            b"case\n4294967296: true\n".as_slice(),
            1,
            b"end\n".as_slice(),
            Err(AskFault::Place(4)),
        ),
        (
            b"case\n00: true\n".as_slice(),
            1,
            b"end\n".as_slice(),
            Err(AskFault::Line(4)),
        ),
        (
            b"case\n0: true\n".as_slice(),
            32_385,
            b"end\n".as_slice(),
            Ok(32_385),
        ),
        (
            b"case\n0: true\n".as_slice(),
            32_385,
            b"case\n".as_slice(),
            Err(AskFault::Cases),
        ),
    ] {
        assert_lines(&rt, lines, count, last, wanted);
    }
}

#[test]
fn a_million_parentheses(rt: HostRuntime) {
    let text = text_of(
        &rt,
        b"irask 1\nnodes 2\ncase\n0: ",
        b"(",
        1_000_000,
        b"\nend\n",
    );
    assert_answer(&rt, &text, Err(AskFault::Depth(4)));
}

#[test]
fn a_question_too_long(rt: HostRuntime) {
    let left = 67_108_864 - HEAD.len();
    assert_lines(&rt, b"\n", left, b"", Err(AskFault::Line(3)));
    assert_lines(&rt, b"\n", left, b"\n", Err(AskFault::TooLong));
}
