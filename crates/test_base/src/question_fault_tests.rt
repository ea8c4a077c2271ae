//! Texts of questions that are read, and the faults of others.

use crate::question_samples::{HEAD, PHASES, assert_answer, is_read};
use crate::samples::{free, owing, text_of};
use ira_pred::{AskFault, read_question};
use std::alloc::Global;
use std::process::Abort;
use test_fixtures::clean;

/// The text of one case for node 0 of two: so many negations of `true`.
fn negations(rt: &(impl Abort + AllocGlobal), depth: usize) -> Vec<u8> {
    let front = text_of(rt, b"irask 1\nnodes 2\ncase\n0: ", b"(not ", depth, b"true");
    text_of(rt, &front, b")", depth, b"\nend\n")
}

/// Compares what reading these lines after the head answers. A text that is read is written as it was.
fn assert_lines(rt: &(impl Abort + AllocGlobal), lines: &[u8], wanted: Result<usize, AskFault>) {
    let text = text_of(rt, HEAD, lines, 1, b"");
    assert_answer(rt, &text, wanted);
    assert!(rt; wanted.is_err() || is_read(rt.alloc(), &text));
}

#[test]
fn question_faults(rt: HostRuntime) {
    for (lines, wanted) in [
        (b"case\n0: leader\nend\n".as_slice(), Ok(1)),
        (b"end\n".as_slice(), Err(AskFault::Cases)),
        (b"0: leader\nend\n".as_slice(), Err(AskFault::Line(3))),
        (b"case\nend\n".as_slice(), Err(AskFault::Empty(4))),
        (
            b"case\ncase\n0: true\nend\n".as_slice(),
            Err(AskFault::Empty(4)),
        ),
        (b"case\n2: true\nend\n".as_slice(), Err(AskFault::Place(4))),
        (
            b"case\n1: true\n0: true\nend\n".as_slice(),
            Err(AskFault::Place(5)),
        ),
        (
            b"case\n0: leader and owes\nend\n".as_slice(),
            Err(AskFault::Line(4)),
        ),
        (
            b"case\n0: (round > 1 and (not owes))\nend\n".as_slice(),
            Ok(1),
        ),
        (
            b"case\n0: round > 1000001\nend\n".as_slice(),
            Err(AskFault::Line(4)),
        ),
        (
            b"case\n0: (leader and term = 2)\n1: (yielding or term < 1000000)\nend\n".as_slice(),
            Ok(1),
        ),
        (
            b"case\n0: term > 1000001\nend\n".as_slice(),
            Err(AskFault::Line(4)),
        ),
        (b"case\n0: term 2\nend\n".as_slice(), Err(AskFault::Line(4))),
        (b"case\n0: yield\nend\n".as_slice(), Err(AskFault::Line(4))),
        (b"case\n0: true\n".as_slice(), Err(AskFault::Cut)),
        (
            b"case\n0: true\nend\nend\n".as_slice(),
            Err(AskFault::Trailing),
        ),
    ] {
        assert_lines(&rt, lines, wanted);
    }
}

/// Whether the text's first clause holds of each phase, whatever the node owes.
fn always_holds(alloc: Global, text: &[u8]) -> Result<bool, AskFault> {
    let question = read_question(alloc, text)?;
    let clause = question.cases()[0].clause(0);
    Ok(
        PHASES.iter().all(|phase| clause.holds(&free(*phase))
            && clause.holds(&owing(*phase, clean(2, 3, 1)))),
    )
}

#[test]
fn depths_of_a_clause(rt: HostRuntime) {
    assert_answer(&rt, &negations(&rt, 33), Err(AskFault::Depth(4)));
    assert!(rt; always_holds(rt.alloc(), &negations(&rt, 32)) == Ok(true));
}

/// Faults of one line: each line has that of its answer, and a later one of the list too.
#[test]
fn faults_of_one_line(rt: HostRuntime) {
    for (lines, wanted) in [
        (
            b"case\n0: true\ncase\nend\nend\n".as_slice(),
            AskFault::Empty(6),
        ),
        (
            b"case\n0: true\n0x: ((((\nend\n".as_slice(),
            AskFault::Line(5),
        ),
        (
            b"case\n0: true\n0: no clause\nend\n".as_slice(),
            AskFault::Place(5),
        ),
        (
            b"case\n0: (((((((((((((((((((((((((((((((((\nend\n".as_slice(),
            AskFault::Depth(4),
        ),
        (
            b"case\n0: no))((((((((((((((((((((((((((((((((((\nend\n".as_slice(),
            AskFault::Line(4),
        ),
        (b"case\n0: no clause".as_slice(), AskFault::Cut),
        (b"case\n7: true".as_slice(), AskFault::Cut),
        (b"case\nend".as_slice(), AskFault::Cut),
    ] {
        assert_lines(&rt, lines, Err(wanted));
    }
}
