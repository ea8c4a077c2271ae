//! Texts of questions, states to ask, and what reading a text answers.

use ira_event::MemorySink;
use ira_node::Phase;
use ira_pred::{AskFault, Question, read_question, write_question};
use std::alloc::Global;
use std::process::Abort;

/// The question of the pairs of three nodes, 95 bytes.
pub(crate) const PAIRS_OF_THREE: &[u8] =
    b"irask 1\nnodes 3\ncase\n0: leader\n1: leader\ncase\n0: leader\n2: leader\ncase\n1: leader\n2: leader\nend\n";

/// The head of a question for a ring of two.
pub(crate) const HEAD: &[u8] = b"irask 1\nnodes 2\n";

pub(crate) const CHOOSING: Phase = Phase::Choosing { round: 2 };

pub(crate) const ACTIVE: Phase = Phase::Active { round: 2, id: 3 };

pub(crate) const LEADER: Phase = Phase::Leader { round: 2, id: 3 };

pub(crate) const PHASES: [Phase; 5] = [CHOOSING, ACTIVE, Phase::Passive, LEADER, Phase::Yielding];

/// What reading the text answers: the number of its cases, or its fault.
fn answer(alloc: Global, text: &[u8]) -> Result<usize, AskFault> {
    Ok(read_question(alloc, text)?.cases().len())
}

pub(crate) fn assert_answer(
    rt: &(impl Abort + AllocGlobal),
    text: &[u8],
    wanted: Result<usize, AskFault>,
) {
    let text_len = text.len();
    assert_eq!(rt;
        answer(rt.alloc(), text),
        wanted,
        "a text of {text_len} bytes"
    );
}

/// Whether the question is written as this text.
pub(crate) fn is_written_as(alloc: Global, question: &Question<Global>, text: &[u8]) -> bool {
    let mut sink = MemorySink::new(alloc);
    write_question(question, &mut sink) == Ok(()) && sink.bytes() == text
}

/// Whether the text is read, and its question is written as this text.
pub(crate) fn is_read(alloc: Global, text: &[u8]) -> bool {
    match read_question(alloc, text) {
        Ok(question) => is_written_as(alloc, &question, text),
        Err(_) => false,
    }
}
