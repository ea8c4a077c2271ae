//! Sentences and the questions that they stand for.

use ira_ask::{SentenceFault, SentencePart, ask};
use ira_event::RingSize;
use std::alloc::Global;

const OF_TWO: &[u8] =
    b"irask 1\nnodes 2\ncase\n0: leader\n1: choosing\ncase\n0: choosing\n1: leader\nend\n";

const ALIKE: &[u8] =
    b"irask 1\nnodes 3\ncase\n0: (owes and active)\n1: (owes and active)\n2: (id = 3 and active)\n\
    case\n0: (owes and active)\n1: (id = 3 and active)\n2: (owes and active)\n\
    case\n0: (id = 3 and active)\n1: (owes and active)\n2: (owes and active)\nend\n";

const OF_ONE: &[u8] = b"irask 1\nnodes 2\ncase\n0: (not leader)\ncase\n1: (not leader)\nend\n";

const OF_ALL: &[u8] = b"irask 1\nnodes 2\ncase\n0: term > 1\n1: term > 1\nend\n";

const OF_NODE: &[u8] = b"irask 1\nnodes 3\ncase\n2: (not leader)\nend\n";

const AFTER_ANY: Result<&[u8], SentenceFault> = Err(SentenceFault::NoPart(Some(SentencePart::Any)));

const NO_CLAUSE_OF_ANY: Result<&[u8], SentenceFault> = Err(SentenceFault::NoClause(
    SentencePart::Any,
));

/// A ring's size, a sentence, and its question or why there is none.
const ROWS: &[(u8, &[u8], Result<&[u8], SentenceFault>)] = &[
    (2, b"any leader, other choosing", Ok(OF_TWO)),
    (
        3,
        b"any owes, other owes, each other id = 3, all active",
        Ok(ALIKE),
    ),
    (2, b"any (not leader)", Ok(OF_ONE)),
    (2, b"all term > 1", Ok(OF_ALL)),
    (3, b"node 2 (not leader)", Ok(OF_NODE)),
    (2, b"node 2 leader", Err(SentenceFault::NoPlace)),
    (2, b"node 4294967296 leader", Err(SentenceFault::NoPlace)),
    (2, b"node 01 leader", Err(SentenceFault::NoNode)),
    (2, b"node 1", Err(SentenceFault::NoNode)),
    (2, b"node 1 not leader", Err(SentenceFault::NoNode)),
    (2, b"node 1 leader, all true", Err(SentenceFault::NoNode)),
    (2, b"nodes leader", Err(SentenceFault::NoPart(None))),
    (2, b"", Err(SentenceFault::NoPart(None))),
    (2, b"other leader", Err(SentenceFault::NoPart(None))),
    (2, b"anyone leader", Err(SentenceFault::NoPart(None))),
    (2, b"any leader, ", AFTER_ANY),
    (2, b"any leader, choosing", AFTER_ANY),
    (2, b"any leader, any leader", AFTER_ANY),
    (
        2,
        b"all leader, any leader",
        Err(SentenceFault::NoPart(Some(SentencePart::All))),
    ),
    (2, b"any ", NO_CLAUSE_OF_ANY),
    (2, b"any not leader", NO_CLAUSE_OF_ANY),
    (2, b"any leader,other choosing", NO_CLAUSE_OF_ANY),
    (2, b"any leader\n1: leader", NO_CLAUSE_OF_ANY),
    (
        2,
        b"any leader, each other not leader, all true",
        Err(SentenceFault::NoClause(SentencePart::EachOther)),
    ),
    (
        181,
        b"any leader, other owes",
        Err(SentenceFault::ManyCases),
    ),
];

/// Whether that comes of the sentence.
fn comes_of(
    alloc: Global,
    nodes: u8,
    sentence: &[u8],
    wanted: Result<&[u8], SentenceFault>,
) -> bool {
    let Some(nodes) = RingSize::new(nodes) else {
        return false;
    };
    match (ask(alloc, nodes, sentence), wanted) {
        (Ok(text), Ok(question)) => text.as_slice() == question,
        (Err(fault), Err(why)) => fault == why,
        _ => false,
    }
}

#[test]
fn sentences(rt: HostRuntime) {
    for (nodes, sentence, wanted) in ROWS {
        assert!(rt;
            comes_of(rt.alloc(), *nodes, sentence, *wanted),
            "{sentence:?}"
        );
    }
}
