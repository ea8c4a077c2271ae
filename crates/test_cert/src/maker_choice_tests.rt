//! Which steps the maker takes, where several are possible: the least spent node, else the least pair. A plain search over
//! tables that were worked out by hand takes the same.
ghost use Rattle.std.specs.Prelude.{◌≡◌};

use crate::found_tests::{is_absent_by, is_present_at};
use ira_cert::CertStep;
use ira_elim::decide;
use ira_event::Logs;
use ira_order::{Ordered, order};
use ira_pred::read_question;
use std::alloc::{AllocError, Global};
use std::process::Abort;
use test_fixtures::{LONE_INITIATOR, first_case, logs_of, lone_initiator_logs, step};

/// From this event of a node on, which is a receipt, so many events of each node happened before its next one, its own
/// aside.
type Receipt = (u32, &'static [u32]);

/// Three nodes that draw 1, and then 3, 2 and 1 in round 2.
const TIE_OF_THREE: [&[u8]; 3] = [
    b"irlog 1\nnodes 3\nplace 0\nstart initiator\n\
    draw 1\n\
    send 1 1 1 clean\n\
    recv 1 1 1 clean\n\
    send 1 1 2 dirty\n\
    recv 1 1 2 dirty\n\
    send 1 1 3 dirty\n\
    recv 1 1 3 dirty\n\
    draw 3\n\
    send 2 3 1 clean\n\
    recv 2 1 1 clean\n\
    recv 2 2 2 clean\n\
    recv 2 3 3 clean\n\
    end 12\n",
    b"irlog 1\nnodes 3\nplace 1\nstart initiator\n\
    draw 1\n\
    send 1 1 1 clean\n\
    recv 1 1 1 clean\n\
    send 1 1 2 dirty\n\
    recv 1 1 2 dirty\n\
    send 1 1 3 dirty\n\
    recv 1 1 3 dirty\n\
    draw 2\n\
    send 2 2 1 clean\n\
    recv 2 3 1 clean\n\
    send 2 3 2 clean\n\
    end 11\n",
    b"irlog 1\nnodes 3\nplace 2\nstart initiator\n\
    draw 1\n\
    send 1 1 1 clean\n\
    recv 1 1 1 clean\n\
    send 1 1 2 dirty\n\
    recv 1 1 2 dirty\n\
    send 1 1 3 dirty\n\
    recv 1 1 3 dirty\n\
    draw 1\n\
    send 2 1 1 clean\n\
    recv 2 2 1 clean\n\
    send 2 2 2 clean\n\
    recv 2 3 2 clean\n\
    send 2 3 3 clean\n\
    end 13\n",
];

/// What each of these three knows.
const KNOWN_IN_TIE: [&[Receipt]; 3] = [
    &[
        (3, &[3, 0, 2]),
        (5, &[5, 2, 4]),
        (7, &[7, 4, 6]),
        (10, &[10, 6, 9]),
        (11, &[11, 9, 11]),
        (12, &[12, 11, 13]),
    ],
    &[
        (3, &[2, 3, 0]),
        (5, &[4, 5, 2]),
        (7, &[6, 7, 4]),
        (10, &[9, 10, 6]),
    ],
    &[
        (3, &[0, 2, 3]),
        (5, &[2, 4, 5]),
        (7, &[4, 6, 7]),
        (10, &[6, 9, 10]),
        (12, &[9, 11, 12]),
    ],
];

/// What the nodes know where the message of the first one goes round a ring of three.
const KNOWN_IN_THREE: [&[Receipt]; 3] = [
    &[(3, &[3, 2, 2])],
    &[(1, &[2, 1, 0])],
    &[(1, &[2, 2, 1])],
];

/// The same in a ring of four.
const KNOWN_IN_FOUR: [&[Receipt]; 4] = [
    &[(3, &[3, 2, 2, 2])],
    &[(1, &[2, 1, 0, 0])],
    &[(1, &[2, 2, 1, 0])],
    &[(1, &[2, 2, 2, 1])],
];

/// How many events of a node the last of these receipts tells of that isn't after this position.
fn count_told(receipts: &[Receipt], position: u32, of: u8) -> u32 {
    let mut told = 0;
    for (event, counts) in receipts {
        if let Some(events) = counts.get(usize::from(of))
            && *event <= position
        {
            told = *events;
        }
    }
    told
}

/// How many events of a node happened before the next one of another node that has made so many.
fn count(known: &[&[Receipt]], node: u8, position: u32, of: u8) -> u32 {
    match known.get(usize::from(node)) {
        Some(receipts) => count_told(receipts, position, of),
        None => 0,
    }
}

/// A clause, and the positions at which it holds. Where there is no clause the node isn't asked.
#[derive(Clone, Copy)]
struct Sample {
    clause: &'static str,
    positions: &'static [u32],
}

/// A clause and its positions.
const fn holding(clause: &'static str, positions: &'static [u32]) -> Sample {
    Sample { clause, positions }
}

/// A node of a case, and the positions that are left of it.
#[derive(Clone, Copy)]
struct AskedNode {
    place: u8,
    left: &'static [u32],
}

/// The least node of which no position is left.
fn least_spent(asked: &[AskedNode]) -> Option<u8> {
    let spent = asked.iter().find(|node| node.left.is_empty())?;
    Some(spent.place)
}

/// The elimination of the least pair that allows one: the node's next event happened before the other one's.
fn least_elimination(known: &[&[Receipt]], asked: &[AskedNode]) -> Option<CertStep> {
    for node in asked {
        for other in asked {
            let pos = *node.left.first()?;
            let other_pos = *other.left.first()?;
            let known_of = count(known, other.place, other_pos, node.place);
            if node.place != other.place && known_of > pos {
                return Some(step(node.place, pos, other.place, other_pos));
            }
        }
    }
    None
}

/// The steps up to the first after which a node is spent or no pair allows one.
fn eliminations(
    alloc: Global,
    known: &[&[Receipt]],
    asked: &mut [AskedNode],
) -> Result<Vec<CertStep>, AllocError> {
    let mut steps = Vec::new(alloc);
    for _ in 0..100 {
        if least_spent(asked).is_some() {
            return Ok(steps);
        }
        let Some(next) = least_elimination(known, asked) else {
            return Ok(steps);
        };
        steps.push(next)?;
        for node in asked.iter_mut() {
            if let Some((_, rest)) = node.left.split_first()
                && node.place == next.node
            {
                node.left = rest;
            }
        }
    }
    Ok(steps)
}

/// The least cut that has the asked nodes at their first positions left.
fn least_cut(
    alloc: Global,
    known: &[&[Receipt]],
    asked: &[AskedNode],
    nodes: u8,
) -> Result<Vec<u32>, AllocError> {
    let mut cut = Vec::new(alloc);
    for place in 0..nodes {
        let mut greatest = 0;
        for node in asked {
            let first = node.left.first().copied().unwrap_or(0);
            let events = if node.place == place {
                first
            } else {
                count(known, node.place, first, place)
            };
            greatest = events.max(greatest);
        }
        cut.push(greatest)?;
    }
    Ok(cut)
}

/// The text of the question whether these nodes ever meet these clauses at once, and the nodes that it asks.
fn posed(
    alloc: Global,
    nodes: u8,
    samples: &[Sample],
) -> Result<(String, Vec<AskedNode>), AllocError> {
    let mut text = format!(in alloc; "irask 1\nnodes {nodes}\ncase\n")?;
    let mut asked = Vec::new(alloc);
    for (place, sample) in (0..nodes).zip(samples) {
        if !sample.clause.is_empty() {
            let line = format!(in alloc; "{place}: {}\n", sample.clause)?;
            text.push_str(&line)?;
            asked.push(AskedNode {
                place,
                left: sample.positions,
            })?;
        }
    }
    text.push_str("end\n")?;
    Ok((text, asked))
}

/// Whether the maker finds of this question's case what a plain search finds among the nodes that it asks.
fn is_as_searched(
    alloc: Global,
    logs: &Logs<Global>,
    ordered: &Ordered<'_, Global>,
    known: &[&[Receipt]],
    question: &[u8],
    asked: &mut [AskedNode],
) -> Option<bool>
    requires { ordered.now.logs ≡ logs.now }
{
    let question = read_question(alloc, question).ok()?;
    let case = first_case(&question, logs)?;
    let found = decide(alloc, logs, ordered, case).ok()?;
    let steps = eliminations(alloc, known, asked).ok()?;
    if let Some(spent) = least_spent(asked) {
        return Some(is_absent_by(&found, &steps, spent));
    }
    let cut = least_cut(alloc, known, asked, logs.size().get()).ok()?;
    Some(is_present_at(&found, &cut))
}

/// Compares what the maker finds with what a plain search finds.
fn assert_as_searched(
    rt: &(impl Abort + AllocGlobal),
    logs: &Logs<Global>,
    ordered: &Ordered<'_, Global>,
    known: &[&[Receipt]],
    samples: &[Sample],
)
    requires { ordered.now.logs ≡ logs.now }
{
    let alloc = rt.alloc();
    let (text, mut asked) = posed(alloc, logs.size().get(), samples).expect(rt, "memory");
    let is_found = is_as_searched(alloc, logs, ordered, known, text.as_bytes(), &mut asked);
    assert!(rt; is_found == Some(true), "{}", text.as_str());
}

#[test]
fn tie_of_three_as_searched(rt: HostRuntime) {
    let first = [
        holding("choosing", &[0, 7]),
        holding("owes", &[1, 3, 5, 8]),
        holding("leader", &[12]),
        holding("(not owes)", &[0, 2, 4, 6, 7, 9, 10, 11, 12]),
    ];
    let second = [
        holding("choosing", &[0, 7]),
        holding("owes", &[1, 3, 5, 8, 10]),
        holding("passive", &[10, 11]),
        holding("(active and round = 1)", &[1, 2, 3, 4, 5, 6]),
    ];
    let third = [
        holding("choosing", &[0, 7]),
        holding("owes", &[1, 3, 5, 8, 10, 12]),
        holding("passive", &[10, 11, 12, 13]),
        holding("id = 1", &[1, 2, 3, 4, 5, 6, 8, 9]),
    ];
    let logs = logs_of(rt.alloc(), &TIE_OF_THREE).expect(&rt, "the logs of one ring");
    let ordered = order(rt.alloc(), &logs).expect(&rt, "an order");
    for a in &first {
        for b in &second {
            for c in &third {
                assert_as_searched(&rt, &logs, &ordered, &KNOWN_IN_TIE, &[*a, *b, *c]);
            }
        }
    }
}

#[test]
fn lone_initiator_as_searched(rt: HostRuntime) {
    let first = [
        holding("(choosing or leader)", &[0, 3]),
        holding("active", &[1, 2]),
        holding("leader", &[3]),
    ];
    let others = [
        holding("", &[]),
        holding("owes", &[1]),
        holding("(not owes)", &[0, 2]),
    ];
    let logs = logs_of(rt.alloc(), &LONE_INITIATOR).expect(&rt, "the logs of one ring");
    let ordered = order(rt.alloc(), &logs).expect(&rt, "an order");
    for a in &first {
        for b in &others {
            for c in &others {
                assert_as_searched(&rt, &logs, &ordered, &KNOWN_IN_THREE, &[*a, *b, *c]);
            }
        }
    }
}

#[test]
fn lone_initiator_of_four_as_searched(rt: HostRuntime) {
    let first = [
        holding("(choosing or leader)", &[0, 3]),
        holding("leader", &[3]),
    ];
    let others = [holding("owes", &[1]), holding("(not owes)", &[0, 2])];
    let logs = lone_initiator_logs(rt.alloc(), 2, 4).expect(&rt, "the logs of one ring");
    let ordered = order(rt.alloc(), &logs).expect(&rt, "an order");
    for a in &first {
        for b in &others {
            for c in &others {
                for d in &others {
                    assert_as_searched(&rt, &logs, &ordered, &KNOWN_IN_FOUR, &[*a, *b, *c, *d]);
                }
            }
        }
    }
}
