ghost use Rattle.std.specs.Prelude.{◌<◌, All, IfSome, length};

use ira_cert_text::CertStep;
use ira_event::{Logs, read_log};
use ira_pred::{Case, Question};
use std::alloc::Allocator;

/// An election of two nodes that both initiate.
pub const ELECTION: [&[u8]; 2] = [ELECTION_0, ELECTION_1];

/// The text of node 0 of `ELECTION`.
pub const ELECTION_0: &[u8] = b"irlog 1\nnodes 2\nplace 0\nstart initiator\n\
    draw 2\n\
    send 1 2 1 clean\n\
    recv 1 1 1 clean\n\
    recv 1 2 2 clean\n\
    end 4\n";

/// The text of node 1 of `ELECTION`.
pub const ELECTION_1: &[u8] = b"irlog 1\nnodes 2\nplace 1\nstart initiator\n\
    draw 1\n\
    send 1 1 1 clean\n\
    recv 1 2 1 clean\n\
    send 1 2 2 clean\n\
    end 4\n";

/// An election of two nodes that draw the same ID first.
pub const TIE: [&[u8]; 2] = [
    b"irlog 1\nnodes 2\nplace 0\nstart initiator\n\
    draw 1\n\
    send 1 1 1 clean\n\
    recv 1 1 1 clean\n\
    send 1 1 2 dirty\n\
    recv 1 1 2 dirty\n\
    draw 2\n\
    send 2 2 1 clean\n\
    recv 2 1 1 clean\n\
    recv 2 2 2 clean\n\
    end 9\n",
    b"irlog 1\nnodes 2\nplace 1\nstart initiator\n\
    draw 1\n\
    send 1 1 1 clean\n\
    recv 1 1 1 clean\n\
    send 1 1 2 dirty\n\
    recv 1 1 2 dirty\n\
    draw 1\n\
    send 2 1 1 clean\n\
    recv 2 2 1 clean\n\
    send 2 2 2 clean\n\
    end 9\n",
];

/// An election of three nodes of which the first alone initiates.
pub const LONE_INITIATOR: [&[u8]; 3] = [
    b"irlog 1\nnodes 3\nplace 0\nstart initiator\n\
    draw 1\n\
    send 1 1 1 clean\n\
    recv 1 1 3 clean\n\
    end 3\n",
    b"irlog 1\nnodes 3\nplace 1\nstart passive\n\
    recv 1 1 1 clean\n\
    send 1 1 2 clean\n\
    end 2\n",
    b"irlog 1\nnodes 3\nplace 2\nstart passive\n\
    recv 1 1 2 clean\n\
    send 1 1 3 clean\n\
    end 2\n",
];

/// An election of two nodes as `ELECTION`, whose leader yields, and the election of the second term, which node 1 wins.
pub const SECOND_TERM: [&[u8]; 2] = [
    b"irlog 2\nnodes 2\nplace 0\nstart initiator\n\
    draw 2\n\
    send 1 2 1 clean\n\
    recv 1 1 1 clean\n\
    recv 1 2 2 clean\n\
    yield\n\
    send reset 1\n\
    recv reset 2\n\
    draw 1\n\
    send 1 1 1 clean\n\
    recv 1 2 1 clean\n\
    send 1 2 2 clean\n\
    end 11\n",
    b"irlog 2\nnodes 2\nplace 1\nstart initiator\n\
    draw 1\n\
    send 1 1 1 clean\n\
    recv 1 2 1 clean\n\
    send 1 2 2 clean\n\
    recv reset 1\n\
    send reset 2\n\
    draw 2\n\
    send 1 2 1 clean\n\
    recv 1 1 1 clean\n\
    recv 1 2 2 clean\n\
    end 10\n",
];

/// The text of a log of node 0 of two, an initiator, up to its records.
pub const HEAD_0: &[u8] = b"irlog 1\nnodes 2\nplace 0\nstart initiator\n";

/// The text of a log of node 1 of two that ends before its end line.
pub const CUT_1: &[u8] = b"irlog 1\nnodes 2\nplace 1\nstart passive\n";

/// Logs of two initiators that did nothing yet.
pub const EMPTY: [&[u8]; 2] = [EMPTY_0, EMPTY_1];

/// The text of node 0 of `EMPTY`.
pub const EMPTY_0: &[u8] = b"irlog 1\nnodes 2\nplace 0\nstart initiator\nend 0\n";

/// The text of node 1 of `EMPTY`.
pub const EMPTY_1: &[u8] = b"irlog 1\nnodes 2\nplace 1\nstart initiator\nend 0\n";

/// Logs of two nodes each of which waits for the other.
pub const CIRCLE: [&[u8]; 2] = [
    b"irlog 1\nnodes 2\nplace 0\nstart passive\n\
    recv 1 1 1 clean\n\
    send 1 1 2 clean\n\
    end 2\n",
    b"irlog 1\nnodes 2\nplace 1\nstart passive\n\
    recv 1 1 2 clean\n\
    send 1 1 1 clean\n\
    end 2\n",
];

/// `ELECTION` with node 0's receipts exchanged.
pub const RECEIPTS_EXCHANGED: [&[u8]; 2] = [EXCHANGED_0, ELECTION_1];

/// The text of node 0 of `RECEIPTS_EXCHANGED`.
pub const EXCHANGED_0: &[u8] = b"irlog 1\nnodes 2\nplace 0\nstart initiator\n\
    draw 2\n\
    send 1 2 1 clean\n\
    recv 1 2 2 clean\n\
    recv 1 1 1 clean\n\
    end 4\n";

/// `ELECTION` without node 1's last sending.
pub const RECEIPT_WITHOUT_SENDING: [&[u8]; 2] = [
    ELECTION_0,
    b"irlog 1\nnodes 2\nplace 1\nstart initiator\n\
    draw 1\n\
    send 1 1 1 clean\n\
    recv 1 2 1 clean\n\
    end 3\n",
];

/// `TIE` where node 0 passes the equal pair on clean, and node 1 receives it so.
pub const EQUAL_PAIR_PASSED_ON_CLEAN: [&[u8]; 2] = [
    b"irlog 1\nnodes 2\nplace 0\nstart initiator\n\
    draw 1\n\
    send 1 1 1 clean\n\
    recv 1 1 1 clean\n\
    send 1 1 2 clean\n\
    recv 1 1 2 dirty\n\
    draw 2\n\
    send 2 2 1 clean\n\
    recv 2 1 1 clean\n\
    recv 2 2 2 clean\n\
    end 9\n",
    b"irlog 1\nnodes 2\nplace 1\nstart initiator\n\
    draw 1\n\
    send 1 1 1 clean\n\
    recv 1 1 1 clean\n\
    send 1 1 2 dirty\n\
    recv 1 1 2 clean\n\
    draw 1\n\
    send 2 1 1 clean\n\
    recv 2 2 1 clean\n\
    send 2 2 2 clean\n\
    end 9\n",
];

pub const BOTH_LEAD: &[u8] = b"irask 1\nnodes 2\ncase\n0: leader\n1: leader\nend\n";

pub const BOTH_LEAD_OF_THREE: &[u8] = b"irask 1\nnodes 3\ncase\n0: leader\n1: leader\nend\n";

pub const LEADER: &[u8] = b"irask 1\nnodes 2\ncase\n0: leader\nend\n";

pub const LEADER_AND_ACTIVE: &[u8] = b"irask 1\nnodes 2\ncase\n0: leader\n1: active\nend\n";

pub const ACTIVE_AND_PASSIVE: &[u8] = b"irask 1\nnodes 2\ncase\n0: active\n1: passive\nend\n";

pub const CHOOSING_AND_PASSIVE: &[u8] = b"irask 1\nnodes 2\ncase\n0: choosing\n1: passive\nend\n";

pub const LEADER_AND_UNBEATEN: &[u8] =
    b"irask 1\nnodes 2\ncase\n0: leader\n1: (not passive)\nend\n";

/// The case of `LEADER_AND_ACTIVE`, and then that of `ACTIVE_AND_PASSIVE`.
pub const TWO_CASES: &[u8] = b"irask 1\nnodes 2\n\
    case\n0: leader\n1: active\n\
    case\n0: active\n1: passive\n\
    end\n";

/// The case of `BOTH_LEAD`, and then that of `LEADER_AND_ACTIVE`.
pub const LEADER_AND_OTHER: &[u8] = b"irask 1\nnodes 2\n\
    case\n0: leader\n1: leader\n\
    case\n0: leader\n1: active\n\
    end\n";

/// That of `LONE_INITIATOR` all three nodes are so at once.
pub const THREE_ASKED: &[u8] =
    b"irask 1\nnodes 3\ncase\n0: (choosing or leader)\n1: (not owes)\n2: owes\nend\n";

/// Two cases that ask each node of the lone initiator's election in a ring of five: one that no cut meets, and one that
/// is met where the message has come to node 2.
pub const FIVE_ASKED: &[u8] = b"irask 1\nnodes 5\n\
    case\n0: (choosing or leader)\n1: (not owes)\n2: (not owes)\n3: (not owes)\n4: owes\n\
    case\n0: active\n1: passive\n2: owes\n3: passive\n4: passive\n\
    end\n";

/// A question that asks a place which the ring hasn't.
pub const PLACE_2: &[u8] = b"irask 1\nnodes 2\ncase\n0: (leader and owes)\n2: true\nend\n";

/// That the leader of `ELECTION` never leads while the other node is active.
pub const TWO_STEPS: &[u8] =
    b"ircert 1\nnodes 2\nsection\ndrop 1 1 by 0 4\ndrop 1 2 by 0 4\nspent 1\nend\n";

/// The same without its second step.
pub const ONE_STEP: &[u8] = b"ircert 1\nnodes 2\nsection\ndrop 1 1 by 0 4\nspent 1\nend\n";

/// Its steps exchanged.
pub const STEPS_SWAPPED: &[u8] =
    b"ircert 1\nnodes 2\nsection\ndrop 1 2 by 0 4\ndrop 1 1 by 0 4\nspent 1\nend\n";

/// A section whose second step isn't sound: node 0 is active at the cut (2, 3), where node 1 is passive.
pub const NOT_BEFORE: &[u8] =
    b"ircert 1\nnodes 2\nsection\ndrop 0 1 by 1 3\ndrop 0 2 by 1 3\nspent 0\nend\n";

/// One section without steps.
pub const NODE_1_SPENT: &[u8] = b"ircert 1\nnodes 2\nsection\nspent 1\nend\n";

/// The same of a ring of three.
pub const NODE_1_SPENT_OF_THREE: &[u8] = b"ircert 1\nnodes 3\nsection\nspent 1\nend\n";

/// The section of `NODE_1_SPENT`, and then that of `TWO_STEPS`.
pub const TWO_SECTIONS: &[u8] = b"ircert 1\nnodes 2\n\
    section\nspent 1\n\
    section\ndrop 1 1 by 0 4\ndrop 1 2 by 0 4\nspent 1\n\
    end\n";

/// That no cut meets `THREE_ASKED`.
pub const THREE_STEPS: &[u8] = b"ircert 1\nnodes 3\n\
    section\ndrop 0 0 by 2 1\ndrop 1 0 by 0 3\ndrop 2 1 by 0 3\nspent 2\n\
    end\n";

/// That no cut meets the first case of `FIVE_ASKED`, and a section that isn't sound for the second.
pub const FIVE_STEPS: &[u8] = b"ircert 1\nnodes 5\n\
    section\ndrop 0 0 by 4 1\ndrop 1 0 by 0 3\ndrop 2 0 by 0 3\ndrop 3 0 by 0 3\ndrop 4 1 by 0 3\nspent 4\n\
    section\nspent 0\n\
    end\n";

/// The steps of `TWO_STEPS`.
pub const fn two_steps() -> [CertStep; 2] {
    [step(1, 1, 0, 4), step(1, 2, 0, 4)]
}

/// The steps of `THREE_STEPS`: each node loses a candidate.
pub const fn three_steps() -> [CertStep; 3] {
    [step(0, 0, 2, 1), step(1, 0, 0, 3), step(2, 1, 0, 3)]
}

/// Those of the first section of `FIVE_STEPS`.
pub const fn five_steps() -> [CertStep; 5] {
    [
        step(0, 0, 4, 1),
        step(1, 0, 0, 3),
        step(2, 0, 0, 3),
        step(3, 0, 0, 3),
        step(4, 1, 0, 3),
    ]
}

/// State `pos` of `node` is ruled out by state `other_pos` of `other`.
pub const fn step(node: u8, pos: u32, other: u8, other_pos: u32) -> CertStep {
    CertStep {
        node,
        pos,
        other,
        other_pos,
    }
}

/// The logs of these texts, where they are those of one ring and memory is left.
pub fn logs_of<A: Allocator + Clone>(alloc: A, texts: &[&[u8]]) -> Option<Logs<A>> {
    let mut logs = Vec::new(alloc.clone().ok()?);
    for text in texts {
        let log = read_log(alloc.clone().ok()?, text).ok()?;
        logs.push(log).ok()?;
    }
    Logs::gather(logs).ok()
}

/// The question's first case, which asks nodes of these logs, where they are of a ring of the same size.
pub fn first_case<'a, A: Allocator>(
    question: &'a Question<A>,
    logs: &Logs<A>,
) -> Option<&'a Case<A>>
    ensures { IfSome result (λ case. All (λ c. c.place < length logs.now) case.now) }
{
    if question.nodes() != logs.size() {
        return None;
    }
    Some(&question.cases()[0])
}
