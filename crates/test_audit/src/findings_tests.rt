use crate::certified_tests::is_answered;
use crate::lines::has_lines;
use crate::pairs::pairs_text;
use ira_audit::{Findings, RingAudit, decide_all};
use ira_cert_text::{Certificate, write_cert};
use ira_elim::Found;
use ira_event::{MemorySink, OutOfMemory};
use std::alloc::Global;
use std::process::Abort;
use test_fixtures::{
    BOTH_LEAD_OF_THREE, CUT_1, ELECTION, ELECTION_0, FIVE_ASKED, LEADER_AND_ACTIVE, LONE_INITIATOR,
    SECOND_TERM, THREE_ASKED, THREE_STEPS, TWO_CASES, bytes_of, lone_initiator_texts,
};

/// Decides the question of the texts, and compares the lines of what is found.
fn found(
    rt: &(impl Abort + AllocGlobal),
    texts: &[&[u8]],
    question: &[u8],
    lines: &str,
) -> Findings<Global> {
    let findings = decide_all(rt.alloc(), texts, question).expect(rt, "memory");
    assert!(rt;
        has_lines(rt.alloc(), &findings, lines.as_bytes()),
        "not {lines}"
    );
    findings
}

/// The same, where no certificate is made of it.
fn assert_uncertified(
    rt: &(impl Abort + AllocGlobal),
    texts: &[&[u8]],
    question: &[u8],
    lines: &str,
) {
    let findings = found(rt, texts, question, lines);
    assert!(rt; matches!(findings.into_certificate(), Ok(None)), "{lines}");
}

/// The certificate that is made of the findings.
fn certificate(rt: &(impl Abort + AllocGlobal), findings: Findings<Global>) -> Certificate<Global> {
    let made = findings.into_certificate().expect(rt, "memory");
    made.expect(rt, "each case is absent")
}

/// The text of the certificate.
fn text_of(
    rt: &(impl Abort + AllocGlobal),
    certificate: &Certificate<Global>,
) -> MemorySink<Global> {
    let mut sink = MemorySink::new(rt.alloc());
    let written = write_cert(certificate, &mut sink);
    assert!(rt; written == Ok(()));
    sink
}

/// The text of the certificate that is made of the findings.
fn certificate_text(
    rt: &(impl Abort + AllocGlobal),
    findings: Findings<Global>,
) -> MemorySink<Global> {
    text_of(rt, &certificate(rt, findings))
}

#[test]
fn absences_with_and_without_steps(rt: HostRuntime) {
    let question = b"irask 1\nnodes 2\n\
        case\n0: leader\n1: leader\n\
        case\n0: leader\n1: active\n\
        case\n0: active\n1: passive\n\
        end\n";
    let lines = "case 0: absent, 0 steps, node 1 spent\n\
        case 1: absent, 2 steps, node 1 spent\n\
        case 2: present at 2 3\n";
    assert_uncertified(&rt, &ELECTION, question, lines);
}

/// The least cut of the election that meets the second of two cases.
const MET: &[u32] = &[2, 3];

/// Whether the second of two cases is the first that a cut meets, and is met by it where it is decided alone.
fn second_is_met(alloc: Global) -> Result<bool, OutOfMemory> {
    let mut audit = RingAudit::new(alloc);
    for text in ELECTION {
        audit.take(text)?;
    }
    let judged = audit.judge()?;
    let Ok(asked) = judged.ask(TWO_CASES) else {
        return Ok(false);
    };
    if asked.cases().len() != 2 {
        return Ok(false);
    }
    match (asked.first_present()?, asked.decide_case(1)?) {
        (Some((1, first)), Found::Present(alone)) => {
            Ok(first.positions() == MET && alone.positions() == MET)
        }
        _ => Ok(false),
    }
}

#[test]
fn case_that_is_met(rt: HostRuntime) {
    assert!(rt; second_is_met(rt.alloc()) == Ok(true));
}

#[test]
fn three_asked_nodes(rt: HostRuntime) {
    let lines = "case 0: absent, 3 steps, node 2 spent\n";
    let findings = found(&rt, &LONE_INITIATOR, THREE_ASKED, lines);
    assert!(rt; certificate_text(&rt, findings).bytes() == THREE_STEPS);
}

#[test]
fn five_asked_nodes(rt: HostRuntime) {
    let texts = lone_initiator_texts(rt.alloc(), 5).expect(&rt, "memory");
    let texts = bytes_of(rt.alloc(), &texts).expect(&rt, "memory");
    let lines = "case 0: absent, 5 steps, node 4 spent\ncase 1: present at 2 2 1 0 0\n";
    assert_uncertified(&rt, &texts, FIVE_ASKED, lines);
}

#[test]
fn pairs_of_the_largest_ring(rt: HostRuntime) {
    let texts = lone_initiator_texts(rt.alloc(), 255).expect(&rt, "memory");
    let texts = bytes_of(rt.alloc(), &texts).expect(&rt, "memory");
    let question = pairs_text(&rt, 255);
    let findings = decide_all(rt.alloc(), &texts, question.bytes()).expect(&rt, "memory");
    let made = certificate(&rt, findings);
    let first = made.sections.first().map(|section| section.spent);
    assert!(rt; made.sections.len() == 32_385 && first == Some(1));
    assert!(rt; made.sections.iter().all(|section| section.steps.is_empty()));
    let text = text_of(&rt, &made);
    assert!(rt; is_answered(&rt, &texts, question.bytes(), text.bytes(), 2, b"yes\n"));
}

#[test]
fn second_term(rt: HostRuntime) {
    let question = b"irask 1\nnodes 2\n\
        case\n0: leader\n1: leader\n\
        case\n0: (leader and term = 2)\n\
        end\n";
    let lines = "case 0: absent, 1 steps, node 0 spent\n\
        case 1: absent, 0 steps, node 0 spent\n";
    let made: &[u8] = b"ircert 1\nnodes 2\n\
        section\ndrop 0 4 by 1 10\nspent 0\n\
        section\nspent 0\n\
        end\n";
    let findings = found(&rt, &SECOND_TERM, question, lines);
    assert!(rt; certificate_text(&rt, findings).bytes() == made);
}

#[test]
fn refusals(rt: HostRuntime) {
    assert_uncertified(
        &rt,
        &[ELECTION_0, CUT_1],
        LEADER_AND_ACTIVE,
        "no: log 1: cut\n",
    );
    assert_uncertified(&rt, &ELECTION, b"irask 2\n", "no: question: head\n");
    let line = "no: question: other ring size\n";
    assert_uncertified(&rt, &ELECTION, BOTH_LEAD_OF_THREE, line);
}
