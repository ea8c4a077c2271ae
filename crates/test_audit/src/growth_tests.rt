//! Each growth of a call is refused in turn, and a writer's sink fails after each byte. A call gives up then, or gives
//! its own answer all the same.

use crate::lines::has_lines;
use ira_audit::{
    Answer, Findings, Reason, RingAudit, audit, audit_logs, audit_one, decide_all, write_findings,
    write_report,
};
use ira_cert::{SectionFault, Unsound};
use ira_cert_text::{CertFault, Certificate, write_cert};
use ira_event::{HeadFault, MemorySink, OutOfMemory};
use ira_links::OpenGate;
use ira_order::MatchFault;
use ira_pred::AskFault;
use std::alloc::Global;
use std::marker::Model;
use std::process::Abort;
use std::sync::Wait;
use std::thread::Threads;
use std::time::Clock;
use test_fixtures::{
    BOTH_LEAD, BOTH_LEAD_OF_THREE, CIRCLE, ELECTION, ELECTION_0, ELECTION_1, EMPTY_1,
    LEADER_AND_ACTIVE, NODE_1_SPENT, NODE_1_SPENT_OF_THREE, ONE_STEP, PLACE_2, RECEIPTS_EXCHANGED,
    STEPS_SWAPPED, TWO_CASES, TWO_STEPS,
};
use test_refusing::{
    FailingSink, Refusing, Writer, answered, each_byte_refused, each_growth_refused,
};

type Memory = Refusing<Global>;

/// The logs of the election in another order.
const TURNED: &[&[u8]] = &[ELECTION_1, ELECTION_0];

/// Node 0 sends what it doesn't owe.
const NOT_OWED: &[&[u8]] = &[NOT_OWED_0, EMPTY_1];

const NOT_OWED_0: &[u8] = b"irlog 1\nnodes 2\nplace 0\nstart initiator\n\
    draw 2\n\
    send 1 1 1 clean\n\
    end 2\n";

/// A certificate without its last line.
const CUT: &[u8] = b"ircert 1\nnodes 2\nsection\ndrop 1 1 by 0 4\nspent 1\n";

/// One case twice: what it asks of a node is found once.
const CASE_TWICE: &[u8] = b"irask 1\nnodes 2\n\
    case\n0: leader\n1: active\n\
    case\n0: leader\n1: active\n\
    end\n";

const CASE_TWICE_FOUND: &[u8] =
    b"case 0: absent, 2 steps, node 1 spent\ncase 1: absent, 2 steps, node 1 spent\n";

/// What is found for two cases.
const TWO_CASES_FOUND: &[u8] = b"case 0: absent, 2 steps, node 1 spent\ncase 1: present at 2 3\n";

/// The calls whose growths are refused, with their answers.
enum Call {
    /// Judges logs.
    Judge(&'static [&'static [u8]], Answer),
    /// Each text is taken once more where it was refused.
    TakeAgain,
    /// Judges the election with a question and a certificate, at each depth.
    Check(&'static [u8], &'static [u8], Answer),
    /// Decides the question of logs.
    Decide(&'static [&'static [u8]], &'static [u8], &'static [u8]),
    MakeCertificate,
}

const CALLS: &[Call] = &[
    Call::Judge(&ELECTION, Answer::Yes),
    Call::Judge(TURNED, Answer::No(Reason::Heads(HeadFault::Place(0)))),
    Call::Judge(&CIRCLE, Answer::No(Reason::Circle)),
    Call::Judge(
        &RECEIPTS_EXCHANGED,
        Answer::No(Reason::Match(MatchFault::Differs { link: 1, k: 1 })),
    ),
    Call::TakeAgain,
    Call::Check(LEADER_AND_ACTIVE, TWO_STEPS, Answer::Yes),
    Call::Check(BOTH_LEAD, NODE_1_SPENT, Answer::Yes),
    Call::Check(
        LEADER_AND_ACTIVE,
        ONE_STEP,
        Answer::No(Reason::Section {
            case: 0,
            fault: SectionFault::NotSpent(1),
        }),
    ),
    Call::Check(
        LEADER_AND_ACTIVE,
        STEPS_SWAPPED,
        Answer::No(Reason::Section {
            case: 0,
            fault: SectionFault::Step(0, Unsound::NotFront),
        }),
    ),
    Call::Check(
        LEADER_AND_ACTIVE,
        CUT,
        Answer::No(Reason::Certificate(CertFault::Cut)),
    ),
    Call::Check(
        TWO_CASES,
        TWO_STEPS,
        Answer::No(Reason::Sections {
            wanted: 2,
            found: 1,
        }),
    ),
    Call::Check(
        PLACE_2,
        TWO_STEPS,
        Answer::No(Reason::Question(AskFault::Place(5))),
    ),
    Call::Decide(&ELECTION, TWO_CASES, TWO_CASES_FOUND),
    Call::Decide(&ELECTION, CASE_TWICE, CASE_TWICE_FOUND),
    Call::Decide(
        &RECEIPTS_EXCHANGED,
        TWO_CASES,
        b"no: link 1: receipt 1 differs\n",
    ),
    Call::MakeCertificate,
];

/// Whether the call answers with this memory.
fn answers<R>(rt: &R, call: &Call, alloc: Memory) -> bool
where
    R: Abort + AllocGlobal + Threads + Wait + Clock + Sync,
{
    match call {
        Call::Judge(logs, answer) => is_answer(rt, audit_logs(alloc, *logs), *answer),
        Call::TakeAgain => takes_again(rt, alloc),
        Call::Check(question, certificate, answer) => {
            checks(rt, &alloc, *question, *certificate, *answer)
        }
        Call::Decide(logs, question, lines) => decides(rt, alloc, *logs, *question, *lines),
        Call::MakeCertificate => match decide_all(alloc, &ELECTION, LEADER_AND_ACTIVE) {
            Ok(findings) => is_made(rt, findings),
            Err(_) => false,
        },
    }
}

/// Whether an audit gave this answer; else memory ran out.
fn is_answer(rt: &impl Abort, found: Result<Answer, OutOfMemory>, answer: Answer) -> bool {
    answered(&found, &Ok(answer), &Err(OutOfMemory)).expect(rt, "its answer, or want of memory")
}

/// Whether these lines tell what is found of the question; else memory ran out.
fn decides(
    rt: &(impl Abort + AllocGlobal),
    alloc: Memory,
    logs: &[&[u8]],
    question: &[u8],
    lines: &[u8],
) -> bool {
    let Ok(findings) = decide_all(alloc, logs, question) else {
        return false;
    };
    assert!(rt; has_lines(rt.alloc(), &findings, lines));
    true
}

/// Whether the certificate of two steps is made of what is found; else memory ran out.
fn is_made(rt: &(impl Abort + AllocGlobal), findings: Findings<Memory>) -> bool {
    match findings.into_certificate() {
        Ok(Some(certificate)) => {
            assert!(rt; has_two_steps(rt.alloc(), &certificate));
            true
        }
        Ok(None) => panic!(rt; "each case is absent"),
        Err(_) => false,
    }
}

fn has_two_steps(alloc: Global, certificate: &Certificate<Memory>) -> bool {
    let mut sink = MemorySink::new(alloc);
    write_cert(certificate, &mut sink).is_ok() && sink.bytes() == TWO_STEPS
}

/// Takes the election, and judges it. At most one growth is refused, so that no text is refused twice.
fn takes_again(rt: &(impl Abort + Threads), alloc: Memory) -> bool {
    let mut audit = RingAudit::new(alloc);
    let mut are_taken = true;
    for text in ELECTION {
        are_taken &= audit.take(text).is_ok() || audit.take(text).is_ok();
    }
    assert!(rt; are_taken);
    match audit.judge() {
        Ok(judged) => is_answer(rt, Ok(judged.answer()), Answer::Yes),
        Err(_) => false,
    }
}

fn checks<R: Abort + Threads + Wait + Clock + Sync>(
    rt: &R,
    alloc: &Memory,
    question: &[u8],
    certificate: &[u8],
    answer: Answer,
) -> bool {
    for depth in 0..5 {
        let Ok(alloc) = alloc.clone() else {
            return false;
        };
        let found = audit(
            rt,
            alloc,
            &ELECTION,
            question,
            certificate,
            depth,
            &OpenGate,
        );
        if !is_answer(rt, found, answer) {
            return false;
        }
    }
    true
}

#[test]
fn each_growth_is_refused(rt: HostRuntime) {
    let refused = each_growth_refused(rt.alloc(), CALLS, |call, alloc| answers(&rt, call, alloc));
    assert!(rt; refused.is_ok(), "{refused:?}");
}

#[test]
fn log_judged_alone_in_no_memory(rt: HostRuntime) {
    let memory = Refusing::new(rt.alloc()).expect(&rt, "memory");
    memory.refuse(1);
    let answer = audit_one(memory.clone().expect(&rt, "memory"), ELECTION_0);
    assert!(rt; answer == Ok(Answer::Yes) && memory.asked() == 0);
}

/// What is judged, and the line of the answer.
#[derive(Drop)]
struct Row {
    logs: &'static [&'static [u8]],
    question: &'static [u8],
    certificate: &'static [u8],
    line: &'static [u8],
}

/// Logs that are judged before the question and the certificate.
const fn judged(logs: &'static [&'static [u8]], line: &'static [u8]) -> Row {
    Row {
        logs,
        question: b"",
        certificate: b"",
        line,
    }
}

/// A question and a certificate that are judged with the logs of the election.
const fn checked(question: &'static [u8], certificate: &'static [u8], line: &'static [u8]) -> Row {
    Row {
        logs: &ELECTION,
        question,
        certificate,
        line,
    }
}

/// A line of each reason, and of each of its shapes.
fn rows() -> [Row; 15] {
    [
        judged(&[ELECTION_0, CUT], b"no: log 1: head\n"),
        judged(TURNED, b"no: heads: place 0\n"),
        judged(&[ELECTION_0], b"no: heads: number\n"),
        judged(&RECEIPTS_EXCHANGED, b"no: link 1: receipt 1 differs\n"),
        judged(
            &[ELECTION_0, EMPTY_1],
            b"no: link 1: receipt 1 has no sending\n",
        ),
        judged(&CIRCLE, b"no: circle\n"),
        judged(NOT_OWED, b"no: node 0: event 2: not owed\n"),
        checked(PLACE_2, TWO_STEPS, b"no: question: place 5\n"),
        checked(
            BOTH_LEAD_OF_THREE,
            TWO_STEPS,
            b"no: question: other ring size\n",
        ),
        checked(BOTH_LEAD, CUT, b"no: certificate: cut\n"),
        checked(
            BOTH_LEAD,
            NODE_1_SPENT_OF_THREE,
            b"no: certificate: other ring size\n",
        ),
        checked(TWO_CASES, TWO_STEPS, b"no: sections: 2 wanted, 1 found\n"),
        checked(
            LEADER_AND_ACTIVE,
            STEPS_SWAPPED,
            b"no: case 0: step 0: not front\n",
        ),
        checked(
            LEADER_AND_ACTIVE,
            ONE_STEP,
            b"no: case 0: node 1 not spent\n",
        ),
        checked(LEADER_AND_ACTIVE, TWO_STEPS, b"yes\n"),
    ]
}

/// Writes the line of an answer that has one.
#[derive(Drop)]
struct Reported {
    answer: Answer,
}

impl Model for Reported {
    ghost use Rattle.ira_audit.specs.declared.answer.Answer.{Answer};
    ghost use Rattle.ira_audit.specs.Report.{IsReportable};

    ghost Value = { Answer };

    ghost view = { λ r. r.answer };

    ghost invariant = { λ r. IsReportable r.answer };
}

impl Writer for Reported {
    fn is_refused(&self, sink: &mut FailingSink) -> bool {
        write_report(&self.answer, sink).is_err()
    }
}

/// Judges the row, and has the answer's line written to sinks that fail.
fn is_cut_at_each_byte<R>(rt: &R, row: &Row) -> bool
where
    R: AllocGlobal + Threads + Wait + Clock + Sync,
{
    let alloc = rt.alloc();
    match audit(
        rt,
        alloc,
        row.logs,
        row.question,
        row.certificate,
        0,
        &OpenGate,
    ) {
        Ok(answer) => each_byte_refused(alloc, &Reported { answer }, row.line) == Ok(()),
        Err(OutOfMemory) => false,
    }
}

#[test]
fn sink_fails_after_each_byte(rt: HostRuntime) {
    for row in &rows() {
        assert!(rt; is_cut_at_each_byte(&rt, row));
    }
}

/// Decides the two cases of the election, and writes the lines of what is found.
#[derive(Drop)]
struct TwoCasesFound(Global);

impl Writer for TwoCasesFound {
    fn is_refused(&self, sink: &mut FailingSink) -> bool {
        match decide_all(self.0, &ELECTION, TWO_CASES) {
            Ok(findings) => write_findings(&findings, sink).is_err(),
            Err(_) => false,
        }
    }
}

#[test]
fn sink_of_findings_fails_after_each_byte(rt: HostRuntime) {
    let refused = each_byte_refused(rt.alloc(), &TwoCasesFound(rt.alloc()), TWO_CASES_FOUND);
    assert!(rt; refused == Ok(()), "{refused:?}");
}
