//! Each growth of a call is refused in turn, and a writer's sink fails after each byte. A call gives up then for want
//! of memory, or gives its own answer all the same.

use crate::found_tests::{is_absent_by, is_present_at};
use ira_cert::{
    CertFault, Certificate, SectionFault, Unsound, Verdict, check_plain, read_cert, write_cert,
};
use ira_elim::{Found, decide};
use ira_event::{Logs, OutOfMemory};
use ira_links::OpenGate;
use ira_order::{Ordered, order};
use ira_par::check_split;
use ira_pred::{Question, read_question};
use std::alloc::Global;
use std::process::Abort;
use std::sync::Wait;
use std::thread::Threads;
use std::time::Clock;
use test_fixtures::{
    ACTIVE_AND_PASSIVE, ELECTION, LEADER_AND_ACTIVE, LEADER_AND_UNBEATEN, NOT_BEFORE, ONE_STEP,
    STEPS_SWAPPED, TIE, TWO_STEPS, first_case, logs_of,
};
use test_refusing::{
    FailingSink, Refusing, Writer, answered, each_byte_refused, each_growth_refused,
};

type Memory = Refusing<Global>;

/// `TWO_STEPS` without its last line.
const CUT: &[u8] = b"ircert 1\nnodes 2\nsection\ndrop 1 1 by 0 4\ndrop 1 2 by 0 4\nspent 1\n";

/// That node 0 never leads in the tie unless node 1 is passive.
const EIGHT_STEPS: &[u8] = b"ircert 1\nnodes 2\nsection\n\
    drop 1 0 by 0 9\ndrop 1 1 by 0 9\ndrop 1 2 by 0 9\ndrop 1 3 by 0 9\n\
    drop 1 4 by 0 9\ndrop 1 5 by 0 9\ndrop 1 6 by 0 9\ndrop 1 7 by 0 9\n\
    spent 1\nend\n";

/// The same with other positions in its steps 1 and 7.
const NOT_FRONT: &[u8] = b"ircert 1\nnodes 2\nsection\n\
    drop 1 0 by 0 9\ndrop 1 3 by 0 9\ndrop 1 2 by 0 9\ndrop 1 3 by 0 9\n\
    drop 1 4 by 0 9\ndrop 1 5 by 0 9\ndrop 1 6 by 0 9\ndrop 1 0 by 0 9\n\
    spent 1\nend\n";

/// The calls whose growths are refused.
enum Call {
    CheckPlain,
    /// At this depth.
    CheckSplit(u8),
    Decide,
}

const CALLS: &[Call] = &[
    Call::CheckPlain,
    Call::CheckSplit(0),
    Call::CheckSplit(4),
    Call::Decide,
];

/// What is found of a case: that the steps of its certificate, or of another, rule it out, or where it is present.
#[derive(Clone, Copy)]
enum Wanted {
    Absent(&'static [u8]),
    Present(&'static [u32]),
}

/// What is judged and decided.
struct Row {
    logs: [&'static [u8]; 2],
    question: &'static [u8],
    certificate: &'static [u8],
    verdict: Verdict,
    found: Wanted,
}

const ROWS: &[Row] = &[
    Row {
        logs: ELECTION,
        question: LEADER_AND_ACTIVE,
        certificate: TWO_STEPS,
        verdict: Verdict::Yes,
        found: Wanted::Absent(TWO_STEPS),
    },
    Row {
        logs: ELECTION,
        question: LEADER_AND_ACTIVE,
        certificate: ONE_STEP,
        verdict: Verdict::No(SectionFault::NotSpent(1)),
        found: Wanted::Absent(TWO_STEPS),
    },
    Row {
        logs: ELECTION,
        question: LEADER_AND_ACTIVE,
        certificate: STEPS_SWAPPED,
        verdict: Verdict::No(SectionFault::Step(0, Unsound::NotFront)),
        found: Wanted::Absent(TWO_STEPS),
    },
    Row {
        logs: ELECTION,
        question: ACTIVE_AND_PASSIVE,
        certificate: NOT_BEFORE,
        verdict: Verdict::No(SectionFault::Step(1, Unsound::NotBefore)),
        found: Wanted::Present(&[2, 3]),
    },
    Row {
        logs: TIE,
        question: LEADER_AND_UNBEATEN,
        certificate: EIGHT_STEPS,
        verdict: Verdict::Yes,
        found: Wanted::Absent(EIGHT_STEPS),
    },
    Row {
        logs: TIE,
        question: LEADER_AND_UNBEATEN,
        certificate: NOT_FRONT,
        verdict: Verdict::No(SectionFault::Step(1, Unsound::NotFront)),
        found: Wanted::Absent(EIGHT_STEPS),
    },
];

fn handle(rt: &impl Abort, memory: &Memory) -> Memory {
    memory.clone().expect(rt, "memory")
}

/// What the calls are made on.
#[derive(Drop)]
struct Posed<'a> {
    ordered: Ordered<'a, Memory>,
    question: Question<Memory>,
    certificate: Certificate<Memory>,
    verdict: Verdict,
    found: Wanted,
    /// The certificate of what is found, where the case is absent.
    made: Option<Certificate<Memory>>,
}

impl Posed<'_> {
    /// What a row poses of its logs.
    fn new<'a>(rt: &impl Abort, memory: &Memory, logs: &'a Logs<Memory>, row: &Row) -> Posed<'a> {
        Posed {
            ordered: order(handle(rt, memory), logs).expect(rt, "an order"),
            question: read_question(handle(rt, memory), row.question).expect(rt, "a question"),
            certificate: certificate(rt, memory, row.certificate),
            verdict: row.verdict,
            found: row.found,
            made: match row.found {
                Wanted::Absent(text) => Some(certificate(rt, memory, text)),
                Wanted::Present(_) => None,
            },
        }
    }

    /// Whether the call answers with this memory.
    fn answers<R: Abort + Threads + Wait + Clock + Sync>(
        &self,
        rt: &R,
        call: &Call,
        alloc: Memory,
    ) -> bool {
        let Posed {
            ordered,
            question,
            certificate,
            verdict,
            ..
        } = self;
        let logs = ordered.logs();
        let Some(case) = first_case(question, logs) else {
            return false;
        };
        let Some(section) = certificate.sections.first() else {
            return false;
        };
        let judged = match call {
            Call::CheckPlain => check_plain(alloc, logs, ordered, case, section),
            Call::CheckSplit(depth) => {
                let depth = (*depth).min(4);
                check_split(rt, alloc, logs, ordered, case, section, depth, &OpenGate)
            }
            Call::Decide => return self.is_found(rt, decide(alloc, logs, ordered, case)),
        };
        answered(&judged, &Ok(*verdict), &Err(OutOfMemory)).expect(
            rt,
            "its answer, or want of memory",
        )
    }

    /// Whether this is found of the case; else memory ran out.
    fn is_found(&self, rt: &impl Abort, found: Result<Found<Memory>, OutOfMemory>) -> bool {
        let Ok(found) = found else {
            return false;
        };
        let is_wanted = match (self.found, &self.made) {
            (Wanted::Present(cut), _) => is_present_at(&found, cut),
            (_, Some(made)) => match made.sections.first() {
                Some(section) => is_absent_by(&found, &section.steps, section.spent),
                None => false,
            },
            _ => false,
        };
        assert!(rt; is_wanted);
        true
    }
}

fn certificate(rt: &impl Abort, memory: &Memory, text: &[u8]) -> Certificate<Memory> {
    read_cert(handle(rt, memory), text).expect(rt, "a certificate")
}

/// The trial of the calls on a row.
fn tried<R>(rt: &R, row: &Row) -> Result<u64, (usize, u64)>
where
    R: Abort + AllocGlobal + Threads + Wait + Clock + Sync,
{
    let memory = Refusing::new(rt.alloc()).expect(rt, "memory");
    let logs = logs_of(handle(rt, &memory), &row.logs).expect(rt, "the logs of one ring");
    let posed = Posed::new(rt, &memory, &logs, row);
    each_growth_refused(rt.alloc(), CALLS, |call, alloc| {
        posed.answers(rt, call, alloc)
    })
}

#[test]
fn sections_judged_and_made(rt: HostRuntime) {
    for row in ROWS {
        let refused = tried(&rt, row);
        assert!(rt; refused.is_ok(), "{refused:?}");
    }
}

/// Whether reading a certificate answers so with this memory.
fn reads(rt: &impl Abort, text: &[u8], wanted: Option<CertFault>, alloc: Memory) -> bool {
    let found = read_cert(alloc, text).err();
    answered(&found, &wanted, &Some(CertFault::OutOfMemory)).expect(
        rt,
        "its answer, or want of memory",
    )
}

#[test]
fn certificates_read(rt: HostRuntime) {
    let texts: [(&[u8], Option<CertFault>); 4] = [
        (TWO_STEPS, None),
        (CUT, Some(CertFault::Cut)),
        (
            b"ircert 1\nnodes 2\nsection\ndrop 1 1 by 0 4\ndrop 2 1 by 0 4\nspent 1\nend\n",
            Some(CertFault::Range(5)),
        ),
        (
            b"ircert 1\nnodes 2\nsection\ndrop 1 1 by 0 4\nspent 1\nend\nend\n",
            Some(CertFault::Trailing),
        ),
    ];
    let refused = each_growth_refused(rt.alloc(), &texts, |(text, fault), alloc| {
        reads(&rt, *text, *fault, alloc)
    });
    assert!(rt; refused.is_ok(), "{refused:?}");
}

/// The text of a certificate.
#[derive(Drop)]
struct CertText<'a>(&'a Certificate<Global>);

impl Writer for CertText<'_> {
    fn is_refused(&self, sink: &mut FailingSink) -> bool {
        write_cert(self.0, sink).is_err()
    }
}

#[test]
fn sink_fails_after_each_byte(rt: HostRuntime) {
    let certificate = read_cert(rt.alloc(), TWO_STEPS).expect(&rt, "a certificate");
    let refused = each_byte_refused(rt.alloc(), &CertText(&certificate), TWO_STEPS);
    assert!(rt; refused == Ok(()), "{refused:?}");
}
