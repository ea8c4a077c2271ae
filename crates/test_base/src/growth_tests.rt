//! Each growth of a call is refused in turn. The call gives up then for want of memory, or gives its own answer all the
//! same, and it gives its answer when it is made once more with ample memory.

use crate::question_samples::PAIRS_OF_THREE;
use ira_ask::ask;
use ira_cand::table;
use ira_event::{
    LogFault, Logs, MemorySink, RingSize, Sink, SinkFault, read_log, upgrade, write_log,
};
use ira_links::link;
use ira_order::{MatchFault, OrderFault, find_order, order};
use ira_pred::{AskFault, Clause, pairs_question, read_question};
use std::alloc::Global;
use std::process::Abort;
use test_fixtures::{CIRCLE, ELECTION, ELECTION_0, PLACE_2, RECEIPTS_EXCHANGED, logs_of};
use test_refusing::{Refusing, answered, each_growth_refused, has_answered};

type Memory = Refusing<Global>;

/// More records than the reader makes room for at first.
const MANY_DRAWS: &[u8] = b"irlog 1\nnodes 2\nplace 0\nstart initiator\n\
    draw 1\ndraw 1\ndraw 1\ndraw 1\ndraw 1\ndraw 1\ndraw 1\ndraw 1\ndraw 1\ndraw 1\n\
    draw 1\ndraw 1\ndraw 1\ndraw 1\ndraw 1\ndraw 1\ndraw 1\ndraw 1\ndraw 1\n\
    end 19\n";

/// The same with no record in line 24.
const LATE_FAULT: &[u8] = b"irlog 1\nnodes 2\nplace 0\nstart initiator\n\
    draw 1\ndraw 1\ndraw 1\ndraw 1\ndraw 1\ndraw 1\ndraw 1\ndraw 1\ndraw 1\ndraw 1\n\
    draw 1\ndraw 1\ndraw 1\ndraw 1\ndraw 1\ndraw 1\ndraw 1\ndraw 1\ndraw 1\n\
    draw x\n";

/// More records of version 2 than the reader makes room for at first.
const MANY_YIELDS: &[u8] = b"irlog 2\nnodes 2\nplace 0\nstart initiator\n\
    yield\nsend reset 1\nrecv reset 2\nyield\nyield\nyield\nyield\nyield\nyield\nyield\n\
    yield\nyield\nyield\nyield\nyield\nyield\nyield\nyield\nyield\n\
    end 19\n";

/// A question whose clause nests.
const NESTED: &[u8] =
    b"irask 1\nnodes 2\ncase\n0: (leader and (not (yielding or term < 2)))\nend\n";

/// A line nested too deep, whose first clause asks for memory.
const TOO_DEEP: &[u8] = b"irask 1\nnodes 2\ncase\n\
    0: ((not true) and (((((((((((((((((((((((((((((((((\n";

/// A line that doesn't end, with a clause that asks for memory.
const UNENDED: &[u8] = b"irask 1\nnodes 2\ncase\n0: (not true)";

/// The calls whose growths are refused; those that read, with the fault that they answer or none.
enum Call {
    ReadLog(&'static [u8], Option<LogFault>),
    ReadQuestion(&'static [u8], Option<AskFault>),
    WriteLog,
    Upgrade,
    MakePairs,
    Ask,
    FindOrder,
    Order,
    OrderCircle,
    Link,
    Table,
}

const CALLS: &[Call] = &[
    Call::ReadLog(ELECTION_0, None),
    Call::ReadLog(MANY_DRAWS, None),
    Call::ReadLog(LATE_FAULT, Some(LogFault::Line(24))),
    Call::ReadLog(MANY_YIELDS, None),
    // the election's log without its last line, with another count, with a byte after, and with both
    Call::ReadLog(
        b"irlog 1\nnodes 2\nplace 0\nstart initiator\n\
        draw 2\nsend 1 2 1 clean\nrecv 1 1 1 clean\nrecv 1 2 2 clean\n",
        Some(LogFault::Cut),
    ),
    Call::ReadLog(
        b"irlog 1\nnodes 2\nplace 0\nstart initiator\n\
        draw 2\nsend 1 2 1 clean\nrecv 1 1 1 clean\nrecv 1 2 2 clean\nend 3\n",
        Some(LogFault::Count),
    ),
    Call::ReadLog(
        b"irlog 1\nnodes 2\nplace 0\nstart initiator\n\
        draw 2\nsend 1 2 1 clean\nrecv 1 1 1 clean\nrecv 1 2 2 clean\nend 4\nx",
        Some(LogFault::Trailing),
    ),
    Call::ReadLog(
        b"irlog 1\nnodes 2\nplace 0\nstart initiator\n\
        draw 2\nsend 1 2 1 clean\nrecv 1 1 1 clean\nrecv 1 2 2 clean\nend 3\nx",
        Some(LogFault::Count),
    ),
    Call::ReadQuestion(NESTED, None),
    Call::ReadQuestion(PAIRS_OF_THREE, None),
    // a case that is read, with a fault after it
    Call::ReadQuestion(
        b"irask 1\nnodes 2\ncase\n0: (leader and owes)\n1: leader and owes\nend\n",
        Some(AskFault::Line(5)),
    ),
    Call::ReadQuestion(PLACE_2, Some(AskFault::Place(5))),
    Call::ReadQuestion(
        b"irask 1\nnodes 2\ncase\n0: (leader and owes)\n\
        1: (((((((((((((((((((((((((((((((((\nend\n",
        Some(AskFault::Depth(5)),
    ),
    Call::ReadQuestion(
        b"irask 1\nnodes 2\ncase\n0: (leader and owes)\ncase\nend\n",
        Some(AskFault::Empty(6)),
    ),
    Call::ReadQuestion(
        b"irask 1\nnodes 2\ncase\n0: (leader and owes)\n",
        Some(AskFault::Cut),
    ),
    Call::ReadQuestion(
        b"irask 1\nnodes 2\ncase\n0: (leader and owes)\nend\nend\n",
        Some(AskFault::Trailing),
    ),
    Call::WriteLog,
    Call::Upgrade,
    Call::MakePairs,
    Call::Ask,
    Call::FindOrder,
    Call::Order,
    Call::OrderCircle,
    Call::Link,
    Call::Table,
];

/// Whether reading a log answers so with this memory.
fn reads_log(rt: &impl Abort, text: &[u8], wanted: Option<LogFault>, alloc: Memory) -> bool {
    let found = read_log(alloc, text).err();
    answered(&found, &wanted, &Some(LogFault::OutOfMemory)).expect(
        rt,
        "its answer, or want of memory",
    )
}

/// Whether reading a question answers so with this memory.
fn reads_question(rt: &impl Abort, text: &[u8], wanted: Option<AskFault>, alloc: Memory) -> bool {
    let found = read_question(alloc, text).err();
    answered(&found, &wanted, &Some(AskFault::OutOfMemory)).expect(
        rt,
        "its answer, or want of memory",
    )
}

/// Whether these logs have no order for the reason that they are a circle, with this memory.
fn is_circle(rt: &impl Abort, logs: &Logs<Memory>, alloc: Memory) -> bool {
    let (circle, refused) = (Some(OrderFault::Circle), Some(OrderFault::OutOfMemory));
    answered(&order(alloc, logs).err(), &circle, &refused).expect(
        rt,
        "its answer, or want of memory",
    )
}

/// Whether the call answers with this memory, on the election's logs or on that of its last node, or on a circle's. Of
/// those that don't read no answer but want of memory is an error.
fn answers(
    rt: &impl Abort,
    call: &Call,
    alloc: Memory,
    logs: &Logs<Memory>,
    circle: &Logs<Memory>,
) -> bool {
    let log = logs.log(logs.size().get() - 1);
    match call {
        Call::ReadLog(text, fault) => reads_log(rt, *text, *fault, alloc),
        Call::ReadQuestion(text, fault) => reads_question(rt, *text, *fault, alloc),
        Call::WriteLog => write_log(log, &mut MemorySink::new(alloc)).is_ok(),
        Call::Upgrade => has_answered(upgrade(alloc, log)),
        Call::MakePairs => has_answered(pairs_question(alloc, RingSize::new(3).unwrap())),
        Call::Ask => has_answered(ask(
            alloc,
            RingSize::new(3).unwrap(),
            b"any leader, other owes, all true",
        )),
        Call::FindOrder => find_order(alloc, logs).is_ok(),
        Call::Order => order(alloc, logs).is_ok(),
        Call::OrderCircle => is_circle(rt, circle, alloc),
        Call::Link => has_answered(link(alloc, 2)),
        Call::Table => has_answered(table(alloc, log, &Clause::Active)),
    }
}

/// The logs of the election, and those of a circle.
fn two_rings(alloc: Global) -> Option<(Logs<Memory>, Logs<Memory>)> {
    let memory = Refusing::new(alloc).ok()?;
    let logs = logs_of(memory.clone().ok()?, &ELECTION)?;
    Some((logs, logs_of(memory, &CIRCLE)?))
}

#[test]
fn each_growth_is_refused(rt: HostRuntime) {
    let (logs, circle) = two_rings(rt.alloc()).expect(&rt, "the logs of two rings");
    let refused = each_growth_refused(rt.alloc(), CALLS, |call, alloc| {
        answers(&rt, call, alloc, &logs, &circle)
    });
    assert!(rt; refused.is_ok(), "{refused:?}");
}

/// Matching takes no memory, and comes first.
#[test]
fn receipts_exchanged(rt: HostRuntime) {
    let memory = Refusing::new(rt.alloc()).expect(&rt, "memory");
    let handle = memory.clone().expect(&rt, "memory");
    let logs = logs_of(handle, &RECEIPTS_EXCHANGED).expect(&rt, "two logs");
    memory.refuse(1);
    let differs = MatchFault::Differs { link: 1, k: 1 };
    let found = order(memory, &logs).err();
    assert!(rt; found == Some(OrderFault::Match(differs)), "{found:?}");
}

#[test]
fn refused_push_keeps_what_was_taken(rt: HostRuntime) {
    let memory = Refusing::new(rt.alloc()).expect(&rt, "memory");
    let handle = memory.clone().expect(&rt, "memory");
    let many = b"draw 1\n".repeat(rt.alloc(), 1_000).expect(&rt, "memory");
    let mut sink = MemorySink::new(handle);
    let first = sink.push(b"irlog 1\n");
    memory.refuse(1);
    let refused = sink.push(&many);
    let is_kept = sink.bytes() == b"irlog 1\n".as_slice();
    memory.serve_all();
    let second = sink.push(b"nodes 2\n");
    let is_whole = sink.bytes() == b"irlog 1\nnodes 2\n".as_slice();
    assert!(rt; (first, refused, second) == (Ok(8), Err(SinkFault), Ok(8)));
    assert!(rt; is_kept && is_whole);
}

/// A fault of a line's end or depth stands before each growth for its clause.
#[test]
fn faults_of_lines_without_memory(rt: HostRuntime) {
    let memory = Refusing::new(rt.alloc()).expect(&rt, "memory");
    for (text, fault) in [(TOO_DEEP, AskFault::Depth(4)), (UNENDED, AskFault::Cut)] {
        memory.refuse(1);
        let alloc = memory.clone().expect(&rt, "memory");
        let answer = read_question(alloc, text);
        assert!(rt; memory.asked() == 1 && answer.err() == Some(fault));
    }
}
