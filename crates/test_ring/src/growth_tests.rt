//! Each growth of a call is refused in turn, and a writer's sink fails after each byte. A call gives up then for no other
//! reason, or answers all the same; that its answer is the right one is proved.

use ira_event::RingSize;
use ira_links::OpenGate;
use ira_ring::{
    Collector, Run, RunFault, Setup, draw_lists, run_alone, run_alone_seeded, run_ring, write_ends,
};
use std::alloc::Global;
use std::process::Abort;
use std::sync::Wait;
use std::thread::Threads;
use std::time::Clock;
use test_refusing::{
    FailingSink, Refusing, Writer, answered, each_byte_refused, each_growth_refused, has_answered,
};

type Memory = Refusing<Global>;

/// The calls whose growths are refused.
enum Call {
    DrawLists,
    NewCollector,
    RunAlone,
    RunAloneSeeded,
    RunRing,
}

const CALLS: &[Call] = &[
    Call::DrawLists,
    Call::NewCollector,
    Call::RunAlone,
    Call::RunAloneSeeded,
    Call::RunRing,
];

/// What the calls are made on.
#[derive(Drop)]
struct Given {
    largest: RingSize,
    /// The election's: seed 7 gives the draws 2 and 1.
    setup: Setup<Memory>,
}

impl Given {
    fn new(rt: &(impl Abort + AllocGlobal)) -> Given {
        let largest = RingSize::new(64).expect(rt, "a ring of 64");
        let nodes = RingSize::new(2).expect(rt, "a ring of two");
        let memory = Refusing::new(rt.alloc()).expect(rt, "memory");
        let handle = memory.clone().expect(rt, "memory");
        let initiators = [true, true].to_vec(handle).expect(rt, "memory");
        let draws = draw_lists(memory, nodes, 7, 1).expect(rt, "memory");
        let setup = Setup {
            nodes,
            initiators,
            draws,
            cap: 100,
            terms: 1,
        };
        Given { largest, setup }
    }

    /// Whether the call answers with this memory.
    fn answers<R>(&self, rt: &R, call: &Call, alloc: Memory) -> bool
    where
        R: Abort + Threads + Wait + Clock + Sync,
    {
        let Given { largest, setup } = self;
        match call {
            Call::DrawLists => has_answered(draw_lists(alloc, *largest, 42, 1)),
            Call::NewCollector => has_answered(Collector::new(alloc, setup.nodes)),
            Call::RunAlone => is_run(rt, run_alone(alloc, setup).err()),
            Call::RunAloneSeeded => {
                let run = run_alone_seeded(alloc, setup.nodes, &[true, true], 7, 100, 100, 1);
                is_run(rt, run.err())
            }
            Call::RunRing => has_run(rt, alloc, setup),
        }
    }
}

/// Whether a run on one thread came to its end. Else memory ran out.
fn is_run(rt: &impl Abort, fault: Option<RunFault>) -> bool {
    answered(&fault, &None, &Some(RunFault::OutOfMemory)).expect(
        rt,
        "its answer, or want of memory",
    )
}

/// Whether the ring is run on threads. Where it isn't, memory ran out, or a thread wasn't started.
fn has_run<R>(rt: &R, alloc: Memory, setup: &Setup<Memory>) -> bool
where
    R: Abort + Threads + Wait + Clock + Sync,
{
    let fault = run_ring(rt, alloc, setup, &OpenGate).err();
    assert!(rt; matches!(fault, None | Some(RunFault::OutOfMemory | RunFault::Thread)));
    fault.is_none()
}

#[test]
fn each_growth_is_refused(rt: HostRuntime) {
    let given = Given::new(&rt);
    let refused = each_growth_refused(
        rt.alloc(),
        CALLS,
        |call, alloc| given.answers(&rt, call, alloc),
    );
    assert!(rt; refused.is_ok(), "{refused:?}");
}

/// The text of a run's ends.
#[derive(Drop)]
struct Ends<'a>(&'a Run<Global>);

impl Writer for Ends<'_> {
    fn is_refused(&self, sink: &mut FailingSink) -> bool {
        write_ends(self.0, sink).is_err()
    }
}

#[test]
fn sink_fails_after_each_byte(rt: HostRuntime) {
    let nodes = RingSize::new(2).expect(&rt, "a ring of two");
    let run = run_alone_seeded(rt.alloc(), nodes, &[true, true], 7, 1, 100, 1).expect(&rt, "a run");
    let ends = b"node 0: leader, 4 events\nnode 1: quiet, 4 events\n";
    let refused = each_byte_refused(rt.alloc(), &Ends(&run), ends);
    assert!(rt; refused == Ok(()), "{refused:?}");
}
