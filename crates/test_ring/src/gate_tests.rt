// What the gate of a ring's threads sees: that the nodes run at once, that a message comes after its sending, when
// nodes pass, and that each started thread has ended.
use crate::samples::{assert_run, has_events, setup_of};
use ira_event::{Event, NodeLog, RingSize};
use ira_links::{Gate, OpenGate};
use ira_ring::{NodeEnd, Run, RunFault, Setup, run_ring};
use std::alloc::{AllocError, Global};
use std::process::Abort;
use std::sync::Wait;
use std::sync::atomic::{AtomicU64, Ordering};
use std::thread;
use std::thread::Threads;
use std::time::{Clock, Duration};
use test_fixtures::{Meeting, Passes, TURN, clean, comes_to, loser, winner};

/// The election of two nodes at this gate.
fn elect<R, G>(rt: &R, gate: &G) -> Run<Global>
where
    R: Abort + AllocGlobal + Threads + Wait + Clock + Sync,
    G: Gate + Sync,
{
    let setup = setup_of(rt, 2, &[true, true], &[&[2], &[1]], 100);
    run_ring(rt, rt.alloc(), &setup, gate).expect(rt, "a run")
}

fn assert_elected(rt: &impl Abort, run: &Run<Global>) {
    let ends = [NodeEnd::Leader, NodeEnd::Stopped];
    assert_run(rt, run, &[&winner(), &loser()], &ends);
}

#[test]
fn two_nodes_run_at_once(rt: HostRuntime) {
    let gate = Meeting::new(2);
    assert_elected(&rt, &elect(&rt, &gate));
    assert_eq!(rt; gate.missed(), 0);
}

/// Holds node 0 in its second pass until node 1 has entered its third, and then for `A_WHILE` turns more.
#[derive(Drop)]
struct Sending {
    of_node_0: AtomicU64,
    of_node_1: AtomicU64,
    missed: AtomicU64,
    early: AtomicU64,
}

const A_WHILE: u32 = 200;

impl Sending {
    fn new() -> Sending {
        Sending {
            of_node_0: AtomicU64::new(0),
            of_node_1: AtomicU64::new(0),
            missed: AtomicU64::new(0),
            early: AtomicU64::new(0),
        }
    }

    /// How often the nodes passed, and of the one that was held: how often the other one didn't come, and came early.
    fn counts(&self) -> [u64; 4] {
        [
            self.of_node_0.load(Ordering::SeqCst),
            self.of_node_1.load(Ordering::SeqCst),
            self.missed.load(Ordering::SeqCst),
            self.early.load(Ordering::SeqCst),
        ]
    }

    fn hold<R: Clock>(&self, rt: &R) {
        if !comes_to(rt, &self.of_node_1, 3) {
            self.missed.fetch_add(1, Ordering::SeqCst);
        }
        for _ in 0..A_WHILE {
            thread::sleep(rt, Duration::from_millis(TURN));
        }
        if self.of_node_1.load(Ordering::SeqCst) > 3 {
            self.early.fetch_add(1, Ordering::SeqCst);
        }
    }
}

impl Gate for Sending {
    fn pass<R: Wait + Clock>(&self, rt: &R, who: u32) {
        if who == 1 {
            self.of_node_1.fetch_add(1, Ordering::SeqCst);
        } else if self.of_node_0.fetch_add(1, Ordering::SeqCst) == 1 {
            self.hold(rt);
        }
    }

    fn admit(&self, _who: u32) -> bool {
        true
    }
}

#[test]
fn nothing_is_received_before_it_is_sent(rt: HostRuntime) {
    let gate = Sending::new();
    assert_elected(&rt, &elect(&rt, &gate));
    assert_eq!(rt; gate.counts(), [4, 5, 0, 0]);
}

/// Compares how often the nodes pass in a run, a digit for each.
fn assert_passes<R: Abort + AllocGlobal + Threads + Wait + Clock + Sync>(
    rt: &R,
    setup: &Setup<Global>,
    passes: u64,
) {
    let gate = Passes::new();
    let has_run = run_ring(rt, rt.alloc(), setup, &gate).is_ok();
    let found = gate.counts();
    assert!(rt; has_run && found == passes, "{found:x}");
}

/// Both nodes draw 1 and pass once before each of their five events; for the draw that each lacks then they pass no
/// gate.
#[test]
fn draws_spent_on_both(rt: HostRuntime) {
    let setup = setup_of(&rt, 2, &[true, true], &[&[1], &[1]], 100);
    assert_passes(&rt, &setup, 0x55);
}

/// Node 0 passes before each of its eleven events but its yield, and before it takes the end; node 1 before each of its
/// ten events.
#[test]
fn a_yield_passes_no_gate(rt: HostRuntime) {
    let mut setup = setup_of(&rt, 2, &[true, true], &[&[2, 1], &[1, 2]], 100);
    setup.terms = 2;
    assert_passes(&rt, &setup, 0xab);
}

/// Holds node 1 in its first pass until node 0 has entered its ninth, after its fourth sending.
#[derive(Drop)]
struct LateReader {
    of_node_0: AtomicU64,
    of_node_1: AtomicU64,
    missed: AtomicU64,
}

impl Gate for LateReader {
    fn pass<R: Wait + Clock>(&self, rt: &R, who: u32) {
        if who == 0 {
            self.of_node_0.fetch_add(1, Ordering::SeqCst);
        } else if who == 1
            && self.of_node_1.fetch_add(1, Ordering::SeqCst) == 0
            && !comes_to(rt, &self.of_node_0, 9)
        {
            self.missed.fetch_add(1, Ordering::SeqCst);
        }
    }

    fn admit(&self, _who: u32) -> bool {
        true
    }
}

// Node 0 sends its own message, and passes on those of nodes 4, 3 and 2. On a link that held three frames, it would
// wait in its fourth sending until node 1 is let go.
#[test]
fn a_link_holds_what_its_reader_is_late_for(rt: HostRuntime) {
    let draws: [&[u32]; 5] = [&[1], &[2], &[5], &[4], &[3]];
    let setup = setup_of(&rt, 5, &[true; 5], &draws, 100);
    let gate = LateReader {
        of_node_0: AtomicU64::new(0),
        of_node_1: AtomicU64::new(0),
        missed: AtomicU64::new(0),
    };
    let has_run = run_ring(&rt, rt.alloc(), &setup, &gate).is_ok();
    assert!(rt; has_run && gate.missed.load(Ordering::SeqCst) == 0);
}

/// Admits all nodes of a ring of at most three but one, and keeps a node in each pass for a while.
#[derive(Drop)]
struct AllButOne {
    place: u32,
    asked: AtomicU64,
    entered: [AtomicU64; 3],
    inside: AtomicU64,
}

impl AllButOne {
    fn new(place: u32) -> AllButOne {
        AllButOne {
            place,
            asked: AtomicU64::new(0),
            entered: [AtomicU64::new(0), AtomicU64::new(0), AtomicU64::new(0)],
            inside: AtomicU64::new(0),
        }
    }

    /// Whether no node is left in a pass, each up to the one that isn't admitted was asked for, and those before it
    /// came to their draws.
    fn has_ended_all(&self) -> bool {
        let [first, second, third] = &self.entered;
        for (node, entered) in [(0, first), (1, second), (2, third)] {
            if (entered.load(Ordering::SeqCst) > 0) != (node < self.place) {
                return false;
            }
        }
        self.inside.load(Ordering::SeqCst) == 0
            && self.asked.load(Ordering::SeqCst) == u64::from(self.place) + 1
    }
}

impl Gate for AllButOne {
    fn pass<R: Wait + Clock>(&self, rt: &R, who: u32) {
        self.inside.fetch_add(1, Ordering::SeqCst);
        if let Some(entered) = self.entered.get(who as usize) {
            entered.fetch_add(1, Ordering::SeqCst);
        }
        thread::sleep(rt, Duration::from_millis(10 * TURN));
        self.inside.fetch_sub(1, Ordering::SeqCst);
    }

    fn admit(&self, who: u32) -> bool {
        self.asked.fetch_add(1, Ordering::SeqCst);
        who != self.place
    }
}

/// Runs a ring of which the gate admits all nodes but that of a place.
fn assert_refused_from<R: Abort + AllocGlobal + Threads + Wait + Clock + Sync>(
    rt: &R,
    setup: &Setup<Global>,
    place: u32,
) {
    let gate = AllButOne::new(place);
    let refused = run_ring(rt, rt.alloc(), setup, &gate).err();
    let has_ended_all = gate.has_ended_all();
    assert!(rt;
        refused == Some(RunFault::Thread) && has_ended_all,
        "place {place}"
    );
}

#[test]
fn refused_start_ends_all(rt: HostRuntime) {
    let setup = setup_of(&rt, 2, &[true, true], &[&[2], &[1]], 100);
    for place in 0..2 {
        assert_refused_from(&rt, &setup, place);
    }
    let setup = setup_of(&rt, 3, &[true, true, true], &[&[3], &[1], &[2]], 100);
    for place in 0..3 {
        assert_refused_from(&rt, &setup, place);
    }
}

/// The setup of a ring of so many in which each node but the last draws less than the next one.
fn rising_setup(alloc: Global, size: RingSize) -> Result<Setup<Global>, AllocError> {
    let nodes = size.get();
    let mut draws = Vec::new(alloc);
    for place in 0..nodes {
        draws.push(vec![in alloc; u32::from(place) + 1]?)?;
    }
    Ok(Setup {
        nodes: size,
        initiators: vec![in alloc; true; usize::from(nodes)]?,
        draws,
        cap: 100,
        terms: 1,
    })
}

/// Whether this is the log of its node of so many, where the last one's message went round.
fn has_passed_on(log: &NodeLog<Global>, place: u8, nodes: u8) -> bool {
    let (id, greatest) = (u32::from(place) + 1, u32::from(nodes));
    let drawn = Event::Draw(id);
    let sent = Event::Sent(clean(1, id, 1));
    let less = Event::Got(clean(1, u32::from(place), 1));
    let last = Event::Got(clean(1, greatest, id));
    let passed = Event::Sent(clean(1, greatest, id + 1));
    if place == 0 {
        has_events(log, &[drawn, sent, last, passed])
    } else if id == greatest {
        has_events(log, &[drawn, sent, less, last])
    } else {
        has_events(log, &[drawn, sent, less, last, passed])
    }
}

/// Whether each node but the last of so many passed on its message, and the last one leads.
fn has_elected_last(run: &Run<Global>, nodes: u8) -> bool {
    for place in 0..run.logs().size().get() {
        let end = run.ends().get(usize::from(place)).copied();
        let expected = if u32::from(place) + 1 == u32::from(nodes) {
            NodeEnd::Leader
        } else {
            NodeEnd::Stopped
        };
        if end != Some(expected) || !has_passed_on(run.logs().log(place), place, nodes) {
            return false;
        }
    }
    run.logs().size().get() == nodes
}

/// Whether a ring of so many elects its last node.
fn elects_last<R: AllocGlobal + Threads + Wait + Clock + Sync>(rt: &R, nodes: u8) -> Option<bool> {
    let setup = rising_setup(rt.alloc(), RingSize::new(nodes)?).ok()?;
    let run = run_ring(rt, rt.alloc(), &setup, &OpenGate).ok()?;
    Some(has_elected_last(&run, nodes))
}

#[test]
fn larger_rings(rt: HostRuntime) {
    let elect_last = [
        elects_last(&rt, 64),
        elects_last(&rt, 65),
        elects_last(&rt, 255),
    ];
    assert!(rt;
        elect_last == [Some(true), Some(true), Some(true)],
        "{elect_last:?}"
    );
}
