//! What the program answers where a growth is refused, or a write of its answer fails after each byte. What the
//! library of its command line allocates comes from the system's allocator alone, and is never refused here. What a
//! shelf gives to be read is in no contract, so that answers are compared.

use crate::fakes::{Input, Memory, MemoryShelf, NEVER, Output, served, served_amply};
use ira_main_files::CountingReader;
use std::process::Abort;
use std::sync::Wait;
use std::thread::Threads;
use std::time::Clock;
use test_fixtures::{ELECTION_0, ELECTION_1, EXCHANGED_0, LEADER_AND_ACTIVE, TWO_CASES, TWO_STEPS};
use test_refusing::each_growth_refused;

/// A call of the program, and what it answers with ample memory.
struct Case {
    words: &'static [&'static str],
    status: u8,
    out: &'static str,
    err: &'static str,
    written: &'static [(&'static str, &'static [u8])],
}

const FILES: &[(&str, &[u8])] = &[
    ("0.log", ELECTION_0),
    ("1.log", ELECTION_1),
    ("ring/0.log", ELECTION_0),
    ("ring/1.log", ELECTION_1),
    ("exchanged/0.log", EXCHANGED_0),
    ("exchanged/1.log", ELECTION_1),
    ("one", LEADER_AND_ACTIVE),
    ("two", TWO_CASES),
    ("c", TWO_STEPS),
];

const ELECTION: &[(&str, &[u8])] = &[("d/0.log", ELECTION_0), ("d/1.log", ELECTION_1)];

/// The logs of the election in version 2.
const UPGRADED: &[(&str, &[u8])] = &[
    (
        "d/0.log",
        b"irlog 2\nnodes 2\nplace 0\nstart initiator\ndraw 2\nsend 1 2 1 clean\n\
          recv 1 1 1 clean\nrecv 1 2 2 clean\nend 4\n",
    ),
    (
        "d/1.log",
        b"irlog 2\nnodes 2\nplace 1\nstart initiator\ndraw 1\nsend 1 1 1 clean\n\
          recv 1 2 1 clean\nsend 1 2 2 clean\nend 4\n",
    ),
];

/// The logs of two nodes of which the first initiates and can't draw.
const EMPTY: &[(&str, &[u8])] = &[
    (
        "d/0.log",
        b"irlog 1\nnodes 2\nplace 0\nstart initiator\nend 0\n",
    ),
    (
        "d/1.log",
        b"irlog 1\nnodes 2\nplace 1\nstart passive\nend 0\n",
    ),
];

const CASES: &[Case] = &[
    Case {
        words: &[],
        status: 0,
        out: "yes\n",
        err: "",
        written: &[],
    },
    Case {
        words: &["logs", "0.log", "1.log"],
        status: 0,
        out: "yes\n",
        err: "",
        written: &[],
    },
    Case {
        words: &["logs", "--dir=ring"],
        status: 0,
        out: "yes\n",
        err: "",
        written: &[],
    },
    Case {
        words: &["logs", "1.log", "0.log"],
        status: 1,
        out: "no: heads: place 0\n",
        err: "",
        written: &[],
    },
    Case {
        words: &["explain", "--dir=ring"],
        status: 0,
        out: "yes\n\n  Node 0 leads in round 1 with ID 2. 2 nodes, 8 events; 3 messages sent, 3 received, \
              0 on the way.\n\n  The election is over.\n",
        err: "",
        written: &[],
    },
    Case {
        words: &["explain", "--question=two", "--case=1", "0.log", "1.log"],
        status: 1,
        out: "case 0: absent, 2 steps, node 1 spent\ncase 1: present at 2 3\n\n  \
              case 1 (0: active, 1: passive)\n    \
              Of the moments that meet it this is the first: each other is there or later at every node.\n    \
              node 0  asked active   is active in round 1 with ID 2, after 0.log:6: send 1 2 1 clean\n    \
              node 1  asked passive  is passive, owes 1 2 2 clean, after 1.log:7: recv 1 2 1 clean\n    \
              On their way: 1 1 1 clean from node 1.\n    \
              The way there: ira show --events --question two --case 1 LOG..\n",
        err: "",
        written: &[],
    },
    Case {
        words: &["explain", "--question=one", "--cert=c", "0.log", "1.log"],
        status: 0,
        out: "yes\n\n  Node 0 leads in round 1 with ID 2. 2 nodes, 8 events; 3 messages sent, 3 received, \
              0 on the way.\n  1 case, 2 steps: no moment of any order of these events met any case.\n",
        err: "",
        written: &[],
    },
    Case {
        words: &["explain", "--json", "1.log", "0.log"],
        status: 1,
        out: "{\"answer\":\"no: heads: place 0\",\"evidence\":[\
              {\"file\":\"1.log\",\"log\":0,\"nodes\":2,\"place\":1,\"role\":\"head\",\"version\":1},\
              {\"file\":\"0.log\",\"log\":1,\"nodes\":2,\"place\":0,\"role\":\"head\",\"version\":1}],\
              \"fault\":\"place\",\"hints\":[\"logs 0 and 1 hold each other's places: their order, their names, or their \
              `place` lines are exchanged.\"],\
              \"log\":0,\"reason\":\"heads\",\"status\":1,\"type\":\"answer\",\"version\":1}\n",
        err: "",
        written: &[],
    },
    Case {
        words: &["explain", "--json", "--dir=exchanged"],
        status: 1,
        out: "{\"answer\":\"no: link 1: receipt 1 differs\",\"events\":8,\"evidence\":[\
              {\"event\":2,\"file\":\"exchanged/1.log\",\"line\":6,\"node\":1,\
              \"record\":\"send 1 1 1 clean\",\"role\":\"sent\"},\
              {\"event\":3,\"file\":\"exchanged/0.log\",\"line\":7,\"node\":0,\
              \"record\":\"recv 1 2 2 clean\",\"role\":\"received\"},\
              {\"event\":4,\"fault\":\"ended\",\"file\":\"exchanged/0.log\",\"happened_before\":false,\
              \"line\":8,\"node\":0,\"record\":\"recv 1 1 1 clean\",\"role\":\"other\"}],\
              \"fault\":\"differs\",\"hints\":[\"receipts 1 and 2 are sendings 2 and 1: the link changed \
              their order, or the records were sorted.\"],\"link\":1,\"nodes\":2,\"reason\":\"link\",\
              \"receipt\":1,\"status\":1,\"type\":\"answer\",\"version\":1}\n",
        err: "",
        written: &[],
    },
    Case {
        words: &[
            "explain",
            "--json",
            "--question=two",
            "--case=1",
            "0.log",
            "1.log",
        ],
        status: 1,
        out: "{\"answer\":\"present\",\"events\":8,\"hints\":[],\"nodes\":2,\"reason\":null,\"status\":1,\
              \"type\":\"answer\",\"version\":1}\n\
              {\"case\":0,\"found\":\"absent\",\"spent\":1,\"steps\":2,\"type\":\"case\"}\n\
              {\"asks\":[{\"clause\":\"active\",\"line\":7,\"node\":0},\
              {\"clause\":\"passive\",\"line\":8,\"node\":1}],\
              \"case\":1,\"cut\":[2,3],\"found\":\"present\",\"type\":\"case\"}\n",
        err: "",
        written: &[],
    },
    Case {
        words: &["show", "--leads=1", "--at=1,0", "0.log", "1.log"],
        status: 1,
        out: "yes\nnode 0 leads, and isn't named\nnode 1 doesn't lead: passive\n\nAt the cut 1 0:\n\n  \
              round  drew  greatest ID  of node\n      1     1            2  0\n\n  \
              node  start      events     of  draws  sent  received  dropped  state\n     \
              0  initiator       1      4      1     0         0        0  \
              active in round 1 with ID 2, owes 1 2 1 clean\n     \
              1  initiator       0      4      0     0         0        0  choosing in round 1\n\n  \
              No message is on its way.\n\n  \
              The election isn't over. What comes next:\n  node 0 sends 1 2 1 clean\n  node 1 draws\n",
        err: "",
        written: &[],
    },
    Case {
        words: &["show", "--events", "--question=two", "0.log", "1.log"],
        status: 0,
        out: "yes\n\nThe first moment of case 1 (0: active, 1: passive):\n\n  \
              1  node 0  event 1  draw 2                       active in round 1 with ID 2, owes 1 2 1 clean\n  \
              2  node 1  event 1  draw 1                       active in round 1 with ID 1, owes 1 1 1 clean\n  \
              3  node 0  event 2  send 1 2 1 clean\n  \
              4  node 1  event 2  send 1 1 1 clean\n  \
              5  node 1  event 3  recv 1 2 1 clean  of step 3  passive, owes 1 2 2 clean\n  \
              -- here: 2 3 --\n  \
              6  node 0  event 3  recv 1 1 1 clean  of step 4  dropped\n  \
              7  node 1  event 4  send 1 2 2 clean\n  \
              8  node 0  event 4  recv 1 2 2 clean  of step 7  leader in round 1 with ID 2\n",
        err: "",
        written: &[],
    },
    Case {
        words: &["show", "--question=two", "--case=0", "0.log", "1.log"],
        status: 0,
        out: "yes\n\nNo moment meets case 0.\n",
        err: "",
        written: &[],
    },
    Case {
        words: &["check", "--question=one", "--cert=c", "0.log", "1.log"],
        status: 0,
        out: "yes\n",
        err: "",
        written: &[],
    },
    Case {
        words: &["show", "--json", "--at=0,0", "0.log", "1.log"],
        status: 0,
        out: "{\"answer\":\"yes\",\"cut\":[0,0],\"events\":8,\"leaders\":[0],\"nodes\":2,\"over\":true,\
              \"received\":3,\"sent\":3,\"status\":0,\"type\":\"answer\",\"version\":1}\n\
              {\"draws\":0,\"dropped\":0,\"events\":0,\"file\":\"0.log\",\"node\":0,\"of\":4,\
              \"phase\":\"choosing\",\"received\":0,\"round\":1,\"sent\":0,\"start\":\"initiator\",\
              \"type\":\"node\"}\n\
              {\"draws\":0,\"dropped\":0,\"events\":0,\"file\":\"1.log\",\"node\":1,\"of\":4,\
              \"phase\":\"choosing\",\"received\":0,\"round\":1,\"sent\":0,\"start\":\"initiator\",\
              \"type\":\"node\"}\n\
              {\"next\":\"draw\",\"node\":0,\"type\":\"next\"}\n\
              {\"next\":\"draw\",\"node\":1,\"type\":\"next\"}\n",
        err: "",
        written: &[],
    },
    Case {
        words: &[
            "decide",
            "--json",
            "--question=one",
            "--out=made",
            "0.log",
            "1.log",
        ],
        status: 0,
        out: "{\"answer\":\"absent\",\"nodes\":2,\"status\":0,\"type\":\"answer\",\"version\":1}\n\
              {\"case\":0,\"found\":\"absent\",\"spent\":1,\"steps\":2,\"type\":\"case\"}\n",
        err: "",
        written: &[("made", TWO_STEPS)],
    },
    Case {
        words: &["decide", "--question=one", "--out=made", "0.log", "1.log"],
        status: 0,
        out: "case 0: absent, 2 steps, node 1 spent\n",
        err: "",
        written: &[("made", TWO_STEPS)],
    },
    Case {
        words: &["decide", "--question=two", "0.log", "1.log"],
        status: 1,
        out: "case 0: absent, 2 steps, node 1 spent\ncase 1: present at 2 3\n",
        err: "",
        written: &[],
    },
    Case {
        words: &["pairs", "3"],
        status: 0,
        out: "irask 1\nnodes 3\ncase\n0: leader\n1: leader\ncase\n0: leader\n2: leader\n\
              case\n1: leader\n2: leader\nend\n",
        err: "",
        written: &[],
    },
    Case {
        words: &["run", "--nodes=2", "--seed=7", "--out=d"],
        status: 0,
        out: "node 0: leader, 4 events\nnode 1: stopped, 4 events\n",
        err: "",
        written: ELECTION,
    },
    Case {
        words: &["run", "--nodes=2", "--seed=7", "--out=d", "--alone"],
        status: 0,
        out: "node 0: leader, 4 events\nnode 1: quiet, 4 events\n",
        err: "",
        written: ELECTION,
    },
    Case {
        words: &[
            "run",
            "--nodes=2",
            "--seed=7",
            "--out=d",
            "--initiators=1",
            "--draws=0",
        ],
        status: 1,
        out: "node 0: draws spent, 0 events\nnode 1: stopped, 0 events\n",
        err: "",
        written: EMPTY,
    },
    Case {
        words: &[
            "run",
            "--nodes=2",
            "--seed=7",
            "--out=d",
            "--initiators=1",
            "--draws=0",
            "--alone",
        ],
        status: 1,
        out: "node 0: draws spent, 0 events\nnode 1: quiet, 0 events\n",
        err: "",
        written: EMPTY,
    },
    Case {
        words: &["run", "--nodes=2", "--seed=7", "--out=d", "--initiators=0"],
        status: 2,
        out: "",
        err: "ira: run refused 1\n",
        written: &[],
    },
    Case {
        words: &["upgrade", "--out=d", "0.log", "1.log"],
        status: 0,
        out: "upgraded 2 logs\n",
        err: "",
        written: UPGRADED,
    },
    Case {
        words: &["mend", "--out=d", "0.log", "1.log"],
        status: 0,
        out: "node 0: 4 events\nnode 1: 4 events\n",
        err: "",
        written: ELECTION,
    },
];

impl Case {
    fn is_of(&self, command: &str) -> bool {
        self.words.first() == Some(&command)
    }

    /// Whether a call that answers so gives up: memory ran out, or a thread of a run wasn't started.
    fn gives_up(&self, found: &Output) -> bool {
        let starts_threads = self.is_of("run") && !self.words.contains(&"--alone");
        let told = (found.status, found.err.bytes());
        told == (3, b"ira: out of memory\n".as_slice())
            || starts_threads && told == (2, b"ira: run refused 3\n".as_slice())
    }
}

/// Whether the program answers the case with this memory, or gives up. `None` where neither is so.
fn answered<R>(rt: &R, case: &Case, alloc: Memory) -> Option<bool>
where
    R: AllocGlobal + Threads + Wait + Clock + Sync,
{
    let mut shelf = MemoryShelf::new(rt.alloc(), FILES);
    let mut input = CountingReader::new(Input::new(ELECTION_0));
    let found = served(
        rt,
        alloc,
        case.words,
        &mut shelf,
        &mut input,
        [NEVER, NEVER],
    );
    let out = found.out.bytes();
    let is_told = out == case.out.as_bytes() && found.err.bytes() == case.err.as_bytes();
    if is_told && found.status == case.status && shelf.has_written(case.written) {
        return Some(true);
    }
    // an order of events is printed in parts, and what is shown as JSON
    let is_parted = case.words.contains(&"--events") || case.words.starts_with(&["show", "--json"]);
    let is_part = is_parted && case.out.as_bytes().starts_with(out);
    (case.gives_up(&found) && (out.is_empty() || is_part)).then_some(false)
}

fn answers<R>(rt: &R, case: &Case, alloc: Memory) -> bool
where
    R: Abort + AllocGlobal + Threads + Wait + Clock + Sync,
{
    answered(rt, case, alloc).expect(rt, "the answer, or that the program gives up")
}

#[test]
fn each_growth_is_refused(rt: HostRuntime) {
    let refused = each_growth_refused(rt.alloc(), CASES, |case, alloc| answers(&rt, case, alloc));
    assert!(rt; refused.is_ok(), "{refused:?}");
}

/// Whether the program says that it can't write its answer to a sink that takes as many bytes as these, and has
/// written these. The logs of a run and those of an upgrade are in their files then; `decide` makes none.
fn is_cut_after(
    rt: &(impl Abort + AllocGlobal + Threads + Wait + Clock + Sync),
    case: &Case,
    taken: &[u8],
) -> bool {
    let mut shelf = MemoryShelf::new(rt.alloc(), FILES);
    let mut input = CountingReader::new(Input::new(ELECTION_0));
    let found = served_amply(rt, case.words, &mut shelf, &mut input, [taken.len(), NEVER]);
    let told = b"ira: cannot write the answer\n".as_slice();
    let is_kept = if case.is_of("decide") {
        shelf.has_written(&[])
    } else {
        shelf.has_written(case.written)
    };
    is_kept && (found.status, found.out.bytes(), found.err.bytes()) == (2, taken, told)
}

#[test]
fn answer_cut_at_each_byte(rt: HostRuntime) {
    for case in CASES {
        let out = case.out.as_bytes();
        for k in 0..out.len() {
            assert!(rt;
                is_cut_after(&rt, case, &out[..k]),
                "{k} bytes of {}",
                case.out
            );
        }
    }
}
