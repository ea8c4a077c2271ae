ghost use Rattle.std.specs.Prelude.{◌≡◌};

use ira_cert::{Verdict, check_plain};
use ira_elim::{Found, decide};
use ira_event::Logs;
use ira_order::{Ordered, order};
use ira_pred::read_question;
use std::alloc::Global;
use std::process::Abort;
use test_fixtures::{ELECTION, LONE_INITIATOR, first_case, logs_of};

/// A clause, and the positions at which it holds of the first and of the last node.
#[derive(Clone, Copy)]
struct Sample {
    clause: &'static str,
    first: &'static [u32],
    last: &'static [u32],
}

/// A clause and its positions.
const fn holding(clause: &'static str, first: &'static [u32], last: &'static [u32]) -> Sample {
    Sample {
        clause,
        first,
        last,
    }
}

/// The lesser at each place of two cuts; no cut counts as above all.
fn lesser<const N: usize>(found: Option<[u32; N]>, cut: [u32; N]) -> [u32; N] {
    let Some(mut least) = found else {
        return cut;
    };
    for i in 0..N {
        least[i] = least[i].min(cut[i]);
    }
    least
}

/// Of the cuts of the election that are consistent and have the nodes at some of these positions the
/// least. Node 0 sends with event 2 and receives with events 3 and 4, node 1 sends with events 2 and 4 and
/// receives with event 3.
fn least_of_two(first: &[u32], last: &[u32]) -> Option<[u32; 2]> {
    let mut least = None;
    for a in 0..5 {
        for b in 0..5 {
            let consistent = (a < 3 || b >= 2) && (a < 4 || b >= 4) && (b < 3 || a >= 2);
            if consistent && first.contains(&a) && last.contains(&b) {
                least = Some(lesser(least, [a, b]));
            }
        }
    }
    least
}

/// The same for the lone initiator, whose message goes round: node 0 sends with event 2 and receives with
/// event 3, the others receive with event 1 and send with event 2.
fn least_of_three(first: &[u32], last: &[u32]) -> Option<[u32; 3]> {
    let mut least = None;
    for a in 0..4 {
        for b in 0..3 {
            for c in 0..3 {
                let consistent = (b < 1 || a >= 2) && (c < 1 || b >= 2) && (a < 3 || c >= 2);
                if consistent && first.contains(&a) && last.contains(&c) {
                    least = Some(lesser(least, [a, b, c]));
                }
            }
        }
    }
    least
}

/// Whether the case that the first and the last node are as in these samples is found present at this cut, or else
/// absent with a section that the checker takes.
fn is_found(
    alloc: Global,
    logs: &Logs<Global>,
    ordered: &Ordered<'_, Global>,
    first: &str,
    last: &str,
    least: Option<&[u32]>,
) -> Option<bool>
    requires { ordered.now.logs ≡ logs.now }
{
    let nodes = logs.size().get();
    let text = format!(in alloc;
        "irask 1\nnodes {nodes}\ncase\n0: {first}\n{}: {last}\nend\n",
        nodes - 1
    )
    .ok()?;
    let question = read_question(alloc, text.as_bytes()).ok()?;
    let case = first_case(&question, logs)?;
    let found = decide(alloc, logs, ordered, case).ok()?;
    let is_found = match (&found, least) {
        (Found::Absent(section), None) => {
            check_plain(alloc, logs, ordered, case, section) == Ok(Verdict::Yes)
        }
        (Found::Present(cut), Some(least)) => cut.positions() == least,
        _ => false,
    };
    Some(is_found)
}

/// Compares what is found of that case.
fn assert_found(
    rt: &(impl Abort + AllocGlobal),
    logs: &Logs<Global>,
    ordered: &Ordered<'_, Global>,
    first: &str,
    last: &str,
    least: Option<&[u32]>,
)
    requires { ordered.now.logs ≡ logs.now }
{
    let is_found = is_found(rt.alloc(), logs, ordered, first, last, least);
    assert!(rt; is_found == Some(true), "{first} and {last}");
}

#[test]
fn election_as_searched(rt: HostRuntime) {
    let samples = [
        holding("true", &[0, 1, 2, 3, 4], &[0, 1, 2, 3, 4]),
        holding("choosing", &[0], &[0]),
        holding("active", &[1, 2, 3], &[1, 2]),
        holding("passive", &[], &[3, 4]),
        holding("leader", &[4], &[]),
        holding("owes", &[1], &[1, 3]),
        holding("id = 2", &[1, 2, 3, 4], &[]),
        holding("id < 2", &[], &[1, 2]),
        holding("round = 1", &[0, 1, 2, 3, 4], &[0, 1, 2]),
        holding("(not owes)", &[0, 2, 3, 4], &[0, 2, 4]),
        holding("(not active)", &[0, 4], &[0, 3, 4]),
        holding("(passive or choosing)", &[0], &[0, 3, 4]),
    ];
    let logs = logs_of(rt.alloc(), &ELECTION).expect(&rt, "the logs of one ring");
    let ordered = order(rt.alloc(), &logs).expect(&rt, "an order");
    for a in &samples {
        for b in &samples {
            let least = least_of_two(a.first, b.last);
            let least = least.as_ref().map(|cut| cut.as_slice());
            assert_found(&rt, &logs, &ordered, a.clause, b.clause, least);
        }
    }
}

#[test]
fn lone_initiator_as_searched(rt: HostRuntime) {
    let samples = [
        holding("true", &[0, 1, 2, 3], &[0, 1, 2]),
        holding("choosing", &[0], &[]),
        holding("active", &[1, 2], &[]),
        holding("passive", &[], &[0, 1, 2]),
        holding("leader", &[3], &[]),
        holding("owes", &[1], &[1]),
        holding("(not owes)", &[0, 2, 3], &[0, 2]),
        holding("(not active)", &[0, 3], &[0, 1, 2]),
    ];
    let logs = logs_of(rt.alloc(), &LONE_INITIATOR).expect(&rt, "the logs of one ring");
    let ordered = order(rt.alloc(), &logs).expect(&rt, "an order");
    for a in &samples {
        for b in &samples {
            let least = least_of_three(a.first, b.last);
            let least = least.as_ref().map(|cut| cut.as_slice());
            assert_found(&rt, &logs, &ordered, a.clause, b.clause, least);
        }
    }
}
