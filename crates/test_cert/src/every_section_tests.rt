ghost use Rattle.std.specs.Prelude.{◌≡◌};
ghost use Rattle.ira_cert.specs.Conjuncts.{HasPlacesOf};

use ira_cert::{CertStep, Section, Verdict, check_plain};
use ira_event::Logs;
use ira_order::{Ordered, order};
use ira_pred::{Case, read_question};
use std::alloc::Global;
use test_fixtures::{
    ACTIVE_AND_PASSIVE, BOTH_LEAD, CHOOSING_AND_PASSIVE, ELECTION, LEADER_AND_ACTIVE, first_case,
    logs_of, step,
};

/// Every step between the two nodes with positions 0 to 5.
fn every_step(alloc: Global) -> Option<Vec<CertStep>> {
    let mut steps = Vec::new(alloc);
    for node in 0..2 {
        for other in 0..2 {
            for pos in 0..6 {
                for other_pos in 0..6 {
                    steps.push(step(node, pos, other, other_pos)).ok()?;
                }
            }
        }
    }
    Some(steps)
}

/// One where the section is sound for the case, and else none.
fn count_if_sound(
    alloc: Global,
    logs: &Logs<Global>,
    ordered: &Ordered<'_, Global>,
    case: &Case<Global>,
    steps: &[CertStep],
    spent: u8,
) -> u32
    requires order { ordered.now.logs ≡ logs.now }
    requires places { HasPlacesOf logs.now case.now }
{
    let Ok(steps) = steps.to_vec(alloc) else {
        return 0;
    };
    let section = Section { steps, spent };
    u32::from(check_plain(alloc, logs, ordered, case, &section) == Ok(Verdict::Yes))
}

/// How many sections of none, one or two of these steps are sound for the case.
fn count_sound_of(
    alloc: Global,
    logs: &Logs<Global>,
    ordered: &Ordered<'_, Global>,
    case: &Case<Global>,
    steps: &[CertStep],
    spent: u8,
) -> u32
    requires order { ordered.now.logs ≡ logs.now }
    requires places { HasPlacesOf logs.now case.now }
{
    let mut sound = count_if_sound(alloc, logs, ordered, case, &[], spent);
    for first in steps {
        let one = count_if_sound(alloc, logs, ordered, case, &[*first], spent);
        sound = sound.saturating_add(one);
        for second in steps {
            let two = count_if_sound(alloc, logs, ordered, case, &[*first, *second], spent);
            sound = sound.saturating_add(two);
        }
    }
    sound
}

/// How many sections of at most two steps are sound for the question's case.
fn count_sound(alloc: Global, question: &[u8]) -> Option<u32> {
    let logs = logs_of(alloc, &ELECTION)?;
    let ordered = order(alloc, &logs).ok()?;
    let question = read_question(alloc, question).ok()?;
    let case = first_case(&question, &logs)?;
    let steps = every_step(alloc)?;
    let of_node_0 = count_sound_of(alloc, &logs, &ordered, case, &steps, 0);
    Some(of_node_0.saturating_add(count_sound_of(alloc, &logs, &ordered, case, &steps, 1)))
}

/// Whether a cut of the election holds each message's sending where it holds the receipt. Node 0 sends
/// with event 2 and receives with events 3 and 4, node 1 sends with events 2 and 4 and receives with
/// event 3.
fn is_consistent(first: u32, second: u32) -> bool {
    (first < 3 || second >= 2) && (first < 4 || second >= 4) && (second < 3 || first >= 2)
}

/// How many of the 25 cuts are consistent and have these nodes at some of these positions.
fn count_met(first: &[u32], second: &[u32]) -> u32 {
    let mut met: u32 = 0;
    for a in 0..5 {
        for b in 0..5 {
            if is_consistent(a, b) && first.contains(&a) && second.contains(&b) {
                met = met.saturating_add(1);
            }
        }
    }
    met
}

// Where no cut meets the case, one section of so few steps is sound, and where one does, none is.
#[test]
fn sound_sections_leave_no_cut(rt: HostRuntime) {
    // Node 0 chooses in state 0, is active in states 1 to 3 and leads in state 4. Node 1 chooses in state
    // 0, is active in states 1 and 2 and passive in states 3 and 4.
    let active_0: &[u32] = &[1, 2, 3];
    let active_1: &[u32] = &[1, 2];
    for (question, first, second, wanted) in [
        (BOTH_LEAD, [4].as_slice(), [].as_slice(), (Some(1), 0)),
        (LEADER_AND_ACTIVE, [4].as_slice(), active_1, (Some(1), 0)),
        (
            ACTIVE_AND_PASSIVE,
            active_0,
            [3, 4].as_slice(),
            (Some(0), 4),
        ),
        (
            CHOOSING_AND_PASSIVE,
            [0].as_slice(),
            [3, 4].as_slice(),
            (Some(1), 0),
        ),
    ] {
        let counts = (count_sound(rt.alloc(), question), count_met(first, second));
        assert!(rt; counts == wanted, "{counts:?}");
    }
}
