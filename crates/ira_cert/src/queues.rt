ghost use Rattle.std.specs.Prelude.{◌≡◌, ◌≢◌, ◌↔◌, ◌<◌, ◌≤◌, ℕ, List, [], IsTrue, MatchOption, MatchResult, OnOk, Some, length, drop, slice_get, slice_index_or, slice_set, take};
ghost use Rattle.std.specs.Option.{option_map};
ghost use Rattle.ira_event.specs.Log.{Log};
ghost use Rattle.ira_pred.specs.Case.{Conjunct};
ghost use Rattle.ira_cert_text.specs.declared.cert_step.CertStep.{CertStep};
ghost use Rattle.ira_cert.specs.declared.queue_head.QueueHead.{QueueHead};
ghost use Rattle.ira_cert.specs.declared.unsound.Unsound.{Unsound};
ghost use Rattle.ira_cert.specs.Conjuncts.{HasDifferentPlaces};
ghost use Rattle.ira_cert.specs.Queues.{AreQueues, HasList};
ghost use Rattle.ira_cert.specs.QueuesAfter.{AreQueuesAfter};
ghost use Rattle.ira_cert.specs.LastCount.{IsKnown};
ghost use Rattle.ira_cert.specs.QueueHead.{IsQueueHead};
ghost use Rattle.ira_cert.specs.SoundSection.{IsSoundStep, AreSoundSteps};
ghost use Rattle.ira_cert.specs.SectionFault.{WhyUnsound, IsFirstUnsoundStep};
ghost use Rattle.ira_cert.specs.Verdict.{IsVerdict};

use crate::last_count::LastCount;
use crate::queue_head::QueueHead;
use crate::section_fault::SectionFault;
use crate::soundness::judge_step;
use crate::unsound::Unsound;
use crate::verdict::Verdict;
use ira_cand::Ahead;
use ira_cert_text::{CertStep, Section};
use ira_event::Listed;
use ira_order::HappenedBefore;
use std::alloc::Allocator;

/// Judges a section for a case of which the candidates are at hand, place by place: those of a place
/// that the case asks, and none of another. Where they come from doesn't matter; nothing but one
/// position is kept of each, and of the steps the last count that was looked up.
pub fn check_queues<C, A, I>(
    ordered: &C,
    mut queues: Vec<Option<Ahead<I>>, A>,
    section: &Section<A>,
) -> Verdict
where
    C: HappenedBefore,
    A: Allocator,
    I: Iterator<Item = u32> + Listed + Drop,
    requires { length queues.items ≤ length (C.logs_of ordered.now) }
    ensures { (case : List Conjunct) → HasDifferentPlaces case → AreQueues (C.logs_of ordered.now) case queues.items
        → IsVerdict (C.logs_of ordered.now) case section.now result }
{
    let steps = section.steps.as_slice();
    if let Err(fault) = make_steps(ordered, &mut queues, steps, 0, steps.len()) {
        return Verdict::No(fault);
    }
    if !is_spent(&queues, section.spent) {
        return Verdict::No(SectionFault::NotSpent(section.spent));
    }
    Verdict::Yes
}

/// Makes the first `to` eliminations one after the other, as long as they are sound. The first `from` of these are made as
/// if they were.
pub fn make_steps<C: HappenedBefore, I: Iterator<Item = u32> + Listed>(
    ordered: &C,
    queues: &mut [Option<Ahead<I>>],
    steps: &[CertStep],
    from: usize,
    to: usize,
) -> Result<(), SectionFault>
    requires places { length queues.old ≤ length (C.logs_of ordered.now) }
    requires range { (from ≤ to) × (to ≤ length steps.now) }
    ensures { (case : List Conjunct) → HasDifferentPlaces case → AreQueues (C.logs_of ordered.now) case queues.old
        → AreSoundSteps (C.logs_of ordered.now) case (take from steps.now)
        → MatchResult result
        (λ _. AreSoundSteps (C.logs_of ordered.now) case (take to steps.now)
        × AreQueuesAfter (C.logs_of ordered.now) case (take to steps.now) queues.new)
        (λ f. (k : ℕ) × (why : Unsound) × (f ≡ SectionFault.Step k why)
        × IsFirstUnsoundStep (C.logs_of ordered.now) case steps.now k why) }
{
    for early in 0..from {
        let place = steps[early].node;
        if usize::from(place) < queues.len() {
            eliminate(queues, place);
        }
    }
    let mut last = None;
    for k in from..to {
        let step = &steps[k];
        if let Err(why) = check_step(ordered, queues, step, &mut last) {
            return Err(SectionFault::Step(k, why));
        }
        eliminate(queues, step.node);
    }
    Ok(())
}

/// Whether the step is sound after those that were made, and why not.
fn check_step<C: HappenedBefore, I: Iterator<Item = u32> + Listed>(
    ordered: &C,
    queues: &[Option<Ahead<I>>],
    step: &CertStep,
    last: &mut Option<LastCount>,
) -> Result<(), Unsound>
    requires places { length queues.now ≤ length (C.logs_of ordered.now) }
    requires known { IsKnown (C.logs_of ordered.now) last.old }
    ensures known { IsKnown (C.logs_of ordered.now) last.new }
    ensures place { OnOk result (step.now.node < length queues.now) }
    ensures verdict { (case : List Conjunct) (before : List CertStep) → HasDifferentPlaces case
        → AreQueuesAfter (C.logs_of ordered.now) case before queues.now
        → MatchResult result (λ _. IsSoundStep (C.logs_of ordered.now) case before step.now)
        (λ why. WhyUnsound (C.logs_of ordered.now) case before step.now why) }
{
    let own = left_at(queues, step.node);
    let other = left_at(queues, step.other);
    judge_step(ordered, step, own, other, last)
}

/// What is left of the node's candidates.
pub fn left_at<I: Iterator<Item = u32> + Listed>(
    queues: &[Option<Ahead<I>>],
    place: u8,
) -> QueueHead
    ensures place { result ≢ QueueHead.NotAsked → place < length queues.now }
    ensures left { (logs : List Log) (case : List Conjunct) (before : List CertStep)
        → AreQueuesAfter logs case before queues.now → IsQueueHead logs case before place result }
{
    let Some(left) = candidates_left(queues, place) else {
        return QueueHead::NotAsked;
    };
    match left.front() {
        Some(position) => QueueHead::First(position),
        None => QueueHead::Spent,
    }
}

/// The candidates left of the node at the place; nothing where none are listed.
pub fn candidates_left<I: Iterator<Item = u32> + Listed>(
    queues: &[Option<Ahead<I>>],
    place: u8,
) -> Option<&Ahead<I>>
    ensures { MatchOption result (¬ (HasList queues.now place))
        (λ left. slice_get queues.now place ≡ Some (Some left.now)) }
{
    queues.get(usize::from(place))?.as_ref()
}

/// Removes the first candidate left of the node at the place; where there is none nothing happens.
pub fn eliminate<I: Iterator<Item = u32> + Listed>(queues: &mut [Option<Ahead<I>>], place: u8)
    requires { place < length queues.old }
    ensures { queues.new
        ≡ slice_set queues.old place (option_map (λ xs. drop 1 xs) (slice_index_or queues.old place None)) }
{
    if let Some(left) = &mut queues[usize::from(place)] {
        left.advance();
    }
}

/// Whether the node is asked and has no candidate left.
fn is_spent<I: Iterator<Item = u32> + Listed>(queues: &[Option<Ahead<I>>], place: u8) -> bool
    ensures { IsTrue result ↔ (slice_get queues.now place ≡ Some (Some [])) }
{
    let Some(left) = candidates_left(queues, place) else {
        return false;
    };
    left.front().is_none()
}
