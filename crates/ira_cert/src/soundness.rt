ghost use Rattle.std.specs.Prelude.{◌≢◌, ◌↔◌, ◌+◌, ◌<◌, List, IsTrue, MatchResult, OnOk, length};
ghost use Rattle.ira_pred.specs.Case.{Conjunct};
ghost use Rattle.ira_order.specs.Before.{Before};
ghost use Rattle.ira_cert_text.specs.declared.cert_step.CertStep.{CertStep};
ghost use Rattle.ira_cert.specs.Conjuncts.{HasDifferentPlaces};
ghost use Rattle.ira_cert.specs.LastCount.{IsKnown};
ghost use Rattle.ira_cert.specs.QueueHead.{IsQueueHead};
ghost use Rattle.ira_cert.specs.SoundSection.{IsSoundStep};
ghost use Rattle.ira_cert.specs.SectionFault.{WhyUnsound};
ghost use Rattle.ira_cert.specs.declared.queue_head.QueueHead.{QueueHead};
ghost use Rattle.ira_cert.specs.declared.unsound.Unsound.{Unsound};

use crate::last_count::LastCount;
use crate::queue_head::QueueHead;
use crate::unsound::Unsound;
use ira_cert_text::CertStep;
use ira_order::HappenedBefore;

/// Whether the step is sound after those that were made, and why not, where it is known what they left of
/// the candidates of its two nodes. It costs one look-up of a count, where that isn't the last one.
pub(crate) fn judge_step<C: HappenedBefore>(
    ordered: &C,
    step: &CertStep,
    own: QueueHead,
    other: QueueHead,
    last: &mut Option<LastCount>,
) -> Result<(), Unsound>
    requires own { own ≢ QueueHead.NotAsked → step.now.node < length (C.logs_of ordered.now) }
    requires other { other ≢ QueueHead.NotAsked → step.now.other < length (C.logs_of ordered.now) }
    requires known { IsKnown (C.logs_of ordered.now) last.old }
    ensures known { IsKnown (C.logs_of ordered.now) last.new }
    ensures asked { OnOk result (own ≢ QueueHead.NotAsked) }
    ensures verdict { (case : List Conjunct) (before : List CertStep) → HasDifferentPlaces case
        → IsQueueHead (C.logs_of ordered.now) case before step.now.node own
        → IsQueueHead (C.logs_of ordered.now) case before step.now.other other
        → MatchResult result (λ _. IsSoundStep (C.logs_of ordered.now) case before step.now)
        (λ why. WhyUnsound (C.logs_of ordered.now) case before step.now why) }
{
    if own == QueueHead::NotAsked || other == QueueHead::NotAsked {
        return Err(Unsound::NotAsked);
    }
    if step.node == step.other {
        return Err(Unsound::SameNode);
    }
    let QueueHead::First(front) = own else {
        return Err(Unsound::NodeSpent);
    };
    let QueueHead::First(other_front) = other else {
        return Err(Unsound::NodeSpent);
    };
    if step.pos != front || step.other_pos != other_front {
        return Err(Unsound::NotFront);
    }
    if !rules_out(ordered, step, last) {
        return Err(Unsound::NotBefore);
    }
    Ok(())
}

/// Whether the event that leads on from the first state of the step happened before the one that led
/// to the other. Where one of these events doesn't exist, it didn't.
fn rules_out<C: HappenedBefore>(ordered: &C, step: &CertStep, last: &mut Option<LastCount>) -> bool
    requires places { (step.now.node < length (C.logs_of ordered.now)) × (step.now.other < length (C.logs_of ordered.now)) }
    requires two { step.now.node ≢ step.now.other }
    requires known { IsKnown (C.logs_of ordered.now) last.old }
    ensures known { IsKnown (C.logs_of ordered.now) last.new }
    ensures before { IsTrue result
        ↔ Before (C.logs_of ordered.now) step.now.node (step.now.pos + 1) step.now.other step.now.other_pos }
{
    let logs = ordered.logs();
    if step.pos as usize >= logs.log(step.node).len() {
        return false;
    }
    if step.other_pos == 0 || step.other_pos as usize > logs.log(step.other).len() {
        return false;
    }
    step.pos < LastCount::of_step(last, ordered, step)
}
