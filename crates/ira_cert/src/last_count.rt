ghost use Rattle.std.specs.Prelude.{◌<◌, ◌≤◌, length};
ghost use Rattle.ira_order.specs.Ring.{log_of};
ghost use Rattle.ira_order.specs.VectorClock.{IsCount};
ghost use Rattle.ira_cert.specs.LastCount.{IsKnown};

use ira_cert_text::CertStep;
use ira_order::HappenedBefore;

/// A count that was looked up: how many events of `node` are event `other_pos` of `other` or happened before it. Nearly
/// each step of a long section asks what the step before it asked.
#[derive(Clone, Copy)]
pub(crate) struct LastCount {
    node: u8,
    other: u8,
    other_pos: u32,
    count: u32,
}

impl LastCount {
    /// The count that a step asks for. It is looked up where it isn't the last one.
    pub(crate) fn of_step<C: HappenedBefore>(
        last: &mut Option<LastCount>,
        ordered: &C,
        step: &CertStep,
    ) -> u32
        requires places { (step.now.node < length (C.logs_of ordered.now)) × (step.now.other < length (C.logs_of ordered.now)) }
        requires position { step.now.other_pos ≤ length (log_of (C.logs_of ordered.now) step.now.other) }
        requires known { IsKnown (C.logs_of ordered.now) last.old }
        ensures count { IsCount (C.logs_of ordered.now) step.now.other step.now.other_pos step.now.node result }
        ensures known { IsKnown (C.logs_of ordered.now) last.new }
    {
        match *last {
            Some(found)
                if found.node == step.node
                    && found.other == step.other
                    && found.other_pos == step.other_pos => { found.count }
            _ => {
                let count = ordered.count(step.other, step.other_pos, step.node);
                *last = Some(LastCount {
                    node: step.node,
                    other: step.other,
                    other_pos: step.other_pos,
                    count,
                });
                count
            }
        }
    }
}
