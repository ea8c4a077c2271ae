ghost use Rattle.std.specs.Prelude.{◌≡◌, IfOk, OnOk};
ghost use Rattle.ira_order.specs.Cut.{IsConsistentCut};
ghost use Rattle.ira_view_json.specs.EventValue.{AreEventValues, event_value, with_sender};
ghost use Rattle.ira_view_json.specs.Line.{TookLines, WroteLines};
ghost use Rattle.ira_view_json.specs.Object.{Puts};
ghost use Rattle.ira_view_json.specs.View.{view};

use crate::line_block::LineBlock;
use crate::object::Object;
use crate::value::Value;
use ira_event::{Logs, OutOfMemory, Sink};
use ira_view_page::{ShowFault, line_of};
use ira_view_trail::{ColumnsFault, StateStep, StateTrail};
use std::alloc::Allocator;

impl<A: Allocator + Clone> Object<A> {
    /// Puts the step that sent what a receipt receives.
    fn sender(&mut self, step: Option<u32>)
        ensures { Puts (with_sender step) self.old self.new }
    {
        if let Some(step) = step {
            self.number("of_step", step as u64);
        }
    }
}

/// An event, which is step `number` of a trail, and the state of its node after it.
fn event_value<A: Allocator + Clone>(
    alloc: &A,
    number: usize,
    walked: StateStep,
) -> Result<Value<A>, OutOfMemory>
    ensures { IfOk result (λ value. view value ≡ event_value number walked) }
{
    let mut object = Object::of(alloc.clone()?, "event");
    let step = walked.step;
    object.number("step", number as u64);
    object.number("node", step.place as u64);
    object.number("event", step.event as u64);
    object.number("line", line_of(step.event) as u64);
    object.event(walked.event);
    object.number("column", step.column as u64);
    object.flag("in_cut", step.in_cut);
    object.sender(step.sent_by);
    object.state(walked.after);
    object.finish()
}

/// Writes a line for each event, in one order of them all, those of the cut first.
pub(crate) fn write_events<A: Allocator + Clone, W: Sink>(
    alloc: A,
    logs: &Logs<A>,
    cut: &[u32],
    sink: &mut W,
) -> Result<(), ShowFault>
    requires { IsConsistentCut logs.now cut.now }
    ensures wrote { WroteLines result (W.state sink.old) (W.state sink.new) }
    ensures told { OnOk result (TookLines (AreEventValues logs.now cut.now) (W.state sink.old) (W.state sink.new)) }
{
    let mut trail = match StateTrail::new(alloc.clone()?, logs, cut) {
        Ok(trail) => trail,
        Err(ColumnsFault::Wrong) => return Err(ShowFault::WrongColumns),
        Err(ColumnsFault::OutOfMemory) => return Err(ShowFault::OutOfMemory),
    };
    let mut lines = LineBlock::new(alloc.clone()?);
    let mut number = 0;
    'steps: while let Some(walked) = trail.next()? {
        number += 1;
        lines.add(&event_value(&alloc, number, walked)?, sink)?;
    }
    lines.flush(sink)
}
