ghost use Rattle.std.specs.Prelude.{◌≡◌, OnOk, Some, length, option_map};
ghost use Rattle.std.specs.Option.{ForSome};
ghost use Rattle.ira_order.specs.Circle.{HasOrder};
ghost use Rattle.ira_order.specs.Cut.{IsConsistentCut};
ghost use Rattle.ira_order.specs.Run.{AreLocalRuns};
ghost use Rattle.ira_view_moment.specs.ChosenMoment.{IsMomentOf, cut_of};
ghost use Rattle.ira_view_moment.specs.Moment.{IsMoment};
ghost use Rattle.ira_view_moment.specs.Told.{told_of};
ghost use Rattle.ira_view_json.specs.Line.{TookLines, WroteLines};
ghost use Rattle.ira_view_json.specs.ShownAnswer.{AreTold, WroteRing};

use crate::event_lines::write_events;
use crate::moment_answer::write_answer;
use crate::moment_lines::write_moment;
use crate::shown_answer::ShownAnswer;
use ira_event::{Logs, Sink};
use ira_view_moment::{ChosenMoment, Moment, cut_at_end};
use ira_view_page::ShowFault;
use std::alloc::Allocator;

/// Writes what there is at a cut: an order of all events through it, or else the rounds, the nodes and the links. The moment
/// is that of the cut, where it is known.
fn write_cut<A: Allocator + Clone, W: Sink>(
    alloc: A,
    logs: &Logs<A>,
    files: &[String<A>],
    cut: &[u32],
    moment: Option<Moment<A>>,
    has_events: bool,
    sink: &mut W,
) -> Result<(), ShowFault>
    requires order { HasOrder logs.now }
    requires local { AreLocalRuns logs.now }
    requires cut { IsConsistentCut logs.now cut.now }
    requires moment { ForSome moment (IsMoment logs.now cut.now) }
    requires files { length files.now ≡ length logs.now }
    ensures wrote { WroteLines result (W.state sink.old) (W.state sink.new) }
    ensures told { OnOk result
        (TookLines (AreTold has_events logs.now (Some cut.now)) (W.state sink.old) (W.state sink.new)) }
{
    if has_events {
        return write_events(alloc, logs, cut, sink);
    }
    match moment {
        Some(moment) => write_moment(alloc, logs, files, cut, &moment, sink),
        None => {
            let moment = Moment::at_cut(alloc.clone()?, logs, cut)?;
            write_moment(alloc, logs, files, cut, &moment, sink)
        }
    }
}

/// Writes good logs at a moment: the answer, and then a line for each round in which nodes drew by then, each node,
/// and each link that holds something; or a line for each event, in one order of them all through the moment. Where no
/// moment is told the answer is all. These are the names of the files of the logs, in their order. Lines are written block by
/// block, the answer first.
pub fn write_ring<A: Allocator + Clone, W: Sink>(
    alloc: A,
    logs: &Logs<A>,
    files: &[String<A>],
    chosen: &ChosenMoment<A>,
    answer: ShownAnswer<'_>,
    has_events: bool,
    sink: &mut W,
) -> Result<(), ShowFault>
    requires order { HasOrder logs.now }
    requires local { AreLocalRuns logs.now }
    requires moment { IsMomentOf logs.now chosen.now }
    requires files { length files.now ≡ length logs.now }
    ensures { WroteRing logs.now (option_map (λ named. named.now) answer.entry.named) answer.entry.status
        (told_of chosen.now) (cut_of logs.now chosen.now) (AreTold has_events logs.now (cut_of logs.now chosen.now))
        result (W.state sink.old) (W.state sink.new) }
{
    let end = Moment::at_end(alloc.clone()?, logs)?;
    write_answer(alloc.clone()?, logs, &end, chosen, answer, sink)?;
    match chosen {
        ChosenMoment::AtEnd => {
            let cut = cut_at_end(alloc.clone()?, logs)?;
            write_cut(alloc, logs, files, &cut, Some(end), has_events, sink)
        }
        ChosenMoment::AtCut(cut) | ChosenMoment::OfCase { cut, .. } => {
            write_cut(alloc, logs, files, cut, None, has_events, sink)
        }
        ChosenMoment::Unmet(_) => Ok(()),
    }
}
