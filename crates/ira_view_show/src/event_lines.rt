ghost use Rattle.std.specs.Prelude.{◌≡◌, ◌++◌, ◌&&◌, ℕ, List, OnOk, Some};
ghost use Rattle.ira_event.specs.Sink.{Takes};
ghost use Rattle.ira_order.specs.Circle.{HasOrder};
ghost use Rattle.ira_order.specs.Cut.{IsConsistentCut};
ghost use Rattle.ira_order.specs.Run.{AreLocalRuns};
ghost use Rattle.ira_view_moment.specs.ChosenMoment.{IsMomentOf};
ghost use Rattle.ira_view_show.specs.Asked.{line_of_cut};
ghost use Rattle.ira_view_show.specs.EventsText.{TellsEvents, TellsEventsOf, between_text, here_text};
ghost use Rattle.ira_view_show.specs.Showed.{GoesOn, Showed, TookPage};
ghost use Rattle.ira_view_page.specs.Page.{Added};
ghost use Rattle.ira_view_page.specs.Printable.{IsPrintable};

use crate::change::Change;
use crate::event_line::EventColumns;
use crate::heading::{print_heading, print_positions};
use crate::summary::show_summary;
use ira_event::{Logs, Sink};
use ira_view_moment::{ChosenMoment, Moment, cut_at_end};
use ira_view_page::{Emphasis, Page, ShowFault};
use ira_view_trail::{ColumnsFault, StateTrail};
use std::alloc::Allocator;

/// When so many bytes of lines are put together they are written.
const BLOCK: usize = 65_536;

/// Adds the line that stands where the cut ends.
fn print_line_of_cut<P: Allocator>(page: &mut Page<P>, cut: &[u32])
    ensures { Added page.old (line_of_cut cut.now) page.new }
{
    page.begin(Emphasis::Plain);
    page.words("-- here:");
    print_positions(page, cut);
    page.words(" --");
    page.end();
}

/// Writes a page.
fn write_page<A: Allocator, W: Sink>(page: Page<A>, sink: &mut W) -> Result<(), ShowFault>
    ensures showed { Showed result (W.state sink.old) (W.state sink.new) }
    ensures took { OnOk result (TookPage page (W.state sink.old) (W.state sink.new)) }
{
    page.finish()?.write(sink)?;
    Ok(())
}

/// Writes a page where it is a block, and gives one to go on with.
fn write_block<A: Allocator + Clone, W: Sink>(
    alloc: &A,
    page: Page<A>,
    sink: &mut W,
) -> Result<Page<A>, ShowFault>
    ensures showed { Showed result (W.state sink.old) (W.state sink.new) }
    ensures goes_on { GoesOn page result (W.state sink.old) (W.state sink.new) }
{
    if page.len() < BLOCK {
        return Ok(page);
    }
    write_page(page, sink)?;
    Ok(Page::new(alloc.clone()?))
}

/// Adds the line that stands where the cut ends, where it is asked for.
fn print_here<P: Allocator>(page: &mut Page<P>, is_asked: bool, cut: &[u32])
    ensures { Added page.old (here_text is_asked cut.now) page.new }
{
    if is_asked {
        print_line_of_cut(page, cut);
    }
}

/// Adds that line before an event, where all before it are in the cut and it isn't. It says whether all are so far.
fn print_between<P: Allocator>(
    page: &mut Page<P>,
    is_inside: bool,
    in_cut: bool,
    is_asked: bool,
    cut: &[u32],
) -> bool
    ensures inside { result ≡ (is_inside && in_cut) }
    ensures line { Added page.old (between_text is_inside in_cut (here_text is_asked cut.now)) page.new }
{
    if is_inside && !in_cut {
        print_here(page, is_asked, cut);
    }
    is_inside && in_cut
}

/// Writes what is on a page and then a line for each event, those of the cut first, where it is asked for with a line
/// after them.
fn write_lines<A: Allocator + Clone, W: Sink>(
    alloc: A,
    logs: &Logs<A>,
    cut: &[u32],
    is_asked: bool,
    heading: Page<A>,
    sink: &mut W,
) -> Result<(), ShowFault>
    requires { IsConsistentCut logs.now cut.now }
    ensures showed { Showed result (W.state sink.old) (W.state sink.new) }
    ensures told { OnOk result ((front : List ℕ) × (events : List ℕ) × (heading ≡ Some front)
        × TellsEvents logs.now cut.now (here_text is_asked cut.now) events × IsPrintable (front ++ events)
        × Takes (front ++ events) (W.state sink.old) (W.state sink.new)) }
{
    let columns = EventColumns::of(logs, logs.number_of_events());
    let mut trail = match StateTrail::new(alloc.clone()?, logs, cut) {
        Ok(trail) => trail,
        Err(ColumnsFault::Wrong) => return Err(ShowFault::WrongColumns),
        Err(ColumnsFault::OutOfMemory) => return Err(ShowFault::OutOfMemory),
    };
    let mut page = heading;
    let mut number = 0;
    let mut is_inside = true;
    'steps: while let Some(walked) = trail.next()? {
        is_inside = print_between(&mut page, is_inside, walked.step.in_cut, is_asked, cut);
        number += 1;
        let change = Change::between(walked.before, walked.after);
        columns.print(&mut page, number, walked.step, walked.event, change);
        page = write_block(&alloc, page, sink)?;
    }
    let _is_over = print_between(&mut page, is_inside, false, is_asked, cut);
    write_page(page, sink)
}

/// Writes, as the lines that follow the answer for logs, who leads at their end, or else which moment it is, and then a
/// line for each event, in one order of them all: those of the moment's cut first, with a line after them; by their columns
/// (Lamport's clock) and then by place. Where no moment meets a case it is said alone. Nothing is cut short; beside the
/// logs it takes memory for a block of lines, and for what is on its way.
pub fn show_events<A: Allocator + Clone, W: Sink>(
    alloc: A,
    logs: &Logs<A>,
    chosen: &ChosenMoment<A>,
    sink: &mut W,
) -> Result<(), ShowFault>
    requires order { HasOrder logs.now }
    requires local { AreLocalRuns logs.now }
    requires moment { IsMomentOf logs.now chosen.now }
    ensures showed { Showed result (W.state sink.old) (W.state sink.new) }
    ensures told { OnOk result ((text : List ℕ)
        × TellsEventsOf logs.now chosen.now text × IsPrintable text
        × Takes text (W.state sink.old) (W.state sink.new)) }
{
    let mut page = Page::new(alloc.clone()?);
    page.blank();
    match chosen {
        ChosenMoment::AtEnd => {
            let cut = cut_at_end(alloc.clone()?, logs)?;
            let moment = Moment::at_end(alloc.clone()?, logs)?;
            show_summary(&mut page, &moment);
            page.blank();
            write_lines(alloc, logs, &cut, false, page, sink)
        }
        ChosenMoment::AtCut(cut) | ChosenMoment::OfCase { cut, .. } => {
            print_heading(&mut page, chosen);
            page.blank();
            write_lines(alloc, logs, cut, true, page, sink)
        }
        ChosenMoment::Unmet(_) => {
            print_heading(&mut page, chosen);
            write_page(page, sink)
        }
    }
}
