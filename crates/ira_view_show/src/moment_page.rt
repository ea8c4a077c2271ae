ghost use Rattle.std.specs.Prelude.{◌≡◌, IfOk, length};
ghost use Rattle.ira_order.specs.Matching.{Matches};
ghost use Rattle.ira_order.specs.Run.{AreLocalRuns};
ghost use Rattle.ira_view_moment.specs.ChosenMoment.{IsMomentOf};
ghost use Rattle.ira_view_show.specs.MomentText.{TellsChosen, tables_text};
ghost use Rattle.ira_view_election.specs.Election.{standing_of};
ghost use Rattle.ira_view_page.specs.Page.{Added};

use crate::heading::print_heading;
use crate::nodes::show_nodes;
use crate::rounds::show_rounds;
use crate::summary::show_summary;
use crate::way::show_way;
use ira_event::{Logs, OutOfMemory};
use ira_view_election::{Election, election_at, print_election};
use ira_view_moment::{ChosenMoment, Moment, Rounds};
use ira_view_page::{Page, PageText};
use std::alloc::Allocator;

/// Adds the tables of a moment, with how many events each log has in all where that is asked for.
fn show_tables<
    A: Allocator,
    T: Allocator + Copy,
    R: Allocator,
    L: Allocator,
    M: Allocator,
    E: Allocator,
>(
    page: &mut Page<A>,
    alloc: T,
    logs: &Logs<L>,
    moment: &Moment<M>,
    rounds: &Rounds<R>,
    election: &Election<E>,
    has_all: bool,
)
    requires { length moment.now.nodes ≡ length logs.now }
    ensures { Added page.old
        (tables_text has_all logs.now moment.now rounds.now (standing_of election.now)) page.new }
{
    page.blank();
    show_rounds(page, alloc, rounds);
    show_nodes(page, alloc, logs, moment, has_all);
    page.blank();
    show_way(page, moment);
    page.blank();
    print_election(page, election);
}

/// What the ring looks like at a moment, as the lines that follow the answer for its logs: who leads at their end, or else
/// which moment it is; the rounds, a line for each node, what is on its way, and whether the election is over then or what
/// comes next. Where no moment meets a case it is said alone.
pub fn show_moment<A: Allocator + Clone>(
    alloc: A,
    logs: &Logs<A>,
    chosen: &ChosenMoment<A>,
) -> Result<PageText<A>, OutOfMemory>
    requires matches { Matches logs.now }
    requires local { AreLocalRuns logs.now }
    requires moment { IsMomentOf logs.now chosen.now }
    ensures { IfOk result (TellsChosen logs.now chosen.now) }
{
    let mut page = Page::new(alloc.clone()?);
    page.blank();
    match chosen {
        ChosenMoment::AtEnd => {
            let moment = Moment::at_end(alloc.clone()?, logs)?;
            let rounds = Rounds::at_end(alloc.clone()?, logs)?;
            let election = election_at(alloc.clone()?, logs, &moment, &rounds)?;
            show_summary(&mut page, &moment);
            show_tables(&mut page, &alloc, logs, &moment, &rounds, &election, false);
            page.finish()
        }
        ChosenMoment::AtCut(cut) | ChosenMoment::OfCase { cut, .. } => {
            let moment = Moment::at_cut(alloc.clone()?, logs, cut)?;
            let rounds = Rounds::of(alloc.clone()?, logs, cut)?;
            let election = election_at(alloc.clone()?, logs, &moment, &rounds)?;
            print_heading(&mut page, chosen);
            show_tables(&mut page, &alloc, logs, &moment, &rounds, &election, true);
            page.finish()
        }
        ChosenMoment::Unmet(_) => {
            print_heading(&mut page, chosen);
            page.finish()
        }
    }
}
