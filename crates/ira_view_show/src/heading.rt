ghost use Rattle.std.specs.List.{flat_map};
ghost use Rattle.ira_view_moment.specs.ChosenMoment.{HasItsCase};
ghost use Rattle.ira_pred.specs.Clause.{formula};
ghost use Rattle.ira_view_page.specs.Page.{Added};
ghost use Rattle.ira_view_show.specs.Asked.{case_text, conjunct_text, position_text};
ghost use Rattle.ira_view_show.specs.Heading.{heading_text, heading_words, no_moment_words};

use crate::listed::add_comma;
use ira_pred::{Case, Clause};
use ira_view_moment::ChosenMoment;
use ira_view_page::Page;
use std::alloc::Allocator;

/// Adds the sentence on which moment it is. The end of the logs has none, since its summary tells it.
pub(crate) fn print_heading<A: Allocator, P: Allocator>(
    page: &mut Page<P>,
    moment: &ChosenMoment<A>,
)
    requires { HasItsCase moment.now }
    ensures { Added page.old (heading_text moment.now) page.new }
{
    print_words(page, moment);
    page.end();
}

fn print_words<A: Allocator, P: Allocator>(page: &mut Page<P>, moment: &ChosenMoment<A>)
    requires { HasItsCase moment.now }
    ensures { Added page.old (heading_words moment.now) page.new }
{
    match moment {
        ChosenMoment::AtEnd => {}
        ChosenMoment::AtCut(cut) => {
            page.words("At the cut");
            print_positions(page, cut);
            page.words(":");
        }
        ChosenMoment::OfCase {
            question,
            number,
            ..
        } => {
            page.words("The first moment of case ");
            page.number(*number as u64);
            page.words(" (");
            print_case(page, &question.cases()[*number]);
            page.words("):");
        }
        ChosenMoment::Unmet(case) => print_no_moment(page, *case),
    }
}

/// Adds that no moment meets any case, or the one of a number.
fn print_no_moment<P: Allocator>(page: &mut Page<P>, case: Option<u64>)
    ensures { Added page.old (no_moment_words case) page.new }
{
    match case {
        None => page.words("No moment meets any case."),
        Some(number) => {
            page.words("No moment meets case ");
            page.number(number);
            page.words(".");
        }
    }
}

/// Adds how many events each node has made.
pub(crate) fn print_positions<P: Allocator>(page: &mut Page<P>, cut: &[u32])
    ensures { Added page.old (flat_map position_text cut.now) page.new }
{
    for position in cut {
        print_position(page, *position);
    }
}

fn print_position<P: Allocator>(page: &mut Page<P>, position: u32)
    ensures { Added page.old (position_text position) page.new }
{
    page.words(" ");
    page.number(position as u64);
}

/// Adds what a case asks of each node.
fn print_case<A: Allocator, P: Allocator>(page: &mut Page<P>, case: &Case<A>)
    ensures { Added page.old (case_text case.now) page.new }
{
    for n in 0..case.len() {
        print_conjunct(page, n == 0, case.place(n), case.clause(n));
    }
}

/// Adds what is asked of a node, with a comma before it where it isn't the first.
fn print_conjunct<A: Allocator, P: Allocator>(
    page: &mut Page<P>,
    is_first: bool,
    place: u8,
    clause: &Clause<A>,
)
    ensures { Added page.old
        (conjunct_text is_first (record { place = place; formula = formula clause.now })) page.new }
{
    add_comma(page, is_first);
    page.number(place as u64);
    page.words(": ");
    page.clause(clause);
}
