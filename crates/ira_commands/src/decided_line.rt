ghost use Rattle.std.specs.Prelude.{◌≡◌, ◌++◌, IfOk, List, codes, ℕ};
ghost use Rattle.std.specs.List.{flat_map};
ghost use Rattle.ira_audit.specs.Report.{numbered};
ghost use Rattle.ira_view_page.specs.Page.{Added, AddedSome};
ghost use Rattle.ira_commands.specs.DecidedLine.{IsDecidedLine, absent_line, present_text};

use ira_elim::{Cut, Decided, StepCount};
use ira_event::OutOfMemory;
use ira_pred::Case;
use ira_view_page::{Page, PageText};
use std::alloc::Allocator;

/// The line on so many cases, none of which is present.
fn absent_line<A: Allocator>(alloc: A, cases: usize) -> Result<PageText<A>, OutOfMemory>
    ensures { IfOk result (λ line. line ≡ absent_line cases) }
{
    let mut page = Page::new(alloc);
    if cases == 1 {
        page.words("absent: no moment met its one case\n");
        return page.finish();
    }
    page.words("absent: no moment met any of ");
    page.number(cases as u64);
    page.words(" cases\n");
    page.finish()
}

/// Adds positions.
fn add_positions<A: Allocator>(page: &mut Page<A>, positions: &[u32])
    ensures { Added page.old (flat_map (numbered (codes " ")) positions.now) page.new }
{
    for position in positions {
        page.numbered(" ", *position);
    }
}

/// Adds what a case asks of each node.
fn add_asked<A: Allocator, P: Allocator>(page: &mut Page<P>, case: &Case<A>)
    ensures { AddedSome page.old page.new }
{
    for n in 0..case.len() {
        page.numbered("; node ", u32::from(case.place(n)));
        page.words(" ");
        page.clause(case.clause(n));
    }
}

/// The line on the first case that is present, its number and its least cut; and what it asks, where that is known.
fn present_line<A: Allocator>(
    alloc: A,
    number: usize,
    cut: &Cut<A>,
    asked: Option<&Case<A>>,
) -> Result<PageText<A>, OutOfMemory>
    ensures { IfOk result (λ line. (asks : List ℕ) × (line ≡ present_text number cut.now ++ asks ++ codes "\n")) }
{
    let mut page = Page::new(alloc);
    page.words("present: case ");
    page.number(number as u64);
    page.words(", at");
    add_positions(&mut page, cut.positions());
    if let Some(case) = asked {
        add_asked(&mut page, case);
    }
    page.words("\n");
    page.finish()
}

/// The line on what was found for these cases.
pub(crate) fn decided_line<A: Allocator>(
    alloc: A,
    decided: &[Decided<StepCount, A>],
    cases: &[Case<A>],
) -> Result<PageText<A>, OutOfMemory>
    ensures { IfOk result (IsDecidedLine decided.now) }
{
    for (number, found) in decided.iter().enumerate() {
        if let Decided::Present(cut) = found {
            return present_line(alloc, number, cut, cases.get(number));
        }
    }
    absent_line(alloc, decided.len())
}
