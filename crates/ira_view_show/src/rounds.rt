ghost use Rattle.std.specs.Prelude.{◌≡◌, [], Some, take};
ghost use Rattle.std.specs.List.{flat_map, list_any};
ghost use Rattle.ira_view_moment.specs.Rounds.{drawn};
ghost use Rattle.ira_view_show.specs.RoundLines.{beyond_text, head_cells, is_later, round_cells, round_row, rounds_text};
ghost use Rattle.ira_view_page.specs.Page.{Added};

use crate::cells::{add_left, add_number, add_number_if, add_right, add_right_if};
use ira_view_moment::{Round, Rounds};
use ira_view_page::{Emphasis, Page, Row, Table};
use std::alloc::Allocator;

/// The most rounds that are shown.
const SHOWN: usize = 20;

/// The first row of the table of rounds.
fn heads<T: Allocator + Copy>(alloc: T, has_terms: bool) -> Row<T>
    ensures { Added (Some []) (head_cells has_terms) result }
{
    let mut row = Row::new(alloc);
    add_right_if(&mut row, alloc, has_terms, "term");
    add_right(&mut row, alloc, "round");
    add_right(&mut row, alloc, "drew");
    add_right(&mut row, alloc, "greatest ID");
    add_left(&mut row, alloc, "of node");
    row
}

/// The row of a round.
fn cells<T: Allocator + Copy, R: Allocator>(alloc: T, has_terms: bool, round: &Round<R>) -> Row<T>
    ensures { Added (Some []) (round_cells has_terms (drawn round.now)) result }
{
    let mut row = Row::new(alloc);
    add_number_if(&mut row, alloc, has_terms, round.term as u64);
    add_number(&mut row, alloc, round.number as u64);
    add_number(&mut row, alloc, round.draws.len() as u64);
    add_number(&mut row, alloc, round.greatest as u64);
    let mut nodes = Page::new(alloc);
    nodes.places(&round.greatest_of);
    row.left(nodes);
    row
}

/// Adds a row for each round to a table.
fn add_rounds<T: Allocator + Copy, R: Allocator>(
    table: &mut Table<T>,
    alloc: T,
    has_terms: bool,
    rounds: &[Round<R>],
)
    ensures { Added table.old (flat_map (λ r. round_row has_terms (drawn r)) rounds.now) table.new }
{
    for round in rounds {
        table.add(Emphasis::Plain, cells(alloc, has_terms, round));
    }
}

/// Adds a row for each of the first twenty rounds.
fn add_shown<T: Allocator + Copy, R: Allocator>(
    table: &mut Table<T>,
    alloc: T,
    has_terms: bool,
    rounds: &[Round<R>],
)
    ensures { Added table.old (flat_map (λ r. round_row has_terms (drawn r)) (take 20 rounds.now)) table.new }
{
    let shown = rounds.len().min(SHOWN);
    add_rounds(table, alloc, has_terms, &rounds[..shown]);
}

/// Whether some round is of a later term than the first.
fn has_later<R: Allocator>(rounds: &[Round<R>]) -> bool
    ensures { result ≡ list_any (λ r. is_later (drawn r)) rounds.now }
{
    rounds.iter().any(|round| round.term > 1)
}

/// Adds how many rounds there are besides, where there are any.
fn show_beyond<A: Allocator>(page: &mut Page<A>, count: usize)
    ensures { Added page.old (beyond_text count) page.new }
{
    if count > 0 {
        page.begin(Emphasis::Plain);
        page.words("and ");
        page.number(count as u64);
        page.words(" more");
        page.end();
    }
}

/// Adds a line for each round, at most twenty, and an empty line; nothing where nobody drew.
pub(crate) fn show_rounds<A: Allocator, T: Allocator + Copy, R: Allocator>(
    page: &mut Page<A>,
    alloc: T,
    rounds: &Rounds<R>,
)
    ensures { Added page.old (rounds_text rounds.now) page.new }
{
    let rounds = rounds.as_slice();
    if rounds.is_empty() {
        return;
    }
    let has_terms = has_later(rounds);
    let mut table = Table::new(alloc);
    table.add(Emphasis::Plain, heads(alloc, has_terms));
    add_shown(&mut table, alloc, has_terms, rounds);
    page.table(&table);
    show_beyond(page, rounds.len().saturating_sub(SHOWN));
    page.blank();
}
