use ira_event::{Load, Msg};
use ira_view_page::Page;
use std::alloc::Allocator;

/// How many digits a number has.
pub(crate) fn digits(number: u32) -> usize {
    number.checked_ilog10().map_or(1, |log| log as usize + 1)
}

/// How many characters spell a load.
fn load_width(load: Load) -> usize {
    match load {
        Load::Msg(Msg { round, id, hop, .. }) => {
            let numbers = digits(round)
                .saturating_add(digits(id))
                .saturating_add(digits(hop));
            numbers.saturating_add("   clean".len())
        }
        Load::Reset(hop) => digits(hop).saturating_add("reset ".len()),
    }
}

/// Carets below the last `count` characters of a cell.
pub(crate) fn carets_at_end<A: Allocator + Copy>(
    alloc: A,
    cell: &Page<A>,
    count: usize,
) -> Page<A> {
    let mut line = Page::new(alloc);
    line.pad_to(cell.len().saturating_sub(count));
    line.carets(count);
    line
}

/// Adds carets below a field of this width where it isn't the same, and gives the column of the next field.
fn add_carets<A: Allocator>(
    line: &mut Page<A>,
    column: usize,
    width: usize,
    is_same: bool,
) -> usize {
    if !is_same {
        line.pad_to(column);
        line.carets(width);
    }
    column.saturating_add(width).saturating_add(1)
}

/// Carets below the fields of a load at the end of a cell that another load hasn't: below all of it where one is a
/// message and one a reset. Nothing where both are the same.
pub(crate) fn carets_below<A: Allocator + Copy>(
    alloc: A,
    cell: &Page<A>,
    own: Load,
    other: Load,
) -> Option<Page<A>> {
    match (own, other) {
        _ if own == other => None,
        (Load::Reset(hop), Load::Reset(_)) => Some(carets_at_end(alloc, cell, digits(hop))),
        (Load::Msg(a), Load::Msg(b)) => {
            let mut line = Page::new(alloc);
            let column = cell.len().saturating_sub(load_width(own));
            let column = add_carets(&mut line, column, digits(a.round), a.round == b.round);
            let column = add_carets(&mut line, column, digits(a.id), a.id == b.id);
            let column = add_carets(&mut line, column, digits(a.hop), a.hop == b.hop);
            add_carets(&mut line, column, "clean".len(), a.dirty == b.dirty);
            Some(line)
        }
        _ => Some(carets_at_end(alloc, cell, load_width(own))),
    }
}
