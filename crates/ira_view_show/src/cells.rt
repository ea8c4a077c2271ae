ghost use Rattle.std.specs.Prelude.{◌∷◌, [], decimal};
ghost use Rattle.ira_view_show.specs.Cells.{cell_if};
ghost use Rattle.ira_view_page.specs.Page.{Added};
ghost use Rattle.ira_view_page.specs.Printable.{IsPrintable};
ghost use Rattle.ira_view_page.specs.Table.{left_cell, right_cell};

use ira_view_page::{Page, Row};
use std::alloc::Allocator;

/// Adds a cell of words that begins where its column does.
pub(crate) fn add_left<A: Allocator + Copy>(row: &mut Row<A>, alloc: A, words: &str)
    requires { IsPrintable words.now }
    ensures { Added row.old (left_cell words.now ∷ []) row.new }
{
    let mut cell = Page::new(alloc);
    cell.words(words);
    row.left(cell);
}

/// Adds a cell of words that ends where its column does.
pub(crate) fn add_right<A: Allocator + Copy>(row: &mut Row<A>, alloc: A, words: &str)
    requires { IsPrintable words.now }
    ensures { Added row.old (right_cell words.now ∷ []) row.new }
{
    let mut cell = Page::new(alloc);
    cell.words(words);
    row.right(cell);
}

/// Adds a cell of words that ends where its column does, where there is such a column.
pub(crate) fn add_right_if<A: Allocator + Copy>(row: &mut Row<A>, alloc: A, is: bool, words: &str)
    requires { IsPrintable words.now }
    ensures { Added row.old (cell_if is (right_cell words.now)) row.new }
{
    if is {
        add_right(row, alloc, words);
    }
}

/// Adds a number at the end of its column, where there is such a column.
pub(crate) fn add_number_if<A: Allocator + Copy>(row: &mut Row<A>, alloc: A, is: bool, number: u64)
    ensures { Added row.old (cell_if is (right_cell (decimal number))) row.new }
{
    if is {
        add_number(row, alloc, number);
    }
}

/// Adds a number at the end of its column.
pub(crate) fn add_number<A: Allocator + Copy>(row: &mut Row<A>, alloc: A, number: u64)
    ensures { Added row.old (right_cell (decimal number) ∷ []) row.new }
{
    let mut cell = Page::new(alloc);
    cell.number(number);
    row.right(cell);
}
