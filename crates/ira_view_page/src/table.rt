ghost use Rattle.std.specs.Prelude.{◌≡◌, ◌∷◌, [], Some, slice_get};
ghost use Rattle.std.specs.List.{list_all};
ghost use Rattle.ira_view_page.specs.Page.{Added, AddedBy};
ghost use Rattle.ira_view_page.specs.Table.{cell_of, cell_text, cells_text, column_width, gap_text, is_empty};
ghost use Rattle.ira_view_page.specs.Table.{left_cell, right_cell, row_text, table_row, table_text, width_of};

use crate::page::{Emphasis, Page};
use crate::page_text::PageText;
use crate::side::Side;
use std::alloc::Allocator;
use std::marker::Model;

/// A cell of a table.
#[derive(Drop)]
struct Cell<A: Allocator> {
    side: Side,
    text: PageText<A>,
}

impl<A: Allocator> Model for Cell<A> {
    ghost use Rattle.ira_view_page.specs.Table.{TableCell};

    ghost Value = { TableCell };

    ghost view = { λ c. record { side = c.side; text = c.text } };
}

/// The cells of a row of a table, from the left. It keeps whether a growth was refused, to it or to its cells.
#[derive(Drop)]
pub struct Row<A: Allocator> {
    cells: Vec<Cell<A>, A>,
    is_whole: bool,
}

impl<A: Allocator> Model for Row<A> {
    ghost use Rattle.std.specs.Prelude.{List, Option};
    ghost use Rattle.ira_view_page.specs.Page.{kept};
    ghost use Rattle.ira_view_page.specs.Table.{TableCell};

    ghost Value = { Option (List TableCell) };

    ghost view = { λ r. kept r.is_whole r.cells.items };
}

impl<A: Allocator> Row<A> {
    /// A row without cells.
    pub fn new(alloc: A) -> Row<A>
        ensures { result ≡ Some [] }
    {
        Row {
            cells: Vec::new(alloc),
            is_whole: true,
        }
    }

    /// Adds a cell that begins where its column does.
    pub fn left(&mut self, cell: Page<A>)
        ensures { AddedBy (λ text. left_cell text ∷ []) self.old cell self.new }
    {
        self.add(Side::Left, cell);
    }

    /// Adds a cell that ends where its column does.
    pub fn right(&mut self, cell: Page<A>)
        ensures { AddedBy (λ text. right_cell text ∷ []) self.old cell self.new }
    {
        self.add(Side::Right, cell);
    }

    fn add(&mut self, side: Side, cell: Page<A>)
        ensures { AddedBy (λ text. cell_of side text ∷ []) self.old cell self.new }
    {
        let text = cell.finish();
        if self.is_whole {
            self.is_whole = match text {
                Ok(text) => self.cells.push(Cell { side, text }).is_ok(),
                Err(_) => false,
            };
        }
    }
}

/// A row of a table with its mark.
#[derive(Drop)]
struct MarkedRow<A: Allocator> {
    mark: Emphasis,
    cells: Vec<Cell<A>, A>,
}

impl<A: Allocator> Model for MarkedRow<A> {
    ghost use Rattle.ira_view_page.specs.Table.{TableRow};

    ghost Value = { TableRow };

    ghost view = { λ l. record { mark = l.mark; cells = l.cells.items } };
}

/// Rows of cells, whose columns are as wide as their widest cells, two spaces apart. It keeps whether a growth was
/// refused, to it or to its rows.
#[derive(Drop)]
pub struct Table<A: Allocator> {
    lines: Vec<MarkedRow<A>, A>,
    is_whole: bool,
}

impl<A: Allocator> Model for Table<A> {
    ghost use Rattle.std.specs.Prelude.{List, Option};
    ghost use Rattle.ira_view_page.specs.Page.{kept};
    ghost use Rattle.ira_view_page.specs.Table.{TableRow};

    ghost Value = { Option (List TableRow) };

    ghost view = { λ t. kept t.is_whole t.lines.items };
}

impl<A: Allocator> Table<A> {
    /// A table without rows.
    pub fn new(alloc: A) -> Table<A>
        ensures { result ≡ Some [] }
    {
        Table {
            lines: Vec::new(alloc),
            is_whole: true,
        }
    }

    /// Adds a row at the end.
    pub fn add(&mut self, mark: Emphasis, row: Row<A>)
        ensures { AddedBy (λ cells. table_row mark cells ∷ []) self.old row self.new }
    {
        if self.is_whole {
            let line = MarkedRow {
                mark,
                cells: row.cells,
            };
            self.is_whole = row.is_whole && self.lines.push(line).is_ok();
        }
    }
}

impl<A: Allocator> MarkedRow<A> {
    /// How wide its cell in a column is, if it has one.
    fn width(&self, column: usize) -> usize
        ensures { result ≡ width_of (slice_get self.now.cells column) }
    {
        match self.cells.get(column) {
            Some(cell) => cell.text.len(),
            None => 0,
        }
    }
}

/// How wide the widest cell of a column is.
fn column_width<A: Allocator>(lines: &[MarkedRow<A>], column: usize) -> usize
    ensures { result ≡ column_width lines.now column }
{
    let mut width = 0usize;
    for line in lines {
        width = width.max(line.width(column));
    }
    width
}

/// Whether nothing stands in these cells.
fn are_empty<A: Allocator>(cells: &[Cell<A>]) -> bool
    ensures { result ≡ list_all is_empty cells.now }
{
    cells.iter().all(|cell| cell.text.is_empty())
}

impl<A: Allocator> Page<A> {
    /// Adds the lines of a table. Where that was refused, this page is too.
    pub fn table<T: Allocator>(&mut self, table: &Table<T>)
        ensures { AddedBy table_text self.old table.now self.new }
    {
        if !table.is_whole {
            return self.refuse();
        }
        let lines = &table.lines;
        for line in lines {
            self.row(lines, line);
        }
    }

    /// Adds one of these lines.
    fn row<T: Allocator>(&mut self, lines: &[MarkedRow<T>], line: &MarkedRow<T>)
        ensures { Added self.old (row_text (column_width lines.now) line.now) self.new }
    {
        self.begin(line.mark);
        self.cells(lines, &line.cells);
        self.end();
    }

    /// Adds the cells of one of these lines.
    fn cells<T: Allocator>(&mut self, lines: &[MarkedRow<T>], cells: &[Cell<T>])
        ensures { Added self.old (cells_text (column_width lines.now) 0 cells.now) self.new }
    {
        for column in 0..cells.len() {
            if are_empty(&cells[column..]) {
                return;
            }
            let cell = &cells[column];
            let width = column_width(lines, column);
            self.cell(cell, width);
            self.gap(cell, width, &cells[column + 1..]);
        }
    }

    /// Adds a cell of a column that is so wide.
    fn cell<T: Allocator>(&mut self, cell: &Cell<T>, width: usize)
        ensures { Added self.old (cell_text width cell.now) self.new }
    {
        if cell.side == Side::Right {
            self.spaces(width.saturating_sub(cell.text.len()));
        }
        self.words(cell.text.as_str());
    }

    /// Adds the spaces between a cell of a column that is so wide and those after it, if something stands in them.
    fn gap<T: Allocator>(&mut self, cell: &Cell<T>, width: usize, rest: &[Cell<T>])
        ensures { Added self.old (gap_text width cell.now rest.now) self.new }
    {
        if are_empty(rest) {
            return;
        }
        if cell.side == Side::Left {
            self.spaces(width.saturating_sub(cell.text.len()));
        }
        self.words("  ");
    }
}
