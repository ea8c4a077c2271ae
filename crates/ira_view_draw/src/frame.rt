ghost use Rattle.std.specs.Prelude.{◌<◌};

use crate::class;
use crate::grid::{Grid, LEFT, TOP};
use crate::headline::{ToldReason, write_description, write_heading, write_summary};
use crate::style::{MARKERS, write_style};
use crate::svg::Svg;
use ira_view_picture::Picture;
use std::alloc::Allocator;

/// The most nodes that have a line for those who don't see the picture.
const MOST_LINES: usize = 64;

/// What is read out in place of the picture.
fn write_words<A: Allocator>(out: &mut Svg<A>, picture: &Picture<A>, told: Option<ToldReason<'_>>) {
    out.page.words("<title id=\"t\">");
    write_heading(out, picture, told);
    out.page.words("</title>\n<desc id=\"d\">");
    write_summary(&mut out.page, picture, told);
    for (place, lane) in picture.lanes.iter().enumerate() {
        if place < MOST_LINES {
            write_description(&mut out.page, place, lane);
        }
    }
    if picture.lanes.len() > MOST_LINES {
        out.page.words("\n..");
    }
    out.page.words("</desc>\n");
}

/// The beginning of the picture: its size, words, colours and heading; of refused logs what is told of the reason.
pub(crate) fn write_head<A: Allocator>(
    out: &mut Svg<A>,
    picture: &Picture<A>,
    grid: &Grid,
    told: Option<ToldReason<'_>>,
    height: u64,
) {
    let width = grid.width();
    out.page
        .words("<svg xmlns=\"http://www.w3.org/2000/svg\" viewBox=\"0 0 ");
    out.page.number(width);
    out.page.words(" ");
    out.page.number(height);
    out.page.words("\"");
    out.number("width", width);
    out.number("height", height);
    out.page.words(" role=\"img\" aria-labelledby=\"t d\">\n");
    write_words(out, picture, told);
    write_style(out, picture.has_terms());
    out.page.words("<defs>");
    out.page.words(MARKERS);
    out.page.words("</defs>");
    out.open("rect", class::BACKGROUND);
    out.number("width", width);
    out.number("height", height);
    out.number("rx", 6);
    out.page.words("/>\n");
    if told.is_some() {
        out.begin_text(class::NAMED_TITLE, 16, 28);
    } else {
        out.begin_text(class::TITLE, 16, 28);
    }
    write_heading(out, picture, told);
    out.page.words("</text>");
    out.begin_text(class::ASIDE, 16, 48);
    write_summary(&mut out.page, picture, told);
    out.page.words("</text>\n");
}

/// How many columns apart those are that have a number.
fn tick_step(grid: &Grid) -> u32
    ensures { 0 < result }
{
    match grid.column_width() {
        0..=17 => 10,
        18..=43 => 5,
        _ => 1,
    }
}

/// Whether a column has a number.
fn has_tick(grid: &Grid, column: u32) -> bool {
    column > 0 && column % tick_step(grid) == 0
}

/// The lines of columns, and their numbers with their name.
pub(crate) fn write_columns<A: Allocator>(out: &mut Svg<A>, grid: &Grid) {
    let (top, low, below) = (TOP - 20, grid.foot() + 18, grid.foot() + 38);
    out.begin_lines(class::TICKS);
    let mut is_bare = true;
    for column in grid.window.first..=grid.window.last {
        if has_tick(grid, column) {
            out.down(grid.x(column), top, low);
            is_bare = false;
        }
    }
    out.page.words("\"/>\n");
    if is_bare {
        return;
    }
    out.begin_text(class::TICK_NAME, LEFT - 20, below);
    out.page.words("column");
    out.page.words("</text>");
    for column in grid.window.first..=grid.window.last {
        if has_tick(grid, column) {
            out.begin_text(class::TICK_NUMBER, grid.x(column), below);
            out.page.number(column as u64);
            out.page.words("</text>");
        }
    }
    out.page.end();
}
