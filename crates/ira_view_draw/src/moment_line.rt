ghost use Rattle.std.specs.Prelude.{◌≡◌, IfOk};
ghost use Rattle.ira_pred.specs.Clause.{formula};
ghost use Rattle.ira_view_moment.specs.ChosenMoment.{HasItsCase};
ghost use Rattle.ira_view_page.specs.Page.{Added};
ghost use Rattle.ira_view_draw.specs.Escaped.{told_words};
ghost use Rattle.ira_view_draw.specs.MomentLine.{anchor_of, asked_of, asked_text, case_words, is_line_drawn, line_of_moment, line_text};
ghost use Rattle.ira_view_draw.specs.MomentLine.{moment_text, node_words, pale_text, ring_text, rings_text, words_of_moment};
ghost use Rattle.ira_view_draw.specs.MomentLine.{words_text};
ghost use Rattle.ira_view_moment.specs.Told.{told_of};

use crate::class;
use crate::grid::{Grid, LEFT, TOP};
use crate::svg::Svg;
use ira_event::OutOfMemory;
use ira_pred::{Case, Clause};
use ira_view_moment::ChosenMoment;
use ira_view_page::{Page, PageText};
use ira_view_picture::{Picture, Window};
use std::alloc::Allocator;

/// The most bytes of what is said of a moment.
const MOST: usize = 100;

/// From where the line leads, and how far below the last lane.
const LINE_TOP: u64 = TOP - 22;

const BELOW: u64 = 18;

/// Adds the word before the number of a node of a case.
fn write_node<A: Allocator>(page: &mut Page<A>, is_first: bool)
    ensures { Added page.old (node_words is_first) page.new }
{
    page.words(if is_first { "node " } else { ", node " });
}

/// Adds what a case asks of a node, with its number in the case.
fn write_asked<A: Allocator, Q: Allocator>(
    page: &mut Page<A>,
    n: usize,
    place: u8,
    clause: &Clause<Q>,
)
    ensures { Added page.old
        (asked_text (n, record { place = place; formula = formula clause.now })) page.new }
{
    write_node(page, n == 0);
    page.number(place as u64);
    page.words(" ");
    page.clause(clause);
}

/// Adds what a case asks of each node.
fn write_case<A: Allocator, Q: Allocator>(page: &mut Page<A>, case: &Case<Q>)
    ensures { Added page.old (case_words case.now) page.new }
{
    for n in 0..case.len() {
        write_asked(page, n, case.place(n), case.clause(n));
    }
}

/// Adds what is said of a moment: that it is here; of the first that meets a case its number, and what it asks of each node.
fn write_told<A: Allocator, Q: Allocator>(page: &mut Page<A>, moment: &ChosenMoment<Q>)
    requires { HasItsCase moment.now }
    ensures { Added page.old (words_of_moment (told_of moment.now)) page.new }
{
    match moment {
        ChosenMoment::OfCase {
            question,
            number,
            ..
        } => {
            page.words("case ");
            page.number(*number as u64);
            page.words(" is met here: ");
            write_case(page, &question.cases()[*number]);
        }
        ChosenMoment::AtEnd | ChosenMoment::AtCut(_) | ChosenMoment::Unmet(_) => page.words("here"),
    }
}

/// What is said of a moment, whole.
pub(crate) fn moment_words<A: Allocator, Q: Allocator>(
    alloc: A,
    moment: &ChosenMoment<Q>,
) -> Result<PageText<A>, OutOfMemory>
    requires { HasItsCase moment.now }
    ensures { IfOk result (λ words. words ≡ words_of_moment (told_of moment.now)) }
{
    let mut page = Page::new(alloc);
    write_told(&mut page, moment);
    page.finish()
}

/// The words of a moment, of which no more stand than there is room for.
fn write_words<A: Allocator>(out: &mut Svg<A>, words: &[u8])
    ensures { Added out.old.page (told_words words.now) out.new.page }
{
    if words.len() <= MOST {
        out.text(words);
    } else {
        out.text(&words[..MOST - 2]);
        out.page.words("..");
    }
}

/// Makes all pale that is right of a column which is drawn.
pub(crate) fn write_pale<A: Allocator>(out: &mut Svg<A>, grid: &Grid, column: u32)
    ensures { Added out.old.page (pale_text grid.now.nodes grid.now.window column) out.new.page }
{
    if grid.contains(column) {
        let x = grid.x(column);
        out.open("rect", class::PALE);
        out.number("x", x);
        out.number("y", LINE_TOP);
        out.number("width", grid.width().saturating_sub(x));
        out.number("height", grid.foot() + BELOW - LINE_TOP);
        out.page.words("/>\n");
    }
}

/// The line of a moment at a column.
fn write_line<A: Allocator>(out: &mut Svg<A>, grid: &Grid, column: u32)
    ensures { Added out.old.page (line_text grid.now.nodes grid.now.window column) out.new.page }
{
    out.open("path", class::MOMENT);
    out.page.words(" d=\"");
    out.down(grid.x(column), LINE_TOP, grid.foot() + BELOW);
    out.page.words("\"/>\n");
}

/// Where the words of a line stand at it.
fn anchor(x: u64) -> &'static str
    ensures { result.now ≡ anchor_of x }
{
    if x > LEFT + 260 { "middle" } else { "start" }
}

/// What is said above a line.
fn write_words_above<A: Allocator>(out: &mut Svg<A>, grid: &Grid, column: u32, words: &[u8])
    ensures { Added out.old.page (words_text grid.now.window column words.now) out.new.page }
{
    let x = grid.x(column);
    out.open("text", class::MOMENT_WORDS);
    out.number("x", x);
    out.number("y", LINE_TOP - 5);
    out.attribute("text-anchor", anchor(x));
    out.page.words(">");
    write_words(out, words);
    out.page.words("</text>\n");
}

/// A ring on a line at a node.
fn write_ring<A: Allocator>(out: &mut Svg<A>, grid: &Grid, column: u32, place: u8)
    ensures { Added out.old.page (ring_text grid.now.nodes grid.now.window column place) out.new.page }
{
    out.open("circle", class::MOMENT_NODE);
    out.number("cx", grid.x(column));
    out.number("cy", grid.y(usize::from(place)));
    out.number("r", 5);
    out.page.words("/>\n");
}

/// A ring on a line at each node that a case asks.
fn write_rings<A: Allocator, Q: Allocator>(
    out: &mut Svg<A>,
    grid: &Grid,
    column: u32,
    case: &Case<Q>,
)
    ensures { Added out.old.page (rings_text grid.now.nodes grid.now.window column case.now) out.new.page }
{
    for n in 0..case.len() {
        write_ring(out, grid, column, case.place(n));
    }
}

/// The same at the line of a moment, if it is the first of a case.
fn write_asked_nodes<A: Allocator, Q: Allocator>(
    out: &mut Svg<A>,
    grid: &Grid,
    column: u32,
    moment: &ChosenMoment<Q>,
)
    requires { HasItsCase moment.now }
    ensures { Added out.old.page (rings_text grid.now.nodes grid.now.window column
        (asked_of (told_of moment.now))) out.new.page }
{
    if let Some(case) = moment.case() {
        write_rings(out, grid, column, case);
    }
}

/// The line of a moment at a column, with what is said of it, and a ring at each node that its case asks. Right of it all is
/// pale that hasn't happened; at the end of the logs, whose line has a column of its own after the last one, nothing is.
fn write_moment<A: Allocator, Q: Allocator>(
    out: &mut Svg<A>,
    grid: &Grid,
    column: u32,
    moment: &ChosenMoment<Q>,
    words: &[u8],
)
    requires { HasItsCase moment.now }
    ensures { Added out.old.page (moment_text grid.now.nodes grid.now.window column words.now
        (asked_of (told_of moment.now))) out.new.page }
{
    write_pale(out, grid, column);
    write_line(out, grid, column);
    write_words_above(out, grid, column, words);
    write_asked_nodes(out, grid, column, moment);
}

/// Whether the line at a column is drawn: at the columns that are, or after the last of all.
fn has_line(window: Window, last: u32, column: u32) -> bool
    ensures { result ≡ is_line_drawn window last column }
{
    (column > last && window.last == last) || window.contains(column)
}

/// The line of a moment of which these words are said, where there is one and it is drawn.
pub(crate) fn write_line_of_moment<A: Allocator, Q: Allocator>(
    out: &mut Svg<A>,
    grid: &Grid,
    picture: &Picture<A>,
    moment: &ChosenMoment<Q>,
    words: &[u8],
)
    requires { HasItsCase moment.now }
    ensures { Added out.old.page (line_of_moment grid.now.nodes grid.now.window picture.now.last picture.now.line
        words.now (asked_of (told_of moment.now))) out.new.page }
{
    if let Some(column) = picture.line {
        if has_line(grid.window, picture.last, column) {
            write_moment(out, grid, column, moment, words);
        }
    }
}
