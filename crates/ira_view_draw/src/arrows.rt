ghost use Rattle.std.specs.Prelude.{◌≤◌};
ghost use Rattle.ira_view_page.specs.Printable.{IsPrintable};

use crate::class;
use crate::grid::{Grid, Point};
use crate::stroke::{LINES, LineStyle, Stroke, TIPS};
use crate::svg::Svg;
use ira_event::{Event, Load};
use ira_view_page::Page;
use ira_view_picture::{Arrow, Mark, Passage, Picture};
use std::alloc::Allocator;

/// How far the end is of an arrow that nobody receives.
const STUB: u64 = 30;

/// A distance below a lane, or above it where a link leads up.
fn beyond(y: u64, leads_up: bool, distance: u64) -> u64 {
    if leads_up {
        y.saturating_sub(distance)
    } else {
        y.saturating_add(distance)
    }
}

/// Whether the link is drawn upwards: of two nodes the second one's is.
fn leads_up(grid: &Grid, link: u8) -> bool {
    grid.row_of_reader(link) < usize::from(link)
}

/// Where an arrow begins and ends.
fn ends_of(arrow: &Arrow, grid: &Grid) -> (Point, Point) {
    let up = leads_up(grid, arrow.link);
    let (place, row) = (usize::from(arrow.link), grid.row_of_reader(arrow.link));
    match (arrow.sent, arrow.received) {
        (Some(sent), Some(received)) => grid.line((sent, place), (received, row)),
        (Some(sent), None) => {
            let (x, y) = (grid.x(sent), grid.y(place));
            let end = Point {
                x: x + grid.column_width().min(STUB),
                y: beyond(y, up, (grid.lane_height() * 2 / 5).min(24)),
            };
            (Point { x, y }, end)
        }
        (None, received) => {
            let (x, y) = (grid.x(received.unwrap_or(grid.window.first)), grid.y(row));
            let begin = Point {
                x: x - STUB,
                y: beyond(y, !up, 26),
            };
            (begin, Point { x, y })
        }
    }
}

/// The event of a node at a column, where it is drawn.
fn mark_at<A: Allocator>(picture: &Picture<A>, place: usize, column: Option<u32>) -> Option<Mark> {
    let (lane, column) = (picture.lanes.get(place)?, column?);
    let k = lane
        .marks
        .binary_search_by_key(&column, |mark| mark.column)
        .ok()?;
    lane.marks.get(k).copied()
}

/// Adds which event of a node an arrow begins or ends with, where there is one and it is drawn.
fn write_event<A: Allocator>(
    out: &mut Svg<A>,
    picture: &Picture<A>,
    name: &str,
    place: usize,
    column: Option<u32>,
)
    requires { IsPrintable name.now }
{
    if let Some(mark) = mark_at(picture, place, column) {
        out.event(name, place, mark.position);
    }
}

/// The lines of all arrows that are drawn so.
fn write_paths<A: Allocator>(out: &mut Svg<A>, picture: &Picture<A>, grid: &Grid, stroke: Stroke) {
    for arrow in &picture.arrows {
        if Stroke::of(arrow, grid.window.last) == stroke {
            let (begin, end) = ends_of(arrow, grid);
            let (writer, reader) = (usize::from(arrow.link), reader_of(picture, grid, arrow));
            out.open("path", "");
            write_event(out, picture, "data-from", writer, arrow.sent);
            write_event(out, picture, "data-to", reader, arrow.received);
            out.page.words(" d=\"");
            out.move_to(begin.x, begin.y);
            out.page.words("L");
            out.page.number(end.x);
            out.page.words(" ");
            out.page.number(end.y);
            out.page.words("\"/>");
        }
    }
}

/// The arrows that are drawn so, as a group.
fn write_group<A: Allocator>(
    out: &mut Svg<A>,
    picture: &Picture<A>,
    grid: &Grid,
    stroke: Stroke,
    class: &str,
    marker: Option<&str>,
) {
    out.open("g", class);
    out.marker(marker);
    out.page.words(">");
    write_paths(out, picture, grid, stroke);
    out.page.words("</g>\n");
}

/// The arrows that are drawn so. The line of a reset is double: a narrow one of the background's colour on a wide one.
fn write_stroke<A: Allocator>(out: &mut Svg<A>, picture: &Picture<A>, grid: &Grid, stroke: Stroke) {
    if !has_stroke(picture, stroke) {
        return;
    }
    let mut class = stroke.line.class();
    if stroke.line == LineStyle::Reset {
        write_group(out, picture, grid, stroke, class, None);
        class = class::INSIDE;
    }
    write_group(out, picture, grid, stroke, class, stroke.marker());
}

/// A quarter of the way from one number to another.
fn quarter(from: u64, to: u64) -> u64 {
    if from <= to {
        from + (to - from) / 4
    } else {
        from - (from - to) / 4
    }
}

/// A quarter of the way from one place to another.
fn near(from: Point, to: Point) -> Point {
    Point {
        x: quarter(from.x, to.x),
        y: quarter(from.y, to.y),
    }
}

/// Where the words of an arrow stand, if it has any.
fn place_of_words(arrow: &Arrow, grid: &Grid) -> Option<(u64, u64)> {
    let (begin, end) = ends_of(arrow, grid);
    match arrow.passage {
        Passage::NotSent | Passage::Differs => None,
        Passage::NotReceived => Some((
            end.x.saturating_add(24),
            beyond(begin.y, leads_up(grid, arrow.link), 34),
        )),
        _ if grid.contains(arrow.sent?) && grid.contains(arrow.received?) => {
            let Point { x, y } = near(begin, end);
            Some((x, y.saturating_add(4)))
        }
        _ => None,
    }
}

/// How many digits a number has.
fn digits(n: u32) -> u64
    ensures { result ≤ 10 }
{
    match n.checked_ilog10() {
        Some(log) => log as u64 + 1,
        None => 1,
    }
}

/// How many characters the words of an arrow have.
fn width_of_words(load: Load) -> u64
    ensures { result ≤ 32 }
{
    match load {
        Load::Msg(message) => {
            digits(message.round) + digits(message.id) + digits(message.hop) + 2
        }
        Load::Reset(hop) => digits(hop) + 6,
    }
}

/// Adds the words of an arrow: a load without its bit.
fn write_load<A: Allocator>(page: &mut Page<A>, load: Load) {
    match load {
        Load::Msg(message) => {
            page.number(message.round as u64);
            page.numbered(" ", message.id);
            page.numbered(" ", message.hop);
        }
        Load::Reset(hop) => page.numbered("reset ", hop),
    }
}

/// A box of the background's colour below the words of an arrow, in the middle of which this place is.
fn write_box<A: Allocator>(out: &mut Svg<A>, load: Load, x: u64, y: u64) {
    let width = width_of_words(load) * 6 + 6;
    out.open("rect", class::BACKGROUND);
    out.number("x", x.saturating_sub(width / 2));
    out.number("y", y.saturating_sub(10));
    out.number("width", width);
    out.number("height", 13);
    out.number("rx", 2);
    out.page.words("/>");
}

/// What the arrows carry, where there is room beside them: above boxes, so that no line goes through the words.
fn write_words<A: Allocator>(out: &mut Svg<A>, picture: &Picture<A>, grid: &Grid) {
    if !grid.has_labels() || picture.arrows.is_empty() {
        return;
    }
    out.open("g", class::ARROW_WORDS);
    out.page.words(">");
    for arrow in &picture.arrows {
        if let Some((x, y)) = place_of_words(arrow, grid) {
            write_box(out, arrow.load, x, y);
        }
    }
    for arrow in &picture.arrows {
        if let Some((x, y)) = place_of_words(arrow, grid) {
            out.begin_text("", x, y);
            write_load(&mut out.page, arrow.load);
            out.page.words("</text>");
        }
    }
    out.page.words("</g>\n");
}

/// What was sent or received, whole, beside a place: left of it, or right of it.
fn write_whole<A: Allocator>(out: &mut Svg<A>, load: Load, at: Point, is_left: bool) {
    if is_left {
        out.begin_text(class::REMARK_BEFORE, at.x.saturating_sub(6), at.y);
    } else {
        out.begin_text(class::REMARK, at.x.saturating_add(6), at.y);
    }
    out.page.load(load);
    out.page.words("</text>\n");
}

/// Both messages of an arrow that was received as another: what was sent near where it begins, and what was received near
/// where it ends. The one is named by the answer, and stands left; the other, if there is one, right.
fn write_both<A: Allocator>(
    out: &mut Svg<A>,
    picture: &Picture<A>,
    grid: &Grid,
    arrow: &Arrow,
    is_left: bool,
) {
    let (begin, end) = ends_of(arrow, grid);
    write_whole(out, arrow.load, near(begin, end), is_left);
    let received = mark_at(picture, reader_of(picture, grid, arrow), arrow.received);
    if let Some(Event::Got(load)) = received.map(|mark| mark.event) {
        write_whole(out, load, near(end, begin), is_left);
    }
}

/// Both messages of the first two arrows that were received as another.
fn write_differences<A: Allocator>(out: &mut Svg<A>, picture: &Picture<A>, grid: &Grid) {
    let mut is_left = true;
    for arrow in picture.arrows.iter().filter(|arrow| differs(arrow)).take(2) {
        write_both(out, picture, grid, arrow, is_left);
        is_left = false;
    }
}

/// All arrows, those drawn alike in a group.
pub(crate) fn write_arrows<A: Allocator>(out: &mut Svg<A>, picture: &Picture<A>, grid: &Grid) {
    for line in LINES {
        for tip in TIPS {
            write_stroke(out, picture, grid, Stroke { line, tip });
        }
    }
    write_words(out, picture, grid);
    write_differences(out, picture, grid);
}

/// Whether an arrow was received as another.
fn differs(arrow: &Arrow) -> bool {
    arrow.passage == Passage::Differs
}

/// The place of the node at the end of an arrow.
fn reader_of<A: Allocator>(picture: &Picture<A>, grid: &Grid, arrow: &Arrow) -> usize {
    grid.row_of_reader(arrow.link) % picture.lanes.len().max(1)
}

/// Whether a picture has an arrow that is drawn so.
fn has_stroke<A: Allocator>(picture: &Picture<A>, stroke: Stroke) -> bool {
    picture
        .arrows
        .iter()
        .any(|arrow| Stroke::of(arrow, picture.window.last) == stroke)
}
