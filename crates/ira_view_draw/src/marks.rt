ghost use Rattle.std.specs.Prelude.{◌≡◌, map};
ghost use Rattle.ira_view_page.specs.Page.{Added};
ghost use Rattle.ira_view_picture.specs.Picture.{drawn_of};
ghost use Rattle.ira_view_draw.specs.Marks.{after_text, below_text, lane_text, mark_class, mark_text, marks_text};
ghost use Rattle.ira_view_draw.specs.Marks.{shape_text, title_text};

use crate::class;
use crate::grid::{Grid, TOP};
use crate::svg::Svg;
use ira_event::Event;
use ira_view_page::Page;
use ira_view_picture::{After, Lane, Mark, Picture};
use std::alloc::Allocator;

/// The class of an event's mark.
fn class_of(event: Event) -> &'static str
    ensures { result.now ≡ mark_class event }
{
    match event {
        Event::Draw(_) => class::DRAW,
        Event::Sent(_) | Event::Got(_) | Event::Yield => "",
    }
}

/// What an event's mark looks like.
fn write_shape<A: Allocator>(out: &mut Svg<A>, event: Event, x: u64, y: u64)
    ensures { Added out.old.page (shape_text event x y) out.new.page }
{
    match event {
        Event::Draw(_) => out.square(x, y),
        Event::Sent(_) | Event::Got(_) | Event::Yield => out.dot(x, y),
    }
}

/// Adds what is known of a node after an event.
fn write_after<A: Allocator>(page: &mut Page<A>, after: After)
    ensures { Added page.old (after_text after) page.new }
{
    match after {
        After::State(state) => page.state(&state),
        After::NoStep => page.words("no step"),
        After::Unknown => page.words("no state"),
    }
}

/// What an event is, for those who point at it.
fn write_title<A: Allocator>(page: &mut Page<A>, place: usize, mark: &Mark)
    ensures { Added page.old (title_text place mark.now) page.new }
{
    page.words("<title>node ");
    page.number(place as u64);
    page.words(" event ");
    page.number(mark.position as u64);
    page.words(": ");
    page.event(mark.event);
    page.end();
    write_after(page, mark.after);
    page.words("</title>");
}

fn write_mark<A: Allocator>(out: &mut Svg<A>, grid: &Grid, place: usize, mark: &Mark)
    ensures { Added out.old.page (mark_text grid.now.nodes grid.now.window place mark.now) out.new.page }
{
    out.open("path", class_of(mark.event));
    out.event("data-at", place, mark.position);
    out.page.words(" d=\"");
    write_shape(out, mark.event, grid.x(mark.column), grid.y(place));
    out.page.words("\">");
    write_title(&mut out.page, place, mark);
    out.page.words("</path>\n");
}

/// The events of a node.
fn write_lane<A: Allocator>(out: &mut Svg<A>, grid: &Grid, place: usize, lane: &Lane<A>)
    ensures { Added out.old.page
        (lane_text grid.now.nodes grid.now.window (place, drawn_of lane.now)) out.new.page }
{
    out.open("g", class::MARKS);
    out.page.words(" id=\"e");
    out.page.number(place as u64);
    out.page.words("\">\n");
    for mark in &lane.marks {
        write_mark(out, grid, place, mark);
    }
    out.page.words("</g>\n");
}

/// Those of node 0 once more below the last lane.
fn write_below<A: Allocator>(out: &mut Svg<A>, grid: &Grid)
    ensures { Added out.old.page (below_text grid.now.nodes) out.new.page }
{
    if grid.is_unrolled() {
        out.once_more("#e0", grid.foot() - TOP, ".45");
    }
}

/// All events that are drawn.
pub(crate) fn write_marks<A: Allocator>(out: &mut Svg<A>, picture: &Picture<A>, grid: &Grid)
    ensures { Added out.old.page (marks_text grid.now.nodes grid.now.window
        (map drawn_of picture.now.lanes.items)) out.new.page }
{
    for (place, lane) in picture.lanes.iter().enumerate() {
        write_lane(out, grid, place, lane);
    }
    write_below(out, grid);
}
