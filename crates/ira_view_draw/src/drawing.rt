ghost use Rattle.std.specs.Prelude.{◌≡◌, ◌++◌, ℕ, Err, IfErr, IfOk, List, None, Some, codes};
ghost use Rattle.ira_view_moment.specs.ChosenMoment.{IsMomentOf, cut_of};
ghost use Rattle.ira_view_page.specs.Printable.{IsPrintable};
ghost use Rattle.ira_view_picture.specs.DrawFault.{HasTooManyEvents, IsDrawFault};
ghost use Rattle.ira_view_page.specs.Page.{AddedSome};
ghost use Rattle.ira_view_draw.specs.Drawing.{IsDrawing, IsLogsDrawing};
ghost use Rattle.ira_view_draw.specs.Grid.{IsAcross, IsDown};
ghost use Rattle.ira_view_draw.specs.MomentLine.{cut_with_line};
ghost use Rattle.ira_view_moment.specs.Told.{told_of};

use crate::arrows::write_arrows;
use crate::class;
use crate::frame::{write_columns, write_head};
use crate::grid::Grid;
use crate::headline::{ToldReason, reason_words};
use crate::highlight::{Cause, Highlight, highlights};
use crate::labels::write_labels;
use crate::lanes::write_lanes;
use crate::legend::{legend_foot, write_legend};
use crate::marks::write_marks;
use crate::moment_line::{moment_words, write_line_of_moment, write_pale};
use crate::svg::Svg;
use ira_audit::{Reason, RefusedLogs};
use ira_event::{Logs, OutOfMemory};
use ira_order::EventAt;
use ira_view_moment::ChosenMoment;
use ira_view_page::PageText;
use ira_view_picture::{ColumnRange, DrawFault, Picture};
use std::alloc::Allocator;

/// The column of an event that is drawn.
fn column_of<A: Allocator>(picture: &Picture<A>, at: EventAt) -> Option<u32> {
    let lane = picture.lanes.get(usize::from(at.place))?;
    let k = lane
        .marks
        .binary_search_by_key(&at.position, |mark| mark.position)
        .ok()?;
    lane.marks.get(k).map(|mark| mark.column)
}

/// A ring at a place.
fn write_circle<A: Allocator>(out: &mut Svg<A>, x: u64, y: u64)
    ensures { AddedSome out.old.page out.new.page }
{
    out.open("circle", class::RING);
    out.attribute("fill", "none");
    out.number("cx", x);
    out.number("cy", y);
    out.number("r", 8);
    out.page.words("/>");
}

/// Where words stand beside a ring: above the lane, below it at node 1 of two.
fn beside(nodes: u8, place: u8, y: u64) -> u64
    requires { IsDown y }
{
    if nodes == 2 && place == 1 {
        y + 24
    } else {
        y - 14
    }
}

/// Begins the words at a ring: away from the arrows, to the right.
fn begin_words<A: Allocator>(out: &mut Svg<A>, nodes: u8, cause: Cause, x: u64, y: u64)
    requires { IsAcross x }
    ensures { AddedSome out.old.page out.new.page }
{
    if nodes == 2 {
        out.begin_text(class::CENTRED_REMARK, x, y);
    } else if cause.is_left() {
        out.begin_text(class::REMARK_BEFORE, x - 10, y);
    } else {
        out.begin_text(class::REMARK, x - 4, y);
    }
}

/// A ring round an event, and why.
fn write_highlight<A: Allocator>(out: &mut Svg<A>, grid: &Grid, highlight: &Highlight, column: u32)
    ensures { AddedSome out.old.page out.new.page }
{
    let EventAt { place, .. } = highlight.at;
    let (x, y) = (grid.x(column), grid.y(usize::from(place)));
    write_circle(out, x, y);
    begin_words(
        out,
        grid.nodes,
        highlight.cause,
        x,
        beside(grid.nodes, place, y),
    );
    highlight.cause.write(&mut out.page);
    out.page.words("</text>\n");
}

/// What the answer speaks of; where that is no event, all is pale.
fn write_highlights<A: Allocator>(
    out: &mut Svg<A>,
    picture: &Picture<A>,
    grid: &Grid,
    events: &[Highlight],
)
    ensures { AddedSome out.old.page out.new.page }
{
    if events.is_empty() {
        write_pale(out, grid, grid.window.first);
        return;
    }
    for event in events {
        if let Some(column) = column_of(picture, event.at) {
            write_highlight(out, grid, event, column);
        }
    }
}

/// The first column of one of these events, where one is drawn.
fn first_column<A: Allocator>(picture: &Picture<A>, events: &[Highlight]) -> Option<u32> {
    let mut first = None;
    for event in events {
        if let Some(column) = column_of(picture, event.at) {
            first = Some(column.min(first.unwrap_or(column)));
        }
    }
    first
}

/// Writes what all pictures have below the marks, and gives where columns and lanes stand.
fn write_ground<A: Allocator>(
    out: &mut Svg<A>,
    nodes: u8,
    picture: &Picture<A>,
    told: Option<ToldReason<'_>>,
) -> Grid
    ensures { (result.nodes ≡ nodes) × (result.window ≡ picture.now.window) }
{
    let grid = Grid {
        nodes,
        window: picture.window,
    };
    let named = match told {
        Some(told) => told.column,
        None => None,
    };
    let height = legend_foot(picture, &grid, named).saturating_add(20);
    write_head(out, picture, &grid, told, height);
    write_columns(out, &grid);
    write_legend(out, picture, &grid, named);
    write_lanes(out, picture, &grid, named);
    write_arrows(out, picture, &grid);
    write_labels(out, picture, &grid);
    grid
}

/// Ends the picture.
fn finish<A: Allocator>(mut out: Svg<A>) -> Result<PageText<A>, OutOfMemory>
    ensures { IfOk result (λ text. IsPrintable text
        × ((before : List ℕ) × (out.page ≡ Some before) × (text ≡ before ++ codes "</svg>\n"))) }
{
    out.page.words("</svg>\n");
    out.page.finish()
}

/// The text of an SVG file: a space-time diagram of the logs of a run at the columns that are asked for, with a line at the
/// moment where it isn't the end of the logs.
pub fn draw<A: Allocator + Clone>(
    alloc: A,
    logs: &Logs<A>,
    moment: &ChosenMoment<A>,
    columns: ColumnRange,
) -> Result<PageText<A>, DrawFault>
    requires { IsMomentOf logs.now moment.now }
    ensures drawing { IfOk result
        (IsDrawing logs.now (cut_of logs.now moment.now) (told_of moment.now) columns.from columns.to) }
    ensures fault { IfErr result IsDrawFault }
    ensures events { (events : ℕ) → result ≡ Err (DrawFault.TooManyEvents events)
        → HasTooManyEvents logs.now (cut_with_line (told_of moment.now) (cut_of logs.now moment.now)) columns.from
        columns.to events }
{
    let ColumnRange { from, to } = columns;
    let picture = Picture::of(alloc.clone()?, logs, moment.cut(), from, to)?;
    let words = moment_words(alloc.clone()?, moment)?;
    let mut out = Svg::new(alloc);
    let grid = write_ground(&mut out, logs.size().get(), &picture, None);
    write_marks(&mut out, &picture, &grid);
    write_line_of_moment(&mut out, &grid, &picture, moment, words.bytes());
    Ok(finish(out)?)
}

/// The same of logs against which this reason stands: where they are those of no run what it speaks of is marked, else they
/// are what is left, and all is pale.
pub fn draw_refused<A: Allocator + Clone>(
    alloc: A,
    logs: &Logs<A>,
    reason: Reason,
    refused: Option<&RefusedLogs<A>>,
    columns: ColumnRange,
) -> Result<PageText<A>, DrawFault>
    ensures drawing { IfOk result (IsLogsDrawing logs.now columns.from columns.to) }
    ensures fault { IfErr result IsDrawFault }
    ensures events { (events : ℕ) → result ≡ Err (DrawFault.TooManyEvents events)
        → HasTooManyEvents logs.now None columns.from columns.to events }
{
    let ColumnRange { from, to } = columns;
    let picture = Picture::of(alloc.clone()?, logs, None, from, to)?;
    let events = match refused {
        Some(refused) => highlights(alloc.clone()?, refused)?,
        None => Vec::new(alloc.clone()?),
    };
    let words = reason_words(alloc.clone()?, reason)?;
    let told = ToldReason {
        reason,
        words: words.bytes(),
        column: first_column(&picture, &events),
    };
    let mut out = Svg::new(alloc);
    let grid = write_ground(&mut out, logs.size().get(), &picture, Some(told));
    write_marks(&mut out, &picture, &grid);
    write_highlights(&mut out, &picture, &grid, &events);
    Ok(finish(out)?)
}
