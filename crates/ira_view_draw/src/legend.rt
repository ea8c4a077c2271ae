use crate::class;
use crate::grid::{Grid, LEFT};
use crate::lanes::Shown::{self, Band, Debt, Doubted};
use crate::stroke::{LineStyle, Stroke, Tip};
use crate::svg::Svg;
use ira_event::Event;
use ira_view_picture::{BandKind, Lane, Picture};
use std::alloc::Allocator;

/// What an entry explains.
#[derive(Clone, Copy)]
enum Sample {
    /// A mark of an event that isn't a draw.
    Dot,
    /// A mark of a draw.
    Square,
    /// What is shown along lanes.
    Lane(Shown),
    /// An arrow of a message that isn't dirty and is received.
    Message,
    /// An arrow of this line, however it ends.
    Line(LineStyle),
    /// An arrow that ends so, of any line.
    Tip(Tip),
    /// The lane of node 0 below the last one.
    SecondLane,
}

/// All that may be explained, in its order: by which words, and how wide the entry is.
fn entries(has_terms: bool) -> [(Sample, &'static str, u64); 17] {
    let (active, width) = if has_terms {
        ("active, as term/round:ID", 198)
    } else {
        ("active, as round:ID", 168)
    };
    [
        (Sample::Dot, "event", 92),
        (Sample::Square, "draw", 88),
        (Sample::Lane(Band(BandKind::Choosing)), "choosing", 108),
        (Sample::Lane(Band(BandKind::Active)), active, width),
        (Sample::Lane(Band(BandKind::Passive)), "passive", 98),
        (Sample::Lane(Band(BandKind::Leader)), "leader", 94),
        (Sample::Lane(Doubted), "leader by its own log alone", 230),
        (Sample::Lane(Band(BandKind::Yielding)), "yielding", 102),
        (Sample::Lane(Debt), "owes a message", 158),
        (Sample::Message, "message", 106),
        (Sample::Line(LineStyle::Dirty), "dirty", 84),
        (Sample::Line(LineStyle::Reset), "reset", 88),
        (Sample::Tip(Tip::Cross), "dropped", 104),
        (Sample::Tip(Tip::Circle), "not received", 124),
        (
            Sample::Line(LineStyle::Lap),
            "the lap that elected the leader",
            264,
        ),
        (Sample::Lane(Band(BandKind::Unknown)), "no state", 108),
        (Sample::SecondLane, "node 0 once more", 176),
    ]
}

/// Where entries stand.
#[derive(Clone, Copy)]
struct LegendPlace {
    x: u64,
    y: u64,
    /// Where the picture ends.
    width: u64,
}

impl LegendPlace {
    fn new(grid: &Grid) -> LegendPlace {
        LegendPlace {
            x: LEFT,
            y: grid.foot() + 62,
            width: grid.width(),
        }
    }

    /// Where the next entry stands: beside the one before it, or below.
    fn place(&mut self, width: u64) -> (u64, u64) {
        if self.x.saturating_add(width).saturating_add(10) > self.width {
            self.x = LEFT;
            self.y = self.y.saturating_add(24);
        }
        let place = (self.x, self.y);
        self.x = self.x.saturating_add(width);
        place
    }
}

/// Whether an event of a lane is drawn that is a draw, or one that isn't.
fn has_mark<A: Allocator>(lane: &Lane<A>, is_draw: bool) -> bool {
    lane.marks
        .iter()
        .any(|mark| matches!(mark.event, Event::Draw(_)) == is_draw)
}

impl Sample {
    /// Whether a lane has it.
    fn is_in<A: Allocator>(self, lane: &Lane<A>, named: Option<u32>) -> bool {
        match self {
            Sample::Dot => has_mark(lane, false),
            Sample::Square => has_mark(lane, true),
            Sample::Lane(shown) => shown.is_in(lane, named),
            _ => false,
        }
    }

    /// Whether it is an arrow that is drawn so.
    fn is_drawn(self, stroke: Stroke) -> bool {
        match self {
            Sample::Message => stroke.line == LineStyle::Clean && stroke.tip == Tip::Head,
            Sample::Line(line) => stroke.line == line,
            Sample::Tip(tip) => stroke.tip == tip,
            _ => false,
        }
    }
}

/// Whether the picture has what the entry explains.
fn is_used<A: Allocator>(picture: &Picture<A>, sample: Sample, named: Option<u32>) -> bool {
    if let Sample::SecondLane = sample {
        return picture.lanes.len() > 2;
    }
    let last = picture.window.last;
    picture.lanes.iter().any(|lane| sample.is_in(lane, named))
        || picture
            .arrows
            .iter()
            .any(|arrow| sample.is_drawn(Stroke::of(arrow, last)))
}

/// Where the last line of the legend stands.
pub(crate) fn legend_foot<A: Allocator>(
    picture: &Picture<A>,
    grid: &Grid,
    named: Option<u32>,
) -> u64 {
    let mut room = LegendPlace::new(grid);
    for (sample, _, width) in entries(picture.has_terms()) {
        if is_used(picture, sample, named) {
            room.place(width);
        }
    }
    room.y
}

/// A line of a class, and what it ends with.
fn write_bar<A: Allocator>(out: &mut Svg<A>, class: &str, marker: Option<&str>, x: u64, y: u64) {
    out.open("path", class);
    out.marker(marker);
    out.page.words(" d=\"");
    out.along(x, y, x.saturating_add(30));
    out.page.words("\"/>");
}

/// A mark of an event that isn't a draw.
fn write_dot<A: Allocator>(out: &mut Svg<A>, x: u64, y: u64) {
    out.begin_lines(class::SAMPLE_MARK);
    out.dot(x.saturating_add(15), y);
    out.page.words("\"/>");
}

/// An arrow of such a line with such an end.
fn write_arrow<A: Allocator>(out: &mut Svg<A>, line: LineStyle, tip: Tip, x: u64, y: u64) {
    write_bar(out, line.class(), Stroke { line, tip }.marker(), x, y);
    if line == LineStyle::Reset {
        write_bar(out, class::INSIDE, None, x, y);
    }
}

fn write_sample<A: Allocator>(out: &mut Svg<A>, sample: Sample, x: u64, y: u64) {
    match sample {
        Sample::Dot => write_dot(out, x, y),
        Sample::Square => {
            out.begin_lines(class::SAMPLE_DRAW);
            out.square(x.saturating_add(15), y);
            out.page.words("\"/>");
        }
        Sample::Lane(shown) => write_bar(out, shown.class(), None, x, y),
        Sample::Message => write_arrow(out, LineStyle::Clean, Tip::Head, x, y),
        Sample::Line(line) => write_arrow(out, line, Tip::Head, x, y),
        Sample::Tip(tip) => write_arrow(out, LineStyle::Clean, tip, x, y),
        Sample::SecondLane => {
            out.page.words("<g opacity=\".4\">");
            write_bar(out, class::PASSIVE, None, x, y);
            write_dot(out, x, y);
            out.page.words("</g>");
        }
    }
}

/// What the picture has, with words.
pub(crate) fn write_legend<A: Allocator>(
    out: &mut Svg<A>,
    picture: &Picture<A>,
    grid: &Grid,
    named: Option<u32>,
) {
    let mut room = LegendPlace::new(grid);
    for (sample, words, width) in entries(picture.has_terms()) {
        if is_used(picture, sample, named) {
            let (x, y) = room.place(width);
            write_sample(out, sample, x, y.saturating_sub(4));
            out.begin_text(class::ASIDE, x.saturating_add(38), y);
            out.text(words.as_bytes());
            out.page.words("</text>\n");
        }
    }
}
