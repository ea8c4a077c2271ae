use crate::class;
use crate::grid::{Grid, TOP};
use crate::svg::Svg;
use ira_view_picture::{Band, BandKind, Lane, Picture, Span};
use std::alloc::Allocator;

/// What a path of bands shows.
#[derive(Clone, Copy, PartialEq, Eq)]
pub(crate) enum Shown {
    Band(BandKind),
    /// Leading, which began when what the answer speaks of did, or later: by the log of the node alone.
    Doubted,
    /// When nodes owe something.
    Debt,
}

/// All of them, those below first.
const SHOWN: [Shown; 8] = [
    Shown::Band(BandKind::Unknown),
    Shown::Band(BandKind::Passive),
    Shown::Band(BandKind::Active),
    Shown::Band(BandKind::Choosing),
    Shown::Band(BandKind::Yielding),
    Shown::Band(BandKind::Leader),
    Shown::Doubted,
    Shown::Debt,
];

impl Shown {
    /// What a band is drawn as, where the answer speaks of an event at this column, and of none before it.
    fn of(band: Band, named: Option<u32>) -> Shown {
        match (band.kind, named) {
            (BandKind::Leader, Some(column)) if column <= band.span.from => Shown::Doubted,
            (kind, _) => Shown::Band(kind),
        }
    }

    /// The class of its path.
    pub(crate) fn class(self) -> &'static str {
        match self {
            Shown::Band(BandKind::Unknown) => class::UNKNOWN,
            Shown::Band(BandKind::Passive) => class::PASSIVE,
            Shown::Band(BandKind::Active) => class::ACTIVE,
            Shown::Band(BandKind::Choosing) => class::CHOOSING,
            Shown::Band(BandKind::Yielding) => class::YIELDING,
            Shown::Band(BandKind::Leader) => class::LEADER,
            Shown::Doubted => class::DOUBTED,
            Shown::Debt => class::DEBT,
        }
    }

    /// Whether a lane has it.
    pub(crate) fn is_in<A: Allocator>(self, lane: &Lane<A>, named: Option<u32>) -> bool {
        match self {
            Shown::Band(_) | Shown::Doubted => lane
                .bands
                .iter()
                .any(|band| Shown::of(*band, named) == self),
            Shown::Debt => !lane.debts.is_empty(),
        }
    }
}

/// The bands of a kind of a lane, or when its node owes something, as lines of a path.
fn write_spans<A: Allocator>(
    out: &mut Svg<A>,
    grid: &Grid,
    lane: &Lane<A>,
    place: usize,
    shown: Shown,
    named: Option<u32>,
) {
    let y = grid.y(place);
    match shown {
        Shown::Band(_) | Shown::Doubted => {
            for band in &lane.bands {
                if Shown::of(*band, named) == shown {
                    write_span(out, grid, y, band.span);
                }
            }
        }
        Shown::Debt => {
            for debt in &lane.debts {
                write_span(out, grid, y, *debt);
            }
        }
    }
}

fn write_span<A: Allocator>(out: &mut Svg<A>, grid: &Grid, y: u64, span: Span) {
    let to = match span.to {
        Some(to) => grid.x(to),
        None => grid.edge(),
    };
    out.along(grid.x(span.from), y, to);
}

/// The bands of a kind of all lanes but the first one, as one path.
fn write_bands<A: Allocator>(
    out: &mut Svg<A>,
    picture: &Picture<A>,
    grid: &Grid,
    shown: Shown,
    named: Option<u32>,
) {
    let mut others = picture.lanes.iter().skip(1);
    if !others.any(|lane| shown.is_in(lane, named)) {
        return;
    }
    out.begin_lines(shown.class());
    for (place, lane) in picture.lanes.iter().enumerate() {
        if place > 0 {
            write_spans(out, grid, lane, place, shown, named);
        }
    }
    out.page.words("\"/>\n");
}

/// The bands of the first lane, in a group of their own, since they are drawn twice.
fn write_first_lane<A: Allocator>(
    out: &mut Svg<A>,
    lane: &Lane<A>,
    grid: &Grid,
    named: Option<u32>,
) {
    out.page.words("<g id=\"n0\">");
    for shown in SHOWN {
        if shown.is_in(lane, named) {
            out.begin_lines(shown.class());
            write_spans(out, grid, lane, 0, shown, named);
            out.page.words("\"/>");
        }
    }
    out.page.words("</g>\n");
}

/// What each node is, from column to column, and when it owes something. With a column, the answer speaks of an event
/// there, and of none before it.
pub(crate) fn write_lanes<A: Allocator>(
    out: &mut Svg<A>,
    picture: &Picture<A>,
    grid: &Grid,
    named: Option<u32>,
) {
    for shown in SHOWN {
        write_bands(out, picture, grid, shown, named);
    }
    if let Some(lane) = picture.lanes.first() {
        write_first_lane(out, lane, grid, named);
    }
    if grid.is_unrolled() {
        out.once_more("#n0", grid.foot() - TOP, ".35");
    }
}
