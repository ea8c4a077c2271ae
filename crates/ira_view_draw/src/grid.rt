ghost use Rattle.std.specs.Prelude.{◌≡◌, ◌↔◌, ◌<◌, ◌≤◌, ◌+◌, ◌*◌, ◌^◌, IsTrue, max};
ghost use Rattle.ira_view_picture.specs.Window.{IsIn};
ghost use Rattle.ira_view_draw.specs.Grid.{IsAcross, IsDown, foot_of, height_of, picture_width, width_of, x_of, y_of};

use ira_view_picture::Window;

/// Where columns and lanes stand.
#[derive(Clone, Copy)]
pub(crate) struct Grid {
    /// How many nodes the ring has.
    pub(crate) nodes: u8,
    /// The columns that are drawn.
    pub(crate) window: Window,
}

/// Where the first column stands, and the first lane.
pub(crate) const LEFT: u64 = 76;

pub(crate) const TOP: u64 = 96;

/// No lane stands lower.
const LOWEST: u64 = 32_000;

/// How far an arrow reaches that comes from the left of the first column.
const REACH: u64 = 10;

/// A place of the picture.
#[derive(Clone, Copy)]
pub(crate) struct Point {
    pub(crate) x: u64,
    pub(crate) y: u64,
}

impl Point {
    /// Where a line from here to another place is at `x`, which lies between the two.
    fn towards(self, other: Point, x: u64) -> Point {
        let (part, whole) = (self.x.abs_diff(x), self.x.abs_diff(other.x));
        let up = self
            .y
            .abs_diff(other.y)
            .saturating_mul(part)
            .checked_div(whole)
            .unwrap_or(0);
        let y = if self.y <= other.y {
            self.y.saturating_add(up)
        } else {
            self.y.saturating_sub(up)
        };
        Point { x, y }
    }
}

impl Grid {
    /// How wide a column is.
    pub(crate) fn column_width(&self) -> u64
        ensures value { result ≡ width_of self.now.window }
        ensures few { result ≤ 64 }
    {
        match u64::from(self.window.last.saturating_sub(self.window.first)) + 1 {
            0..=12 => 64,
            13..=20 => 44,
            21..=40 => 30,
            41..=100 => 18,
            101..=400 => 12,
            _ => 8,
        }
    }

    /// How far apart lanes are.
    pub(crate) fn lane_height(&self) -> u64
        ensures value { result ≡ height_of self.now.nodes }
        ensures few { result ≤ 84 }
    {
        match self.nodes {
            0..=4 => 84,
            5..=8 => 56,
            9..=16 => 44,
            17..=32 => 34,
            _ => 26,
        }
    }

    pub(crate) fn contains(&self, column: u32) -> bool
        ensures { IsTrue result ↔ IsIn self.now.window column }
    {
        self.window.contains(column)
    }

    /// Where a column stands that is the first one or right of it.
    pub(crate) fn x(&self, column: u32) -> u64
        ensures place { result ≡ x_of self.now.window column }
        ensures bounds { IsAcross result }
    {
        LEFT + self.offset(column.saturating_sub(self.window.first))
    }

    /// How far right of column 0 a column would stand.
    fn offset(&self, column: u32) -> u64
        ensures value { result ≡ column * width_of self.now.window }
        ensures few { result < 2 ^ 39 }
    {
        u64::from(column) * self.column_width()
    }

    /// A line between two lanes and columns, as far as there is room for it.
    pub(crate) fn line(&self, from: (u32, usize), to: (u32, usize)) -> (Point, Point) {
        let a = Point {
            x: self.offset(from.0),
            y: self.y(from.1),
        };
        let b = Point {
            x: self.offset(to.0),
            y: self.y(to.1),
        };
        (self.clipped(a, b), self.clipped(b, a))
    }

    /// The end of a line at a place, or where the line to another place enters the picture. Both count from column 0.
    fn clipped(&self, end: Point, other: Point) -> Point {
        let zero = self.offset(self.window.first);
        let left = zero.saturating_sub(REACH);
        let right = self.offset(self.window.last) + self.column_width().max(24);
        let Point { x, y } = if end.x < left {
            end.towards(other, left)
        } else if end.x > right {
            end.towards(other, right)
        } else {
            end
        };
        Point {
            x: x.saturating_add(LEFT).saturating_sub(zero),
            y,
        }
    }

    /// Where a lane stands.
    pub(crate) fn y(&self, row: usize) -> u64
        ensures place { result ≡ y_of self.now.nodes row }
        ensures bounds { IsDown result }
    {
        TOP + (row as u64).saturating_mul(self.lane_height()).min(LOWEST)
    }

    /// The right edge of bands.
    pub(crate) fn edge(&self) -> u64
        ensures place { result ≡ x_of self.now.window self.now.window.last + max (width_of self.now.window) 24 }
        ensures few { result < 2 ^ 41 }
    {
        self.x(self.window.last) + self.column_width().max(24)
    }

    /// Whether node 0 is drawn once more below the last one.
    pub(crate) fn is_unrolled(&self) -> bool
        ensures { IsTrue result ↔ (2 < self.now.nodes) }
    {
        self.nodes > 2
    }

    /// The lane of the node at the end of a link.
    pub(crate) fn row_of_reader(&self, link: u8) -> usize {
        let below = usize::from(link) + 1;
        if below < usize::from(self.nodes) || self.is_unrolled() {
            below
        } else {
            0
        }
    }

    /// Where the last lane stands.
    pub(crate) fn foot(&self) -> u64
        ensures place { result ≡ foot_of self.now.nodes }
        ensures bounds { IsDown result }
    {
        if self.is_unrolled() {
            self.y(usize::from(self.nodes))
        } else {
            self.y(1)
        }
    }

    pub(crate) fn width(&self) -> u64
        ensures { result ≡ picture_width self.now.window }
    {
        (self.edge() + 190).max(780)
    }

    /// Whether names of lanes left of the picture are out of sight at its right end.
    pub(crate) fn is_wide(&self) -> bool {
        self.edge() > 1600
    }

    /// Whether there is room for words beside each arrow.
    pub(crate) fn has_labels(&self) -> bool {
        self.nodes <= 4 && self.column_width() >= 44
    }
}
