ghost use Rattle.std.specs.Prelude.{◌≡◌, ◌↔◌, IsTrue, min};
ghost use Rattle.ira_view_picture.specs.Arrow.{IsBetween};
ghost use Rattle.ira_view_picture.specs.Window.{IsIn, asked_window};

/// Which columns are drawn.
#[derive(Clone, Copy, Debug, PartialEq, Eq)]
pub struct Window {
    pub first: u32,
    pub last: u32,
}

/// The column of this number, or the last one where there are fewer.
fn at_most(column: u64, last: u32) -> u32
    ensures { result ≡ min column last }
{
    if column < u64::from(last) {
        column as u32
    } else {
        last
    }
}

impl Window {
    /// The columns `from` to `to` where these are given and there are so many, else up to the first and the last one.
    pub(crate) fn clamped(from: Option<u64>, to: Option<u64>, last: u32) -> Window
        ensures { result ≡ asked_window from to last }
    {
        let first = at_most(from.unwrap_or(0), last);
        let to = at_most(to.unwrap_or(u64::from(last)), last);
        Window {
            first,
            last: first.max(to),
        }
    }

    pub fn contains(&self, column: u32) -> bool
        ensures { IsTrue result ↔ IsIn self.now column }
    {
        self.first <= column && column <= self.last
    }

    /// Whether a part of what leads from one column to another is drawn, as far as there are both.
    pub(crate) fn meets(&self, from: Option<u32>, to: Option<u32>) -> bool
        ensures { IsTrue result ↔ IsBetween self.now from to }
    {
        match (from, to) {
            (Some(a), Some(b)) => a.min(b) <= self.last && self.first <= a.max(b),
            (Some(a), None) | (None, Some(a)) => self.contains(a),
            (None, None) => false,
        }
    }
}
