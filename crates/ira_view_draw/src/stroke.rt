use crate::class;
use ira_event::{Load, Msg};
use ira_view_picture::{Arrow, Passage};

/// How the line of an arrow is drawn.
#[derive(Clone, Copy, PartialEq, Eq)]
pub(crate) enum LineStyle {
    /// What was received isn't what was sent.
    Wrong,
    /// It leads back.
    Back,
    Reset,
    Dirty,
    Clean,
    Lap,
}

/// What an arrow ends with.
#[derive(Clone, Copy, PartialEq, Eq)]
pub(crate) enum Tip {
    /// Nothing: it goes on right of the picture.
    Open,
    Head,
    /// Nobody receives it.
    Circle,
    /// It is dropped.
    Cross,
}

/// How an arrow is drawn.
#[derive(Clone, Copy, PartialEq, Eq)]
pub(crate) struct Stroke {
    pub(crate) line: LineStyle,
    pub(crate) tip: Tip,
}

/// All lines, those below first.
pub(crate) const LINES: [LineStyle; 6] = [
    LineStyle::Wrong,
    LineStyle::Back,
    LineStyle::Reset,
    LineStyle::Dirty,
    LineStyle::Clean,
    LineStyle::Lap,
];

pub(crate) const TIPS: [Tip; 4] = [Tip::Open, Tip::Head, Tip::Circle, Tip::Cross];

impl LineStyle {
    fn of(arrow: &Arrow) -> LineStyle {
        match arrow.passage {
            Passage::Differs | Passage::NotSent => LineStyle::Wrong,
            Passage::Backward => LineStyle::Back,
            Passage::OnLap => LineStyle::Lap,
            Passage::Taken | Passage::Dropped | Passage::NotReceived => match arrow.load {
                Load::Reset(_) => LineStyle::Reset,
                Load::Msg(Msg { dirty: true, .. }) => LineStyle::Dirty,
                Load::Msg(_) => LineStyle::Clean,
            },
        }
    }

    /// Its class.
    pub(crate) fn class(self) -> &'static str {
        match self {
            LineStyle::Wrong => class::WRONG,
            LineStyle::Back => class::BACK,
            LineStyle::Reset => class::RESET,
            LineStyle::Dirty => class::DIRTY,
            LineStyle::Clean => class::MESSAGE,
            LineStyle::Lap => class::LAP,
        }
    }

    /// The name of its head.
    fn head(self) -> &'static str {
        match self {
            LineStyle::Wrong | LineStyle::Back => "B",
            LineStyle::Reset | LineStyle::Dirty | LineStyle::Clean => "A",
            LineStyle::Lap => "Z",
        }
    }
}

impl Tip {
    fn of(arrow: &Arrow, last: u32) -> Tip {
        match arrow.received {
            None => Tip::Circle,
            Some(received) if received > last => Tip::Open,
            Some(_) if arrow.passage == Passage::Dropped => Tip::Cross,
            Some(_) => Tip::Head,
        }
    }
}

impl Stroke {
    /// Of an arrow in a picture with this last column.
    pub(crate) fn of(arrow: &Arrow, last: u32) -> Stroke {
        Stroke {
            line: LineStyle::of(arrow),
            tip: Tip::of(arrow, last),
        }
    }

    /// The name of what it ends with, if that is anything.
    pub(crate) fn marker(self) -> Option<&'static str> {
        match self.tip {
            Tip::Open => None,
            Tip::Head => Some(self.line.head()),
            Tip::Circle => Some("F"),
            Tip::Cross => Some("X"),
        }
    }
}
