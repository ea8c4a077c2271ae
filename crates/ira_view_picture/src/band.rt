ghost use Rattle.std.specs.Prelude.{◌≡◌};
ghost use Rattle.ira_view_picture.specs.Band.{kind_of};

use crate::after::After;
use ira_node::Phase;

/// What a node is doing for some columns.
#[derive(Clone, Copy, Debug, PartialEq, Eq)]
pub enum BandKind {
    /// Nothing that is known: an event had no step.
    Unknown,
    Passive,
    Active,
    Choosing,
    Yielding,
    Leader,
}

/// From one column to another, or to the right edge.
#[derive(Clone, Copy, Debug, PartialEq, Eq)]
pub struct Span {
    pub from: u32,
    pub to: Option<u32>,
}

/// What a node is from a column on.
#[derive(Clone, Copy, Debug, PartialEq, Eq)]
pub struct Band {
    pub kind: BandKind,
    pub span: Span,
}

impl BandKind {
    /// Of what is known after an event.
    pub(crate) fn of(after: After) -> BandKind
        ensures { result ≡ kind_of after }
    {
        match after {
            After::NoStep | After::Unknown => BandKind::Unknown,
            After::State(state) => match state.phase {
                Phase::Choosing { .. } => BandKind::Choosing,
                Phase::Active { .. } => BandKind::Active,
                Phase::Passive => BandKind::Passive,
                Phase::Leader { .. } => BandKind::Leader,
                Phase::Yielding => BandKind::Yielding,
            },
        }
    }
}
