ghost use Rattle.std.specs.Prelude.{◌≡◌, ◌↔◌, IsTrue};
ghost use Rattle.ira_view_evidence.specs.LoadDifference.{DifferAlike, DiffersBy, IsExchanged, IsOtherIn, IsRaised, exchanged};

use ira_event::{Load, Msg};

/// A field of a message, or the hop of a reset.
#[derive(Clone, Copy, Debug, PartialEq, Eq)]
pub enum LoadField {
    Round,
    Id,
    Hop,
    Bit,
}

/// Two fields of a message.
#[derive(Clone, Copy, Debug, PartialEq, Eq)]
pub enum FieldPair {
    RoundAndId,
    RoundAndHop,
    IdAndHop,
}

/// How a receipt differs from its sending.
#[derive(Clone, Copy, Debug, PartialEq, Eq)]
pub enum LoadDifference {
    /// Its hop is the sending's raised by one.
    RaisedHop,
    /// Its hop raised by one is the sending's.
    LoweredHop,
    /// In this field alone.
    OneField(LoadField),
    /// These are exchanged.
    Exchanged(FieldPair),
}

/// Whether the other load is this one with the hop raised by one.
fn is_raised(load: Load, other: Load) -> bool
    ensures { IsTrue result ↔ IsRaised load other }
{
    match (load, other) {
        (Load::Msg(message), Load::Msg(other)) => {
            message.hop.checked_add(1) == Some(other.hop)
                && other
                    == (Msg {
                        hop: other.hop,
                        ..message
                    })
        }
        (Load::Reset(hop), Load::Reset(other)) => hop.checked_add(1) == Some(other),
        _ => false,
    }
}

impl LoadField {
    /// Whether the other load differs from this one, in the field alone.
    fn is_other(self, load: Load, other: Load) -> bool
        ensures { IsTrue result ↔ IsOtherIn self load other }
    {
        match (load, other) {
            (Load::Msg(message), Load::Msg(other)) => {
                let Msg {
                    round,
                    id,
                    hop,
                    dirty,
                } = other;
                let changed = match self {
                    LoadField::Round => Msg { round, ..message },
                    LoadField::Id => Msg { id, ..message },
                    LoadField::Hop => Msg { hop, ..message },
                    LoadField::Bit => Msg { dirty, ..message },
                };
                other == changed && other != message
            }
            (Load::Reset(hop), Load::Reset(other)) if self == LoadField::Hop => hop != other,
            _ => false,
        }
    }
}

impl FieldPair {
    /// The message with these two exchanged.
    fn exchanged(self, message: Msg) -> Msg
        ensures { result ≡ exchanged self message }
    {
        let Msg { round, id, hop, .. } = message;
        match self {
            FieldPair::RoundAndId => Msg {
                round: id,
                id: round,
                ..message
            },
            FieldPair::RoundAndHop => Msg {
                round: hop,
                hop: round,
                ..message
            },
            FieldPair::IdAndHop => Msg {
                id: hop,
                hop: id,
                ..message
            },
        }
    }

    /// Whether the other load differs from this one, and is it with these two exchanged.
    fn are_exchanged(self, load: Load, other: Load) -> bool
        ensures { IsTrue result ↔ IsExchanged self load other }
    {
        match (load, other) {
            (Load::Msg(message), Load::Msg(other)) => {
                other == self.exchanged(message) && other != message
            }
            _ => false,
        }
    }
}

impl LoadDifference {
    /// Whether a receipt differs so from a sending.
    fn is_between(self, sending: Load, receipt: Load) -> bool
        ensures { IsTrue result ↔ DiffersBy self sending receipt }
    {
        match self {
            LoadDifference::RaisedHop => is_raised(sending, receipt),
            LoadDifference::LoweredHop => is_raised(receipt, sending),
            LoadDifference::OneField(field) => field.is_other(sending, receipt),
            LoadDifference::Exchanged(pair) => pair.are_exchanged(sending, receipt),
        }
    }

    /// Whether each receipt has a sending, and is of its load or differs from it so.
    pub fn is_between_all(self, sent: &[Load], received: &[Load]) -> bool
        ensures { IsTrue result ↔ DifferAlike self sent.now received.now }
    {
        if received.len() > sent.len() {
            return false;
        }
        for i in 0..received.len() {
            if received[i] != sent[i] && !self.is_between(sent[i], received[i]) {
                return false;
            }
        }
        true
    }
}
