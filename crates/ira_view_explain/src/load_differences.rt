ghost use Rattle.ira_view_page.specs.Printable.{IsPrintable};

use ira_event::Load;
use ira_view_evidence::{FieldPair, LoadDifference, LoadField};

/// How the records of a message may differ, whichever of the two nodes is at fault.
pub(crate) static DIFFERENCES: [LoadDifference; 9] = [
    LoadDifference::OneField(LoadField::Bit),
    LoadDifference::OneField(LoadField::Id),
    LoadDifference::OneField(LoadField::Round),
    LoadDifference::RaisedHop,
    LoadDifference::LoweredHop,
    LoadDifference::OneField(LoadField::Hop),
    LoadDifference::Exchanged(FieldPair::RoundAndId),
    LoadDifference::Exchanged(FieldPair::IdAndHop),
    LoadDifference::Exchanged(FieldPair::RoundAndHop),
];

/// How many receipts aren't their sendings, row by row.
pub(crate) fn differing(sent: &[Load], received: &[Load]) -> usize {
    received
        .iter()
        .zip(sent.iter())
        .filter(|(receipt, sending)| **receipt != **sending)
        .count()
}

/// The field in which alone a receipt differs that differs so, where it is one.
pub(crate) fn field_of(how: LoadDifference) -> Option<LoadField> {
    match how {
        LoadDifference::OneField(field) => Some(field),
        LoadDifference::RaisedHop | LoadDifference::LoweredHop => Some(LoadField::Hop),
        LoadDifference::Exchanged(_) => None,
    }
}

/// The name of a field in a sentence.
pub(crate) fn noun_of(field: LoadField) -> &'static str
    ensures { IsPrintable result.now }
{
    match field {
        LoadField::Round => "round",
        LoadField::Id => "ID",
        LoadField::Hop => "hop",
        LoadField::Bit => "bit",
    }
}

/// The two fields that are exchanged, where it isn't one alone that differs.
pub(crate) fn exchanged(how: LoadDifference) -> &'static str
    ensures { IsPrintable result.now }
{
    match how {
        LoadDifference::Exchanged(FieldPair::IdAndHop) => "ID and hop",
        LoadDifference::Exchanged(FieldPair::RoundAndHop) => "round and hop",
        _ => "round and ID",
    }
}
