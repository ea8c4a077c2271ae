ghost use Rattle.ira_view_page.specs.Printable.{IsPrintable};

use ira_event::{scan_number, skip_word};

/// A field of a line of a log, after the words that it begins with.
#[derive(Clone, Copy, PartialEq, Eq)]
pub(crate) enum Field {
    Round,
    Id,
    Hop,
    Bit,
    Count,
}

impl Field {
    /// Its name in the form of a line.
    pub(crate) fn name(self) -> &'static str
        ensures { IsPrintable result.now }
    {
        match self {
            Field::Round => "ROUND",
            Field::Id => "ID",
            Field::Hop => "HOP",
            Field::Bit => "BIT",
            Field::Count => "COUNT",
        }
    }

    /// What is said to be due where it is missing in a log of this version.
    pub(crate) fn due(self, version: u8) -> &'static str
        ensures { IsPrintable result.now }
    {
        match self {
            Field::Round if version > 1 => "the round or `reset`",
            Field::Round => "the round",
            Field::Id => "the ID",
            Field::Hop => "the hop",
            Field::Bit => "`clean` or `dirty`",
            Field::Count => "the number of records",
        }
    }

    /// The number that a text begins with, where the field is a number of a record.
    pub(crate) fn number(self, text: &[u8]) -> Option<u32> {
        match self {
            Field::Bit | Field::Count => None,
            Field::Round | Field::Id | Field::Hop => scan_number(text).map(|(number, _)| number),
        }
    }

    /// What follows the field where the text begins with one.
    pub(crate) fn skip(self, text: &[u8]) -> Option<&[u8]> {
        match self {
            Field::Bit => skip_word(text, b"clean").or(skip_word(text, b"dirty")),
            Field::Round | Field::Id | Field::Hop | Field::Count => {
                scan_number(text).map(|(_, rest)| rest)
            }
        }
    }
}
