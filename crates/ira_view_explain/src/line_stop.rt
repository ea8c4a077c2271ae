use crate::field::Field;
use crate::line_form::fields_of;
use ira_event::{MAX_NUMBER, skip_word};
use ira_view_page::{Among, Beside, Remark};

/// What is due at a place of a line.
#[derive(Clone, Copy, PartialEq, Eq)]
pub(crate) enum DueInLine {
    /// The word that a line begins with.
    Word,
    /// A field.
    Field(Field),
    /// A space between fields.
    Space,
    /// A space and this field, where the line ends.
    SpaceAnd(Field),
    /// The line's end.
    End,
}

impl DueInLine {
    /// That it is due in a log of this version.
    pub(crate) fn beside(self, version: u8) -> Beside {
        match self {
            DueInLine::Word if version == 1 => Beside::due("`draw`, `send`, `recv` or `end`"),
            DueInLine::Word => Beside::due("`draw`, `send`, `recv`, `yield` or `end`"),
            DueInLine::Field(field) => Beside::due(field.due(version)),
            DueInLine::Space => Beside::due("one space"),
            DueInLine::SpaceAnd(field) => {
                Beside::new(Remark::Due, "one space and ", Among::Nothing, field.name())
            }
            DueInLine::End => Beside::due("the end of the line"),
        }
    }
}

/// What a line shows that no log has after its head. Bytes count from 0.
#[derive(Clone, Copy)]
pub(crate) enum LineStop {
    /// From this byte on it goes on as no line does that is allowed there.
    Due(usize, DueInLine),
    /// It is a record with a number out of its range, from a byte to the one after it.
    Range(Field, usize, usize),
}

impl LineStop {
    /// Of a line after the head of a log of this version.
    pub(crate) fn find(line: &[u8], version: u8) -> LineStop {
        let Some((fields, rest)) = fields_of(line, version) else {
            return LineStop::Due(0, DueInLine::Word);
        };
        let mut rest = rest;
        let mut is_first = true;
        let mut range = None;
        for field in fields {
            if !is_first {
                match skip_word(rest, b" ") {
                    Some(after) => rest = after,
                    None => return LineStop::before_space(line, rest, *field),
                }
            }
            is_first = false;
            let Some(after) = field.skip(rest) else {
                return LineStop::at(line, rest, DueInLine::Field(*field));
            };
            if range.is_none() {
                range = LineStop::out_of_range(line, *field, rest, after);
            }
            rest = after;
        }
        match range {
            Some(range) if rest.is_empty() => range,
            _ => LineStop::at(line, rest, DueInLine::End),
        }
    }

    /// A record's number that is out of its range, by what is left of the line from it on, and after it.
    fn out_of_range(line: &[u8], field: Field, rest: &[u8], after: &[u8]) -> Option<LineStop> {
        let number = field.number(rest)?;
        if (1..=MAX_NUMBER).contains(&number) {
            return None;
        }
        let from = line.len().saturating_sub(rest.len());
        Some(LineStop::Range(field, from, line.len().saturating_sub(after.len())))
    }

    /// In front of what is left of the line.
    fn at(line: &[u8], rest: &[u8], due: DueInLine) -> LineStop {
        LineStop::Due(line.len().saturating_sub(rest.len()), due)
    }

    /// Where the space in front of this field is missing.
    fn before_space(line: &[u8], rest: &[u8], field: Field) -> LineStop {
        if rest.is_empty() {
            LineStop::at(line, rest, DueInLine::SpaceAnd(field))
        } else {
            LineStop::at(line, rest, DueInLine::Space)
        }
    }
}
