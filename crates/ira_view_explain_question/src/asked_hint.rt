use ira_view_page::{Hint, Page, Slip};
use std::alloc::Allocator;
use std::str;

/// A usual cause why a text is no question's or no certificate's.
#[derive(Clone, Copy)]
pub(crate) enum AskedHint<'a> {
    Slip(Slip),
    /// A clause of several words has no brackets around it: the line up to it, and the clause.
    Brackets { place: &'a [u8], clause: &'a [u8] },
    /// More than two clauses are joined in one pair of brackets, or in none.
    Chain,
    /// The text goes on as this word begins.
    Word(&'static str),
    /// This word has a capital.
    Capital(&'static str),
    /// `>=` or `<=` stands there.
    TwoRelations,
    /// A space is missing beside `<`, `=` or `>`.
    Spaces,
    /// Two clauses of a case are for one node.
    OneClause,
    /// A place comes after a greater one.
    Order,
    /// The place isn't in the ring of so many nodes.
    Places { nodes: u32 },
}

impl Hint for AskedHint<'_> {
    fn print<A: Allocator>(&self, page: &mut Page<A>) {
        match *self {
            AskedHint::Slip(slip) => page.words(slip.hint()),
            AskedHint::Brackets { place, clause } => print_brackets(page, place, clause),
            AskedHint::Chain => page.words(
                "each `and` and each `or` joins two clauses, in brackets of its own: `((A or B) or C)`",
            ),
            AskedHint::Word(word) => {
                page.words("`");
                page.show(word.as_bytes());
                page.words("` has that beginning.");
            }
            AskedHint::Capital(word) => {
                page.words("`");
                page.show(word.as_bytes());
                page.words("` is written in small letters.");
            }
            AskedHint::TwoRelations => page.words(
                "there are `<`, `=` and `>`: for `round >= 2` write `(not round < 2)`, for `round <= 2` `(not round > 2)`.",
            ),
            AskedHint::Spaces => page.words(
                "one space stands on each side of `<`, `=` and `>`: `round > 2`.",
            ),
            AskedHint::OneClause => {
                page.words("two clauses for one node are one clause with `and`.");
            }
            AskedHint::Order => page.words("order the lines of a case by place."),
            AskedHint::Places { nodes } => {
                page.numbered("places count from 0, and N is ", nodes);
                page.words(".");
            }
        }
    }
}

/// Adds how a clause of several words after a place is spelled, with this one where it is a text.
fn print_brackets<A: Allocator>(page: &mut Page<A>, place: &[u8], clause: &[u8]) {
    if str::from_utf8(clause).is_err() {
        return page.words("`not`, `and` and `or` stand in brackets.");
    }
    if clause.starts_with(b"not ") {
        page.words("`not` stands");
    } else {
        page.words("`and` and `or` stand");
    }
    page.words(" in brackets: `");
    page.show(place);
    page.words("(");
    page.show(clause);
    page.words(")`");
}
