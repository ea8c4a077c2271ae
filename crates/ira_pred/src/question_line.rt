use crate::case::PlacedClause;
use std::alloc::Allocator;

/// A line in a case.
#[derive(Drop)]
pub(crate) enum QuestionLine<A: Allocator> {
    /// One more clause of the case.
    Clause(PlacedClause<A>),
    /// The first line of the next case.
    Case,
    /// The end line, which ends the text.
    End,
}
