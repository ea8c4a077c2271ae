use crate::case_selection::CaseSelection;

/// A moment of the logged run, as the words name it.
#[derive(Drop)]
pub enum AskedMoment<'a> {
    /// The end of the logs.
    AtEnd,
    /// The one when each node has made so many of its events, in the order of the ring's places. The numbers are any,
    /// and not only those of a consistent cut.
    AtCut(Vec<u64>),
    /// The first that meets one of these cases of a question.
    OfQuestion(CaseSelection<'a>),
}
