use crate::question_source::QuestionSource;

/// Cases of a question: one of them, or all.
#[derive(Clone, Copy)]
pub struct CaseSelection<'a> {
    pub question: QuestionSource<'a>,
    /// The case that is selected, counted from 0, and not only one that the question has; all if this is left out.
    pub case: Option<u64>,
}
