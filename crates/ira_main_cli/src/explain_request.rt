use crate::explained_answer::ExplainedAnswer;

/// An answer to give with the evidence for it, as the words name it.
#[derive(Drop)]
pub struct ExplainRequest<'a> {
    pub answer: ExplainedAnswer<'a>,
    /// Whether it is wanted as JSON.
    pub is_json: bool,
}
