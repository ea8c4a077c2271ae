use crate::asked_leaders::AskedLeaders;

/// What is expected of an election when the logs end, if anything.
#[derive(Drop)]
pub struct Expectation<'a> {
    /// Whether it is to be over.
    pub is_over: bool,
    /// Who is to lead, if that is asked.
    pub leaders: Option<AskedLeaders<'a>>,
}
