use crate::stage::Stage;

/// States of a log that follow one another in one phase of one term.
#[derive(Clone, Copy)]
pub(crate) struct PhaseSpan {
    pub stage: Stage,
    /// Where the profile has the stage in the first round of the first term.
    pub kind: usize,
    /// How many states it has.
    pub count: u32,
}
