/// What a guide is on, as the words name it.
#[derive(Clone, Copy)]
pub enum GuideTopic {
    /// The commands.
    Commands,
    /// How a question is written.
    Questions,
    /// How a log is written.
    Logs,
}
