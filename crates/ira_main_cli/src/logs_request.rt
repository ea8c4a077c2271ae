use crate::expectation::Expectation;
use crate::log_source::LogSource;

/// Logs to judge together, as the words name them.
#[derive(Drop)]
pub struct LogsRequest<'a> {
    /// Whether the answer is wanted as JSON.
    pub is_json: bool,
    pub expected: Expectation<'a>,
    pub logs: LogSource<'a>,
}
