use crate::log_source::LogSource;
use crate::question_source::QuestionSource;

/// A question to decide of logs, as the words name them.
#[derive(Drop)]
pub struct DecideRequest<'a> {
    pub question: QuestionSource<'a>,
    /// The file that the certificate is written to, where one is wanted.
    pub certificate: Option<&'a str>,
    /// Whether the answer is wanted as JSON.
    pub is_json: bool,
    pub logs: LogSource<'a>,
}
