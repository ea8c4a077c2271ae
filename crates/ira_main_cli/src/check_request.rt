use crate::log_source::LogSource;

/// Logs to judge together with a question and a certificate, as the words name them.
#[derive(Drop)]
pub struct CheckRequest<'a> {
    /// The file of the question.
    pub question: &'a str,
    /// The file of the certificate.
    pub certificate: &'a str,
    /// How often the steps of a section are to be halved among threads, 0 to 4.
    pub depth: u8,
    /// Whether the answer is wanted as JSON.
    pub is_json: bool,
    pub logs: LogSource<'a>,
}
