use crate::log_source::LogSource;

/// Logs to write anew, each to a file of a folder, as the words name them.
#[derive(Drop)]
pub struct RewriteRequest<'a> {
    /// The folder that the logs are written to.
    pub folder: &'a str,
    pub logs: LogSource<'a>,
}
