use crate::log_source::LogSource;

/// Logs to mend, as the words name them.
#[derive(Drop)]
pub struct MendRequest<'a> {
    /// The folder that the mended logs are written to.
    pub folder: &'a str,
    /// Whether a node of whose log not even a whole head is left is taken for an initiator.
    pub is_initiator: bool,
    /// The places of the logs that may be lost; any in a folder, and else none, where they aren't named.
    pub lost: Option<Vec<u64>>,
    pub logs: LogSource<'a>,
}
