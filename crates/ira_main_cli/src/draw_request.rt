use crate::asked_moment::AskedMoment;
use crate::log_source::LogSource;

/// Logs to draw, as the words name them.
#[derive(Drop)]
pub struct DrawRequest<'a> {
    /// The file that the picture is written to.
    pub picture: &'a str,
    pub moment: AskedMoment<'a>,
    /// The column that the picture begins with, and not only one that it has; its first if this is left out.
    pub from: Option<u64>,
    /// The column that the picture ends with, and not only one that it has; its last if this is left out.
    pub to: Option<u64>,
    pub logs: LogSource<'a>,
}
