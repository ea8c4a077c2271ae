use crate::asked_leaders::AskedLeaders;
use crate::asked_moment::AskedMoment;
use crate::log_source::LogSource;

/// Logs to show, as the words name them.
#[derive(Drop)]
pub struct ShowRequest<'a> {
    /// Who is to lead when the logs end. Nothing is asked of who leads if this is left out.
    pub leads: Option<AskedLeaders<'a>>,
    pub moment: AskedMoment<'a>,
    /// Whether an order of all events through that moment is wanted, and not tables.
    pub has_events: bool,
    /// Whether the answer is wanted as JSON.
    pub is_json: bool,
    pub logs: LogSource<'a>,
}
