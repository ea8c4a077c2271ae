use crate::ask_request::AskRequest;
use crate::check_request::CheckRequest;
use crate::decide_request::DecideRequest;
use crate::draw_request::DrawRequest;
use crate::each_request::EachRequest;
use crate::explain_request::ExplainRequest;
use crate::guide_topic::GuideTopic;
use crate::logs_request::LogsRequest;
use crate::mend_request::MendRequest;
use crate::rewrite_request::RewriteRequest;
use crate::run_request::RunRequest;
use crate::show_request::ShowRequest;

/// What the words after the program's name ask for.
#[derive(Drop)]
pub enum Request<'a> {
    /// To judge the log on standard input.
    OneLog,
    /// To judge the logs of a ring together.
    Logs(LogsRequest<'a>),
    /// To judge the logs of a ring in each of some folders.
    Each(EachRequest<'a>),
    /// To judge logs as `OneLog` and `Logs` do, and to say why the answer is what it is.
    Explain(ExplainRequest<'a>),
    /// To show what happened by the logs of a ring, at their end or at another moment.
    Show(ShowRequest<'a>),
    /// To draw what happened by the logs of a ring.
    Draw(DrawRequest<'a>),
    /// To judge logs together with a question and a certificate that no moment met a case of it.
    Check(CheckRequest<'a>),
    /// To decide a question of logs: whether some moment met a case of it.
    Decide(DecideRequest<'a>),
    /// To write the question whether two nodes of a ring of so many ever lead at once. The number is any, and not
    /// only a ring's size.
    Pairs(u64),
    /// To write the question that a sentence stands for.
    Ask(AskRequest<'a>),
    /// To run a ring, and to write down what its nodes do.
    Run(RunRequest<'a>),
    /// To write the logs of a ring in version 2, each to a file.
    Upgrade(RewriteRequest<'a>),
    /// To write of each log of a ring the longest beginning such that all are consistent.
    Mend(MendRequest<'a>),
    /// To say what the commands are, or how questions or logs are written.
    Guide(GuideTopic),
    /// To say which version of the program this is.
    Version,
}
