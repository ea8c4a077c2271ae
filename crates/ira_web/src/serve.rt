ghost use Rattle.std.specs.Prelude.{◌≡◌, ◌∷◌, [], IfOk, IfSome};
ghost use Rattle.ira_web.specs.Serves.{ServesRequest};

use crate::commands::{answer_all, answer_command, judge_log, mend, upgrade};
use crate::request::Request;
use ira_commands::{Reply, ask_pairs, ask_sentence, explain_one, run_asked};
use ira_event::OutOfMemory;
use ira_view_page::NamedText;
use std::alloc::Allocator;

/// This reply alone.
fn only<A: Allocator>(alloc: A, reply: Reply<A>) -> Result<Option<Vec<Reply<A>, A>>, OutOfMemory>
    ensures { IfOk result (λ served. IfSome served (λ replies. replies.items ≡ reply ∷ [])) }
{
    let mut replies = Vec::with_capacity(alloc, 1)?;
    replies.push(reply)?;
    Ok(Some(replies))
}

/// What comes of a request with these files; nothing where they aren't as many as it needs.
pub(crate) fn serve<A: Allocator + Clone>(
    alloc: A,
    request: &Request<'_>,
    files: &[NamedText<'_>],
) -> Result<Option<Vec<Reply<A>, A>>, OutOfMemory>
    ensures { IfOk result (λ served. IfSome served (λ replies. ServesRequest A request.now files.now replies.items)) }
{
    match request {
        Request::OneLog => {
            let [log] = files else {
                return Ok(None);
            };
            only(alloc.clone()?, judge_log(alloc, log)?)
        }
        Request::ExplainLog { form } => {
            let [log] = files else {
                return Ok(None);
            };
            only(alloc.clone()?, explain_one(alloc, *form, log)?)
        }
        Request::OfLogs(command) => {
            let Some(reply) = answer_command(alloc.clone()?, *command, files)? else {
                return Ok(None);
            };
            only(alloc, reply)
        }
        Request::AllOf(overview) => answer_all(alloc, *overview, files),
        Request::Pairs(nodes) => {
            let [] = files else {
                return Ok(None);
            };
            only(alloc.clone()?, ask_pairs(alloc, *nodes)?)
        }
        Request::Ask(nodes) => {
            let [sentence] = files else {
                return Ok(None);
            };
            only(alloc.clone()?, ask_sentence(alloc, *nodes, sentence.text)?)
        }
        Request::Upgrade => only(alloc.clone()?, upgrade(alloc, files)?),
        Request::Mend(is_initiator) => only(alloc.clone()?, mend(alloc, *is_initiator, files)?),
        Request::Run(asked) => {
            let [] = files else {
                return Ok(None);
            };
            only(alloc.clone()?, run_asked(alloc, asked)?)
        }
    }
}
