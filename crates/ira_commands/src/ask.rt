ghost use Rattle.std.specs.Prelude.{IfOk, MatchResult};
ghost use Rattle.ira_commands.specs.Ask.{AsksSentence, IsAskedText, RefusesSentence};

use crate::command_fault::CommandFault;
use crate::files::Files;
use crate::reply::Reply;
use ira_ask::{SentenceFault, ask};
use ira_event::{MemorySink, OutOfMemory, write_bytes};
use ira_ring::ring_size;
use ira_view::Status;
use ira_view_explain_question::explain_sentence;
use std::alloc::Allocator;

/// The text of the question that a sentence stands for, of a ring of so many nodes; any text where none has so many. Or what
/// comes of asking for it is that it is refused.
pub fn asked_text<A: Allocator + Clone>(
    alloc: A,
    nodes: u64,
    sentence: &[u8],
) -> Result<Result<Vec<u8, A>, Reply<A>>, OutOfMemory>
    ensures { IfOk result (λ asked. MatchResult asked
        (λ text. IsAskedText nodes sentence.now text.items)
        (RefusesSentence nodes sentence.now)) }
{
    let Some(nodes) = ring_size(nodes) else {
        return Ok(Ok(Vec::new(alloc)));
    };
    match ask(alloc.clone()?, nodes, sentence) {
        Ok(text) => Ok(Ok(text)),
        Err(fault) => match fault {
            SentenceFault::OutOfMemory => Err(OutOfMemory),
            _ => {
                let page = explain_sentence(alloc.clone()?, sentence, fault)?;
                let reply = Reply::refused(alloc, CommandFault::NoSentence(fault));
                Ok(Err(reply.with_files(Files::Page(page))))
            }
        },
    }
}

/// The question that a sentence stands for, of a ring of so many nodes.
pub fn ask_sentence<A: Allocator + Clone>(
    alloc: A,
    nodes: u64,
    sentence: &[u8],
) -> Result<Reply<A>, OutOfMemory>
    ensures { IfOk result (AsksSentence nodes sentence.now) }
{
    if ring_size(nodes).is_none() {
        return Ok(Reply::refused(alloc, CommandFault::RingSize));
    }
    match asked_text(alloc.clone()?, nodes, sentence)? {
        Ok(question) => {
            let mut text = MemorySink::new(alloc);
            let Ok(()) = write_bytes(&question, &mut text) else {
                return Err(OutOfMemory);
            };
            Ok(Reply::printed(Status::Yes, text))
        }
        Err(refused) => Ok(refused),
    }
}
