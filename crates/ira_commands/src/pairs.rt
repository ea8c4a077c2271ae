ghost use Rattle.std.specs.Prelude.{IfOk};
ghost use Rattle.ira_commands.specs.Pairs.{AsksPairs};

use crate::command_fault::CommandFault;
use crate::reply::Reply;
use ira_event::{MemorySink, OutOfMemory};
use ira_pred::{pairs_question, write_question};
use ira_ring::ring_size;
use ira_view::Status;
use std::alloc::Allocator;

/// The question whether two nodes of a ring of so many ever lead at once.
pub fn ask_pairs<A: Allocator + Clone>(alloc: A, nodes: u64) -> Result<Reply<A>, OutOfMemory>
    ensures { IfOk result (AsksPairs nodes) }
{
    let Some(nodes) = ring_size(nodes) else {
        return Ok(Reply::refused(alloc, CommandFault::RingSize));
    };
    let question = pairs_question(alloc.clone()?, nodes)?;
    let mut text = MemorySink::new(alloc);
    let Ok(()) = write_question(&question, &mut text) else {
        return Err(OutOfMemory);
    };
    Ok(Reply::printed(Status::Yes, text))
}
