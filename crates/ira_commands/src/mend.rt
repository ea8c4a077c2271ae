ghost use Rattle.std.specs.Prelude.{◌≡◌, List, IfOk, length, ℕ};
ghost use Rattle.ira_mend.specs.RecordedLogs.{HasRecorded};
ghost use Rattle.ira_commands.specs.Mend.{MendsTexts, TellsMended};

use crate::files::Files;
use crate::reply::Reply;
use ira_audit::{Answer, Reason, Refusal};
use ira_event::{Logs, MemorySink, OutOfMemory};
use ira_mend::{MendFault, RecordedLogs, mend};
use ira_view::{Status, write_mended};
use std::alloc::Allocator;

/// What is kept of logs.
fn tell_mended<A: Allocator + Clone>(
    alloc: A,
    logs: &Logs<A>,
    mended: Logs<A>,
    lost: &[bool],
) -> Result<Reply<A>, OutOfMemory>
    requires mended { length mended ≡ length logs.now }
    requires lost { length lost.now ≡ length logs.now }
    ensures { IfOk result (TellsMended logs.now mended lost.now) }
{
    let mut lines = MemorySink::new(alloc);
    let Ok(()) = write_mended(logs, &mended, lost, &mut lines) else {
        return Err(OutOfMemory);
    };
    Ok(Reply::printed(Status::Yes, lines).with_files(Files::Logs(mended)))
}

/// Of what is left of the logs of a ring the longest beginnings such that all are consistent. A node of which not even a
/// whole head is left is taken for an initiator or not.
pub fn mend_left<A: Allocator + Clone>(
    alloc: A,
    is_initiator: bool,
    recorded: RecordedLogs<A>,
) -> Result<Reply<A>, OutOfMemory>
    requires { (texts : List (List ℕ)) × HasRecorded recorded texts }
    ensures { (texts : List (List ℕ)) → HasRecorded recorded texts → IfOk result (MendsTexts is_initiator texts) }
{
    let lost = recorded.lost()?;
    let logs = match recorded.gather(is_initiator) {
        Ok(logs) => logs,
        Err(Refusal::No(reason)) => return Reply::of_answer(alloc, &Answer::No(reason)),
        Err(Refusal::OutOfMemory) => return Err(OutOfMemory),
    };
    match mend(alloc.clone()?, &logs) {
        Ok(mended) => tell_mended(alloc, &logs, mended, &lost),
        Err(MendFault::Match(fault)) => Reply::of_answer(alloc, &Answer::No(Reason::Match(fault))),
        Err(MendFault::OutOfMemory) => Err(OutOfMemory),
    }
}
