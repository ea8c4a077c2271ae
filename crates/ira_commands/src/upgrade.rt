ghost use Rattle.std.specs.Prelude.{List, IfOk, ℕ};
ghost use Rattle.ira_audit.specs.RingAudit.{HasTaken};
ghost use Rattle.ira_commands.specs.Upgrade.{TellsUpgraded, UpgradesTexts};

use crate::files::Files;
use crate::reply::Reply;
use ira_audit::{Answer, Refusal, RingAudit};
use ira_event::{Logs, MemorySink, OutOfMemory};
use ira_view::{Status, upgraded_logs};
use std::alloc::Allocator;

/// The logs in version 2. All are upgraded before a file is made, since memory may run out.
fn tell_upgraded<A: Allocator + Clone>(alloc: A, logs: Logs<A>) -> Result<Reply<A>, OutOfMemory>
    ensures { IfOk result (TellsUpgraded logs) }
{
    let logs = logs.upgrade()?;
    let mut line = MemorySink::new(alloc);
    let Ok(()) = upgraded_logs(logs.size()).write(&mut line) else {
        return Err(OutOfMemory);
    };
    Ok(Reply::printed(Status::Yes, line).with_files(Files::Logs(logs)))
}

/// The logs that an audit has taken in version 2, where they are those of one ring.
pub fn upgrade_taken<A: Allocator + Clone>(
    alloc: A,
    audit: RingAudit<A>,
) -> Result<Reply<A>, OutOfMemory>
    requires { (texts : List (List ℕ)) × HasTaken audit texts }
    ensures { (texts : List (List ℕ)) → HasTaken audit texts → IfOk result (UpgradesTexts texts) }
{
    match audit.gather() {
        Ok(logs) => tell_upgraded(alloc, logs),
        Err(Refusal::No(reason)) => Reply::of_answer(alloc, &Answer::No(reason)),
        Err(Refusal::OutOfMemory) => Err(OutOfMemory),
    }
}
