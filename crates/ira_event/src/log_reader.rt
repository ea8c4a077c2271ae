ghost use Rattle.std.specs.Prelude.{◌≡◌, ◌≤◌, ◌↔◌, length, MatchResult};
ghost use Rattle.ira_event.specs.Log.{Log};
ghost use Rattle.ira_event.specs.LogText.{IsLogText};
ghost use Rattle.ira_event.specs.LogTextFault.{BeginsWithHead, OpeningFault, RecordsRead, LogTextFault};
ghost use Rattle.ira_event.specs.Result.{UnlessErr};
ghost use Rattle.ira_event.specs.Limits.{MAX_TEXT};
ghost use Rattle.ira_event.specs.declared.log_fault.LogFault.{LogFault};

use crate::limits::MAX_TEXT;
use crate::log_fault::LogFault;
use crate::log_head::{LogHead, scan_head};
use crate::node_log::NodeLog;
use crate::packed_events::PackedEvents;
use crate::records::Records;
use std::alloc::Allocator;

/// The log that a text is the text of, or the first fault of a text that is no log's.
pub fn read_log<A: Allocator>(alloc: A, text: &[u8]) -> Result<NodeLog<A>, LogFault>
    ensures ok { (log : Log)
        → UnlessErr result LogFault.OutOfMemory ((result ≡ Ok log) ↔ IsLogText text.now log) }
    ensures err { (f : LogFault)
        → UnlessErr result LogFault.OutOfMemory ((result ≡ Err f) ↔ LogTextFault text.now f) }

    // These two are answered whatever memory does.
    ensures too_long { (result ≡ Err LogFault.TooLong) ↔ LogTextFault text.now LogFault.TooLong }
    ensures head { (result ≡ Err LogFault.Head) ↔ LogTextFault text.now LogFault.Head }
{
    let (head, records) = open_log(text)?;
    let events = read_events(alloc, records)?;
    Ok(NodeLog::of_records(head, events))
}

/// The head of a log's text and the records after it, none of them read, or the first fault of a
/// text that is too long or begins with no head. It takes no memory.
pub fn open_log(text: &[u8]) -> Result<(LogHead, Records<'_>), LogFault>
    ensures { MatchResult result
        (λ p. (length text.now ≤ MAX_TEXT)
        × BeginsWithHead text.now p.0 p.1.rest × (p.1.count ≡ 0) × (p.1.version ≡ p.0.version))
        (OpeningFault text.now) }
{
    if text.len() > MAX_TEXT {
        return Err(LogFault::TooLong);
    }
    let Some((head, rest)) = scan_head(text) else {
        return Err(LogFault::Head);
    };
    Ok((head, Records::new(head.version, rest, 0)))
}

/// The events of all records, none of which was read yet.
#[inline(never)]
fn read_events<A: Allocator>(alloc: A, records: Records<'_>) -> Result<PackedEvents<A>, LogFault>
    requires { records.count ≡ 0 }
    ensures { RecordsRead records.entry.version (λ events. events) result records.entry.rest }
{
    let mut records = records;
    let mut events = PackedEvents::with_room_for(alloc, &records)?;
    while let Some(event) = records.next_event()? {
        events.push(event)?;
    }
    Ok(events)
}
