ghost use Rattle.std.specs.Prelude.{◌≡◌, ◌<◌, ◌++◌, ◌↔◌, ℕ, IfOk, IsTrue, List, MatchOption};
ghost use Rattle.ira_audit.specs.Refusal.{MatchRefusal};
ghost use Rattle.ira_event.specs.Log.{IsLog, Log};
ghost use Rattle.ira_event.specs.LogText.{log_text};
ghost use Rattle.ira_event.specs.LogTextFault.{LogTextFault};
ghost use Rattle.ira_event.specs.declared.log_fault.LogFault.TheVariants.{Head};
ghost use Rattle.ira_mend.specs.RecordedLogs.{AreReadLines, IsLeftText, IsLost, IsNotLeft, IsRecordOf, IsRecordedReading, ReadsWholeLine, empty_log, is_lost, is_short};

use ira_audit::{Reason, Refusal};
use ira_event::{
    Event, LogFault, LogHead, MemorySink, NodeLog, OutOfMemory, PackedEvents, Records, open_log,
    write_log,
};
use std::alloc::Allocator;

/// No head has more bytes.
const MOST_OF_HEAD: usize = 100;

/// What is taken of a log's text.
#[derive(Drop)]
pub(crate) enum RecordedLog<A: Allocator> {
    /// The log, as far as its records go and no further than a log may have them.
    Log(NodeLog<A>),
    /// The bytes of a short text that begins with no head.
    Short(Vec<u8, A>),
    /// What is wrong with another text.
    Faulty(LogFault),
}

/// The event of the next record, `None` where the end line follows and ends the text or the text breaks off, or another
/// fault of what follows.
fn next_whole_line(records: &mut Records<'_>) -> Result<Option<Event>, LogFault>
    ensures { ReadsWholeLine records.old records.new result }
{
    match records.next_event() {
        Ok(read) => Ok(read),
        Err(LogFault::Cut) => Ok(None),
        Err(LogFault::TooMany) => Ok(None),
        Err(fault) => Err(fault),
    }
}

/// The events of all complete record lines, none of which was read yet, where an end line follows or the text breaks off.
fn read_lines<A: Allocator>(alloc: A, records: Records<'_>) -> Result<PackedEvents<A>, LogFault>
    requires { records.count ≡ 0 }
    ensures { AreReadLines records.entry.version (λ events. events) result records.entry.rest }
{
    let mut records = records;
    let mut events = PackedEvents::with_room_for(alloc, &records)?;
    while let Some(event) = next_whole_line(&mut records)? {
        events.push(event)?;
    }
    Ok(events)
}

/// The log of a text, or of the whole records of one that breaks off; or the text's fault.
fn read_recorded<A: Allocator>(alloc: A, text: &[u8]) -> Result<NodeLog<A>, LogFault>
    ensures { IsRecordedReading text.now result }
{
    let (head, records) = open_log(text)?;
    let events = read_lines(alloc, records)?;
    Ok(NodeLog::of_records(head, events))
}

/// What is taken of a text that begins with no head.
fn without_head<A: Allocator>(alloc: A, text: &[u8]) -> Result<RecordedLog<A>, OutOfMemory>
    requires { LogTextFault text.now Head }
    ensures { IfOk result (IsRecordOf text.now) }
{
    if text.len() > MOST_OF_HEAD {
        return Ok(RecordedLog::Faulty(LogFault::Head));
    }
    Ok(RecordedLog::Short(text.to_vec(alloc)?))
}

/// The log without events of the node at this place of the ring that a head names.
fn empty_log<A: Allocator>(alloc: A, ring: LogHead, place: u8, initiator: bool) -> NodeLog<A>
    requires { IsLog (empty_log ring place initiator) }
    ensures { result ≡ empty_log ring place initiator }
{
    let events = Vec::new(alloc);
    NodeLog::of_parts(ring.version, ring.nodes, place, initiator, events)
}

/// Whether the log's text begins so.
fn begins<A: Allocator>(alloc: A, text: &[u8], log: &NodeLog<A>) -> Result<bool, OutOfMemory>
    ensures { IfOk result (λ so. IsTrue so ↔ ((rest : List ℕ) × (text.now ++ rest ≡ log_text log.now))) }
{
    let mut whole = MemorySink::new(alloc);
    let Ok(()) = write_log(log, &mut whole) else {
        return Err(OutOfMemory);
    };
    Ok(whole.bytes().starts_with(text))
}

/// The log of the node at this place of which no event and not a whole head is left, if the text is what is left of it.
fn lost_log<A: Allocator + Clone>(
    alloc: A,
    text: &[u8],
    ring: LogHead,
    number: usize,
    guess: bool,
) -> Result<Option<NodeLog<A>>, OutOfMemory>
    requires { IsLog (empty_log ring ring.place guess) }
    ensures { IfOk result (λ found. LogTextFault text.now Head
        → MatchOption found ((log : Log) → ¬ (IsLost ring guess number text.now log))
        (IsLost ring guess number text.now)) }
{
    if number >= usize::from(ring.nodes.get()) {
        return Ok(None);
    }
    let place = number as u8;
    let guessed = empty_log(alloc.clone()?, ring, place, guess);
    if begins(alloc.clone()?, text, &guessed)? {
        return Ok(Some(guessed));
    }
    let other = empty_log(alloc.clone()?, ring, place, !guess);
    if begins(alloc, text, &other)? {
        return Ok(Some(other));
    }
    Ok(None)
}

impl<A: Allocator> RecordedLog<A> {
    /// What is taken of this text.
    pub(crate) fn of_text(alloc: A, text: &[u8]) -> Result<RecordedLog<A>, OutOfMemory>
    where
        A: Clone,
        ensures { IfOk result (IsRecordOf text.now) }
    {
        match read_recorded(alloc.clone()?, text) {
            Ok(log) => Ok(RecordedLog::Log(log)),
            Err(LogFault::Head) => without_head(alloc, text),
            Err(LogFault::OutOfMemory) => Err(OutOfMemory),
            Err(fault) => Ok(RecordedLog::Faulty(fault)),
        }
    }

    /// Whether the text begins with no head.
    pub(crate) fn is_lost(&self) -> bool
        ensures { result ≡ is_lost self.now }
    {
        matches!(
            self,
            RecordedLog::Short(_) | RecordedLog::Faulty(LogFault::Head)
        )
    }

    /// Whether the text is short.
    pub(crate) fn is_short(&self) -> bool
        ensures { result ≡ is_short self.now }
    {
        matches!(self, RecordedLog::Short(_))
    }

    /// The log of the node at this place of the ring that a head names, if the text is what is left of it. The start of a
    /// lost one is guessed.
    pub(crate) fn into_log(
        self,
        alloc: A,
        ring: LogHead,
        number: usize,
        guess: bool,
    ) -> Result<NodeLog<A>, Refusal>
    where
        A: Clone,
        requires { IsLog (empty_log ring ring.place guess) }
        ensures { (text : List ℕ) → IsRecordOf text self
            → MatchRefusal result (IsLeftText ring guess number text) (IsNotLeft ring guess number text) }
    {
        match self {
            RecordedLog::Log(log) => Ok(log),
            RecordedLog::Short(text) => match lost_log(alloc, &text, ring, number, guess)? {
                Some(log) => Ok(log),
                None => Err(Refusal::No(Reason::Log {
                    number,
                    fault: LogFault::Head,
                })),
            },
            RecordedLog::Faulty(fault) => Err(Refusal::No(Reason::Log { number, fault })),
        }
    }
}
