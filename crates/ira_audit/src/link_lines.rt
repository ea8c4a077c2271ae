ghost use Rattle.std.specs.Prelude.{◌≡◌};
ghost use Rattle.ira_event.specs.Records.{RecordsLeft, ReadsRecord};

use ira_event::{Event, Load, OutOfMemory, Records, RingSize, SentLine};
use std::alloc::Allocator;

/// In a ring of so few nodes nearly each message is a draw's own, so lines aren't worth noting.
const FEW_NODES: u8 = 4;

/// The messages that a node sent, in their order, with their lines, while the log of the next node is read; what that one
/// sends is written over those that it has received. No contract says which they are: one that is wrong or missing costs
/// time alone.
#[derive(Drop)]
pub(crate) struct LinkLines<A: Allocator> {
    pub(crate) lines: Vec<SentLine, A>,
    /// The first so many of them the node before sent,
    pub(crate) known: usize,
    /// so many of these were received,
    pub(crate) received: usize,
    /// and the first so many of the lines are what was sent since.
    pub(crate) sent: usize,
}

impl<A: Allocator> LinkLines<A> {
    pub(crate) fn new(alloc: A) -> LinkLines<A> {
        LinkLines {
            lines: Vec::new(alloc),
            known: 0,
            received: 0,
            sent: 0,
        }
    }

    /// Goes on to the next node's log.
    pub(crate) fn go_on(&mut self) {
        self.known = self.sent;
        self.received = 0;
        self.sent = 0;
    }

    /// Notes the event that was read last, from what was left before it.
    #[inline(always)]
    pub(crate) fn note(
        &mut self,
        nodes: RingSize,
        before: &[u8],
        records: &Records<'_>,
        event: &Event,
    ) -> Result<(), OutOfMemory>
        requires { (old : RecordsLeft) × (old.rest ≡ before.now) × ReadsRecord old records.now event.now }
    {
        match event {
            Event::Got(Load::Msg(message)) => {
                if self.received < self.known
                    && let Some(line) = self.lines.get(self.received)
                    && line.message() == *message
                {
                    self.received += 1;
                }
                Ok(())
            }
            Event::Sent(Load::Msg(_)) if nodes.get() <= FEW_NODES => Ok(()),
            Event::Sent(Load::Msg(message)) => match records.last_sent(before, *message) {
                Some(line) => self.send(line),
                None => Ok(()),
            },
            Event::Draw(_) | Event::Got(_) | Event::Sent(_) | Event::Yield => Ok(()),
        }
    }

    /// Adds what was sent, where it is written over no message that is yet to come.
    fn send(&mut self, line: SentLine) -> Result<(), OutOfMemory> {
        if self.received < self.known && self.sent >= self.received {
            return Ok(());
        }
        if let Some(room) = self.lines.get_mut(self.sent) {
            *room = line;
        } else {
            self.sent = self.lines.len();
            self.lines.push(line)?;
        }
        self.sent += 1;
        Ok(())
    }
}
