ghost use Rattle.std.specs.Prelude.{◌≡◌, ◌≤◌, ℕ, List, []};
ghost use Rattle.ira_event.specs.Limits.{MAX_RECORDS};

use crate::answer::Answer;
use crate::reason::Reason;
use ira_event::{LogFault, LogHead, Records};
use ira_node::NodeState;
use ira_replay::ReplayFault;

/// What the events of a log that were read so far came to. None of them is kept.
#[derive(Clone, Copy)]
pub(crate) struct PartialReplay {
    head: LogHead,
    /// How many events were read.
    count: usize,
    /// The state after them, where they all have steps.
    state: NodeState,
    /// The first of them without a step.
    first_fault: Option<ReplayFault>,
}

impl PartialReplay {
    ghost use Rattle.ira_event.specs.declared.event.Event.{Event};
    ghost use Rattle.ira_event.specs.Records.{IsEndOrFault};
    ghost use Rattle.ira_audit.specs.Replaying.{IsLogAnswer};
    ghost use Rattle.ira_audit.specs.LogAudit.{IsBegun, IsSuffix, ReplaysTo, log_of_records};

    /// Before the first event of a log with this head.
    pub(crate) fn first(head: LogHead) -> PartialReplay
        ensures head { result.head ≡ head }
        ensures none { result.count ≡ 0 }
        ensures came { ReplaysTo result [] }
    {
        PartialReplay {
            head,
            count: 0,
            state: NodeState::first(head.initiator),
            first_fault: None,
        }
    }

    /// The same, with the records that a text goes on with after those that were read.
    pub(crate) fn with(self, text: &[u8]) -> (PartialReplay, Records<'_>)
        requires { self.count ≤ MAX_RECORDS }
        ensures same { result.0 ≡ self }
        ensures records { result.1 ≡ record { version = self.head.version; rest = text.now; count = self.count } }
    {
        let records = Records::new(self.head.version, text, self.count);
        (self, records)
    }

    /// Reads on, up to the end or to a fault, and gives what all events came to, what is left of the records, and the
    /// fault.
    #[inline(never)]
    pub(crate) fn read_on(
        self,
        records: Records<'_>,
    ) -> (PartialReplay, Records<'_>, Result<(), LogFault>)
        requires count { records.count ≡ self.count }
        requires version { records.version ≡ self.head.version }
        ensures count { result.1.count ≡ result.0.count }
        ensures version { result.1.version ≡ result.0.head.version }
        ensures few { result.0.count ≤ MAX_RECORDS }
        ensures begun { (text : List ℕ) → IsBegun text self records.entry → IsBegun text result.0 result.1 }
        ensures suffix { IsSuffix result.1.rest records.entry.rest }
        ensures end { IsEndOrFault result.1 result.2 }
    {
        let PartialReplay {
            head,
            count: _,
            mut state,
            mut first_fault,
        } = self;
        let mut records = records;
        let nodes = head.nodes;
        let end = loop {
            match records.next_event() {
                Ok(Some(event)) => {
                    if first_fault.is_none() {
                        match state.advance(nodes, &event) {
                            Ok(()) => {}
                            Err(fault) => {
                                let position = records.count() as u32;
                                first_fault = Some(ReplayFault { position, fault });
                            }
                        }
                    }
                }
                Ok(None) => break Ok(()),
                Err(fault) => break Err(fault),
            }
        };
        let replay = PartialReplay {
            head,
            count: records.count(),
            state,
            first_fault,
        };
        (replay, records, end)
    }

    /// The answer of the log of the events that were read.
    pub(crate) fn answer(&self) -> Answer
        ensures { (events : List Event) → ReplaysTo self.now events → IsLogAnswer (log_of_records self.now.head events) result }
    {
        match self.first_fault {
            None => Answer::Yes,
            Some(ReplayFault { position, fault }) => Answer::No(Reason::Replay {
                place: self.head.place,
                position,
                fault,
            }),
        }
    }
}
