ghost use Rattle.std.specs.Prelude.{◌≡◌};
ghost use Rattle.ira_audit.specs.RefusedLogs.{AreRefused};

use crate::reason::Reason;
use ira_event::Logs;
use ira_order::FaultyEvent;
use std::alloc::Allocator;
use std::marker::Model;

/// The logs of a ring that are those of no run of it: they don't match, have no order, or have an event without a step.
#[derive(Drop)]
pub struct RefusedLogs<A: Allocator> {
    pub(crate) logs: Logs<A>,
    pub(crate) reason: Reason,
    pub(crate) faulty_events: Vec<FaultyEvent, A>,
}

impl<A: Allocator> Model for RefusedLogs<A> {
    ghost use Rattle.ira_audit.specs.RefusedLogs.{AreRefused, RefusedLogs};

    ghost Value = { RefusedLogs };

    ghost view = { λ r. record { logs = r.logs; reason = r.reason; faulty_events = r.faulty_events.items } };

    ghost invariant = { λ r.
        AreRefused (record { logs = r.logs; reason = r.reason; faulty_events = r.faulty_events.items }) };
}

impl<A: Allocator> RefusedLogs<A> {
    /// The logs.
    pub fn logs(&self) -> &Logs<A>
        ensures value { result.now ≡ self.now.logs }
        ensures refused { AreRefused self.now }
    {
        &self.logs
    }

    /// The first reason against them.
    pub fn reason(&self) -> Reason
        ensures value { result ≡ self.now.reason }
        ensures refused { AreRefused self.now }
    {
        self.reason
    }

    /// Each node's first event without a step, where it has one, in the order of places, whatever the reason is.
    pub fn faulty_events(&self) -> &[FaultyEvent]
        ensures value { result.now ≡ self.now.faulty_events }
        ensures refused { AreRefused self.now }
    {
        &self.faulty_events
    }
}
