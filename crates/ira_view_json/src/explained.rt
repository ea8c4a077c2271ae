ghost use Rattle.ira_audit.specs.Report.{IsReportable, IsReportableReason};
ghost use Rattle.ira_view_json.specs.ExplainedValue.{hint_value, with_evidence, with_explanation, with_fault, with_match_fault, with_numbered, with_reason, with_reason_of, with_receipt, with_ring, with_said, with_section_fault, with_sections, with_state_before, with_step_fault};
ghost use Rattle.ira_view_json.specs.Object.{Puts};

use crate::object::Object;
use crate::to_value::{ToValue, list_value};
use crate::value::Value;
use crate::values::state_value;
use ira_audit::{Answer, Reason};
use ira_cert::SectionFault;
use ira_event::{FaultWords, OutOfMemory};
use ira_node::{NodeState, StepFault};
use ira_order::MatchFault;
use ira_view_page::{Evidence, Explanation, RingCounts};
use std::alloc::Allocator;

impl<A: Allocator + Clone> Object<A> {
    /// Puts of which kind the reason is, and what is wrong.
    fn fault(&mut self, reason: &'static str, fault: &'static str)
        ensures { Puts (with_fault reason.now fault.now) self.old self.new }
    {
        self.words("reason", reason);
        self.words("fault", fault);
    }

    /// The same, with a number.
    fn numbered(
        &mut self,
        reason: &'static str,
        fault: &'static str,
        key: &'static str,
        number: u64,
    )
        ensures { Puts (with_numbered reason.now fault.now key.now number) self.old self.new }
    {
        self.fault(reason, fault);
        self.number(key, number);
    }

    /// Puts of which kind the reason is, and what is said of a fault; its number by this key.
    fn said(&mut self, reason: &'static str, key: &'static str, said: FaultWords)
        ensures { Puts (with_said reason.now key.now said) self.old self.new }
    {
        match said.number {
            None => self.fault(reason, said.words),
            Some(number) => self.numbered(reason, said.words, key, number as u64),
        }
    }

    fn receipt(&mut self, link: u64, k: u64, fault: &'static str)
        ensures { Puts (with_receipt link k fault.now) self.old self.new }
    {
        self.number("link", link);
        self.numbered("link", fault, "receipt", k);
    }

    fn match_fault(&mut self, fault: MatchFault)
        ensures { Puts (with_match_fault fault) self.old self.new }
    {
        match fault {
            MatchFault::NoSending { link, k } => self.receipt(link as u64, k as u64, fault.words()),
            MatchFault::Differs { link, k } => self.receipt(link as u64, k as u64, fault.words()),
        }
    }

    fn step_fault(&mut self, place: u64, position: u64, fault: StepFault)
        ensures { Puts (with_step_fault place position fault) self.old self.new }
    {
        self.number("node", place);
        self.numbered("node", fault.words(), "event", position);
    }

    fn section_fault(&mut self, fault: SectionFault)
        ensures { Puts (with_section_fault fault) self.old self.new }
    {
        match fault {
            SectionFault::Step(k, why) => {
                self.numbered("case", why.words(), "step", k as u64);
            }
            SectionFault::NotSpent(node) => {
                self.numbered("case", "not spent", "node", node as u64);
            }
        }
    }

    fn sections(&mut self, wanted: u64, found: u64)
        ensures { Puts (with_sections wanted found) self.old self.new }
    {
        self.number("wanted", wanted);
        self.number("found", found);
        self.words("reason", "sections");
    }

    fn reason(&mut self, reason: &Reason)
        requires { IsReportableReason reason.now }
        ensures { Puts (with_reason reason.now) self.old self.new }
    {
        match *reason {
            Reason::Log { number, fault } => {
                self.number("log", number as u64);
                self.said("log", "line", fault.words());
            }
            Reason::Heads(fault) => self.said("heads", "log", fault.words()),
            Reason::Match(fault) => self.match_fault(fault),
            Reason::Circle => self.fault("circle", "circle"),
            Reason::Replay {
                place,
                position,
                fault,
            } => self.step_fault(place as u64, position as u64, fault),
            Reason::Question(fault) => self.said("question", "line", fault.words()),
            Reason::QuestionSize => self.fault("question", "other ring size"),
            Reason::Certificate(fault) => self.said("certificate", "line", fault.words()),
            Reason::CertificateSize => self.fault("certificate", "other ring size"),
            Reason::Sections { wanted, found } => self.sections(wanted as u64, found as u64),
            Reason::Section { case, fault } => {
                self.number("case", case as u64);
                self.section_fault(fault);
            }
        }
    }

    /// Puts the reason of an answer, which a yes has not.
    pub(crate) fn reason_of(&mut self, answer: &Answer)
        requires { IsReportable answer.now }
        ensures { Puts (with_reason_of answer.now) self.old self.new }
    {
        match answer {
            Answer::Yes => self.null("reason"),
            Answer::No(reason) => self.reason(reason),
        }
    }

    fn ring(&mut self, ring: Option<RingCounts>)
        ensures { Puts (with_ring ring) self.old self.new }
    {
        if let Some(ring) = ring {
            self.number("nodes", ring.nodes as u64);
            self.number("events", ring.events as u64);
        }
    }

    fn state_before(&mut self, state: Option<NodeState>)
        ensures { Puts (with_state_before state) self.old self.new }
    {
        if let Some(state) = state {
            self.value("state_before", state_value(self.alloc(), state));
        }
    }

    fn evidence<B: Allocator>(&mut self, evidence: &[Evidence<B>])
        ensures { Puts (with_evidence evidence.now) self.old self.new }
    {
        if evidence.is_empty() {
            return;
        }
        self.value("evidence", list_value(self.alloc(), evidence));
    }

    /// Puts what an answer rests on.
    pub(crate) fn explanation<B: Allocator>(&mut self, explanation: &Explanation<B>)
        ensures { Puts (with_explanation explanation.now) self.old self.new }
    {
        self.ring(explanation.ring);
        self.state_before(explanation.state_before);
        self.evidence(&explanation.evidence);
        self.value("hints", list_value(self.alloc(), &explanation.hints));
    }
}

impl<B: Allocator> ToValue for String<B> {
    ghost json = { hint_value };

    fn to_value<A: Allocator + Clone>(&self, alloc: &A) -> Result<Value<A>, OutOfMemory> {
        Value::copied(alloc, self.as_str())
    }
}
