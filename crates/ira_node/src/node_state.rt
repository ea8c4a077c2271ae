ghost use Rattle.std.specs.Prelude.{◌≡◌, ◌↔◌, ◌≤◌, ℕ, None, MatchResult, OnErr, IfOk, map};
ghost use Rattle.ira_event.specs.Limits.{MAX_NUMBER};
ghost use Rattle.ira_event.specs.RingSize.{IsRingSize};
ghost use Rattle.ira_node.specs.NodeState.{first_state, free, IsLeader};
ghost use Rattle.ira_node.specs.NodeStep.{NodeStep};
ghost use Rattle.ira_node.specs.NodeStepFault.{NodeStepFault};
ghost use Rattle.ira_node.specs.StepAnswer.{advance_answer, step_answer, leading_answer, sent_answer, free_answer, drawn_answer, message_answer, message_fault, restart_answer, compared, own_pair_answer, passed};
ghost use Rattle.ira_node.specs.Wanted.{wanted_of, IsOfKind, CanCome};

use crate::phase::Phase;
use crate::step_fault::StepFault;
use crate::wanted::Wanted;
use ira_event::{Event, Load, Logs, MAX_NUMBER, Msg, OutOfMemory, RingSize};
use std::alloc::Allocator;
use std::cmp::Ordering;

/// The state of one node: what it is doing, what it has to send next, if it owes something, and the
/// term, counted from 1.
#[derive(Clone, Copy, Debug, PartialEq, Eq)]
pub struct NodeState {
    pub phase: Phase,
    pub owed: Option<Load>,
    pub term: u32,
}

impl NodeState {
    /// The state before the first event: an initiator chooses in round 1, any other node is passive.
    #[inline(always)]
    pub fn first(initiator: bool) -> NodeState
        ensures { result ≡ first_state initiator }
    {
        NodeState::free(if initiator {
            Phase::Choosing { round: 1 }
        } else {
            Phase::Passive
        })
    }

    /// The first state of each node of a ring.
    pub fn first_of_each<A: Allocator, L: Allocator>(
        alloc: A,
        logs: &Logs<L>,
    ) -> Result<Vec<NodeState, A>, OutOfMemory>
        ensures { IfOk result (λ states. states.items ≡ map (λ log. first_state log.initiator) logs.now) }
    {
        let size = logs.size().get();
        let mut states = Vec::with_capacity(alloc, usize::from(size))?;
        for place in 0..size {
            states.push(NodeState::first(logs.log(place).initiator()))?;
        }
        Ok(states)
    }

    /// The kind of event that can have a step.
    #[inline(always)]
    #[tactic(auto, using(crate::proofs::Wants::step_wanted))]
    pub fn wanted(&self) -> Wanted
        ensures value { result ≡ wanted_of self.now.term self.now.phase self.now.owed }
        ensures only { (n : ℕ) (e : Event) (t : NodeState) → NodeStep n self.now e t → IsOfKind result e }
        ensures can { (n : ℕ) → IsRingSize n → CanCome n self.now result }
        ensures nothing { (result ≡ Wanted.Nothing) ↔ (IsLeader self.now.phase × (MAX_NUMBER ≤ self.now.term)) }
    {
        if let Phase::Leader { .. } = self.phase {
            return if self.term < MAX_NUMBER {
                Wanted::Yield
            } else {
                Wanted::Nothing
            };
        }
        if let Some(load) = self.owed {
            return Wanted::Send(load);
        }
        match self.phase {
            Phase::Choosing { .. } => Wanted::Draw,
            _ => Wanted::Receipt,
        }
    }

    /// The state after the event in a ring of so many nodes, or why the event has no step.
    #[inline(always)]
    pub fn step(&self, nodes: RingSize, event: &Event) -> Result<NodeState, StepFault>
        ensures value { result ≡ step_answer nodes self.now.term self.now.phase self.now.owed event.now }
        ensures ok { (t : NodeState) → (result ≡ Ok t) ↔ NodeStep nodes self.now event.now t }
        ensures err { (f : StepFault) → (result ≡ Err f) ↔ NodeStepFault nodes self.now event.now f }
    {
        let mut after = *self;
        after.advance(nodes, event)?;
        Ok(after)
    }

    /// Goes on to the state after the event in a ring of so many nodes, or stays and says why the event has no step.
    #[inline(always)]
    pub fn advance(&mut self, nodes: RingSize, event: &Event) -> Result<(), StepFault>
        ensures value { advance_answer result self.new ≡ step_answer nodes self.old.term self.old.phase self.old.owed event.now }
        ensures steps { MatchResult result (λ _. NodeStep nodes self.old event.now self.new)
            (λ f. NodeStepFault nodes self.old event.now f) }
        ensures err { OnErr result (self.new ≡ self.old) }
    {
        if let Phase::Leader { .. } = self.phase {
            return self.step_leading(event);
        }
        match self.owed {
            Some(load) => self.step_owing(load, event),
            None => self.step_owing_nothing(nodes, event),
        }
    }

    #[inline(always)]
    fn free(phase: Phase) -> NodeState
        ensures { result ≡ free 1 phase }
    {
        NodeState {
            phase,
            owed: None,
            term: 1,
        }
    }

    /// The step of a leader.
    #[cold]
    #[inline(never)]
    fn step_leading(&mut self, event: &Event) -> Result<(), StepFault>
        ensures value { advance_answer result self.new ≡ leading_answer self.old.term event.now }
        ensures err { OnErr result (self.new ≡ self.old) }
    {
        match event {
            Event::Yield if self.term >= MAX_NUMBER => Err(StepFault::TermLimit),
            Event::Yield => {
                self.phase = Phase::Yielding;
                self.owed = Some(Load::Reset(1));
                Ok(())
            }
            Event::Draw(_) | Event::Sent(_) | Event::Got(_) => Err(StepFault::Ended),
        }
    }

    /// The step of a node that owes the load and doesn't lead.
    #[inline(always)]
    fn step_owing(&mut self, load: Load, event: &Event) -> Result<(), StepFault>
        ensures value { advance_answer result self.new ≡ sent_answer self.old.term self.old.phase load event.now }
        ensures err { OnErr result (self.new ≡ self.old) }
    {
        match event {
            Event::Sent(sent) if *sent == load => {
                self.owed = None;
                Ok(())
            }
            Event::Sent(_) => Err(StepFault::NotOwed),
            Event::Draw(_) | Event::Got(_) | Event::Yield => Err(StepFault::Owes),
        }
    }

    /// The step of a node that owes nothing and doesn't lead.
    #[inline(always)]
    fn step_owing_nothing(&mut self, nodes: RingSize, event: &Event) -> Result<(), StepFault>
        requires { self.old.owed ≡ None }
        ensures value { advance_answer result self.new ≡ free_answer nodes self.old.term self.old.phase event.now }
        ensures err { OnErr result (self.new ≡ self.old) }
    {
        match event {
            Event::Sent(_) => Err(StepFault::NotOwed),
            Event::Draw(id) => self.draw(nodes, *id),
            Event::Got(Load::Msg(message)) => self.receive(nodes, message),
            Event::Got(Load::Reset(hop)) => self.restart(nodes, *hop),
            Event::Yield => Err(StepFault::NotLeader),
        }
    }

    #[inline(always)]
    fn draw(&mut self, nodes: RingSize, id: u32) -> Result<(), StepFault>
        ensures value { advance_answer result self.new ≡ drawn_answer nodes self.old.term self.old.phase id }
        ensures err { OnErr result (self.new ≡ self.old) }
    {
        match self.phase {
            Phase::Choosing { round } => {
                if id < 1 || id > u32::from(nodes.get()) {
                    return Err(StepFault::DrawRange);
                }
                self.phase = Phase::Active { round, id };
                self.owed = Some(Load::Msg(Msg {
                    round,
                    id,
                    hop: 1,
                    dirty: false,
                }));
                Ok(())
            }
            Phase::Active { .. } | Phase::Passive | Phase::Yielding => {
                Err(StepFault::NotChoosing)
            }
            Phase::Leader { .. } => Err(StepFault::Ended),
        }
    }

    #[inline(always)]
    fn receive(&mut self, nodes: RingSize, message: &Msg) -> Result<(), StepFault>
        requires { self.old.owed ≡ None }
        ensures value { advance_answer result self.new ≡ message_answer nodes self.old.term self.old.phase message.now }
        ensures err { OnErr result (self.new ≡ self.old) }
    {
        // Two tests: a `match` of so many phases would jump by a table.
        if let Phase::Active { round, id } = self.phase {
            return self.compare(nodes, round, id, message);
        }
        if let Phase::Passive = self.phase {
            return self.pass(message);
        }
        Err(self.message_fault())
    }

    /// Why a node takes no message that is neither active nor passive.
    #[cold]
    #[inline(never)]
    fn message_fault(&self) -> StepFault
        ensures { result ≡ message_fault self.now.phase }
    {
        match self.phase {
            Phase::Choosing { .. } => StepFault::MustDraw,
            Phase::Leader { .. } => StepFault::Ended,
            Phase::Active { .. } | Phase::Passive | Phase::Yielding => StepFault::NotReset,
        }
    }

    /// What a node does with a reset: one on its way begins the next term of a passive node, which
    /// passes it on, and one that comes home that of the node that yielded.
    #[cold]
    #[inline(never)]
    fn restart(&mut self, nodes: RingSize, hop: u32) -> Result<(), StepFault>
        requires { self.old.owed ≡ None }
        ensures value { advance_answer result self.new ≡ restart_answer nodes self.old.term self.old.phase hop }
        ensures err { OnErr result (self.new ≡ self.old) }
    {
        let whole_ring = u32::from(nodes.get());
        let passed_on = match self.phase {
            Phase::Choosing { .. } => return Err(StepFault::MustDraw),
            Phase::Leader { .. } => return Err(StepFault::Ended),
            Phase::Passive if hop < whole_ring => Some(Load::Reset(hop + 1)),
            Phase::Yielding if hop == whole_ring => None,
            Phase::Active { .. } | Phase::Passive | Phase::Yielding => {
                return Err(StepFault::WrongReset);
            }
        };
        if self.term >= MAX_NUMBER {
            return Err(StepFault::TermLimit);
        }
        self.term += 1;
        self.phase = Phase::Choosing { round: 1 };
        self.owed = passed_on;
        Ok(())
    }

    /// What an active node does with a message: pairs are compared by round, then by ID.
    #[inline(always)]
    fn compare(
        &mut self,
        nodes: RingSize,
        round: u32,
        id: u32,
        message: &Msg,
    ) -> Result<(), StepFault>
        requires { self.old ≡ free self.old.term (Phase.Active round id) }
        ensures value { advance_answer result self.new ≡ compared nodes self.old.term round id message.now }
        ensures err { OnErr result (self.new ≡ self.old) }
    {
        let (met, own) = ((message.round, message.id), (round, id));
        if met == own {
            return self.receive_own_pair(nodes, round, id, message);
        }
        if met > own {
            return self.pass(message);
        }
        Ok(())
    }

    /// What a node does with a message that it passes on as a passive one.
    #[inline(always)]
    fn pass(&mut self, message: &Msg) -> Result<(), StepFault>
        ensures value { advance_answer result self.new ≡ passed self.old.term message.now }
        ensures err { OnErr result (self.new ≡ self.old) }
    {
        if message.hop >= MAX_NUMBER {
            return Err(StepFault::HopLimit);
        }
        self.phase = Phase::Passive;
        self.owed = Some(Load::Msg(Msg {
            hop: message.hop + 1,
            ..*message
        }));
        Ok(())
    }

    /// What an active node does with a message that has its own pair.
    #[inline(always)]
    fn receive_own_pair(
        &mut self,
        nodes: RingSize,
        round: u32,
        id: u32,
        message: &Msg,
    ) -> Result<(), StepFault>
        requires { self.old ≡ free self.old.term (Phase.Active round id) }
        ensures value { advance_answer result self.new ≡ own_pair_answer nodes self.old.term round id message.now }
        ensures err { OnErr result (self.new ≡ self.old) }
    {
        let whole_ring = u32::from(nodes.get());
        if message.hop > whole_ring {
            return Err(StepFault::HopPast);
        }
        if message.hop < whole_ring {
            self.owed = Some(Load::Msg(Msg {
                hop: message.hop + 1,
                dirty: true,
                ..*message
            }));
            return Ok(());
        }
        if !message.dirty {
            self.phase = Phase::Leader { round, id };
            return Ok(());
        }
        if round >= MAX_NUMBER {
            return Err(StepFault::RoundLimit);
        }
        self.phase = Phase::Choosing { round: round + 1 };
        Ok(())
    }
}
