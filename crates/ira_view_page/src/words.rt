ghost use Rattle.ira_event.specs.LogText.{bit_word, load_text};
ghost use Rattle.ira_node.specs.StepFault.{step_fault_words};
ghost use Rattle.ira_view_page.specs.Page.{Added};
ghost use Rattle.ira_view_page.specs.Words.{event_text, owed_text, phase_text, round_text, state_text, term_text};

use crate::page::Page;
use ira_event::{Event, Load};
use ira_node::{NodeState, Phase, StepFault};
use std::alloc::Allocator;

impl<A: Allocator> Page<A> {
    /// Adds a load as logs spell it.
    pub fn load(&mut self, load: Load)
        ensures { Added self.old (load_text load) self.new }
    {
        match load {
            Load::Msg(message) => {
                self.number(message.round as u64);
                self.words(" ");
                self.number(message.id as u64);
                self.words(" ");
                self.number(message.hop as u64);
                self.words(" ");
                self.bit(message.dirty);
            }
            Load::Reset(hop) => {
                self.words("reset ");
                self.number(hop as u64);
            }
        }
    }

    /// Adds the word for a message's bit.
    fn bit(&mut self, dirty: bool)
        ensures { Added self.old (bit_word dirty) self.new }
    {
        if dirty {
            self.words("dirty");
        } else {
            self.words("clean");
        }
    }

    /// Adds an event as logs spell its record.
    pub fn event(&mut self, event: Event)
        ensures { Added self.old (event_text event) self.new }
    {
        match event {
            Event::Draw(id) => {
                self.words("draw ");
                self.number(id as u64);
            }
            Event::Sent(load) => {
                self.words("send ");
                self.load(load);
            }
            Event::Got(load) => {
                self.words("recv ");
                self.load(load);
            }
            Event::Yield => self.words("yield"),
        }
    }

    /// Adds why an event has no step.
    pub fn fault(&mut self, fault: StepFault)
        ensures { Added self.old (step_fault_words fault) self.new }
    {
        self.words(fault.words());
    }

    /// Adds a round, with its term where that isn't the first one.
    pub fn round(&mut self, round: u32, term: u32)
        ensures { Added self.old (round_text round term) self.new }
    {
        self.words("round ");
        self.number(round as u64);
        self.term(term);
    }

    /// Adds a term where that isn't the first one.
    fn term(&mut self, term: u32)
        ensures { Added self.old (term_text term) self.new }
    {
        if term != 1 {
            self.words(" of term ");
            self.number(term as u64);
        }
    }

    /// Adds what a node is doing, and what it owes.
    pub fn state(&mut self, state: &NodeState)
        ensures { Added self.old (state_text state.now) self.new }
    {
        self.phase(state.phase, state.term);
        self.owed(state.owed);
    }

    /// Adds what a node is doing.
    fn phase(&mut self, phase: Phase, term: u32)
        ensures { Added self.old (phase_text phase term) self.new }
    {
        match phase {
            Phase::Choosing { round } => {
                self.words("choosing in ");
                self.round(round, term);
            }
            Phase::Active { round, id } => {
                self.words("active in ");
                self.round(round, term);
                self.words(" with ID ");
                self.number(id as u64);
            }
            Phase::Passive if term == 1 => self.words("passive"),
            Phase::Passive => {
                self.words("passive in term ");
                self.number(term as u64);
            }
            Phase::Leader { round, id } => {
                self.words("leader in ");
                self.round(round, term);
                self.words(" with ID ");
                self.number(id as u64);
            }
            Phase::Yielding if term == 1 => self.words("yielding"),
            Phase::Yielding => {
                self.words("yielding in term ");
                self.number(term as u64);
            }
        }
    }

    /// Adds what a node owes.
    fn owed(&mut self, owed: Option<Load>)
        ensures { Added self.old (owed_text owed) self.new }
    {
        if let Some(load) = owed {
            self.words(", owes ");
            self.load(load);
        }
    }
}
