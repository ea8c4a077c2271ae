ghost use Rattle.std.specs.Prelude.{◌≡◌, ◌<◌, ◌≤◌, ℕ, [], All, IfOk, OnOk, length};
ghost use Rattle.ira_event.specs.Limits.{MAX_NUMBER};
ghost use Rattle.ira_event.specs.Log.{IsLog};
ghost use Rattle.ira_node.specs.declared.wanted.Wanted.TheVariants.{Draw as WantsDraw, Send, Receipt, Yield as WantsYield};
ghost use Rattle.ira_node.specs.NodeState.{first_state};
ghost use Rattle.ira_node.specs.Wanted.{wanted_of};
ghost use Rattle.ira_ring_setup.specs.Terms.{version_of};
ghost use Rattle.ira_ring_alone.specs.LoneNode.{HasNoNext, Ends, MakesOwn, MakesSending, GoesToSending, after_put};

use ira_event::{Event, Load, NodeLog, RingSize};
use ira_node::{NodeState, Wanted};
use ira_ring_setup::{NodeEnd, is_last_leader, log_version};
use std::alloc::{AllocError, Allocator};
use std::collections::VecDeque;
use std::marker::Model;

/// Room for so many events is made at once; few nodes make more.
const USUAL_EVENTS: usize = 32;

/// A node of a lone run: its state, the IDs that it has left to draw, the loads on the link that leads
/// to it, and its events.
#[derive(Drop)]
pub(crate) struct LoneNode<'a, A: Allocator> {
    state: NodeState,
    ids: &'a [u32],
    input: VecDeque<Load, A>,
    events: Vec<Event, A>,
}

impl<'a, A: Allocator> Model for LoneNode<'a, A> {
    ghost use Rattle.ira_ring_alone.specs.LoneNode.{LoneNode};

    ghost Value = { LoneNode };

    ghost view = { λ a. record {
      state = a.state;
      ids = a.ids.now;
      input = a.input.items;
      events = a.events.items;
    } };
}

impl<'a, A: Allocator> LoneNode<'a, A> {
    /// The node before its first event.
    pub(crate) fn first(
        alloc: A,
        initiator: bool,
        ids: &'a [u32],
    ) -> Result<LoneNode<'a, A>, AllocError>
    where
        A: Clone,
        ensures { IfOk result
            (λ node. node
            ≡ record { state = first_state initiator; ids = ids.now; input = []; events = [] }) }
    {
        Ok(LoneNode {
            state: NodeState::first(initiator),
            ids,
            input: VecDeque::new(alloc.clone()?),
            events: Vec::with_capacity(alloc, USUAL_EVENTS)?,
        })
    }

    /// Makes the node's events up to its next sending, and answers the load that it sent; `None`
    /// where the node has no next event before that, as things stand. A log may have `cap` records, and a
    /// leader yields in a term before the last of `terms`.
    #[inline(always)]
    pub(crate) fn go_on(
        &mut self,
        nodes: RingSize,
        cap: usize,
        terms: u32,
    ) -> Result<Option<Load>, AllocError>
        requires ids { All (λ d. (1 ≤ d) × (d ≤ nodes)) self.old.ids }
        requires terms { terms ≤ MAX_NUMBER }
        ensures { IfOk result (GoesToSending nodes cap terms self.old self.new) }
    {
        // The state at hand, so that it isn't read back.
        let mut state = self.state;
        while self.events.len() < cap {
            let next = match state.wanted() {
                Wanted::Nothing => return Ok(None),
                Wanted::Yield => self.step_down(state, nodes, terms)?,
                Wanted::Send(load) => {
                    self.send(state, nodes, load)?;
                    return Ok(Some(load));
                }
                Wanted::Draw => self.draw(state, nodes)?,
                Wanted::Receipt => self.receive(state, nodes)?,
            };
            let Some(after) = next else {
                return Ok(None);
            };
            state = after;
        }
        Ok(None)
    }

    /// Sends the load that the node owes in its state.
    #[inline(always)]
    fn send(&mut self, state: NodeState, nodes: RingSize, load: Load) -> Result<(), AllocError>
        requires state { state ≡ self.old.state }
        requires wanted { Send load ≡ wanted_of state.term state.phase state.owed }
        ensures { OnOk result
            ((most terms : ℕ) → length self.old.events < most → MakesSending nodes most terms self.old self.new load) }
    {
        let Ok(after) = state.step(nodes, &Event::Sent(load)) else {
            unreachable!();
        };
        self.events.push(Event::Sent(load))?;
        self.state = after;
        Ok(())
    }

    /// Yields, in a term before the last of `terms`, and answers the state after it.
    #[cold]
    #[inline(never)]
    fn step_down(
        &mut self,
        state: NodeState,
        nodes: RingSize,
        terms: u32,
    ) -> Result<Option<NodeState>, AllocError>
        requires state { state ≡ self.old.state }
        requires wanted { WantsYield ≡ wanted_of state.term state.phase state.owed }
        ensures { IfOk result
            (λ next. (most : ℕ) → length self.old.events < most
            → MakesOwn nodes most terms self.old self.new next) }
    {
        if state.term >= terms {
            return Ok(None);
        }
        let Ok(after) = state.step(nodes, &Event::Yield) else {
            unreachable!();
        };
        self.events.push(Event::Yield)?;
        self.state = after;
        Ok(Some(after))
    }

    /// Draws the next ID, where one is left, and answers the state after it.
    #[inline(always)]
    fn draw(&mut self, state: NodeState, nodes: RingSize) -> Result<Option<NodeState>, AllocError>
        requires state { state ≡ self.old.state }
        requires wanted { WantsDraw ≡ wanted_of state.term state.phase state.owed }
        requires ids { All (λ d. (1 ≤ d) × (d ≤ nodes)) self.old.ids }
        ensures { IfOk result
            (λ next. (most terms : ℕ) → length self.old.events < most
            → MakesOwn nodes most terms self.old self.new next) }
    {
        let Some((&id, others)) = self.ids.split_first() else {
            return Ok(None);
        };
        let Ok(after) = state.step(nodes, &Event::Draw(id)) else {
            unreachable!();
        };
        self.events.push(Event::Draw(id))?;
        self.ids = others;
        self.state = after;
        Ok(Some(after))
    }

    /// Receives the next load, where there is one that has a step, and answers the state after it.
    #[inline(always)]
    fn receive(
        &mut self,
        state: NodeState,
        nodes: RingSize,
    ) -> Result<Option<NodeState>, AllocError>
        requires state { state ≡ self.old.state }
        requires wanted { Receipt ≡ wanted_of state.term state.phase state.owed }
        ensures { IfOk result
            (λ next. (most terms : ℕ) → length self.old.events < most
            → MakesOwn nodes most terms self.old self.new next) }
    {
        let Some(&load) = self.input.front() else {
            return Ok(None);
        };
        let Ok(after) = state.step(nodes, &Event::Got(load)) else {
            return Ok(None);
        };
        self.events.push(Event::Got(load))?;
        let _ = self.input.pop_front();
        self.state = after;
        Ok(Some(after))
    }

    /// How the node has ended, as it has where it has no next event.
    pub(crate) fn end(&self, cap: usize, terms: u32) -> NodeEnd
        requires { (n : ℕ) × HasNoNext n cap terms self.now }
        ensures { (n : ℕ) → HasNoNext n cap terms self.now → Ends n cap terms self.now result }
    {
        if is_last_leader(&self.state, terms) {
            return NodeEnd::Leader;
        }
        if self.events.len() >= cap {
            return NodeEnd::LogFull;
        }
        match self.state.wanted() {
            Wanted::Send(_) | Wanted::Yield | Wanted::Nothing => unreachable!(),
            Wanted::Draw => NodeEnd::DrawsSpent,
            Wanted::Receipt => match self.input.front() {
                Some(&load) => NodeEnd::NoStep(load),
                None => NodeEnd::Quiet,
            },
        }
    }

    /// Puts a load last on the link that leads to the node.
    #[inline]
    pub(crate) fn put(&mut self, load: Load) -> Result<(), AllocError>
        ensures { OnOk result (self.new ≡ after_put self.old load) }
    {
        self.input.push_back(load)?;
        Ok(())
    }

    /// The node's log, of a run of so many terms.
    pub(crate) fn into_log(
        self,
        terms: u32,
        nodes: RingSize,
        place: u8,
        initiator: bool,
    ) -> NodeLog<A>
        requires { IsLog
            (record {
              version = version_of nodes terms;
              nodes = nodes;
              place = place;
              initiator = initiator;
              events = self.events;
            }) }
        ensures { result
            ≡ record {
              version = version_of nodes terms;
              nodes = nodes;
              place = place;
              initiator = initiator;
              events = self.entry.events;
            } }
    {
        NodeLog::of_parts(
            log_version(nodes, terms),
            nodes,
            place,
            initiator,
            self.events,
        )
    }
}
