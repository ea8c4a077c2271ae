ghost use Rattle.std.specs.Prelude.{◌≡◌, ◌++◌, ◌∷◌, ◌<◌, [], IfNone, IfOk, IfSome, List, OnErr, length};
ghost use Rattle.ira_view_trail.specs.declared.trail_step.TrailStep.{TrailStep};
ghost use Rattle.ira_view_trail.specs.StateTrail.{HasWalked, IsSameTrail, TellsStates};
ghost use Rattle.ira_view_trail.specs.Trail.{IsTrail};

use crate::columns::Columns;
use crate::columns_fault::ColumnsFault;
use crate::links::Links;
use crate::order::order_by_columns;
use crate::state_step::StateStep;
use crate::trail_step::TrailStep;
use ira_event::{Event, Logs, OutOfMemory, RingSize};
use ira_node::NodeState;
use ira_order::predecessor;
use std::alloc::Allocator;
use std::marker::Model;

/// A walk along all events by their columns, and the state of each node on the way.
#[derive(Drop)]
pub struct StateTrail<'l, A: Allocator> {
    logs: &'l Logs<A>,
    cut: Vec<u32, A>,
    columns: Columns<A>,
    /// The place of each event, one after the other.
    order: Vec<u8, A>,
    /// How many of them were given.
    given: usize,
    /// How many events each node has made.
    done: Vec<u32, A>,
    states: Vec<NodeState, A>,
    /// The steps of those sendings that nobody has received yet.
    links: Links<A>,
}

impl<'l, A: Allocator> Model for StateTrail<'l, A> {
    ghost use Rattle.ira_view_trail.specs.StateTrail.{StateTrail};

    ghost Value = { StateTrail };

    ghost view = { λ a. record {
      logs = a.logs.now;
      cut = a.cut.items;
      columns = a.columns;
      order = a.order.items;
      given = a.given;
      done = a.done.items;
      states = a.states.items;
    } };
}

/// The step that sent what an event receives, which is this step. That it is the right one is tested.
fn sender<A: Allocator + Clone>(
    links: &mut Links<A>,
    nodes: RingSize,
    place: u8,
    event: Event,
    step: u32,
) -> Result<Option<u32>, OutOfMemory>
    requires { place < nodes }
{
    match event {
        Event::Sent(_) => {
            links.send(place, step)?;
            Ok(None)
        }
        Event::Got(_) => Ok(links.receive(predecessor(nodes.get(), place))),
        Event::Draw(_) | Event::Yield => Ok(None),
    }
}

impl<'l, A: Allocator + Clone> StateTrail<'l, A> {
    /// The trail through the cut, before its first step.
    pub fn new(alloc: A, logs: &'l Logs<A>, cut: &[u32]) -> Result<StateTrail<'l, A>, ColumnsFault>
        requires { length cut.now ≡ length logs.now }
        ensures logs { IfOk result (λ walk. walk.logs ≡ logs.now) }
        ensures cut { IfOk result (λ walk. walk.cut ≡ cut.now) }
        ensures none_given { IfOk result (λ walk. HasWalked walk []) }
    {
        let nodes = logs.size().get();
        let columns = Columns::of(alloc.clone()?, logs, Some(cut))?;
        let order = order_by_columns(alloc.clone()?, logs, &columns)?;
        let states = NodeState::first_of_each(alloc.clone()?, logs)?;
        let cut = Vec::from_slice(alloc.clone()?, cut)?;
        let done = vec![in alloc.clone()?; 0; usize::from(nodes)]?;
        let links = Links::new(alloc, nodes)?;
        Ok(StateTrail {
            logs,
            cut,
            columns,
            order,
            given: 0,
            done,
            states,
            links,
        })
    }

    /// The next step, with its event and its node's states; none where all events have come.
    pub fn next(&mut self) -> Result<Option<StateStep>, OutOfMemory>
        requires { (given : List TrailStep) × HasWalked self.old given }
        ensures logs { IsSameTrail self.old self.new }
        ensures step { (given : List TrailStep) → HasWalked self.old given → IfOk result (λ next. IfSome next
            (λ walked. HasWalked self.new (given ++ walked.step ∷ []) × TellsStates self.old.logs walked)) }
        ensures none { (given : List TrailStep) → HasWalked self.old given → IfOk result (λ next. IfNone next
            (IsTrail self.old.logs self.old.cut given × HasWalked self.new given)) }
        ensures err { (given : List TrailStep) → HasWalked self.old given → OnErr result (HasWalked self.new given) }
    {
        if self.given >= self.order.len() {
            return Ok(None);
        }
        let place = self.order[self.given];
        let node = usize::from(place);
        let number = self.done[node] + 1;
        let log = self.logs.log(place);
        let nodes = log.nodes();
        let event = log.event(number);
        let before = self.states[node];
        let sent_by = sender(&mut self.links, nodes, place, event, self.given as u32 + 1)?;
        let mut after = before;
        match after.advance(nodes, &event) {
            Ok(()) | Err(_) => {}
        }
        self.states[node] = after;
        self.done[node] = number;
        self.given += 1;
        Ok(Some(StateStep {
            step: TrailStep {
                place,
                event: number,
                column: self.columns.column(place, number),
                sent_by,
                in_cut: number <= self.cut[node],
            },
            event,
            before,
            after,
        }))
    }
}
