ghost use Rattle.std.specs.Prelude.{◌≡◌, ℕ, ◌<◌, ◌↔◌, IfOk, IsTrue, List, length};
ghost use Rattle.ira_event.specs.declared.event.Event.{Event};
ghost use Rattle.ira_order.specs.Matching.{Matches};
ghost use Rattle.ira_order.specs.Run.{AreLocalRuns};
ghost use Rattle.ira_view_election.specs.Coming.{ComesNext, IsDue, MayCome};
ghost use Rattle.ira_view_election.specs.Contenders.{NamesContenders};
ghost use Rattle.ira_view_election.specs.Election.{standing_of};
ghost use Rattle.ira_view_election.specs.ElectionAt.{SomeNodeLeads, Stands, StandsAt};
ghost use Rattle.ira_view_moment.specs.Moment.{IsMoment, whole_cut};
ghost use Rattle.ira_view_moment.specs.Rounds.{AreRounds};

use crate::contenders::contenders;
use crate::due::{Due, NodeDue};
use crate::election::Election;
use ira_event::{Event, Logs, OutOfMemory, RingSize};
use ira_node::Wanted;
use ira_order::predecessor;
use ira_view_moment::{Moment, Rounds};
use std::alloc::{AllocError, Allocator};

/// What comes next at node `i` of a ring of so many nodes at the moment; none where nothing does, or a yield alone.
fn due_at<A: Allocator>(moment: &Moment<A>, nodes: RingSize, i: u8) -> Option<Due>
    requires nodes { nodes ≡ length moment.now.nodes }
    requires place { i < length moment.now.nodes }
    ensures { (e : Event) → IsDue (length moment.now.nodes) result e ↔ MayCome moment.now i e }
{
    let size = moment.size();
    let state = moment.node(i).state;
    match state.wanted() {
        Wanted::Draw => Some(Due::Draw),
        Wanted::Send(load) => Some(Due::Send(load)),
        Wanted::Receipt => {
            let load = *moment.on_link(predecessor(size, i)).first()?;
            // past the limits of numbers it has no step
            state.step(nodes, &Event::Got(load)).ok()?;
            Some(Due::Receive(load))
        }
        Wanted::Yield | Wanted::Nothing => None,
    }
}

/// What comes next at the nodes of a ring of so many at the moment, in their order.
fn next_events<A: Allocator, M: Allocator>(
    alloc: A,
    moment: &Moment<M>,
    nodes: RingSize,
) -> Result<Vec<NodeDue, A>, AllocError>
    requires { nodes ≡ length moment.now.nodes }
    ensures { IfOk result (λ next. ComesNext moment.now next.items) }
{
    let mut next = Vec::new(alloc);
    for node in 0..moment.size() {
        if let Some(due) = due_at(moment, nodes, node) {
            next.push(NodeDue { node, due })?;
        }
    }
    Ok(next)
}

/// Whether some node leads.
fn has_leader<A: Allocator>(moment: &Moment<A>) -> bool
    ensures { IsTrue result ↔ SomeNodeLeads moment.now }
{
    for node in 0..moment.size() {
        if moment.leads(node) {
            return true;
        }
    }
    false
}

/// How the election stands at the moment of the logs, up to which they have these rounds.
pub fn election_at<A: Allocator + Clone, L: Allocator, M: Allocator, R: Allocator>(
    alloc: A,
    logs: &Logs<L>,
    moment: &Moment<M>,
    rounds: &Rounds<R>,
) -> Result<Election<A>, OutOfMemory>
    requires { length moment.now.nodes ≡ length logs.now }
    ensures stands { IfOk result (λ election. Stands moment.now (standing_of election)) }
    ensures names { IfOk result (λ election. (cut : List ℕ) → IsMoment logs.now cut moment.now
        → AreRounds logs.now cut rounds.now → NamesContenders logs.now cut (standing_of election)) }
{
    if has_leader(moment) {
        return Ok(Election::Over);
    }
    Ok(Election::GoesOn {
        next: next_events(alloc.clone()?, moment, logs.size())?,
        contenders: contenders(alloc, logs, moment, rounds)?,
    })
}

/// How the election stands when all events of the logs have happened.
pub fn election_at_end<A: Allocator + Clone>(
    alloc: A,
    logs: &Logs<A>,
) -> Result<Election<A>, OutOfMemory>
    requires matches { Matches logs.now }
    requires local { AreLocalRuns logs.now }
    ensures { IfOk result (λ election. StandsAt logs.now (whole_cut logs.now) (standing_of election)) }
{
    let moment = Moment::at_end(alloc.clone()?, logs)?;
    let rounds = Rounds::at_end(alloc.clone()?, logs)?;
    let election = election_at(alloc, logs, &moment, &rounds)?;
    Ok(election)
}
