ghost use Rattle.std.specs.Prelude.{◌≡◌, ◌≤◌, ◌<◌, ℕ, ◌↔◌, IfOk, IsTrue, List, Some, drop, length, map, slice_get, slice_index, take};
ghost use Rattle.ira_event.specs.Log.{Log};
ghost use Rattle.ira_event.specs.Logs.{EachLog};
ghost use Rattle.ira_event.specs.RingSize.{IsRingSize};
ghost use Rattle.ira_order.specs.Cut.{IsCut, IsConsistentCut};
ghost use Rattle.ira_order.specs.Matching.{Matches, sent, got};
ghost use Rattle.ira_order.specs.Ring.{log_of};
ghost use Rattle.ira_order.specs.Run.{AreLocalRuns};
ghost use Rattle.ira_view_moment.specs.NodeProgress.{IsProgress};
ghost use Rattle.ira_view_moment.specs.Moment.{IsMoment, AreOnTheirWay, LeadsAt, whole_cut};

use crate::cuts::cut_at_end;
use crate::node_progress::NodeProgress;
use ira_event::{Event, Load, Logs, NodeLog, OutOfMemory};
use ira_node::Phase;
use ira_order::successor;
use std::alloc::Allocator;
use std::marker::Model;

/// A ring at a consistent cut of its logs: how far each node has come, and what is on its way on each link, the next to
/// be received first.
#[derive(Drop)]
pub struct Moment<A: Allocator> {
    nodes: Vec<NodeProgress, A>,
    links: Vec<Vec<Load, A>, A>,
}

impl<A: Allocator> Model for Moment<A> {
    ghost use Rattle.std.specs.Prelude.{◌≡◌, length, map};
    ghost use Rattle.ira_event.specs.RingSize.{IsRingSize};
    ghost use Rattle.ira_view_moment.specs.Moment.{Moment};

    ghost Value = { Moment };

    ghost view = { λ a. record { nodes = a.nodes.items; links = map (λ loads. loads.items) a.links.items } };

    ghost invariant = { λ a. IsRingSize (length a.nodes.items) × (length a.links.items ≡ length a.nodes.items) };
}

/// How far each node has come at the cut.
fn progress_of_nodes<A: Allocator>(
    alloc: A,
    logs: &Logs<A>,
    cut: &[u32],
) -> Result<Vec<NodeProgress, A>, OutOfMemory>
    requires local { AreLocalRuns logs.now }
    requires cut { IsCut logs.now cut.now }
    ensures number { IfOk result (λ nodes. length nodes.items ≡ length logs.now) }
    ensures ring { IfOk result (λ nodes. IsRingSize (length nodes.items)) }
    ensures each { IfOk result
        (λ nodes. (i : ℕ) (log : Log) (p : NodeProgress) → slice_get logs.now i ≡ Some log
        → slice_get nodes.items i ≡ Some p → IsProgress log (slice_index cut.now i) p) }
{
    let size = logs.size().get();
    let mut nodes = Vec::with_capacity(alloc, usize::from(size))?;
    for place in 0..size {
        let events = cut[usize::from(place)];
        nodes.push(NodeProgress::after(logs.log(place), events))?;
    }
    Ok(nodes)
}

/// What the first events of a log send, so many loads, but for those that were received.
fn sendings_after<A: Allocator>(
    alloc: A,
    log: &NodeLog<A>,
    events: u32,
    number: u32,
    received: u32,
) -> Result<Vec<Load, A>, OutOfMemory>
    requires events { events ≤ length log.now.events }
    requires number { number ≡ length (sent (take events log.now.events)) }
    ensures { IfOk result (λ loads. loads.items ≡ drop received (sent (take events log.now.events))) }
{
    let mut loads = Vec::new(alloc);
    if number <= received {
        return Ok(loads);
    }
    let mut passed = 0;
    for k in 0..events {
        if let Event::Sent(load) = log.event(k + 1) {
            if passed < received {
                passed += 1;
            } else {
                loads.push(load)?;
            }
        }
    }
    Ok(loads)
}

/// How far node `i` has come.
fn progress_of(nodes: &[NodeProgress], i: u8) -> NodeProgress
    requires { i < length nodes.now }
    ensures { slice_get nodes.now i ≡ Some result }
{
    nodes[usize::from(i)]
}

/// What is on its way on each link at the cut, where each node has come so far.
fn loads_of_links<A: Allocator + Clone>(
    alloc: A,
    logs: &Logs<A>,
    cut: &[u32],
    nodes: &[NodeProgress],
) -> Result<Vec<Vec<Load, A>, A>, OutOfMemory>
    requires matches { Matches logs.now }
    requires cut { IsConsistentCut logs.now cut.now }
    requires number { length nodes.now ≡ length logs.now }
    requires each { (i : ℕ) (log : Log) (p : NodeProgress) → slice_get logs.now i ≡ Some log
        → slice_get nodes.now i ≡ Some p → IsProgress log (slice_index cut.now i) p }
    ensures number { IfOk result (λ links. length links.items ≡ length logs.now) }
    ensures each { IfOk result
        (λ links. (i : ℕ) (loads : List Load) → slice_get (map (λ l. l.items) links.items) i ≡ Some loads
        → AreOnTheirWay logs.now cut.now i loads) }
{
    let size = logs.size().get();
    let mut links = Vec::with_capacity(alloc.clone()?, usize::from(size))?;
    for link in 0..size {
        let events = cut[usize::from(link)];
        let number = progress_of(nodes, link).sent;
        let received = progress_of(nodes, successor(size, link)).received;
        links.push(sendings_after(alloc.clone()?, logs.log(link), events, number, received)?)?;
    }
    Ok(links)
}

impl<A: Allocator> Moment<A> {
    /// The ring when all events of the logs have happened.
    pub fn at_end(alloc: A, logs: &Logs<A>) -> Result<Moment<A>, OutOfMemory>
    where
        A: Clone,
        requires matches { Matches logs.now }
        requires local { AreLocalRuns logs.now }
        ensures { IfOk result (IsMoment logs.now (whole_cut logs.now)) }
    {
        let cut = cut_at_end(alloc.clone()?, logs)?;
        Moment::at_cut(alloc, logs, &cut)
    }

    /// The ring when the events of the cut have happened, and no others.
    pub fn at_cut(alloc: A, logs: &Logs<A>, cut: &[u32]) -> Result<Moment<A>, OutOfMemory>
    where
        A: Clone,
        requires matches { Matches logs.now }
        requires local { AreLocalRuns logs.now }
        requires cut { IsConsistentCut logs.now cut.now }
        ensures { IfOk result (IsMoment logs.now cut.now) }
    {
        let nodes = progress_of_nodes(alloc.clone()?, logs, cut)?;
        let links = loads_of_links(alloc, logs, cut, &nodes)?;
        Ok(Moment { nodes, links })
    }

    /// How many nodes the ring has.
    pub fn size(&self) -> u8
        ensures value { result ≡ length self.now.nodes }
        ensures links { length self.now.links ≡ length self.now.nodes }
    {
        self.nodes.len() as u8
    }

    /// How far each node has come.
    pub fn nodes(&self) -> &[NodeProgress]
        ensures { result.now ≡ self.now.nodes }
    {
        &self.nodes
    }

    /// How far node `i` has come.
    pub fn node(&self, i: u8) -> NodeProgress
        requires { i < length self.now.nodes }
        ensures { slice_get self.now.nodes i ≡ Some result }
    {
        self.nodes[usize::from(i)]
    }

    /// The loads on link `i`, the next to be received first.
    pub fn on_link(&self, i: u8) -> &[Load]
        requires { i < length self.now.links }
        ensures { slice_get self.now.links i ≡ Some result.now }
    {
        &self.links[usize::from(i)]
    }

    /// Whether node `i` leads.
    pub fn leads(&self, i: u8) -> bool
        requires { i < length self.now.nodes }
        ensures { IsTrue result ↔ LeadsAt self.now i }
    {
        matches!(self.node(i).state.phase, Phase::Leader { .. })
    }
}
