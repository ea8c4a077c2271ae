ghost use Rattle.std.specs.Prelude.{◌≡◌, ◌+◌, ◌<◌, ◌^◌, Some, IfOk, length, slice_get};
ghost use Rattle.ira_view_picture.specs.Rows.{IsRow};
ghost use Rattle.ira_view_picture.specs.Lane.{AreMarks, IsKnown, IsReplayed, IsStart};
ghost use Rattle.ira_view_picture.specs.Traffic.{IsTraffic};

use crate::after::After;
use crate::band::{Band, BandKind, Span};
use crate::mark::Mark;
use crate::traffic::Traffic;
use crate::window::Window;
use ira_event::{Event, NodeLog, OutOfMemory};
use ira_node::NodeState;
use ira_replay::ReplayFault;
use std::alloc::Allocator;

/// What is drawn of a node.
#[derive(Drop)]
pub struct Lane<A: Allocator> {
    /// What is known of it before the first mark.
    pub start: After,
    /// Its events at the columns that are drawn.
    pub marks: Vec<Mark, A>,
    /// What it is at these columns.
    pub bands: Vec<Band, A>,
    /// When it owes something.
    pub debts: Vec<Span, A>,
    /// How many events its log has, drawn or not.
    pub events: u32,
    /// Its last state that is known.
    pub end: NodeState,
    /// Its first event without a step.
    pub first_fault: Option<ReplayFault>,
}

/// How far a log was replayed.
#[derive(Clone, Copy)]
struct Replay {
    events: u32,
    /// The last state that is known.
    end: NodeState,
    /// The first event without a step.
    first_fault: Option<ReplayFault>,
}

impl Replay {
    /// Before the first event.
    fn start<L: Allocator>(log: &NodeLog<L>) -> Replay
        ensures events { result.events ≡ 0 }
        ensures replayed { IsReplayed log.now 0 result.end result.first_fault }
        ensures known { IsKnown log.now 0 (After.State result.end) }
    {
        Replay {
            events: 0,
            end: NodeState::first(log.initiator()),
            first_fault: None,
        }
    }

    /// Goes on by an event, and says which, and what is known then.
    fn advance<L: Allocator>(&mut self, log: &NodeLog<L>) -> (Event, After)
        requires within { self.old.events < length log.now.events }
        requires room { self.old.events + 1 < 2 ^ 32 }
        requires replayed { IsReplayed log.now self.old.events self.old.end self.old.first_fault }
        ensures events { self.new.events ≡ self.old.events + 1 }
        ensures replayed { IsReplayed log.now (self.old.events + 1) self.new.end self.new.first_fault }
        ensures event { slice_get log.now.events self.old.events ≡ Some result.0 }
        ensures known { IsKnown log.now (self.old.events + 1) result.1 }
    {
        let position = self.events + 1;
        let event = log.event(position);
        self.events = position;
        if self.first_fault.is_some() {
            return (event, After::Unknown);
        }
        match self.end.advance(log.nodes(), &event) {
            Ok(()) => (event, After::State(self.end)),
            Err(fault) => {
                self.first_fault = Some(ReplayFault { position, fault });
                (event, After::NoStep)
            }
        }
    }
}

impl<A: Allocator> Lane<A> {
    /// Whether it has bands of a kind.
    pub fn has(&self, kind: BandKind) -> bool {
        self.bands.iter().any(|band| band.kind == kind)
    }

    /// Whether a leader yields at the columns that are drawn, or the node has left its first term in the end.
    pub(crate) fn has_terms(&self) -> bool {
        self.has(BandKind::Yielding) || self.end.term > 1
    }

    /// What is drawn of the node of a log, whose events have these columns, and what the node sends and receives.
    pub(crate) fn of<L: Allocator>(
        alloc: A,
        log: &NodeLog<L>,
        columns: &[u32],
        window: Window,
    ) -> Result<(Lane<A>, Traffic<A>), OutOfMemory>
    where
        A: Clone,
        requires { IsRow log.now.events columns.now }
        ensures events { IfOk result (λ node. node.0.events ≡ length log.now.events) }
        ensures marks { IfOk result
            (λ node. AreMarks log.now columns.now window (length log.now.events) node.0.marks.items) }
        ensures start { IfOk result
            (λ node. IsStart log.now columns.now window (length log.now.events) node.0.start) }
        ensures end { IfOk result
            (λ node. IsReplayed log.now (length log.now.events) node.0.end node.0.first_fault) }
        ensures traffic { IfOk result (λ node. IsTraffic log.now (length log.now.events) node.1) }
    {
        let mut replay = Replay::start(log);
        let mut start = After::State(replay.end);
        let mut marks = Vec::new(alloc.clone()?);
        let mut traffic = Traffic::new(alloc.clone()?)?;
        for k in 0..log.len() {
            let column = columns.get(k).copied().unwrap_or(0);
            let before = replay.end;
            let (event, after) = replay.advance(log);
            traffic.add(replay.events, event, before, after)?;
            if window.contains(column) {
                marks.push(Mark {
                    position: replay.events,
                    column,
                    event,
                    after,
                })?;
            } else if column < window.first {
                start = after;
            }
        }
        let bands = bands_of(alloc.clone()?, start, window.first, &marks)?;
        let debts = debts_of(alloc, start, window.first, &marks)?;
        let lane = Lane {
            start,
            marks,
            bands,
            debts,
            events: replay.events,
            end: replay.end,
            first_fault: replay.first_fault,
        };
        Ok((lane, traffic))
    }
}

/// Whether the node owes something then.
fn owes(after: After) -> bool {
    matches!(after, After::State(NodeState { owed: Some(_), .. }))
}

/// When a node owes something: spans from mark to mark, and to the right edge.
fn debts_of<A: Allocator>(
    alloc: A,
    start: After,
    first: u32,
    marks: &[Mark],
) -> Result<Vec<Span, A>, OutOfMemory> {
    let mut debts = Vec::new(alloc);
    let mut known = start;
    let mut from = first;
    for mark in marks {
        let column = mark.column;
        if owes(known) && from < column {
            debts.push(Span {
                from,
                to: Some(column),
            })?;
        }
        known = mark.after;
        from = column;
    }
    if owes(known) {
        debts.push(Span { from, to: None })?;
    }
    Ok(debts)
}

/// What a node is: spans from where its kind changes to where it changes again, and to the right edge.
fn bands_of<A: Allocator>(
    alloc: A,
    start: After,
    first: u32,
    marks: &[Mark],
) -> Result<Vec<Band, A>, OutOfMemory> {
    let mut bands = Vec::new(alloc);
    let mut kind = BandKind::of(start);
    let mut from = first;
    for mark in marks {
        let column = mark.column;
        let next = BandKind::of(mark.after);
        if next != kind {
            if from < column {
                let span = Span {
                    from,
                    to: Some(column),
                };
                bands.push(Band { kind, span })?;
                from = column;
            }
            kind = next;
        }
    }
    let span = Span { from, to: None };
    bands.push(Band { kind, span })?;
    Ok(bands)
}
