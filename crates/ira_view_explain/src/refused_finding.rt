ghost use Rattle.std.specs.Prelude.{◌≡◌, IfOk};
ghost use Rattle.ira_audit.specs.RefusedLogs.{AreRefused};
ghost use Rattle.ira_view_explain.specs.Refused.{AreTold, IsFinding, state_before};

use crate::circle_finding::CircleFinding;
use crate::faulty_link::FaultyLink;
use crate::ring_files::RingFiles;
use crate::steps_finding::StepsFinding;
use ira_audit::{Reason, RefusedLogs};
use ira_event::OutOfMemory;
use ira_node::NodeState;
use ira_order::{EventAt, FaultyEvent};
use ira_view_evidence::CircleEvidence;
use ira_view_page::{Evidence, Page};
use std::alloc::Allocator;

/// What stands against the logs of a ring.
#[derive(Drop)]
pub(crate) enum RefusedFinding<'a, 'l, A: Allocator> {
    /// Both sides of a link around the first receipt that doesn't match.
    Link(FaultyLink<'a, 'l, A>),
    Circle(CircleFinding<A>),
    Steps(StepsFinding<'a, 'l, A>),
}

impl<'a, 'l, A: Allocator + Clone> RefusedFinding<'a, 'l, A> {
    /// Of the logs of this ring.
    pub(crate) fn find(
        ring: &RingFiles<'a, 'l, A>,
        refused: &RefusedLogs<A>,
    ) -> Result<RefusedFinding<'a, 'l, A>, OutOfMemory>
        requires refused { AreRefused refused.now }
        requires logs { ring.now.logs.now ≡ refused.now.logs }
        ensures { IfOk result (IsFinding refused.now.logs refused.now.reason refused.now.faulty_events) }
    {
        let faulty = refused.faulty_events();
        match refused.reason() {
            Reason::Match(fault) => Ok(Self::Link(FaultyLink::of_fault(ring, fault, faulty)?)),
            Reason::Circle => match CircleEvidence::find(ring.alloc.clone()?, ring.logs)? {
                Some(circle) => Ok(RefusedFinding::Circle(CircleFinding {
                    circle,
                    faulty: faulty.first().copied(),
                })),
                None => unreachable!(),
            },
            Reason::Replay {
                place,
                position,
                fault,
            } => {
                let at = EventAt { place, position };
                let named = FaultyEvent { at, fault };
                Ok(RefusedFinding::Steps(StepsFinding::find(ring, faulty, named)?))
            }
            _ => unreachable!(),
        }
    }

    /// Adds it to a page.
    pub(crate) fn print(&self, ring: &RingFiles<'_, '_, A>, page: &mut Page<A>) {
        match self {
            RefusedFinding::Link(link) => link.print(page),
            RefusedFinding::Circle(circle) => circle.print(ring, page),
            RefusedFinding::Steps(steps) => steps.print(ring, page),
        }
    }

    /// What it rests on.
    pub(crate) fn evidence(
        &self,
        ring: &RingFiles<'_, '_, A>,
    ) -> Result<Vec<Evidence<A>, A>, OutOfMemory>
        ensures { IfOk result (λ told. AreTold ring.now.files.now self.now told.items) }
    {
        match self {
            RefusedFinding::Link(link) => link.evidence(ring),
            RefusedFinding::Circle(circle) => ring.stuck_evidence(&circle.circle.stuck),
            RefusedFinding::Steps(steps) => steps.evidence(ring),
        }
    }

    /// The usual causes that explain it.
    pub(crate) fn hints(
        &self,
        ring: &RingFiles<'_, '_, A>,
    ) -> Result<Vec<String<A>, A>, OutOfMemory> {
        match self {
            RefusedFinding::Link(link) => link.hints(ring.alloc),
            RefusedFinding::Circle(circle) => circle.hints(ring.alloc),
            RefusedFinding::Steps(steps) => steps.hints(ring),
        }
    }

    /// The state in which the event that the answer names has no step.
    pub(crate) fn state_before(&self) -> Option<NodeState>
        ensures { result ≡ state_before self.now }
    {
        match self {
            RefusedFinding::Steps(steps) => Some(steps.log.stopped.state),
            RefusedFinding::Link(_) | RefusedFinding::Circle(_) => None,
        }
    }
}
