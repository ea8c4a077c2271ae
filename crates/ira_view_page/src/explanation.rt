ghost use Rattle.std.specs.Prelude.{◌≡◌, IfOk, None, Some};
ghost use Rattle.ira_view_page.specs.Page.{AddedSome};

use crate::asked_case::AskedCase;
use crate::evidence::Evidence;
use crate::page::Page;
use crate::page_text::PageText;
use crate::ring_counts::RingCounts;
use ira_event::OutOfMemory;
use ira_node::NodeState;
use std::alloc::Allocator;

/// Why an answer is as it is: a page for a person, and for programs the values that the page tells.
#[derive(Drop)]
pub struct Explanation<A: Allocator> {
    pub page: PageText<A>,
    /// Nothing where the texts aren't those of the logs of one ring.
    pub ring: Option<RingCounts>,
    /// The state in which the event that the answer names has no step.
    pub state_before: Option<NodeState>,
    pub evidence: Vec<Evidence<A>, A>,
    /// The usual causes that are on the page, each as one line.
    pub hints: Vec<String<A>, A>,
    /// The cases that are explained.
    pub cases: Vec<AskedCase<A>, A>,
}

impl<A: Allocator + Clone> Explanation<A> {
    /// What a page explains, with what it rests on, and hints that come last on the page.
    pub fn of_page(
        alloc: &A,
        ring: Option<RingCounts>,
        page: Page<A>,
        evidence: Vec<Evidence<A>, A>,
        hints: Vec<String<A>, A>,
    ) -> Result<Explanation<A>, OutOfMemory>
        ensures ring { IfOk result (λ explanation. explanation.ring ≡ ring) }
        ensures state { IfOk result (λ explanation. explanation.state_before ≡ None) }
        ensures evidence { IfOk result (λ explanation. explanation.evidence.items ≡ evidence.items) }
        ensures hints { IfOk result (λ explanation. explanation.hints.items ≡ hints.items) }
        ensures page { IfOk result (λ explanation. AddedSome page (Some explanation.page)) }
    {
        let mut page = page;
        for hint in &hints {
            page.hint(hint);
        }
        Ok(Explanation {
            page: page.finish()?,
            ring,
            state_before: None,
            evidence,
            hints,
            cases: Vec::new(alloc.clone()?),
        })
    }
}
