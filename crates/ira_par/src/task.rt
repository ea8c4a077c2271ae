ghost use Rattle.std.specs.Prelude.{◌≡◌, ◌^◌, ◌<◌, ◌≤◌, length};
ghost use Rattle.ira_par.specs.CandidateTable.{AreBelow};
ghost use Rattle.ira_par.specs.Task.{IsFoundFor};

use crate::candidate_table::CandidateTable;
use crate::ranges::{begin_of, range_count};
use crate::tables::list_candidates;
use ira_cand::Ahead;
use ira_cert::{ListedCandidates, QueueHead, Section, SectionFault, left_at, make_steps};
use ira_order::HappenedBefore;
use std::alloc::Allocator;
use std::marker::Model;

/// A section that is to be judged, and the candidates of its case.
#[derive(Drop)]
pub(crate) struct Task<'t, 's, A: Allocator> {
    pub(crate) tables: Vec<CandidateTable<'t, A>, A>,
    pub(crate) section: &'s Section<A>,
}

impl<'t, 's, A: Allocator> Model for Task<'t, 's, A> {
    ghost use Rattle.ira_par.specs.Task.{Task};

    ghost Value = { Task };

    ghost view = { λ t. record { tables = t.tables.items; section = t.section.now } };
}

impl<'t, 's, A: Allocator> Task<'t, 's, A> {
    /// What is found in the range of this number, of `2^depth`: its first step that isn't sound, or at the end of
    /// the last one that the node isn't spent. The steps before the range are taken for sound. What they leave of the
    /// candidates is found in the room for queues.
    pub(crate) fn judge<'q, C: HappenedBefore>(
        &'q self,
        ordered: &C,
        number: usize,
        depth: u8,
        queues: &mut [Option<Ahead<ListedCandidates<'q, A>>>],
    ) -> Option<SectionFault>
        requires number { number < 2 ^ depth }
        requires depth { depth ≤ 4 }
        requires places { AreBelow (length (C.logs_of ordered.now)) self.now.tables }
        requires room { length queues.old ≡ length (C.logs_of ordered.now) }
        ensures { IsFoundFor (C.logs_of ordered.now) depth number self.now result }
    {
        let section = self.section;
        let steps = section.steps.as_slice();
        let from = begin_of(0, steps.len(), depth, number);
        let to = begin_of(0, steps.len(), depth, number + 1);
        let is_last = number + 1 == range_count(depth);
        // Most ranges of a short section are empty.
        if from == to && !is_last {
            return None;
        }
        list_candidates(self.tables.as_slice(), queues);
        if let Err(fault) = make_steps(ordered, queues, steps, from, to) {
            return Some(fault);
        }
        if !is_last {
            return None;
        }
        let QueueHead::Spent = left_at(queues, section.spent) else {
            return Some(SectionFault::NotSpent(section.spent));
        };
        None
    }
}
