ghost use Rattle.std.specs.Prelude.{◌≡◌, ◌^◌, ◌<◌, ◌≤◌, IfOk, length};
ghost use Rattle.ira_par.specs.Share.{HavePlaces, IsFoundBy};

use crate::task::Task;
use crate::unsound_section::UnsoundSection;
use ira_cand::Ahead;
use ira_cert::ListedCandidates;
use ira_links::Gate;
use ira_order::HappenedBefore;
use std::alloc::{AllocError, Allocator};
use std::marker::Model;
use std::sync::Wait;
use std::time::Clock;

/// What one thread needs to judge a range of each section of a batch: room for the candidates left at each place of the
/// ring, and for the first section in whose range it finds a fault.
#[derive(Drop)]
pub(crate) struct Share<'q, A: Allocator> {
    queues: Vec<Option<Ahead<ListedCandidates<'q, A>>>, A>,
    found: Option<UnsoundSection>,
}

impl<'q, A: Allocator> Model for Share<'q, A> {
    ghost use Rattle.std.specs.Prelude.{length};
    ghost use Rattle.ira_par.specs.Share.{Share};

    ghost Value = { Share };

    ghost view = { λ s. record { places = length s.queues.items; found = s.found } };
}

impl<'q, A: Allocator> Share<'q, A> {
    /// A share for a ring of so many places.
    pub(crate) fn new(alloc: A, places: usize) -> Result<Share<'q, A>, AllocError>
        ensures { IfOk result (λ share. share.places ≡ places) }
    {
        let mut queues = Vec::with_capacity(alloc, places)?;
        for _ in 0..places {
            queues.push(None)?;
        }
        Ok(Share {
            queues,
            found: None,
        })
    }

    /// Judges the range of this number of each section. For each the gate is passed first, with that number.
    pub(crate) fn judge<R: Wait + Clock, G: Gate, C: HappenedBefore>(
        &mut self,
        rt: &R,
        gate: &G,
        number: usize,
        depth: u8,
        ordered: &C,
        tasks: &'q [Task<'_, '_, A>],
    )
        requires number { number < 2 ^ depth }
        requires depth { depth ≤ 4 }
        requires room { self.old.places ≡ length (C.logs_of ordered.now) }
        requires places { HavePlaces (length (C.logs_of ordered.now)) tasks.now }
        ensures { IsFoundBy (C.logs_of ordered.now) depth number (length tasks.now) tasks.now self.new.found }
    {
        self.found = None;
        for section in 0..tasks.len() {
            gate.pass(rt, number as u32);
            if self.found.is_some() {
                continue;
            }
            if let Some(fault) = tasks[section].judge(ordered, number, depth, &mut self.queues) {
                self.found = Some(UnsoundSection { section, fault });
            }
        }
    }

    /// The first section in whose range a fault was found.
    pub(crate) fn found(&self) -> Option<UnsoundSection>
        ensures { result ≡ self.now.found }
    {
        self.found
    }
}
