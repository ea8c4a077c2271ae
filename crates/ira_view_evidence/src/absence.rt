ghost use Rattle.std.specs.Prelude.{◌≡◌, List, IfOk, OnOk};
ghost use Rattle.ira_event.specs.Log.{Log};
ghost use Rattle.ira_pred.specs.Case.{Conjunct};
ghost use Rattle.ira_cert.specs.Conjuncts.{HasDifferentPlaces};
ghost use Rattle.ira_cert.specs.SoundSection.{IsSoundSection};
ghost use Rattle.ira_view_evidence.specs.Absence.{ShowsAbsence};
ghost use Rattle.ira_view_evidence.specs.Elimination.{AreOfSteps, IsAdded};

use crate::elimination::Elimination;
use ira_cert::{CertStep, Section};
use ira_event::OutOfMemory;
use std::alloc::Allocator;

/// Why no consistent cut meets a case: states of nodes that were eliminated, one run of them after the other, until a node
/// has none left that the case asks for.
#[derive(Drop)]
pub struct Absence<A: Allocator> {
    pub eliminations: Vec<Elimination, A>,
    /// The place of the node that has no such state left.
    pub spent: u8,
}

/// Adds a step to the eliminations before it: to the last of them, or as one of its own.
fn add_step<A: Allocator>(
    eliminations: &mut Vec<Elimination, A>,
    step: &CertStep,
) -> Result<(), OutOfMemory>
    ensures { OnOk result (IsAdded eliminations.old.items step.now eliminations.new.items) }
{
    let next = match eliminations.pop() {
        None => Elimination::of_step(step),
        Some(last) if last.goes_on_with(step) => last.ending(step.pos),
        Some(last) => {
            eliminations.push(last)?;
            Elimination::of_step(step)
        }
    };
    eliminations.push(next)?;
    Ok(())
}

impl<A: Allocator> Absence<A> {
    /// What a section says, its steps that eliminate states of one node by one state of another put together.
    pub fn of_section<B: Allocator>(
        alloc: A,
        section: &Section<B>,
    ) -> Result<Absence<A>, OutOfMemory>
        ensures absence { (logs : List Log) (case : List Conjunct) → HasDifferentPlaces case
            → IsSoundSection logs case section.now
            → IfOk result (λ absence. ShowsAbsence logs case absence.eliminations.items absence.spent) }
        ensures steps { IfOk result (λ absence. AreOfSteps section.now.steps absence.eliminations.items) }
        ensures spent { IfOk result (λ absence. absence.spent ≡ section.now.spent) }
    {
        let mut eliminations = Vec::new(alloc);
        for step in &section.steps {
            add_step(&mut eliminations, step)?;
        }
        Ok(Absence {
            eliminations,
            spent: section.spent,
        })
    }
}
