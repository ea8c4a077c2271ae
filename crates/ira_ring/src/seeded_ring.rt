ghost use Rattle.std.specs.Prelude.{◌≡◌, ◌⊎◌, Err, IfErr, IfOk, OnOk};
ghost use Rattle.ira_ring_setup.specs.Setup.{KeepsRules};
ghost use Rattle.ira_ring_setup.specs.ShownEnd.{IsLoneRun};
ghost use Rattle.ira_ring_setup.specs.declared.run_fault.RunFault.TheVariants.{Setup as SetupFault, OutOfMemory as MemoryFault};
ghost use Rattle.ira_ring.specs.SeededRing.{first_initiators, setup_of};

use ira_event::RingSize;
use ira_ring_alone::run_alone_seeded;
use ira_ring_setup::{Run, RunFault};
use std::alloc::{AllocError, Allocator};

/// A ring whose first nodes are initiators and whose nodes draw from a seed.
#[derive(Clone, Copy)]
pub struct SeededRing {
    pub nodes: RingSize,
    /// How many nodes are initiators, from place 0 on: any number.
    pub initiators: u64,
    pub seed: u64,
    /// How many IDs each node is given to draw.
    pub draws: u32,
    /// The most records that a log may have: any number, and not only one that a setup may have.
    pub cap: u64,
    /// How many terms there are: any number, likewise.
    pub terms: u64,
}

impl SeededRing {
    /// Whether each node is an initiator.
    pub fn initiators<A: Allocator>(&self, alloc: A) -> Result<Vec<bool, A>, AllocError>
        ensures { IfOk result (λ kinds. kinds.items ≡ first_initiators self.now) }
    {
        let number = self.initiators;
        (0..self.nodes.get())
            .map(|place| u64::from(place) < number)
            .collect(alloc)
    }

    /// A full run of it on one thread.
    pub fn run_alone<A: Allocator + Clone>(&self, alloc: A) -> Result<Run<A>, RunFault>
        ensures broken { result ≡ Err SetupFault → ¬ (KeepsRules (setup_of self.now)) }
        ensures kept { OnOk result (KeepsRules (setup_of self.now)) }
        ensures run { IfOk result (IsLoneRun (setup_of self.now)) }
        ensures faults { IfErr result (λ f. (f ≡ SetupFault) ⊎ (f ≡ MemoryFault)) }
    {
        let Ok(terms) = u32::try_from(self.terms) else {
            return Err(RunFault::Setup);
        };
        let initiators = self.initiators(alloc.clone()?)?;
        let cap = self.cap as usize;
        run_alone_seeded(
            alloc,
            self.nodes,
            &initiators,
            self.seed,
            self.draws,
            cap,
            terms,
        )
    }
}
