ghost use Rattle.std.specs.Prelude.{◌≡◌, ◌++◌, ◌∷◌, [], List, OnOk, length};
ghost use Rattle.ira_cert_text.specs.declared.cert_step.CertStep.{CertStep};

use ira_cert::CertStep;
use ira_event::OutOfMemory;
use std::alloc::Allocator;
use std::marker::Model;

/// What takes the steps of a section, one after the other.
pub trait StepSink: Drop {
    // whether these are the steps that it has taken
    ghost has_taken: { Self → List CertStep → Type 0 };

    /// Takes the step that comes next.
    fn take(&mut self, step: CertStep) -> Result<(), OutOfMemory>
        ensures { (steps : List CertStep) → has_taken self.old steps
            → OnOk result (has_taken self.new (steps ++ step ∷ [])) };
}

/// A list keeps them.
impl<A: Allocator> StepSink for Vec<CertStep, A> {
    ghost has_taken = { λ list steps. list.items ≡ steps };

    fn take(&mut self, step: CertStep) -> Result<(), OutOfMemory> {
        self.push(step)?;
        Ok(())
    }
}

/// How many steps were taken, none of which is kept.
#[derive(Drop)]
pub struct StepCount {
    count: u64,
}

impl Model for StepCount {
    ghost use Rattle.std.specs.Prelude.{ℕ};

    ghost Value = { ℕ };

    ghost view = { λ c. c.count };
}

impl StepCount {
    /// Of so many steps.
    pub fn of(count: u64) -> StepCount
        ensures { result ≡ count }
    {
        StepCount { count }
    }

    /// How many they are.
    pub fn get(&self) -> u64
        ensures { result ≡ self.now }
    {
        self.count
    }
}

impl StepSink for StepCount {
    ghost has_taken = { λ count steps. count ≡ length steps };

    // No section has so many steps that they can't be counted.
    fn take(&mut self, _step: CertStep) -> Result<(), OutOfMemory> {
        self.count = self.count.checked_add(1).ok_or(OutOfMemory)?;
        Ok(())
    }
}
