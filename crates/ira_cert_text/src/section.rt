ghost use Rattle.std.specs.Prelude.{◌≡◌, ◌≤◌, ◌+◌, ◌*◌, ◌↔◌, All, IsTrue, length};
ghost use Rattle.std.specs.List.{flat_map};
ghost use Rattle.ira_cert_text.specs.Limits.{MAX_STEPS};
ghost use Rattle.ira_cert_text.specs.Certificate.{IsStep, IsSection};
ghost use Rattle.ira_cert_text.specs.CertText.{step_text, section_text};

use crate::cert_step::CertStep;
use crate::limits::MAX_STEPS;
use crate::text_len::number_len;
use std::alloc::Allocator;
use std::marker::Model;

/// Why no consistent cut meets a case: eliminations in their order, and the node that has no candidate
/// left after them. Anybody may make one, and it may be wrong.
#[derive(Drop)]
pub struct Section<A: Allocator> {
    pub steps: Vec<CertStep, A>,
    pub spent: u8,
}

impl<A: Allocator> Model for Section<A> {
    ghost use Rattle.ira_cert_text.specs.Certificate.{Section};

    ghost Value = { Section };

    ghost view = { λ s. record { steps = s.steps.items; spent = s.spent } };
}

impl<A: Allocator> Section<A> {
    /// Whether the text of a certificate of so many nodes may have the section.
    pub(crate) fn is_in_range(&self, nodes: u8) -> bool
        ensures { IsTrue result ↔ IsSection nodes self.now }
    {
        self.steps.len() <= MAX_STEPS && self.spent < nodes && are_in_range(nodes, &self.steps)
    }

    /// How many bytes the section's text has.
    pub(crate) fn text_len(&self) -> usize
        requires { length self.now.steps ≤ MAX_STEPS }
        ensures value { result ≡ length (section_text self.now) }
        ensures short { result ≤ 52 * MAX_STEPS + 25 }
    {
        let ends = b"section\nspent \n".len() + number_len(u32::from(self.spent));
        ends + steps_len(&self.steps)
    }
}

fn are_in_range(nodes: u8, steps: &[CertStep]) -> bool
    ensures { IsTrue result ↔ All (IsStep nodes) steps.now }
{
    steps.iter().all(|step| step.is_in_range(nodes))
}

fn steps_len(steps: &[CertStep]) -> usize
    requires { length steps.now ≤ MAX_STEPS }
    ensures value { result ≡ length (flat_map step_text steps.now) }
    ensures short { result ≤ 52 * MAX_STEPS }
{
    let mut len = 0;
    for step in steps {
        len += step.text_len();
    }
    len
}
