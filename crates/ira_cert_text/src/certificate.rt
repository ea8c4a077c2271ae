ghost use Rattle.std.specs.Prelude.{◌≡◌, ◌≤◌, ◌+◌, ◌*◌, ◌↔◌, All, IsTrue, length};
ghost use Rattle.std.specs.List.{flat_map};
ghost use Rattle.ira_cert_text.specs.Limits.{MAX_SECTIONS, MAX_STEPS};
ghost use Rattle.ira_cert_text.specs.Certificate.{IsSection, IsCertificate};
ghost use Rattle.ira_cert_text.specs.CertText.{section_text, cert_text, IsCertText};

use crate::limits::MAX_SECTIONS;
use crate::section::Section;
use crate::text_len::number_len;
use ira_event::{MAX_TEXT, RingSize};
use std::alloc::Allocator;
use std::marker::Model;

/// Why no consistent cut meets any case of a question: a section for each case, in their order.
/// Anybody may make one, it may be wrong, and it may be larger than its text is allowed to be.
#[derive(Drop)]
pub struct Certificate<A: Allocator> {
    /// How many nodes the ring has.
    pub nodes: RingSize,
    pub sections: Vec<Section<A>, A>,
}

impl<A: Allocator> Model for Certificate<A> {
    ghost use Rattle.ira_cert_text.specs.Certificate.{Certificate};

    ghost Value = { Certificate };

    ghost view = { λ c. record { nodes = c.nodes; sections = c.sections.items } };
}

impl<A: Allocator> Certificate<A> {
    /// Whether its text keeps all limits and ranges, so that it can be read back.
    pub fn readable(&self) -> bool
        ensures { IsTrue result ↔ IsCertText (cert_text self.now) self.now }
    {
        self.is_in_range() && self.text_len() <= MAX_TEXT
    }

    fn is_in_range(&self) -> bool
        ensures { IsTrue result ↔ IsCertificate self.now }
    {
        self.sections.len() <= MAX_SECTIONS && are_in_range(self.nodes.get(), &self.sections)
    }

    fn text_len(&self) -> usize
        requires { IsCertificate self.now }
        ensures { result ≡ length (cert_text self.now) }
    {
        let ends = b"ircert 1\nnodes \nend\n".len() + number_len(u32::from(self.nodes.get()));
        ends + sections_len(&self.sections)
    }
}

fn are_in_range<A: Allocator>(nodes: u8, sections: &[Section<A>]) -> bool
    ensures { IsTrue result ↔ All (IsSection nodes) sections.now }
{
    sections.iter().all(|section| section.is_in_range(nodes))
}

fn sections_len<A: Allocator>(sections: &[Section<A>]) -> usize
    requires count { length sections.now ≤ MAX_SECTIONS }
    requires steps { All (λ s. length s.steps ≤ MAX_STEPS) sections.now }
    ensures value { result ≡ length (flat_map section_text sections.now) }
    ensures short { result ≤ (52 * MAX_STEPS + 25) * MAX_SECTIONS }
{
    let mut len = 0;
    for section in sections {
        len += section.text_len();
    }
    len
}
