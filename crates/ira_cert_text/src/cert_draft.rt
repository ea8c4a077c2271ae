ghost use Rattle.std.specs.Prelude.{◌≡◌, ◌++◌, ◌∷◌, [], ℕ, List, IfOk, MatchOption, OnOk};
ghost use Rattle.ira_cert_text.specs.Certificate as certificate;
ghost use Rattle.ira_cert_text.specs.CertDraft.{IsDraft};
ghost use Rattle.ira_cert_text.specs.CertText.{IsCertText, cert_text};

use crate::cert_writer::{head, write_section};
use crate::limits::MAX_SECTIONS;
use crate::section::Section;
use ira_event::{MAX_TEXT, MemorySink, OutOfMemory, RingSize, write_bytes};
use std::alloc::Allocator;

/// The text of a certificate that is made section by section, so that no section need be kept. Once it is past the limits of
/// such a text nothing is kept of it any more, so it takes no more than `MAX_TEXT` bytes.
#[derive(Drop)]
pub struct CertDraft<A: Allocator> {
    nodes: RingSize,
    /// How many sections it has.
    count: usize,
    /// Its text without the last line, unless it is past the limits.
    text: Option<MemorySink<A>>,
}

impl<A: Allocator> CertDraft<A> {
    /// That of a ring of so many nodes, without a section.
    pub fn new(alloc: A, nodes: RingSize) -> Result<CertDraft<A>, OutOfMemory>
        ensures { IfOk result (λ draft. IsDraft nodes draft []) }
    {
        let mut text = MemorySink::new(alloc);
        let Ok(()) = head(nodes).write(&mut text) else {
            return Err(OutOfMemory);
        };
        Ok(CertDraft {
            nodes,
            count: 0,
            text: Some(text),
        })
    }

    /// Adds a section at the end.
    pub fn add(&mut self, section: &Section<A>) -> Result<(), OutOfMemory>
        ensures { (nodes : ℕ) (sections : List certificate.Section) → IsDraft nodes self.old sections
            → OnOk result (IsDraft nodes self.new (sections ++ section.now ∷ [])) }
    {
        let Some(mut text) = self.text.take() else {
            return Ok(());
        };
        if self.count >= MAX_SECTIONS || !section.is_in_range(self.nodes.get()) {
            return Ok(());
        }
        if text.bytes().len() + section.text_len() > MAX_TEXT {
            return Ok(());
        }
        let Ok(()) = write_section(section, &mut text) else {
            return Err(OutOfMemory);
        };
        self.count += 1;
        self.text = Some(text);
        Ok(())
    }

    /// The whole text, unless it is past the limits.
    pub fn finish(self) -> Result<Option<MemorySink<A>>, OutOfMemory>
        ensures { (c : certificate.Certificate) → IsDraft c.nodes self c.sections
            → IfOk result (λ text. MatchOption text (¬ (IsCertText (cert_text c) c))
            (λ t. (t.bytes ≡ cert_text c) × IsCertText (cert_text c) c)) }
    {
        let Some(mut text) = self.text else {
            return Ok(None);
        };
        if text.bytes().len() + b"end\n".len() > MAX_TEXT {
            return Ok(None);
        }
        let Ok(()) = write_bytes(b"end\n", &mut text) else {
            return Err(OutOfMemory);
        };
        Ok(Some(text))
    }
}
