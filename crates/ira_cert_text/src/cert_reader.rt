ghost use Rattle.std.specs.Prelude.{◌≡◌, ◌↔◌};
ghost use Rattle.ira_cert_text.specs.CertAnswer.{AnswersCertificates, AnswersFaults};
ghost use Rattle.ira_cert_text.specs.declared.cert_fault.CertFault.{CertFault};
ghost use Rattle.ira_cert_text.specs.CertTextFault.{CertTextFault};
ghost use Rattle.ira_cert_text.specs.CertLines.{ReadsSection, SectionsRead};

use crate::cert_fault::CertFault;
use crate::cert_head::scan_head;
use crate::cert_lines::{CertLines, SectionLine};
use crate::certificate::Certificate;
use crate::section::Section;
use ira_event::MAX_TEXT;
use std::alloc::Allocator;

/// The certificate that a text is the text of, or the first fault of a text that is no certificate's.
pub fn read_cert<A: Allocator + Clone>(alloc: A, text: &[u8]) -> Result<Certificate<A>, CertFault>
    ensures ok { AnswersCertificates result text.now }
    ensures err { AnswersFaults result text.now }

    // These two are answered whatever memory does.
    ensures too_long { (result ≡ Err CertFault.TooLong) ↔ CertTextFault text.now CertFault.TooLong }
    ensures head { (result ≡ Err CertFault.Head) ↔ CertTextFault text.now CertFault.Head }
{
    if text.len() > MAX_TEXT {
        return Err(CertFault::TooLong);
    }
    let Some(head) = scan_head(text) else {
        return Err(CertFault::Head);
    };
    let sections = read_sections(alloc, head.nodes.get(), CertLines::new(head.rest))?;
    Ok(Certificate {
        nodes: head.nodes,
        sections,
    })
}

/// The sections of all lines after a head, none of which was read yet.
fn read_sections<A: Allocator + Clone>(
    alloc: A,
    nodes: u8,
    lines: CertLines<'_>,
) -> Result<Vec<Section<A>, A>, CertFault>
    requires { lines.number ≡ 3 }
    ensures { SectionsRead nodes (λ sections. sections.items) result lines.entry.rest }
{
    let mut lines = lines;
    let mut sections = Vec::new(alloc.clone()?);
    while lines.next_section(sections.len())? {
        sections.push(read_section(alloc.clone()?, nodes, &mut lines)?)?;
    }
    Ok(sections)
}

/// The section whose first line was read.
fn read_section<A: Allocator>(
    alloc: A,
    nodes: u8,
    lines: &mut CertLines<'_>,
) -> Result<Section<A>, CertFault>
    ensures { ReadsSection nodes lines.old lines.new result }
{
    let mut steps = Vec::new(alloc);
    loop {
        match lines.next_in_section(nodes, steps.len())? {
            SectionLine::Step(step) => steps.push(step)?,
            SectionLine::Spent(spent) => return Ok(Section { steps, spent }),
        }
    }
}
