ghost use Rattle.std.specs.List.{flat_map};
ghost use Rattle.std.specs.Prelude.{◌≡◌, ◌++◌, codes, decimal};
ghost use Rattle.ira_event.specs.RingSize.{IsRingSize};
ghost use Rattle.ira_event.specs.Sink.{Wrote};
ghost use Rattle.ira_cert_text.specs.CertText.{step_text, section_text, cert_text};

use crate::cert_step::CertStep;
use crate::certificate::Certificate;
use crate::section::Section;
use ira_event::{Line, RingSize, Sink, WriteFault, write_bytes};
use std::alloc::Allocator;

fn step_line(step: &CertStep) -> Line
    ensures { result ≡ step_text step.now }
{
    let mut line = Line::new();
    line.add(b"drop ");
    line.add_number(u32::from(step.node));
    line.add(b" ");
    line.add_number(step.pos);
    line.add(b" by ");
    line.add_number(u32::from(step.other));
    line.add(b" ");
    line.add_number(step.other_pos);
    line.add(b"\n");
    line
}

fn spent_line(spent: u8) -> Line
    ensures { result ≡ codes "spent " ++ decimal spent ++ codes "\n" }
{
    let mut line = Line::new();
    line.add(b"spent ");
    line.add_number(u32::from(spent));
    line.add(b"\n");
    line
}

pub(crate) fn head(nodes: RingSize) -> Line
    ensures size { IsRingSize nodes }
    ensures text { result ≡ codes "ircert 1\n" ++ codes "nodes " ++ decimal nodes ++ codes "\n" }
{
    let mut line = Line::new();
    line.add(b"ircert 1\nnodes ");
    line.add_number(u32::from(nodes.get()));
    line.add(b"\n");
    line
}

fn write_steps<W: Sink>(steps: &[CertStep], sink: &mut W) -> Result<(), WriteFault>
    ensures { Wrote result (flat_map step_text steps.now) (W.state sink.old) (W.state sink.new) }
{
    for step in steps {
        step_line(step).write(sink)?;
    }
    Ok(())
}

pub(crate) fn write_section<A: Allocator, W: Sink>(
    section: &Section<A>,
    sink: &mut W,
) -> Result<(), WriteFault>
    ensures { Wrote result (section_text section.now) (W.state sink.old) (W.state sink.new) }
{
    write_bytes(b"section\n", sink)?;
    write_steps(&section.steps, sink)?;
    spent_line(section.spent).write(sink)
}

fn write_sections<A: Allocator, W: Sink>(
    sections: &[Section<A>],
    sink: &mut W,
) -> Result<(), WriteFault>
    ensures { Wrote result (flat_map section_text sections.now) (W.state sink.old) (W.state sink.new) }
{
    for section in sections {
        write_section(section, sink)?;
    }
    Ok(())
}

/// Writes the text of the certificate, also of one that isn't `readable`.
pub fn write_cert<A: Allocator, W: Sink>(
    certificate: &Certificate<A>,
    sink: &mut W,
) -> Result<(), WriteFault>
    ensures { Wrote result (cert_text certificate.now) (W.state sink.old) (W.state sink.new) }
{
    head(certificate.nodes).write(sink)?;
    write_sections(&certificate.sections, sink)?;
    write_bytes(b"end\n", sink)
}
