use crate::samples::text_of;
use ira_cert_text::{CertFault, CertStep, Certificate, Section, read_cert, write_cert};
use ira_event::{MemorySink, RingSize};
use std::alloc::Global;
use std::process::Abort;
use test_fixtures::{TWO_STEPS, two_steps};

/// A certificate of a ring of two with a section of these steps, which spends node 1.
fn one_section(alloc: Global, steps: &[CertStep]) -> Option<Certificate<Global>> {
    let nodes = RingSize::new(2)?;
    let steps = Vec::from_slice(alloc, steps).ok()?;
    let mut sections = Vec::new(alloc);
    sections.push(Section { steps, spent: 1 }).ok()?;
    Some(Certificate { nodes, sections })
}

/// Whether the certificate of one section of these steps can be read, and is written as this text.
fn is_written_as(alloc: Global, steps: &[CertStep], text: &[u8]) -> bool {
    let Some(certificate) = one_section(alloc, steps) else {
        return false;
    };
    let mut sink = MemorySink::new(alloc);
    certificate.readable() && write_cert(&certificate, &mut sink) == Ok(()) && sink.bytes() == text
}

/// Whether the text is read as the certificate of a ring of two with one section, which has these steps and spends node
/// 1.
fn is_read_as(alloc: Global, text: &[u8], steps: &[CertStep]) -> bool {
    let Ok(certificate) = read_cert(alloc, text) else {
        return false;
    };
    match certificate.sections.as_slice() {
        [section] => {
            certificate.nodes.get() == 2 && section.steps.as_slice() == steps && section.spent == 1
        }
        _ => false,
    }
}

#[test]
fn two_step_section(rt: HostRuntime) {
    assert_eq!(rt; TWO_STEPS.len(), 69);
    let is_written = is_written_as(rt.alloc(), &two_steps(), TWO_STEPS);
    assert!(rt; is_written && is_read_as(rt.alloc(), TWO_STEPS, &two_steps()));
}

/// What reading the text answers: the number of its sections, or its fault.
fn answer(alloc: Global, text: &[u8]) -> Result<usize, CertFault> {
    Ok(read_cert(alloc, text)?.sections.len())
}

fn assert_answer(rt: &(impl Abort + AllocGlobal), text: &[u8], wanted: Result<usize, CertFault>) {
    let text_len = text.len();
    let found = answer(rt.alloc(), text);
    assert!(rt; found == wanted, "{found:?} for a text of {text_len} bytes");
}

/// Compares what reading a certificate of a ring of two with these lines answers.
fn assert_lines(rt: &(impl Abort + AllocGlobal), lines: &[u8], wanted: Result<usize, CertFault>) {
    assert_answer(
        rt,
        &text_of(rt, b"ircert 1\nnodes 2\n", lines, 1, b""),
        wanted,
    );
}

#[test]
fn certificate_table(rt: HostRuntime) {
    let rows: [(&[u8], Result<usize, CertFault>); 13] = [
        (b"end\n", Ok(0)),
        (b"section\nspent 1\nend\n", Ok(1)),
        (b"section\nend\n", Err(CertFault::Line(4))),
        (b"drop 1 1 by 0 4\nend\n", Err(CertFault::Line(3))),
        (
            b"section\ndrop 2 1 by 0 4\nspent 1\nend\n",
            Err(CertFault::Range(4)),
        ),
        (
            b"section\ndrop 1 100001 by 0 4\nspent 1\nend\n",
            Err(CertFault::Range(4)),
        ),
        (
            b"section\ndrop 1 1 by 0\nspent 1\nend\n",
            Err(CertFault::Line(4)),
        ),
        (b"section\nspent 2\nend\n", Err(CertFault::Range(4))),
        (b"section\nspent 1\n", Err(CertFault::Cut)),
        (b"section\nspent 1", Err(CertFault::Cut)),
        (b"section\nspent 1\nend\nend\n", Err(CertFault::Trailing)),
        (
            b"section\ndrop 1 1 by 0 4294967300\nspent 1\nend\n",
            Err(CertFault::Range(4)),
        ),
        (
            b"section\ndrop 1 01 by 0 4\nspent 1\nend\n",
            Err(CertFault::Line(4)),
        ),
    ];
    for (lines, wanted) in rows {
        assert_lines(&rt, lines, wanted);
    }
    assert_answer(&rt, b"ircert 1\nnodes 255\nend\n", Ok(0));
    let larger = b"ircert 1\nnodes 256\nend\n";
    assert_answer(&rt, larger, Err(CertFault::Head));
}

#[test]
fn prefixes_of_two_step_section(rt: HostRuntime) {
    for n in 0..TWO_STEPS.len() {
        let wanted = if n <= 16 {
            CertFault::Head
        } else {
            CertFault::Cut
        };
        assert_answer(&rt, &TWO_STEPS[..n], Err(wanted));
    }
    let twice = text_of(&rt, b"", TWO_STEPS, 2, b"");
    assert_answer(&rt, &twice, Err(CertFault::Trailing));
}
