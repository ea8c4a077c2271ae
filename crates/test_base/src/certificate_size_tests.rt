use crate::samples::text_of;
use ira_cert_text::{CertFault, read_cert};
use std::alloc::Global;
use std::process::Abort;

/// What reading the text answers: the number of the sections and of the steps of the last one, or the
/// fault.
fn sizes(alloc: Global, text: &[u8]) -> Result<(usize, usize), CertFault> {
    let certificate = read_cert(alloc, text)?;
    let steps = certificate
        .sections
        .last()
        .map_or(0, |section| section.steps.len());
    Ok((certificate.sections.len(), steps))
}

/// Compares what reading the text of these parts answers, of which the second stands there so many times.
fn assert_repeated(
    rt: &(impl Abort + AllocGlobal),
    first: &[u8],
    line: &[u8],
    lines: usize,
    last: &[u8],
    wanted: Result<(usize, usize), CertFault>,
) {
    let text = text_of(rt, first, line, lines, last);
    assert_eq!(rt; sizes(rt.alloc(), &text), wanted);
}

#[test]
fn one_byte_too_long(rt: HostRuntime) {
    let longest = 67_108_864;
    assert_repeated(&rt, b"", b"x", longest + 1, b"", Err(CertFault::TooLong));
    assert_repeated(&rt, b"", b"x", longest, b"", Err(CertFault::Head));
}

#[test]
fn too_many_steps(rt: HostRuntime) {
    let head = b"ircert 1\nnodes 2\nsection\n";
    let step = b"drop 1 0 by 0 0\n";
    let steps = 1_000_000;
    assert_repeated(&rt, head, step, steps, b"spent 1\nend\n", Ok((1, steps)));
    assert_repeated(&rt, head, step, steps, b"drop \n", Err(CertFault::TooMany));
}

#[test]
fn too_many_sections(rt: HostRuntime) {
    let head = b"ircert 1\nnodes 2\n";
    let section = b"section\nspent 0\n";
    assert_repeated(&rt, head, section, 32_385, b"end\n", Ok((32_385, 0)));
    let last = b"section\n";
    assert_repeated(&rt, head, section, 32_385, last, Err(CertFault::TooMany));
}
