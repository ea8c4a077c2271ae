//! Certificates that are kept in files.

use crate::fakes::{MemoryShelf, NEVER};
use ira_cert_text::{Certificate, Section};
use ira_event::RingSize;
use ira_main::keep_cert;
use ira_main_files::{TextBuffer, TextSource};
use std::alloc::Global;
use std::process::Abort;
use std::test::Fail;
use test_refusing::FailingSink;

/// Keeps the certificate on a shelf without files, and compares the status and what was said. It gives the shelf.
fn assert_kept(
    rt: &(impl Abort + AllocGlobal),
    certificate: &Certificate<Global>,
    status: u8,
    line: &str,
) -> MemoryShelf<'static> {
    let mut shelf = MemoryShelf::new(rt.alloc(), &[]);
    let mut on_err = FailingSink::new(rt.alloc(), NEVER);
    let found = keep_cert(certificate, "c", &mut shelf, &mut on_err);
    assert_eq!(rt; on_err.bytes(), line.as_bytes());
    assert_eq!(rt; found, status);
    shelf
}

#[test]
fn certificates_at_the_limit(rt: HostRuntime) -> Result<(), Fail> {
    let mut sections = Vec::new(rt.alloc());
    for _ in 0..32_386 {
        sections.push(Section {
            steps: Vec::new(rt.alloc()),
            spent: 0,
        })?;
    }
    let nodes = RingSize::new(2).ok_or("a ring of that size")?;
    let mut certificate = Certificate { nodes, sections };
    let line = "ira: certificate past the limits\n";
    let shelf = assert_kept(&rt, &certificate, 2, line);
    assert!(rt; shelf.has_written(&[]));
    assert!(rt; certificate.sections.pop().is_some());
    let mut text = TextBuffer::new(rt.alloc());
    assert_kept(&rt, &certificate, 0, "").read("c", &mut text)?;
    // the head, 32,385 sections of 16 bytes, and the last line
    assert_eq!(rt; text.bytes().len(), 17 + 32_385 * 16 + 4);
    Ok(())
}
