//! Answers and what is found, compared with their lines.
ghost use Rattle.ira_audit.specs.Findings.{AreReportable};
ghost use Rattle.ira_audit.specs.Report.{IsReportable};

use ira_audit::{Answer, Findings, write_findings, write_report};
use ira_event::MemorySink;
use std::alloc::{Allocator, Global};

/// Whether this is the answer's line.
pub fn has_line(alloc: Global, answer: &Answer, line: &[u8]) -> bool
    requires { IsReportable answer.now }
{
    let mut sink = MemorySink::new(alloc);
    write_report(answer, &mut sink).is_ok() && sink.bytes() == line
}

/// Whether these are the lines of what is found.
pub fn has_lines<A: Allocator>(alloc: Global, findings: &Findings<A>, lines: &[u8]) -> bool
    requires { AreReportable findings.now }
{
    let mut sink = MemorySink::new(alloc);
    write_findings(findings, &mut sink).is_ok() && sink.bytes() == lines
}
