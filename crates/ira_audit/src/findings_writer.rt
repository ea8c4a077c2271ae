ghost use Rattle.std.specs.Prelude.{codes};
ghost use Rattle.std.specs.List.{enumerate_from, flat_map};
ghost use Rattle.ira_event.specs.Sink.{Wrote};
ghost use Rattle.ira_elim.specs.declared.decided.Decided.TheVariants.{Present};
ghost use Rattle.ira_audit.specs.Findings.{AreReportable};
ghost use Rattle.ira_audit.specs.FindingsText.{absent_words, case_line, decided_line, decided_words, findings_text, found_words};
ghost use Rattle.ira_audit.specs.Report.{numbered};

use crate::answer::Answer;
use crate::findings::Findings;
use crate::report::write_report;
use ira_elim::{Cut, Decided, Found, StepCount};
use ira_event::{Sink, WriteFault, write_bytes, write_number};
use std::alloc::Allocator;

#[tactic(auto, using(ira_event::proofs::Writing::writes))]
fn write_numbered<W: Sink>(words: &[u8], n: u64, sink: &mut W) -> Result<(), WriteFault>
    ensures { Wrote result (numbered words.now n) (W.state sink.old) (W.state sink.new) }
{
    write_bytes(words, sink)?;
    write_number(n, sink)
}

#[tactic(auto, using(ira_event::proofs::Writing::writes))]
fn write_absent<W: Sink>(steps: u64, spent: u8, sink: &mut W) -> Result<(), WriteFault>
    ensures { Wrote result (absent_words steps spent) (W.state sink.old) (W.state sink.new) }
{
    write_numbered(b": absent, ", steps, sink)?;
    write_numbered(b" steps, node ", u64::from(spent), sink)?;
    write_bytes(b" spent", sink)
}

fn write_positions<W: Sink>(positions: &[u32], sink: &mut W) -> Result<(), WriteFault>
    ensures { Wrote result (flat_map (numbered (codes " ")) positions.now) (W.state sink.old)
        (W.state sink.new) }
{
    for position in positions {
        write_numbered(b" ", u64::from(*position), sink)?;
    }
    Ok(())
}

#[tactic(auto, using(ira_event::proofs::Writing::writes))]
fn write_present<A: Allocator, W: Sink>(cut: &Cut<A>, sink: &mut W) -> Result<(), WriteFault>
    ensures { Wrote result (decided_words {A = A} (Present cut.now)) (W.state sink.old) (W.state sink.new) }
{
    write_bytes(b": present at", sink)?;
    write_positions(cut.positions(), sink)
}

fn write_found<A: Allocator, W: Sink>(found: &Found<A>, sink: &mut W) -> Result<(), WriteFault>
    ensures { Wrote result (found_words found.now) (W.state sink.old) (W.state sink.new) }
{
    match found {
        Found::Absent(section) => { write_absent(section.steps.len() as u64, section.spent, sink) }
        Found::Present(cut) => write_present(cut, sink),
    }
}

#[tactic(auto, using(ira_event::proofs::Writing::writes))]
fn write_case<A: Allocator, W: Sink>(
    case: u64,
    found: &Found<A>,
    sink: &mut W,
) -> Result<(), WriteFault>
    ensures { Wrote result (case_line (case, found.now)) (W.state sink.old) (W.state sink.new) }
{
    write_numbered(b"case ", case, sink)?;
    write_found(found, sink)?;
    write_bytes(b"\n", sink)
}

/// Writes what is found of a case, with its steps counted.
fn write_counted<A: Allocator, W: Sink>(
    decided: &Decided<StepCount, A>,
    sink: &mut W,
) -> Result<(), WriteFault>
    ensures { Wrote result (decided_words decided.now) (W.state sink.old) (W.state sink.new) }
{
    match decided {
        Decided::Absent { steps, spent } => write_absent(steps.get(), *spent, sink),
        Decided::Present(cut) => write_present(cut, sink),
    }
}

#[tactic(auto, using(ira_event::proofs::Writing::writes))]
fn write_decided_case<A: Allocator, W: Sink>(
    case: u64,
    decided: &Decided<StepCount, A>,
    sink: &mut W,
) -> Result<(), WriteFault>
    ensures { Wrote result (decided_line (case, decided.now)) (W.state sink.old) (W.state sink.new) }
{
    write_numbered(b"case ", case, sink)?;
    write_counted(decided, sink)?;
    write_bytes(b"\n", sink)
}

/// Writes a line for each case of which the steps were counted.
pub(crate) fn write_decided<A: Allocator, W: Sink>(
    cases: &[Decided<StepCount, A>],
    sink: &mut W,
) -> Result<(), WriteFault>
    ensures { Wrote result (flat_map decided_line (enumerate_from 0 cases.now)) (W.state sink.old)
        (W.state sink.new) }
{
    for (case, decided) in cases.iter().enumerate() {
        write_decided_case(case as u64, decided, sink)?;
    }
    Ok(())
}

fn write_cases<A: Allocator, W: Sink>(found: &[Found<A>], sink: &mut W) -> Result<(), WriteFault>
    ensures { Wrote result (flat_map case_line (enumerate_from 0 found.now)) (W.state sink.old)
        (W.state sink.new) }
{
    for (case, found) in found.iter().enumerate() {
        write_case(case as u64, found, sink)?;
    }
    Ok(())
}

/// Writes the lines of findings: for a refusal that of its reason, as `write_report` does, else one for each
/// case. The reason must not say that memory ran out.
pub fn write_findings<A: Allocator, W: Sink>(
    findings: &Findings<A>,
    sink: &mut W,
) -> Result<(), WriteFault>
    requires { AreReportable findings.now }
    ensures { Wrote result (findings_text findings.now) (W.state sink.old) (W.state sink.new) }
{
    match findings {
        Findings::Refused(reason) => write_report(&Answer::No(*reason), sink),
        Findings::Cases { nodes: _, found } => write_cases(found, sink),
    }
}
