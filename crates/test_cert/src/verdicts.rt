//! What the checkers say of a section for the first case of a question.
ghost use Rattle.std.specs.Prelude.{◌≤◌};

use ira_cert::{CertStep, Section, Verdict, check_plain};
use ira_links::Gate;
use ira_order::order;
use ira_par::check_split;
use ira_pred::read_question;
use std::alloc::Global;
use std::process::Abort;
use std::sync::Wait;
use std::thread::Threads;
use std::time::Clock;
use test_fixtures::{first_case, logs_of};

/// The plain checker's verdict.
pub(crate) fn judge(
    rt: &(impl Abort + AllocGlobal),
    texts: &[&[u8]],
    question: &[u8],
    steps: &[CertStep],
    spent: u8,
) -> Verdict {
    judged(rt.alloc(), texts, question, steps, spent).expect(rt, "a verdict")
}

/// The same, where the texts are those of a ring and of a question for it, and memory is left.
fn judged(
    alloc: Global,
    texts: &[&[u8]],
    question: &[u8],
    steps: &[CertStep],
    spent: u8,
) -> Option<Verdict> {
    let logs = logs_of(alloc, texts)?;
    let ordered = order(alloc, &logs).ok()?;
    let question = read_question(alloc, question).ok()?;
    let case = first_case(&question, &logs)?;
    let steps = steps.to_vec(alloc).ok()?;
    let section = Section { steps, spent };
    check_plain(alloc, &logs, &ordered, case, &section).ok()
}

/// The verdict at this depth, where the ranges pass this gate.
pub(crate) fn judge_split<R: Abort + AllocGlobal + Threads + Wait + Clock + Sync, G: Gate + Sync>(
    rt: &R,
    texts: &[&[u8]],
    question: &[u8],
    steps: &[CertStep],
    spent: u8,
    depth: u8,
    gate: &G,
) -> Verdict
    requires { depth ≤ 4 }
{
    judged_split(rt, texts, question, steps, spent, depth, gate).expect(rt, "a verdict")
}

/// The same, where the texts are those of a ring and of a question for it, and memory is left.
fn judged_split<R: AllocGlobal + Threads + Wait + Clock + Sync, G: Gate + Sync>(
    rt: &R,
    texts: &[&[u8]],
    question: &[u8],
    steps: &[CertStep],
    spent: u8,
    depth: u8,
    gate: &G,
) -> Option<Verdict>
    requires { depth ≤ 4 }
{
    let alloc = rt.alloc();
    let logs = logs_of(alloc, texts)?;
    let ordered = order(alloc, &logs).ok()?;
    let question = read_question(alloc, question).ok()?;
    let case = first_case(&question, &logs)?;
    let steps = steps.to_vec(alloc).ok()?;
    let section = Section { steps, spent };
    check_split(rt, alloc, &logs, &ordered, case, &section, depth, gate).ok()
}
