ghost use Rattle.std.specs.Prelude.{◌≡◌, ◌↔◌, ◌+◌, ◌<◌, ◌≤◌, ℕ, List, Ok, Some, IfOk, length, slice_get};
ghost use Rattle.ira_event.specs.Result.{UnlessErr};
ghost use Rattle.ira_pred.specs.Case.{Conjunct};
ghost use Rattle.ira_cert.specs.declared.section_fault.SectionFault.{SectionFault};
ghost use Rattle.ira_cert.specs.Conjuncts.{HasPlacesOf};
ghost use Rattle.ira_cert.specs.SoundSection.{IsSoundSection};
ghost use Rattle.ira_cert.specs.SectionFault.{IsSectionFault};
ghost use Rattle.ira_par.specs.Task.{AreTasksOf};
ghost use Rattle.ira_par.specs.Sections.{IsFound};

use crate::candidate_table::CandidateTable;
use crate::shares::judge_batch;
use crate::tables::{case_tables, profiled_tables};
use crate::task::Task;
use crate::unsound_section::UnsoundSection;
use ira_cert::{Profiles, Section, Verdict, case_queues, check_queues, profiled_queues};
use ira_event::{Logs, OutOfMemory};
use ira_links::Gate;
use ira_order::{HappenedBefore, Ordered};
use ira_pred::Case;
use std::alloc::Allocator;
use std::sync::Wait;
use std::thread::Threads;
use std::time::Clock;

/// With so many tables and candidates a batch is full.
const FULL: usize = 1 << 20;

/// Judges whether the section shows that no consistent cut of the logs meets the case, as `check_plain`
/// does, on up to `2^depth` threads. The verdict is the same at every depth, with every gate, and however
/// the threads are scheduled.
///
/// The steps are halved `depth` times, into `2^depth` ranges. Each is judged by itself, after the gate, which it
/// passes with its number from the left, by a thread that first makes the steps before it unjudged: so it knows what
/// they leave of each node's candidates. At depth 0 there is one range, which is judged as `check_plain` does. All
/// memory is taken before the gate is passed and before the first thread starts: the list of the candidates of each
/// node that is asked, and for each range how far each is eliminated. Where a thread can't be started, the one that
/// asked for it does the work.
pub fn check_split<R, G, A>(
    rt: &R,
    alloc: A,
    logs: &Logs<A>,
    ordered: &Ordered<'_, A>,
    case: &Case<A>,
    section: &Section<A>,
    depth: u8,
    gate: &G,
) -> Result<Verdict, OutOfMemory>
where
    R: Threads + Wait + Clock + Sync,
    G: Gate + Sync,
    A: Allocator + Clone + Send + Sync,
    requires depth { depth ≤ 4 }
    requires order { ordered.now.logs ≡ logs.now }
    requires places { HasPlacesOf logs.now case.now }
    ensures yes { UnlessErr result (record {})
        ((result ≡ Ok Verdict.Yes) ↔ IsSoundSection logs.now case.now section.now) }
    ensures no { (f : SectionFault)
        → UnlessErr result (record {})
        ((result ≡ Ok (Verdict.No f)) ↔ IsSectionFault logs.now case.now section.now f) }
{
    if depth == 0 {
        let queues = case_queues(alloc, logs, case)?;
        gate.pass(rt, 0);
        return Ok(check_queues(ordered, queues, section));
    }
    let tables = case_tables(alloc.clone()?, logs, case)?;
    let mut tasks = Vec::new(alloc.clone()?);
    tasks.push(Task { tables, section })?;
    let found = judge_batch(rt, &alloc, gate, ordered, &tasks, depth)?;
    match found {
        None => Ok(Verdict::Yes),
        Some(unsound) => Ok(Verdict::No(unsound.fault)),
    }
}

/// Finds the first section that isn't sound for the case of its number, with the profiles of the logs, place by
/// place; none where all are sound. Each is judged as by `check_split`, and what is found is the same at every
/// depth, with every gate, and however the threads are scheduled.
///
/// At depth 0 the sections are judged one by one. Else as many are judged together as have some million
/// candidates, at least one, and threads are started once for all of these: each judges the ranges of one
/// number. Each range of each section passes the gate, also of those after the first that isn't sound, up to
/// the last that is judged together with it.
pub fn split_sections<R, G, C, A>(
    rt: &R,
    alloc: A,
    profiles: &Profiles<'_, '_, A>,
    ordered: &C,
    cases: &[Case<A>],
    sections: &[Section<A>],
    depth: u8,
    gate: &G,
) -> Result<Option<UnsoundSection>, OutOfMemory>
where
    R: Threads + Wait + Clock + Sync,
    G: Gate + Sync,
    C: HappenedBefore + Sync,
    C::Alloc: Send + Sync,
    A: Allocator + Clone + Send + Sync,
    requires depth { depth ≤ 4 }
    requires order { (C.logs_of ordered.now) ≡ profiles.now }
    requires places { (k : ℕ) (case : List Conjunct) → slice_get cases.now k ≡ Some case
        → HasPlacesOf profiles.now case }
    requires number { length sections.now ≡ length cases.now }
    ensures { IfOk result (IsFound profiles.now cases.now sections.now) }
{
    if depth == 0 {
        return check_one_by_one(
            alloc,
            profiles,
            ordered,
            cases,
            sections,
            || gate.pass(rt, 0),
        );
    }
    let mut first = 0;
    while first < cases.len() {
        let batch = next_batch(&alloc, profiles, cases, sections, first)?;
        let found = judge_batch(rt, &alloc, gate, ordered, &batch, depth)?;
        if let Some(unsound) = found {
            return Ok(Some(UnsoundSection {
                section: first + unsound.section,
                fault: unsound.fault,
            }));
        }
        first += batch.len();
    }
    Ok(None)
}

/// Finds what `split_sections` does, on this thread alone. Before a section is judged, once its candidates are listed,
/// `pass` is called.
pub fn check_one_by_one<C, A, F>(
    alloc: A,
    profiles: &Profiles<'_, '_, A>,
    ordered: &C,
    cases: &[Case<A>],
    sections: &[Section<A>],
    pass: F,
) -> Result<Option<UnsoundSection>, OutOfMemory>
where
    C: HappenedBefore,
    A: Allocator + Clone,
    F: Fn(),
    requires order { (C.logs_of ordered.now) ≡ profiles.now }
    requires places { (k : ℕ) (case : List Conjunct) → slice_get cases.now k ≡ Some case
        → HasPlacesOf profiles.now case }
    requires number { length sections.now ≡ length cases.now }
    requires pass { F.IsAlwaysCallable pass }
    ensures { IfOk result (IsFound profiles.now cases.now sections.now) }
{
    let nodes = ordered.logs().size();
    for section in 0..cases.len() {
        let queues = profiled_queues(alloc.clone()?, nodes, profiles, &cases[section])?;
        pass();
        if let Verdict::No(fault) = check_queues(ordered, queues, &sections[section]) {
            return Ok(Some(UnsoundSection { section, fault }));
        }
    }
    Ok(None)
}

/// The sections that are judged together, from this one on.
fn next_batch<'t, 's, A: Allocator + Clone>(
    alloc: &A,
    profiles: &'t Profiles<'_, '_, A>,
    cases: &[Case<A>],
    sections: &'s [Section<A>],
    first: usize,
) -> Result<Vec<Task<'t, 's, A>, A>, OutOfMemory>
    requires places { (k : ℕ) (case : List Conjunct) → slice_get cases.now k ≡ Some case
        → HasPlacesOf profiles.now case }
    requires number { length sections.now ≡ length cases.now }
    requires first { first < length cases.now }
    ensures some { IfOk result (λ batch. 0 < length batch.items) }
    ensures tasks { IfOk result (λ batch. AreTasksOf profiles.now cases.now sections.now first batch.items) }
    ensures room { IfOk result (λ batch. first + length batch.items ≤ length cases.now) }
{
    let mut batch = Vec::new(alloc.clone()?);
    let mut entries = 0usize;
    for number in first..cases.len() {
        let tables = profiled_tables(alloc.clone()?, profiles, &cases[number])?;
        let section = &sections[number];
        entries = entries.saturating_add(entries_of(&tables));
        batch.push(Task { tables, section })?;
        if entries >= FULL {
            return Ok(batch);
        }
    }
    Ok(batch)
}

/// How many tables there are, and candidates in them.
fn entries_of<A: Allocator>(tables: &[CandidateTable<'_, A>]) -> usize {
    let mut count = tables.len();
    for table in tables {
        count = count.saturating_add(table.len());
    }
    count
}
