ghost use Rattle.std.specs.Prelude.{◌≡◌, ◌↔◌, ◌⊎◌, ℕ, Err, IfOk, IfErr, IsTrue, OnOk};
ghost use Rattle.std.specs.List.{list_any};
ghost use Rattle.ira_ring_setup.specs.declared.run_fault.RunFault.TheVariants.{Setup as SetupFault, OutOfMemory as MemoryFault};
ghost use Rattle.ira_ring_setup.specs.NodeEnd.{is_draws_spent};
ghost use Rattle.ira_ring_setup.specs.Setup.{KeepsRules};
ghost use Rattle.ira_ring_setup.specs.ShownEnd.{IsLoneRun};
ghost use Rattle.ira_ring_alone.specs.SeededRun.{seeded, IsSeeded};
ghost use Rattle.ira_ring_setup.specs.Agreement.{AreOfEachFullRun};

use crate::lone_run::run_to_end;
use ira_event::{MAX_NUMBER, MAX_RECORDS, OutOfMemory, RingSize};
use ira_ring_setup::{NodeEnd, Run, RunFault, Setup, draw_lists};
use std::alloc::Allocator;

/// How many draws of each node are made at first for each term: few, and yet an election seldom needs more.
const FIRST_DRAWS: u32 = 16;

/// Whether the setup whose nodes draw from a seed keeps the rules. Draws of a generator always do.
fn keeps_rules(nodes: RingSize, initiators: &[bool], cap: usize, terms: u32) -> bool
    ensures { (seed k : ℕ) → IsTrue result ↔ KeepsRules (seeded nodes initiators.now seed k cap terms) }
{
    (1..=MAX_RECORDS).contains(&cap)
        && (1..=MAX_NUMBER).contains(&terms)
        && initiators.len() == usize::from(nodes.get())
        && initiators.contains(&true)
}

/// The setup whose nodes are given their first `k` draws.
fn seeded_setup<A: Allocator + Clone>(
    alloc: A,
    nodes: RingSize,
    initiators: &[bool],
    seed: u64,
    k: u32,
    cap: usize,
    terms: u32,
) -> Result<Setup<A>, OutOfMemory>
    ensures { IfOk result (IsSeeded nodes initiators.now seed k cap terms) }
{
    Ok(Setup {
        nodes,
        initiators: initiators.to_vec(alloc.clone()?)?,
        draws: draw_lists(alloc, nodes, seed, k)?,
        cap,
        terms,
    })
}

/// Whether some node had to draw, and had no draw left.
fn lack_draws(ends: &[NodeEnd]) -> bool
    ensures { result ≡ list_any is_draws_spent ends.now }
{
    ends.iter().any(|end| matches!(end, NodeEnd::DrawsSpent))
}

/// A full run on one thread of a ring whose nodes are given the first `k` draws of the seed, as
/// `run_alone` gives it. `Setup` where the setup of the seed breaks the rules; nothing is taken before they
/// were looked at. Where the first few draws of each node will do, no others are made.
pub fn run_alone_seeded<A: Allocator + Clone>(
    alloc: A,
    nodes: RingSize,
    initiators: &[bool],
    seed: u64,
    k: u32,
    cap: usize,
    terms: u32,
) -> Result<Run<A>, RunFault>
    ensures rules { (result ≡ Err SetupFault) ↔ ¬ (KeepsRules (seeded nodes initiators.now seed k cap terms)) }
    ensures kept { OnOk result (KeepsRules (seeded nodes initiators.now seed k cap terms)) }
    ensures ok { IfOk result (IsLoneRun (seeded nodes initiators.now seed k cap terms)) }
    ensures only { IfOk result (λ run. AreOfEachFullRun (seeded nodes initiators.now seed k cap terms) run.logs) }
    ensures err { IfErr result (λ f. (f ≡ SetupFault) ⊎ (f ≡ MemoryFault)) }
{
    if !keeps_rules(nodes, initiators, cap, terms) {
        return Err(RunFault::Setup);
    }
    Ok(run_seeded(alloc, nodes, initiators, seed, k, cap, terms)?)
}

/// The run of a ring whose nodes draw from a seed, where its setup keeps the rules.
fn run_seeded<A: Allocator + Clone>(
    alloc: A,
    nodes: RingSize,
    initiators: &[bool],
    seed: u64,
    k: u32,
    cap: usize,
    terms: u32,
) -> Result<Run<A>, OutOfMemory>
    requires { KeepsRules (seeded nodes initiators.now seed k cap terms) }
    ensures { IfOk result (IsLoneRun (seeded nodes initiators.now seed k cap terms)) }
{
    let first = u64::from(FIRST_DRAWS) * u64::from(terms);
    if u64::from(k) > first {
        let few = seeded_setup(
            alloc.clone()?,
            nodes,
            initiators,
            seed,
            first as u32,
            cap,
            terms,
        )?;
        let run = run_to_end(alloc.clone()?, &few)?;
        if !lack_draws(run.ends()) {
            return Ok(run);
        }
    }
    let all = seeded_setup(alloc.clone()?, nodes, initiators, seed, k, cap, terms)?;
    Ok(run_to_end(alloc, &all)?)
}
