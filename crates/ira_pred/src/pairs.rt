ghost use Rattle.std.specs.Prelude.{◌≡◌, ◌<◌, ◌++◌, IfOk, OnOk};
ghost use Rattle.ira_event.specs.Limits.{MAX_NODES};
ghost use Rattle.ira_pred.specs.Pairs.{pair_case as pair, ArePairCases, cases_of_place, pairs_asked};

use crate::case::{Case, PlacedClause};
use crate::clause::Clause;
use crate::question::Question;
use ira_event::{OutOfMemory, RingSize};
use std::alloc::Allocator;

/// The case that asks whether both nodes lead.
fn pair_case<A: Allocator + Clone>(alloc: &A, i: u8, j: u8) -> Result<Case<A>, OutOfMemory>
    requires order { i < j }
    requires in_ring { j < MAX_NODES }
    ensures { IfOk result (λ case. case ≡ pair i j) }
{
    let mut clauses = Vec::with_capacity(alloc.clone()?, 2)?;
    let clause = Clause::Leader;
    clauses.push(PlacedClause { place: i, clause })?;
    let clause = Clause::Leader;
    clauses.push(PlacedClause { place: j, clause })?;
    Ok(Case::of_parts(clauses))
}

/// Adds the cases of place `i` and each later place.
fn push_pairs<A: Allocator + Clone>(
    cases: &mut Vec<Case<A>, A>,
    alloc: &A,
    i: u8,
    nodes: RingSize,
) -> Result<(), OutOfMemory>
    requires { i < nodes }
    ensures { OnOk result (cases.new.items ≡ cases.old.items ++ cases_of_place nodes i) }
{
    for j in i + 1..nodes.get() {
        cases.push(pair_case(alloc, i, j)?)?;
    }
    Ok(())
}

/// The question whether ever two nodes lead at once: a case for each pair of places, in lexicographic
/// order.
pub fn pairs_question<A: Allocator + Clone>(
    alloc: A,
    nodes: RingSize,
) -> Result<Question<A>, OutOfMemory>
    ensures value { IfOk result (λ question. question ≡ pairs_asked nodes) }
    ensures pairs { IfOk result (λ question. (question.nodes ≡ nodes) × ArePairCases nodes question.cases) }
{
    let count = usize::from(nodes.get());
    let mut cases = Vec::with_capacity(alloc.clone()?, count * (count - 1) / 2)?;
    for i in 0..nodes.get() {
        push_pairs(&mut cases, &alloc, i, nodes)?;
    }
    Ok(Question::of_parts(nodes, cases))
}
