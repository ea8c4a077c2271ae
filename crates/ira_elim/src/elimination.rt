ghost use Rattle.std.specs.Prelude.{◌≡◌, ◌≢◌, ◌<◌, ◌≤◌, ℕ, IsTrue, List, Option, Some, [], Contains, IfOk, MatchOption, length, slice_get};
ghost use Rattle.ira_event.specs.Log.{Log};
ghost use Rattle.ira_pred.specs.Case.{Conjunct};
ghost use Rattle.ira_order.specs.Ring.{log_of};
ghost use Rattle.ira_cert_text.specs.declared.cert_step.CertStep.{CertStep};
ghost use Rattle.ira_cert.specs.Conjuncts.{HasDifferentPlaces};
ghost use Rattle.ira_cert.specs.Queues.{AreQueues};
ghost use Rattle.ira_elim.specs.Decided.{IsDecided};
ghost use Rattle.ira_elim.specs.Elimination.{AreCounted, AreQueuesOfSomeCase, AreGreatestCounts, ArePlaces, AreStands, AreWithin, HasEliminations, HasFirstLefts, IsElimination, IsFirstLeft, IsGreatestCount};
ghost use Rattle.ira_elim.specs.PairSet.{Has};
ghost use Rattle.ira_order.specs.DirectDependencies.{distance};
ghost use Rattle.ira_elim.specs.CandidateClock.{AreInLogs, AreNearest, AreStanding, HasMovedOn, HasRuledOut, HasRuledOutBy, IsNearest, KnowsNext, RulesOut, StandsUpTo};

use crate::candidate_clock::CandidateClock;
use crate::cut::Cut;
use crate::decided::Decided;
use crate::pair_set::PairSet;
use crate::step_sink::StepSink;
use ira_cand::Ahead;
use ira_cert::{CertStep, candidates_left, eliminate};
use ira_event::{Listed, OutOfMemory};
use ira_order::HappenedBefore;
use std::alloc::Allocator;

/// Decides a case of which the candidates are at hand, place by place: those of a place that the case
/// asks, and none of another. Where they come from doesn't matter; nothing but one position is kept of
/// each. The steps go where the caller says.
pub fn decide_queues<C, A, I, S>(
    alloc: A,
    ordered: &C,
    mut queues: Vec<Option<Ahead<I>>, A>,
    mut steps: S,
) -> Result<Decided<S, A>, OutOfMemory>
where
    C: HappenedBefore,
    A: Allocator + Clone,
    I: Iterator<Item = u32> + Listed + Drop,
    S: StepSink,
    requires none { S.has_taken steps [] }
    requires places { length queues.items ≤ length (C.logs_of ordered.now) }
    requires queues { AreQueuesOfSomeCase (C.logs_of ordered.now) queues.items }
    ensures { (case : List Conjunct) → HasDifferentPlaces case → AreQueues (C.logs_of ordered.now) case queues.items
        → IfOk result (λ decided. IsDecided S.has_taken (C.logs_of ordered.now) case decided) }
{
    let nodes = ordered.logs().size().get();
    let asked = asked_places(alloc.clone()?, nodes, &queues)?;
    if let Some(spent) = first_spent(&queues, &asked) {
        return Ok(Decided::Absent { steps, spent });
    }
    let nearest = nearest_places(alloc.clone()?, nodes, &asked)?;
    let mut stands = all_stands(alloc.clone()?, ordered, nodes, &queues)?;
    let mut pairs = eliminating_pairs(alloc.clone()?, &stands, &asked)?;
    'steps: while let Some(step) = next_step(&mut pairs, &mut stands, ordered, &queues) {
        steps.take(step)?;
        eliminate(&mut queues, step.node);
        let Some(position) = front(&queues, step.node) else {
            let spent = step.node;
            return Ok(Decided::Absent { steps, spent });
        };
        advance(
            &mut stands,
            &mut pairs,
            ordered,
            &asked,
            &nearest,
            step.node,
            position,
        );
    }
    let counted = all_stands(alloc.clone()?, ordered, nodes, &queues)?;
    let cut = least_cut(alloc, nodes, &counted, &asked)?;
    Ok(Decided::Present(Cut::of_positions(cut)))
}

/// The places at which there is a list.
fn asked_places<A: Allocator, I: Iterator<Item = u32> + Listed>(
    alloc: A,
    nodes: u8,
    queues: &[Option<Ahead<I>>],
) -> Result<Vec<u8, A>, OutOfMemory>
    requires { length queues.now ≤ nodes }
    ensures { IfOk result (λ asked. ArePlaces queues.now asked.items) }
{
    let mut asked = Vec::new(alloc);
    for place in 0..nodes {
        if candidates_left(queues, place).is_some() {
            asked.push(place)?;
        }
    }
    Ok(asked)
}

/// The first candidate left of the node.
fn front<I: Iterator<Item = u32> + Listed>(queues: &[Option<Ahead<I>>], place: u8) -> Option<u32>
    ensures { MatchOption result ((p : ℕ) → IsFirstLeft queues.now place p → ⊥)
        (λ p. IsFirstLeft queues.now place p) }
{
    candidates_left(queues, place)?.front()
}

/// The least asked node without a candidate left.
fn first_spent<I: Iterator<Item = u32> + Listed>(
    queues: &[Option<Ahead<I>>],
    asked: &[u8],
) -> Option<u8>
    requires { ArePlaces queues.now asked.now }
    ensures { MatchOption result (HasFirstLefts queues.now)
        (λ i. slice_get queues.now i ≡ Some (Some [])) }
{
    for place in asked {
        if front(queues, *place).is_none() {
            return Some(*place);
        }
    }
    None
}

/// For each place the asked one that comes next before it on the ring; the place itself where no other is asked.
fn nearest_places<A: Allocator>(
    alloc: A,
    nodes: u8,
    asked: &[u8],
) -> Result<Vec<u8, A>, OutOfMemory>
    requires { (i : ℕ) → Contains asked.now i → i < nodes }
    ensures { IfOk result (λ nearest. AreNearest nodes asked.now nearest.items) }
{
    let mut nearest = Vec::with_capacity(alloc, usize::from(nodes))?;
    for place in 0..nodes {
        nearest.push(nearest_place(nodes, asked, place))?;
    }
    Ok(nearest)
}

/// The asked place that comes next before this one on the ring; this one where no other is asked.
fn nearest_place(nodes: u8, asked: &[u8], place: u8) -> u8
    requires places { (i : ℕ) → Contains asked.now i → i < nodes }
    requires place { place < nodes }
    ensures { IsNearest nodes asked.now place result }
{
    let mut nearest = place;
    for other in asked {
        if links_between(nodes, *other, place) < links_between(nodes, nearest, place) {
            nearest = *other;
        }
    }
    nearest
}

/// How many links of a ring of so many nodes lead from one on to another; all where they are the same.
fn links_between(nodes: u8, from: u8, to: u8) -> u16
    requires from { from < nodes }
    requires to { to < nodes }
    ensures { result ≡ distance nodes from to }
{
    if from < to {
        u16::from(to - from)
    } else {
        u16::from(to) + u16::from(nodes) - u16::from(from)
    }
}

/// Where each node stands, place by place, with its counts there.
fn all_stands<C, A, I>(
    alloc: A,
    ordered: &C,
    nodes: u8,
    queues: &[Option<Ahead<I>>],
) -> Result<Vec<CandidateClock<A>, A>, OutOfMemory>
where
    C: HappenedBefore,
    A: Allocator + Clone,
    I: Iterator<Item = u32> + Listed,
    requires nodes { nodes ≡ length (C.logs_of ordered.now) }
    requires within { AreWithin (C.logs_of ordered.now) queues.now }
    ensures count { IfOk result (λ stands. length stands.items ≡ nodes) }
    ensures stands { IfOk result (λ stands. AreStands (C.logs_of ordered.now) queues.now stands.items) }
    ensures counted { IfOk result (λ stands. AreCounted queues.now stands.items) }
{
    let mut stands = Vec::with_capacity(alloc.clone()?, usize::from(nodes))?;
    for place in 0..nodes {
        let alloc = alloc.clone()?;
        let stand = match front(queues, place) {
            Some(position) => CandidateClock::at(alloc, ordered, place, position)?,
            None => CandidateClock::nowhere(alloc),
        };
        stands.push(stand)?;
    }
    Ok(stands)
}

/// The pairs of nodes of which the second one's first candidate left eliminates the first one's.
fn eliminating_pairs<A: Allocator>(
    alloc: A,
    stands: &[CandidateClock<A>],
    asked: &[u8],
) -> Result<PairSet<A>, OutOfMemory>
    requires { AreStanding stands.now asked.now }
    ensures { IfOk result
        (λ pairs. (i j : ℕ) → Contains asked.now i → Contains asked.now j → KnowsNext stands.now j i → Has pairs i j) }
{
    let mut pairs = PairSet::new(alloc)?;
    for other in asked {
        add_eliminated_by(&mut pairs, stands, asked, *other);
    }
    Ok(pairs)
}

/// Adds the pairs of the nodes whose first candidates left are eliminated by that of the other.
fn add_eliminated_by<A: Allocator>(
    pairs: &mut PairSet<A>,
    stands: &[CandidateClock<A>],
    asked: &[u8],
    other: u8,
)
    requires asked { AreStanding stands.now asked.now }
    requires other { Contains asked.now other }
    ensures kept { (a b : ℕ) → Has pairs.old a b → Has pairs.new a b }
    ensures added { (i : ℕ) → Contains asked.now i → KnowsNext stands.now other i → Has pairs.new i other }
{
    let counts = stands[usize::from(other)].counts();
    for node in asked {
        let index = usize::from(*node);
        if counts[index] > stands[index].position() {
            pairs.insert(*node, other);
        }
    }
}

/// The elimination of the least pair that allows one, by `node` and then by `other`; the pairs before it
/// are removed.
fn next_step<C: HappenedBefore, A: Allocator, I: Iterator<Item = u32> + Listed>(
    pairs: &mut PairSet<A>,
    stands: &mut Vec<CandidateClock<A>, A>,
    ordered: &C,
    queues: &[Option<Ahead<I>>],
) -> Option<CertStep>
    requires within { AreWithin (C.logs_of ordered.now) queues.now }
    requires stands { AreStands (C.logs_of ordered.now) queues.now stands.old.items }
    requires pairs { HasEliminations (C.logs_of ordered.now) queues.now pairs.old }
    ensures pairs { HasEliminations (C.logs_of ordered.now) queues.now pairs.new }
    ensures stands { AreStands (C.logs_of ordered.now) queues.now stands.new.items }
    ensures nodes { length stands.new.items ≡ length stands.old.items }
    ensures step { MatchOption result ((s : CertStep) → IsElimination (C.logs_of ordered.now) queues.now s → ⊥)
        (λ s. IsElimination (C.logs_of ordered.now) queues.now s) }
{
    'pairs: while let Some((node, other)) = pairs.first() {
        if let Some(step) = step_by(stands, ordered, queues, node, other) {
            return Some(step);
        }
        pairs.remove(node, other);
    }
    None
}

/// The elimination of the node's first candidate left by that of the other.
fn step_by<C: HappenedBefore, A: Allocator, I: Iterator<Item = u32> + Listed>(
    stands: &mut Vec<CandidateClock<A>, A>,
    ordered: &C,
    queues: &[Option<Ahead<I>>],
    node: u8,
    other: u8,
) -> Option<CertStep>
    requires within { AreWithin (C.logs_of ordered.now) queues.now }
    requires stands { AreStands (C.logs_of ordered.now) queues.now stands.old.items }
    ensures stands { AreStands (C.logs_of ordered.now) queues.now stands.new.items }
    ensures nodes { length stands.new.items ≡ length stands.old.items }
    ensures step { MatchOption result
        ((s : CertStep) → s.node ≡ node → s.other ≡ other → IsElimination (C.logs_of ordered.now) queues.now s → ⊥)
        (λ s. IsElimination (C.logs_of ordered.now) queues.now s) }
{
    let pos = front(queues, node)?;
    let other_pos = front(queues, other)?;
    if node == other || !stands[usize::from(other)].knows(ordered, other, node, pos) {
        return None;
    }
    Some(CertStep {
        node,
        pos,
        other,
        other_pos,
    })
}

/// Moves the node on to a position, and adds the pairs of the nodes that it eliminates there anew.
fn advance<C: HappenedBefore, A: Allocator>(
    stands: &mut Vec<CandidateClock<A>, A>,
    pairs: &mut PairSet<A>,
    ordered: &C,
    asked: &[u8],
    nearest: &[u8],
    node: u8,
    position: u32,
)
    requires asked { AreStanding stands.old.items asked.now
        × AreInLogs (C.logs_of ordered.now) stands.old.items asked.now }
    requires nearest { AreNearest (length (C.logs_of ordered.now)) asked.now nearest.now }
    requires all { HasRuledOut (C.logs_of ordered.now) stands.old.items asked.now pairs.old }
    requires node { Contains asked.now node }
    requires place { node < length (C.logs_of ordered.now) }
    requires position { position ≤ length (log_of (C.logs_of ordered.now) node) }
    requires stand { StandsUpTo (C.logs_of ordered.now) stands.old.items node position }
    ensures moved { HasMovedOn (C.logs_of ordered.now) stands.old.items stands.new.items node position }
    ensures kept { (a b : ℕ) → Has pairs.old a b → Has pairs.new a b }
    ensures added { (i : ℕ) → Contains asked.now i → RulesOut (C.logs_of ordered.now) stands.old.items node position i
        → Has pairs.new i node }
{
    if !stands[usize::from(node)].advance(ordered, node, position) {
        return;
    }
    let near = nearest[usize::from(node)];
    if knows_no_more(stands, pairs, ordered, asked, near, node, position) {
        return;
    }
    stands[usize::from(node)].refresh(ordered, node);
    add_eliminated_by(pairs, stands, asked, node);
}

/// Whether the pairs have each asked node that the node at its position rules out. What it knows of the nodes before
/// the nearest asked one came by that one; so where it doesn't rule that one out, it rules out none that the other
/// doesn't.
fn knows_no_more<C: HappenedBefore, A: Allocator>(
    stands: &[CandidateClock<A>],
    pairs: &PairSet<A>,
    ordered: &C,
    asked: &[u8],
    near: u8,
    node: u8,
    position: u32,
) -> bool
    requires asked { AreInLogs (C.logs_of ordered.now) stands.now asked.now }
    requires near { IsNearest (length (C.logs_of ordered.now)) asked.now node near }
    requires all { near ≢ node → HasRuledOutBy (C.logs_of ordered.now) stands.now asked.now pairs.now near }
    requires place { node < length (C.logs_of ordered.now) }
    requires position { position ≤ length (log_of (C.logs_of ordered.now) node) }
    ensures { IsTrue result → (i : ℕ) → Contains asked.now i
        → RulesOut (C.logs_of ordered.now) stands.now node position i → Has pairs.now i node }
{
    if near == node {
        return false;
    }
    if ordered.count(node, position, near) > stands[usize::from(near)].position() {
        return false;
    }
    has_all_of(pairs, asked, near, node)
}

/// Whether the set has all asked nodes but `node` with that one that it has with the other.
fn has_all_of<A: Allocator>(pairs: &PairSet<A>, asked: &[u8], other: u8, node: u8) -> bool
    ensures { IsTrue result → (i : ℕ) → Contains asked.now i → Has pairs.now i other → i ≢ node → Has pairs.now i node }
{
    for place in asked {
        if *place != node && pairs.has(*place, other) && !pairs.has(*place, node) {
            return false;
        }
    }
    true
}

/// The greatest of the counts at the events that led to the first candidates left, node by node.
fn least_cut<A: Allocator>(
    alloc: A,
    nodes: u8,
    stands: &[CandidateClock<A>],
    asked: &[u8],
) -> Result<Vec<u32, A>, OutOfMemory>
    requires nodes { nodes ≡ length stands.now }
    requires standing { AreStanding stands.now asked.now }
    ensures { (logs : List Log) (queues : List (Option (List ℕ))) → nodes ≡ length logs
        → ArePlaces queues asked.now → HasFirstLefts queues → AreWithin logs queues
        → AreStands logs queues stands.now → AreCounted queues stands.now
        → IfOk result (λ cut. AreGreatestCounts logs queues cut.items) }
{
    let mut cut = Vec::with_capacity(alloc, usize::from(nodes))?;
    for place in 0..nodes {
        cut.push(greatest_count(stands, asked, place))?;
    }
    Ok(cut)
}

/// The greatest of the counts of the node at the events that led to the first candidates left.
fn greatest_count<A: Allocator>(stands: &[CandidateClock<A>], asked: &[u8], place: u8) -> u32
    requires place { place < length stands.now }
    requires standing { AreStanding stands.now asked.now }
    ensures { (logs : List Log) (queues : List (Option (List ℕ))) → place < length logs
        → ArePlaces queues asked.now → HasFirstLefts queues → AreWithin logs queues
        → AreStands logs queues stands.now → AreCounted queues stands.now → IsGreatestCount logs queues place result }
{
    let mut greatest = 0;
    for other in asked {
        greatest = greatest.max(stands[usize::from(*other)].count(*other, place));
    }
    greatest
}
