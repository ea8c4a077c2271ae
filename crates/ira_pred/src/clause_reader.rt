ghost use Rattle.std.specs.Prelude.{◌≡◌, ℕ, IfOk};
ghost use Rattle.ira_event.specs.Scan.{Gives};
ghost use Rattle.ira_pred.specs.declared.rel.Rel.{Rel};
ghost use Rattle.ira_pred.specs.Clause.{formula};
ghost use Rattle.ira_pred.specs.ClauseScan.{rel_at, comparison_at, atom_at, joint_at, negated_at, joined_at, clause_at};
ghost use Rattle.ira_pred.specs.Formula.{Formula};

use crate::clause::Clause;
use crate::rel::Rel;
use ira_event::{MAX_NUMBER, scan_number, skip_word};
use std::alloc::{AllocError, Allocator};

/// A clause, and what follows it in the text.
pub(crate) type Taken<'a, A> = (Clause<A>, &'a [u8]);

/// The clause that the text begins with, nested no deeper than this.
#[cycle(clauses)]
pub(crate) fn scan_clause<'a, A: Allocator + Clone>(
    alloc: &A,
    depth: usize,
    text: &'a [u8],
) -> Result<Option<Taken<'a, A>>, AllocError>
    ensures { IfOk result (λ taken. Gives (λ t. (formula t.0, t.1.now)) taken (clause_at depth text.now)) }
{
    if depth > 0 {
        if let Some(rest) = skip_word(text, b"(not ") {
            return scan_negated(alloc, depth - 1, rest);
        }
        if let Some(rest) = skip_word(text, b"(") {
            return scan_joined(alloc, depth - 1, rest);
        }
    }
    Ok(scan_atom(text))
}

/// The negation whose first word was read.
#[cycle(clauses)]
fn scan_negated<'a, A: Allocator + Clone>(
    alloc: &A,
    depth: usize,
    text: &'a [u8],
) -> Result<Option<Taken<'a, A>>, AllocError>
    ensures { IfOk result
        (λ taken. Gives (λ t. (formula t.0, t.1.now)) taken (negated_at (clause_at depth) text.now)) }
{
    let Some((clause, rest)) = scan_clause(alloc, depth, text)? else {
        return Ok(None);
    };
    let Some(rest) = skip_word(rest, b")") else {
        return Ok(None);
    };
    let clause = Box::new(alloc.clone()?, clause)?;
    Ok(Some((Clause::Negated(clause), rest)))
}

/// The two clauses and the word between them, of which the first parenthesis was read.
#[cycle(clauses)]
fn scan_joined<'a, A: Allocator + Clone>(
    alloc: &A,
    depth: usize,
    text: &'a [u8],
) -> Result<Option<Taken<'a, A>>, AllocError>
    ensures { IfOk result
        (λ taken. Gives (λ t. (formula t.0, t.1.now)) taken (joined_at (clause_at depth) text.now)) }
{
    let Some((left, rest)) = scan_clause(alloc, depth, text)? else {
        return Ok(None);
    };
    let Some((both, rest)) = scan_joint(rest) else {
        return Ok(None);
    };
    let Some((right, rest)) = scan_clause(alloc, depth, rest)? else {
        return Ok(None);
    };
    let Some(rest) = skip_word(rest, b")") else {
        return Ok(None);
    };
    let left = Box::new(alloc.clone()?, left)?;
    let right = Box::new(alloc.clone()?, right)?;
    if both {
        return Ok(Some((Clause::Both(left, right), rest)));
    }
    Ok(Some((Clause::Either(left, right), rest)))
}

/// Whether the word between two clauses is `and`, where it isn't `or`, and what follows it.
fn scan_joint(text: &[u8]) -> Option<(bool, &[u8])>
    ensures { Gives (λ found. (found.0, found.1.now)) result (joint_at text.now) }
{
    if let Some(rest) = skip_word(text, b" and ") {
        return Some((true, rest));
    }
    let rest = skip_word(text, b" or ")?;
    Some((false, rest))
}

/// The clause without parentheses that the text begins with.
fn scan_atom<A: Allocator>(text: &[u8]) -> Option<Taken<'_, A>>
    ensures { Gives (λ t. (formula t.0, t.1.now)) result (atom_at text.now) }
{
    if let Some(rest) = skip_word(text, b"true") {
        return Some((Clause::Always, rest));
    }
    if let Some(rest) = skip_word(text, b"leader") {
        return Some((Clause::Leader, rest));
    }
    if let Some(rest) = skip_word(text, b"active") {
        return Some((Clause::Active, rest));
    }
    if let Some(rest) = skip_word(text, b"passive") {
        return Some((Clause::Passive, rest));
    }
    if let Some(rest) = skip_word(text, b"choosing") {
        return Some((Clause::Choosing, rest));
    }
    if let Some(rest) = skip_word(text, b"yielding") {
        return Some((Clause::Yielding, rest));
    }
    if let Some(rest) = skip_word(text, b"owes") {
        return Some((Clause::Owes, rest));
    }
    if let Some(rest) = skip_word(text, b"round ") {
        let (rel, n, rest) = scan_comparison(rest)?;
        return Some((Clause::Round(rel, n), rest));
    }
    if let Some(rest) = skip_word(text, b"id ") {
        let (rel, n, rest) = scan_comparison(rest)?;
        return Some((Clause::Id(rel, n), rest));
    }
    let rest = skip_word(text, b"term ")?;
    let (rel, n, rest) = scan_comparison(rest)?;
    Some((Clause::Term(rel, n), rest))
}

/// A comparison with a number that an atom may hold, and what follows it.
fn scan_comparison(text: &[u8]) -> Option<(Rel, u32, &[u8])>
    ensures { (f : Rel → ℕ → Formula)
        → Gives (λ found. (f found.0 found.1, found.2.now)) result (comparison_at f text.now) }
{
    let (rel, rest) = scan_rel(text)?;
    let (n, rest) = scan_number(rest)?;
    if n > MAX_NUMBER {
        return None;
    }
    Some((rel, n, rest))
}

/// The sign of a comparison and the space after it, and what follows them.
fn scan_rel(text: &[u8]) -> Option<(Rel, &[u8])>
    ensures { Gives (λ found. (found.0, found.1.now)) result (rel_at text.now) }
{
    if let Some(rest) = skip_word(text, b"< ") {
        return Some((Rel::Less, rest));
    }
    if let Some(rest) = skip_word(text, b"= ") {
        return Some((Rel::Equal, rest));
    }
    let rest = skip_word(text, b"> ")?;
    Some((Rel::Greater, rest))
}
