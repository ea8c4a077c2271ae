ghost use Rattle.std.specs.Prelude.{◌≡◌, ◌+◌, ◌<◌, ◌≤◌, ◌*◌, MatchOption, Some, length, slice_get};
ghost use Rattle.ira_cert.specs.Conjuncts.{IsAsked};
ghost use Rattle.ira_event.specs.Scan.{Gives};
ghost use Rattle.ira_pred.specs.Case.{Conjunct};
ghost use Rattle.ira_pred.specs.Limits.{MAX_CASES};
ghost use Rattle.ira_pred.specs.QuestionScan.{place_at};
ghost use Rattle.ira_view_explain_question.specs.AskedLines.{IsClauseOf, clause_line};

use ira_event::{scan_number, skip_word};
use ira_pred::Case;
use std::alloc::Allocator;

/// How many lines stand in front of the first case or section of a text.
pub(crate) const HEAD_LINES: usize = 2;

/// The place that a line begins with, and what follows the colon and the space after it.
pub(crate) fn scan_place(line: &[u8]) -> Option<(u32, &[u8])>
    ensures { Gives (λ placed. (placed.0, placed.1.now)) result (place_at line.now) }
{
    let (place, rest) = scan_number(line)?;
    Some((place, skip_word(rest, b": ")?))
}

/// The clause that a line of a question's text spells: what stands after its place, or all of it where it has none.
pub(crate) fn clause_of(line: &[u8]) -> &[u8]
    ensures { IsClauseOf line.now result.now }
{
    match scan_place(line) {
        Some((_, clause)) => clause,
        None => line,
    }
}

/// The line of the first clause of the case of a number, in the text of a question.
pub(crate) fn first_line<A: Allocator>(cases: &[Case<A>], number: usize) -> usize
    requires { (number < length cases.now) × (length cases.now ≤ MAX_CASES) }
    ensures value { result ≡ clause_line cases.now number 0 }
    ensures small { result ≤ 256 * MAX_CASES + 4 }
{
    let mut line = HEAD_LINES + 2;
    for case in &cases[..number] {
        line += case.len() + 1;
    }
    line
}

/// The number of the clause that a case asks of a place, counted from 0.
pub(crate) fn clause_at<A: Allocator>(case: &Case<A>, place: u8) -> Option<usize>
    ensures { MatchOption result (¬ (IsAsked case.now place))
        (λ n. (c : Conjunct) × (slice_get case.now n ≡ Some c) × (c.place ≡ place)) }
{
    for n in 0..case.len() {
        if case.place(n) == place {
            return Some(n);
        }
    }
    None
}

/// The greatest place that a case asks.
pub(crate) fn last_place<A: Allocator>(case: &Case<A>) -> u8 {
    match case.len().checked_sub(1) {
        Some(last) => case.place(last),
        None => 0,
    }
}
