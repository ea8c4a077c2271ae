ghost use Rattle.std.specs.Prelude.{◌≡◌, ◌≢◌, ◌≤◌, ◌<◌, ◌+◌, ◌↔◌, ℕ, Some, IsTrue, IsSome, IfSome, All, AllPairs, length, codes};
ghost use Rattle.ira_event.specs.Scan.{Gives};
ghost use Rattle.ira_pred.specs.PlacedClause.{conjuncts};
ghost use Rattle.ira_pred.specs.QuestionLines.{ReadsFirst, ReadsInCase, ClauseFault};
ghost use Rattle.ira_pred.specs.QuestionScan.{place_at};
ghost use Rattle.ira_pred.specs.QuestionTextFault.{IsTooDeep, NextLineFault};

use crate::ask_fault::AskFault;
use crate::case::PlacedClause;
use crate::clause_reader::scan_clause;
use crate::limits::{MAX_CASES, MAX_DEPTH};
use crate::question_line::QuestionLine;
use ira_event::{line_end, scan_number, skip_word};
use std::alloc::{AllocError, Allocator};
use std::marker::Model;

/// What stands after the head of a question's text, read line by line.
#[derive(Drop)]
pub(crate) struct QuestionLines<'a> {
    rest: &'a [u8],
    number: u32,
}

impl<'a> Model for QuestionLines<'a> {
    ghost use Rattle.std.specs.Prelude.{◌≤◌, ◌+◌, length};
    ghost use Rattle.ira_pred.specs.QuestionLines.{LinesLeft};

    ghost Value = { LinesLeft };

    ghost view = { λ r. record { rest = r.rest.now; number = r.number } };

    ghost invariant = { λ r. r.number + length r.rest.now ≤ 67108864 };
}

impl<'a> QuestionLines<'a> {
    /// The lines of what stands after a head.
    pub fn new(text: &'a [u8]) -> QuestionLines<'a>
        requires { 3 + length text.now ≤ 67108864 }
        ensures { result ≡ record { rest = text.now; number = 3 } }
    {
        QuestionLines {
            rest: text,
            number: 3,
        }
    }

    fn go_on(&mut self, after: &'a [u8])
        requires { length after.now + 1 ≤ length self.old.rest }
        ensures { self.new ≡ record { rest = after.now; number = self.old.number + 1 } }
    {
        self.rest = after;
        self.number += 1;
    }

    /// Reads the line that begins the first case.
    pub fn first_case(&mut self) -> Result<(), AskFault>
        requires { self.old.number ≡ 3 }
        ensures { ReadsFirst self.old self.new result }
    {
        if let Some(lines) = skip_word(self.rest, b"case\n") {
            self.go_on(lines);
            return Ok(());
        }
        if skip_word(self.rest, b"end\n").is_some() {
            return Err(AskFault::Cases);
        }
        Err(complete(self.rest, AskFault::Line(self.number)))
    }

    /// The next line of a case that asks this so far and is after so many cases, or the fault of
    /// what follows.
    pub fn next_in_case<A: Allocator + Clone>(
        &mut self,
        alloc: &A,
        nodes: u8,
        cases: usize,
        asked: &[PlacedClause<A>],
    ) -> Result<QuestionLine<A>, AskFault>
        requires count { cases < MAX_CASES }
        requires rising { AllPairs (λ a b. a.place < b.place) (conjuncts asked.now) }
        ensures { ReadsInCase nodes
            (record {
              number = self.old.number;
              cases = cases;
              conjuncts = conjuncts asked.now;
            }) self.old self.new result }
    {
        if let Some((place, text)) = scan_place(self.rest) {
            return self.next_clause(alloc, nodes, place, text, asked);
        }
        if let Some(after) = skip_word(self.rest, b"case\n") {
            if asked.is_empty() {
                return Err(AskFault::Empty(self.number));
            }
            if cases + 1 >= MAX_CASES {
                return Err(AskFault::Cases);
            }
            self.go_on(after);
            return Ok(QuestionLine::Case);
        }
        let Some(after) = skip_word(self.rest, b"end\n") else {
            return Err(complete(self.rest, AskFault::Line(self.number)));
        };
        if asked.is_empty() {
            return Err(AskFault::Empty(self.number));
        }
        if !after.is_empty() {
            return Err(AskFault::Trailing);
        }
        Ok(QuestionLine::End)
    }

    /// The clause for the place of that number, of which the text is left.
    fn next_clause<A: Allocator + Clone>(
        &mut self,
        alloc: &A,
        nodes: u8,
        place: u32,
        text: &'a [u8],
        asked: &[PlacedClause<A>],
    ) -> Result<QuestionLine<A>, AskFault>
        requires placed { place_at self.old.rest ≡ Some (place, text.now) }
        requires rising { AllPairs (λ a b. a.place < b.place) (conjuncts asked.now) }
        ensures { (cases : ℕ)
            → ReadsInCase nodes
            (record {
              number = self.old.number;
              cases = cases;
              conjuncts = conjuncts asked.now;
            }) self.old self.new result }
    {
        let Some(place) = place_that_follows(place, nodes, asked) else {
            return Err(complete(text, AskFault::Place(self.number)));
        };
        let number = self.number;
        let taken = match scan_clause(alloc, MAX_DEPTH, text) {
            Ok(taken) => taken,
            Err(AllocError) => return Err(clause_fault(text, number, AskFault::OutOfMemory)),
        };
        let Some((clause, rest)) = taken else {
            return Err(clause_fault(text, number, AskFault::Line(number)));
        };
        let Some(after) = skip_word(rest, b"\n") else {
            return Err(clause_fault(text, number, AskFault::Line(number)));
        };
        self.go_on(after);
        Ok(QuestionLine::Clause(PlacedClause { place, clause }))
    }
}

/// The place in front of a clause, its number as it is spelled, and what follows the colon and the
/// space after it.
fn scan_place(text: &[u8]) -> Option<(u32, &[u8])>
    ensures { Gives (λ found. (found.0, found.1.now)) result (place_at text.now) }
{
    let (place, rest) = scan_number(text)?;
    let rest = skip_word(rest, b": ")?;
    Some((place, rest))
}

/// The place of that number, where a ring of so many nodes has it and it is above those asked of.
fn place_that_follows<A: Allocator>(place: u32, nodes: u8, asked: &[PlacedClause<A>]) -> Option<u8>
    requires { AllPairs (λ a b. a.place < b.place) (conjuncts asked.now) }
    ensures some { IsSome result ↔ ((place < nodes) × All (λ c. c.place < place) (conjuncts asked.now)) }
    ensures value { IfSome result (λ p. p ≡ place) }
{
    if place >= u32::from(nodes) {
        return None;
    }
    match asked.last() {
        Some(last) if place <= u32::from(last.place) => None,
        _ => Some(place as u8),
    }
}

/// The fault of a line whose first bytes show it, where the line is complete.
#[cold]
fn complete(text: &[u8], fault: AskFault) -> AskFault
    ensures { NextLineFault (λ line more g. g ≡ fault) text.now result }
{
    match line_end(text) {
        Some(_) => fault,
        None => AskFault::Cut,
    }
}

/// The fault of line `number`, of which this text follows the place: that it isn't complete, or is nested too deep, and else
/// the other.
#[cold]
fn clause_fault(text: &[u8], number: u32, other: AskFault) -> AskFault
    ensures { NextLineFault (λ line more g. ClauseFault other number line g) text.now result }
{
    let Some(end) = line_end(text) else {
        return AskFault::Cut;
    };
    let (line, _) = text.split_at(end);
    if is_too_deep(line) {
        return AskFault::Depth(number);
    }
    other
}

/// Whether some front of the text has more than `MAX_DEPTH` opening parentheses over its closing ones.
fn is_too_deep(text: &[u8]) -> bool
    ensures { IsTrue result ↔ IsTooDeep text.now }
{
    let mut opened = 0;
    let mut closed = 0;
    for byte in text {
        if *byte == b'(' {
            opened += 1;
        } else if *byte == b')' {
            closed += 1;
        }
        if opened > closed + MAX_DEPTH {
            return true;
        }
    }
    false
}
