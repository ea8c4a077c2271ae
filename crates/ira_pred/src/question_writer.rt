ghost use Rattle.std.specs.List.{flat_map};
ghost use Rattle.std.specs.Prelude.{◌≡◌, ◌≤◌, ◌++◌, length, codes, decimal};
ghost use Rattle.ira_event.specs.Sink.{Wrote};
ghost use Rattle.ira_pred.specs.Clause.{formula};
ghost use Rattle.ira_pred.specs.PlacedClause.{conjunct, conjuncts};
ghost use Rattle.ira_pred.specs.QuestionText.{rel_sign, clause_text, conjunct_text, case_text, question_text};

use crate::case::{Case, PlacedClause};
use crate::clause::Clause;
use crate::question::Question;
use crate::rel::Rel;
use ira_event::{Line, RingSize, Sink, WriteFault, write_bytes};
use std::alloc::Allocator;

fn sign(rel: Rel) -> &'static [u8]
    ensures sign { result.now ≡ rel_sign rel }
    ensures short { length result.now ≡ 1 }
{
    match rel {
        Rel::Less => b"<",
        Rel::Equal => b"=",
        Rel::Greater => b">",
    }
}

fn comparison(word: &[u8], rel: Rel, n: u32) -> Line
    requires { length word.now ≤ 6 }
    ensures { result ≡ word.now ++ rel_sign rel ++ codes " " ++ decimal n }
{
    let mut line = Line::new();
    line.add(word);
    line.add(sign(rel));
    line.add(b" ");
    line.add_number(n);
    line
}

#[cycle(clauses)]
#[tactic(auto, using(ira_event::proofs::Writing::writes))]
fn write_joined<A: Allocator, W: Sink>(
    left: &Clause<A>,
    word: &[u8],
    right: &Clause<A>,
    sink: &mut W,
) -> Result<(), WriteFault>
    ensures { Wrote result
        (codes "(" ++ clause_text (formula left.now) ++ word.now ++ clause_text (formula right.now)
        ++ codes ")") (W.state sink.old) (W.state sink.new) }
{
    write_bytes(b"(", sink)?;
    write_clause(left, sink)?;
    write_bytes(word, sink)?;
    write_clause(right, sink)?;
    write_bytes(b")", sink)
}

#[cycle(clauses)]
#[tactic(auto, using(ira_event::proofs::Writing::writes))]
fn write_negated<A: Allocator, W: Sink>(clause: &Clause<A>, sink: &mut W) -> Result<(), WriteFault>
    ensures { Wrote result (codes "(not " ++ clause_text (formula clause.now) ++ codes ")") (W.state sink.old)
        (W.state sink.new) }
{
    write_bytes(b"(not ", sink)?;
    write_clause(clause, sink)?;
    write_bytes(b")", sink)
}

#[cycle(clauses)]
fn write_clause<A: Allocator, W: Sink>(clause: &Clause<A>, sink: &mut W) -> Result<(), WriteFault>
    ensures { Wrote result (clause_text (formula clause.now)) (W.state sink.old) (W.state sink.new) }
{
    match clause {
        Clause::Always => write_bytes(b"true", sink),
        Clause::Leader => write_bytes(b"leader", sink),
        Clause::Active => write_bytes(b"active", sink),
        Clause::Passive => write_bytes(b"passive", sink),
        Clause::Choosing => write_bytes(b"choosing", sink),
        Clause::Yielding => write_bytes(b"yielding", sink),
        Clause::Owes => write_bytes(b"owes", sink),
        Clause::Round(rel, n) => comparison(b"round ", *rel, *n).write(sink),
        Clause::Id(rel, n) => comparison(b"id ", *rel, *n).write(sink),
        Clause::Term(rel, n) => comparison(b"term ", *rel, *n).write(sink),
        Clause::Both(left, right) => write_joined(left, b" and ", right, sink),
        Clause::Either(left, right) => write_joined(left, b" or ", right, sink),
        Clause::Negated(clause) => write_negated(clause, sink),
    }
}

fn place(n: u8) -> Line
    ensures { result ≡ decimal n ++ codes ": " }
{
    let mut line = Line::new();
    line.add_number(u32::from(n));
    line.add(b": ");
    line
}

#[tactic(auto, using(ira_event::proofs::Writing::writes))]
fn write_placed<A: Allocator, W: Sink>(
    placed: &PlacedClause<A>,
    sink: &mut W,
) -> Result<(), WriteFault>
    ensures { Wrote result (conjunct_text (conjunct placed.now)) (W.state sink.old) (W.state sink.new) }
{
    place(placed.place).write(sink)?;
    write_clause(&placed.clause, sink)?;
    write_bytes(b"\n", sink)
}

fn write_all_placed<A: Allocator, W: Sink>(
    clauses: &[PlacedClause<A>],
    sink: &mut W,
) -> Result<(), WriteFault>
    ensures { Wrote result (flat_map conjunct_text (conjuncts clauses.now)) (W.state sink.old)
        (W.state sink.new) }
{
    for placed in clauses {
        write_placed(placed, sink)?;
    }
    Ok(())
}

#[tactic(auto, using(ira_event::proofs::Writing::writes))]
fn write_case<A: Allocator, W: Sink>(case: &Case<A>, sink: &mut W) -> Result<(), WriteFault>
    ensures { Wrote result (case_text case.now) (W.state sink.old) (W.state sink.new) }
{
    write_bytes(b"case\n", sink)?;
    write_all_placed(case.clauses(), sink)
}

fn write_cases<A: Allocator, W: Sink>(cases: &[Case<A>], sink: &mut W) -> Result<(), WriteFault>
    ensures { Wrote result (flat_map case_text cases.now) (W.state sink.old) (W.state sink.new) }
{
    for case in cases {
        write_case(case, sink)?;
    }
    Ok(())
}

fn head(nodes: RingSize) -> Line
    ensures { result ≡ codes "irask 1\n" ++ codes "nodes " ++ decimal nodes ++ codes "\n" }
{
    let mut line = Line::new();
    line.add(b"irask 1\nnodes ");
    line.add_number(u32::from(nodes.get()));
    line.add(b"\n");
    line
}

/// Writes the text of the question.
#[tactic(auto, using(ira_event::proofs::Writing::writes))]
pub fn write_question<A: Allocator, W: Sink>(
    question: &Question<A>,
    sink: &mut W,
) -> Result<(), WriteFault>
    ensures { Wrote result (question_text question.now) (W.state sink.old) (W.state sink.new) }
{
    head(question.nodes()).write(sink)?;
    write_cases(question.cases(), sink)?;
    write_bytes(b"end\n", sink)
}
