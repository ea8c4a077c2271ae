ghost use Rattle.std.specs.Prelude.{◌≡◌, IfOk, nat_eq, option_map, string_bytes};
ghost use Rattle.std.specs.List.{find, list_any};
ghost use Rattle.json.specs.Json.{string};
ghost use Rattle.ira_view_json.specs.View.{view};
ghost use Rattle.ira_audit.specs.Findings.{is_present};
ghost use Rattle.ira_audit.specs.Report.{IsReportable};
ghost use Rattle.ira_view_json.specs.AnswerValue.{absent_members, answer_members, answer_words, decided_members, decision_word, found_members, is_met, present_members, worded_members};
ghost use Rattle.ira_view_json.specs.ExplainedFindings.{ask_value, explained_case, with_asks};
ghost use Rattle.ira_view_json.specs.Line.{IsLineOf};
ghost use Rattle.ira_view_json.specs.Object.{Holds, Puts};

use crate::object::Object;
use crate::to_value::{ToValue, list_value};
use crate::value::Value;
use ira_audit::{Answer, reason_line};
use ira_elim::{Decided, Found, StepCount};
use ira_event::{MemorySink, OutOfMemory};
use ira_view_page::{AskedCase, AskedNode};
use std::alloc::Allocator;
use std::str;

/// The line of an answer, without its line feed.
fn answer_words<A: Allocator + Clone>(alloc: &A, answer: &Answer) -> Result<Value<A>, OutOfMemory>
    ensures { IfOk result (λ value. view value ≡ string (answer_words answer.now)) }
{
    let Answer::No(reason) = answer else {
        return Ok(Value::Words("yes"));
    };
    let mut words = MemorySink::new(alloc.clone()?);
    let Ok(()) = reason_line(reason).write(&mut words) else {
        return Err(OutOfMemory);
    };
    match str::from_utf8(words.bytes()) {
        Ok(words) => Value::copied(alloc, words),
        Err(_) => unreachable!(),
    }
}

/// An answer, and the status that goes with it.
pub(crate) fn answered<A: Allocator + Clone>(alloc: A, answer: &Answer, status: u8) -> Object<A>
    requires { IsReportable answer.now }
    ensures { Holds (answer_members status answer.now) result }
{
    let mut object = Object::of(alloc, "answer");
    object.value("answer", answer_words(object.alloc(), answer));
    object.number("status", status as u64);
    object.number("version", 1);
    object
}

/// What is found for all cases, in a word.
fn decision_word(is_present: bool) -> &'static str
    ensures { result.now ≡ decision_word is_present }
{
    if is_present { "present" } else { "absent" }
}

/// Whether some case is present.
pub(crate) fn has_present<A: Allocator>(found: &[Found<A>]) -> bool
    ensures { result ≡ list_any is_present found.now }
{
    found.iter().any(|found| matches!(found, Found::Present(_)))
}

/// Whether a case is present, of which the steps were counted.
pub(crate) fn has_met<A: Allocator>(cases: &[Decided<StepCount, A>]) -> bool
    ensures { result ≡ list_any is_met cases.now }
{
    cases
        .iter()
        .any(|decided| matches!(decided, Decided::Present(_)))
}

/// What is found for all cases, and the status that goes with it.
pub(crate) fn decision<A: Allocator>(alloc: A, is_present: bool, status: u8) -> Object<A>
    ensures { Holds (worded_members (decision_word is_present) status) result }
{
    let mut object = Object::of(alloc, "answer");
    object.words("answer", decision_word(is_present));
    object.number("status", status as u64);
    object.number("version", 1);
    object
}

/// That a case is absent, by a section of so many steps that spends this node.
fn absent<A: Allocator>(alloc: A, case: u64, steps: u64, spent: u8) -> Object<A>
    ensures { Holds (absent_members case steps spent) result }
{
    let mut object = Object::of(alloc, "case");
    object.number("case", case);
    object.words("found", "absent");
    object.number("spent", spent as u64);
    object.number("steps", steps);
    object
}

/// That a case is present, at this cut.
fn present<A: Allocator + Clone>(alloc: A, case: u64, cut: &[u32]) -> Object<A>
    ensures { Holds (present_members case cut.now) result }
{
    let mut object = Object::of(alloc, "case");
    object.number("case", case);
    object.value("cut", list_value(object.alloc(), cut));
    object.words("found", "present");
    object
}

/// What is found for the case of this number.
fn found_for<A: Allocator + Clone, B: Allocator>(alloc: A, case: u64, found: &Found<B>) -> Object<A>
    ensures { Holds (found_members case found.now) result }
{
    match found {
        Found::Absent(section) => absent(alloc, case, section.steps.len() as u64, section.spent),
        Found::Present(cut) => present(alloc, case, cut.positions()),
    }
}

/// What is found for the case of this number, with its steps counted.
pub(crate) fn decided_for<A: Allocator + Clone, B: Allocator>(
    alloc: A,
    case: u64,
    decided: &Decided<StepCount, B>,
) -> Object<A>
    ensures { Holds (decided_members case decided.now) result }
{
    match decided {
        Decided::Absent { steps, spent } => absent(alloc, case, steps.get(), *spent),
        Decided::Present(cut) => present(alloc, case, cut.positions()),
    }
}

impl<B: Allocator> ToValue for AskedNode<B> {
    ghost json = { ask_value };

    fn to_value<A: Allocator + Clone>(&self, alloc: &A) -> Result<Value<A>, OutOfMemory> {
        let mut object = Object::new(alloc.clone()?);
        object.number("node", self.node as u64);
        object.string("clause", &self.clause);
        object.number("line", self.line as u64);
        object.finish()
    }
}

/// The case of this number, where it is one of those that are explained.
fn asked_case<A: Allocator>(explained: &[AskedCase<A>], number: u64) -> Option<&AskedCase<A>>
    ensures { option_map (λ asked. asked.now) result ≡ find (λ asked. nat_eq asked.number number) explained.now }
{
    explained.iter().find(|asked| asked.number as u64 == number)
}

impl<A: Allocator + Clone> Object<A> {
    /// Puts what a case asks, where it is one that is explained.
    fn asks<B: Allocator>(&mut self, asked: Option<&AskedCase<B>>)
        ensures { Puts (with_asks (option_map (λ asked. asked.now) asked.entry)) self.old self.new }
    {
        if let Some(asked) = asked {
            self.value("asks", list_value(self.alloc(), &asked.asks));
        }
    }
}

/// The line of what is found for the case of this number; and what it asks, where it is one of those that are explained.
pub(crate) fn case_line<A: Allocator + Clone, B: Allocator, C: Allocator>(
    alloc: A,
    case: u64,
    found: &Found<C>,
    explained: &[AskedCase<B>],
) -> Result<String<A>, OutOfMemory>
    ensures { IfOk result (λ text. IsLineOf (explained_case explained.now (case, found.now)) (string_bytes text)) }
{
    let mut object = found_for(alloc, case, found);
    object.asks(asked_case(explained, case));
    object.into_line()
}
