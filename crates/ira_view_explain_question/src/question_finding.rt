ghost use Rattle.std.specs.Prelude.{◌≡◌, ◌≢◌, ◌<◌, ◌≤◌, ◌++◌, ℕ, List, codes, length};
ghost use Rattle.ira_event.specs.Numeral.{IsNumeral};
ghost use Rattle.ira_pred.specs.declared.ask_fault.AskFault.{AskFault};
ghost use Rattle.ira_view_explain_question.specs.QuestionFinding.{IsCasesStop, IsClauseStop, IsDepthStop, IsLineStop};
ghost use Rattle.ira_view_explain_question.specs.QuestionFinding.{IsPlaceStop, IsQuestionStop};

use crate::asked_finding::{AskedFinding, nth_line};
use crate::asked_hint::AskedHint;
use crate::asked_lines::{HEAD_LINES, scan_place};
use crate::clause_stop::{DEEP, clause_stop, is_chain};
use ira_event::{scan_number, skip_word};
use ira_pred::{AskFault, MAX_CASES, MAX_DEPTH};
use ira_view_page::{Beside, NamedText, Slip, TextStop};

/// The words that a clause without brackets begins with.
static WORDS: [&str; 10] = [
    "true", "leader", "active", "passive", "choosing", "yielding", "owes", "round", "id", "term",
];

/// The line in which the first case begins.
const FIRST_CASE: usize = HEAD_LINES + 1;

/// So many letters tell a word.
const TELLING: usize = 4;

/// Whether a text without a bracket in front has a word that stands in brackets.
fn lacks_brackets(clause: &[u8]) -> bool {
    !clause.starts_with(b"(")
        && (clause.starts_with(b"not ") || has_word(clause, b" and ") || has_word(clause, b" or "))
}

/// Whether these bytes stand in the text.
fn has_word(text: &[u8], word: &[u8]) -> bool
    requires { 0 < length word.now }
{
    text.windows(word.len()).any(|part| part == word)
}

/// The word of a clause whose first letters the text has.
fn word_begun(text: &[u8]) -> Option<&'static str> {
    for word in &WORDS {
        let letters = word.as_bytes();
        let telling = &letters[..letters.len().min(TELLING)];
        if text.starts_with(telling) {
            return Some(*word);
        }
    }
    None
}

/// Whether a word that is compared stands in front of its relation with no space between.
fn lacks_space(text: &[u8]) -> bool {
    for word in [b"round".as_slice(), b"id", b"term"] {
        if let Some([b'<' | b'=' | b'>', ..]) = skip_word(text, word) {
            return true;
        }
    }
    false
}

/// The word of a clause that the text begins with, but for capitals.
fn word_in_capitals(text: &[u8]) -> Option<&'static str> {
    for word in &WORDS {
        let Some(begun) = text.get(..word.len()) else {
            continue;
        };
        if begun.eq_ignore_ascii_case(word.as_bytes()) {
            return Some(*word);
        }
    }
    None
}

/// What of a clause stands in front of this rest of it.
fn clause_before<'a>(clause: &'a [u8], rest: &[u8]) -> &'a [u8] {
    &clause[..clause.len().saturating_sub(rest.len())]
}

/// The byte of a line at which one bracket more is open than may be.
fn deepest(line: &[u8]) -> usize
    ensures { result ≤ length line.now }
{
    let mut open = 0usize;
    for k in 0..line.len() {
        match line[k] {
            b'(' => open = open.saturating_add(1),
            b')' => open = open.saturating_sub(1),
            _ => {}
        }
        if open > MAX_DEPTH {
            return k;
        }
    }
    line.len()
}

/// A usual cause why what stands after a line's place, or after a sentence's word, is no clause, which goes on as none does with this rest.
pub(crate) fn clause_hint<'a>(
    line: &'a [u8],
    clause: &'a [u8],
    rest: &[u8],
) -> Option<AskedHint<'a>> {
    if let Some(slip) = Slip::of_format(line) {
        return Some(AskedHint::Slip(slip));
    }
    if is_chain(clause, rest) {
        return Some(AskedHint::Chain);
    }
    if lacks_brackets(clause) {
        let place = &line[..line.len().saturating_sub(clause.len())];
        return Some(AskedHint::Brackets { place, clause });
    }
    match (clause_before(clause, rest), rest) {
        ([.., b'<' | b'>'], [b'=', ..]) => return Some(AskedHint::TwoRelations),
        ([.., b'<' | b'=' | b'>'], [b'0'..=b'9', ..]) => return Some(AskedHint::Spaces),
        _ => {}
    }
    if lacks_space(rest) {
        return Some(AskedHint::Spaces);
    }
    match word_begun(rest) {
        Some(word) => Some(AskedHint::Word(word)),
        None => Some(AskedHint::Capital(word_in_capitals(rest)?)),
    }
}

/// How many digits the number has that a line begins with; all of the line where it begins with none.
fn digits_in_front(line: &[u8]) -> usize
    ensures { (place : ℕ) (digits clause : List ℕ) → line.now ≡ digits ++ codes ": " ++ clause
        → IsNumeral digits place → result ≡ length digits }
{
    match scan_number(line) {
        Some((_, rest)) => line.len().saturating_sub(rest.len()),
        None => line.len(),
    }
}

/// A usual cause why the place of a line may not stand there.
fn place_hint<'a>(file: &NamedText<'_>, number: usize) -> Option<AskedHint<'a>> {
    let (place, _) = scan_number(file.line(number))?;
    match scan_place(file.line(number.saturating_sub(1))) {
        Some((before, _)) if before == place => Some(AskedHint::OneClause),
        Some((before, _)) if before > place => Some(AskedHint::Order),
        _ => Some(AskedHint::Places {
            nodes: number_of_nodes(file)?,
        }),
    }
}

impl<'a> AskedFinding<'a> {
    /// Of a text with this fault, which is no question's.
    pub(crate) fn of_question(file: &NamedText<'a>, fault: AskFault) -> AskedFinding<'a>
        requires { fault ≢ AskFault.OutOfMemory }
        ensures { IsQuestionStop file.now.text.now fault result.stop }
    {
        match fault {
            AskFault::TooLong => return AskedFinding::new(TextStop::TooLong),
            AskFault::Head => AskedFinding::of_head(file, b"irask 1", Beside::due("`irask 1`")),
            AskFault::Line(line) => AskedFinding::of_line(file, line as usize),
            AskFault::Place(line) => AskedFinding::of_place(file, line as usize),
            AskFault::Depth(line) => AskedFinding::of_depth(file, line as usize),
            AskFault::Empty(line) => {
                let words = "the case in front of this line has no clause";
                AskedFinding::whole_line(file, line as usize, Beside::note(words))
            }
            AskFault::Cases => AskedFinding::of_cases(file),
            AskFault::Cut => AskedFinding::of_cut(file),
            AskFault::Trailing => AskedFinding::of_trailing(file),
            AskFault::OutOfMemory => unreachable!(),
        }
    }

    fn of_line(file: &NamedText<'a>, number: usize) -> AskedFinding<'a>
        ensures { IsLineStop file.now.text.now number result.stop }
    {
        let line = file.line(number);
        if number <= FIRST_CASE {
            return AskedFinding::whole_line(file, number, Beside::due("`case`")).with_slip(line);
        }
        match scan_place(line) {
            Some((_, clause)) => AskedFinding::of_clause(number, line, clause),
            None => {
                let beside = Beside::due("`case`, `end` or `PLACE: CLAUSE`");
                AskedFinding::whole_line(file, number, beside).with_slip(line)
            }
        }
    }

    /// Of a line whose clause, after the place, is none.
    fn of_clause(number: usize, line: &'a [u8], clause: &'a [u8]) -> AskedFinding<'a>
        ensures { IsClauseStop line.now number result.stop }
    {
        let stop = clause_stop(clause);
        let byte = line.len().saturating_sub(stop.rest.len());
        let hint = clause_hint(line, clause, stop.rest);
        let beside = Beside::due(stop.due.words());
        AskedFinding::new(TextStop::at(number, byte, byte, beside)).hinted(hint)
    }

    fn of_depth(file: &NamedText<'a>, number: usize) -> AskedFinding<'a>
        ensures { IsDepthStop file.now.text.now number result.stop }
    {
        let byte = deepest(file.line(number));
        AskedFinding::new(TextStop::at(number, byte, byte, Beside::note(DEEP)))
    }

    fn of_place(file: &NamedText<'a>, number: usize) -> AskedFinding<'a>
        ensures { IsPlaceStop file.now.text.now number result.stop }
    {
        let digits = digits_in_front(file.line(number));
        let beside = Beside::note("places are below N, and rise within a case");
        let stop = TextStop::at(number, 0, digits, beside);
        AskedFinding::new(stop).hinted(place_hint(file, number))
    }

    /// Of a text without a case, or with one more than a question may have.
    fn of_cases(file: &NamedText<'a>) -> AskedFinding<'a>
        ensures { IsCasesStop file.now.text.now result.stop }
    {
        if file.line(FIRST_CASE) == b"end".as_slice() {
            let words = "a `case` is due here: a question has 1 to 32,385";
            return AskedFinding::whole_line(file, FIRST_CASE, Beside::note(words));
        }
        let words = "case 32,386: a question has at most 32,385";
        let number = nth_line(file, b"case", MAX_CASES + 1);
        AskedFinding::whole_line(file, number, Beside::note(words))
    }
}

/// The number of nodes that the second line of a text names.
fn number_of_nodes(file: &NamedText<'_>) -> Option<u32> {
    let (nodes, _) = scan_number(skip_word(file.line(2), b"nodes ")?)?;
    Some(nodes)
}
