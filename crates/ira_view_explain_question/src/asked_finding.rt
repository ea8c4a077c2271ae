ghost use Rattle.std.specs.Prelude.{◌≡◌, ◌<◌, ◌≤◌, ◌+◌};
ghost use Rattle.ira_view_page.specs.Lines.{whole_lines};
ghost use Rattle.ira_view_page.specs.TextStop.{IsCutStop, IsWholeLine};
ghost use Rattle.ira_view_explain_question.specs.AskedFinding.{IsHeadStop, IsInHead, IsTrailingStop, last_line};
ghost use Rattle.ira_view_explain_question.specs.SaidLines.{IsNthLine};

use crate::asked_hint::AskedHint;
use crate::asked_lines::HEAD_LINES;
use ira_view_page::{Beside, NamedText, Slip, TextStop, split_line};

/// Why a text is no question's or no certificate's.
#[derive(Drop)]
pub(crate) struct AskedFinding<'a> {
    pub(crate) stop: TextStop,
    /// Whether a line of a section, or outside of one, is due.
    pub(crate) is_section_line: bool,
    pub(crate) hint: Option<AskedHint<'a>>,
}

/// The number of the line, after the head, which is the `k`-th that is this word; of the line after all whole ones,
/// where fewer are.
pub(crate) fn nth_line(file: &NamedText<'_>, word: &[u8], k: usize) -> usize
    requires { 0 < k }
    ensures nth { IsNthLine file.now.text.now word.now k result }
    ensures within { result ≤ whole_lines file.now.text.now + 3 }
{
    let mut rest = file.from_line(HEAD_LINES + 1);
    let mut found = 0usize;
    let mut number = HEAD_LINES + 1;
    for _ in 0..file.whole_lines() {
        let Some((line, after)) = split_line(rest) else {
            break;
        };
        if line == word {
            found += 1;
        }
        if found == k {
            break;
        }
        number += 1;
        rest = after;
    }
    number
}

impl<'a> AskedFinding<'a> {
    /// That a text shows it there.
    pub(crate) fn new(stop: TextStop) -> AskedFinding<'a>
        ensures { result.stop ≡ stop }
    {
        AskedFinding {
            stop,
            is_section_line: false,
            hint: None,
        }
    }

    /// All of a line of this number.
    pub(crate) fn whole_line(
        file: &NamedText<'a>,
        number: usize,
        beside: Beside,
    ) -> AskedFinding<'a>
        ensures { IsWholeLine file.now.text.now number beside result.stop }
    {
        AskedFinding::new(TextStop::whole_line(file, number, beside))
    }

    /// With this hint.
    pub(crate) fn hinted(self, hint: Option<AskedHint<'a>>) -> AskedFinding<'a>
        ensures { result.stop ≡ self.entry.stop }
    {
        AskedFinding { hint, ..self }
    }

    /// With what the file's format does to this line as the hint.
    pub(crate) fn with_slip(self, line: &[u8]) -> AskedFinding<'a>
        ensures { result.stop ≡ self.entry.stop }
    {
        match Slip::of_format(line) {
            Some(slip) => self.hinted(Some(AskedHint::Slip(slip))),
            None => self,
        }
    }

    /// Of a text without the head whose first line is this word, where that is due.
    pub(crate) fn of_head(file: &NamedText<'a>, first: &[u8], beside: Beside) -> AskedFinding<'a>
        ensures { IsHeadStop file.now.text.now first.now beside result.stop }
    {
        if file.line(1) == first {
            AskedFinding::of_head_line(file, 2, Beside::due("`nodes N` with N from 2 to 255"))
        } else {
            AskedFinding::of_head_line(file, 1, beside)
        }
    }

    /// Of a text whose line of this number isn't as the head's is, or isn't there.
    fn of_head_line(file: &NamedText<'a>, number: usize, beside: Beside) -> AskedFinding<'a>
        ensures { IsInHead file.now.text.now number beside result.stop }
    {
        let whole = file.whole_lines();
        if number > whole {
            return AskedFinding::new(TextStop::ShortHead(whole, None));
        }
        AskedFinding::whole_line(file, number, beside).with_slip(file.line(number))
    }

    /// Of a text that ends before a whole end line.
    pub(crate) fn of_cut(file: &NamedText<'a>) -> AskedFinding<'a>
        ensures { IsCutStop file.now.text.now last_line result.stop }
    {
        let last = Beside::note("the last line; `end` is due after it");
        AskedFinding::new(TextStop::of_cut(file, last))
    }

    /// Of a text that goes on after the end line, which is the first that says `end`.
    pub(crate) fn of_trailing(file: &NamedText<'a>) -> AskedFinding<'a>
        ensures { IsTrailingStop file.now.text.now result.stop }
    {
        AskedFinding::new(TextStop::after_end(file, nth_line(file, b"end", 1)))
    }
}
