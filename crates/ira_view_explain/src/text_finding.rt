ghost use Rattle.std.specs.Prelude.{◌≡◌, ◌≤◌, IfSome};
ghost use Rattle.ira_event.specs.Limits.{MAX_RECORDS};
ghost use Rattle.ira_event.specs.LogTextFault.{LogTextFault, OpeningFault};
ghost use Rattle.ira_event.specs.declared.log_fault.LogFault.{LogFault};
ghost use Rattle.ira_view_explain.specs.TextHint.{IsSo};
ghost use Rattle.ira_view_explain.specs.TextTold.{IsAtLine, IsFaultAfter, IsHeadStop, IsTextStop};
ghost use Rattle.ira_view_page.specs.Printable.{IsPrintable};

use crate::head_line::{HeadLine, number_of};
use crate::line_slip::slip_of_line;
use crate::line_stop::LineStop;
use crate::text_hint::TextHint;
use ira_event::{LogFault, MAX_NODES, MAX_RECORDS, MAX_VERSION_1_NODES, open_log};
use ira_view_page::{Among, Beside, NamedText, Remark, Slip, TextStop};

/// Why a text is no log's.
#[derive(Drop)]
pub(crate) struct TextFinding {
    pub(crate) stop: TextStop,
    /// What lines there are, where one is none of these.
    pub(crate) forms: Option<&'static str>,
    pub(crate) hint: Option<TextHint>,
}

/// What lines stand after the head of a log of this version.
fn line_forms(version: u8) -> &'static str
    ensures { IsPrintable result.now }
{
    if version == 1 {
        "Records: `draw ID`, `send ROUND ID HOP BIT`, `recv ROUND ID HOP BIT`; last line: `end COUNT`."
    } else {
        "Records: `draw ID`, `send ROUND ID HOP BIT`, `recv ROUND ID HOP BIT`, `yield`, `send reset HOP`, \
         `recv reset HOP`; last line: `end COUNT`."
    }
}

/// How many records stand in front of the first line that is none.
fn count_records(file: &NamedText<'_>) -> usize
    ensures fault { (f : LogFault) → LogTextFault file.now.text.now f → ¬ (OpeningFault file.now.text.now f)
        → IsFaultAfter file.now.text.now result f }
    ensures few { result ≤ MAX_RECORDS }
{
    match open_log(file.text) {
        Ok((_, mut records)) => {
            while let Ok(Some(_)) = records.next_event() {}
            records.count()
        }
        Err(_) => 0,
    }
}

/// A usual cause why an end line says another number than there are records.
fn count_hint(line: &[u8], records: usize) -> Option<TextHint>
    requires { records ≤ MAX_RECORDS }
    ensures { IfSome result (IsSo line.now records) }
{
    let said = number_of(line, b"end ")? as usize;
    if said > records && said <= MAX_RECORDS + 5 {
        Some(TextHint::CountedMore(said - records))
    } else {
        None
    }
}

/// A usual cause why this line isn't the one of the head that is due.
fn head_hint(due: HeadLine, line: &[u8]) -> Option<&'static str> {
    if let Some(slip) = Slip::of_format(line) {
        return Some(slip.hint());
    }
    match due {
        HeadLine::Nodes { .. } => {
            let nodes = number_of(line, b"nodes ")? as usize;
            if (MAX_VERSION_1_NODES..=MAX_NODES).contains(&nodes) {
                Some("logs of a ring of more than 64 nodes have version 2: `irlog 2`.")
            } else {
                Some("a ring has 2 to 255 nodes.")
            }
        }
        HeadLine::Place { nodes } if number_of(line, b"place ") == Some(nodes) => {
            Some("places count from 0; this one is N.")
        }
        HeadLine::Version => file_hint(line),
        HeadLine::Place { .. } | HeadLine::Start => None,
    }
}

/// A usual cause why the first line of a file is no log's.
fn file_hint(line: &[u8]) -> Option<&'static str> {
    Some(match line {
        [0xff, 0xfe, ..] | [0xfe, 0xff, ..] | [b'i', 0, b'r', 0, ..] | [0, b'i', 0, b'r', ..] => {
            "the file is UTF-16, as `>` of a Windows shell writes. Write ASCII; to mend a file: iconv -f UTF-16 \
             -t ASCII FILE"
        }
        [0x1f, 0x8b, ..] => "the file is compressed: gunzip -c FILE",
        [0, ..] if line.iter().all(|byte| *byte == 0) => {
            "the file has nothing but NUL bytes, as a power cut leaves: remove it, and the log counts as lost."
        }
        [b'i', b'r', b'l', b'o', b'g', b' ', ..] => return None,
        _ if line.windows(6).any(|part| part == b"irlog ".as_slice()) => {
            "something stands in front of the line, such as a time: a log has its lines alone."
        }
        _ => return None,
    })
}

impl TextFinding {
    /// That a text shows it there, with a usual cause.
    fn new(stop: TextStop, hint: Option<TextHint>) -> TextFinding
        ensures { result.stop ≡ stop }
    {
        TextFinding {
            stop,
            forms: None,
            hint,
        }
    }

    /// Of a text with this fault.
    pub(crate) fn find(file: &NamedText<'_>, fault: LogFault) -> TextFinding
        requires { LogTextFault file.now.text.now fault }
        ensures { IsTextStop file.now.text.now fault result.stop }
    {
        match fault {
            LogFault::TooLong => {
                let hint = "such a file is seldom a log: look at the names.";
                TextFinding::new(TextStop::TooLong, Some(TextHint::Words(hint)))
            }
            LogFault::Head => TextFinding::of_head(file),
            LogFault::Line(number) | LogFault::Range(number) => {
                TextFinding::of_line(file, number as usize)
            }
            LogFault::TooMany => {
                let hint = TextHint::Words(
                    "a log has at most 100,000 records. With all logs of the ring `ira mend --out DIR` keeps as many \
                     of each, as far as they fit together.",
                );
                let beside = Beside::note("record 100,001");
                TextFinding::new(
                    TextStop::whole_line(file, MAX_RECORDS + 5, beside),
                    Some(hint),
                )
            }
            LogFault::Cut => TextFinding::of_cut(file),
            LogFault::Count => TextFinding::of_count(file),
            LogFault::Trailing => TextFinding::of_trailing(file),
            LogFault::OutOfMemory => unreachable!(),
        }
    }

    fn of_head(file: &NamedText<'_>) -> TextFinding
        ensures { IsHeadStop file.now.text.now result.stop }
    {
        let whole = file.whole_lines();
        let due = HeadLine::first_stop(file);
        let number = due.number().min(whole + 1);
        let line = file.line(number);
        let stop = due.stop(line);
        if due.number() <= whole {
            let hint = head_hint(due, line).map(TextHint::Words);
            return TextFinding::new(TextStop::at(number, stop, stop, due.beside()), hint);
        }
        let hint = if stop == line.len() {
            Some(
                "a node that was stopped before it had written its head. With all files of the ring \
                 `ira mend --out DIR` gives it a log without events.",
            )
        } else if number == 1 {
            file_hint(line)
        } else {
            None
        };
        let stop = TextStop::ShortHead(whole, file.piece());
        TextFinding::new(stop, hint.map(TextHint::Words))
    }

    fn of_line(file: &NamedText<'_>, number: usize) -> TextFinding
        ensures { IsAtLine number result.stop }
    {
        let line = file.line(number);
        let version = open_log(file.text).map_or(1, |(head, _)| head.version);
        match LineStop::find(line, version) {
            LineStop::Due(byte, due) => {
                let slip = slip_of_line(line, byte, due, version);
                TextFinding {
                    stop: TextStop::at(number, byte, byte, due.beside(version)),
                    forms: Some(line_forms(version)),
                    hint: slip.map(|slip| TextHint::Words(slip.hint())),
                }
            }
            LineStop::Range(field, from, to) => {
                let hint = match line.get(from) {
                    Some(b'0') if line.starts_with(b"draw ") => Some(
                        "IDs count from 1: draw 1 to N.",
                    ),
                    Some(b'0') => Some(
                        "rounds, IDs and hops count from 1: add 1 to each, on both ends of the link.",
                    ),
                    _ => None,
                };
                let words = " is 1 to 1,000,000";
                let beside = Beside::new(Remark::Note, field.name(), Among::Nothing, words);
                TextFinding::new(
                    TextStop::at(number, from, to, beside),
                    hint.map(TextHint::Words),
                )
            }
        }
    }

    fn of_cut(file: &NamedText<'_>) -> TextFinding
        ensures { IsTextStop file.now.text.now LogFault.Cut result.stop }
    {
        let whole = file.whole_lines();
        let records = whole.saturating_sub(4);
        let is_end = number_of(file.line(whole + 1), b"end ").is_some_and(|count| count as usize
            == records);
        let hint = TextHint::Words(if is_end {
            "only the line feed is missing."
        } else {
            "a crash, or a file that was not closed. With all logs of the ring `ira mend --out DIR` keeps what stands \
             in each up to its last whole line, as far as it fits together."
        });
        let after = "` is due after it";
        let last = Beside::new(
            Remark::Note,
            "the last line; `end ",
            Among::Number(records),
            after,
        );
        TextFinding::new(TextStop::of_cut(file, last), Some(hint))
    }

    fn of_count(file: &NamedText<'_>) -> TextFinding
        requires { LogTextFault file.now.text.now LogFault.Count }
        ensures { IsTextStop file.now.text.now LogFault.Count result.stop }
    {
        let records = count_records(file);
        let number = records + 5;
        let line = file.line(number);
        let beside = Beside::new(Remark::Note, "the log has ", Among::Records(records), "");
        let stop = TextStop::at(number, 4, line.len(), beside);
        TextFinding::new(stop, count_hint(line, records))
    }

    fn of_trailing(file: &NamedText<'_>) -> TextFinding
        requires { LogTextFault file.now.text.now LogFault.Trailing }
        ensures { IsTextStop file.now.text.now LogFault.Trailing result.stop }
    {
        let end = count_records(file) + 5;
        let rest = file.from_line(end + 1);
        let hint = if rest.starts_with(b"irlog") {
            Some(
                "a second log follows: the file was opened to append to. Use a new file for each run.",
            )
        } else if rest == b"\n".as_slice() {
            Some("an empty line.")
        } else {
            None
        };
        TextFinding::new(TextStop::after_end(file, end), hint.map(TextHint::Words))
    }
}
