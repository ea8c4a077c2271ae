ghost use Rattle.std.specs.Prelude.{◌≡◌, ◌+◌, ◌<◌, ◌≤◌, ◌++◌, length};
ghost use Rattle.ira_event.specs.FaultWords.{said_text};
ghost use Rattle.ira_event.specs.Limits.{MAX_LINE};
ghost use Rattle.ira_event.specs.Sink.{Wrote};
ghost use Rattle.ira_audit.specs.Report.{IsReportable, numbered, reason_words, receipt_words, report_line};

use crate::answer::Answer;
use crate::reason::Reason;
use ira_cert::{SectionFault, Unsound};
use ira_event::{FaultWords, Line, LogFault, Sink, WriteFault, write_bytes};
use ira_node::StepFault;
use ira_order::MatchFault;

/// Adds words, and a number after them.
fn add_numbered(line: &mut Line, words: &str, n: u64)
    requires { length line.old + length words.now + 20 ≤ MAX_LINE }
    ensures text { line.new ≡ line.old ++ numbered words.now n }
    ensures len { length line.new ≤ length line.old + length words.now + 20 }
{
    line.add(words.as_bytes());
    line.add_count(n);
}

/// These words alone.
fn words_line(words: &str) -> Line
    requires { length words.now < MAX_LINE }
    ensures { result ≡ words.now }
{
    let mut line = Line::new();
    line.add(words.as_bytes());
    line
}

/// These words, and then what is said of a fault.
fn said_line(before: &str, said: &FaultWords) -> Line
    requires { length before.now + length said.now.words ≤ 80 }
    ensures text { result ≡ before.now ++ said_text said.now }
    ensures room { length result < MAX_LINE }
{
    let mut line = words_line(before);
    said.add_to(&mut line);
    line
}

fn log_line(number: usize, fault: LogFault) -> Line
    ensures text { result ≡ reason_words (Reason.Log number fault) }
    ensures room { length result < MAX_LINE }
{
    let mut line = Line::new();
    add_numbered(&mut line, "no: log ", number as u64);
    line.add(b": ");
    fault.words().add_to(&mut line);
    line
}

/// That something is wrong with receipt k of the link, which the words say.
fn receipt_line(link: u8, k: u32, words: &str) -> Line
    requires { length words.now ≤ 20 }
    ensures text { result ≡ receipt_words link k words.now }
    ensures room { length result < MAX_LINE }
{
    let mut line = Line::new();
    add_numbered(&mut line, "no: link ", u64::from(link));
    add_numbered(&mut line, ": receipt ", u64::from(k));
    line.add(b" ");
    line.add(words.as_bytes());
    line
}

fn match_line(fault: MatchFault) -> Line
    ensures text { result ≡ reason_words (Reason.Match fault) }
    ensures room { length result < MAX_LINE }
{
    match fault {
        MatchFault::NoSending { link, k } => receipt_line(link, k, fault.words()),
        MatchFault::Differs { link, k } => receipt_line(link, k, fault.words()),
    }
}

fn replay_line(place: u8, position: u32, fault: StepFault) -> Line
    ensures text { result ≡ reason_words (Reason.Replay place position fault) }
    ensures room { length result < MAX_LINE }
{
    let mut line = Line::new();
    add_numbered(&mut line, "no: node ", u64::from(place));
    add_numbered(&mut line, ": event ", u64::from(position));
    line.add(b": ");
    line.add(fault.words().as_bytes());
    line
}

fn sections_line(wanted: usize, found: usize) -> Line
    ensures text { result ≡ reason_words (Reason.Sections wanted found) }
    ensures room { length result < MAX_LINE }
{
    let mut line = Line::new();
    add_numbered(&mut line, "no: sections: ", wanted as u64);
    add_numbered(&mut line, " wanted, ", found as u64);
    line.add(b" found");
    line
}

fn unsound_line(case: u64, k: u64, why: Unsound) -> Line
    ensures text { result ≡ reason_words (Reason.Section case (SectionFault.Step k why)) }
    ensures room { length result < MAX_LINE }
{
    let mut line = Line::new();
    add_numbered(&mut line, "no: case ", case);
    add_numbered(&mut line, ": step ", k);
    line.add(b": ");
    line.add(why.words().as_bytes());
    line
}

fn unspent_line(case: u64, node: u8) -> Line
    ensures text { result ≡ reason_words (Reason.Section case (SectionFault.NotSpent node)) }
    ensures room { length result < MAX_LINE }
{
    let mut line = Line::new();
    add_numbered(&mut line, "no: case ", case);
    add_numbered(&mut line, ": node ", u64::from(node));
    line.add(b" not spent");
    line
}

fn section_line(case: u64, fault: SectionFault) -> Line
    ensures text { result ≡ reason_words (Reason.Section case fault) }
    ensures room { length result < MAX_LINE }
{
    match fault {
        SectionFault::Step(k, why) => unsound_line(case, k as u64, why),
        SectionFault::NotSpent(node) => unspent_line(case, node),
    }
}

/// The words of a reason: the line of its answer, without the line feed.
pub fn reason_line(reason: &Reason) -> Line
    ensures text { result ≡ reason_words reason.now }
    ensures room { length result < MAX_LINE }
{
    match *reason {
        Reason::Log { number, fault } => log_line(number, fault),
        Reason::Heads(fault) => said_line("no: heads: ", &fault.words()),
        Reason::Match(fault) => match_line(fault),
        Reason::Circle => words_line("no: circle"),
        Reason::Replay {
            place,
            position,
            fault,
        } => replay_line(place, position, fault),
        Reason::Question(fault) => said_line("no: question: ", &fault.words()),
        Reason::QuestionSize => words_line("no: question: other ring size"),
        Reason::Certificate(fault) => said_line("no: certificate: ", &fault.words()),
        Reason::CertificateSize => words_line("no: certificate: other ring size"),
        Reason::Sections { wanted, found } => sections_line(wanted, found),
        Reason::Section { case, fault } => section_line(case as u64, fault),
    }
}

/// Writes the line of an answer, in one push where the sink takes it whole: `yes`, or `no` and the reason. The reason
/// must not say that memory ran out, which is no answer.
pub fn write_report<W: Sink>(answer: &Answer, sink: &mut W) -> Result<(), WriteFault>
    requires { IsReportable answer.now }
    ensures { Wrote result (report_line answer.now) (W.state sink.old) (W.state sink.new) }
{
    match answer {
        Answer::Yes => write_bytes(b"yes\n", sink),
        Answer::No(reason) => {
            let mut line = reason_line(reason);
            line.add(b"\n");
            line.write(sink)
        }
    }
}
