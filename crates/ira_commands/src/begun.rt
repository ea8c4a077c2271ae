ghost use Rattle.std.specs.Prelude.{◌≡◌, ◌↔◌, IfOk, IsTrue, length, map, true};
ghost use Rattle.ira_event.specs.LogText.{log_text};
ghost use Rattle.ira_audit.specs.Refusal.{MatchRefusal};
ghost use Rattle.ira_audit.specs.Report.{IsReportableReason};
ghost use Rattle.ira_mend.specs.RecordedLogs.{HasRecorded, IsRecordedReason};
ghost use Rattle.ira_view.specs.Texts.{AreFiles, texts_of};
ghost use Rattle.ira_commands.specs.Begun.{AreBegunLogs, SaysBreaksOff, bytes_of, names_of};

use ira_audit::{Answer, Reason, Refusal};
use ira_event::{LogFault, Logs, MemorySink, OutOfMemory, write_log};
use ira_mend::{RecordedLogs, greatest_beginning};
use ira_view_page::NamedText;
use std::alloc::Allocator;

/// What stands above what is said of what is left of logs.
pub(crate) const HEADING: &[u8] = b"\nWhat is left, as far as it fits together:\n\n";

/// Whether an answer is no since the text of a log breaks off, or begins with no head.
pub(crate) fn breaks_off(answer: &Answer) -> bool
    ensures { IsTrue result ↔ SaysBreaksOff answer.now }
{
    match answer {
        Answer::No(Reason::Log { fault, .. }) => {
            matches!(fault, LogFault::Cut | LogFault::TooMany | LogFault::Head)
        }
        _ => false,
    }
}

/// What is left of logs, of which these are the texts.
pub fn take_left<A: Allocator + Clone>(
    alloc: A,
    texts: &[NamedText<'_>],
) -> Result<RecordedLogs<A>, OutOfMemory>
    ensures { IfOk result (λ recorded. HasRecorded recorded (texts_of texts.now)) }
{
    let mut recorded = RecordedLogs::new(alloc);
    for file in texts {
        recorded.take(file.text)?;
    }
    Ok(recorded)
}

/// The greatest consistent beginning of what is left of the logs in these files.
pub(crate) fn begin_left<A: Allocator + Clone>(
    alloc: A,
    files: &[NamedText<'_>],
) -> Result<Logs<A>, Refusal>
    ensures { MatchRefusal result (AreBegunLogs (texts_of files.now))
        (λ r. IsRecordedReason true (texts_of files.now) r × IsReportableReason r) }
{
    let left = match take_left(alloc.clone()?, files)?.gather(true) {
        Ok(left) => left,
        Err(refusal) => return Err(refusal),
    };
    Ok(greatest_beginning(alloc, &left)?)
}

/// The texts of the logs of a ring.
pub(crate) fn log_texts<A: Allocator + Clone>(
    alloc: A,
    logs: &Logs<A>,
) -> Result<Vec<MemorySink<A>, A>, OutOfMemory>
    ensures { IfOk result (λ texts. bytes_of texts.items ≡ map log_text logs.now) }
{
    let nodes = logs.size().get();
    let mut texts = Vec::with_capacity(alloc.clone()?, usize::from(nodes))?;
    for place in 0..nodes {
        let mut text = MemorySink::new(alloc.clone()?);
        let Ok(()) = write_log(logs.log(place), &mut text) else {
            return Err(OutOfMemory);
        };
        texts.push(text)?;
    }
    Ok(texts)
}

/// These texts under the names of the files.
pub(crate) fn name_texts<'t, A: Allocator>(
    alloc: A,
    files: &'t [NamedText<'t>],
    texts: &'t [MemorySink<A>],
) -> Result<Vec<NamedText<'t>, A>, OutOfMemory>
    requires { length texts.now ≡ length files.now }
    ensures { IfOk result (λ named. AreFiles (names_of files.now) (bytes_of texts.now) named.items) }
{
    let mut named = Vec::with_capacity(alloc, files.len())?;
    for place in 0..files.len() {
        named.push(NamedText {
            name: files[place].name,
            text: texts[place].bytes(),
        })?;
    }
    Ok(named)
}
