ghost use Rattle.std.specs.Prelude.{◌≡◌, ◌≤◌, ◌+◌, ℕ, List, map};
ghost use Rattle.ira_event.specs.Sink.{SinkState};
ghost use Rattle.ira_commands.specs.Pairs.{AsksPairs};
ghost use Rattle.ira_main_files.specs.Shelf.{writing_by};
ghost use Rattle.ira_main.specs.FilesRead.{Gives};
ghost use Rattle.ira_main.specs.Given.{HasNoFault};
ghost use Rattle.ira_main.specs.Outcome.{Outcome, ReportsOutcome, outcome_number};
ghost use Rattle.ira_main.specs.Progress.{ServesOrLeaves};
ghost use Rattle.ira_main.specs.Unread.{IsTold, TellsUnread, wants_json};
ghost use Rattle.ira_main.specs.Serve.{Serves, is_brief};

use crate::answer_files::answer_files;
use crate::answer_logs::answer_logs;
use crate::ask_files::ask_files;
use crate::asked_run::{record_run_alone, record_run_on_threads};
use crate::delivery::{deliver, deliver_and_keep, record_and_deliver};
use crate::draw_files::draw_files;
use crate::file_fault::Answered;
use crate::given::Inputs;
use crate::guide::print_guide;
use crate::judge_each::judge_each;
use crate::judge_files::{AskedLogs, check_files, explain_input, judge_input};
use crate::mend_files::mend_files;
use crate::program_fault::{ProgramFault, report_outcome};
use crate::progress::Progress;
use crate::show_command::show_files;
use crate::tell_unread::tell_unread;
use crate::tell_why::told_why;
use crate::upgrade_files::upgrade_files;
use crate::version::print_version;
use ira_commands::{LogsCommand, ask_pairs};
use ira_event::{MAX_TEXT, OutOfMemory, Sink};
use ira_main_cli::{
    CaseSelection, DecideRequest, EachRequest, ExplainRequest, ExplainedAnswer, FolderDetail,
    LogsRequest, QuestionSource, Request, read_words,
};
use ira_main_files::{CountingReader, Shelf};
use ira_view::{Form, Status};
use std::alloc::Allocator;
use std::io::Read;
use std::sync::Wait;
use std::thread::Threads;
use std::time::Clock;

// The question whether two nodes of a ring of so many ever lead at once.
fn pairs<A: Allocator + Clone>(alloc: A, nodes: u64) -> Result<Answered<A>, OutOfMemory>
    ensures { Gives result (AsksPairs nodes) HasNoFault }
{
    Ok(Ok(ask_pairs(alloc, nodes)?))
}

/// Whether it is told in one line what was found: for a sentence, where no JSON is wanted.
fn is_brief(decide: &DecideRequest<'_>) -> bool
    ensures { result ≡ is_brief decide.now.question decide.now.is_json }
{
    match decide.question {
        QuestionSource::File(_) => false,
        QuestionSource::Sentence(_) => !decide.is_json,
    }
}

/// Does what the words ask for, unless that waits: it leaves a check, and a run with a thread for each node. So all else is
/// done when it returns, which it does. (The threads that read logs end by themselves.)
pub fn serve_without_wait<'a, R, A, I, F, W>(
    rt: &R,
    alloc: A,
    words: &'a [&'a str],
    input: &mut CountingReader<I>,
    shelf: &mut F,
    out: &mut W,
) -> Progress<'a, A>
where
    R: AllocGlobal + Threads + Sync,
    A: Allocator + Clone + Send + Sync,
    I: Read,
    F: Shelf + Sync,
    W: Sink,
    ensures served { ServesOrLeaves A F.reads (writing_by F.creates F.closes F.keeps F.Out.state)
        (map (λ word. word.now) words.now) input.old input.new shelf.old shelf.new
        (W.state out.old) (W.state out.new) result }
    ensures reads { input.new.reads ≤ input.old.reads + (MAX_TEXT + 1) }
{
    let request = match read_words(rt.alloc(), words) {
        Ok(request) => request,
        Err(fault) => return Progress::Ended(Err(fault.into())),
    };
    match request {
        Request::OneLog => Progress::Ended(deliver(judge_input(alloc, input), out)),
        Request::Logs(
            LogsRequest {
                is_json,
                expected,
                logs,
            },
        ) => {
            let asked = AskedLogs {
                form: Form::of_json(is_json),
                expected: &expected,
                detail: FolderDetail::Line,
                is_summed: false,
            };
            Progress::Ended(answer_logs(rt, alloc, asked, &logs, shelf, out))
        }
        Request::Each(
            EachRequest {
                is_json,
                expected,
                detail,
                is_summed,
                folders,
            },
        ) => {
            let asked = AskedLogs {
                form: Form::of_json(is_json),
                expected: &expected,
                detail,
                is_summed,
            };
            Progress::Ended(judge_each(rt, alloc, asked, &folders, shelf, out))
        }
        Request::Explain(ExplainRequest { answer, is_json }) => {
            let form = Form::of_json(is_json);
            match answer {
                ExplainedAnswer::OneLog => {
                    Progress::Ended(deliver(explain_input(alloc, form, input), out))
                }
                ExplainedAnswer::Logs { expected, logs } => {
                    let asked = AskedLogs {
                        form,
                        expected: &expected,
                        detail: FolderDetail::Reasons,
                        is_summed: false,
                    };
                    Progress::Ended(answer_logs(rt, alloc, asked, &logs, shelf, out))
                }
                ExplainedAnswer::Findings { asked, logs } => {
                    let CaseSelection { question, case } = asked;
                    let command = LogsCommand::ExplainQuestion { form, case };
                    let inputs = Inputs::asking(Some(question), &logs, None);
                    Progress::Ended(deliver(answer_files(rt, alloc, command, inputs, shelf), out))
                }
                ExplainedAnswer::Certificate {
                    question,
                    certificate,
                    logs,
                } => {
                    let command = LogsCommand::ExplainCheck { form };
                    let inputs = Inputs {
                        question: Some(question),
                        certificate: Some(certificate),
                        logs: &logs,
                        made: None,
                    };
                    Progress::Ended(deliver(answer_files(rt, alloc, command, inputs, shelf), out))
                }
            }
        }
        Request::Show(show) => {
            Progress::Ended(deliver(show_files(rt, alloc, &show, shelf), out))
        }
        Request::Draw(draw) => {
            let reply = draw_files(rt, alloc, &draw, shelf);
            Progress::Ended(deliver_and_keep(reply, Some(draw.picture), shelf, out))
        }
        Request::Check(check) => Progress::Check(check),
        Request::Decide(decide) => {
            let command = LogsCommand::Decide {
                form: Form::of_json(decide.is_json),
                is_brief: is_brief(&decide),
                certify: decide.certificate.is_some(),
            };
            let question = Some(decide.question);
            let inputs = Inputs::asking(question, &decide.logs, decide.certificate);
            let reply = answer_files(rt, alloc, command, inputs, shelf);
            Progress::Ended(deliver_and_keep(reply, decide.certificate, shelf, out))
        }
        Request::Pairs(nodes) => Progress::Ended(deliver(pairs(alloc, nodes), out)),
        Request::Ask(asked) => Progress::Ended(deliver(ask_files(alloc, &asked, shelf), out)),
        Request::Run(ring) => {
            if ring.is_alone {
                let reply = record_run_alone(&alloc, &ring);
                Progress::Ended(record_and_deliver(&alloc, reply, ring.folder, shelf, out))
            } else {
                Progress::Run(ring)
            }
        }
        Request::Upgrade(upgrade) => {
            let reply = upgrade_files(rt, &alloc, &upgrade, shelf);
            Progress::Ended(record_and_deliver(&alloc, reply, upgrade.folder, shelf, out))
        }
        Request::Mend(mend) => {
            let reply = mend_files(&alloc, &mend, shelf);
            Progress::Ended(record_and_deliver(&alloc, reply, mend.folder, shelf, out))
        }
        Request::Guide(topic) => Progress::Ended(print_guide(topic, out)),
        Request::Version => Progress::Ended(print_version(out)),
    }
}

// Does what the words ask for.
fn execute<'a, R, A, I, F, W>(
    rt: &R,
    alloc: &A,
    words: &'a [&'a str],
    input: &mut CountingReader<I>,
    shelf: &mut F,
    out: &mut W,
) -> Result<Status, ProgramFault<'a, A>>
where
    R: AllocGlobal + Threads + Wait + Clock + Sync,
    A: Allocator + Clone + Send + Sync,
    I: Read,
    F: Shelf + Sync,
    W: Sink,
    ensures executed { Serves A F.reads (writing_by F.creates F.closes F.keeps F.Out.state)
        (map (λ word. word.now) words.now) input.old input.new shelf.old shelf.new
        (W.state out.old) (W.state out.new) result }
    ensures reads { input.new.reads ≤ input.old.reads + (MAX_TEXT + 1) }
{
    let waiting = alloc.clone()?;
    match serve_without_wait(rt, alloc.clone()?, words, input, shelf, out) {
        Progress::Ended(outcome) => outcome,
        Progress::Check(check) => deliver(check_files(rt, waiting, &check, shelf), out),
        Progress::Run(ring) => {
            let reply = record_run_on_threads(rt, &waiting, &ring);
            record_and_deliver(&waiting, reply, ring.folder, shelf, out)
        }
    }
}

/// The program: `words` are those after its name, `input` is its standard input, the files lie on `shelf`, and `out` and
/// `err` are its standard streams. It gives the status, which a failed write to `err` doesn't change. What each command does,
/// and which status is when, is in docs/COMMANDS.md.
///
/// Without words, and for `explain` without logs, it judges the log on `input`, of which it reads at most one byte more than
/// `MAX_TEXT`; with other words it reads nothing of it. Logs are read on threads, those of several folders are judged on
/// some, `check` judges a section on some, and a run without `--alone` has a thread for each node; all are waited for.
pub fn serve<R, A, I, F, W, V>(
    rt: &R,
    alloc: A,
    words: &[&str],
    input: &mut CountingReader<I>,
    shelf: &mut F,
    out: &mut W,
    err: &mut V,
) -> u8
where
    R: AllocGlobal + Threads + Wait + Clock + Sync,
    A: Allocator + Clone + Send + Sync,
    I: Read,
    F: Shelf + Sync,
    W: Sink,
    V: Sink,
    ensures status { result ≤ 3 }
    ensures reads { input.new.reads ≤ input.old.reads + (MAX_TEXT + 1) }
    ensures served { (outcome : Outcome A) × (told : SinkState)
        × Serves A F.reads (writing_by F.creates F.closes F.keeps F.Out.state)
        (map (λ word. word.now) words.now) input.old input.new shelf.old shelf.new
        (W.state out.old) told outcome
        × TellsUnread (wants_json (map (λ word. word.now) words.now)) outcome told (W.state out.new)
        × (result ≡ outcome_number outcome)
        × (why : List ℕ) × IsTold F.reads shelf.new outcome why
        × ReportsOutcome outcome why (V.state err.old) (V.state err.new) }
{
    let outcome = execute(rt, &alloc, words, input, shelf, out);
    let why = told_why(rt.alloc(), &alloc, words, &outcome, shelf);
    tell_unread(alloc, words, &outcome, out);
    report_outcome(outcome, why.bytes(), err)
}
