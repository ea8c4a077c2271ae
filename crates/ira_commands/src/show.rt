ghost use Rattle.std.specs.Prelude.{◌≡◌, IfOk, List, length, true, ℕ};
ghost use Rattle.ira_audit.specs.Report.{IsReportable, IsReportableReason};
ghost use Rattle.ira_audit.specs.Judged.{IsJudged};
ghost use Rattle.ira_view.specs.Html.{HasReason};
ghost use Rattle.ira_view.specs.ShownRing.{IsPageOf};
ghost use Rattle.ira_view.specs.Texts.{AreFiles, texts_of};
ghost use Rattle.ira_commands.specs.declared.logs_command.LogsCommand.TheVariants.{Show};
ghost use Rattle.ira_commands.specs.Output.{AreLinesAfter};
ghost use Rattle.ira_commands.specs.Overview.{page_form};
ghost use Rattle.ira_commands.specs.Reply.{Prints};
ghost use Rattle.ira_commands.specs.RingForm.{leaders_of, needs_files, wants_page};
ghost use Rattle.ira_commands.specs.RingLeaders.{AreDifferencesOf};
ghost use Rattle.ira_commands.specs.Show.{ComesAfter, IsLeftText, IsNotGood, IsReportableFault, PrintsLines, ShowsGood, ShowsLogs};
ghost use Rattle.ira_commands.specs.Show.{TellsFault, TellsPicture, TellsRefused, TellsRing};

use crate::begun::{HEADING, begin_left, breaks_off, log_texts, name_texts};
use crate::command_fault::CommandFault;
use crate::files::Files;
use crate::json_lines::JsonLines;
use crate::output::Output;
use crate::reply::Reply;
use crate::ring_form::{LinesForm, RingForm};
use crate::ring_leaders::RingLeaders;
use crate::ring_moment::RingMoment;
use ira_audit::{Answer, GoodLogs, Judged, Reason, Refusal, write_report};
use ira_event::{Logs, MemorySink, OutOfMemory};
use ira_view::{
    Form, RingFault, ShownRing, Status, judge_texts, refused_html, refused_lines, ring_html,
    write_view,
};
use ira_view_draw::draw_refused;
use ira_view_page::{NamedText, Page, PageText};
use ira_view_picture::{ColumnRange, DrawFault};
use std::alloc::Allocator;

/// Why there is no such moment.
fn tell_fault<A: Allocator + Clone>(
    alloc: A,
    form: Form,
    fault: RingFault,
) -> Result<Reply<A>, OutOfMemory>
    requires { IsReportableFault fault }
    ensures { IfOk result (TellsFault form fault) }
{
    match fault {
        RingFault::No(reason) => Reply::of_answer_as(alloc, form, &Answer::No(reason)),
        RingFault::Cut(fault) => Ok(Reply::refused(alloc, CommandFault::NoMoment(fault))),
        RingFault::NoCase => Ok(Reply::refused(alloc, CommandFault::NoCase)),
        RingFault::OutOfMemory => Err(OutOfMemory),
    }
}

/// What a ring looks like at its moment, after this text, the line of a yes and these lines on who leads.
fn tell_page<A: Allocator + Clone>(
    alloc: A,
    mut text: MemorySink<A>,
    ring: &ShownRing<A>,
    differences: &PageText<A>,
    status: Status,
) -> Result<Reply<A>, OutOfMemory>
    ensures { IfOk result
        (Prints (ComesAfter text.bytes (AreLinesAfter differences.now (IsPageOf ring.now))) status) }
{
    let page = ring.page(alloc)?;
    let Ok(()) = write_view(&Answer::Yes, differences.bytes(), &mut text) else {
        return Err(OutOfMemory);
    };
    let Ok(()) = page.write(&mut text) else {
        return Err(OutOfMemory);
    };
    Ok(Reply::printed(status, text))
}

/// A ring, whose logs are in files of these names, as lines, after these on who leads. Those that may be many are made as
/// they are printed.
fn tell_lines<A: Allocator + Clone>(
    alloc: A,
    lines: LinesForm<'_>,
    ring: ShownRing<A>,
    differences: PageText<A>,
    names: Vec<String<A>, A>,
) -> Result<Reply<A>, OutOfMemory>
    requires { length names.items ≡ length ring.logs }
    ensures { IfOk result (PrintsLines lines.entry ring differences) }
{
    let status = Status::of_differences(differences.bytes());
    match lines.form {
        Form::Json => {
            let named = lines.leaders.places(alloc.clone()?)?;
            let lines = JsonLines::new(alloc, ring, names, named, lines.has_events, status);
            Ok(Reply::printing(status, Output::Json(lines)))
        }
        Form::Words if lines.has_events => {
            let events = Output::Events {
                alloc,
                ring,
                differences,
            };
            Ok(Reply::printing(status, events))
        }
        Form::Words => {
            let text = MemorySink::new(alloc.clone()?);
            tell_page(alloc, text, &ring, &differences, status)
        }
    }
}

/// A picture, or a page, as a file, after the line of the answer; or why there is none.
fn tell_picture<A: Allocator + Clone>(
    alloc: A,
    answer: &Answer,
    picture: Result<PageText<A>, DrawFault>,
) -> Result<Reply<A>, OutOfMemory>
    requires { IsReportable answer.now }
    ensures { IfOk result (TellsPicture answer.now picture) }
{
    match picture {
        Ok(picture) => Ok(Reply::of_answer(alloc, answer)?.with_files(Files::Page(picture))),
        Err(DrawFault::TooManyEvents { events }) => {
            Ok(Reply::refused(alloc, CommandFault::TooManyEvents(events)))
        }
        Err(DrawFault::WrongColumns) => Ok(Reply::refused(alloc, CommandFault::WrongColumns)),
        Err(DrawFault::OutOfMemory) => Err(OutOfMemory),
    }
}

/// A picture of a ring at these columns.
fn tell_drawn<A: Allocator + Clone>(
    alloc: A,
    ring: &ShownRing<A>,
    columns: ColumnRange,
) -> Result<Reply<A>, OutOfMemory>
    ensures { IfOk result (TellsRing (RingForm.Picture columns) ring.now) }
{
    let picture = ring.picture(alloc.clone()?, columns);
    tell_picture(alloc, &Answer::Yes, picture)
}

/// A ring, whose logs are in files of these names, in a form, where lines come after these on who leads.
fn tell_ring<A: Allocator + Clone>(
    alloc: A,
    form: RingForm<'_>,
    ring: ShownRing<A>,
    differences: PageText<A>,
    names: Vec<String<A>, A>,
) -> Result<Reply<A>, OutOfMemory>
    requires names { length names.items ≡ length ring.logs }
    requires differences { AreDifferencesOf ring.logs (leaders_of form) differences }
    ensures { IfOk result (TellsRing form.entry ring) }
{
    match form {
        RingForm::Lines(lines) => tell_lines(alloc, lines, ring, differences, names),
        RingForm::Picture(columns) => tell_drawn(alloc, &ring, columns),
        RingForm::Html(columns) => {
            let page = ring_html(alloc.clone()?, &ring, &names, columns);
            tell_picture(alloc, &Answer::Yes, page)
        }
    }
}

/// The ring of good logs, which are in files of these names, in a form, at the moment that is asked for, of a question of
/// this text where it is the first of one.
fn show_good<A: Allocator + Clone>(
    alloc: A,
    form: RingForm<'_>,
    moment: &RingMoment<'_>,
    question: &[u8],
    names: Vec<String<A>, A>,
    logs: GoodLogs<A>,
) -> Result<Reply<A>, OutOfMemory>
    requires { length names.items ≡ length logs }
    ensures { IfOk result (ShowsGood form.entry moment.now question.now logs) }
{
    let Some(differences) = form.leaders().differences(alloc.clone()?, &logs)? else {
        return Ok(Reply::refused(alloc, CommandFault::NoPlace));
    };
    match moment.ring(alloc.clone()?, logs, question) {
        Ok(ring) => tell_ring(alloc, form, ring, differences, names),
        Err(fault) => tell_fault(alloc, form.of_answer(), fault),
    }
}

/// Logs of texts in these files that were judged, against which this reason stands, in a form: where a picture of them or a page
/// is asked for that, else their answer.
fn tell_refused<A: Allocator + Clone>(
    alloc: A,
    form: RingForm<'_>,
    files: &[NamedText<'_>],
    judged: &Judged<A>,
    reason: Reason,
    logs: &Logs<A>,
) -> Result<Reply<A>, OutOfMemory>
    requires reason { IsReportableReason reason × HasReason judged.now reason }
    requires files { wants_page form ≡ true
        → IsJudged (texts_of files.now) judged.now × (length files.now ≡ length logs.now) }
    ensures { (names texts : List (List ℕ)) → (wants_page form.entry ≡ true → AreFiles names texts files.now)
        → IfOk result (TellsRefused form.entry names texts judged.now reason logs.now) }
{
    let answer = Answer::No(reason);
    match form {
        RingForm::Lines(lines) => Reply::of_answer_as(alloc, lines.form, &answer),
        RingForm::Picture(columns) => {
            let refused = match judged {
                Judged::Refused(refused) => Some(refused),
                Judged::Good(_) | Judged::NoRing(_) => None,
            };
            let picture = draw_refused(alloc.clone()?, logs, reason, refused, columns);
            tell_picture(alloc, &answer, picture)
        }
        RingForm::Html(columns) => {
            let told = refused_lines(alloc.clone()?, files, judged, reason, logs)?;
            let page = refused_html(alloc.clone()?, logs, told.as_bytes(), columns);
            tell_picture(alloc, &answer, page)
        }
    }
}

/// The line of the reason why texts in these files are no ring's, and below it what these beginnings of what is left look like:
/// the line of their answer, and after a yes their ring at its end.
fn tell_left<A: Allocator + Clone>(
    alloc: A,
    reason: Reason,
    files: &[NamedText<'_>],
    begun: &Logs<A>,
) -> Result<Reply<A>, OutOfMemory>
    requires reason { IsReportableReason reason }
    requires places { length begun.now ≡ length files.now }
    ensures { IfOk result (Prints (IsLeftText reason begun.now) Status.No) }
{
    let texts = log_texts(alloc.clone()?, begun)?;
    let named = name_texts(alloc.clone()?, files, &texts)?;
    let mut text = MemorySink::new(alloc.clone()?);
    let Ok(()) = write_view(&Answer::No(reason), HEADING, &mut text) else {
        return Err(OutOfMemory);
    };
    match judge_texts(alloc.clone()?, &named)? {
        Judged::Good(logs) => {
            let none = Page::new(alloc.clone()?).finish()?;
            tell_page(alloc, text, &ShownRing::at_end(logs), &none, Status::No)
        }
        others => {
            let Ok(()) = write_report(&others.answer(), &mut text) else {
                return Err(OutOfMemory);
            };
            Ok(Reply::printed(Status::No, text))
        }
    }
}

/// Texts in these files that aren't those of good logs, in a form at a moment that is asked for: refused logs; what is left of
/// the logs of no ring, where these break off and it is shown; else the answer.
fn tell_no<A: Allocator + Clone>(
    alloc: A,
    form: RingForm<'_>,
    moment: &RingMoment<'_>,
    files: &[NamedText<'_>],
    judged: &Judged<A>,
) -> Result<Reply<A>, OutOfMemory>
    requires judged { (texts : List (List ℕ)) × IsJudged texts judged.now × IsNotGood judged.now }
    requires files { needs_files form moment.now ≡ true → IsJudged (texts_of files.now) judged.now }
    ensures { (question : List ℕ) (names texts : List (List ℕ)) → IsJudged texts judged.now
        → (needs_files form.entry moment.now ≡ true → AreFiles names texts files.now)
        → IfOk result (ShowsLogs A form.entry moment.now question names texts) }
{
    match judged {
        Judged::Good(_) => unreachable!(),
        Judged::Refused(refused) => {
            let (reason, logs) = (refused.reason(), refused.logs());
            tell_refused(alloc, form, files, judged, reason, logs)
        }
        Judged::NoRing(reason) => {
            let answer = Answer::No(*reason);
            if !form.shows_left(moment) || !breaks_off(&answer) {
                return Reply::of_answer_as(alloc, form.of_answer(), &answer);
            }
            match begin_left(alloc.clone()?, files) {
                Ok(begun) => match form {
                    RingForm::Lines(_) => tell_left(alloc, *reason, files, &begun),
                    _ => tell_refused(alloc, form, files, judged, *reason, &begun),
                },
                Err(Refusal::No(_)) => Reply::of_answer_as(alloc, form.of_answer(), &answer),
                Err(Refusal::OutOfMemory) => Err(OutOfMemory),
            }
        }
    }
}

/// The ring of logs, which are in files of these names, and where they are needed with these texts, in a form, at the moment
/// that is asked for, of a question of this text where it is the first of one.
pub(crate) fn show_ring<A: Allocator + Clone>(
    alloc: A,
    form: RingForm<'_>,
    moment: &RingMoment<'_>,
    question: &[u8],
    names: Vec<String<A>, A>,
    files: &[NamedText<'_>],
    judged: Judged<A>,
) -> Result<Reply<A>, OutOfMemory>
    requires judged { (texts : List (List ℕ)) × IsJudged texts judged × (length names.items ≡ length texts) }
    requires files { needs_files form moment.now ≡ true → IsJudged (texts_of files.now) judged }
    ensures { (names texts : List (List ℕ)) → IsJudged texts judged
        → (needs_files form.entry moment.now ≡ true → AreFiles names texts files.now)
        → IfOk result (ShowsLogs A form.entry moment.now question.now names texts) }
{
    match judged {
        Judged::Good(logs) => show_good(alloc, form, moment, question, names, logs),
        others => tell_no(alloc, form, moment, files, &others),
    }
}

/// A picture of a ring at these columns, and what it looks like at its moment.
fn tell_both<A: Allocator + Clone>(
    alloc: A,
    ring: &ShownRing<A>,
    columns: ColumnRange,
) -> Result<(Reply<A>, Reply<A>), OutOfMemory>
    ensures { IfOk result (λ both. TellsRing (RingForm.Picture columns) ring.now both.0
        × TellsRing page_form ring.now both.1) }
{
    let picture = tell_drawn(alloc.clone()?, ring, columns)?;
    let none = Page::new(alloc.clone()?).finish()?;
    let text = MemorySink::new(alloc.clone()?);
    let page = tell_page(
        alloc,
        text,
        ring,
        &none,
        Status::of_differences(none.bytes()),
    )?;
    Ok((picture, page))
}

/// The ring of logs in these files at the moment that is asked for, of a question of this text where it is the first of one: a
/// picture of it at these columns, and what it looks like.
pub(crate) fn show_overview<A: Allocator + Clone>(
    alloc: A,
    columns: ColumnRange,
    moment: &RingMoment<'_>,
    question: &[u8],
    files: &[NamedText<'_>],
    judged: Judged<A>,
) -> Result<(Reply<A>, Reply<A>), OutOfMemory>
    requires { IsJudged (texts_of files.now) judged }
    ensures { (names texts : List (List ℕ)) → AreFiles names texts files.now → IfOk result (λ shown.
        ShowsLogs A (RingForm.Picture columns) moment.now question.now names texts shown.0
        × ShowsLogs A page_form moment.now question.now names texts shown.1) }
{
    match judged {
        Judged::Good(logs) => match moment.ring(alloc.clone()?, logs, question) {
            Ok(ring) => tell_both(alloc, &ring, columns),
            Err(fault) => {
                let picture = tell_fault(alloc.clone()?, Form::Words, fault)?;
                Ok((picture, tell_fault(alloc, Form::Words, fault)?))
            }
        },
        others => {
            let page = RingForm::Lines(LinesForm {
                form: Form::Words,
                has_events: false,
                leaders: RingLeaders::NotAsked,
            });
            let picture = RingForm::Picture(columns);
            let drawn = tell_no(alloc.clone()?, picture, moment, files, &others)?;
            let told = tell_no(alloc, page, moment, files, &others)?;
            Ok((drawn, told))
        }
    }
}
