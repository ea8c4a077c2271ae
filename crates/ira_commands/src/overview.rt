ghost use Rattle.std.specs.Prelude.{◌≡◌, ◌++◌, ◌∷◌, [], IfOk, OnOk};
ghost use Rattle.ira_audit.specs.Judged.{IsJudged};
ghost use Rattle.ira_view.specs.Texts.{texts_of};
ghost use Rattle.ira_view_page.specs.declared.named_text.NamedText.{NamedText as NamedTextValue};
ghost use Rattle.ira_commands.specs.Overview.{AddsAnswers, AreAnswers, check_commands, found_commands, given_in};
ghost use Rattle.ira_commands.specs.Overview.{overview_commands, question_commands};

use crate::check::check_alone;
use crate::decide::decide_asked;
use crate::explain::explain_all;
use crate::explain_question::{explain_asked, explain_certificate};
use crate::logs::answer_logs;
use crate::reply::Reply;
use crate::ring_moment::RingMoment;
use crate::show::show_overview;
use ira_audit::Judged;
use ira_event::OutOfMemory;
use ira_view::{AskedFiles, Form};
use ira_view_page::NamedText;
use ira_view_picture::ColumnRange;
use std::alloc::Allocator;

/// What an overview tells of a question.
#[derive(Clone, Copy)]
pub enum OverviewQuestion {
    NotAsked,
    /// What is found for it, and why it is so.
    Decided,
    /// The same, and the answer of its certificate, and why it is so.
    Certified,
}

/// Several commands on the logs of a ring at once, for a person.
#[derive(Clone, Copy)]
pub struct Overview<'v> {
    pub question: OverviewQuestion,
    /// Those of the picture.
    pub columns: ColumnRange,
    /// That of the picture, and of what the ring looks like.
    pub moment: RingMoment<'v>,
}

/// What is found for a question about logs, in these files, and why it is so.
fn tell_found<A: Allocator + Clone>(
    alloc: A,
    files: AskedFiles<'_>,
    judged: &Judged<A>,
) -> Result<(Reply<A>, Reply<A>), OutOfMemory>
    requires { IsJudged (texts_of files.logs.now) judged.now }
    ensures { (certificate : NamedTextValue) → IfOk result (λ told.
        AreAnswers A found_commands (given_in files.entry certificate) (told.0 ∷ told.1 ∷ [])) }
{
    let text = files.question.text;
    let decided = decide_asked(alloc.clone()?, Form::Words, false, true, text, judged)?;
    Ok((
        decided,
        explain_asked(alloc, Form::Words, None, files, judged)?,
    ))
}

/// The answer of a certificate of it, and why it is so.
fn tell_certificate<A: Allocator + Clone>(
    alloc: A,
    files: AskedFiles<'_>,
    certificate: &NamedText<'_>,
    judged: &Judged<A>,
) -> Result<(Reply<A>, Reply<A>), OutOfMemory>
    requires { IsJudged (texts_of files.logs.now) judged.now }
    ensures { IfOk result (λ told.
        AreAnswers A check_commands (given_in files.entry certificate.now) (told.0 ∷ told.1 ∷ [])) }
{
    let text = files.question.text;
    let checked = check_alone(alloc.clone()?, Form::Words, text, certificate.text, judged)?;
    Ok((
        checked,
        explain_certificate(alloc, Form::Words, files, certificate, judged)?,
    ))
}

/// Adds two replies.
fn add_both<A: Allocator>(
    replies: &mut Vec<Reply<A>, A>,
    both: (Reply<A>, Reply<A>),
) -> Result<(), OutOfMemory>
    ensures { OnOk result (replies.new.items ≡ replies.old.items ++ both.0 ∷ both.1 ∷ []) }
{
    let (first, second) = both;
    replies.push(first)?;
    Ok(replies.push(second)?)
}

/// Adds what is told of a question about logs, in these files, and of its certificate.
fn add_question<A: Allocator + Clone>(
    alloc: A,
    question: OverviewQuestion,
    files: AskedFiles<'_>,
    certificate: &NamedText<'_>,
    judged: &Judged<A>,
    replies: &mut Vec<Reply<A>, A>,
) -> Result<(), OutOfMemory>
    requires { IsJudged (texts_of files.logs.now) judged.now }
    ensures { OnOk result (AddsAnswers A (question_commands question) (given_in files.entry certificate.now)
        replies.old.items replies.new.items) }
{
    match question {
        OverviewQuestion::NotAsked => Ok(()),
        OverviewQuestion::Decided => { add_both(replies, tell_found(alloc, files, judged)?) }
        OverviewQuestion::Certified => {
            add_both(replies, tell_found(alloc.clone()?, files, judged)?)?;
            Ok(add_both(
                replies,
                tell_certificate(alloc, files, certificate, judged)?,
            )?)
        }
    }
}

/// What comes of the commands of an overview on logs that were judged, in their order. No thread is started.
pub fn answer_overview<A: Allocator + Clone>(
    alloc: A,
    overview: Overview<'_>,
    files: AskedFiles<'_>,
    certificate: &NamedText<'_>,
    judged: Judged<A>,
) -> Result<Vec<Reply<A>, A>, OutOfMemory>
    requires { IsJudged (texts_of files.logs.now) judged }
    ensures { IfOk result (λ replies.
        AreAnswers A (overview_commands overview.entry) (given_in files.entry certificate.now) replies.items) }
{
    let Overview {
        question,
        columns,
        moment,
    } = overview;
    let answer = answer_logs(alloc.clone()?, Form::Words, &judged)?;
    let explained = explain_all(alloc.clone()?, Form::Words, files.logs, &judged)?;
    let mut replies = Vec::new(alloc.clone()?);
    add_both(&mut replies, (answer, explained))?;
    add_question(
        alloc.clone()?,
        question,
        files,
        certificate,
        &judged,
        &mut replies,
    )?;
    let text = files.question.text;
    add_both(
        &mut replies,
        show_overview(alloc, columns, &moment, text, files.logs, judged)?,
    )?;
    Ok(replies)
}
