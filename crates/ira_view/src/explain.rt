ghost use Rattle.std.specs.Prelude.{IfOk, option_map};
ghost use Rattle.ira_audit.specs.Judged.{IsJudged};
ghost use Rattle.ira_audit.specs.LogTextAnswer.{IsLogTextAnswer};
ghost use Rattle.ira_audit.specs.RingAnswer.{IsRingAnswer};
ghost use Rattle.ira_audit.specs.Report.{IsReportable};
ghost use Rattle.ira_view_election.specs.Election.{standing_of};
ghost use Rattle.ira_view.specs.Explained.{EndsWithElection, IsExplanation, IsLogExplanation};
ghost use Rattle.ira_view.specs.Texts.{texts_of};

use crate::ring_view::RingView;
use crate::view::View;
use ira_audit::Judged;
use ira_event::OutOfMemory;
use ira_view_election::{Election, election_at_end, print_election};
use ira_view_explain::{explain_log, explain_logs};
use ira_view_page::{NamedText, Page, PageText};
use std::alloc::Allocator;

/// A page, and below it how an election stands.
fn page_with_election<A: Allocator>(
    alloc: A,
    page: &PageText<A>,
    election: &Election<A>,
) -> Result<PageText<A>, OutOfMemory>
    ensures { IfOk result (EndsWithElection (standing_of election.now)) }
{
    let mut whole = Page::new(alloc);
    whole.words(page.as_str());
    whole.blank();
    print_election(&mut whole, election);
    whole.finish()
}

/// What was judged of the texts of a ring's logs, and why it is so; of good logs also how the election stands when they end.
pub fn explain_texts<A: Allocator + Clone>(
    alloc: A,
    texts: &[NamedText<'_>],
    judged: &Judged<A>,
) -> Result<RingView<A>, OutOfMemory>
    requires { IsJudged (texts_of texts.now) judged.now }
    ensures answer { IfOk result (λ ring. IsRingAnswer (texts_of texts.now) ring.view.answer) }
    ensures reportable { IfOk result (λ ring. IsReportable ring.view.answer) }
    ensures explained { IfOk result (λ ring.
        IsExplanation texts.now judged.now ring.view.explanation (option_map standing_of ring.election)) }
{
    let answer = judged.answer();
    let mut explanation = explain_logs(alloc.clone()?, texts, judged)?;
    let election = match judged {
        Judged::Good(logs) => {
            let election = election_at_end(alloc.clone()?, logs.logs())?;
            explanation.page = page_with_election(alloc, &explanation.page, &election)?;
            Some(election)
        }
        Judged::Refused(_) => None,
        Judged::NoRing(_) => None,
    };
    let view = View {
        answer,
        explanation,
    };
    Ok(RingView { view, election })
}

/// Judges the text of one log alone, and says why the answer is as it is.
pub fn explain_text<A: Allocator + Clone>(
    alloc: A,
    text: &NamedText<'_>,
) -> Result<View<A>, OutOfMemory>
    ensures answer { IfOk result (λ view. IsLogTextAnswer text.now.text.now view.answer) }
    ensures reportable { IfOk result (λ view. IsReportable view.answer) }
    ensures explained { IfOk result (λ view. IsLogExplanation text.now view.answer view.explanation) }
{
    let (answer, explanation) = explain_log(alloc, text)?;
    Ok(View {
        answer,
        explanation,
    })
}
