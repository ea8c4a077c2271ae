ghost use Rattle.std.specs.Prelude.{◌≡◌, ℕ, Err, IfErr, IfOk, List, MatchResult, None, OnOk, Some, length, option_map};
ghost use Rattle.std.specs.Prelude.{string_bytes};
ghost use Rattle.ira_event.specs.Sink.{Takes};
ghost use Rattle.ira_view_moment.specs.Told.{at_end};
ghost use Rattle.ira_view_moment.specs.Moment.{whole_cut};
ghost use Rattle.ira_view_json.specs.ShownAnswer.{AreTold, WroteRing};
ghost use Rattle.ira_view_picture.specs.DrawFault.{IsDrawFault};
ghost use Rattle.ira_view_show.specs.Showed.{Showed};
ghost use Rattle.ira_view_json.specs.PageLine.{IsYesLine};
ghost use Rattle.ira_view_page.specs.Printable.{IsPrintable};
ghost use Rattle.ira_view.specs.Html.{IsPictureTold};
ghost use Rattle.ira_view.specs.ShownRing.{AreEventsOf, HasTooManyAt, IsAtCut, IsNoCut, IsNoQuestion, IsOfQuestion};
ghost use Rattle.ira_view.specs.ShownRing.{IsPageOf, IsPictureOf};
ghost use Rattle.ira_view.specs.Status.{status_number};
ghost use Rattle.ira_view.specs.declared.status.Status.TheVariants.{Yes};

use crate::find_moment::{asked_cut, first_moment};
use crate::ring_fault::RingFault;
use crate::status::Status;
use ira_audit::GoodLogs;
use ira_event::{Logs, OutOfMemory, Sink};
use ira_view_draw::draw;
use ira_view_json::{ShownAnswer, picture_line, write_ring, yes_line};
use ira_view_moment::ChosenMoment;
use ira_view_page::{PageText, ShowFault};
use ira_view_picture::{ColumnRange, DrawFault, Picture};
use ira_view_show::{show_events, show_moment};
use std::alloc::Allocator;
use std::marker::Model;

/// A ring against whose logs nothing stands, at a moment. Contracts see how many events each node has made by then, if
/// there is such a moment.
#[derive(Drop)]
pub struct ShownRing<A: Allocator> {
    logs: GoodLogs<A>,
    moment: ChosenMoment<A>,
}

impl<A: Allocator> Model for ShownRing<A> {
    ghost use Rattle.std.specs.Coded.{codes};
    ghost use Rattle.ira_pred.specs.FormulaCode.{formula_code};
    ghost use Rattle.ira_view_moment.specs.ChosenMoment.{IsMomentOf, cut_of};
    ghost use Rattle.ira_view_moment.specs.Told.{told_of};
    ghost use Rattle.ira_view.specs.ShownRing.{ShownRing};

    ghost Value = { ShownRing };

    ghost coded = { Prim.hlevel (codes, formula_code) };

    ghost view = { λ r. record { logs = r.logs; cut = cut_of r.logs r.moment; told = told_of r.moment } };

    ghost invariant = { λ r. IsMomentOf r.logs r.moment };
}

impl<A: Allocator + Clone> ShownRing<A> {
    /// The ring at the end of its logs.
    pub fn at_end(logs: GoodLogs<A>) -> ShownRing<A>
        ensures { result ≡ record { logs = logs; cut = Some (whole_cut logs); told = at_end } }
    {
        ShownRing {
            logs,
            moment: ChosenMoment::AtEnd,
        }
    }

    /// The ring when each node has made so many of its events, in the order of the ring's places; any numbers.
    pub fn at_cut(alloc: A, logs: GoodLogs<A>, events: &[u64]) -> Result<ShownRing<A>, RingFault>
        ensures { MatchResult result (IsAtCut logs events.now) (IsNoCut logs events.now) }
    {
        let moment = ChosenMoment::AtCut(asked_cut(alloc, &logs, events)?);
        Ok(ShownRing { logs, moment })
    }

    /// The ring at the first moment that meets a case of the question of this text: the case of a number, counted from
    /// 0, or any. Cases are decided one after the other until one is met, and with a number that case alone.
    pub fn of_question(
        alloc: A,
        logs: GoodLogs<A>,
        question: &[u8],
        case: Option<u64>,
    ) -> Result<ShownRing<A>, RingFault>
        ensures { MatchResult result (IsOfQuestion logs question.now case) (IsNoQuestion logs question.now case) }
    {
        let asked = logs.ask(question)?;
        let moment = first_moment(alloc, asked, case)?;
        Ok(ShownRing { logs, moment })
    }

    /// What the ring looks like at the moment, as the lines that follow its answer.
    pub fn page(&self, alloc: A) -> Result<PageText<A>, OutOfMemory>
        ensures { IfOk result (IsPageOf self.now) }
    {
        show_moment(alloc, self.logs.logs(), &self.moment)
    }

    /// Writes, as the lines that follow its answer, an order of all events through the moment. Nothing is cut short: it
    /// is written block by block.
    pub fn write_events<W: Sink>(&self, alloc: A, sink: &mut W) -> Result<(), ShowFault>
        ensures showed { Showed result (W.state sink.old) (W.state sink.new) }
        ensures told { OnOk result ((text : List ℕ) × AreEventsOf self.now text × IsPrintable text
            × Takes text (W.state sink.old) (W.state sink.new)) }
    {
        show_events(alloc, self.logs.logs(), &self.moment, sink)
    }

    /// Writes, as lines of JSON, the answer and what is told of the moment: an order of all events through it, or else
    /// its rounds, its nodes and what is on its way. These are the names of the files of the logs, in their order. It
    /// is written block by block.
    pub fn write_json<W: Sink>(
        &self,
        alloc: A,
        files: &[String<A>],
        answer: ShownAnswer<'_>,
        has_events: bool,
        sink: &mut W,
    ) -> Result<(), ShowFault>
        requires { length files.now ≡ length self.now.logs }
        ensures { WroteRing self.now.logs (option_map (λ named. named.now) answer.entry.named) answer.entry.status
            self.now.told self.now.cut (AreTold has_events self.now.logs self.now.cut) result
            (W.state sink.old) (W.state sink.new) }
    {
        let logs = self.logs.logs();
        write_ring(alloc, logs, files, &self.moment, answer, has_events, sink)
    }

    /// A picture of what happened at these columns, with a line at the moment where it isn't the end of the logs.
    pub fn picture(&self, alloc: A, columns: ColumnRange) -> Result<PageText<A>, DrawFault>
        ensures drawing { IfOk result (IsPictureOf self.now columns.from columns.to) }
        ensures fault { IfErr result IsDrawFault }
        ensures events { (events : ℕ) → result ≡ Err (DrawFault.TooManyEvents events)
            → HasTooManyAt self.now columns.from columns.to events }
    {
        draw(alloc, self.logs.logs(), &self.moment, columns)
    }

    /// The logs.
    pub(crate) fn logs(&self) -> &Logs<A>
        ensures { result.now ≡ self.now.logs }
    {
        self.logs.logs()
    }

    /// The line of JSON of its yes, with its moment.
    pub(crate) fn answer_line(&self, alloc: A) -> Result<String<A>, OutOfMemory>
        ensures { IfOk result (λ line. IsYesLine self.now.logs None (status_number Yes) self.now.told self.now.cut
            (string_bytes line)) }
    {
        let answer = ShownAnswer {
            status: Status::Yes.number(),
            named: None,
        };
        yes_line(alloc, self.logs.logs(), &self.moment, answer)
    }

    /// The line of JSON of what happened at these columns, with a line at the moment where it isn't the end of the logs.
    pub(crate) fn picture_line(
        &self,
        alloc: A,
        columns: ColumnRange,
    ) -> Result<String<A>, DrawFault>
        ensures picture { IfOk result (λ line. IsPictureTold self.now.logs self.now.told self.now.cut columns.from columns.to (string_bytes line)) }
        ensures events { (events : ℕ) → result ≡ Err (DrawFault.TooManyEvents events)
            → HasTooManyAt self.now columns.from columns.to events }
    {
        let ColumnRange { from, to } = columns;
        let logs = self.logs.logs();
        let picture = Picture::of(alloc.clone()?, logs, self.moment.cut(), from, to)?;
        Ok(picture_line(alloc, &picture, &self.moment)?)
    }
}
