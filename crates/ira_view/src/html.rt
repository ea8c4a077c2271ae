ghost use Rattle.std.specs.Prelude.{◌≡◌, ◌++◌, ℕ, Err, IfOk, List, None, OnOk, length, map, string_bytes};
ghost use Rattle.std.specs.List.{zip};
ghost use Rattle.ira_audit.specs.Judged.{IsJudged};
ghost use Rattle.ira_view_moment.specs.Told.{at_end};
ghost use Rattle.ira_view_page.specs.Printable.{IsPrintable};
ghost use Rattle.ira_view_picture.specs.DrawFault.{HasTooManyEvents};
ghost use Rattle.ira_view_picture.specs.declared.draw_fault.DrawFault.TheVariants.{TooManyEvents};
ghost use Rattle.ira_view.specs.Html.{AreLogLines, HasReason, IsHtmlOf, IsPictureTold, IsRefusalTold, IsRingHtml};
ghost use Rattle.ira_view.specs.ShownRing.{HasTooManyAt};
ghost use Rattle.ira_view.specs.Texts.{texts_of};

use crate::explain::explain_texts;
use crate::has_name::HasName;
use crate::shown_ring::ShownRing;
use crate::view_writer::view_line;
use ira_audit::{Answer, Judged, Reason};
use ira_event::{Logs, OutOfMemory};
use ira_view_html::html_page;
use ira_view_json::{explanation_line, log_line, picture_line};
use ira_view_moment::ChosenMoment;
use ira_view_page::{NamedText, PageText};
use ira_view_picture::{ColumnRange, DrawFault, Picture};
use std::alloc::Allocator;

/// A page to move in what happened at these columns, which tells of the ring at its moment. These are the names of the
/// files of the logs, in their order.
pub fn ring_html<A: Allocator + Clone>(
    alloc: A,
    ring: &ShownRing<A>,
    files: &[String<A>],
    columns: ColumnRange,
) -> Result<PageText<A>, DrawFault>
    requires { length files.now ≡ length ring.now.logs }
    ensures html { IfOk result (IsRingHtml ring.now columns.from columns.to) }
    ensures printable { IfOk result IsPrintable }
    ensures events { (events : ℕ) → result ≡ Err (TooManyEvents events)
        → HasTooManyAt ring.now columns.from columns.to events }
{
    let picture = ring.picture_line(alloc.clone()?, columns)?;
    let mut told = ring.answer_line(alloc.clone()?)?;
    add_logs(alloc.clone()?, &mut told, ring.logs(), files)?;
    told.push_str(picture.as_str())?;
    Ok(html_page(alloc, told.as_bytes())?)
}

/// Adds the lines of logs, in these files.
fn add_logs<A: Allocator + Clone, N: HasName>(
    alloc: A,
    told: &mut String<A>,
    logs: &Logs<A>,
    files: &[N],
) -> Result<(), OutOfMemory>
    requires { length files.now ≡ length logs.now }
    ensures { OnOk result ((added : List ℕ) × AreLogLines (zip (map N.name files.now) logs.now) added
        × (string_bytes told.new ≡ string_bytes told.old ++ added)) }
{
    for place in 0..logs.size().get() {
        let file = &files[usize::from(place)];
        told.push_str(log_line(alloc.clone()?, logs.log(place), file.name())?.as_str())?;
    }
    Ok(())
}

/// What a page to move in tells where texts in these files are those of no run for this reason, as lines of JSON: why that is
/// so, what a person reads of it, and a line for each of the logs that it draws.
pub fn refused_lines<A: Allocator + Clone>(
    alloc: A,
    files: &[NamedText<'_>],
    judged: &Judged<A>,
    reason: Reason,
    logs: &Logs<A>,
) -> Result<String<A>, OutOfMemory>
    requires judged { IsJudged (texts_of files.now) judged.now }
    requires reason { HasReason judged.now reason }
    requires places { length files.now ≡ length logs.now }
    ensures { IfOk result (λ told. IsRefusalTold files.now judged.now reason logs.now (string_bytes told)) }
{
    let ring = explain_texts(alloc.clone()?, files, judged)?;
    let explanation = &ring.view.explanation;
    let mut told = view_line(alloc.clone()?, &Answer::No(reason), explanation, None)?;
    let page = explanation_line(alloc.clone()?, explanation.page.as_str())?;
    told.push_str(page.as_str())?;
    add_logs(alloc, &mut told, logs, files)?;
    Ok(told)
}

/// A page to move in these logs at these columns, of which this is told.
pub fn refused_html<A: Allocator + Clone>(
    alloc: A,
    logs: &Logs<A>,
    told: &[u8],
    columns: ColumnRange,
) -> Result<PageText<A>, DrawFault>
    ensures html { IfOk result (IsHtmlOf (IsPictureTold logs.now at_end None columns.from columns.to)
        (λ lines. lines ≡ told.now)) }
    ensures printable { IfOk result IsPrintable }
    ensures events { (events : ℕ) → result ≡ Err (TooManyEvents events)
        → HasTooManyEvents logs.now None columns.from columns.to events }
{
    let ColumnRange { from, to } = columns;
    let picture = Picture::of(alloc.clone()?, logs, None, from, to)?;
    let mut lines = Vec::new(alloc.clone()?);
    lines.extend_from_slice(told)?;
    let at_end = ChosenMoment::<A>::AtEnd;
    lines.extend_from_slice(picture_line(alloc.clone()?, &picture, &at_end)?.as_bytes())?;
    Ok(html_page(alloc, &lines)?)
}
