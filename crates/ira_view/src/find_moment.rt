ghost use Rattle.std.specs.Prelude.{◌≡◌, ◌<◌, ◌⊎◌, List, IfErr, IfOk, MatchOption, Some, length};
ghost use Rattle.ira_event.specs.Log.{Log};
ghost use Rattle.ira_event.specs.Logs.{AreLogs};
ghost use Rattle.ira_order.specs.Cut.{IsConsistentCut, IsCut};
ghost use Rattle.ira_pred.specs.Question.{IsQuestion};
ghost use Rattle.ira_view_moment.specs.ChosenMoment.{IsMomentOf, cut_of};
ghost use Rattle.ira_view_moment.specs.Told.{told_of};
ghost use Rattle.ira_view_moment.specs.CutFault.{IsCutFault};
ghost use Rattle.ira_view_moment.specs.declared.cut_fault.CutFault.{CutFault};
ghost use Rattle.ira_view.specs.FirstCut.{IsFirstMoment, IsNotLookedFor, IsPresent};
ghost use Rattle.ira_view.specs.declared.ring_fault.RingFault.TheVariants as fault;

use crate::ring_fault::RingFault;
use ira_audit::{AskedQuestion, GoodLogs};
use ira_elim::{Cut, Found};
use ira_event::{MAX_RECORDS, OutOfMemory};
use ira_view_moment::{ChosenMoment, CutFault, check_cut};
use std::alloc::{AllocError, Allocator};

/// The numbers as those of a cut; none where one is of more events than a log may have.
fn cut_numbers<A: Allocator>(alloc: A, events: &[u64]) -> Result<Option<Vec<u32, A>>, AllocError>
    ensures { IfOk result (λ found. MatchOption found
        ((logs : List Log) → AreLogs logs → ¬ (IsCut logs events.now))
        (λ cut. cut.items ≡ events.now)) }
{
    let mut cut = Vec::with_capacity(alloc, events.len())?;
    for number in events {
        if *number > MAX_RECORDS as u64 {
            return Ok(None);
        }
        cut.push(*number as u32)?;
    }
    Ok(Some(cut))
}

/// The cut that is asked for by its numbers.
pub(crate) fn asked_cut<A: Allocator + Clone>(
    alloc: A,
    logs: &GoodLogs<A>,
    events: &[u64],
) -> Result<Vec<u32, A>, RingFault>
    ensures cut { IfOk result (λ cut. (cut.items ≡ events.now) × IsConsistentCut logs.now events.now) }
    ensures fault { IfErr result (λ f. (f ≡ fault.OutOfMemory)
        ⊎ ((why : CutFault) × (f ≡ fault.Cut why) × IsCutFault logs.now events.now why)) }
{
    let logs = logs.logs();
    let Some(cut) = cut_numbers(alloc, events)? else {
        return Err(RingFault::Cut(CutFault::NoCut));
    };
    check_cut(logs, &cut)?;
    Ok(cut)
}

/// The case of a number and the least cut that meets it, if one does. No other case is decided.
fn present_case<A: Allocator + Clone>(
    asked: &AskedQuestion<'_, A>,
    number: usize,
) -> Result<Option<(usize, Cut<A>)>, OutOfMemory>
    requires valid { IsQuestion asked.now.question }
    requires within { number < length asked.now.question.cases }
    ensures { IfOk result (IsPresent asked.now (Some number)) }
{
    match asked.decide_case(number)? {
        Found::Present(cut) => Ok(Some((number, cut))),
        Found::Absent(_) => Ok(None),
    }
}

/// The case of a number, if one is asked for, or else the first that any cut meets, and the least cut that meets it, if
/// there is such a cut.
fn first_present<A: Allocator + Clone>(
    asked: &AskedQuestion<'_, A>,
    case: Option<u64>,
) -> Result<Option<(usize, Cut<A>)>, RingFault>
    ensures found { IfOk result (IsPresent asked.now case) }
    ensures fault { IfErr result (IsNotLookedFor asked.now.question.cases case) }
{
    let Some(number) = case else {
        return Ok(asked.first_present()?);
    };
    if number >= asked.cases().len() as u64 {
        return Err(RingFault::NoCase);
    }
    Ok(present_case(asked, number as usize)?)
}

/// The first moment that meets a case of a question: the case of a number, or any.
pub(crate) fn first_moment<A: Allocator + Clone>(
    alloc: A,
    asked: AskedQuestion<'_, A>,
    case: Option<u64>,
) -> Result<ChosenMoment<A>, RingFault>
    ensures first { IfOk result (λ moment.
        IsFirstMoment asked.entry.logs asked.entry.question.cases case (cut_of asked.entry.logs moment)
        (told_of moment)) }
    ensures moment { IfOk result (IsMomentOf asked.entry.logs) }
    ensures fault { IfErr result (IsNotLookedFor asked.entry.question.cases case) }
{
    let Some((number, cut)) = first_present(&asked, case)? else {
        return Ok(ChosenMoment::Unmet(case));
    };
    Ok(ChosenMoment::OfCase {
        question: asked.into_question(),
        number,
        cut: cut.positions().to_vec(alloc)?,
    })
}
