ghost use Rattle.std.specs.Prelude.{IfOk};
ghost use Rattle.ira_audit.specs.Judged.{IsJudged};
ghost use Rattle.ira_audit.specs.RingAudit.{HasTaken};
ghost use Rattle.ira_view.specs.Texts.{texts_of};

use ira_audit::{Judged, RingAudit};
use ira_event::OutOfMemory;
use ira_view_page::NamedText;
use std::alloc::Allocator;

/// An audit that has taken these texts.
pub fn take_texts<A: Allocator + Clone>(
    alloc: A,
    texts: &[NamedText<'_>],
) -> Result<RingAudit<A>, OutOfMemory>
    ensures { IfOk result (λ audit. HasTaken audit (texts_of texts.now)) }
{
    let mut audit = RingAudit::new(alloc);
    for file in texts {
        audit.take(file.text)?;
    }
    Ok(audit)
}

/// Judges texts as those of a ring's logs.
pub fn judge_texts<A: Allocator + Clone>(
    alloc: A,
    texts: &[NamedText<'_>],
) -> Result<Judged<A>, OutOfMemory>
    ensures { IfOk result (IsJudged (texts_of texts.now)) }
{
    take_texts(alloc, texts)?.judge()
}
