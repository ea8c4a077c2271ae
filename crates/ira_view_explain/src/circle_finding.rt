ghost use Rattle.std.specs.Prelude.{IfOk};
ghost use Rattle.ira_view_page.specs.Parts.{AreParts};
ghost use Rattle.ira_view_explain.specs.Refused.{AreStuckTold};

use crate::numbered::{fill, numbered_page};
use crate::ring_files::RingFiles;
use crate::text_hint::TextHint;
use ira_event::{Event, OutOfMemory};
use ira_order::FaultyEvent;
use ira_view_evidence::{CircleEvidence, StuckAt};
use ira_view_page::{Emphasis, Evidence, Page, Row, Table, file_of, hints_of, line_of};
use std::alloc::Allocator;

/// Adds a node's first event without a step, and that it came before what is told of that node, where it did.
pub(crate) fn add_besides<A: Allocator>(text: &mut Page<A>, event: FaultyEvent, came_before: bool) {
    fill(
        text,
        "Besides, node {} has no step for event {}",
        [u32::from(event.at.place), event.at.position],
    );
    if came_before {
        text.words(", which came before");
    }
    text.words(": ");
    text.fault(event.fault);
    text.words(".");
}

impl<'l, A: Allocator + Clone> RingFiles<'_, 'l, A> {
    /// Where a node is stuck, and where the sending stands that it waits for.
    fn stuck_row(&self, stuck: &[StuckAt], at: StuckAt) -> Row<&'l A> {
        let (receipt, sending) = (at.receipt, at.sending);
        let before = stuck.get(usize::from(sending.place));
        let mut record = Page::new(self.alloc);
        record.record(
            file_of(self.files, receipt.place),
            receipt.position,
            Event::Got(at.load),
        );
        let mut sent = Page::new(self.alloc);
        sent.place(
            file_of(self.files, sending.place),
            line_of(sending.position),
        );
        sent.words(", after its line ");
        sent.number(before.map_or(0, |stuck| line_of(stuck.receipt.position)) as u64);
        let mut row = Row::new(self.alloc);
        row.left(numbered_page(self.alloc, "node ", u32::from(receipt.place)));
        row.left(record);
        row.left(numbered_page(self.alloc, "is sent by node ", u32::from(sending.place)));
        row.left(sent);
        row
    }

    /// What receipts rest on that wait for one another: each, and the sending that it waits for.
    pub(crate) fn stuck_evidence(
        &self,
        stuck: &[StuckAt],
    ) -> Result<Vec<Evidence<A>, A>, OutOfMemory>
        ensures { IfOk result (λ told. AreParts (AreStuckTold self.now.files.now) stuck.now told.items) }
    {
        let mut told = Vec::new(self.alloc.clone()?);
        for at in stuck {
            told.push(Evidence::Received(self.record(at.receipt, Event::Got(at.load))?))?;
            told.push(Evidence::Sent(self.record(at.sending, Event::Sent(at.load))?))?;
        }
        Ok(told)
    }
}

/// Receipts that wait for one another, once round the ring.
#[derive(Drop)]
pub(crate) struct CircleFinding<A: Allocator> {
    pub(crate) circle: CircleEvidence<A>,
    /// The first event without a step, if there is one.
    pub(crate) faulty: Option<FaultyEvent>,
}

impl<A: Allocator + Clone> CircleFinding<A> {
    /// Adds the receipts, how many events come before them, and the event without a step.
    pub(crate) fn print(&self, ring: &RingFiles<'_, '_, A>, page: &mut Page<A>) {
        page.paragraph(
            "Each of these receipts waits for a sending that its sender made only after its own such receipt:",
        );
        page.blank();
        let mut table = Table::new(ring.alloc);
        for at in &self.circle.stuck {
            table.add(Emphasis::Plain, ring.stuck_row(&self.circle.stuck, *at));
        }
        page.table(&table);
        page.blank();
        let mut text = Page::new(ring.alloc);
        fill(
            &mut text,
            "So none of them can come first. {} of {} events can be put in order; these come next.",
            [
                u64::from(self.circle.ordered),
                ring.logs.number_of_events() as u64,
            ],
        );
        page.paragraph_of(&text);
        if let Some(event) = self.faulty {
            let mut text = Page::new(ring.alloc);
            add_besides(&mut text, event, false);
            page.paragraph_of(&text);
        }
    }

    /// The usual cause: the logs aren't in the order of their nodes.
    pub(crate) fn hints(&self, alloc: &A) -> Result<Vec<String<A>, A>, OutOfMemory> {
        let hint =
            "records that are not in the order of the node: two threads write one log, or records were sorted by \
                 a clock.";
        hints_of(alloc, Some(&TextHint::Words(hint)))
    }
}
