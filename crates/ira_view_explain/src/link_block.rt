ghost use Rattle.std.specs.Prelude.{IfOk};
ghost use Rattle.ira_view_explain.specs.Refused.{IsLinkTold};

use crate::circle_finding::add_besides;
use crate::faulty_link::FaultyLink;
use crate::numbered::{fill, numbered_page};
use crate::ring_files::RingFiles;
use ira_event::{Event, OutOfMemory};
use ira_order::FaultyEvent;
use ira_view_evidence::Exchange;
use ira_view_page::{Evidence, Page, event_at};
use std::alloc::Allocator;

impl<A: Allocator + Clone> FaultyLink<'_, '_, A> {
    /// Adds that the receipts of a link take its sendings one by one, what both sides have around the receipt, and how
    /// much, where its sending is lacking.
    pub(crate) fn print(&self, page: &mut Page<A>) {
        let mut text = Page::new(self.alloc);
        fill(
            &mut text,
            "Link {} leads from node {} to node {}, first in, first out: its ",
            [self.link, self.link, self.reader],
        );
        text.ordinal(self.k);
        text.words(" receipt takes the ");
        text.ordinal(self.k);
        text.words(" sending.");
        page.paragraph_of(&text);
        page.blank();
        page.table(&self.exchange_table());
        page.blank();
        if self.sending.is_none() {
            let mut text = numbered_page(self.alloc, "Node ", u32::from(self.link));
            text.words(" made ");
            text.number_of(self.sides.sent.len(), "sending");
            fill(&mut text, ", node {} ", [self.reader]);
            text.number_of(self.sides.received.len(), "receipt");
            text.words(".");
            page.paragraph_of(&text);
        }
        if let Some(event) = self.other {
            let mut text = Page::new(self.alloc);
            add_besides(&mut text, event, self.came_before);
            page.paragraph_of(&text);
        }
    }

    /// What it rests on: the sending, where there is one, the receipt, and the event without a step.
    pub(crate) fn evidence(
        &self,
        ring: &RingFiles<'_, '_, A>,
    ) -> Result<Vec<Evidence<A>, A>, OutOfMemory>
        ensures { IfOk result
            (λ told. IsLinkTold ring.now.files.now self.now told.items) }
    {
        let mut told = Vec::new(ring.alloc.clone()?);
        if let Some(Exchange { at, load }) = self.sending {
            told.push(Evidence::Sent(ring.record(at, Event::Sent(load))?))?;
        }
        let Exchange { at, load } = self.receipt;
        told.push(Evidence::Received(ring.record(at, Event::Got(load))?))?;
        if let Some(FaultyEvent { at, fault }) = self.other {
            if let Some(event) = event_at(self.logs, at) {
                told.push(Evidence::OtherFaulty {
                    event: ring.record(at, event)?,
                    fault,
                    happened_before: self.came_before,
                })?;
            }
        }
        Ok(told)
    }

    /// The usual causes that explain it.
    pub(crate) fn hints(&self, alloc: &A) -> Result<Vec<String<A>, A>, OutOfMemory> {
        let mut hints = Vec::with_capacity(alloc.clone()?, self.causes.len())?;
        for cause in &self.causes {
            let mut text = Page::new(alloc.clone()?);
            cause.print(&mut text);
            hints.push(text.finish()?.into_string())?;
        }
        Ok(hints)
    }
}
