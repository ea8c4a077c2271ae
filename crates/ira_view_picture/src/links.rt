ghost use Rattle.std.specs.Prelude.{◌≡◌, ◌+◌, ◌<◌, None, IfNone, IfOk, IfSome, OnOk, length, max};
ghost use Rattle.std.specs.Option.{option_map};
ghost use Rattle.ira_order.specs.Matching.{got, sent};
ghost use Rattle.ira_order.specs.Ring.{log_of, next};
ghost use Rattle.ira_view_picture.specs.Arrow.{AreArrows, AreArrowsBefore, IsArrow, IsEffectOf, IsPassage, IsReceipt};
ghost use Rattle.ira_view_picture.specs.Arrow.{IsReceivedAt, IsSending, IsSentAt, column_of};
ghost use Rattle.ira_view_picture.specs.Traffic.{AreTraffic};

use crate::arrow::{Arrow, Passage};
use crate::laps::Laps;
use crate::ring::load_at;
use crate::traffic::{Effect, Traffic, traffic_of};
use crate::window::Window;
use ira_event::{Logs, OutOfMemory};
use ira_order::{EventAt, successor};
use ira_view_evidence::Exchange;
use ira_view_trail::Columns;
use std::alloc::Allocator;

/// What the links of a ring carry.
#[derive(Drop)]
struct Links<'a, L: Allocator, A: Allocator> {
    logs: &'a Logs<L>,
    traffic: &'a [Traffic<A>],
    columns: &'a Columns<A>,
    laps: &'a Laps<A>,
}

impl<L: Allocator, A: Allocator + Clone> Links<'_, L, A> {
    /// A link's sending of a number, counted from 0.
    fn sending(&self, link: u8, k: usize) -> Option<Exchange>
        requires link { link < length self.now.logs.now }
        requires traffic { AreTraffic self.now.logs.now self.now.traffic.now }
        ensures { IsSending self.now.logs.now link (k + 1) result }
    {
        let position = traffic_of(self.traffic, link).sending(k)?;
        let load = load_at(self.logs, link, position)?;
        Some(Exchange {
            at: EventAt {
                place: link,
                position,
            },
            load,
        })
    }

    /// A link's receipt of a number, counted from 0, and what it does.
    fn receipt(&self, link: u8, k: usize) -> Option<(Exchange, Effect)>
        requires link { link < length self.now.logs.now }
        requires traffic { AreTraffic self.now.logs.now self.now.traffic.now }
        ensures receipt { IsReceipt self.now.logs.now link (k + 1) (option_map (λ r. r.0) result) }
        ensures effect { IfSome result (λ r. IsEffectOf self.now.logs.now r.0 r.1) }
    {
        let place = successor(self.logs.size().get(), link);
        let receipt = traffic_of(self.traffic, place).receipt(k)?;
        let position = receipt.position;
        let load = load_at(self.logs, place, position)?;
        let at = EventAt { place, position };
        Some((Exchange { at, load }, receipt.effect))
    }

    /// The column of a link's sending of a number, counted from 0.
    fn sent_at(&self, link: u8, k: usize) -> Option<u32>
        requires link { link < length self.now.logs.now }
        requires traffic { AreTraffic self.now.logs.now self.now.traffic.now }
        ensures { IsSentAt self.now.logs.now self.now.columns.now.nodes link (k + 1) result }
    {
        let position = traffic_of(self.traffic, link).sending(k)?;
        Some(self.columns.column(link, position))
    }

    /// The column of a link's receipt of a number, counted from 0.
    fn received_at(&self, link: u8, k: usize) -> Option<u32>
        requires link { link < length self.now.logs.now }
        requires traffic { AreTraffic self.now.logs.now self.now.traffic.now }
        ensures { IsReceivedAt self.now.logs.now self.now.columns.now.nodes link (k + 1) result }
    {
        let place = successor(self.logs.size().get(), link);
        let receipt = traffic_of(self.traffic, place).receipt(k)?;
        Some(self.columns.column(place, receipt.position))
    }

    /// The column of a sending or a receipt.
    fn column(&self, exchange: Exchange) -> u32
        ensures { result ≡ column_of self.now.columns.now.nodes exchange }
    {
        self.columns.column(exchange.at.place, exchange.at.position)
    }

    /// What became of a sending that was received.
    fn passage(
        &self,
        sending: Exchange,
        receipt: Exchange,
        is_on_lap: bool,
        effect: Effect,
    ) -> Passage
        requires { IsEffectOf self.now.logs.now receipt effect }
        ensures { IsPassage self.now.logs.now self.now.columns.now.nodes sending receipt result }
    {
        if receipt.load != sending.load {
            Passage::Differs
        } else if self.column(receipt) <= self.column(sending) {
            Passage::Backward
        } else if effect == Effect::Nothing {
            Passage::Dropped
        } else if is_on_lap {
            Passage::OnLap
        } else {
            Passage::Taken
        }
    }

    /// The arrow of a link's sending and receipt of a number, counted from 0, where there is one of them.
    fn arrow(&self, link: u8, k: usize) -> Option<Arrow>
        requires link { link < length self.now.logs.now }
        requires traffic { AreTraffic self.now.logs.now self.now.traffic.now }
        ensures sending { IfNone result (IsSending self.now.logs.now link (k + 1) None) }
        ensures receipt { IfNone result (IsReceipt self.now.logs.now link (k + 1) None) }
        ensures link { IfSome result (λ arrow. arrow.link ≡ link) }
        ensures arrow { IfSome result (IsArrow self.now.logs.now self.now.columns.now.nodes (k + 1)) }
    {
        match (self.sending(link, k), self.receipt(link, k)) {
            (Some(sending), Some((receipt, effect))) => {
                let is_on_lap = self.laps.contains(link, k);
                Some(Arrow {
                    link,
                    sent: Some(self.column(sending)),
                    received: Some(self.column(receipt)),
                    load: sending.load,
                    passage: self.passage(sending, receipt, is_on_lap, effect),
                })
            }
            (Some(sending), None) => Some(Arrow {
                link,
                sent: Some(self.column(sending)),
                received: None,
                load: sending.load,
                passage: Passage::NotReceived,
            }),
            (None, Some((receipt, _))) => Some(Arrow {
                link,
                sent: None,
                received: Some(self.column(receipt)),
                load: receipt.load,
                passage: Passage::NotSent,
            }),
            (None, None) => None,
        }
    }

    /// How many sendings or receipts a link has, whichever are more.
    fn count(&self, link: u8) -> usize
        requires link { link < length self.now.logs.now }
        requires traffic { AreTraffic self.now.logs.now self.now.traffic.now }
        ensures { result ≡ max (length (sent (log_of self.now.logs.now link)))
            (length (got (log_of self.now.logs.now (next (length self.now.logs.now) link)))) }
    {
        let reader = successor(self.logs.size().get(), link);
        let sendings = traffic_of(self.traffic, link).number_of_sendings();
        let receipts = traffic_of(self.traffic, reader).number_of_receipts();
        sendings.max(receipts)
    }

    /// Adds those arrows of a link that are drawn.
    fn add_arrows(
        &self,
        arrows: &mut Vec<Arrow, A>,
        link: u8,
        window: Window,
    ) -> Result<(), OutOfMemory>
        requires link { link < length self.now.logs.now }
        requires traffic { AreTraffic self.now.logs.now self.now.traffic.now }
        requires before { AreArrowsBefore self.now.logs.now self.now.columns.now.nodes window link 1 arrows.old.items }
        ensures { OnOk result
            (AreArrowsBefore self.now.logs.now self.now.columns.now.nodes window (link + 1) 1 arrows.new.items) }
    {
        for k in 0..self.count(link) {
            if window.meets(self.sent_at(link, k), self.received_at(link, k)) {
                if let Some(arrow) = self.arrow(link, k) {
                    arrows.push(arrow)?;
                }
            }
        }
        Ok(())
    }

    /// Those of all links.
    fn arrows(&self, alloc: A, window: Window) -> Result<Vec<Arrow, A>, OutOfMemory>
        requires { AreTraffic self.now.logs.now self.now.traffic.now }
        ensures { IfOk result
            (λ arrows. AreArrows self.now.logs.now self.now.columns.now.nodes window arrows.items) }
    {
        let mut arrows = Vec::new(alloc);
        for link in 0..self.logs.size().get() {
            self.add_arrows(&mut arrows, link, window)?;
        }
        Ok(arrows)
    }
}

/// The arrows that are drawn.
pub(crate) fn arrows_of_ring<'x, A: Allocator + Clone, L: Allocator>(
    alloc: A,
    logs: &'x Logs<L>,
    traffic: &'x [Traffic<A>],
    columns: &'x Columns<A>,
    window: Window,
) -> Result<Vec<Arrow, A>, OutOfMemory>
    requires { AreTraffic logs.now traffic.now }
    ensures { IfOk result (λ arrows. AreArrows logs.now columns.now.nodes window arrows.items) }
{
    let laps = Laps::of(alloc.clone()?, logs, traffic)?;
    let links = Links {
        logs,
        traffic,
        columns,
        laps: &laps,
    };
    links.arrows(alloc, window)
}
