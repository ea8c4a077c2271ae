ghost use Rattle.ira_view_page.specs.Page.{Added};
ghost use Rattle.ira_view_page.specs.Summary.{leader_text, sent_text, summary_text, totals_text};

use crate::page::Page;
use std::alloc::Allocator;

/// A node that leads, with its round, term and ID.
#[derive(Clone, Copy, Debug, PartialEq, Eq)]
pub struct Leads {
    pub node: u8,
    pub round: u32,
    pub term: u32,
    pub id: u32,
}

/// What a ring's nodes and events come to.
#[derive(Clone, Copy, Debug, PartialEq, Eq)]
pub struct RingTotals {
    pub nodes: usize,
    pub events: usize,
    /// How many messages and resets were sent.
    pub sent: usize,
    pub received: usize,
    /// How many are on their way.
    pub way: usize,
    /// Whether a reset was sent.
    pub has_resets: bool,
}

impl<A: Allocator> Page<A> {
    /// Adds two sentences on a whole ring: who leads, if a node does, and what its nodes and events come to.
    pub fn summary(&mut self, leader: Option<Leads>, totals: RingTotals)
        ensures { Added self.old (summary_text leader totals) self.new }
    {
        self.leader(leader);
        self.words(" ");
        self.totals(totals);
    }

    /// Adds who leads.
    fn leader(&mut self, leader: Option<Leads>)
        ensures { Added self.old (leader_text leader) self.new }
    {
        let Some(leads) = leader else {
            self.words("Nobody leads yet.");
            return;
        };
        self.words("Node ");
        self.number(leads.node as u64);
        self.words(" leads in ");
        self.round(leads.round, leads.term);
        self.words(" with ID ");
        self.number(leads.id as u64);
        self.words(".");
    }

    /// Adds how many nodes and events there are, and what crossed the links.
    fn totals(&mut self, totals: RingTotals)
        ensures { Added self.old (totals_text totals) self.new }
    {
        self.number_of(totals.nodes, "node");
        self.words(", ");
        self.number_of(totals.events, "event");
        self.words("; ");
        self.sent(totals.has_resets, totals.sent);
        self.words(", ");
        self.number(totals.received as u64);
        self.words(" received, ");
        self.number(totals.way as u64);
        self.words(" on the way.");
    }

    /// Adds how much was sent.
    fn sent(&mut self, has_resets: bool, sent: usize)
        ensures { Added self.old (sent_text has_resets sent) self.new }
    {
        if has_resets {
            self.number(sent as u64);
            self.words(" messages and resets sent");
        } else {
            self.number_of(sent, "message");
            self.words(" sent");
        }
    }
}
