ghost use Rattle.std.specs.Prelude.{◌≡◌, ◌∷◌, [], true, MatchOption};
ghost use Rattle.std.specs.Iterator.{YieldsFirst, item_count};
ghost use Rattle.std.specs.List.{list_all};
ghost use Rattle.ira_event.specs.declared.event.Event.TheVariants.{Sent, Got};
ghost use Rattle.ira_event.specs.Event.{is_event};
ghost use Rattle.ira_event.specs.Messages.{sending, receipt, sent, got, PassesNo};

use crate::event::Event;
use crate::listed::Listed;
use crate::packed_event::{PackedEvent, PackedLoad};
use std::marker::Model;

/// The events of a log in their order; seen by contracts as the list of those that are left.
#[derive(Drop)]
pub struct Events<'a> {
    /// Those of a log that was read.
    packed: &'a [PackedEvent],
    /// Those of a log that was handed its events, whose numbers a record may hold.
    plain: &'a [Event],
}

impl<'a> Model for Events<'a> {
    ghost use Rattle.std.specs.Prelude.{List, ◌++◌, ◌≡◌, true};
    ghost use Rattle.std.specs.List.{list_all};
    ghost use Rattle.ira_event.specs.declared.event.Event.{Event};
    ghost use Rattle.ira_event.specs.Event.{is_event};

    ghost Value = { List Event };

    ghost view = { λ s. s.packed.now ++ s.plain.now };

    ghost invariant = { λ s. list_all is_event s.plain.now ≡ true };
}

impl<'a> Events<'a> {
    pub(crate) fn of_plain(events: &'a [Event]) -> Events<'a>
        requires { list_all is_event events.now ≡ true }
        ensures { result ≡ events.now }
    {
        Events {
            packed: &[],
            plain: events,
        }
    }

    pub(crate) fn of_packed(events: &'a [PackedEvent]) -> Events<'a>
        ensures { result ≡ events.now }
    {
        Events {
            packed: events,
            plain: &[],
        }
    }

    /// The first load that these events send. Its event is passed, and all before it; where there is
    /// none, no event is left.
    pub fn next_sending(&mut self) -> Option<PackedLoad>
        ensures load { MatchOption result (sent self.old ≡ [])
            (λ load. sent self.old ≡ load ∷ sent self.new) }
        ensures passed { MatchOption result (self.new ≡ [])
            (λ load. PassesNo sending self.old (Sent load ∷ self.new)) }
    {
        while let Some((first, others)) = self.packed.split_first() {
            self.packed = others;
            if let Some(load) = first.sending() {
                return Some(load);
            }
        }
        while let Some((first, others)) = self.plain.split_first() {
            self.plain = others;
            if let Event::Sent(load) = first {
                return Some(PackedLoad::new(*load));
            }
        }
        None
    }

    /// The first load that these events receive. Its event is passed, and all before it; where there
    /// is none, no event is left.
    pub fn next_receipt(&mut self) -> Option<PackedLoad>
        ensures load { MatchOption result (got self.old ≡ [])
            (λ load. got self.old ≡ load ∷ got self.new) }
        ensures passed { MatchOption result (self.new ≡ [])
            (λ load. PassesNo receipt self.old (Got load ∷ self.new)) }
    {
        while let Some((first, others)) = self.packed.split_first() {
            self.packed = others;
            if let Some(load) = first.receipt() {
                return Some(load);
            }
        }
        while let Some((first, others)) = self.plain.split_first() {
            self.plain = others;
            if let Event::Got(load) = first {
                return Some(PackedLoad::new(*load));
            }
        }
        None
    }
}

impl<'a> Iterator for Events<'a> {
    type Item = Event;

    ghost next_gives = { YieldsFirst (λ s. s) };

    ghost remaining = { item_count (λ s. s) };

    #[inline(always)]
    fn next(&mut self) -> Option<Event> {
        if let Some((first, others)) = self.packed.split_first() {
            self.packed = others;
            return Some(first.get());
        }
        let (first, others) = self.plain.split_first()?;
        self.plain = others;
        Some(*first)
    }
}

impl<'a> Listed for Events<'a> {
    ghost use Rattle.std.specs.Prelude.{refl};

    ghost left = { λ s. s };

    ghost may_go_on = { λ s. tt };

    ghost gives_first = { λ s r t h. h };

    ghost ends = { λ s. refl };
}
