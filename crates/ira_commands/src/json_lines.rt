ghost use Rattle.std.specs.Prelude.{◌≡◌, length, option_map};
ghost use Rattle.ira_commands.specs.Output.{WroteOutput};
ghost use Rattle.ira_commands.specs.Output.Printed.{json_lines};

use ira_event::Sink;
use ira_view::{ShownRing, Status};
use ira_view_json::ShownAnswer;
use ira_view_page::ShowFault;
use std::alloc::Allocator;
use std::marker::Model;

/// A ring as lines of JSON, which are made as they are written, since there may be many.
#[derive(Drop)]
pub struct JsonLines<A: Allocator> {
    alloc: A,
    ring: ShownRing<A>,
    /// The names of the files of its logs, in their order.
    names: Vec<String<A>, A>,
    /// The places of the nodes that are to lead, if some are named.
    named: Option<Vec<u64, A>>,
    /// Whether all events are told, in an order, and not what the ring looks like at its moment.
    has_events: bool,
    status: Status,
}

impl<A: Allocator> Model for JsonLines<A> {
    ghost use Rattle.std.specs.Coded.{codes};
    ghost use Rattle.std.specs.Prelude.{◌≡◌, length, option_map};
    ghost use Rattle.ira_pred.specs.FormulaCode.{formula_code};
    ghost use Rattle.ira_commands.specs.JsonLines.{JsonLines};

    ghost Value = { JsonLines };

    ghost coded = { Prim.hlevel (codes, formula_code) };

    ghost view = { λ l. record {
      ring = l.ring;
      named = option_map (λ places. places.items) l.named;
      has_events = l.has_events;
      status = l.status;
    } };

    ghost invariant = { λ l. length l.names.items ≡ length l.ring.logs };
}

impl<A: Allocator + Clone> JsonLines<A> {
    pub(crate) fn new(
        alloc: A,
        ring: ShownRing<A>,
        names: Vec<String<A>, A>,
        named: Option<Vec<u64, A>>,
        has_events: bool,
        status: Status,
    ) -> JsonLines<A>
        requires { length names.items ≡ length ring.logs }
        ensures { result ≡ record {
          ring = ring;
          named = option_map (λ places. places.items) named;
          has_events = has_events;
          status = status;
        } }
    {
        JsonLines {
            alloc,
            ring,
            names,
            named,
            has_events,
            status,
        }
    }

    /// The places of the nodes that are to lead, if some are named.
    fn named(&self) -> Option<&[u64]>
        ensures { option_map (λ places. places.now) result ≡ self.now.named }
    {
        match &self.named {
            Some(places) => Some(places.as_slice()),
            None => None,
        }
    }

    /// Writes them, block by block.
    pub(crate) fn write<W: Sink>(&self, sink: &mut W) -> Result<(), ShowFault>
        ensures { WroteOutput (json_lines self.now) result (W.state sink.old) (W.state sink.new) }
    {
        let answer = ShownAnswer {
            status: self.status.number(),
            named: self.named(),
        };
        let alloc = self.alloc.clone()?;
        self.ring
            .write_json(alloc, &self.names, answer, self.has_events, sink)
    }
}
