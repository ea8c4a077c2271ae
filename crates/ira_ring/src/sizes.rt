ghost use Rattle.std.specs.Prelude.{◌≡◌, ◌↔◌, IfSome, IsSome};
ghost use Rattle.ira_event.specs.RingSize.{IsRingSize};

use ira_event::RingSize;

/// The size of a ring of so many nodes, where a ring has so many.
pub fn ring_size(nodes: u64) -> Option<RingSize>
    ensures some { IsSome result ↔ IsRingSize nodes }
    ensures value { IfSome result (λ size. size ≡ nodes) }
{
    RingSize::new(u8::try_from(nodes).ok()?)
}
