ghost use Rattle.std.specs.Prelude.{◌≡◌, ℕ, length, IfOk, IfSome, slice_get};
ghost use Rattle.ira_ring_setup.specs.Draws.{draws};

use ira_event::{OutOfMemory, RingSize};
use rand_core::utils::NextWord;
use rand_pcg::Pcg32;
use std::alloc::{AllocError, Allocator};

/// The first `k` draws of the node at one place.
fn draw_list<A: Allocator>(
    alloc: A,
    nodes: RingSize,
    seed: u64,
    place: u8,
    k: u32,
) -> Result<Vec<u32, A>, AllocError>
    ensures { IfOk result (λ list. list.items ≡ draws nodes seed place k) }
{
    let mut words = Pcg32::new(seed, u64::from(place));
    let mut list = Vec::with_capacity(alloc, k as usize)?;
    for _ in 0..k {
        list.push_reserved(1 + words.next_word() % u32::from(nodes.get()));
    }
    Ok(list)
}

/// The first `k` draws of each node, in the order of the places: each is an ID in `1..=N`, from the
/// words of a PCG32 generator whose state is the seed and whose stream is the place (O'Neill, PCG: A
/// Family of Simple Fast Space-Efficient Statistically Good Algorithms for Random Number Generation,
/// 2014).
pub fn draw_lists<A: Allocator + Clone>(
    alloc: A,
    nodes: RingSize,
    seed: u64,
    k: u32,
) -> Result<Vec<Vec<u32, A>, A>, OutOfMemory>
    ensures number { IfOk result (λ lists. length lists.items ≡ nodes) }
    ensures lists { IfOk result
        (λ lists. (place : ℕ)
        → IfSome (slice_get lists.items place) (λ list. list.items ≡ draws nodes seed place k)) }
{
    let mut lists = Vec::with_capacity(alloc.clone()?, usize::from(nodes.get()))?;
    for place in 0..nodes.get() {
        lists.push_reserved(draw_list(alloc.clone()?, nodes, seed, place, k)?);
    }
    Ok(lists)
}
