// What is found for each conjunct of a case, place by place.
ghost use Rattle.std.specs.Prelude.{◌≡◌, ◌<◌, ℕ, Ok, Some, IfOk, OnOk, MatchOption, length, slice_get};
ghost use Rattle.ira_pred.specs.Case.{Conjunct};
ghost use Rattle.ira_cert.specs.Conjuncts.{IsAsked, HasDifferentPlaces};
ghost use Rattle.ira_cert.specs.Queues.{AreFoundFor, IsFoundFor};

use ira_event::{OutOfMemory, RingSize};
use ira_pred::Case;
use std::alloc::Allocator;

/// What is found for each clause of the case, which is told by its number, at its place; nothing at the places that
/// the case doesn't ask.
pub fn map_conjuncts<T: Drop, F, A: Allocator>(
    alloc: A,
    nodes: RingSize,
    case: &Case<A>,
    find: F,
) -> Result<Vec<Option<T>, A>, OutOfMemory>
where
    F: Fn(usize) -> Result<T, OutOfMemory>,
    requires { (n : ℕ) → n < length case.now → F.pre find n }
    ensures different { OnOk result (HasDifferentPlaces case.now) }
    ensures count { IfOk result (λ found. length found.items ≡ nodes) }
    ensures found { IfOk result (λ found. AreFoundFor (λ n t. F.post find n (Ok t)) case.now found.items) }
{
    let nodes = nodes.get();
    let mut found = Vec::with_capacity(alloc, usize::from(nodes))?;
    for place in 0..nodes {
        found.push(find_at(case, place, &find)?)?;
    }
    Ok(found)
}

/// What is found for the clause at the place, if there is one.
fn find_at<T, F, A: Allocator>(
    case: &Case<A>,
    place: u8,
    find: &F,
) -> Result<Option<T>, OutOfMemory>
where
    F: Fn(usize) -> Result<T, OutOfMemory>,
    requires { (n : ℕ) → n < length case.now → F.pre find.now n }
    ensures different { OnOk result (HasDifferentPlaces case.now) }
    ensures found { IfOk result (λ found. IsFoundFor (λ n t. F.post find.now n (Ok t)) case.now place found) }
{
    let Some(number) = number_at(case, place) else {
        return Ok(None);
    };
    Ok(Some(find(number)?))
}

/// The number of the clause at the place, if the case asks the node there.
fn number_at<A: Allocator>(case: &Case<A>, place: u8) -> Option<usize>
    ensures different { HasDifferentPlaces case.now }
    ensures found { MatchOption result (¬ (IsAsked case.now place))
        (λ n. (c : Conjunct) × (slice_get case.now n ≡ Some c) × (c.place ≡ place)) }
{
    for n in 0..case.len() {
        if case.place(n) == place {
            return Some(n);
        }
    }
    None
}
