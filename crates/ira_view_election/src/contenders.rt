ghost use Rattle.std.specs.Prelude.{◌≡◌, ◌⊎◌, ℕ, ◌<◌, ◌≤◌, ◌↔◌, IfOk, IsTrue, List, [], Some, false, length, map, slice_get};
ghost use Rattle.ira_election.specs.Draws.{IsContender, Starts};
ghost use Rattle.ira_view_election.specs.Contenders.{AreContenders, drew_less, is_outdrawn};
ghost use Rattle.ira_view_moment.specs.Moment.{IsMoment};
ghost use Rattle.ira_view_moment.specs.declared.node_progress.NodeProgress.{NodeProgress};
ghost use Rattle.ira_view_moment.specs.Rounds.{AreRounds, drawn};
ghost use Rattle.ira_view_moment.specs.Those.{AreThosePlaces};

use ira_event::{Logs, OutOfMemory};
use ira_node::Phase;
use ira_view_moment::{Moment, Round, Rounds};
use std::alloc::Allocator;

/// Whether the node drew in the round, and another one more.
fn drew_less<R: Allocator>(round: &Round<R>, place: u8) -> bool
    ensures { result ≡ drew_less place (drawn round.now) }
{
    round
        .draws
        .iter()
        .any(|draw| draw.0 == place && draw.1 < round.greatest)
}

/// Whether that is so in a round of the term.
fn is_outdrawn<R: Allocator>(rounds: &[Round<R>], term: u32, place: u8) -> bool
    ensures { result ≡ is_outdrawn rounds.now term place }
{
    rounds
        .iter()
        .any(|round| round.term == term && drew_less(round, place))
}

/// Whether the node begins to choose in the term and isn't outdrawn.
fn is_contender<L: Allocator, R: Allocator>(
    logs: &Logs<L>,
    rounds: &[Round<R>],
    term: u32,
    place: u8,
) -> bool
    requires { place < length logs.now }
    ensures { IsTrue result ↔ (Starts logs.now term place × (is_outdrawn rounds.now term place ≡ false)) }
{
    (term > 1 || logs.log(place).initiator()) && !is_outdrawn(rounds, term, place)
}

/// The nodes of which that is so.
fn contenders_of<A: Allocator, L: Allocator, R: Allocator>(
    alloc: A,
    logs: &Logs<L>,
    rounds: &[Round<R>],
    term: u32,
) -> Result<Vec<u8, A>, OutOfMemory>
    ensures { IfOk result (λ places. (cut : List ℕ) → AreRounds logs.now cut (map drawn rounds.now)
        → AreThosePlaces (IsContender logs.now cut term) places.items) }
{
    let mut places = Vec::new(alloc);
    for place in 0..logs.size().get() {
        if is_contender(logs, rounds, term, place) {
            places.push(place)?;
        }
    }
    Ok(places)
}

/// Whether some node is in a later term, or yields.
fn is_past<M: Allocator>(moment: &Moment<M>, term: u32) -> bool
    ensures { result ≡ false → (i : ℕ) (p : NodeProgress) → slice_get moment.now.nodes i ≡ Some p
        → p.state.term ≤ term }
{
    for place in 0..moment.size() {
        let state = moment.node(place).state;
        if state.term > term || matches!(state.phase, Phase::Yielding) {
            return true;
        }
    }
    false
}

/// Who can still lead by the draws up to a moment, where they are some of the nodes; none where nobody drew yet in the
/// latest term, or its leader yields.
pub(crate) fn contenders<A: Allocator + Clone, L: Allocator, M: Allocator, R: Allocator>(
    alloc: A,
    logs: &Logs<L>,
    moment: &Moment<M>,
    rounds: &Rounds<R>,
) -> Result<Vec<u8, A>, OutOfMemory>
    ensures { IfOk result (λ places. (cut : List ℕ) → IsMoment logs.now cut moment.now
        → AreRounds logs.now cut rounds.now → (places.items ≡ []) ⊎ AreContenders logs.now cut places.items) }
{
    let rounds = rounds.as_slice();
    match rounds.last() {
        Some(last) if !is_past(moment, last.term) => {
            let places = contenders_of(alloc.clone()?, logs, rounds, last.term)?;
            if places.len() < usize::from(logs.size().get()) {
                return Ok(places);
            }
        }
        _ => {}
    }
    Ok(Vec::new(alloc))
}
