ghost use Rattle.std.specs.Prelude.{◌≡◌, ◌↔◌, IsTrue};
ghost use Rattle.ira_pred.specs.Clause.{formula, Holds};
ghost use Rattle.ira_pred.specs.ClauseAnswer.{compare_test, compare_some_test, round_of, id_of, holds_test};
ghost use Rattle.ira_pred.specs.Formula.{names_debt, names_round_or_term};

use crate::rel::Rel;
use ira_node::{NodeState, Phase};
use std::alloc::Allocator;

/// What may be asked of one node's state: a local predicate (Garg and Waldecker 1994).
#[derive(Debug, Drop)]
pub enum Clause<A: Allocator> {
    /// It holds of every state.
    Always,
    /// The node leads.
    Leader,
    /// The node takes part in a round under an ID.
    Active,
    /// The node passes messages on.
    Passive,
    /// The node is about to draw an ID.
    Choosing,
    /// The node led, has yielded, and waits for its reset.
    Yielding,
    /// The node owes a message or a reset.
    Owes,
    /// The node's round compares so with the number. A passive or yielding node has no round.
    Round(Rel, u32),
    /// The node's ID compares so with the number. A choosing, passive or yielding node has no ID.
    Id(Rel, u32),
    /// The node's term compares so with the number.
    Term(Rel, u32),
    /// Both hold.
    Both(Box<Clause<A>, A>, Box<Clause<A>, A>),
    /// The one or the other holds, or both do.
    Either(Box<Clause<A>, A>, Box<Clause<A>, A>),
    /// It doesn't hold.
    Negated(Box<Clause<A>, A>),
}

impl Rel {
    /// Whether `x` compares so with `n`.
    fn compares(self, x: u32, n: u32) -> bool
        ensures { result ≡ compare_test self x n }
    {
        match self {
            Rel::Less => x < n,
            Rel::Equal => x == n,
            Rel::Greater => x > n,
        }
    }

    /// Whether there is a number, and it compares so with `n`.
    fn compares_some(self, found: Option<u32>, n: u32) -> bool
        ensures { result ≡ compare_some_test found self n }
    {
        match found {
            Some(x) => self.compares(x, n),
            None => false,
        }
    }
}

/// The round of the phase. A passive or yielding node has none.
fn round(phase: Phase) -> Option<u32>
    ensures { result ≡ round_of phase }
{
    match phase {
        Phase::Choosing { round } | Phase::Active { round, .. } | Phase::Leader { round, .. } => {
            Some(round)
        }
        Phase::Passive | Phase::Yielding => None,
    }
}

/// The ID of the phase. A choosing, passive or yielding node has none.
fn id(phase: Phase) -> Option<u32>
    ensures { result ≡ id_of phase }
{
    match phase {
        Phase::Active { id, .. } | Phase::Leader { id, .. } => Some(id),
        Phase::Choosing { .. } | Phase::Passive | Phase::Yielding => None,
    }
}

impl<A: Allocator> Clause<A> {
    /// Whether the clause holds of the state.
    pub fn holds(&self, state: &NodeState) -> bool
        ensures value { result ≡ holds_test (formula self.now) state.now }
        ensures meaning { IsTrue result ↔ Holds (formula self.now) state.now }
    {
        match self {
            Clause::Always => true,
            Clause::Leader => matches!(state.phase, Phase::Leader { .. }),
            Clause::Active => matches!(state.phase, Phase::Active { .. }),
            Clause::Passive => matches!(state.phase, Phase::Passive),
            Clause::Choosing => matches!(state.phase, Phase::Choosing { .. }),
            Clause::Yielding => matches!(state.phase, Phase::Yielding),
            Clause::Owes => state.owed.is_some(),
            Clause::Round(rel, n) => rel.compares_some(round(state.phase), *n),
            Clause::Id(rel, n) => rel.compares_some(id(state.phase), *n),
            Clause::Term(rel, n) => rel.compares(state.term, *n),
            Clause::Both(a, b) => a.holds(state) && b.holds(state),
            Clause::Either(a, b) => a.holds(state) || b.holds(state),
            Clause::Negated(a) => !a.holds(state),
        }
    }

    /// Whether both are the same, part by part.
    pub fn is_same_as(&self, other: &Clause<A>) -> bool
        ensures { IsTrue result ↔ (formula self.now ≡ formula other.now) }
    {
        match self {
            Clause::Always => matches!(other, Clause::Always),
            Clause::Leader => matches!(other, Clause::Leader),
            Clause::Active => matches!(other, Clause::Active),
            Clause::Passive => matches!(other, Clause::Passive),
            Clause::Choosing => matches!(other, Clause::Choosing),
            Clause::Yielding => matches!(other, Clause::Yielding),
            Clause::Owes => matches!(other, Clause::Owes),
            Clause::Round(rel, n) => matches!(other, Clause::Round(r, m) if r == rel && m == n),
            Clause::Id(rel, n) => matches!(other, Clause::Id(r, m) if r == rel && m == n),
            Clause::Term(rel, n) => matches!(other, Clause::Term(r, m) if r == rel && m == n),
            Clause::Both(a, b) => {
                matches!(other, Clause::Both(c, d) if a.is_same_as(c) && b.is_same_as(d))
            }
            Clause::Either(a, b) => {
                matches!(other, Clause::Either(c, d) if a.is_same_as(c) && b.is_same_as(d))
            }
            Clause::Negated(a) => matches!(other, Clause::Negated(b) if a.is_same_as(b)),
        }
    }

    /// Whether it compares a round or a term, of which a log may have as many as it has events. Any other clause tells
    /// no more states apart than there are IDs, and a few for the phases without one.
    pub fn names_round_or_term(&self) -> bool
        ensures { result ≡ names_round_or_term (formula self.now) }
    {
        match self {
            Clause::Round(..) | Clause::Term(..) => true,
            Clause::Always
            | Clause::Leader
            | Clause::Active
            | Clause::Passive
            | Clause::Choosing
            | Clause::Yielding
            | Clause::Owes
            | Clause::Id(..) => false,
            Clause::Both(a, b) | Clause::Either(a, b) => {
                a.names_round_or_term() || b.names_round_or_term()
            }
            Clause::Negated(a) => a.names_round_or_term(),
        }
    }

    /// Whether it asks if something is owed. Any other clause tells no two states of one phase and term apart.
    pub fn names_debt(&self) -> bool
        ensures { result ≡ names_debt (formula self.now) }
    {
        match self {
            Clause::Owes => true,
            Clause::Both(a, b) | Clause::Either(a, b) => a.names_debt() || b.names_debt(),
            Clause::Negated(a) => a.names_debt(),
            _ => false,
        }
    }
}
