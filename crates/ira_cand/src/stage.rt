ghost use Rattle.std.specs.Prelude.{◌≡◌};
ghost use Rattle.ira_cand.specs.Profile.{in_first_round, phase_in_first_round, stage};

use ira_node::{NodeState, Phase};

/// What a clause sees of a state, but for its debt: the term and the phase.
#[derive(Clone, Copy, Debug, PartialEq, Eq)]
pub(crate) struct Stage {
    pub term: u32,
    pub phase: Phase,
}

impl Stage {
    /// That of a state.
    #[inline(always)]
    pub(crate) fn of(state: &NodeState) -> Stage
        ensures { result ≡ stage state.now }
    {
        Stage {
            term: state.term,
            phase: state.phase,
        }
    }

    /// The same in the first round of the first term. A clause that names neither a round nor a term can't tell the two
    /// apart.
    pub(crate) fn in_first_round(self) -> Stage
        ensures { result ≡ in_first_round self }
    {
        Stage {
            term: 1,
            phase: phase_in_first_round(self.phase),
        }
    }
}

fn phase_in_first_round(phase: Phase) -> Phase
    ensures { result ≡ phase_in_first_round phase }
{
    match phase {
        Phase::Choosing { .. } => Phase::Choosing { round: 1 },
        Phase::Active { id, .. } => Phase::Active { round: 1, id },
        Phase::Leader { id, .. } => Phase::Leader { round: 1, id },
        Phase::Passive | Phase::Yielding => phase,
    }
}
