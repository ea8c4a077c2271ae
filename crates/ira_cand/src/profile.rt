ghost use Rattle.std.specs.Prelude.{◌≡◌, ◌+◌, ◌++◌, ◌∷◌, ◌<◌, ◌≤◌, [], ℕ, Bool, List, Some, is_some, length, replicate};
ghost use Rattle.std.specs.Prelude.{All, IfOk, OnOk, slice_get};
ghost use Rattle.ira_event.specs.declared.event.Event.{Event};
ghost use Rattle.ira_event.specs.Messages.{sending};
ghost use Rattle.ira_node.specs.declared.node_state.NodeState.{NodeState};
ghost use Rattle.ira_pred.specs.Clause.{formula};
ghost use Rattle.ira_pred.specs.Formula.{Formula};
ghost use Rattle.ira_cand.specs.Candidates.{AreCandidates};
ghost use Rattle.ira_cand.specs.Profile.{HasKind, TableAt, answers_in, in_first_round};
ghost use Rattle.ira_cand.specs.declared.phase_span.PhaseSpan.{PhaseSpan};
ghost use Rattle.ira_cand.specs.declared.stage.Stage.{Stage};

use crate::phase_span::PhaseSpan;
use crate::stage::Stage;
use ira_event::{Event, Load, Msg, NodeLog, OutOfMemory};
use ira_node::NodeState;
use ira_pred::Clause;
use std::alloc::Allocator;
use std::marker::Model;

/// The states of a log, told in short: a clause sees no more of a state than its term, its phase and whether something
/// is owed, and phases change seldom, terms with them alone; and a node owes something exactly where the next event is a
/// sending. So the candidates for a clause are found by trying it twice at most for each phase, and no state is computed
/// again. A clause that names neither a round nor a term is tried for each phase without an ID and for each ID. It takes
/// a few words for each change of phase.
#[derive(Drop)]
pub struct Profile<'a, A: Allocator> {
    log: &'a NodeLog<A>,
    /// All states but the last one.
    spans: Vec<PhaseSpan, A>,
    /// The stages of the spans in the first round of the first term, each once.
    kinds: Vec<Stage, A>,
    /// The last state, of which no event tells whether it owes something.
    last: NodeState,
}

impl<'a, A: Allocator> Model for Profile<'a, A> {
    ghost use Rattle.ira_event.specs.Log.{Log};
    ghost use Rattle.ira_cand.specs.Profile.{IsProfile};

    ghost Value = { Log };

    ghost view = { λ p. p.log.now };

    ghost invariant = { λ p. IsProfile p.log.now p.spans.items p.kinds.items p.last };
}

impl<'a, A: Allocator + Clone> Profile<'a, A> {
    /// The profile of the log, found in one pass.
    pub fn new(alloc: A, log: &'a NodeLog<A>) -> Result<Profile<'a, A>, OutOfMemory>
        ensures { IfOk result (λ p. p ≡ log.now) }
    {
        let mut spans = Vec::new(alloc.clone()?);
        let mut kinds = Vec::new(alloc);
        let mut events = log.events();
        let mut state = NodeState::first(log.initiator());
        let (mut stage, mut count) = (Stage::of(&state), 0);
        while let Some(event) = events.next() {
            if state.advance(log.nodes(), &event).is_err() {
                break;
            }
            count += 1;
            let after = Stage::of(&state);
            if after != stage {
                add_span(&mut spans, &mut kinds, stage, count)?;
                stage = after;
                count = 0;
            }
        }
        add_span(&mut spans, &mut kinds, stage, count)?;
        Ok(Profile {
            log,
            spans,
            kinds,
            last: state,
        })
    }

    /// The candidates of the log for a clause, as a list.
    pub fn table(&self, alloc: A, clause: &Clause<A>) -> Result<Vec<u32, A>, OutOfMemory>
        ensures { IfOk result (λ v. AreCandidates self.now (formula clause.now) v.items) }
    {
        let known = known_answers(alloc.clone()?, clause, &self.kinds)?;
        let last = self.last;
        let mut found = Vec::new(alloc);
        let mut position = 0;
        for span in &self.spans {
            let end = position + span.count;
            self.pick(
                &mut found,
                position,
                end,
                span_answers(clause, span, &known),
            )?;
            position = end;
        }
        if clause.holds(&last) {
            found.push(position)?;
        }
        Ok(found)
    }

    /// Adds the positions of the states of a span that pass, by its two answers.
    fn pick(
        &self,
        found: &mut Vec<u32, A>,
        begin: u32,
        end: u32,
        answers: (bool, bool),
    ) -> Result<(), OutOfMemory>
        requires { end ≤ length self.now.events }
        ensures { OnOk result ((last : NodeState) (f : Formula) (at : Stage) (n : ℕ) (rest : List Stage)
            → begin + n ≡ end → answers ≡ answers_in f at
            → TableAt self.now last f (replicate n at ++ rest) begin found.old.items
            → TableAt self.now last f rest end found.new.items) }
    {
        let (free, owing) = answers;
        if !free && !owing {
            return Ok(());
        }
        for p in begin..end {
            if free == owing || self.sends_after(p) == owing {
                found.push(p)?;
            }
        }
        Ok(())
    }

    /// Whether the event after so many is a sending.
    #[inline(always)]
    fn sends_after(&self, count: u32) -> bool
        requires { count < length self.now.events }
        ensures { (e : Event) → slice_get self.now.events count ≡ Some e → result ≡ is_some (sending e) }
    {
        matches!(self.log.event(count + 1), Event::Sent(_))
    }
}

/// Adds a span of so many states after the others.
fn add_span<A: Allocator>(
    spans: &mut Vec<PhaseSpan, A>,
    kinds: &mut Vec<Stage, A>,
    stage: Stage,
    count: u32,
) -> Result<(), OutOfMemory>
    requires { All (HasKind kinds.old.items) spans.old.items }
    ensures kinds { OnOk result (All (HasKind kinds.new.items) spans.new.items) }
    ensures span { OnOk result ((span : PhaseSpan) × (spans.new.items ≡ spans.old.items ++ span ∷ [])
        × (span.stage ≡ stage) × (span.count ≡ count)) }
{
    let kind = find_kind(kinds, stage.in_first_round())?;
    spans.push(PhaseSpan { stage, kind, count })?;
    Ok(())
}

/// Where the kinds have this one. Where they lack it, it is put after them.
fn find_kind<A: Allocator>(kinds: &mut Vec<Stage, A>, kind: Stage) -> Result<usize, OutOfMemory>
    ensures found { IfOk result (λ k. slice_get kinds.new.items k ≡ Some kind) }
    ensures kept { (k : ℕ) (other : Stage) → slice_get kinds.old.items k ≡ Some other
        → slice_get kinds.new.items k ≡ Some other }
{
    for k in 0..kinds.len() {
        if kinds[k] == kind {
            return Ok(k);
        }
    }
    kinds.push(kind)?;
    Ok(kinds.len() - 1)
}

/// What the clause answers in this phase of this term: where nothing is owed, and where something is.
fn answers<A: Allocator>(clause: &Clause<A>, stage: Stage) -> (bool, bool)
    ensures { result ≡ answers_in (formula clause.now) stage }
{
    let message = Msg {
        round: 1,
        id: 1,
        hop: 1,
        dirty: false,
    };
    let Stage { term, phase } = stage;
    let free = clause.holds(&NodeState {
        phase,
        owed: None,
        term,
    });
    if !clause.names_debt() {
        return (free, free);
    }
    let owing = clause.holds(&NodeState {
        phase,
        owed: Some(Load::Msg(message)),
        term,
    });
    (free, owing)
}

/// What the clause answers of each kind, where it tells no more stages apart than these; else nothing.
fn known_answers<A: Allocator>(
    alloc: A,
    clause: &Clause<A>,
    kinds: &[Stage],
) -> Result<Vec<(bool, bool), A>, OutOfMemory>
    ensures { IfOk result (λ known. (k : ℕ) (stage : Stage) (both : Bool × Bool)
        → slice_get kinds.now k ≡ Some (in_first_round stage) → slice_get known.items k ≡ Some both
        → both ≡ answers_in (formula clause.now) stage) }
{
    let mut known = Vec::new(alloc);
    if clause.names_round_or_term() {
        return Ok(known);
    }
    for kind in kinds {
        known.push(answers(clause, *kind))?;
    }
    Ok(known)
}

/// What the clause answers in the phase of the span, where that of its kind may be known.
fn span_answers<A: Allocator>(
    clause: &Clause<A>,
    span: &PhaseSpan,
    known: &[(bool, bool)],
) -> (bool, bool)
    requires { (both : Bool × Bool) → slice_get known.now span.now.kind ≡ Some both
        → both ≡ answers_in (formula clause.now) span.now.stage }
    ensures { result ≡ answers_in (formula clause.now) span.now.stage }
{
    match known.get(span.kind) {
        Some(both) => *both,
        None => answers(clause, span.stage),
    }
}
