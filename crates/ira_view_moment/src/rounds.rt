ghost use Rattle.std.specs.Prelude.{◌≡◌, IfOk, map};
ghost use Rattle.ira_order.specs.Cut.{IsCut};
ghost use Rattle.ira_order.specs.Run.{AreLocalRuns};
ghost use Rattle.ira_view_moment.specs.Drawing.{IsAdded, joined};
ghost use Rattle.ira_view_moment.specs.Moment.{whole_cut};
ghost use Rattle.ira_view_moment.specs.Rounds.{AreInOrder, AreRounds, drawn};

use crate::cuts::cut_at_end;
use ira_event::{Event, Logs, OutOfMemory};
use ira_node::{NodeState, Phase};
use std::alloc::Allocator;
use std::marker::Model;

/// What was drawn in a round of a term.
#[derive(Drop)]
pub struct Round<A: Allocator> {
    pub term: u32,
    pub number: u32,
    /// The places that drew, each with its ID.
    pub draws: Vec<(u8, u32), A>,
    pub greatest: u32,
    /// The places that drew the greatest ID.
    pub greatest_of: Vec<u8, A>,
}

impl<A: Allocator> Round<A> {
    /// Adds a draw.
    fn add(&mut self, place: u8, id: u32) -> Result<(), OutOfMemory>
        ensures { IfOk result (λ _. drawn self.new ≡ joined place id (drawn self.old)) }
    {
        self.draws.push((place, id))?;
        if id > self.greatest {
            self.greatest = id;
            self.greatest_of.clear();
        }
        if id == self.greatest {
            self.greatest_of.push(place)?;
        }
        Ok(())
    }
}

/// The rounds in which nodes drew, in their order.
#[derive(Drop)]
pub struct Rounds<A: Allocator> {
    rounds: Vec<Round<A>, A>,
}

impl<A: Allocator> Model for Rounds<A> {
    ghost use Rattle.std.specs.Prelude.{List, map};
    ghost use Rattle.ira_view_moment.specs.Rounds.{DrawnRound, drawn};

    ghost Value = { List DrawnRound };

    ghost view = { λ r. map drawn r.rounds.items };
}

impl<A: Allocator> Rounds<A> {
    pub fn as_slice(&self) -> &[Round<A>]
        ensures { map drawn result.now ≡ self.now }
    {
        &self.rounds
    }
}

impl<A: Allocator + Clone> Rounds<A> {
    /// The rounds up to a cut of the logs.
    pub fn of<L: Allocator>(alloc: A, logs: &Logs<L>, cut: &[u32]) -> Result<Rounds<A>, OutOfMemory>
        requires local { AreLocalRuns logs.now }
        requires cut { IsCut logs.now cut.now }
        ensures { IfOk result (λ rounds. AreRounds logs.now cut.now rounds) }
    {
        let mut rounds = Rounds {
            rounds: Vec::new(alloc.clone()?),
        };
        for place in 0..logs.size().get() {
            let log = logs.log(place);
            let mut state = NodeState::first(log.initiator());
            for k in 0..cut[usize::from(place)] {
                let event = log.event(k + 1);
                let (term, phase) = (state.term, state.phase);
                match state.advance(log.nodes(), &event) {
                    Ok(()) => {}
                    Err(_) => unreachable!(),
                }
                if let Event::Draw(id) = event {
                    if let Phase::Choosing { round } = phase {
                        rounds.add(&alloc, (term, round), place, id)?;
                    }
                }
            }
        }
        Ok(rounds)
    }

    /// The rounds up to the end of the logs.
    pub fn at_end(alloc: A, logs: &Logs<A>) -> Result<Rounds<A>, OutOfMemory>
        requires { AreLocalRuns logs.now }
        ensures { IfOk result (AreRounds logs.now (whole_cut logs.now)) }
    {
        let cut = cut_at_end(alloc.clone()?, logs)?;
        Rounds::of(alloc, logs, &cut)
    }

    /// Adds a draw to its round, by term and number.
    fn add(&mut self, alloc: &A, key: (u32, u32), place: u8, id: u32) -> Result<(), OutOfMemory>
        requires { AreInOrder self.old }
        ensures { IfOk result (λ _. IsAdded key.0 key.1 place id self.old self.new) }
    {
        match self
            .rounds
            .binary_search_by_key(&key, |round| (round.term, round.number))
        {
            Ok(at) => self.rounds[at].add(place, id)?,
            Err(at) => {
                let round = Round {
                    term: key.0,
                    number: key.1,
                    draws: vec![in alloc.clone()?; (place, id)]?,
                    greatest: id,
                    greatest_of: vec![in alloc.clone()?; place]?,
                };
                self.rounds.insert(at, round)?;
            }
        }
        Ok(())
    }
}
