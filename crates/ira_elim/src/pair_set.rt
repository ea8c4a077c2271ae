ghost use Rattle.std.specs.Prelude.{◌≡◌, ◌↔◌, ◌<◌, ◌+◌, ◌*◌, ◌/◌, ◌⊎◌, ℕ, IfOk, IsTrue, MatchOption, sum};
ghost use Rattle.ira_elim.specs.PairSet.{Has};

use ira_event::OutOfMemory;
use std::alloc::Allocator;
use std::marker::Model;

/// How many words have a bit for each second place of one first place.
const ROW: usize = 4;

/// How many words there are, for 256 first places.
const WORDS: usize = 256 * ROW;

/// How many words have a bit for each of these.
const SUMMARY: usize = WORDS / 64;

/// A set of ordered pairs of places of a ring.
#[derive(Drop)]
pub(crate) struct PairSet<A: Allocator> {
    /// Bit `b % 64` of word `ROW * a + b / 64` tells whether the set has the pair of `a` and `b`.
    words: Vec<u64, A>,
    /// Bit `w % 64` of word `w / 64` of these tells whether word `w` of `words` has a bit.
    filled: [u64; SUMMARY],
}

impl<A: Allocator> Model for PairSet<A> {
    ghost use Rattle.std.specs.Prelude.{List, ℕ};
    ghost use Rattle.ira_elim.specs.PairSet.{AreWords};

    ghost Value = { List ℕ };

    ghost view = { λ s. s.words.items };

    ghost invariant = { λ s. AreWords s.words.items s.filled };
}

/// The word that has the bit of the pair.
fn word_of(a: u8, b: u8) -> usize
    ensures value { result ≡ 4 * a + b / 64 }
    ensures within { result < 1024 }
{
    ROW * usize::from(a) + usize::from(b) / 64
}

impl<A: Allocator> PairSet<A> {
    /// The set without a pair.
    pub(crate) fn new(alloc: A) -> Result<PairSet<A>, OutOfMemory>
        ensures { IfOk result (λ set. (a b : ℕ) → ¬ (Has set a b)) }
    {
        Ok(PairSet {
            words: vec![in alloc; 0; WORDS]?,
            filled: [0; SUMMARY],
        })
    }

    /// Whether the set has the pair.
    pub(crate) fn has(&self, a: u8, b: u8) -> bool
        ensures { IsTrue result ↔ Has self.now a b }
    {
        (self.words[word_of(a, b)] >> (b % 64)) % 2 == 1
    }

    /// The least pair of the set, by its first place and then by its second.
    pub(crate) fn first(&self) -> Option<(u8, u8)>
        ensures { MatchOption result ((a b : ℕ) → ¬ (Has self.now a b)) (λ p. Has self.now p.0 p.1) }
    {
        for i in 0..SUMMARY {
            let filled = self.filled[i];
            if filled != 0 {
                let w = 64 * i + filled.trailing_zeros() as usize;
                let r = self.words[w].trailing_zeros() as usize;
                return Some(((w / ROW) as u8, (64 * (w % ROW) + r) as u8));
            }
        }
        None
    }

    /// Adds a pair.
    pub(crate) fn insert(&mut self, a: u8, b: u8)
        ensures { (c d : ℕ) → Has self.new c d ↔ (Has self.old c d ⊎ ((c ≡ a) × (d ≡ b))) }
    {
        let w = word_of(a, b);
        self.words[w] |= 1 << (b % 64);
        self.filled[w / 64] |= 1 << (w % 64);
    }

    /// Removes a pair.
    pub(crate) fn remove(&mut self, a: u8, b: u8)
        requires { Has self.old a b }
        ensures others { (c d : ℕ) → Has self.new c d ↔ (Has self.old c d × ¬ ((c ≡ a) × (d ≡ b))) }
        ensures fewer { sum self.new < sum self.old }
    {
        let w = word_of(a, b);
        self.words[w] &= !(1 << (b % 64));
        if self.words[w] == 0 {
            self.filled[w / 64] &= !(1 << (w % 64));
        }
    }
}
