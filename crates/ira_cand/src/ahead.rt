ghost use Rattle.std.specs.Prelude.{◌≡◌, nat_le, drop, filter, slice_get};
ghost use Rattle.std.specs.List.Sorted.{IsStrictlyIncreasing};

use ira_event::Listed;
use std::marker::Model;

/// Rising positions of which the first can be looked at before it is taken; seen by contracts as the
/// list of those that are left. Nothing is kept but that first one.
#[derive(Drop)]
pub struct Ahead<I: Iterator<Item = u32> + Listed> {
    front: Option<u32>,
    rest: I,
}

impl<I: Iterator<Item = u32> + Listed> Model for Ahead<I> {
    ghost use Rattle.std.specs.Prelude.{List, ℕ};
    ghost use Rattle.std.specs.List.Sorted.{IsStrictlyIncreasing};
    ghost use Rattle.ira_cand.specs.Ahead.{with_front};

    ghost Value = { List ℕ };

    ghost view = { λ a. with_front a.front (I.left a.rest) };

    ghost invariant = { λ a. IsStrictlyIncreasing (with_front a.front (I.left a.rest)) };
}

impl<I: Iterator<Item = u32> + Listed> Ahead<I> {
    /// All positions of the source.
    pub fn new(mut rest: I) -> Ahead<I>
        requires { IsStrictlyIncreasing (I.left rest) }
        ensures { result ≡ I.left rest }
    {
        let front = rest.next();
        Ahead { front, rest }
    }

    /// The first position left, which stays.
    pub fn front(&self) -> Option<u32>
        ensures value { result ≡ slice_get self.now 0 }
        ensures rising { IsStrictlyIncreasing self.now }
    {
        self.front
    }

    /// Removes the first position left; at the end nothing happens.
    pub fn advance(&mut self)
        ensures { self.new ≡ drop 1 self.old }
    {
        if self.front.is_some() {
            self.front = self.rest.next();
        }
    }

    /// Removes the positions below `p`. It looks at no position but those and the next one.
    pub fn skip_below(&mut self, p: u32)
        ensures { self.new ≡ filter (nat_le p) self.old }
    {
        while let Some(position) = self.front() {
            if position >= p {
                break;
            }
            self.advance();
        }
    }
}
