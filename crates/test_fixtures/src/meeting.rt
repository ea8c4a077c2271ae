use ira_links::Gate;
use std::sync::Wait;
use std::sync::atomic::{AtomicU64, Ordering};
use std::thread;
use std::time::{Clock, Duration};

/// How long a gate sleeps between two looks, in milliseconds.
pub const TURN: u64 = 5;

/// After so many turns a gate lets go.
const MOST_TURNS: u32 = 2_000;

/// Waits until a counter has come so far. False where it hasn't in all turns.
pub fn comes_to<R: Clock>(rt: &R, counter: &AtomicU64, least: u64) -> bool {
    for _ in 0..MOST_TURNS {
        if counter.load(Ordering::SeqCst) >= least {
            return true;
        }
        thread::sleep(rt, Duration::from_millis(TURN));
    }
    false
}

/// A gate that holds each thread that passes until so many have come.
#[derive(Drop)]
pub struct Meeting {
    wanted: u64,
    come: AtomicU64,
    missed: AtomicU64,
}

impl Meeting {
    /// A gate for so many threads, to which nobody has come.
    pub fn new(wanted: u64) -> Meeting {
        Meeting {
            wanted,
            come: AtomicU64::new(0),
            missed: AtomicU64::new(0),
        }
    }

    /// How many passes were let go before so many had come.
    pub fn missed(&self) -> u64 {
        self.missed.load(Ordering::SeqCst)
    }
}

impl Gate for Meeting {
    fn pass<R: Wait + Clock>(&self, rt: &R, _who: u32) {
        self.come.fetch_add(1, Ordering::SeqCst);
        if !comes_to(rt, &self.come, self.wanted) {
            self.missed.fetch_add(1, Ordering::SeqCst);
        }
    }

    fn admit(&self, _who: u32) -> bool {
        true
    }
}
