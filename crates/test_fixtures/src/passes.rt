use ira_links::Gate;
use std::sync::Wait;
use std::sync::atomic::{AtomicU64, Ordering};
use std::time::Clock;

/// A gate that holds nobody, and counts how often each of the numbers 0 to 15 passed, up to 15 times each.
#[derive(Drop)]
pub struct Passes {
    counts: AtomicU64,
}

impl Passes {
    /// A gate that nobody has passed.
    pub fn new() -> Passes {
        Passes {
            counts: AtomicU64::new(0),
        }
    }

    /// How often each number passed: a hexadecimal digit for each, that of number 0 last.
    pub fn counts(&self) -> u64 {
        self.counts.load(Ordering::SeqCst)
    }
}

impl Gate for Passes {
    fn pass<R: Wait + Clock>(&self, _rt: &R, who: u32) {
        let one = 1u64.wrapping_shl(who.wrapping_mul(4));
        self.counts.fetch_add(one, Ordering::SeqCst);
    }

    fn admit(&self, _who: u32) -> bool {
        true
    }
}
