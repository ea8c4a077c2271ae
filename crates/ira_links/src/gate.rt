use std::sync::Wait;
use std::time::Clock;

/// Where the threads of a run go through. Threads are told apart by their numbers, `who`.
pub trait Gate {
    /// Lets the thread through. It may wait.
    fn pass<R: Wait + Clock>(&self, rt: &R, who: u32);

    /// Whether the thread may start. It waits for nobody.
    fn admit(&self, who: u32) -> bool;
}
