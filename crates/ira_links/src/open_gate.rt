ghost use Rattle.std.specs.Prelude.{IsTrue};

use crate::gate::Gate;
use std::sync::Wait;
use std::time::Clock;

/// Lets every thread through at once, and admits all.
#[derive(Clone, Copy, Debug, PartialEq, Eq)]
pub struct OpenGate;

impl Gate for OpenGate {
    fn pass<R: Wait + Clock>(&self, _rt: &R, _who: u32) {}

    fn admit(&self, _who: u32) -> bool
        ensures { IsTrue result }
    {
        true
    }
}
