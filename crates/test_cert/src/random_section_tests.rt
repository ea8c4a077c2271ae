// Sections that are sound or broken at random places: the verdict is the plain checker's.
ghost use Rattle.std.specs.Prelude.{◌<◌};

use crate::verdicts::{judge, judge_split};
use ira_cert::{CertStep, Verdict};
use ira_links::OpenGate;
use std::process::Abort;
use std::sync::Wait;
use std::thread::Threads;
use std::time::Clock;
use test_fixtures::{LEADER_AND_UNBEATEN, TIE, step};

/// Numbers that look random (Knuth's linear congruential generator, MMIX).
#[derive(Drop)]
struct Draws {
    state: u64,
}

impl Draws {
    /// The next number, below `end`.
    fn below(&mut self, end: u32) -> u32
        requires { 0 < end }
        ensures { result < end }
    {
        let times = self.state.wrapping_mul(6_364_136_223_846_793_005);
        self.state = times.wrapping_add(1_442_695_040_888_963_407);
        (self.state >> 33) as u32 % end
    }

    /// The k-th step of a sound section, or any other.
    fn step(&mut self, k: u32) -> CertStep {
        if self.below(16) > 0 {
            return step(1, k, 0, 9);
        }
        let node = self.below(3) as u8;
        let pos = self.below(10);
        let other = self.below(3) as u8;
        step(node, pos, other, self.below(10))
    }

    /// The steps of a section, nine at the most.
    fn steps(&mut self, rt: &(impl Abort + AllocGlobal)) -> Vec<CertStep> {
        let mut steps = Vec::new(rt.alloc());
        for k in 0..self.below(4) + 6 {
            steps.push(self.step(k)).expect(rt, "memory");
        }
        steps
    }

    /// The node that a section spends.
    fn spent(&mut self) -> u8 {
        if self.below(8) > 0 { 1 } else { 0 }
    }
}

/// Whether the section of these steps is sound, where the verdict is the same at each depth.
fn is_sound<R: Abort + AllocGlobal + Threads + Wait + Clock + Sync>(
    rt: &R,
    steps: &[CertStep],
    spent: u8,
) -> bool {
    let plain = judge(rt, &TIE, LEADER_AND_UNBEATEN, steps, spent);
    for depth in 0..5 {
        let split = judge_split(
            rt,
            &TIE,
            LEADER_AND_UNBEATEN,
            steps,
            spent,
            depth,
            &OpenGate,
        );
        assert!(rt; split == plain, "depth {depth}");
    }
    plain == Verdict::Yes
}

/// Compares the verdicts on 500 sections, among which both verdicts are.
fn compare_sections<R: Abort + AllocGlobal + Threads + Wait + Clock + Sync>(rt: &R, seed: u64) {
    let mut draws = Draws { state: seed };
    let mut sound = 0u32;
    for _ in 0..500 {
        let steps = draws.steps(rt);
        if is_sound(rt, &steps, draws.spent()) {
            sound = sound.saturating_add(1);
        }
    }
    assert!(rt; sound > 20 && sound < 480);
}

// 2,000 sections in four parts: each starts thousands of threads.

#[test]
fn random_sections_of_seed_1(rt: HostRuntime) {
    compare_sections(&rt, 1);
}

#[test]
fn random_sections_of_seed_2(rt: HostRuntime) {
    compare_sections(&rt, 2);
}

#[test]
fn random_sections_of_seed_3(rt: HostRuntime) {
    compare_sections(&rt, 3);
}

#[test]
fn random_sections_of_seed_4(rt: HostRuntime) {
    compare_sections(&rt, 4);
}
