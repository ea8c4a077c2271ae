//! Random texts of questions are read, and written as they were.

ghost use Rattle.std.specs.Prelude.{◌≤◌, ◌<◌};

use crate::question_samples::is_read;
use std::mem;
use std::process::Abort;

/// How many texts are read.
const TEXTS: u32 = 100_000;

const ATOMS: [&str; 7] = [
    "true", "leader", "active", "passive", "choosing", "yielding", "owes",
];

const COMPARED: [&str; 3] = ["round", "id", "term"];

const SIGNS: [&str; 3] = ["<", "=", ">"];

/// A linear congruential generator (Knuth, The Art of Computer Programming, volume 2, 3.3.4).
#[derive(Drop)]
struct Random {
    state: u64,
}

impl Random {
    /// A number below `n`.
    fn below(&mut self, n: u32) -> usize
        requires { 1 ≤ n }
        ensures { result < n }
    {
        self.state = self
            .state
            .wrapping_mul(6_364_136_223_846_793_005)
            .wrapping_add(1_442_695_040_888_963_407);
        ((self.state >> 33) % u64::from(n)) as usize
    }
}

/// A number below 4, but sometimes the most.
fn mostly_few(random: &mut Random, most: usize) -> usize
    requires { most ≤ 62 }
    ensures { result ≤ 62 }
{
    if random.below(32) == 0 {
        return most;
    }
    random.below(4)
}

/// The text of a clause without parentheses.
fn atom(rt: &(impl Abort + AllocGlobal), random: &mut Random) -> String {
    let kind = random.below(10);
    if kind < 7 {
        return ATOMS[kind].to_string(rt.alloc()).expect(rt, "memory");
    }
    let word = COMPARED[kind - 7];
    let sign = SIGNS[random.below(3)];
    let most = [2, 10, 1_000_001][random.below(3)];
    let n = random.below(most);
    format!(in rt.alloc(); "{word} {sign} {n}").expect(rt, "memory")
}

/// The two clauses with `and` or `or` between them.
fn joined(rt: &(impl Abort + AllocGlobal), random: &mut Random, left: &str, right: &str) -> String {
    let word = ["and", "or"][random.below(2)];
    format!(in rt.alloc(); "({left} {word} {right})").expect(rt, "memory")
}

/// The text of a clause that is nested no deeper than `turns`: each turn makes one more clause, or a
/// larger one of those that were made, and at last all are joined.
fn clause(rt: &(impl Abort + AllocGlobal), random: &mut Random, turns: usize) -> String {
    let mut made = Vec::new(rt.alloc());
    let mut last = atom(rt, random);
    for _ in 0..turns {
        match random.below(3) {
            0 => {
                let left = mem::replace(&mut last, atom(rt, random));
                made.push(left).expect(rt, "memory");
            }
            1 => last = format!(in rt.alloc(); "(not {last})").expect(rt, "memory"),
            _ => {
                if let Some(left) = made.pop() {
                    last = joined(rt, random, &left, &last);
                }
            }
        }
    }
    // No turn made more than one clause.
    for _ in 0..turns {
        if let Some(left) = made.pop() {
            last = joined(rt, random, &left, &last);
        }
    }
    last
}

/// Adds the lines of a case of a ring of so many nodes.
fn push_case(
    rt: &(impl Abort + AllocGlobal),
    random: &mut Random,
    nodes: usize,
    text: &mut String,
) {
    text.push_str("case\n").expect(rt, "memory");
    let sure = random.below(2);
    for place in 0..nodes {
        if place == sure || random.below(8) == 0 {
            let turns = mostly_few(random, 32);
            let clause = clause(rt, random, turns);
            write!(text, "{place}: {clause}\n").expect(rt, "memory");
        }
    }
}

fn question(rt: &(impl Abort + AllocGlobal), random: &mut Random) -> String {
    let nodes = mostly_few(random, 62) + 2;
    let mut text = format!(in rt.alloc(); "irask 1\nnodes {nodes}\n").expect(rt, "memory");
    for _ in 0..1 + random.below(3) {
        push_case(rt, random, nodes, &mut text);
    }
    text.push_str("end\n").expect(rt, "memory");
    text
}

#[test]
fn random_questions(rt: HostRuntime) {
    let mut random = Random { state: 7 };
    for _ in 0..TEXTS {
        let text = question(&rt, &mut random);
        assert!(rt; is_read(rt.alloc(), text.as_bytes()));
    }
}
