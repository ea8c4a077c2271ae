use crate::refusing::Refusing;
use std::alloc::Global;

/// More growths than any call asks for.
const MOST: u64 = 10_000;

/// Whether a call gave an answer, of which nothing else is asked.
pub fn has_answered<T: Drop, E: Drop>(answer: Result<T, E>) -> bool {
    answer.is_ok()
}

/// Makes each of the calls with its first growth refused, then with its second, and so on until it meets no refusal; and
/// after each refusal once more with ample memory. Gives how many growths were refused in all, or the place of the first
/// call that failed its trial, with the number of the growth that was to be refused.
///
/// `answers` makes a call with the memory that it is given, and says whether it gave its answer; else it gave up for want
/// of memory. A call fails its trial where it gives up though nothing was refused, or with ample memory after a refusal;
/// and where it asks for no growth.
pub fn each_growth_refused<C, F>(heap: Global, calls: &[C], answers: F) -> Result<u64, (usize, u64)>
where
    F: Fn(&C, Refusing<Global>) -> bool,
    requires { F.IsAlwaysCallable answers }
{
    let Ok(memory) = Refusing::new(heap) else {
        return Err((0, 0));
    };
    let mut refused = 0_u64;
    for (place, call) in calls.iter().enumerate() {
        match refused_of(&memory, call, &answers) {
            Ok(growths) => refused = refused.saturating_add(growths),
            Err(number) => return Err((place, number)),
        }
    }
    Ok(refused)
}

/// How many growths of this call were refused, or the number of the one at which it failed its trial.
fn refused_of<C, F>(memory: &Refusing<Global>, call: &C, answers: &F) -> Result<u64, u64>
where
    F: Fn(&C, Refusing<Global>) -> bool,
    requires { F.IsAlwaysCallable answers.now }
{
    for number in 1..=MOST {
        memory.refuse(number);
        let is_answered = answers_in(memory, call, answers);
        let is_refused = number <= memory.asked();
        memory.serve_all();
        if !is_refused && is_answered && number > 1 {
            return Ok(number - 1);
        }
        if !is_refused || !answers_in(memory, call, answers) {
            return Err(number);
        }
    }
    Err(MOST)
}

/// Whether this call gives its answer with a handle of this memory.
fn answers_in<C, F>(memory: &Refusing<Global>, call: &C, answers: &F) -> bool
where
    F: Fn(&C, Refusing<Global>) -> bool,
    requires { F.IsAlwaysCallable answers.now }
{
    match memory.clone() {
        Ok(alloc) => answers(call, alloc),
        Err(_) => false,
    }
}
