ghost use Rattle.std.specs.Prelude.{◌≡◌, ◌<◌, All, IfOk, length};
ghost use Rattle.std.specs.List.{range_with_len};
ghost use Rattle.ira_view_explain_question.specs.ChosenCases.{chosen_cases, present_cases};

use ira_elim::Found;
use ira_event::OutOfMemory;
use std::alloc::Allocator;

/// At most so many cases are explained.
pub(crate) const MOST_CASES: usize = 8;

/// The numbers of the cases that were found present.
fn present_cases<A: Allocator>(alloc: A, found: &[Found<A>]) -> Result<Vec<usize, A>, OutOfMemory>
    ensures value { IfOk result (λ numbers. numbers.items ≡ present_cases found.now) }
    ensures within { IfOk result (λ numbers. All (λ n. n < length found.now) numbers.items) }
{
    let mut numbers = Vec::new(alloc);
    for number in 0..found.len() {
        if let Found::Present(_) = found[number] {
            numbers.push(number)?;
        }
    }
    Ok(numbers)
}

/// The numbers below this one.
fn numbers_below<A: Allocator>(alloc: A, end: usize) -> Result<Vec<usize, A>, OutOfMemory>
    ensures value { IfOk result (λ numbers. numbers.items ≡ range_with_len 0 end) }
    ensures within { IfOk result (λ numbers. All (λ n. n < end) numbers.items) }
{
    let mut numbers = Vec::new(alloc);
    for number in 0..end {
        numbers.push(number)?;
    }
    Ok(numbers)
}

/// The cases to be explained, before only the first ones are: the one of the number that is named, where there is one;
/// else those that were found present, or all where none was.
pub(crate) fn chosen_cases<A: Allocator + Clone>(
    alloc: &A,
    found: &[Found<A>],
    named: Option<u64>,
) -> Result<Vec<usize, A>, OutOfMemory>
    ensures value { IfOk result (λ numbers. numbers.items ≡ chosen_cases named found.now) }
    ensures within { IfOk result (λ numbers. All (λ n. n < length found.now) numbers.items) }
{
    if let Some(number) = named {
        let mut numbers = Vec::new(alloc.clone()?);
        if (number as usize) < found.len() {
            numbers.push(number as usize)?;
        }
        return Ok(numbers);
    }
    let present = present_cases(alloc.clone()?, found)?;
    if present.is_empty() {
        return numbers_below(alloc.clone()?, found.len());
    }
    Ok(present)
}
