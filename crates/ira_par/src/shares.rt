// The shares of several threads, and what is found by all of them.
ghost use Rattle.std.specs.Prelude.{◌≡◌, ◌^◌, ◌<◌, ◌≤◌, All, IfOk, length};
ghost use Rattle.ira_par.specs.Task.{IsFoundIn};
ghost use Rattle.ira_par.specs.Share.{HavePlaces, IsFoundBy, IsEarlier, IsFirstFound};

use crate::ranges::range_count;
use crate::share::Share;
use crate::task::Task;
use crate::unsound_section::UnsoundSection;
use ira_event::OutOfMemory;
use ira_links::Gate;
use ira_order::HappenedBefore;
use std::alloc::Allocator;
use std::sync::Wait;
use std::thread;
use std::thread::Threads;
use std::time::Clock;

/// Finds the first section that isn't sound. The steps of each are cut into `2^depth` ranges; a thread for each number
/// but one judges the ranges of that number of all sections, and the asker those that are left.
pub(crate) fn judge_batch<R, G, C, A>(
    rt: &R,
    alloc: &A,
    gate: &G,
    ordered: &C,
    tasks: &[Task<'_, '_, A>],
    depth: u8,
) -> Result<Option<UnsoundSection>, OutOfMemory>
where
    R: Threads + Wait + Clock + Sync,
    G: Gate + Sync,
    C: HappenedBefore + Sync,
    C::Alloc: Send + Sync,
    A: Allocator + Clone + Send + Sync,
    requires depth { depth ≤ 4 }
    requires places { HavePlaces (length (C.logs_of ordered.now)) tasks.now }
    ensures { IfOk result (IsFoundIn (C.logs_of ordered.now) tasks.now) }
{
    let places = usize::from(ordered.logs().size().get());
    let mut shares = new_shares(alloc, places, depth)?;
    Ok(judge_tasks(rt, gate, ordered, tasks, depth, &mut shares))
}

/// A share for each of `2^depth` ranges.
fn new_shares<'q, A: Allocator + Clone>(
    alloc: &A,
    places: usize,
    depth: u8,
) -> Result<Vec<Share<'q, A>, A>, OutOfMemory>
    requires { depth ≤ 4 }
    ensures count { IfOk result (λ shares. length shares.items ≡ 2 ^ depth) }
    ensures room { IfOk result (λ shares. All (λ share. share.places ≡ places) shares.items) }
{
    let count = range_count(depth);
    let mut shares = Vec::with_capacity(alloc.clone()?, count)?;
    for _ in 0..count {
        shares.push(Share::new(alloc.clone()?, places)?)?;
    }
    Ok(shares)
}

/// Finds the first section that isn't sound, with a thread for each share.
fn judge_tasks<'q, R, G, C, A>(
    rt: &R,
    gate: &G,
    ordered: &C,
    tasks: &'q [Task<'_, '_, A>],
    depth: u8,
    shares: &mut [Share<'q, A>],
) -> Option<UnsoundSection>
where
    R: Threads + Wait + Clock + Sync,
    G: Gate + Sync,
    C: HappenedBefore + Sync,
    C::Alloc: Send + Sync,
    A: Allocator + Send + Sync,
    requires depth { depth ≤ 4 }
    requires count { length shares.old ≡ 2 ^ depth }
    requires room { All (λ share. share.places ≡ length (C.logs_of ordered.now)) shares.old }
    requires places { HavePlaces (length (C.logs_of ordered.now)) tasks.now }
    ensures { IsFoundIn (C.logs_of ordered.now) tasks.now result }
{
    let ranges = shares.len();
    thread::for_each_mut(
        rt,
        shares,
        ranges,
        &|number, share|
            requires { (number < 2 ^ depth) × (depth ≤ 4)
                × (share.old.places ≡ length (C.logs_of ordered.now))
                × HavePlaces (length (C.logs_of ordered.now)) tasks.now }
            ensures { IsFoundBy (C.logs_of ordered.entry.now) depth number (length tasks.entry.now)
                tasks.entry.now share.new.found }
        { share.judge(rt, gate, number, depth, ordered, tasks) },
    );
    first_found(shares)
}

/// Of what was found by the shares, from the left, the first section, with the fault of the leftmost share.
fn first_found<A: Allocator>(shares: &[Share<'_, A>]) -> Option<UnsoundSection>
    ensures { IsFirstFound shares.now result }
{
    let Some((share, others)) = shares.split_first() else {
        return None;
    };
    earlier(share.found(), first_found(others))
}

/// Of what two shares found the one of the earlier section, and of the same the left one.
fn earlier(left: Option<UnsoundSection>, right: Option<UnsoundSection>) -> Option<UnsoundSection>
    ensures { IsEarlier left right result }
{
    match (left, right) {
        (Some(a), Some(b)) if b.section < a.section => right,
        (Some(_), _) => left,
        (None, _) => right,
    }
}
