ghost use Rattle.std.specs.Prelude.{◌≡◌, ℕ, ◌<◌, ◌↔◌, List, Ok, Err, Some, MatchResult, OnOk, IfErr, IfOk, length, map, slice_get, sum_by};
ghost use Rattle.ira_event.specs.Log.{Log, IsLog};
ghost use Rattle.ira_event.specs.Logs.{AreLogs, EachLog, HasNumber, HasVersion, IsFirstOther, HeadFaultOf, NoLogsHaveTwoHeadFaults, NoRingHasHeadFaults};
ghost use Rattle.ira_event.specs.RingSize.{IsRingSize};
ghost use Rattle.ira_event.specs.Upgrade.{upgraded};
ghost use Rattle.ira_event.specs.declared.head_fault.HeadFault.{HeadFault};

use crate::head_fault::HeadFault;
use crate::log_upgrade::upgrade;
use crate::node_log::NodeLog;
use crate::out_of_memory::OutOfMemory;
use crate::ring_size::RingSize;
use std::alloc::Allocator;
use std::marker::Model;

/// The logs of all nodes of one ring, in the order of their places.
#[derive(Drop)]
pub struct Logs<A: Allocator> {
    size: RingSize,
    logs: Vec<NodeLog<A>, A>,
}

impl<A: Allocator> Model for Logs<A> {
    ghost use Rattle.std.specs.Prelude.{◌≡◌, List, length};
    ghost use Rattle.ira_event.specs.Log.{Log};
    ghost use Rattle.ira_event.specs.Logs.{AreLogs};

    ghost Value = { List Log };

    ghost view = { λ a. a.logs.items };

    ghost invariant = { λ a. (a.size ≡ length a.logs.items) × AreLogs a.logs.items };
}

/// The ring size that the first log names, where there are so many logs.
fn common_size<A: Allocator>(logs: &[NodeLog<A>]) -> Result<RingSize, HeadFault>
    ensures { MatchResult result (λ size. IsRingSize size × HasNumber logs.now size)
        (λ f. (f ≡ HeadFault.Number) × ((nodes : ℕ) → ¬ (HasNumber logs.now nodes))) }
{
    let Some(first) = logs.first() else {
        return Err(HeadFault::Number);
    };
    let size = first.nodes();
    if logs.len() != usize::from(size.get()) {
        return Err(HeadFault::Number);
    }
    Ok(size)
}

/// Whether each log names this ring size.
fn check_sizes<A: Allocator>(logs: &[NodeLog<A>], size: RingSize) -> Result<(), HeadFault>
    requires { length logs.now ≡ size }
    ensures ok { OnOk result (EachLog logs.now (λ _ log. log.nodes ≡ size)) }
    ensures err { IfErr result
        (λ f. (i : ℕ) × (f ≡ HeadFault.Size i) × IsFirstOther logs.now (λ _ log. log.nodes ≡ size) i) }
{
    for i in 0..size.get() {
        if logs[usize::from(i)].nodes() != size {
            return Err(HeadFault::Size(i));
        }
    }
    Ok(())
}

/// Whether each log names its own place.
fn check_places<A: Allocator>(logs: &[NodeLog<A>], size: RingSize) -> Result<(), HeadFault>
    requires { length logs.now ≡ size }
    ensures ok { OnOk result (EachLog logs.now (λ i log. log.place ≡ i)) }
    ensures valid { OnOk result (EachLog logs.now (λ _ log. IsLog log)) }
    ensures err { IfErr result
        (λ f. (i : ℕ) × (f ≡ HeadFault.Place i) × IsFirstOther logs.now (λ j log. log.place ≡ j) i) }
{
    for i in 0..size.get() {
        if logs[usize::from(i)].place() != i {
            return Err(HeadFault::Place(i));
        }
    }
    Ok(())
}

/// Whether each log has the version of the first one.
fn check_versions<A: Allocator>(logs: &[NodeLog<A>], size: RingSize) -> Result<(), HeadFault>
    requires { length logs.now ≡ size }
    ensures ok { OnOk result
        ((version : ℕ) × HasVersion logs.now version × EachLog logs.now (λ _ log. log.version ≡ version)) }
    ensures err { IfErr result
        (λ f. (version i : ℕ) × (f ≡ HeadFault.Version i) × HasVersion logs.now version
        × IsFirstOther logs.now (λ _ log. log.version ≡ version) i) }
{
    let version = logs[0].version();
    for i in 0..size.get() {
        if logs[usize::from(i)].version() != version {
            return Err(HeadFault::Version(i));
        }
    }
    Ok(())
}

/// The logs in version 2, in the same order.
fn upgrade_each<A: Allocator + Clone>(
    logs: Vec<NodeLog<A>, A>,
) -> Result<Vec<NodeLog<A>, A>, OutOfMemory>
    ensures { IfOk result (λ news. news.items ≡ map upgraded logs.items) }
{
    let mut news = Vec::with_capacity(logs.allocator().clone()?, logs.len())?;
    for log in logs {
        let alloc = news.allocator().clone()?;
        news.push(upgrade(alloc, &log)?)?;
    }
    Ok(news)
}

impl<A: Allocator> Logs<A> {
    /// The logs as those of one ring, or their first fault: their number, then a ring size, then a
    /// place, then a version. It takes no memory.
    pub fn gather(logs: Vec<NodeLog<A>, A>) -> Result<Logs<A>, HeadFault>
        ensures ok { (gathered : List Log)
            → (result ≡ Ok gathered) ↔ ((gathered ≡ logs.items) × AreLogs gathered) }
        ensures err { (f : HeadFault) → (result ≡ Err f) ↔ HeadFaultOf logs.items f }
    {
        let size = common_size(&logs)?;
        check_sizes(&logs, size)?;
        check_places(&logs, size)?;
        check_versions(&logs, size)?;
        Ok(Logs { size, logs })
    }

    /// The logs in version 2. A log is let go once its upgrade is made.
    pub fn upgrade(self) -> Result<Logs<A>, OutOfMemory>
    where
        A: Clone,
        ensures { IfOk result (λ logs. logs ≡ map upgraded self) }
    {
        let Logs { size, logs } = self;
        Ok(Logs {
            size,
            logs: upgrade_each(logs)?,
        })
    }

    /// How many nodes the ring has, and so how many logs there are.
    pub fn size(&self) -> RingSize
        ensures value { result ≡ length self.now }
        ensures valid { AreLogs self.now }
    {
        self.size
    }

    /// The log of the node at place `i`.
    pub fn log(&self, i: u8) -> &NodeLog<A>
        requires { i < length self.now }
        ensures value { slice_get self.now i ≡ Some result.now }
        ensures valid { AreLogs self.now }
    {
        &self.logs[usize::from(i)]
    }

    /// How many events they have together.
    pub fn number_of_events(&self) -> usize
        ensures { result ≡ sum_by (λ log. length log.events) self.now }
    {
        let mut events = 0;
        for log in &self.logs {
            events += log.len();
        }
        events
    }
}

/// A list of logs has at most one fault, and none where it is the logs of one ring.
pub fn head_fault_is_one()
    ensures one { NoLogsHaveTwoHeadFaults }
    ensures none { NoRingHasHeadFaults }
{}
