ghost use Rattle.std.specs.Prelude.{◌≡◌, ◌↔◌, IfOk, OnOk, OnErr, Err, None, replicate};
ghost use Rattle.std.specs.List.{list_all};
ghost use Rattle.ira_ring_setup.specs.declared.run_fault.RunFault.{RunFault};
ghost use Rattle.ira_ring_setup.specs.NodeEnd.{is_stopped};
ghost use Rattle.ira_ring_setup.specs.Collector.{PartFaultOf, KeepsPart, FinishFaultOf, AreParts, has_version};
ghost use Rattle.ira_ring_setup.specs.Run.{IsRun};

use crate::node_end::NodeEnd;
use crate::node_part::NodePart;
use crate::run::Run;
use crate::run_fault::RunFault;
use ira_event::{Logs, NodeLog, OutOfMemory, RingSize};
use std::alloc::Allocator;
use std::marker::Model;

/// Collects the parts of the nodes of a ring, in any order; seen by contracts as the log and the end
/// of each place, where one was taken. All its memory is reserved when it is made.
#[derive(Drop)]
pub struct Collector<A: Allocator> {
    nodes: RingSize,
    taken: Vec<Option<(NodeLog<A>, NodeEnd)>, A>,
    // The room for the run.
    logs: Vec<NodeLog<A>, A>,
    ends: Vec<NodeEnd, A>,
}

impl<A: Allocator> Model for Collector<A> {
    ghost use Rattle.std.specs.Prelude.{◌≡◌, ◌≤◌, [], List, Option, vec_capacity};
    ghost use Rattle.ira_event.specs.Log.{Log};
    ghost use Rattle.ira_ring_setup.specs.declared.node_end.NodeEnd.{NodeEnd};
    ghost use Rattle.ira_ring_setup.specs.Collector.{AreTaken};

    ghost Value = { List (Option (Log × NodeEnd)) };

    ghost view = { λ a. a.taken.items };

    ghost invariant = { λ a. AreTaken a.nodes a.taken.items × (a.logs.items ≡ [])
        × (a.nodes ≤ vec_capacity a.logs) × (a.ends.items ≡ []) × (a.nodes ≤ vec_capacity a.ends) };
}

/// Whether no node ended by itself.
fn all_stopped(ends: &[NodeEnd]) -> bool
    ensures { result ≡ list_all is_stopped ends.now }
{
    ends.iter().all(NodeEnd::is_stopped)
}

/// Whether the log of the part is of this version, where there is one.
fn fits<A: Allocator>(part: &Option<(NodeLog<A>, NodeEnd)>, version: u8) -> bool
    ensures { result ≡ has_version version part.now }
{
    match part {
        Some((log, _)) => log.version() == version,
        None => true,
    }
}

/// Whether the log of each part that was taken is of this version.
fn are_of_version<A: Allocator>(version: u8, taken: &[Option<(NodeLog<A>, NodeEnd)>]) -> bool
    ensures { result ≡ list_all (has_version version) taken.now }
{
    taken.iter().all(|part| fits(part, version))
}

impl<A: Allocator> Collector<A> {
    /// A collector for a ring of this size, which has taken nothing.
    pub fn new(alloc: A, nodes: RingSize) -> Result<Collector<A>, OutOfMemory>
    where
        A: Clone,
        ensures { IfOk result (λ collector. collector ≡ replicate nodes None) }
    {
        let count = usize::from(nodes.get());
        let mut taken = Vec::with_capacity(alloc.clone()?, count)?;
        for _ in 0..nodes.get() {
            taken.push_reserved(None);
        }
        Ok(Collector {
            nodes,
            taken,
            logs: Vec::with_capacity(alloc.clone()?, count)?,
            ends: Vec::with_capacity(alloc, count)?,
        })
    }

    /// Takes the part of one node. It is a `Stranger` where the ring has no such place, or the log
    /// names another ring size or place, or is of another version than the parts taken before; else a
    /// `Double` where a part of that place was taken. A part that is refused is dropped, and the
    /// collector is as it was. It takes no memory.
    pub fn take(&mut self, part: NodePart<A>) -> Result<(), RunFault>
        ensures ok { OnOk result (KeepsPart self.old part.place (part.log, part.end) self.new) }
        ensures err { (f : RunFault) → (result ≡ Err f) ↔ PartFaultOf self.old part.place part.log f }
        ensures unchanged { OnErr result (self.new ≡ self.old) }
    {
        let NodePart { place, log, end } = part;
        if place >= self.nodes.get() || log.nodes() != self.nodes || log.place() != place {
            return Err(RunFault::Stranger);
        }
        if !are_of_version(log.version(), &self.taken) {
            return Err(RunFault::Stranger);
        }
        let at = usize::from(place);
        if self.taken[at].is_some() {
            return Err(RunFault::Double);
        }
        self.taken[at] = Some((log, end));
        Ok(())
    }

    /// The run of the parts, each log and each end at its place; `NoEnd` where a part is missing or
    /// every end is `Stopped`. It takes no memory.
    pub fn finish(self) -> Result<Run<A>, RunFault>
        ensures ok { IfOk result (λ run. AreParts self run) }
        ensures valid { IfOk result IsRun }
        ensures err { (f : RunFault) → (result ≡ Err f) ↔ FinishFaultOf self f }
    {
        let Collector {
            nodes: _,
            taken,
            mut logs,
            mut ends,
        } = self;
        for part in taken {
            let Some((log, end)) = part else {
                return Err(RunFault::NoEnd);
            };
            logs.push_reserved(log);
            ends.push_reserved(end);
        }
        if all_stopped(&ends) {
            return Err(RunFault::NoEnd);
        }
        match Logs::gather(logs) {
            Ok(logs) => Ok(Run::of_parts(logs, ends)),
            Err(_) => unreachable!(),
        }
    }
}
