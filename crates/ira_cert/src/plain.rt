ghost use Rattle.std.specs.Prelude.{◌≡◌, ◌↔◌, ◌<◌, Ok, IfOk, OnOk, length};
ghost use Rattle.ira_event.specs.Result.{UnlessErr};
ghost use Rattle.ira_cert.specs.declared.section_fault.SectionFault.{SectionFault};
ghost use Rattle.ira_cert.specs.Conjuncts.{HasDifferentPlaces, HasPlacesOf};
ghost use Rattle.ira_cert.specs.Queues.{AreQueues, AreCandidatesFor};
ghost use Rattle.ira_cert.specs.SoundSection.{IsSoundSection};
ghost use Rattle.ira_cert.specs.SectionFault.{IsSectionFault};

use crate::conjuncts::map_conjuncts;
use crate::queues::check_queues;
use crate::verdict::Verdict;
use ira_cand::{Ahead, Holding, candidates};
use ira_cert_text::Section;
use ira_event::{Events, Logs, OutOfMemory};
use ira_order::Ordered;
use ira_pred::{Case, Clause};
use ira_replay::States;
use std::alloc::Allocator;

/// The candidates of a node, found as they are asked for.
pub type Candidates<'a, 'b, A> = Ahead<Holding<States<Events<'a>>, &'b Clause<A>>>;

/// Judges whether the section shows that no consistent cut of the logs meets the case: each step rules
/// out a state that can stand in no consistent cut together with the candidates left of another node,
/// until a node has none (Garg and Waldecker, Detection of Weak Unstable Predicates in Distributed
/// Programs, IEEE TPDS 5(3), 1994). Whoever made the section isn't trusted.
///
/// Time is linear in the steps and the logs' events, and a step costs one look-up of a stamp. Of each log
/// one position is kept.
pub fn check_plain<A: Allocator>(
    alloc: A,
    logs: &Logs<A>,
    ordered: &Ordered<'_, A>,
    case: &Case<A>,
    section: &Section<A>,
) -> Result<Verdict, OutOfMemory>
    requires order { ordered.now.logs ≡ logs.now }
    requires places { HasPlacesOf logs.now case.now }
    ensures yes { UnlessErr result (record {})
        ((result ≡ Ok Verdict.Yes) ↔ IsSoundSection logs.now case.now section.now) }
    ensures no { (f : SectionFault)
        → UnlessErr result (record {})
        ((result ≡ Ok (Verdict.No f)) ↔ IsSectionFault logs.now case.now section.now f) }
{
    let queues = case_queues(alloc, logs, case)?;
    Ok(check_queues(ordered, queues, section))
}

/// The candidates of the case, place by place: of each node that it asks those of its log, found as they
/// are asked for; of others none.
pub fn case_queues<'a, 'b, A: Allocator>(
    alloc: A,
    logs: &'a Logs<A>,
    case: &'b Case<A>,
) -> Result<Vec<Option<Candidates<'a, 'b, A>>, A>, OutOfMemory>
    requires { HasPlacesOf logs.now case.now }
    ensures different { OnOk result (HasDifferentPlaces case.now) }
    ensures count { IfOk result (λ queues. length queues.items ≡ length logs.now) }
    ensures queues { IfOk result (λ queues. AreQueues logs.now case.now queues.items) }
{
    map_conjuncts(
        alloc,
        logs.size(),
        case,
        |n|
            requires { (n < length case.now) × HasPlacesOf logs.now case.now }
            ensures { IfOk result (λ positions. AreCandidatesFor logs.entry.now case.entry.now n positions) }
        { Ok(candidates(logs.log(case.place(n)), case.clause(n))) },
    )
}
