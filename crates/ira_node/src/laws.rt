ghost use Rattle.ira_node.specs.Plain.{OwesNoReset, SendsNoReset};
ghost use Rattle.ira_node.specs.Laws.{OneNextState, OneFault, NoStepBesideAFault, AStepOrAFault, RaisedHopIsRecordable, NumbersStayRecordable, SendingsAreRecordable};

/// A law: the node step is deterministic.
pub fn one_next_state()
    ensures { OneNextState }
{}

/// A law: an event has at most one fault, so code may look for them in any order.
pub fn one_fault()
    ensures { OneFault }
{}

/// A law: an event with a fault has no step.
pub fn no_step_beside_a_fault()
    ensures { NoStepBesideAFault }
{}

/// A law: an event without a step has a fault.
pub fn a_step_or_a_fault()
    ensures { AStepOrAFault }
{}

/// A law: what a node passes on has one hop more than what it received, and a record may hold it.
pub fn raised_hop_is_recordable()
    ensures { RaisedHopIsRecordable }
{}

/// A law: a node whose numbers a record may hold gets no number that a record may not.
pub fn numbers_stay_recordable()
    ensures { NumbersStayRecordable }
{}

/// A law: a node whose numbers a record may hold sends nothing that a record may not.
pub fn sendings_are_recordable()
    ensures { SendingsAreRecordable }
{}

/// A law: a node whose events version 1 has never owes a reset, and sends none.
#[tactic(auto, using(crate::proofs::Plain::owes_no_reset, crate::proofs::Plain::sends_no_reset))]
pub fn version_1_has_no_resets()
    ensures owes { OwesNoReset }
    ensures sends { SendsNoReset }
{}
