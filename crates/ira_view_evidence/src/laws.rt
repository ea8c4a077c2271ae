ghost use Rattle.ira_view_evidence.specs.Laws.{AnOrderOrACircle, CirclesHaveNoOrder, LongestPrefixesEndInCircles, SomeOrigin, StepsBeforeAnOrigin};

/// A law: the receipts at which nodes are stuck are a circle once round the ring. Logs that match have an order or such
/// a circle, never both.
pub fn stuck_receipts_are_a_circle()
    ensures prefix { LongestPrefixesEndInCircles }
    ensures one { AnOrderOrACircle }
    ensures never_both { CirclesHaveNoOrder }
{}

/// A law: where an event has no step, it is one to begin with, or one to begin with happened before it. All that
/// happened before one to begin with has steps.
pub fn some_faulty_event_is_an_origin()
    ensures some { SomeOrigin }
    ensures steps { StepsBeforeAnOrigin }
{}
