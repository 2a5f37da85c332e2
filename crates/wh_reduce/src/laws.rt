//! Laws of the flows that are told with a flat tuple. Each is the contract of a function that does nothing.
ghost use Rattle.wh_reduce.specs.Laws.{FullFlowsShowFlatness, FlowsAreUnique};

/// Where each generator has a flow to its inverse that has its degree as its value, no cut shortens the tuple: whoever
/// checks the flows needs no trust in the search (Roig, Ventura and Weil 2007). And a tuple has one list of first flows.
pub fn certificates()
    ensures flat { FullFlowsShowFlatness }
    ensures unique { FlowsAreUnique }
{}
