//! Laws of flows and cuts, each as the contract of an empty function.
ghost use Rattle.wh_flow.specs.Laws.{FirstFlowComesFirst, FirstFlowIsUnique, FilledCutIsMaximum, MinimumCutsAreClosed, ValueIsDegree, LeastCutIsUnique};

/// The first flow of a value comes before each other flow of it.
pub fn first_flow_comes_first()
    ensures { FirstFlowComesFirst }
{}

/// Two first flows of one value are equal.
pub fn first_flow_is_unique()
    ensures { FirstFlowIsUnique }
{}

/// A flow whose value is the capacity of a least cut has the greatest value (Ford and Fulkerson).
pub fn filled_cut_is_maximum()
    ensures { FilledCutIsMaximum }
{}

/// The minimum cuts are the sets that separate and that no residual edge of a greatest flow leaves (Picard and Queyranne
/// 1980).
pub fn minimum_cuts_are_closed()
    ensures { MinimumCutsAreClosed }
{}

/// The greatest value is the degree of the source just where no cut has less capacity (Roig, Ventura and Weil 2007).
pub fn value_is_degree()
    ensures { ValueIsDegree }
{}

/// Two least cuts are equal.
pub fn least_cut_is_unique()
    ensures { LeastCutIsUnique }
{}
