//! Laws of capacities, degrees and lengths. Each is the contract of a function that does nothing.
ghost use Rattle.wh_graph.specs.Laws.{AsManyEdgesAsLetters, EdgesJoinTwoLetters, DegreeCountsLetters, InversesHaveOneDegree, SingletonHasTheDegree, ComplementsHaveOneCapacity, CapacitiesAreSubmodular, LengthLaw, CutsShortenBelowTheDegree, SwapsKeepTheLength, InversionsKeepTheLength, FlatIsByCapacities, StepsAgree, TracesAgree};
ghost use Rattle.wh_graph.specs.Graphs.{GraphHasTheCapacities, GraphHasTheDegrees, GraphHasTheLeastCuts, GraphTellsFlatness};

/// The Whitehead graph has an edge for each letter, and each edge joins two different letters of the rank (Lyndon
/// and Schupp, I.4).
pub fn edges()
    ensures as_many { AsManyEdgesAsLetters }
    ensures two { EdgesJoinTwoLetters }
{}

/// The degree of a letter counts it and its inverse, and is the capacity of the letter alone (Lyndon and Schupp, I.4).
pub fn degrees()
    ensures letters { DegreeCountsLetters }
    ensures inverses { InversesHaveOneDegree }
    ensures singleton { SingletonHasTheDegree }
{}

/// A set and its complement have one capacity, and capacities are submodular.
pub fn capacities()
    ensures complements { ComplementsHaveOneCapacity }
    ensures submodular { CapacitiesAreSubmodular }
{}

/// The network of the Whitehead graph has the capacities, the degrees and the least cuts of the tuple, and tells where it
/// is flat.
pub fn networks()
    ensures capacities { GraphHasTheCapacities }
    ensures degrees { GraphHasTheDegrees }
    ensures least_cuts { GraphHasTheLeastCuts }
    ensures flat { GraphTellsFlatness }
{}

/// How moves change the length of a tuple (Lyndon and Schupp, I.4).
pub fn lengths()
    ensures cuts { LengthLaw }
    ensures shorten { CutsShortenBelowTheDegree }
    ensures swaps { SwapsKeepTheLength }
    ensures inversions { InversionsKeepTheLength }
{}

/// The steps by lengths are the steps by capacities (Roig, Ventura and Weil 2007).
pub fn traces()
    ensures flat { FlatIsByCapacities }
    ensures steps { StepsAgree }
    ensures traces { TracesAgree }
{}
