//! Laws of stabilisers. Each is the contract of a function that does nothing.
ghost use Rattle.wh_stab.specs.Laws.{FirstWalksSpan, GeneratorsFixTheTuple, GeneratorsGenerateTheStabiliser, AutomorphismsThatFixAreWords, GeneratorsAreUnique, WaysRoundTellRelators, NumbersAreUnique, RelatorsAreRelations, RelatorsAreUnique, GeneratorsCanBeListed};

/// The edges of a level that are off a tree generate what fixes a tuple (McCool 1975).
pub fn generators()
    ensures spans { FirstWalksSpan }
    ensures fix { GeneratorsFixTheTuple }
    ensures generate { GeneratorsGenerateTheStabiliser }
    ensures automorphisms { AutomorphismsThatFixAreWords }
    ensures unique { GeneratorsAreUnique }
{}

/// Ways round a level tell relations of the generators (McCool 1975).
pub fn relators()
    ensures tell { WaysRoundTellRelators }
    ensures relations { RelatorsAreRelations }
    ensures numbers { NumbersAreUnique }
    ensures unique { RelatorsAreUnique }
{}

/// What is answered of a stabiliser: its generators can be written as lists of moves.
pub fn answers()
    ensures { GeneratorsCanBeListed }
{}
