//! Laws of fields, each the contract of an empty function.
ghost use Rattle.wh_fields.specs.Laws.{ReadsLetters, ReadsWords, NamesTheFirstBadLetter, ReadsMoves, NamesTheFirstBadMove, ReadsFlows, ReadsTreeEdges, ReadsGenerators, ReadsRelators};

/// Letters are read exactly from their bytes.
pub fn letters()
    ensures { ReadsLetters }
{}

/// A word is read exactly from its text.
pub fn words()
    ensures { ReadsWords }
{}

/// A refusal of a letter names the leftmost byte that is none.
pub fn first_bad_letter()
    ensures { NamesTheFirstBadLetter }
{}

/// A move is read exactly from the fields that spell it.
pub fn moves()
    ensures { ReadsMoves }
{}

/// A refusal of a move names the leftmost field that is none.
pub fn first_bad_move()
    ensures { NamesTheFirstBadMove }
{}

/// A flow is read exactly from the fields that tell it.
pub fn flows()
    ensures { ReadsFlows }
{}

/// An edge of a tree is read exactly from the fields that tell it.
pub fn tree_edges()
    ensures { ReadsTreeEdges }
{}

/// A generator is read exactly from the fields that tell it.
pub fn generators()
    ensures { ReadsGenerators }
{}

/// A relator is read exactly from the fields that tell it.
pub fn relators()
    ensures { ReadsRelators }
{}
