//! Laws of the definitions. Each is the contract of a function that does nothing.
ghost use Rattle.wh_words.specs.Laws.{FreeReductionIsWhatRemains, CyclicReductionIsWhatRemains, CyclicWordIsLeastRotation, TurningKeepsCyclicWord, ConjugatesHaveOneCyclicWord, ImageOfInverse, TraceIsUnique};

/// Exactly one word remains when neighbouring inverse pairs are deleted one at a time until none stands, and it is the
/// free reduction (Lyndon and Schupp, I.1).
pub fn free_reduction()
    ensures { FreeReductionIsWhatRemains }
{}

/// Exactly one word remains when inverse ends are deleted too, and it is the cyclic reduction (Lyndon and Schupp, I.4).
pub fn cyclic_reduction()
    ensures { CyclicReductionIsWhatRemains }
{}

/// The cyclic word is the one first rotation of the cyclic reduction, and it stands for the conjugacy class: turning or
/// conjugating a word keeps it (Lyndon and Schupp, I.4).
pub fn cyclic_word()
    ensures first { CyclicWordIsLeastRotation }
    ensures turned { TurningKeepsCyclicWord }
    ensures conjugated { ConjugatesHaveOneCyclicWord }
{}

/// The images of the generators tell those of their inverses.
pub fn images()
    ensures { ImageOfInverse }
{}

/// A tuple has one trace at most.
pub fn traces()
    ensures { TraceIsUnique }
{}
