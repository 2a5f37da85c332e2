//! The law of answers, the contract of an empty function.
ghost use Rattle.wh_data.specs.Laws.{CountsRows};

/// An answer has as many rows as its lines are counted.
pub fn row_counts()
    ensures { CountsRows }
{}
