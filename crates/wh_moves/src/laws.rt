//! Laws of moves. Each is the contract of a function that does nothing.
ghost use Rattle.wh_moves.specs.Laws.{InverseIsMove, InverseOfInverse, InverseUndoes};

/// The inverse of a move is a move, whose inverse is the move, and it undoes the move on every tuple (Lyndon and Schupp,
/// I.4).
pub fn inverse()
    ensures valid { InverseIsMove }
    ensures back { InverseOfInverse }
    ensures undoes { InverseUndoes }
{}
