//! Level moves that act as others do.
ghost use Rattle.std.specs.Prelude.{◌↔◌, IsTrue};
ghost use Rattle.wh_expand.specs.TurnedCuts.{IsTurnedCut};

use wh_moves::{Kind, Move};

/// Whether a move is a cut whose multiplier is the inverse of a generator. As a level move of a tuple it leaves the tuple
/// as it is, or acts as one that comes before it: the cut of the other letters with the generator.
pub fn is_turned_cut(m: &Move) -> bool
    ensures { IsTrue result ↔ IsTurnedCut m.now.kind }
{
    match m.kind() {
        Kind::Cut { mult, .. } => mult.is_inverse(),
        Kind::Swap(_) | Kind::Invert(_) => false,
    }
}
