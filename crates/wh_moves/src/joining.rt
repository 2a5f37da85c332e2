//! Lists of moves, one after another.
ghost use Rattle.std.specs.Prelude.{◌≡◌, ◌++◌, IfOk};
ghost use Rattle.wh_words.specs.MoveLists.{inverse_list};

use crate::moves::Move;
use std::alloc::Global;
use wh_words::OutOfMemory;

/// The inverse of a list of moves: the inverses of its moves, the last one first.
fn inverted(alloc: Global, moves: &[Move]) -> Result<Vec<Move>, OutOfMemory>
    ensures { IfOk result (λ v. v.items ≡ inverse_list moves.now) }
{
    let inverses = moves.iter().rev().map(|m| m.inverse()).collect(alloc)?;
    Ok(inverses)
}

/// A list of moves, then another, and then the inverse of a third. It answers an error where memory runs out.
pub fn joined(
    alloc: Global,
    there: &[Move],
    between: &[Move],
    back: &[Move],
) -> Result<Vec<Move>, OutOfMemory>
    ensures { IfOk result (λ v. v.items ≡ there.now ++ (between.now ++ inverse_list back.now)) }
{
    let mut moves = Vec::new(alloc);
    moves.extend_from_slice(there)?;
    moves.extend_from_slice(between)?;
    moves.extend_from_slice(&inverted(alloc, back)?)?;
    Ok(moves)
}
