//! The answer where a list of moves is to be straightened.
ghost use Rattle.std.specs.Prelude.{◌≡◌, ℕ, IfOk, IfErr};
ghost use Rattle.std.specs.List.{All};
ghost use Rattle.wh_words.specs.Action.{act_all as led_to};
ghost use Rattle.wh_moves.specs.Acts.{IsActAllFault};
ghost use Rattle.wh_data.specs.ProblemData.ProblemData.{straighten as to_straighten};
ghost use Rattle.wh_data.specs.AnswerData.{answer_of};
ghost use Rattle.wh_data.specs.AnswerTexts.{IsPrintable};
ghost use Rattle.wh_answer.specs.Answers.{Answers, Straightens};

use std::alloc::Global;
use wh_data::Answer;
use wh_moves::{Move, act_all};
use wh_straighten::{StraightenError, straighten};
use wh_words::{List, OutOfMemory, Tuple};

/// Copies of a tuple and of moves.
fn copies(alloc: Global, tuple: &Tuple, moves: &[Move]) -> Result<(Tuple, List<Move>), OutOfMemory>
    ensures tuple { IfOk result (λ both. both.0.plain ≡ tuple.now.plain) }
    ensures moves { IfOk result (λ both. both.1 ≡ moves.now) }
{
    let mut list = Vec::new(alloc);
    list.extend_from_slice(moves)?;
    let tuple = tuple.copy(alloc)?;
    Ok((tuple, List::of(list)))
}

/// The answer of a tuple and given moves, with straight moves and the end of both.
fn answer_with(
    alloc: Global,
    tuple: &Tuple,
    given: &[Move],
    moves: List<Move>,
    end: Tuple,
) -> Result<Answer, OutOfMemory>
    ensures answers { (limit : ℕ) → Straightens tuple.now.plain given.now moves end.plain → IfOk result (Answers limit (to_straighten tuple.now.plain given.now)) }
    ensures printable { IfOk result (λ a. IsPrintable (answer_of a)) }
{
    match copies(alloc, tuple, given) {
        Ok((tuple, given)) => Ok(Answer::Straighten {
            tuple,
            given,
            moves,
            end,
        }),
        Err(error) => {
            drop(end);
            Err(error)
        }
    }
}

/// The answer where a list of moves of a tuple's rank is to be straightened: the tuple and the list, straight moves in the
/// place of the list, which are the same automorphism up to a conjugation, and the tuple that both lead to (Higgins and
/// Lyndon 1974; Lyndon and Schupp, I.4). It can be printed. `TooLong` comes exactly where a tuple on the way of the list has
/// more than 4,096 letters, and tells the first such tuple.
pub fn straightened(alloc: Global, tuple: &Tuple, given: &[Move]) -> Result<Answer, StraightenError>
    requires { All (λ m. m.rank ≡ tuple.now.plain.rank) given.now }
    ensures answers { (limit : ℕ) → IfOk result (Answers limit (to_straighten tuple.now.plain given.now)) }
    ensures printable { IfOk result (λ a. IsPrintable (answer_of a)) }
    ensures fault { IfErr result (IsActAllFault tuple.now.plain given.now) }
{
    let moves = straighten(alloc, tuple, given)?;
    let end = act_all(alloc, tuple, given)?;
    Ok(answer_with(alloc, tuple, given, List::of(moves), end)?)
}
