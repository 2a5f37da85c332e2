//! The action of a list of moves on a tuple of cyclic words.
ghost use Rattle.std.specs.Prelude.{◌≡◌, length, IfOk, IfErr, OnOk};
ghost use Rattle.std.specs.List.{All};
ghost use Rattle.wh_words.specs.Limits.{most_letters};
ghost use Rattle.wh_words.specs.Tuples.{own_room};
ghost use Rattle.wh_words.specs.Action as spec;
ghost use Rattle.wh_moves.specs.Acts.{Fits, FitsOnTheWay, AreRoomy, IsActAllFault};

use crate::action::{ActError, act_into, acted_length};
use crate::moves::Move;
use std::alloc::Global;
use std::mem;
use wh_words::{MOST_LETTERS, OutOfMemory, Tuple};

/// An equal tuple in memory of its own, with room for as many letters as a tuple may have, so that every tuple fits into it
/// that moves make of it.
#[tactic(auto, using(crate::proofs::ActedLists::word_of_rank, crate::proofs::ActedLists::word_fits, crate::proofs::ActedLists::word_more))]
pub fn roomy_copy(alloc: Global, tuple: &Tuple) -> Result<Tuple, OutOfMemory>
    ensures { IfOk result (λ t. t ≡ record { plain = tuple.now.plain; room = most_letters; word_room = length tuple.now.plain.words }) }
{
    let mut made = Tuple::with_room(alloc, tuple.rank(), tuple.count(), MOST_LETTERS as usize)?;
    for place in 0..tuple.count() {
        made.push_word(tuple.word(place));
    }
    Ok(made)
}

/// Makes `end` the tuple after a list of moves, one after the other, or answers why it can't. The other tuple lends its
/// room.
#[tactic(auto, using(crate::proofs::ActedLists::way_start))]
fn act_each(end: &mut Tuple, spare: &mut Tuple, list: &[Move]) -> Result<(), ActError>
    requires ranks { All (λ m. m.rank ≡ end.old.plain.rank) list.now }
    requires fits { Fits end.old.plain }
    requires rooms { AreRoomy end.old.plain end.old spare.old }
    ensures acted { OnOk result (end.new.plain ≡ spec.act_all end.old.plain list.now) }
    ensures fits { OnOk result (FitsOnTheWay end.old.plain list.now) }
    ensures rooms { AreRoomy end.old.plain end.new spare.new }
    ensures fault { IfErr result (IsActAllFault end.old.plain list.now) }
{
    for (made, m) in list.iter().enumerate() {
        let length = acted_length(end, m);
        if length > MOST_LETTERS {
            return Err(ActError::TooLong {
                place: made + 1,
                length,
            });
        }
        act_into(end, m, spare);
        mem::swap(end, spare);
    }
    Ok(())
}

/// Makes a roomy tuple the tuple after a list of moves, in memory for one more, or answers why it can't.
fn act_on(alloc: Global, end: &mut Tuple, list: &[Move]) -> Result<(), ActError>
    requires ranks { All (λ m. m.rank ≡ end.old.plain.rank) list.now }
    requires room { end.old.room ≡ most_letters }
    requires word_room { end.old.word_room ≡ length end.old.plain.words }
    ensures acted { OnOk result (end.new.plain ≡ spec.act_all end.old.plain list.now) }
    ensures fits { OnOk result (FitsOnTheWay end.old.plain list.now) }
    ensures fault { IfErr result (IsActAllFault end.old.plain list.now) }
{
    let mut spare = Tuple::with_room(alloc, end.rank(), end.count(), MOST_LETTERS as usize)?;
    act_each(end, &mut spare, list)
}

/// The tuple after a list of moves of its rank, the first move first, in memory of its own (Lyndon and Schupp, I.4). The
/// empty list gives an equal tuple. `TooLong` comes exactly where a tuple on the way has more than 4,096 letters: its
/// place is the number of the first move, counted from 1, after which there are more, and its length is their number. The
/// tuple has room for itself alone. The memory taken is that of two tuples, however many moves there are.
pub fn act_all(alloc: Global, tuple: &Tuple, list: &[Move]) -> Result<Tuple, ActError>
    requires { All (λ m. m.rank ≡ tuple.now.plain.rank) list.now }
    ensures acted { IfOk result (λ t. t ≡ own_room (spec.act_all tuple.now.plain list.now)) }
    ensures fits { IfOk result (λ _. FitsOnTheWay tuple.now.plain list.now) }
    ensures fault { IfErr result (IsActAllFault tuple.now.plain list.now) }
{
    let mut end = roomy_copy(alloc, tuple)?;
    act_on(alloc, &mut end, list)?;
    end.close_rooms();
    Ok(end)
}
