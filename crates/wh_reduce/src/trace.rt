//! The trace of a tuple.
ghost use Rattle.std.specs.Prelude.{◌≡◌, IfOk};
ghost use Rattle.wh_words.specs.Tuples.{own_room};
ghost use Rattle.wh_words.specs.Traces.{IsFlat};
ghost use Rattle.wh_words.specs.CapacityTraces.{IsFlatByCapacities, IsCapacityTrace};

use crate::step::shorten;
use std::alloc::Global;
use std::mem;
use wh_moves::{Move, act_into};
use wh_words::{List, OutOfMemory, Tuple};

/// The moves that shorten a tuple, first to last, and the tuple that they end at.
#[derive(Debug, Drop)]
pub struct Trace {
    pub moves: List<Move>,
    pub end: Tuple,
}

/// Makes a tuple the end of its trace, and answers the moves of the trace. The other tuple lends its room.
#[tactic(auto, using(crate::proofs::Traced::traced_start, crate::proofs::Traced::roomy_start, crate::proofs::Traced::traced_end))]
fn shorten_all(alloc: Global, end: &mut Tuple, spare: &mut Tuple) -> Result<Vec<Move>, OutOfMemory>
    requires end { end.old ≡ own_room end.old.plain }
    requires spare { spare.old ≡ end.old }
    ensures trace { IfOk result (λ v. IsCapacityTrace end.old.plain v.items end.new.plain) }
    ensures flat { IfOk result (λ _. IsFlatByCapacities end.new.plain) }
{
    let mut moves = Vec::new(alloc);
    while let Some(m) = shorten(end) {
        act_into(end, &m, spare);
        mem::swap(end, spare);
        moves.push(m)?;
    }
    Ok(moves)
}

/// Makes a tuple the end of its trace, in memory for one more, and answers the moves of the trace.
fn shorten_fully(alloc: Global, end: &mut Tuple) -> Result<Vec<Move>, OutOfMemory>
    requires { end.old ≡ own_room end.old.plain }
    ensures trace { IfOk result (λ v. IsCapacityTrace end.old.plain v.items end.new.plain) }
    ensures flat { IfOk result (λ _. IsFlatByCapacities end.new.plain) }
{
    let mut spare = end.copy(alloc)?;
    shorten_all(alloc, end, &mut spare)
}

/// The trace of a tuple: its step, the step of the tuple after it, and so on, until the tuple is flat, so that no cut
/// shortens it (Lyndon and Schupp, I.4; Roig, Ventura and Weil 2007). The end has room for itself alone. It takes memory
/// for two tuples and the list of moves.
#[tactic(auto, using(crate::proofs::Traced::flat_from_capacities))]
pub fn reduce(alloc: Global, tuple: &Tuple) -> Result<Trace, OutOfMemory>
    ensures trace { IfOk result (λ r. IsCapacityTrace tuple.now.plain r.moves r.end.plain) }
    ensures by_capacities { IfOk result (λ r. IsFlatByCapacities r.end.plain) }
    ensures flat { IfOk result (λ r. IsFlat r.end.plain) }
    ensures rooms { IfOk result (λ r. r.end ≡ own_room r.end.plain) }
{
    let mut end = tuple.copy(alloc)?;
    let moves = shorten_fully(alloc, &mut end)?;
    end.close_rooms();
    Ok(Trace {
        moves: List::of(moves),
        end,
    })
}
