//! What an answer tells of one tuple.
ghost use Rattle.std.specs.Prelude.{◌≡◌, IfOk};
ghost use Rattle.wh_words.specs.Tuples.{TupleData};
ghost use Rattle.wh_words.specs.CapacityTraces.{IsFlatByCapacities, IsCapacityTrace};
ghost use Rattle.wh_data.specs.AnswerData as told;
ghost use Rattle.wh_data.specs.AnswerTexts.{IsPrintableSide};
ghost use Rattle.wh_answer.specs.Sides.{IsSideOf};

use std::alloc::Global;
use wh_data::Side;
use wh_reduce::{Trace, flows};
use wh_words::{List, OutOfMemory};

/// The side of the tuple that has this trace.
pub fn side_of(alloc: Global, trace: Trace) -> Result<Side, OutOfMemory>
    requires { IsFlatByCapacities trace.end.plain }
    ensures side { (t : TupleData) → IsCapacityTrace t trace.moves trace.end.plain → IfOk result (IsSideOf t) }
    ensures own { IfOk result (λ side. (side.trace ≡ trace.moves) × (side.end ≡ trace.end)) }
    ensures printable { IfOk result (λ side. IsPrintableSide (told.side_of side)) }
{
    let Trace { moves, end } = trace;
    let flows = flows(alloc, &end)?;
    Ok(Side {
        trace: moves,
        end,
        flows: List::of(flows),
    })
}
