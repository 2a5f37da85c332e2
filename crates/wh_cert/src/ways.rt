//! Ways of moves through vertices.
ghost use Rattle.std.specs.Prelude.{◌≡◌, ◌↔◌, ◌<◌, length, slice_get, Some, Contains, IsTrue, IfOk, MatchOption};
ghost use Rattle.std.specs.List.{All};
ghost use Rattle.std.specs.List.Sorted.{IsStrictlySortedBy};
ghost use Rattle.wh_words.specs.Tuples.{tuple_cmp};
ghost use Rattle.wh_words.specs.Action as spec;
ghost use Rattle.wh_data.specs.AnswerData.{plains};
ghost use Rattle.wh_cert.specs.Demands.{tuple_at, StepsIn};
ghost use Rattle.wh_cert.specs.Listings.{IsRoomy};
ghost use Rattle.wh_cert.specs.VertexWays.{AreVertices, IsStepIn, LeadsTo, AreStops};

use wh_moves::{Move, act_into, acted_length};
use wh_words::{OutOfMemory, Tuple};

/// The place of a tuple among sorted ones. None exactly where it isn't among them.
fn place_of(vertices: &[Tuple], tuple: &Tuple) -> Option<usize>
    requires { IsStrictlySortedBy tuple_cmp (plains vertices.now) }
    ensures { MatchOption result (¬ (Contains (plains vertices.now) tuple.now.plain)) (λ v. slice_get (plains vertices.now) v ≡ Some tuple.now.plain) }
{
    vertices
        .binary_search_by(|vertex| vertex.compared(tuple))
        .ok()
}

/// The place of the image of a vertex among the vertices, which `image` becomes. All vertices have one length, so that no
/// other image is made. None exactly where it isn't among them.
pub(crate) fn image_place(
    vertices: &[Tuple],
    tuple: &Tuple,
    m: &Move,
    image: &mut Tuple,
) -> Option<usize>
    requires vertices { AreVertices m.now.rank (plains vertices.now) }
    requires listed { Contains (plains vertices.now) tuple.now.plain }
    requires roomy { IsRoomy image.old }
    ensures place { MatchOption result (¬ (Contains (plains vertices.now) (spec.act tuple.now.plain m.now))) (λ v. slice_get (plains vertices.now) v ≡ Some (spec.act tuple.now.plain m.now)) }
    ensures roomy { IsRoomy image.new }
{
    if acted_length(tuple, m) != tuple.length() {
        return None;
    }
    act_into(tuple, m, image);
    place_of(vertices, image)
}

/// The place of the vertex that a move leads to from the one at a place. None exactly where it leads to none, or is an
/// identity cut.
fn next_place(vertices: &[Tuple], from: usize, m: &Move, image: &mut Tuple) -> Option<usize>
    requires vertices { AreVertices m.now.rank (plains vertices.now) }
    requires within { from < length vertices.now }
    requires roomy { IsRoomy image.old }
    ensures place { MatchOption result (¬ (IsStepIn (plains vertices.now) (tuple_at (plains vertices.now) from) m.now)) (LeadsTo (plains vertices.now) (tuple_at (plains vertices.now) from) m.now) }
    ensures roomy { IsRoomy image.new }
{
    // The proof takes from this call that the move is one.
    m.rank();
    if m.is_identity() {
        return None;
    }
    image_place(vertices, &vertices[from], m, image)
}

/// Whether moves lead from vertex to vertex, from the one at a place on, and none is an identity cut. If so, `stops`
/// becomes the places of the vertices on the way.
pub(crate) fn follow(
    vertices: &[Tuple],
    at: usize,
    moves: &[Move],
    stops: &mut Vec<usize>,
    image: &mut Tuple,
) -> Result<bool, OutOfMemory>
    requires vertices { All (λ m. AreVertices m.rank (plains vertices.now)) moves.now }
    requires within { at < length vertices.now }
    requires roomy { IsRoomy image.old }
    ensures steps { IfOk result (λ b. IsTrue b ↔ StepsIn (plains vertices.now) (tuple_at (plains vertices.now) at) moves.now) }
    ensures stops { IfOk result (λ b. IsTrue b → AreStops (plains vertices.now) at moves.now stops.new.items) }
    ensures roomy { IsRoomy image.new }
{
    stops.clear();
    stops.push(at)?;
    let mut here = at;
    for m in moves {
        let Some(next) = next_place(vertices, here, m, image) else {
            return Ok(false);
        };
        stops.push(next)?;
        here = next;
    }
    Ok(true)
}
