//! The `relator` lines.
ghost use Rattle.std.specs.Prelude.{◌≡◌, ◌↔◌, ◌+◌, ◌<◌, ◌≤◌, List, [], ◌∷◌, length, slice_get, Some, IsTrue, IfOk, OnOk};
ghost use Rattle.std.specs.List.{All};
ghost use Rattle.wh_words.specs.Tuples.{TupleData};
ghost use Rattle.wh_words.specs.Moves.{Move};
ghost use Rattle.wh_words.specs.Action as spec;
ghost use Rattle.wh_words.specs.Levels.{IsLevel};
ghost use Rattle.wh_stab.specs.Presentations.{Start, AreGenerators, AreNumbers};
ghost use Rattle.wh_data.specs.AnswerData.{plains, parts_of};
ghost use Rattle.wh_data.specs.Numberings.{ArePartsOfRank};
ghost use Rattle.wh_cert.specs.Demands.{tuple_at, StepsIn, presented_by, has_steps, leads_back, has_short_images, is_identity, loop_asked, asked_below, relator_asked, relators_asked};
ghost use Rattle.wh_cert.specs.Judged.{Judges};
ghost use Rattle.wh_cert.specs.Listings.{IsRoomy};
ghost use Rattle.wh_cert.specs.VertexWays.{AreVertices, AreOffTree, AreStops, IsNumberOf, NamesGenerator, ReadsOn, TellsIdentity};

use crate::checked::Rule;
use crate::generators::{is_of_tree, is_same};
use crate::levels::roomy;
use crate::stop::{Stop, ask};
use crate::ways::follow;
use std::alloc::Global;
use wh_composites::{ComposeError, compose};
use wh_data::{Loop, Parts};
use wh_moves::Move;
use wh_words::{OutOfMemory, Rank, Tuple};

/// Whether the number, counted from 1, is that of the generator whose edge leads by a move from the vertex at a place.
fn is_number_of(generators: &[(usize, Move)], number: u32, from: usize, via: &Move) -> bool
    ensures { IsTrue result ↔ IsNumberOf generators.now (from, via.now) number }
{
    if number == 0 {
        return false;
    }
    match generators.get(number as usize - 1) {
        Some(start) => is_same(start, &(from, *via)),
        None => false,
    }
}

/// Whether the number at a place of a word is that of the generator whose edge leads by a move from the vertex at a place.
fn names_generator(
    generators: &[(usize, Move)],
    word: &[u32],
    read: usize,
    from: usize,
    via: &Move,
) -> bool
    ensures { IsTrue result ↔ NamesGenerator generators.now (from, via.now) word.now read }
{
    match word.get(read) {
        Some(number) => is_number_of(generators, *number, from, via),
        None => false,
    }
}

/// From where on a word tells the rest of a way, behind a move from the vertex at one place to that at another. None exactly
/// where the word doesn't tell the way.
fn read_after(
    parts: &Parts,
    word: &[u32],
    read: usize,
    from: usize,
    via: &Move,
    to: usize,
) -> Option<usize>
    requires parts { AreOffTree (parts_of parts.now) }
    requires from { from < length parts.now.vertices }
    requires ends { slice_get (plains parts.now.vertices) to ≡ Some (spec.act (tuple_at (plains parts.now.vertices) from) via.now) }
    requires read { read ≤ length word.now }
    ensures { (ms : List Move) → ReadsOn (parts_of parts.now) word.now read (tuple_at (plains parts.now.vertices) from) via.now ms result }
{
    if is_of_tree(parts.tree.items(), from, via, to) {
        return Some(read);
    }
    if names_generator(parts.generators.items(), word, read, from, via) {
        return Some(read + 1);
    }
    None
}

/// Whether the numbers of a relator are those of the generators on its way, which leads through the vertices at these
/// places.
fn has_numbers(parts: &Parts, relator: &Loop, stops: &[usize]) -> bool
    requires parts { AreOffTree (parts_of parts.now) }
    requires within { relator.now.at < length parts.now.vertices }
    requires stops { AreStops (plains parts.now.vertices) relator.now.at relator.now.moves stops.now }
    ensures { IsTrue result ↔ AreNumbers (presented_by (parts_of parts.now) parts.now.generators) (tuple_at (plains parts.now.vertices) relator.now.at) relator.now.moves relator.now.word }
{
    let moves = relator.moves.items();
    let word = relator.word.items();
    let mut read = 0;
    for k in 0..moves.len() {
        let Some(next) = read_after(parts, word, read, stops[k], &moves[k], stops[k + 1]) else {
            return false;
        };
        read = next;
    }
    read == word.len()
}

/// Whether the moves of a relator lead from vertex to vertex, and none is an identity cut. If so, `stops` becomes the places
/// of the vertices on the way. `image` is written over.
fn has_steps(
    parts: &Parts,
    relator: &Loop,
    stops: &mut Vec<usize>,
    image: &mut Tuple,
) -> Result<bool, OutOfMemory>
    requires vertices { All (λ m. AreVertices m.rank (plains parts.now.vertices)) relator.now.moves }
    requires roomy { IsRoomy image.old }
    ensures steps { IfOk result (λ b. IsTrue b ↔ ((relator.now.at < length (plains parts.now.vertices)) × StepsIn (plains parts.now.vertices) (tuple_at (plains parts.now.vertices) relator.now.at) relator.now.moves)) }
    ensures stops { IfOk result (λ b. IsTrue b → AreStops (plains parts.now.vertices) relator.now.at relator.now.moves stops.new.items) }
    ensures roomy { IsRoomy image.new }
{
    let vertices = parts.vertices.items();
    if relator.at >= vertices.len() {
        return Ok(false);
    }
    follow(vertices, relator.at, relator.moves.items(), stops, image)
}

/// Whether a way through the vertices at these places leads back to the first of them.
fn leads_back(parts: &Parts, relator: &Loop, stops: &[usize]) -> bool
    requires parts { AreOffTree (parts_of parts.now) }
    requires within { relator.now.at < length parts.now.vertices }
    requires stops { AreStops (plains parts.now.vertices) relator.now.at relator.now.moves stops.now }
    ensures { IsTrue result ↔ (spec.act_all (tuple_at (plains parts.now.vertices) relator.now.at) relator.now.moves ≡ tuple_at (plains parts.now.vertices) relator.now.at) }
{
    stops[relator.moves.items().len()] == relator.at
}

/// Judges whether the moves of the relator in the line at a place lead through vertices, and back. If so, `stops` becomes
/// the places of these. `image` is written over.
fn judge_way(
    place: usize,
    parts: &Parts,
    relator: &Loop,
    stops: &mut Vec<usize>,
    image: &mut Tuple,
) -> Result<(), Stop>
    requires parts { AreOffTree (parts_of parts.now) }
    requires vertices { All (λ m. AreVertices m.rank (plains parts.now.vertices)) relator.now.moves }
    requires roomy { IsRoomy image.old }
    ensures judges { Judges ((place, has_steps (parts_of parts.now) relator.now) ∷ (place, leads_back (parts_of parts.now) relator.now) ∷ []) result }
    ensures within { OnOk result (relator.now.at < length parts.now.vertices) }
    ensures stops { OnOk result (AreStops (plains parts.now.vertices) relator.now.at relator.now.moves stops.new.items) }
    ensures roomy { IsRoomy image.new }
{
    let steps = has_steps(parts, relator, stops, image)?;
    ask(place, Rule::Step, steps)?;
    ask(place, Rule::Loop, leads_back(parts, relator, stops))
}

/// Whether the composite of moves of a rank is the identity. None exactly where their images are too long on the way.
fn composes_to_identity(
    alloc: Global,
    rank: Rank,
    moves: &[Move],
) -> Result<Option<bool>, OutOfMemory>
    requires { All (λ m. m.rank ≡ rank) moves.now }
    ensures { IfOk result (TellsIdentity rank moves.now) }
{
    match compose(alloc, rank, moves) {
        Ok(images) => Ok(Some(images.is_identity())),
        Err(ComposeError::TooLong { .. }) => Ok(None),
        Err(ComposeError::OutOfMemory) => Err(OutOfMemory),
    }
}

/// Judges whether the composite of the moves of the relator in the line at a place is the identity.
fn judge_composite(alloc: Global, place: usize, rank: Rank, relator: &Loop) -> Result<(), Stop>
    requires { All (λ m. m.rank ≡ rank) relator.now.moves }
    ensures { Judges ((place, has_short_images rank relator.now) ∷ (place, is_identity rank relator.now) ∷ []) result }
{
    let Some(trivial) = composes_to_identity(alloc, rank, relator.moves.items())? else {
        return Err(Stop::Broken {
            place,
            rule: Rule::Wide,
        });
    };
    ask(place, Rule::Identity, trivial)
}

/// Judges the line of a relator, which is at a place. `stops` and `image` are written over.
fn judge_relator(
    alloc: Global,
    place: usize,
    rank: Rank,
    parts: &Parts,
    relator: &Loop,
    stops: &mut Vec<usize>,
    image: &mut Tuple,
) -> Result<(), Stop>
    requires parts { AreOffTree (parts_of parts.now) }
    requires vertices { AreVertices rank (plains parts.now.vertices) }
    requires moves { All (λ m. m.rank ≡ rank) relator.now.moves }
    requires roomy { IsRoomy image.old }
    ensures judges { Judges (loop_asked place rank (parts_of parts.now) relator.now) result }
    ensures roomy { IsRoomy image.new }
{
    judge_way(place, parts, relator, stops, image)?;
    judge_composite(alloc, place, rank, relator)?;
    ask(place, Rule::Numbers, has_numbers(parts, relator, stops))
}

/// Judges the `relator` lines, of which the first is at a place. `stops` and `image` are written over.
fn judge_each_relator(
    alloc: Global,
    place: usize,
    rank: Rank,
    parts: &Parts,
    stops: &mut Vec<usize>,
    image: &mut Tuple,
) -> Result<(), Stop>
    requires parts { AreOffTree (parts_of parts.now) }
    requires vertices { AreVertices rank (plains parts.now.vertices) }
    requires moves { All (λ r. All (λ m. m.rank ≡ rank) r.moves) parts.now.relators }
    requires low { place ≤ 400000 }
    requires few { length parts.now.relators ≤ 400000 }
    requires roomy { IsRoomy image.old }
    ensures { Judges (relators_asked place rank (parts_of parts.now)) result }
{
    let relators = parts.relators.items();
    for k in 0..relators.len() {
        judge_relator(alloc, place + k, rank, parts, &relators[k], stops, image)?;
    }
    Ok(())
}

/// Judges the `relator` lines of what presents the stabiliser of an end, of which the first is at a place.
pub(crate) fn judge_relators(
    alloc: Global,
    place: usize,
    end: &Tuple,
    parts: &Parts,
) -> Result<(), Stop>
    requires parts { ArePartsOfRank end.now.plain.rank end.now.plain (parts_of parts.now) }
    requires level { IsLevel end.now.plain (parts_of parts.now).vertices }
    requires generators { AreGenerators (presented_by (parts_of parts.now) parts.now.generators) }
    requires low { place ≤ 400000 }
    ensures { Judges (relators_asked place end.now.plain.rank (parts_of parts.now)) result }
{
    let mut image = roomy(alloc, end)?;
    let mut stops = Vec::new(alloc);
    judge_each_relator(alloc, place, end.rank(), parts, &mut stops, &mut image)
}
