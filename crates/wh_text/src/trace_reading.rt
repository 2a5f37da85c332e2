//! Reading of the first line behind the tuple of a stabiliser.
ghost use Rattle.std.specs.Prelude.{◌≡◌, ◌&&◌, cond, Err, codes, decimal};
ghost use Rattle.wh_lines.specs.Lines.{are};
ghost use Rattle.wh_lines.specs.Readings.{Gives, refused_as};
ghost use Rattle.wh_lines.specs.LineReadings.{Reads};
ghost use Rattle.wh_lines.specs.declared.read_error.ReadError.TheVariants.{BadLine, NoCertificate};
ghost use Rattle.wh_fields.specs.MoveFields.{moves_at};
ghost use Rattle.wh_text.specs.Certificates as spec;

use crate::answer_line::{bad_line, moves_of};
use crate::verdict_reading::is_bound;
use std::alloc::Global;
use wh_lines::{Field, Kept, Next, ReadError, Reader, canonical_number};
use wh_moves::Move;
use wh_words::{List, MOST_LEVEL_EDGES, MOST_RELATORS, Rank};

/// Whether a field tells this number.
#[tactic(auto, using(crate::proofs::FirstTraces::number_told, crate::proofs::FirstTraces::number_missing))]
fn tells(field: &Field, number: u64) -> bool
    ensures { result ≡ are field.now.bytes (decimal number) }
{
    match canonical_number(field.bytes()) {
        Some(told) => told == number,
        None => false,
    }
}

/// Whether two fields tell a bound of `stabiliser`: a word, and a number that it may tell.
fn is_stab_bound(word: &Field, number: &Field) -> bool
    ensures { result ≡ spec.is_stab_bound word.now.bytes number.now.bytes }
{
    is_bound(word, number)
        || (word.is(b"edges") && tells(number, MOST_LEVEL_EDGES as u64))
        || (word.is(b"relators") && tells(number, MOST_RELATORS as u64))
}

/// Whether fields tell an undecided verdict of `stabiliser`.
fn is_undecided(fields: &[Field]) -> bool
    ensures { result ≡ spec.is_undecided_in fields.now }
{
    match fields {
        [first, word, number] => first.is(b"undecided") && is_stab_bound(word, number),
        _ => false,
    }
}

/// The moves of a `trace` line. NoCertificate comes where the line has an undecided verdict, BadLine where it is another.
fn trace_of(alloc: Global, rank: Rank, kept: &Kept) -> Result<List<Move>, ReadError>
    ensures { Gives (λ ms. ms) result (cond (are kept.now.keyword (codes "verdict") && spec.is_undecided_in kept.now.fields) (Err (NoCertificate kept.now.number)) (cond (are kept.now.keyword (codes "trace")) (refused_as spec.in_answer (moves_at rank kept.now.number kept.now.fields)) (Err (BadLine kept.now.number)))) }
{
    if kept.has_keyword(b"verdict") && is_undecided(kept.fields()) {
        return Err(ReadError::NoCertificate {
            line: kept.number() as u64,
        });
    }
    if !kept.has_keyword(b"trace") {
        return Err(bad_line(kept));
    }
    moves_of(alloc, rank, kept)
}

/// The moves of the next line, a `trace` line, with which a stabiliser begins that isn't undecided.
#[tactic(auto, using(crate::proofs::FirstTraces::trace_fails, crate::proofs::FirstTraces::trace_reads, crate::proofs::FirstTraces::trace_missing))]
pub fn stab_trace_after(
    alloc: Global,
    rank: Rank,
    reader: &mut Reader,
) -> Result<List<Move>, ReadError>
    ensures { Reads (λ ms. ms) result reader.new (spec.stab_trace_after rank reader.old) }
{
    match reader.next_line()? {
        Next::Line(kept) => trace_of(alloc, rank, &kept),
        Next::End(place) => Err(ReadError::BadLine { line: place as u64 }),
    }
}
