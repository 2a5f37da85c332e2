//! Reading of the lines of answers.
ghost use Rattle.std.specs.Prelude.{◌≡◌, ℕ, ◌≤◌, length, map, IfOk, IfSome, codes};
ghost use Rattle.wh_lines.specs.Readings.{Gives, or_bad_line, refused_as};
ghost use Rattle.wh_lines.specs.LineReadings.{Reads, times};
ghost use Rattle.wh_fields.specs.TupleFields.{tuple_at};
ghost use Rattle.wh_fields.specs.MoveFields.{moves_at};
ghost use Rattle.wh_fields.specs.FlowFields.{FlowData, flow_in};
ghost use Rattle.wh_lines.specs.declared.read_error.ReadError.TheVariants.{BadLine};
ghost use Rattle.wh_text.specs.Certificates as spec;

use std::alloc::Global;
use wh_fields::{FlowLine, read_flow, read_moves, read_tuple};
use wh_lines::{Field, Kept, ReadError, Reader, canonical_number};
use wh_moves::Move;
use wh_words::{List, Rank, Tuple};

/// The refusal in an answer of what is refused in a problem: a line with a cause of its own is a bad line.
pub fn in_answer(error: ReadError) -> ReadError
    ensures { result ≡ spec.in_answer error }
{
    match error {
        ReadError::NoRank { line } => ReadError::BadLine { line },
        ReadError::RankRange { line } => ReadError::BadLine { line },
        ReadError::TooManyWords { line, .. } => ReadError::BadLine { line },
        ReadError::BadLetter { line, .. } => ReadError::BadLine { line },
        ReadError::LongTuple { line, .. } => ReadError::BadLine { line },
        ReadError::BadMove { line, .. } => ReadError::BadLine { line },
        other => other,
    }
}

/// The tuple of a line. BadLine comes for each refusal of its words.
#[tactic(auto, using(wh_lines::proofs::Equations::refused_by))]
fn tuple_of(alloc: Global, rank: Rank, kept: &Kept) -> Result<Tuple, ReadError>
    ensures { Gives (λ t. t.plain) result (refused_as spec.in_answer (tuple_at rank kept.now.number kept.now.fields)) }
{
    match read_tuple(alloc, rank, kept.number() as u64, kept.fields()) {
        Ok(tuple) => Ok(tuple),
        Err(error) => Err(in_answer(error)),
    }
}

/// The refusal of a line that doesn't continue an answer.
pub fn bad_line(kept: &Kept) -> ReadError
    ensures { result ≡ BadLine kept.now.number }
{
    ReadError::BadLine {
        line: kept.number() as u64,
    }
}

/// The tuple of the next line, which has this keyword.
#[tactic(auto, unfolding(crate::specs::Certificates::tuple_after))]
pub fn tuple_after(
    alloc: Global,
    keyword: &[u8],
    rank: Rank,
    reader: &mut Reader,
) -> Result<Tuple, ReadError>
    ensures { Reads (λ t. t.plain) result reader.new (spec.tuple_after keyword.now rank reader.old) }
{
    let kept = reader.line_after(keyword)?;
    tuple_of(alloc, rank, &kept)
}

/// The tuple of a line, which has so many words.
#[tactic(auto, unfolding(crate::specs::Certificates::like_of))]
fn like_of(alloc: Global, rank: Rank, count: usize, kept: &Kept) -> Result<Tuple, ReadError>
    ensures { Gives (λ t. t.plain) result (spec.like_of rank count kept.now) }
{
    let tuple = tuple_of(alloc, rank, kept)?;
    if tuple.count() != count {
        drop(tuple);
        return Err(bad_line(kept));
    }
    Ok(tuple)
}

/// The tuple of the next line, which has this keyword and so many words.
#[tactic(auto, unfolding(crate::specs::Certificates::like_after))]
pub fn like_after(
    alloc: Global,
    keyword: &[u8],
    rank: Rank,
    count: usize,
    reader: &mut Reader,
) -> Result<Tuple, ReadError>
    ensures { Reads (λ t. t.plain) result reader.new (spec.like_after keyword.now rank count reader.old) }
{
    let kept = reader.line_after(keyword)?;
    like_of(alloc, rank, count, &kept)
}

/// The moves of a line. BadLine comes where a field tells none.
#[tactic(auto, using(wh_lines::proofs::Equations::refused_by))]
pub fn moves_of(alloc: Global, rank: Rank, kept: &Kept) -> Result<List<Move>, ReadError>
    ensures { Gives (λ ms. ms) result (refused_as spec.in_answer (moves_at rank kept.now.number kept.now.fields)) }
{
    match read_moves(alloc, rank, kept.number() as u64, kept.fields()) {
        Ok(moves) => Ok(moves),
        Err(error) => Err(in_answer(error)),
    }
}

/// The moves of the next line, which has this keyword.
#[tactic(auto, unfolding(crate::specs::Certificates::moves_after))]
pub fn moves_after(
    alloc: Global,
    keyword: &[u8],
    rank: Rank,
    reader: &mut Reader,
) -> Result<List<Move>, ReadError>
    ensures { Reads (λ ms. ms) result reader.new (spec.moves_after keyword.now rank reader.old) }
{
    let kept = reader.line_after(keyword)?;
    moves_of(alloc, rank, &kept)
}

/// What a `flow` line tells.
fn flow_of(rank: Rank, kept: &Kept) -> Result<FlowLine, ReadError>
    ensures { Gives (λ f. f) result (or_bad_line kept.now.number (flow_in rank kept.now.fields)) }
{
    match read_flow(rank.get(), kept.fields()) {
        Some(flow) => Ok(flow),
        None => Err(bad_line(kept)),
    }
}

/// What the next line tells, which is a `flow` line.
#[tactic(auto, unfolding(crate::specs::Certificates::flow_after))]
fn flow_after(rank: Rank, reader: &mut Reader) -> Result<FlowLine, ReadError>
    ensures { Reads (λ f. f) result reader.new (spec.flow_after rank reader.old) }
{
    let kept = reader.line_after(b"flow")?;
    flow_of(rank, &kept)
}

/// What the next lines tell, which are a `flow` line for each generator.
pub fn flows_after(
    alloc: Global,
    rank: Rank,
    reader: &mut Reader,
) -> Result<Vec<FlowLine>, ReadError>
    ensures { Reads (λ v. v.items) result reader.new (times (spec.flow_after rank) rank reader.old) }
{
    let mut flows = Vec::new(alloc);
    for _ in 0..rank.get() {
        let flow = flow_after(rank, reader)?;
        flows.push(flow)?;
    }
    Ok(flows)
}

/// The tuples of the next lines, which are so many `at` lines.
pub fn tuples_after(
    alloc: Global,
    rank: Rank,
    count: usize,
    size: usize,
    reader: &mut Reader,
) -> Result<Vec<Tuple>, ReadError>
    ensures { Reads (λ v. map (λ t. t.plain) v.items) result reader.new (times (spec.like_after (codes "at") rank count) size reader.old) }
{
    let mut tuples = Vec::new(alloc);
    for _ in 0..size {
        let tuple = like_after(alloc, b"at", rank, count, reader)?;
        tuples.push(tuple)?;
    }
    Ok(tuples)
}

/// A number, where there is one of a range.
fn within(least: u64, most: u64, number: Option<u64>) -> Option<u64>
    ensures same { result ≡ spec.within least most number }
    ensures within { IfSome result (λ n. (least ≤ n) × (n ≤ most)) }
{
    match number {
        Some(n) if least <= n && n <= most => Some(n),
        _ => None,
    }
}

/// The number of the one field. BadLine comes where there is another number of fields, or no number of the range.
pub fn read_number(line: u64, least: u64, most: u64, fields: &[Field]) -> Result<u64, ReadError>
    ensures number { Gives (λ n. n) result (or_bad_line line (spec.number_in least most fields.now)) }
    ensures within { IfOk result (λ n. (least ≤ n) × (n ≤ most)) }
{
    let number = match fields {
        [field] => within(least, most, canonical_number(field.bytes())),
        _ => None,
    };
    number.ok_or(ReadError::BadLine { line })
}
