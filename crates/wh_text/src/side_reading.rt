//! Reading of sides and levels.
ghost use Rattle.std.specs.Prelude.{◌≡◌, map, IfOk, codes};
ghost use Rattle.wh_lines.specs.LineReadings.{Reads};
ghost use Rattle.wh_data.specs.AnswerData.{plains};
ghost use Rattle.wh_text.specs.Certificates as spec;

use crate::answer_line::{flows_after, like_after, moves_after, read_number, tuples_after};
use std::alloc::Global;
use std::marker::Model;
use wh_data::Side;
use wh_fields::FlowLine;
use wh_flow::Flow;
use wh_lines::{Kept, ReadError, Reader};
use wh_moves::Move;
use wh_words::{Letter, List, MOST_LEVEL_TUPLES, OutOfMemory, Rank, Tuple};

/// A side, and the letters and values that its `flow` lines name.
#[derive(Drop)]
pub struct ReadSide {
    pub side: Side,
    pub heads: Vec<(Letter, u32)>,
}

impl Model for ReadSide {
    ghost use Rattle.wh_data.specs.AnswerData.{side_of};
    ghost use Rattle.wh_text.specs.Certificates as spec;

    ghost Value = { spec.SideRead };

    ghost view = { λ s. record { side = side_of s.side; heads = s.heads.items } };
}

/// What `flow` lines name, and their flows.
fn split_flows(
    alloc: Global,
    lines: Vec<FlowLine>,
) -> Result<(Vec<(Letter, u32)>, Vec<Flow>), OutOfMemory>
    ensures heads { IfOk result (λ r. r.0.items ≡ map (λ f. f.head) lines.items) }
    ensures flows { IfOk result (λ r. r.1.items ≡ map (λ f. f.table) lines.items) }
{
    let mut heads = Vec::new(alloc);
    let mut flows = Vec::new(alloc);
    for line in lines {
        let (head, flow) = line.into_parts();
        heads.push(head)?;
        flows.push(flow)?;
    }
    Ok((heads, flows))
}

/// The side of a trace, an end and `flow` lines.
fn side_with(
    alloc: Global,
    trace: List<Move>,
    end: Tuple,
    lines: Vec<FlowLine>,
) -> Result<ReadSide, OutOfMemory>
    ensures { IfOk result (λ s. s ≡ spec.side_with trace end.plain lines.items) }
{
    match split_flows(alloc, lines) {
        Ok((heads, flows)) => Ok(ReadSide {
            side: Side {
                trace,
                end,
                flows: List::of(flows),
            },
            heads,
        }),
        Err(error) => {
            drop(end);
            Err(error)
        }
    }
}

/// The side of a trace and an end, with the flows of the next lines.
fn with_flows(
    alloc: Global,
    rank: Rank,
    trace: List<Move>,
    end: Tuple,
    reader: &mut Reader,
) -> Result<ReadSide, ReadError>
    ensures { Reads (λ s. s) result reader.new (spec.with_flows rank trace end.plain reader.old) }
{
    match flows_after(alloc, rank, reader) {
        Ok(lines) => Ok(side_with(alloc, trace, end, lines)?),
        Err(error) => {
            drop(end);
            Err(error)
        }
    }
}

/// The side of a trace, with the end and the flows of the next lines.
pub fn ended_after(
    alloc: Global,
    rank: Rank,
    count: usize,
    trace: List<Move>,
    reader: &mut Reader,
) -> Result<ReadSide, ReadError>
    ensures { Reads (λ s. s) result reader.new (spec.ended_after rank count trace reader.old) }
{
    let end = like_after(alloc, b"end", rank, count, reader)?;
    with_flows(alloc, rank, trace, end, reader)
}

/// The side that the next lines tell: `trace`, `end`, and a `flow` line for each generator.
#[tactic(auto, unfolding(crate::specs::Certificates::side_after))]
pub fn side_after(
    alloc: Global,
    rank: Rank,
    count: usize,
    reader: &mut Reader,
) -> Result<ReadSide, ReadError>
    ensures { Reads (λ s. s) result reader.new (spec.side_after rank count reader.old) }
{
    let trace = moves_after(alloc, b"trace", rank, reader)?;
    ended_after(alloc, rank, count, trace, reader)
}

/// The level of a `level` line, with its tuples of the next lines: as many `at` lines as it tells.
fn level_with(
    alloc: Global,
    rank: Rank,
    count: usize,
    kept: &Kept,
    reader: &mut Reader,
) -> Result<List<Tuple>, ReadError>
    ensures { Reads plains result reader.new (spec.level_with rank count kept.now reader.old) }
{
    let size = read_number(
        kept.number() as u64,
        1,
        MOST_LEVEL_TUPLES as u64,
        kept.fields(),
    )?;
    let tuples = tuples_after(alloc, rank, count, size as usize, reader)?;
    Ok(List::of(tuples))
}

/// The level that the next lines tell: `level` with the number of its tuples, 1 to 131,072, and an `at` line for each.
#[tactic(auto, unfolding(crate::specs::Certificates::level_after))]
pub fn level_after(
    alloc: Global,
    rank: Rank,
    count: usize,
    reader: &mut Reader,
) -> Result<List<Tuple>, ReadError>
    ensures { Reads plains result reader.new (spec.level_after rank count reader.old) }
{
    let kept = reader.line_after(b"level")?;
    level_with(alloc, rank, count, &kept, reader)
}
