//! The line of the rank.
ghost use Rattle.std.specs.Prelude.{◌≡◌, ◌≤◌, codes};
ghost use Rattle.wh_words.specs.Limits.{most_rank};
ghost use Rattle.wh_lines.specs.Readings.{Gives, refused_as};
ghost use Rattle.wh_lines.specs.LineReadings.{Reads, line_after};
ghost use Rattle.wh_text.specs.RankLines as spec;

use wh_data::Command;
use wh_lines::{Field, Kept, ReadError, Reader, canonical_number};
use wh_words::{MOST_LEVEL_RANK, MOST_RANK, MOST_STABILISER_RANK, Rank};

/// The greatest rank of a command's problems.
fn greatest_rank(command: Command) -> u64
    ensures { result ≡ spec.greatest_rank command }
{
    match command {
        Command::Reduce => MOST_RANK as u64,
        Command::Decide => MOST_LEVEL_RANK as u64,
        Command::Straighten => MOST_RANK as u64,
        Command::Stabiliser => MOST_STABILISER_RANK as u64,
    }
}

/// The rank of a number from 1 to 26, where the command allows it.
fn allowed_rank(command: Command, n: u64) -> Result<Rank, ReadError>
    requires least { 1 ≤ n }
    requires greatest { n ≤ most_rank }
    ensures { Gives (λ n. n) result (spec.allowed_rank command n) }
{
    if n > greatest_rank(command) {
        return Err(ReadError::LevelRank { rank: n });
    }
    Ok(Rank::new(n as u8).unwrap())
}

/// The rank of a number in a line.
fn rank_number(command: Command, line: u64, read: Option<u64>) -> Result<Rank, ReadError>
    ensures { Gives (λ n. n) result (spec.rank_number command line read) }
{
    let Some(n) = read else {
        return Err(ReadError::RankRange { line });
    };
    if n < 1 || n > MOST_RANK as u64 {
        return Err(ReadError::RankRange { line });
    }
    allowed_rank(command, n)
}

/// The rank of the fields after the keyword.
fn rank_of(command: Command, line: u64, fields: &[Field]) -> Result<Rank, ReadError>
    ensures { Gives (λ n. n) result (spec.rank_at command line fields.now) }
{
    let [field] = fields else {
        return Err(ReadError::RankRange { line });
    };
    rank_number(command, line, canonical_number(field.bytes()))
}

/// The refusal of a line that should be a rank line.
fn no_rank(error: ReadError) -> ReadError
    ensures { result ≡ spec.no_rank error }
{
    match error {
        ReadError::BadLine { line } => ReadError::NoRank { line },
        other => other,
    }
}

/// The next line, which is a rank line. NoRank comes where it isn't one, or where there is none.
#[tactic(auto, using(wh_lines::proofs::Equations::refused_by))]
fn rank_line<'a>(reader: &mut Reader<'a>) -> Result<Kept<'a>, ReadError>
    ensures { Reads (λ k. k) result reader.new (refused_as spec.no_rank (line_after (codes "rank") reader.old)) }
{
    match reader.line_after(b"rank") {
        Ok(kept) => Ok(kept),
        Err(error) => Err(no_rank(error)),
    }
}

/// The rank that the next line tells. NoRank comes where that is no rank line, RankRange where it hasn't one number from 1
/// to 26, and LevelRank where the command doesn't take the rank.
#[tactic(auto, unfolding(crate::specs::RankLines::rank_after))]
pub fn read_rank(command: Command, reader: &mut Reader) -> Result<Rank, ReadError>
    ensures { Reads (λ n. n) result reader.new (spec.rank_after command reader.old) }
{
    let kept = rank_line(reader)?;
    rank_of(command, kept.number() as u64, kept.fields())
}
