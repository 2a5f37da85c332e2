//! Ways round peaks.
ghost use Rattle.std.specs.Prelude.{◌≡◌};

use crate::support::{cut, has_words, leads_by_letters, tuple};
use std::alloc::Global;
use std::test::Fail;
use wh_moves::{Move, act, acted_length};
use wh_straighten::lower;
use wh_words::Tuple;

/// A way round the top, where both moves shorten it, and else no move.
fn way_round(alloc: Global, top: &Tuple, left: &Move, right: &Move) -> Result<Vec<Move>, Fail>
    requires left_rank { left.now.rank ≡ top.now.plain.rank }
    requires right_rank { right.now.rank ≡ top.now.plain.rank }
{
    let length = top.length();
    if acted_length(top, left) < length && acted_length(top, right) < length {
        Ok(lower(alloc, top, left, right)?)
    } else {
        Ok(Vec::new(alloc))
    }
}

/// Whether the way round a top leads by single letters from its left end, which is b, to a.
fn leads_round(
    alloc: Global,
    top: &Tuple,
    left: &Move,
    right: &Move,
    start: &Tuple,
) -> Result<bool, Fail>
    requires left_rank { left.now.rank ≡ top.now.plain.rank }
    requires right_rank { right.now.rank ≡ top.now.plain.rank }
{
    let way = way_round(alloc, top, left, right)?;
    Ok(has_words(start, &["b"]) && leads_by_letters(alloc, start, &way, "a")?)
}

/// Whether the way round ab, between two cuts that each take one of its letters away, leads from b to a.
fn goes_round(alloc: Global, top: &Tuple) -> Result<bool, Fail> {
    let left = cut(top.rank(), b'a', 0b1001)?;
    let right = cut(top.rank(), b'b', 0b0110)?;
    let start = act(alloc, top, &left)?;
    leads_round(alloc, top, &left, &right, &start)
}

/// The same for the tuple of a text.
fn goes_round_text(alloc: Global, text: &str) -> Result<bool, Fail> {
    let top = tuple(alloc, text)?;
    goes_round(alloc, &top)
}

#[test]
fn a_peak_of_two_letters_is_gone_round_by_single_letters(rt: HostRuntime) -> Result<(), Fail> {
    assert!(rt; goes_round_text(rt.alloc(), "rank 2\ntuple ab\n")?);
    Ok(())
}
