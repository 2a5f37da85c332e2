//! Stabilisers: the instances of relations at a tuple, and the generators and relators of a commutator.
ghost use Rattle.std.specs.Prelude.{◌≡◌, ◌≤◌, IfOk, IfSome};
ghost use Rattle.wh_words.specs.Limits.{most_stabiliser_rank};
ghost use Rattle.wh_words.specs.Tuples.{TupleData};
ghost use Rattle.wh_words.specs.CapacityTraces.{IsCapacityTrace};
ghost use Rattle.wh_level.specs.Trees.{LevelData};
ghost use Rattle.wh_stab.specs.Stabilisers.{IsStabiliser, Stabilises};

use crate::levels::level_within;
use crate::support::tuple;
use std::alloc::Global;
use std::test::Fail;
use wh_level::Level;
use wh_moves::{Kind, Move};
use wh_reduce::{Trace, reduce};
use wh_relators::{count, instances};
use wh_stab::{Stab, Stabilised, generator_list, stabiliser};
use wh_words::{MOST_LEVEL_RANK, MOST_STABILISER_RANK, OutOfMemory, Tuple};

/// A tuple, where its rank is MOST_STABILISER_RANK at most.
fn low(tuple: Tuple) -> Option<Tuple>
    ensures { IfSome result (λ t. t.plain.rank ≤ most_stabiliser_rank) }
{
    if tuple.rank().get() <= MOST_STABILISER_RANK {
        Some(tuple)
    } else {
        None
    }
}

/// The tuple of a problem text of rank MOST_STABILISER_RANK at most.
fn low_tuple(alloc: Global, text: &str) -> Result<Tuple, Fail>
    ensures { IfOk result (λ t. t.plain.rank ≤ most_stabiliser_rank) }
{
    Ok(low(tuple(alloc, text)?).ok_or("rank")?)
}

/// How many instances of relations are counted at the tuple of a problem text, and whether as many are listed.
fn instances_at(alloc: Global, text: &str) -> Result<(u32, bool), Fail> {
    let tuple = low_tuple(alloc, text)?;
    let listed = instances(alloc, &tuple)?;
    Ok((count(&tuple), listed.len() == count(&tuple) as usize))
}

#[test]
fn as_many_instances_are_listed_as_counted(rt: HostRuntime) -> Result<(), Fail> {
    let alloc = rt.alloc();
    assert_eq!(rt; instances_at(alloc, "rank 1\ntuple a\n")?, (1, true));
    assert_eq!(rt; instances_at(alloc, "rank 2\ntuple abAB\n")?, (85, true));
    assert_eq!(rt; instances_at(alloc, "rank 3\ntuple a b c\n")?, (169, true));
    assert_eq!(rt;
        instances_at(alloc, "rank 4\ntuple a b c d\n")?,
        (857, true)
    );
    Ok(())
}

/// The stabiliser that was made, if no bound was met.
fn made(stabilised: Stabilised) -> Option<Stab>
    ensures { (t : TupleData) (l : LevelData) → Stabilises t l stabilised → IfSome result (IsStabiliser t l) }
{
    match stabilised {
        Stabilised::Done(stab) => Some(stab),
        Stabilised::Edges | Stabilised::Relators => None,
    }
}

/// The stabiliser of a tuple, by its trace and the level of the end of that, if no bound is met.
fn stab_of(
    alloc: Global,
    tuple: &Tuple,
    trace: &Trace,
    level: &Level,
) -> Result<Option<Stab>, OutOfMemory>
    requires rank { tuple.now.plain.rank ≤ most_stabiliser_rank }
    requires trace { IsCapacityTrace tuple.now.plain trace.now.moves trace.now.end.plain }
    requires root { level.now.root ≡ trace.now.end.plain }
    ensures { IfOk result (λ o. IfSome o (IsStabiliser tuple.now.plain level.now)) }
{
    // The proof takes from this call that it is a tuple.
    tuple.rank();
    Ok(made(stabiliser(alloc, tuple, trace, level)?))
}

/// Whether the list of a generator of a stabiliser, by its number, has moves of these kinds.
fn is_listed(
    alloc: Global,
    tuple: &Tuple,
    level: &Level,
    stab: &Stab,
    k: u32,
    kinds: &[Kind],
) -> Result<bool, OutOfMemory>
    requires { IsStabiliser tuple.now.plain level.now stab.now }
{
    if k < 1 || stab.generators.items().len() < k as usize {
        return Ok(false);
    }
    let list = generator_list(alloc, stab, k)?;
    Ok(are_kinds(&list, kinds))
}

/// Whether moves have these kinds.
fn are_kinds(moves: &[Move], kinds: &[Kind]) -> bool {
    if moves.len() != kinds.len() {
        return false;
    }
    for k in 0..moves.len() {
        if moves[k].kind() != kinds[k] {
            return false;
        }
    }
    true
}

/// How many vertices, generators and relators the stabiliser of a tuple has, by its trace and the level of the end of that,
/// and whether the lists of generators 1 and 15 have moves of these kinds.
fn stab_seen(
    alloc: Global,
    tuple: &Tuple,
    trace: &Trace,
    level: &Level,
    first: &[Kind],
    fifteenth: &[Kind],
) -> Result<Option<([usize; 3], bool, bool)>, OutOfMemory>
    requires rank { tuple.now.plain.rank ≤ most_stabiliser_rank }
    requires trace { IsCapacityTrace tuple.now.plain trace.now.moves trace.now.end.plain }
    requires root { level.now.root ≡ trace.now.end.plain }
{
    let Some(stab) = stab_of(alloc, tuple, trace, level)? else {
        return Ok(None);
    };
    let counts = [
        stab.vertices.items().len(),
        stab.generators.items().len(),
        stab.relators.items().len(),
    ];
    let one = is_listed(alloc, tuple, level, &stab, 1, first)?;
    let other = is_listed(alloc, tuple, level, &stab, 15, fifteenth)?;
    Ok(Some((counts, one, other)))
}

/// What is seen of the stabiliser of a commutator.
fn commutator_seen(
    alloc: Global,
    first: &[Kind],
    fifteenth: &[Kind],
) -> Result<Option<([usize; 3], bool, bool)>, Fail> {
    let tuple = low_tuple(alloc, "rank 2\ntuple abAB\n")?;
    let trace = reduce(alloc, &tuple)?;
    if trace.end.rank().get() > MOST_LEVEL_RANK {
        return Ok(None);
    }
    let level = level_within(alloc, &trace.end, 2)?.ok_or("passed")?;
    Ok(stab_seen(alloc, &tuple, &trace, &level, first, fifteenth)?)
}

#[test]
fn a_commutator_is_fixed_by_a_quarter_turn(rt: HostRuntime) -> Result<(), Fail> {
    let turn = [Kind::Invert(1), Kind::Swap(1)];
    let twice = [Kind::Swap(1), Kind::Swap(1)];
    let seen = commutator_seen(rt.alloc(), &turn, &twice)?;
    assert_eq!(rt; seen, Some(([2, 29, 170], true, true)));
    Ok(())
}
