//! The lists of the families, move by move.
ghost use Rattle.std.specs.Prelude.{◌≡◌, ◌≢◌, ◌+◌, ◌-◌, ◌*◌, ◌/◌, ◌%◌, ◌==◌, ◌<◌, ◌≤◌, cond, ◌++◌, ◌∷◌, [], map, IfOk, OnOk};
ghost use Rattle.wh_relators.specs.Pairs.{AreExchanged, IsReady};
ghost use Rattle.wh_relators.specs.Choices as choices;
ghost use Rattle.wh_words.specs.Limits.{most_stabiliser_rank};
ghost use Rattle.wh_words.specs.Letters.{inverse_letter};
ghost use Rattle.wh_words.specs.Images.{swap_letter, invert_letter};
ghost use Rattle.wh_words.specs.Moves.{IsCut, cut_move, turned_set};
ghost use Rattle.wh_peak.specs.Relations.{swap_move, invert_move};
ghost use Rattle.wh_relators.specs.Cuts as cuts;
ghost use Rattle.wh_relators.specs.Families as spec;
ghost use Rattle.wh_relators.specs.Instances as instances;

use crate::cut::Cut;
use crate::family::Family;
use crate::mask_tests::{all_but, invert_letters, others, swap_letters, turned, union, union_less};
use std::alloc::Global;
use wh_moves::Move;
use wh_words::{Letter, OutOfMemory, Rank};

/// The move of a cut.
fn doing(rank: Rank, x: Cut) -> Move
    requires { IsCut rank x.mult x.set }
    ensures { result ≡ cuts.does rank x }
{
    Move::cut(rank, x.mult, x.set).unwrap()
}

/// The inverse of the move of a cut.
fn undoing(rank: Rank, x: Cut) -> Move
    requires { IsCut rank x.mult x.set }
    ensures { result ≡ cuts.undoes rank x }
{
    doing(rank, x).inverse()
}

/// The swap of generators `k` and `k + 1`.
fn swap(rank: Rank, k: u8) -> Move
    requires least { 0 < k }
    requires below { k < rank }
    ensures { result ≡ swap_move rank k }
{
    Move::swap(rank, k).unwrap()
}

/// The inversion of generator `k`.
fn invert(rank: Rank, k: u8) -> Move
    requires least { 0 < k }
    requires greatest { k ≤ rank }
    ensures { result ≡ invert_move rank k }
{
    Move::invert(rank, k).unwrap()
}

/// The cut of the letters of two sets, with the multiplier of the first.
pub(crate) fn united(rank: Rank, x: Cut, y: Cut) -> Cut
    requires first { IsCut rank x.mult x.set }
    requires second { IsCut rank y.mult y.set }
    ensures { result ≡ record { mult = x.mult; set = cuts.union rank x.set y.set } }
{
    Cut {
        mult: x.mult,
        set: union(rank, x.set, y.set),
    }
}

/// The cut of the letters of two sets without the multiplier of the second, with that of the first.
pub(crate) fn conjugated(rank: Rank, x: Cut, y: Cut) -> Cut
    requires first { IsCut rank x.mult x.set }
    requires second { IsCut rank y.mult y.set }
    ensures { result ≡ record { mult = x.mult; set = cuts.union_less rank x.set y.set y.mult } }
{
    Cut {
        mult: x.mult,
        set: union_less(rank, x.set, y.set, y.mult),
    }
}

/// The cut with the same set and another multiplier.
pub(crate) fn with_mult(x: Cut, mult: Letter) -> Cut
    ensures { result ≡ record { mult = mult; set = x.set } }
{
    Cut { mult, set: x.set }
}

/// The cut that the swap of generators `k` and `k + 1` takes a cut to.
pub(crate) fn swapped(rank: Rank, k: u8, x: Cut) -> Cut
    requires least { 0 < k }
    requires below { k < rank }
    ensures { result ≡ cuts.mapped_cut rank (swap_letter k) x }
{
    Cut {
        mult: x.mult.swapped(k),
        set: swap_letters(rank, k, x.set),
    }
}

/// The cut that the inversion of generator `k` takes a cut to.
pub(crate) fn inverted(rank: Rank, k: u8, x: Cut) -> Cut
    ensures { result ≡ cuts.mapped_cut rank (invert_letter k) x }
{
    Cut {
        mult: x.mult.inverted(k),
        set: invert_letters(rank, k, x.set),
    }
}

/// The inner automorphism of a letter, as a cut.
fn inner(rank: Rank, mult: Letter) -> Cut
    ensures { result ≡ cuts.inner rank mult }
{
    Cut {
        mult,
        set: all_but(rank, mult.inverse()),
    }
}

/// The cut of the other letters, with the inverse multiplier.
fn complement(rank: Rank, x: Cut) -> Cut
    ensures { result ≡ record { mult = inverse_letter x.mult; set = cuts.others rank x.set } }
{
    Cut {
        mult: x.mult.inverse(),
        set: others(rank, x.set),
    }
}

fn cancel(rank: Rank, x: Cut) -> [Move; 2]
    requires { IsCut rank x.mult x.set }
    ensures { result ≡ spec.cancel rank x }
{
    [doing(rank, x), undoing(rank, x)]
}

fn unite(rank: Rank, x: Cut, y: Cut) -> [Move; 3]
    requires first { IsCut rank x.mult x.set }
    requires second { IsCut rank y.mult y.set }
    requires both { IsCut rank x.mult (cuts.union rank x.set y.set) }
    ensures { result ≡ spec.unite rank x y }
{
    [
        doing(rank, x),
        doing(rank, y),
        undoing(rank, united(rank, x, y)),
    ]
}

fn commute(rank: Rank, x: Cut, y: Cut) -> [Move; 4]
    requires first { IsCut rank x.mult x.set }
    requires second { IsCut rank y.mult y.set }
    ensures { result ≡ spec.commute rank x y }
{
    [
        doing(rank, x),
        doing(rank, y),
        undoing(rank, x),
        undoing(rank, y),
    ]
}

fn conjugate(rank: Rank, x: Cut, y: Cut) -> [Move; 4]
    requires first { IsCut rank x.mult x.set }
    requires second { IsCut rank y.mult y.set }
    requires both { IsCut rank x.mult (cuts.union_less rank x.set y.set y.mult) }
    ensures { result ≡ spec.conjugate rank x y }
{
    [
        undoing(rank, y),
        doing(rank, x),
        doing(rank, y),
        undoing(rank, conjugated(rank, x, y)),
    ]
}

fn swap_cut(rank: Rank, k: u8, x: Cut) -> [Move; 4]
    requires least { 0 < k }
    requires below { k < rank }
    requires cut { IsCut rank x.mult x.set }
    requires image { IsCut rank (swap_letter k x.mult) (cuts.mapped rank (swap_letter k) x.set) }
    ensures { result ≡ spec.swap_cut rank k x }
{
    [
        swap(rank, k),
        doing(rank, x),
        swap(rank, k),
        undoing(rank, swapped(rank, k, x)),
    ]
}

fn invert_cut(rank: Rank, k: u8, x: Cut) -> [Move; 4]
    requires least { 0 < k }
    requires greatest { k ≤ rank }
    requires cut { IsCut rank x.mult x.set }
    requires image { IsCut rank (invert_letter k x.mult) (cuts.mapped rank (invert_letter k) x.set) }
    ensures { result ≡ spec.invert_cut rank k x }
{
    [
        invert(rank, k),
        doing(rank, x),
        invert(rank, k),
        undoing(rank, inverted(rank, k, x)),
    ]
}

fn swap_twice(rank: Rank, k: u8) -> [Move; 2]
    requires least { 0 < k }
    requires below { k < rank }
    ensures { result ≡ spec.swap_twice rank k }
{
    [swap(rank, k), swap(rank, k)]
}

fn invert_twice(rank: Rank, k: u8) -> [Move; 2]
    requires least { 0 < k }
    requires greatest { k ≤ rank }
    ensures { result ≡ spec.invert_twice rank k }
{
    [invert(rank, k), invert(rank, k)]
}

fn braid(rank: Rank, k: u8) -> [Move; 6]
    requires least { 0 < k }
    requires below { k + 1 < rank }
    ensures { result ≡ spec.braid rank k }
{
    let (one, next) = (swap(rank, k), swap(rank, k + 1));
    [one, next, one, next, one, next]
}

fn swap_both(rank: Rank, j: u8, k: u8) -> [Move; 4]
    requires first { 0 < j }
    requires below { j < rank }
    requires second { 0 < k }
    requires next { k < rank }
    ensures { result ≡ spec.swap_both rank j k }
{
    let (one, other) = (swap(rank, j), swap(rank, k));
    [one, other, one, other]
}

fn invert_both(rank: Rank, j: u8, k: u8) -> [Move; 4]
    requires first { 0 < j }
    requires greatest { j ≤ rank }
    requires second { 0 < k }
    requires next { k ≤ rank }
    ensures { result ≡ spec.invert_both rank j k }
{
    let (one, other) = (invert(rank, j), invert(rank, k));
    [one, other, one, other]
}

fn swap_inversion(rank: Rank, k: u8) -> [Move; 4]
    requires least { 0 < k }
    requires below { k < rank }
    ensures { result ≡ spec.swap_inversion rank k }
{
    [
        swap(rank, k),
        invert(rank, k),
        swap(rank, k),
        invert(rank, k + 1),
    ]
}

fn pass_inversion(rank: Rank, k: u8, j: u8) -> [Move; 4]
    requires first { 0 < k }
    requires below { k < rank }
    requires second { 0 < j }
    requires greatest { j ≤ rank }
    ensures { result ≡ spec.pass_inversion rank k j }
{
    [
        swap(rank, k),
        invert(rank, j),
        swap(rank, k),
        invert(rank, j),
    ]
}

fn complement_cut(rank: Rank, x: Cut) -> [Move; 3]
    requires cut { IsCut rank x.mult x.set }
    requires inner { IsCut rank x.mult (cuts.all_but rank (inverse_letter x.mult)) }
    requires rest { IsCut rank (inverse_letter x.mult) (cuts.others rank x.set) }
    ensures { result ≡ spec.complement_cut rank x }
{
    [
        doing(rank, inner(rank, x.mult)),
        doing(rank, complement(rank, x)),
        undoing(rank, x),
    ]
}

/// A cut and an inner automorphism that it leaves.
fn keep_inner(rank: Rank, x: Cut, b: Letter) -> [Move; 4]
    requires cut { IsCut rank x.mult x.set }
    requires inner { IsCut rank b (cuts.all_but rank (inverse_letter b)) }
    ensures { result ≡ cuts.undoes rank x ∷ cuts.does rank (cuts.inner rank b) ∷ cuts.does rank x ∷ cuts.undoes rank (cuts.inner rank b) ∷ [] }
{
    let other = inner(rank, b);
    [
        undoing(rank, x),
        doing(rank, other),
        doing(rank, x),
        undoing(rank, other),
    ]
}

/// A cut and an inner automorphism that it takes to that of a product.
fn move_inner(rank: Rank, x: Cut, b: Letter) -> [Move; 5]
    requires cut { IsCut rank x.mult x.set }
    requires own { IsCut rank x.mult (cuts.all_but rank (inverse_letter x.mult)) }
    requires inner { IsCut rank b (cuts.all_but rank (inverse_letter b)) }
    ensures { result ≡ cuts.undoes rank x ∷ cuts.does rank (cuts.inner rank b) ∷ cuts.does rank x ∷ cuts.undoes rank (cuts.inner rank x.mult) ∷ cuts.undoes rank (cuts.inner rank b) ∷ [] }
{
    let other = inner(rank, b);
    [
        undoing(rank, x),
        doing(rank, other),
        doing(rank, x),
        undoing(rank, inner(rank, x.mult)),
        undoing(rank, other),
    ]
}

fn conjugate_inner(alloc: Global, rank: Rank, x: Cut, b: Letter) -> Result<Vec<Move>, OutOfMemory>
    requires cut { IsCut rank x.mult x.set }
    requires own { IsCut rank x.mult (cuts.all_but rank (inverse_letter x.mult)) }
    requires inner { IsCut rank b (cuts.all_but rank (inverse_letter b)) }
    ensures { IfOk result (λ v. v.items ≡ spec.conjugate_inner rank x b) }
{
    if x.set.contains(b) {
        Ok(Vec::from_slice(alloc, &move_inner(rank, x, b))?)
    } else {
        Ok(Vec::from_slice(alloc, &keep_inner(rank, x, b))?)
    }
}

/// Adds the swaps that exchange two generators, the first of which is below the second: up to the last and back.
#[tactic(auto, using(crate::proofs::WordLists::exchange_near, crate::proofs::WordLists::exchange_next, crate::proofs::WordLists::exchange_far))]
fn push_exchange(word: &mut Vec<Move>, rank: Rank, low: u8, high: u8) -> Result<(), OutOfMemory>
    requires few { rank ≤ most_stabiliser_rank }
    requires least { 0 < low }
    requires order { low < high }
    requires greatest { high ≤ rank }
    ensures { OnOk result (word.new.items ≡ word.old.items ++ map (λ k. record { rank = rank; kind = k }) (spec.exchange_up low (high - low - 1))) }
{
    let one = swap(rank, low);
    if high - low == 1 {
        word.extend_from_slice(&[one])?;
    } else if high - low == 2 {
        let next = swap(rank, low + 1);
        word.extend_from_slice(&[one, next, one])?;
    } else {
        let next = swap(rank, low + 1);
        let last = swap(rank, low + 2);
        word.extend_from_slice(&[one, next, last, next, one])?;
    }
    Ok(())
}

/// Adds the swaps that exchange two generators.
fn push_exchange_of(word: &mut Vec<Move>, rank: Rank, g: u8, h: u8) -> Result<(), OutOfMemory>
    requires few { rank ≤ most_stabiliser_rank }
    requires first { 0 < g }
    requires below { g ≤ rank }
    requires second { 0 < h }
    requires next { h ≤ rank }
    requires other { g ≢ h }
    ensures { OnOk result (word.new.items ≡ word.old.items ++ map (λ k. record { rank = rank; kind = k }) (spec.exchange g h)) }
{
    if g < h {
        push_exchange(word, rank, g, h)
    } else {
        push_exchange(word, rank, h, g)
    }
}

/// The generator that is inverted where a letter is taken to another, and that to the inverse of the first.
fn carry_generator(a: Letter, b: Letter) -> u8
    ensures { result ≡ cond (a % 2 == b % 2) (a / 2 + 1) (b / 2 + 1) }
{
    if a.index() % 2 == b.index() % 2 {
        a.generator()
    } else {
        b.generator()
    }
}

/// The swaps and the inversion that take a letter to another, and that to the inverse of the first.
fn carry_word(alloc: Global, rank: Rank, a: Letter, b: Letter) -> Result<Vec<Move>, OutOfMemory>
    requires few { rank ≤ most_stabiliser_rank }
    requires first { a < 2 * rank }
    requires second { b < 2 * rank }
    requires other { a / 2 ≢ b / 2 }
    ensures { IfOk result (λ v. v.items ≡ spec.carry_word rank a b) }
{
    let mut word = Vec::new(alloc);
    push_exchange_of(&mut word, rank, a.generator(), b.generator())?;
    word.push(invert(rank, carry_generator(a, b)))?;
    Ok(word)
}

fn change_mult(alloc: Global, rank: Rank, x: Cut, b: Letter) -> Result<Vec<Move>, OutOfMemory>
    requires few { rank ≤ most_stabiliser_rank }
    requires cuts { AreExchanged rank x b }
    ensures { IfOk result (λ v. v.items ≡ spec.change_mult rank x b) }
{
    let other = Cut {
        mult: b,
        set: turned(x.mult, x.set),
    };
    let carried = carry_word(alloc, rank, x.mult, b)?;
    let mut word = vec![in alloc; doing(rank, x), doing(rank, other)]?;
    word.extend_from_slice(&carried)?;
    word.push(undoing(rank, with_mult(x, b)))?;
    Ok(word)
}

/// Some moves as a list.
fn list_of(alloc: Global, moves: &[Move]) -> Result<Vec<Move>, OutOfMemory>
    ensures { IfOk result (λ v. v.items ≡ moves.now) }
{
    Ok(Vec::from_slice(alloc, moves)?)
}

/// The list of a pair of a family.
pub(crate) fn word_of(
    alloc: Global,
    rank: Rank,
    family: Family,
    x: Cut,
    y: Cut,
) -> Result<Vec<Move>, OutOfMemory>
    requires few { rank ≤ most_stabiliser_rank }
    requires ready { IsReady rank family x y }
    ensures { IfOk result (λ v. v.items ≡ choices.word_of rank family x y) }
{
    let (j, k) = (x.mult.generator(), y.mult.generator());
    match family {
        Family::Cancel => list_of(alloc, &cancel(rank, x)),
        Family::Unite => list_of(alloc, &unite(rank, x, y)),
        Family::Commute => list_of(alloc, &commute(rank, x, y)),
        Family::Conjugate => list_of(alloc, &conjugate(rank, x, y)),
        Family::Exchange => change_mult(alloc, rank, x, y.mult),
        Family::SwapCut => list_of(alloc, &swap_cut(rank, j, y)),
        Family::InvertCut => list_of(alloc, &invert_cut(rank, j, y)),
        Family::SwapTwice => list_of(alloc, &swap_twice(rank, j)),
        Family::InvertTwice => list_of(alloc, &invert_twice(rank, j)),
        Family::Braid => list_of(alloc, &braid(rank, j)),
        Family::SwapBoth => list_of(alloc, &swap_both(rank, j, k)),
        Family::InvertBoth => list_of(alloc, &invert_both(rank, j, k)),
        Family::SwapInversion => list_of(alloc, &swap_inversion(rank, j)),
        Family::PassInversion => list_of(alloc, &pass_inversion(rank, j, k)),
        Family::Complement => list_of(alloc, &complement_cut(rank, x)),
        Family::Inner => conjugate_inner(alloc, rank, x, y.mult),
    }
}

/// Whether no move of a list is an identity cut.
pub(crate) fn is_proper(moves: &[Move]) -> bool
    ensures { result ≡ instances.is_proper moves.now }
{
    for m in moves {
        if m.is_identity() {
            return false;
        }
    }
    true
}

/// The cuts in the list of the fifth family.
fn change_cuts(rank: Rank, x: Cut, b: Letter) -> [Move; 3]
    requires { AreExchanged rank x b }
    ensures { result ≡ cuts.does rank x ∷ cut_move rank b (turned_set x.mult x.set) ∷ cuts.undoes rank (record { mult = b; set = x.set }) ∷ [] }
{
    let other = Cut {
        mult: b,
        set: turned(x.mult, x.set),
    };
    [
        doing(rank, x),
        doing(rank, other),
        undoing(rank, with_mult(x, b)),
    ]
}

/// Whether no identity cut stands in the list of the fifth family: the swaps and the inversion in it are none.
fn is_change_proper(rank: Rank, x: Cut, b: Letter) -> bool
    requires { AreExchanged rank x b }
    ensures { result ≡ instances.is_proper (spec.change_mult rank x b) }
{
    is_proper(&change_cuts(rank, x, b))
}

/// Whether no identity cut stands in the list of the ninth family.
fn is_inner_proper(rank: Rank, x: Cut, b: Letter) -> bool
    requires cut { IsCut rank x.mult x.set }
    requires own { IsCut rank x.mult (cuts.all_but rank (inverse_letter x.mult)) }
    requires inner { IsCut rank b (cuts.all_but rank (inverse_letter b)) }
    ensures { result ≡ instances.is_proper (spec.conjugate_inner rank x b) }
{
    if x.set.contains(b) {
        is_proper(&move_inner(rank, x, b))
    } else {
        is_proper(&keep_inner(rank, x, b))
    }
}

/// Whether no identity cut stands in the list of a pair of a family.
pub(crate) fn is_proper_word(rank: Rank, family: Family, x: Cut, y: Cut) -> bool
    requires { IsReady rank family x y }
    ensures { result ≡ instances.is_proper (choices.word_of rank family x y) }
{
    let (j, k) = (x.mult.generator(), y.mult.generator());
    match family {
        Family::Cancel => is_proper(&cancel(rank, x)),
        Family::Unite => is_proper(&unite(rank, x, y)),
        Family::Commute => is_proper(&commute(rank, x, y)),
        Family::Conjugate => is_proper(&conjugate(rank, x, y)),
        Family::Exchange => is_change_proper(rank, x, y.mult),
        Family::SwapCut => is_proper(&swap_cut(rank, j, y)),
        Family::InvertCut => is_proper(&invert_cut(rank, j, y)),
        Family::SwapTwice => is_proper(&swap_twice(rank, j)),
        Family::InvertTwice => is_proper(&invert_twice(rank, j)),
        Family::Braid => is_proper(&braid(rank, j)),
        Family::SwapBoth => is_proper(&swap_both(rank, j, k)),
        Family::InvertBoth => is_proper(&invert_both(rank, j, k)),
        Family::SwapInversion => is_proper(&swap_inversion(rank, j)),
        Family::PassInversion => is_proper(&pass_inversion(rank, j, k)),
        Family::Complement => is_proper(&complement_cut(rank, x)),
        Family::Inner => is_inner_proper(rank, x, y.mult),
    }
}
