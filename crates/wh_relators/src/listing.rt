//! The instances of the families at a tuple.
ghost use Rattle.std.specs.Prelude.{◌≡◌, ◌++◌, ◌∷◌, [], ◌≤◌, ◌&&◌, cond, map, IfOk, OnOk};
ghost use Rattle.std.specs.List.{All, filter, flat_map};
ghost use Rattle.wh_words.specs.Limits.{most_stabiliser_rank};
ghost use Rattle.wh_relators.specs.Families.{for_each};
ghost use Rattle.wh_relators.specs.Instances as lists;
ghost use Rattle.wh_relators.specs.Instances.{instances_at};
ghost use Rattle.wh_relators.specs.Measures.{told};
ghost use Rattle.wh_relators.specs.Choices.{chosen, chosen_lists};
ghost use Rattle.wh_relators.specs.Choices as spec;
ghost use Rattle.wh_relators.specs.Pairs.{AreRoomy, IsPair};

use crate::capacities::Capacities;
use crate::cut::Cut;
use crate::family::Family;
use crate::items::{MOST_ITEMS, letter_item};
use crate::pair_tests::fits;
use crate::retaining::{first_items, second_items};
use crate::words::{is_proper, word_of};
use std::alloc::Global;
use wh_moves::Move;
use wh_words::{Letter, List, OutOfMemory, Tuple};

/// Whether a pair passes the test of its family, and its cuts keep the length.
fn is_kept(capacities: &Capacities, family: Family, x: Cut, y: Cut) -> bool
    requires roomy { AreRoomy capacities.now }
    requires pair { IsPair capacities.now.rank family x y }
    ensures { result ≡ (spec.fits capacities.now.rank family x y && spec.ends_kept capacities.now.rank (told capacities.now) family x y) }
{
    fits(capacities.rank, family, x, y) && capacities.ends_kept(family, x, y)
}

/// Adds a list where no identity cut stands in it.
fn push_proper(words: &mut Vec<List<Move>>, word: Vec<Move>) -> Result<(), OutOfMemory>
    ensures { OnOk result (words.new.items ≡ words.old.items ++ cond (lists.is_proper word.items) (word.items ∷ []) []) }
{
    if is_proper(&word) {
        words.push(List::of(word))?;
    }
    Ok(())
}

/// Adds the list of a pair where it is chosen.
fn push_chosen(
    alloc: Global,
    words: &mut Vec<List<Move>>,
    capacities: &Capacities,
    family: Family,
    x: Cut,
    y: Cut,
) -> Result<(), OutOfMemory>
    requires roomy { AreRoomy capacities.now }
    requires pair { IsPair capacities.now.rank family x y }
    ensures { OnOk result (words.new.items ≡ words.old.items ++ cond (chosen capacities.now.rank (told capacities.now) family x y) (spec.word_of capacities.now.rank family x y ∷ []) []) }
{
    if is_kept(capacities, family, x, y) {
        push_proper(words, word_of(alloc, capacities.rank, family, x, y)?)?;
    }
    Ok(())
}

/// Adds the lists of those pairs with a first item that are chosen.
fn push_with(
    alloc: Global,
    words: &mut Vec<List<Move>>,
    capacities: &Capacities,
    family: Family,
    x: Cut,
    ys: &[Cut],
) -> Result<(), OutOfMemory>
    requires roomy { AreRoomy capacities.now }
    requires pairs { All (IsPair capacities.now.rank family x) ys.now }
    ensures { OnOk result (words.new.items ≡ words.old.items ++ map (spec.word_of capacities.now.rank family x) (filter (chosen capacities.now.rank (told capacities.now) family x) ys.now)) }
{
    for y in ys {
        push_chosen(alloc, words, capacities, family, x, *y)?;
    }
    Ok(())
}

/// Adds the lists of those pairs of two lists of items that are chosen.
fn push_pairs(
    alloc: Global,
    words: &mut Vec<List<Move>>,
    capacities: &Capacities,
    family: Family,
    xs: &[Cut],
    ys: &[Cut],
) -> Result<(), OutOfMemory>
    requires roomy { AreRoomy capacities.now }
    requires pairs { All (λ x. All (IsPair capacities.now.rank family x) ys.now) xs.now }
    ensures { OnOk result (words.new.items ≡ words.old.items ++ for_each xs.now ys.now (chosen capacities.now.rank (told capacities.now) family) (spec.word_of capacities.now.rank family)) }
{
    for x in xs {
        push_with(alloc, words, capacities, family, *x, ys)?;
    }
    Ok(())
}

/// Adds the lists of a family that are chosen.
fn push_family(
    alloc: Global,
    words: &mut Vec<List<Move>>,
    capacities: &Capacities,
    family: Family,
) -> Result<(), OutOfMemory>
    requires { AreRoomy capacities.now }
    ensures { OnOk result (words.new.items ≡ words.old.items ++ chosen_lists capacities.now.rank (told capacities.now) family) }
{
    let blank = letter_item(Letter::of_index(0));
    let mut xs = [blank; MOST_ITEMS];
    let first = first_items(&mut xs, capacities, family);
    let mut ys = [blank; MOST_ITEMS];
    let second = second_items(&mut ys, capacities, family);
    push_pairs(
        alloc,
        words,
        capacities,
        family,
        &xs[..first],
        &ys[..second],
    )
}

/// The families and their parts, in order.
pub(crate) const FAMILIES: [Family; 16] = [
    Family::Cancel,
    Family::Unite,
    Family::Commute,
    Family::Conjugate,
    Family::Exchange,
    Family::SwapCut,
    Family::InvertCut,
    Family::SwapTwice,
    Family::InvertTwice,
    Family::Braid,
    Family::SwapBoth,
    Family::InvertBoth,
    Family::SwapInversion,
    Family::PassInversion,
    Family::Complement,
    Family::Inner,
];

/// Adds the lists of some families that are chosen.
fn push_families(
    alloc: Global,
    words: &mut Vec<List<Move>>,
    capacities: &Capacities,
    families: &[Family],
) -> Result<(), OutOfMemory>
    requires { AreRoomy capacities.now }
    ensures { OnOk result (words.new.items ≡ words.old.items ++ flat_map (chosen_lists capacities.now.rank (told capacities.now)) families.now) }
{
    for family in families {
        push_family(alloc, words, capacities, *family)?;
    }
    Ok(())
}

/// The instances at a tuple of rank MOST_STABILISER_RANK at most of nine families of identities between Whitehead moves:
/// the lists of moves, none of them an identity cut, whose composite is the identity and that keep the length of the tuple
/// at each move (McCool 1974, 1975). They come family by family, and in each by its cuts, letters and generators in order.
/// `OutOfMemory` comes where memory is short for the lists.
pub fn instances(alloc: Global, tuple: &Tuple) -> Result<Vec<List<Move>>, OutOfMemory>
    requires rank { tuple.now.plain.rank ≤ most_stabiliser_rank }
    ensures { IfOk result (λ v. v.items ≡ instances_at tuple.now.plain) }
{
    let capacities = Capacities::of(tuple);
    let mut words = Vec::new(alloc);
    push_families(alloc, &mut words, &capacities, &FAMILIES)?;
    Ok(words)
}
