//! What the families run over: cuts, letters and generators, as items.
ghost use Rattle.std.specs.Prelude.{◌≡◌, ◌+◌, ◌*◌, ◌++◌, ◌∷◌, [], ◌<◌, ◌≤◌, cond, length, map, take};
ghost use Rattle.std.specs.List.{filter, range_with_len};
ghost use Rattle.wh_words.specs.Limits.{most_stabiliser_rank};
ghost use Rattle.wh_relators.specs.Cuts.{cuts, letters, parts, sets};
ghost use Rattle.wh_relators.specs.Choices as spec;

use crate::cut::Cut;
use crate::family::Family;
use wh_graph::count_sets;
use wh_words::{Letter, LetterSet, Rank};

/// Room for the items of a family in the greatest rank of stabilisers: for each letter with each set.
pub(crate) const MOST_ITEMS: usize = 2048;

/// Whether a set holds a letter and omits its inverse.
fn is_parted(mult: Letter, set: LetterSet) -> bool
    ensures { result ≡ parts mult set }
{
    set.contains(mult) && !set.contains(mult.inverse())
}

/// Writes an item behind the first ones.
fn write_item(items: &mut [Cut], count: usize, x: Cut) -> usize
    requires { count < length items.old }
    ensures written { take result items.new ≡ take count items.old ++ x ∷ [] }
    ensures next { result ≡ count + 1 }
    ensures same_length { length items.new ≡ length items.old }
{
    items[count] = x;
    count + 1
}

/// Writes a cut behind the first items, where its set holds the multiplier and omits its inverse.
#[tactic(auto, using(crate::proofs::ItemLists::parted_yes, crate::proofs::ItemLists::parted_no))]
fn write_parted(items: &mut [Cut], count: usize, mult: Letter, set: LetterSet) -> usize
    requires { count < length items.old }
    ensures written { take result items.new ≡ take count items.old ++ cond (parts mult set) (record { mult = mult; set = set } ∷ []) [] }
    ensures least { count ≤ result }
    ensures end { result ≤ count + 1 }
    ensures same_length { length items.new ≡ length items.old }
{
    if is_parted(mult, set) {
        write_item(items, count, Cut { mult, set })
    } else {
        count
    }
}

/// Writes the cuts with a multiplier, by set, behind the first items: the set holds it and omits its inverse.
fn write_cuts_with(items: &mut [Cut], start: usize, rank: Rank, mult: Letter) -> usize
    requires few { rank ≤ most_stabiliser_rank }
    requires room { start + 256 ≤ length items.old }
    ensures written { take result items.new ≡ take start items.old ++ map (λ set. record { mult = mult; set = set }) (filter (parts mult) (sets rank)) }
    ensures end { result ≤ start + 256 }
    ensures same_length { length items.new ≡ length items.old }
{
    let mut count = start;
    for mask in 0..count_sets(2 * rank.get()) {
        count = write_parted(items, count, mult, LetterSet::of_bits(mask as u64));
    }
    count
}

/// Writes all cuts of a rank, by multiplier and then by set.
fn write_cuts(items: &mut [Cut], rank: Rank) -> usize
    requires few { rank ≤ most_stabiliser_rank }
    requires room { 2048 ≤ length items.old }
    ensures written { take result items.new ≡ cuts rank }
    ensures end { result ≤ 2048 }
    ensures same_length { length items.new ≡ length items.old }
{
    let mut count = 0;
    for index in 0..2 * rank.get() {
        count = write_cuts_with(items, count, rank, Letter::of_index(index));
    }
    count
}

/// The item of a letter.
pub(crate) fn letter_item(mult: Letter) -> Cut
    ensures { result ≡ spec.letter_item mult }
{
    Cut {
        mult,
        set: LetterSet::empty(),
    }
}

/// Writes the letters of a rank.
fn write_letters(items: &mut [Cut], rank: Rank) -> usize
    requires few { rank ≤ most_stabiliser_rank }
    requires room { 2048 ≤ length items.old }
    ensures written { take result items.new ≡ map spec.letter_item (letters rank) }
    ensures end { result ≤ 2048 }
    ensures same_length { length items.new ≡ length items.old }
{
    let mut count = 0;
    for index in 0..2 * rank.get() {
        count = write_item(items, count, letter_item(Letter::of_index(index)));
    }
    count
}

/// Writes the first generators.
fn write_generators(items: &mut [Cut], generators: u8) -> usize
    requires few { generators ≤ most_stabiliser_rank }
    requires room { 2048 ≤ length items.old }
    ensures written { take result items.new ≡ map spec.generator_item (range_with_len 1 generators) }
    ensures end { result ≤ 2048 }
    ensures same_length { length items.new ≡ length items.old }
{
    let mut count = 0;
    for index in 0..generators {
        count = write_item(items, count, letter_item(Letter::of_index(2 * index)));
    }
    count
}

/// Writes the one item that stands where a family has no second.
fn write_single(items: &mut [Cut]) -> usize
    requires room { 2048 ≤ length items.old }
    ensures written { take result items.new ≡ spec.single }
    ensures end { result ≤ 2048 }
    ensures same_length { length items.new ≡ length items.old }
{
    write_item(items, 0, letter_item(Letter::of_index(0)))
}

/// Writes what the first of a pair runs over.
pub(crate) fn write_firsts(items: &mut [Cut], rank: Rank, family: Family) -> usize
    requires few { rank ≤ most_stabiliser_rank }
    requires room { 2048 ≤ length items.old }
    ensures written { take result items.new ≡ spec.firsts rank family }
    ensures end { result ≤ 2048 }
    ensures same_length { length items.new ≡ length items.old }
{
    let n = rank.get();
    match family {
        Family::Cancel
        | Family::Unite
        | Family::Commute
        | Family::Conjugate
        | Family::Exchange
        | Family::Complement
        | Family::Inner => write_cuts(items, rank),
        Family::InvertCut | Family::InvertTwice | Family::InvertBoth => write_generators(items, n),
        Family::Braid => write_generators(items, n.saturating_sub(2)),
        Family::SwapCut
        | Family::SwapTwice
        | Family::SwapBoth
        | Family::SwapInversion
        | Family::PassInversion => write_generators(items, n - 1),
    }
}

/// Writes what the second of a pair runs over.
pub(crate) fn write_seconds(items: &mut [Cut], rank: Rank, family: Family) -> usize
    requires few { rank ≤ most_stabiliser_rank }
    requires room { 2048 ≤ length items.old }
    ensures written { take result items.new ≡ spec.seconds rank family }
    ensures end { result ≤ 2048 }
    ensures same_length { length items.new ≡ length items.old }
{
    let n = rank.get();
    match family {
        Family::Unite | Family::Commute | Family::Conjugate | Family::SwapCut | Family::InvertCut =>
            write_cuts(items, rank),
        Family::Exchange | Family::Inner => write_letters(items, rank),
        Family::SwapBoth => write_generators(items, n - 1),
        Family::InvertBoth | Family::PassInversion => write_generators(items, n),
        Family::Cancel
        | Family::SwapTwice
        | Family::InvertTwice
        | Family::Braid
        | Family::SwapInversion
        | Family::Complement => write_single(items),
    }
}
