//! How many instances the families have at a tuple.
ghost use Rattle.std.specs.Prelude.{◌≡◌, ◌*◌, ◌≤◌, length};
ghost use Rattle.std.specs.List.{All, filter, flat_map};
ghost use Rattle.wh_words.specs.Limits.{most_stabiliser_rank};
ghost use Rattle.wh_relators.specs.Families.{for_each};
ghost use Rattle.wh_relators.specs.Instances.{instances_at};
ghost use Rattle.wh_relators.specs.Measures.{told};
ghost use Rattle.wh_relators.specs.Choices.{chosen, chosen_lists};
ghost use Rattle.wh_relators.specs.Choices as spec;
ghost use Rattle.wh_relators.specs.Pairs.{AreRoomy, IsPair};

use crate::capacities::Capacities;
use crate::cut::Cut;
use crate::family::Family;
use crate::items::{MOST_ITEMS, letter_item};
use crate::listing::FAMILIES;
use crate::pair_tests::fits;
use crate::retaining::{first_items, second_items};
use crate::words::is_proper_word;
use wh_words::{Letter, Tuple};

/// Whether the list of a pair is chosen.
fn is_chosen(capacities: &Capacities, family: Family, x: Cut, y: Cut) -> bool
    requires roomy { AreRoomy capacities.now }
    requires pair { IsPair capacities.now.rank family x y }
    ensures { result ≡ chosen capacities.now.rank (told capacities.now) family x y }
{
    fits(capacities.rank, family, x, y)
        && (capacities.ends_kept(family, x, y) && is_proper_word(capacities.rank, family, x, y))
}

/// How many pairs with a first item are chosen.
fn count_with(capacities: &Capacities, family: Family, x: Cut, ys: &[Cut]) -> u32
    requires roomy { AreRoomy capacities.now }
    requires pairs { All (IsPair capacities.now.rank family x) ys.now }
    requires few { length ys.now ≤ 2048 }
    ensures count { result ≡ length (filter (chosen capacities.now.rank (told capacities.now) family x) ys.now) }
    ensures most { result ≤ 2048 }
{
    let mut count = 0;
    for y in ys {
        if is_chosen(capacities, family, x, *y) {
            count += 1;
        }
    }
    count
}

/// How many pairs of two lists of items are chosen.
fn count_pairs(capacities: &Capacities, family: Family, xs: &[Cut], ys: &[Cut]) -> u32
    requires roomy { AreRoomy capacities.now }
    requires pairs { All (λ x. All (IsPair capacities.now.rank family x) ys.now) xs.now }
    requires first { length xs.now ≤ 2048 }
    requires second { length ys.now ≤ 2048 }
    ensures count { result ≡ length (for_each xs.now ys.now (chosen capacities.now.rank (told capacities.now) family) (spec.word_of capacities.now.rank family)) }
    ensures most { result ≤ 2048 * 2048 }
{
    let mut count = 0;
    for x in xs {
        count += count_with(capacities, family, *x, ys);
    }
    count
}

/// How many lists of a family are chosen.
fn count_family(capacities: &Capacities, family: Family) -> u32
    requires { AreRoomy capacities.now }
    ensures count { result ≡ length (chosen_lists capacities.now.rank (told capacities.now) family) }
    ensures most { result ≤ 2048 * 2048 }
{
    let blank = letter_item(Letter::of_index(0));
    let mut xs = [blank; MOST_ITEMS];
    let first = first_items(&mut xs, capacities, family);
    let mut ys = [blank; MOST_ITEMS];
    let second = second_items(&mut ys, capacities, family);
    count_pairs(capacities, family, &xs[..first], &ys[..second])
}

/// How many lists of some families are chosen.
fn count_families(capacities: &Capacities, families: &[Family]) -> u32
    requires roomy { AreRoomy capacities.now }
    requires few { length families.now ≤ 16 }
    ensures { result ≡ length (flat_map (chosen_lists capacities.now.rank (told capacities.now)) families.now) }
{
    let mut count = 0;
    for family in families {
        count += count_family(capacities, *family);
    }
    count
}

/// How many instances the nine families have at a tuple of rank MOST_STABILISER_RANK at most: as many as `instances` lists.
/// It takes no memory (McCool 1974, 1975).
pub fn count(tuple: &Tuple) -> u32
    requires rank { tuple.now.plain.rank ≤ most_stabiliser_rank }
    ensures { result ≡ length (instances_at tuple.now.plain) }
{
    count_families(&Capacities::of(tuple), &FAMILIES)
}
