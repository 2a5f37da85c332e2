//! The tests of the families.
ghost use Rattle.std.specs.Prelude.{◌≡◌, ◌≢◌, ◌<◌, ◌≤◌, ◌^◌, ◌*◌};
ghost use Rattle.wh_words.specs.Limits.{most_stabiliser_rank};
ghost use Rattle.wh_relators.specs.Families as families;
ghost use Rattle.wh_relators.specs.Choices as spec;
ghost use Rattle.wh_relators.specs.Pairs.{IsItem};

use crate::cut::Cut;
use crate::family::Family;
use crate::mask_tests::{are_apart, meet_in};
use wh_words::{Letter, Rank};

/// Whether two cuts have one multiplier, and nothing else in common.
fn can_unite(rank: Rank, x: Cut, y: Cut) -> bool
    requires few { rank ≤ most_stabiliser_rank }
    requires letter { x.mult < 2 * rank }
    requires set { x.set < 2 ^ (2 * rank) }
    ensures { result ≡ families.can_unite rank x y }
{
    x.mult == y.mult && meet_in(rank, x.mult, x.set, y.set)
}

/// Whether two cuts have nothing in common, nor the inverses of the multipliers.
fn can_commute(rank: Rank, x: Cut, y: Cut) -> bool
    requires { x.set < 2 ^ (2 * rank) }
    ensures { result ≡ families.can_commute rank x y }
{
    are_apart(rank, x.set, y.set)
        && (!y.set.contains(x.mult.inverse()) && !x.set.contains(y.mult.inverse()))
}

/// Whether two cuts have nothing in common, and the first alone has the inverse of the multiplier of the other.
fn can_conjugate(rank: Rank, x: Cut, y: Cut) -> bool
    requires { x.set < 2 ^ (2 * rank) }
    ensures { result ≡ families.can_conjugate rank x y }
{
    are_apart(rank, x.set, y.set)
        && (!y.set.contains(x.mult.inverse())
            && (x.set.contains(y.mult.inverse()) && y.mult.inverse() != x.mult))
}

/// Whether the set of a cut is that of a cut with this multiplier too.
fn is_other_mult(x: Cut, b: Letter) -> bool
    ensures { result ≡ families.is_other_mult x b }
{
    x.set.contains(b) && (!x.set.contains(b.inverse()) && b != x.mult)
}

/// Whether a cut leaves a letter or multiplies it behind.
fn can_conjugate_inner(x: Cut, b: Letter) -> bool
    ensures { result ≡ families.can_conjugate_inner x b }
{
    !x.set.contains(b.inverse()) && b != x.mult
}

/// Whether a pair passes the test of its family.
pub(crate) fn fits(rank: Rank, family: Family, x: Cut, y: Cut) -> bool
    requires few { rank ≤ most_stabiliser_rank }
    requires first { IsItem rank x }
    ensures { result ≡ spec.fits rank family x y }
{
    match family {
        Family::Unite => can_unite(rank, x, y),
        Family::Commute => can_commute(rank, x, y),
        Family::Conjugate => can_conjugate(rank, x, y),
        Family::Exchange => is_other_mult(x, y.mult),
        Family::SwapBoth => x.mult.generator() + 1 < y.mult.generator(),
        Family::InvertBoth => x.mult.generator() < y.mult.generator(),
        Family::PassInversion => {
            y.mult.generator() != x.mult.generator() && y.mult.generator() != x.mult.generator() + 1
        }
        Family::Inner => can_conjugate_inner(x, y.mult),
        Family::Cancel
        | Family::SwapCut
        | Family::InvertCut
        | Family::SwapTwice
        | Family::InvertTwice
        | Family::Braid
        | Family::SwapInversion
        | Family::Complement => true,
    }
}
