//! Which pairs of a family keep the length.
ghost use Rattle.std.specs.Prelude.{◌≡◌, ◌≤◌};
ghost use Rattle.std.specs.Int.{bit_at};
ghost use Rattle.wh_words.specs.Letters.{inverse_letter};
ghost use Rattle.wh_words.specs.Moves.{IsCut};
ghost use Rattle.wh_relators.specs.Kept as kept;
ghost use Rattle.wh_relators.specs.Measures.{told};
ghost use Rattle.wh_relators.specs.Choices as spec;
ghost use Rattle.wh_relators.specs.Pairs.{AreRoomy, IsReady};

use crate::capacities::Capacities;
use crate::cut::Cut;
use crate::family::Family;
use crate::mask_tests::turned;
use crate::words::{conjugated, inverted, swapped, united, with_mult};

/// The inverse of a cut, as a cut.
fn back(x: Cut) -> Cut
    requires holds { bit_at x.set x.mult ≡ 1 }
    requires omits { bit_at x.set (inverse_letter x.mult) ≡ 0 }
    ensures { result ≡ kept.back x }
{
    Cut {
        mult: x.mult.inverse(),
        set: turned(x.mult, x.set),
    }
}

impl Capacities {
    /// Whether the inverse of a cut keeps the length.
    pub(crate) fn keeps_back(&self, x: Cut) -> bool
        requires roomy { AreRoomy self.now }
        requires cut { IsCut self.now.rank x.mult x.set }
        ensures { result ≡ told self.now (kept.back x) }
    {
        self.keeps(back(x))
    }

    /// Whether the cuts on which a pair depends keep the length.
    pub(crate) fn ends_kept(&self, family: Family, x: Cut, y: Cut) -> bool
        requires roomy { AreRoomy self.now }
        requires ready { IsReady self.now.rank family x y }
        ensures { result ≡ spec.ends_kept self.now.rank (told self.now) family x y }
    {
        let k = x.mult.generator();
        match family {
            Family::Cancel | Family::Complement => self.keeps(x),
            Family::Unite => self.keeps(x) && self.keeps(united(self.rank, x, y)),
            Family::Commute => self.keeps(x) && self.keeps(y),
            Family::Conjugate => { self.keeps_back(y) && self.keeps(conjugated(self.rank, x, y)) }
            Family::Exchange => self.keeps(x) && self.keeps(with_mult(x, y.mult)),
            Family::SwapCut => self.keeps(swapped(self.rank, k, y)),
            Family::InvertCut => self.keeps(inverted(self.rank, k, y)),
            Family::Inner => self.keeps_back(x),
            Family::SwapTwice
            | Family::InvertTwice
            | Family::Braid
            | Family::SwapBoth
            | Family::InvertBoth
            | Family::SwapInversion
            | Family::PassInversion => true,
        }
    }
}
