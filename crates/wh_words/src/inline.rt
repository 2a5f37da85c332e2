//! Letters that lie in the value itself where they are few.
ghost use Rattle.std.specs.Prelude.{◌≡◌, ◌==◌};
ghost use Rattle.std.specs.Cmp.Lexicographic.{slice_cmp};
ghost use Rattle.std.specs.Cmp.{partial_order_from_own_ties};
ghost use Rattle.std.specs.Cmp.Rules.{comparing, hashing};
ghost use Rattle.std.specs.Ordering.{nat_cmp, as_partial_cmp};
ghost use Rattle.std.proofs.Common.{rules};
ghost use Rattle.std.specs.Hash as fed;
ghost use lib.Pointwise.{pointwise};

use crate::letter::Letter;
use smallvec::SmallVec;
use std::cmp::Ordering;
use std::hash::{Hash, Hasher};
use std::marker::Model;

/// How many letters need no memory of their own.
pub(crate) const INLINE: usize = 16;

/// A list of letters, which contracts see as the list of their indices. Up to 16 of them need no memory of their own.
#[derive(Debug, Drop)]
pub(crate) struct InlineLetters {
    items: SmallVec<Letter, INLINE>,
}

impl Model for InlineLetters {
    ghost use Rattle.std.specs.Prelude.{ℕ, List};

    ghost Value = { List ℕ };

    ghost view = { λ l. l.items.items };
}

impl InlineLetters {
    pub(crate) fn of(items: SmallVec<Letter, INLINE>) -> InlineLetters
        ensures { result ≡ items.items }
    {
        InlineLetters { items }
    }

    pub(crate) fn as_slice(&self) -> &[Letter]
        ensures { result.now ≡ self.now }
    {
        self.items.as_slice()
    }
}

impl PartialEq for InlineLetters {
    ghost eq = { pointwise ◌==◌ };

    ghost laws = { Prim.search (comparing, rules) };

    fn eq(&self, other: &InlineLetters) -> bool {
        self.as_slice() == other.as_slice()
    }
}

impl Eq for InlineLetters {
    ghost laws = { Prim.search (comparing, rules) };
}

impl PartialOrd for InlineLetters {
    ghost partial_cmp = { as_partial_cmp (slice_cmp nat_cmp) };

    ghost laws = { partial_order_from_own_ties (Prim.search (comparing, rules)) (Prim.search (comparing, rules)) };

    fn partial_cmp(&self, other: &InlineLetters) -> Option<Ordering> {
        Some(self.cmp(other))
    }
}

impl Ord for InlineLetters {
    ghost cmp = { slice_cmp nat_cmp };

    ghost total = { Prim.search (comparing, rules) };

    ghost matches_partial_cmp = { Prim.search (comparing, rules) };

    ghost matches_eq = { Prim.search (comparing, rules) };

    fn cmp(&self, other: &InlineLetters) -> Ordering {
        self.as_slice().cmp(&other.as_slice())
    }
}

impl Hash for InlineLetters {
    ghost hash_input = { fed.slice fed.u8 };

    ghost respects_eq = { Prim.search (hashing, rules) };

    fn hash<H: Hasher>(&self, state: &mut H) {
        self.as_slice().hash(state);
    }
}
