//! Equality, order and hash of tuples: those of their ranks and words, whatever their rooms are. None takes memory.
ghost use Rattle.std.specs.Cmp.{partial_order_from_own_ties};
ghost use Rattle.std.specs.Cmp.Rules.{comparing};
ghost use Rattle.std.specs.Ordering.{as_partial_cmp, eq_by_cmp};
ghost use Rattle.std.proofs.Common.{rules};
ghost use Rattle.std.proofs.lemmas.Cmp.{eq_by_cmp_equiv};
ghost use Rattle.wh_words.specs.Tuples.{tuple_order, tuple_order_total, hash_writes};
ghost use Rattle.wh_words.specs.TupleTies.{tuple_hash_respects_eq};

use crate::tuple::Tuple;
use std::cmp::Ordering;
use std::hash::{Hash, Hasher};

impl PartialEq for Tuple {
    ghost eq = { eq_by_cmp tuple_order };

    ghost laws = { Prim.search (comparing, tuple_order_total, rules) };

    #[tactic(auto, using(crate::proofs::SameTuples::same_is_tied))]
    fn eq(&self, other: &Tuple) -> bool {
        self.same(other)
    }
}

impl Eq for Tuple {
    ghost laws = { eq_by_cmp_equiv tuple_order_total };
}

impl PartialOrd for Tuple {
    ghost partial_cmp = { as_partial_cmp tuple_order };

    ghost laws = { partial_order_from_own_ties (Prim.search (comparing, tuple_order_total, rules)) (Prim.search (comparing, tuple_order_total, rules)) };

    fn partial_cmp(&self, other: &Tuple) -> Option<Ordering> {
        Some(self.cmp(other))
    }
}

impl Ord for Tuple {
    ghost cmp = { tuple_order };

    ghost total = { tuple_order_total };

    ghost matches_partial_cmp = { Prim.search (comparing, tuple_order_total, rules) };

    ghost matches_eq = { Prim.search (comparing, tuple_order_total, rules) };

    fn cmp(&self, other: &Tuple) -> Ordering {
        self.compared(other)
    }
}

impl Hash for Tuple {
    ghost hash_input = { hash_writes };

    ghost respects_eq = { tuple_hash_respects_eq };

    fn hash<H: Hasher>(&self, state: &mut H) {
        self.letters().hash(state);
    }
}
