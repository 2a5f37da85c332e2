//! Cuts by their multiplier and set.
use std::marker::Model;
use wh_words::{Letter, LetterSet};

/// The multiplier of a cut and its set. A letter or a generator stands as a multiplier without a set.
#[derive(Clone, Copy, PartialEq, Eq, Debug)]
pub(crate) struct Cut {
    pub(crate) mult: Letter,
    pub(crate) set: LetterSet,
}

impl Model for Cut {
    ghost use Rattle.wh_relators.specs.Cuts as spec;

    ghost Value = { spec.Cut };

    ghost view = { λ c. record { mult = c.mult; set = c.set } };

    ghost inverse = { λ c. record { mult = c.mult; set = c.set } };
}
