//! How judging stops.
ghost use Rattle.std.specs.Prelude.{◌≡◌, ◌∷◌, [], ◌↔◌, IsTrue};
ghost use Rattle.wh_cert.specs.Demands.{Demand, rule_of, IsMet};
ghost use Rattle.wh_cert.specs.Judged.{Judges};

use crate::checked::Rule;
use wh_words::OutOfMemory;

/// Why judging stops before the end.
#[derive(Debug, Drop)]
pub(crate) enum Stop {
    /// This rule is broken first, in the line at this place among those that aren't skipped, counted from 0.
    Broken { place: usize, rule: Rule },
    /// There was no memory.
    OutOfMemory,
}

impl From<OutOfMemory> for Stop {
    ghost use Rattle.wh_cert.specs.declared.stop.Stop.TheVariants as stops;

    ghost from_gives = { λ _ s. s ≡ stops.OutOfMemory };

    fn from(_: OutOfMemory) -> Stop {
        Stop::OutOfMemory
    }
}

/// Goes on where what a rule asks of the line at a place is met.
#[tactic(auto, using(crate::proofs::Judging::one_met, crate::proofs::Judging::one_broken))]
pub(crate) fn ask(place: usize, rule: Rule, met: bool) -> Result<(), Stop>
    ensures { (d : Demand) → rule ≡ rule_of d → (IsTrue met ↔ IsMet d) → Judges ((place, d) ∷ []) result }
{
    if met {
        Ok(())
    } else {
        Err(Stop::Broken { place, rule })
    }
}
