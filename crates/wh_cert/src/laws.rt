//! Laws of verdicts and of levels. Each is the contract of a function that does nothing.
ghost use Rattle.wh_cert.specs.Laws.{FindsOne, ClosedByOrbits};

/// Of a certificate one thing is found: that it is valid, or one line and one rule.
pub fn one_verdict()
    ensures { FindsOne }
{}

/// In a list that is closed under swaps and inversions, one tuple of an orbit tells whether the level moves of all
/// tuples of the orbit stay in the list: swaps and inversions take cuts to cuts (Lyndon and Schupp, I.4).
pub fn closed_by_orbits()
    ensures { ClosedByOrbits }
{}
