//! The nine families of relations, by what their lists do.

/// A family, or a part of one: the sixth has a part for swaps and one for inversions, and the seventh has seven.
#[derive(Clone, Copy, PartialEq, Eq, Debug)]
pub(crate) enum Family {
    Cancel,
    Unite,
    Commute,
    Conjugate,
    Exchange,
    SwapCut,
    InvertCut,
    SwapTwice,
    InvertTwice,
    Braid,
    SwapBoth,
    InvertBoth,
    SwapInversion,
    PassInversion,
    Complement,
    Inner,
}
