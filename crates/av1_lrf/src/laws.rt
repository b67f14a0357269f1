//! What callers may rely on beyond the contract of one call.
ghost use Rattle.av1_lrf.specs.Laws.{EachBoxFits, EachBoxIsDirect, ZeroWienerIsSame};

/// The wrapping difference of four prefix sums is the sum over a square, for the samples and for
/// their squares.
pub fn box_is_direct()
    ensures { EachBoxIsDirect }
{}

/// What the self-guided filter computes of a square fits 32 bits.
pub fn box_fits()
    ensures { EachBoxFits }
{}

/// A Wiener filter whose six coefficients are 0 gives the enhanced sample.
pub fn zero_wiener_is_same()
    ensures { ZeroWienerIsSame }
{}
