//! Laws of the definitions. Each is the contract of a function that does nothing.
ghost use Rattle.av1_block.specs.Laws.{PutOfCutIsSame, CutOfPutIsPut, PutsCommute};

/// Putting a cut back where it was taken changes nothing.
pub fn put_of_cut_is_same<E>()
    ensures { PutOfCutIsSame E }
{}

/// Taking after putting gives the cut.
pub fn cut_of_put_is_put<E>()
    ensures { CutOfPutIsPut E }
{}

/// Cuts of rectangles with no place in common may be put in either order.
pub fn puts_commute<E>()
    ensures { PutsCommute E }
{}
