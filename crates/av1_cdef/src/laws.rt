//! Laws of the definitions. Each is the contract of a function that does nothing.
ghost use Rattle.av1_cdef.specs.Laws.{SentinelAddsNothing, NoStrengthNoChange, ConstantChangesNothing};

/// A cell `CDEF_VERY_LARGE` counts as no tap: it leaves the sum, the least and the greatest as they
/// are.
pub fn sentinel_adds_nothing()
    ensures { SentinelAddsNothing }
{}

/// A block whose primary and secondary strengths are 0 is unchanged.
pub fn no_strength_no_change()
    ensures { NoStrengthNoChange }
{}

/// One constant added to all samples of a block, shifted to 8 bits, changes neither its direction
/// nor its variance.
pub fn constant_changes_nothing()
    ensures { ConstantChangesNothing }
{}
