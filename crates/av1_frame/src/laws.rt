//! Laws of the definitions. Each is the contract of a function that does nothing.
ghost use Rattle.av1_frame.specs.AnyOrder.{CodedAnyOrder, CoreAnyOrder};
ghost use Rattle.av1_frame.specs.Framing.{ReadsFramed, IsFramedOnce};
ghost use Rattle.av1_frame.specs.Valid.{RefusesInvalid};

/// Nothing is refused exactly where the results of all tiles are valid.
pub fn refuses_invalid()
    ensures { RefusesInvalid }
{}

/// Reading a list of tiles that was framed, with its number and the same size bytes, gives the list.
pub fn reads_framed()
    ensures { ReadsFramed }
{}

/// Lists of equally many tiles that are framed as equal bytes are equal.
pub fn framed_once()
    ensures { IsFramedOnce }
{}

/// After any list of claims and deliveries, by any number of workers, the delivered tiles are different
/// ones, each with its result, and all of them sorted by number are the results.
pub fn core_any_order<R>()
    ensures { CoreAnyOrder R }
{}

/// Views of tables that have no place in common may be put into them in the order in which any number of
/// workers delivers the views: the tables then have each view's content in its rectangles.
pub fn coded_any_order()
    ensures { CodedAnyOrder }
{}
