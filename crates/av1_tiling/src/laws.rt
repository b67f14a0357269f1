//! Facts about every tiling that `TilingInfo::from_target_tiles` answers. Each is the contract of a
//! function that does nothing.
ghost use Rattle.av1_tiling.specs.Laws.{ForTilings, CutsPlanes, CutsBlocks, CutsMotion, CutsUnits, FramesCutUnits, CountsByLog2, PartsAreUnique, PutsHaveParts, PutsInAnyOrder, OthersStay};

/// The rectangles of the tiles in a plane have no sample in common, and together are the plane, rounded
/// up to whole superblocks.
pub fn tiles_cut_planes()
    ensures { ForTilings CutsPlanes }
{}

/// Each place of the table of blocks lies in exactly one tile.
pub fn tiles_cut_blocks()
    ensures { ForTilings CutsBlocks }
{}

/// Each place of a table of motion records lies in exactly one tile.
pub fn tiles_cut_motion()
    ensures { ForTilings CutsMotion }
{}

/// Each restoration unit lies in exactly one tile, where each of several tiles begins with a unit and the
/// units are no more than cover the frame.
pub fn tiles_cut_units()
    ensures { ForTilings CutsUnits }
{}

/// Each restoration unit of a frame lies in exactly one tile, for every frame and the sizes of units
/// that its quantiser, its sides and its tiles give.
pub fn frames_cut_units()
    ensures { FramesCutUnits }
{}

/// A tiling's logarithms are the logarithms of its numbers of columns and rows.
pub fn counts_have_logarithms()
    ensures { ForTilings CountsByLog2 }
{}

/// At most one list of entries has given parts in their rectangles and a table's entries elsewhere.
pub fn parts_are_unique<E>()
    ensures { PartsAreUnique E }
{}

/// Putting parts in one after another is one way to that list, where no two have a place in common.
pub fn puts_have_parts<E>()
    ensures { PutsHaveParts E }
{}

/// Parts that have no place in common may be put back in any order.
pub fn puts_go_in_any_order<E>()
    ensures { PutsInAnyOrder E }
{}

/// Writing through one tile's view changes no other view.
pub fn other_views_stay()
    ensures { OthersStay }
{}
