ghost use Rattle.std.specs.Prelude.{◌≡◌, ℕ, ◌+◌, ◌-◌, ◌*◌, ◌/◌, ◌<◌, ◌≤◌};
ghost use Rattle.av1_block.specs.Tables.{view_entries, view_cols, view_rows};
ghost use Rattle.av1_tiling.specs.Frames.{IsFrame, IsInputFor};
ghost use Rattle.av1_tiling.specs.Views.{view_frame};
ghost use Rattle.av1_cdef.specs.Conditions.{IsViewFor, HasIndices, HoldsView};
ghost use Rattle.av1_cdef.specs.Analysis.{deblocked_of};
ghost use Rattle.av1_cdef.specs.Tile.{IsFilteredTile};
ghost use Rattle.av1_cdef.specs.Whole.{cdef_frame, IsWholeFrame, HasPlanes};

use crate::analysis::cdef_analyze_superblock;
use crate::superblock::cdef_filter_superblock;
use av1_block::TileBlocks;
use av1_plane::{Frame, Pixel, SuperBlockOffset, TileMut, TileSuperBlockOffset};
use av1_tiling::FrameInvariants;

/// Filters all 8x8 blocks of the view, in each plane, each with the strengths of the index that stands
/// in the first block of its superblock (AV1 specification, section 7.15). All other samples of the
/// output stay. The view and the output start at the same place of the frame.
pub fn cdef_filter_tile<T: Pixel>(
    fi: &FrameInvariants<T>,
    input: &Frame<T>,
    tb: &TileBlocks<'_>,
    output: &mut TileMut<'_, T>,
)
    requires frame { IsFrame T.limit fi.now }
    requires input { IsInputFor fi.now (view_frame T.number input.now) }
    requires blocks { IsViewFor fi.now tb.now }
    requires indices { HasIndices tb.now }
    requires output { HoldsView input.now tb.now output.old }
    ensures filtered { IsFilteredTile T.number (deblocked_of T.number fi.now input.now tb.now)
        input.now output.old output.new }

    // The whole frame, filtered over a copy of the input, is the frame of the definition.
    ensures frame { IsWholeFrame T.number fi.now input.now tb.now output.old
        → HasPlanes T.number
        (cdef_frame fi.now (view_entries tb.now) (view_frame T.number input.now)) output.new }
{
    let sb_cols = tb.cols().div_ceil(16);
    let sb_rows = tb.rows().div_ceil(16);
    for y in 0..sb_rows {
        for x in 0..sb_cols {
            let sbo = TileSuperBlockOffset(SuperBlockOffset { x, y });
            let index = tb.get_cdef(sbo);
            let dirs = cdef_analyze_superblock(fi, input, tb, sbo);
            cdef_filter_superblock(fi, input, output, tb, sbo, index, &dirs);
        }
    }
}
