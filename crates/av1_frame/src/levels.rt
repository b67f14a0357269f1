//! The levels that a coded frame is deblocked at.
ghost use Rattle.std.specs.Prelude.{◌≡◌, ◌/◌, ◌<◌, ◌≤◌, All, length};
ghost use Rattle.av1_plane.specs.Layout.{rounded};
ghost use Rattle.av1_plane.specs.Numbers.{IsDepth};
ghost use Rattle.av1_deblock.specs.Choice.{CanTally, AreLevels, measured_frame};
ghost use Rattle.av1_deblock.specs.Frames.{frame_shape};
ghost use Rattle.av1_block.specs.Block.{first_ref};
ghost use Rattle.av1_block.specs.Sides.{ref_number};
ghost use Rattle.av1_tiling.specs.Views.{view_frame};
ghost use Rattle.av1_tiling.specs.Frames.{IsFrame, IsInputFor, AreBlocksFor};
ghost use Rattle.av1_plane.specs.Regions.{ShowsPlane};
ghost use Rattle.av1_frame.specs.Reference.{levels_of};

use av1_block::{FrameBlocks, TileBlocks};
use av1_deblock::deblock_filter_optimize;
use av1_plane::{AsRegion, Frame, Pixel, Three, Tile};
use av1_tiling::FrameInvariants;

/// The levels of a coded frame: the guessed one, or those of least error against the input.
pub(crate) fn choose_levels<T: Pixel>(
    fi: &FrameInvariants<T>,
    input: &Frame<T>,
    coded: &Frame<T>,
    blocks: &FrameBlocks,
) -> [u8; 4]
    requires frame { IsFrame T.limit fi.now }
    requires input { IsInputFor fi.now (view_frame T.number input.now) }
    requires coded { IsInputFor fi.now (view_frame T.number coded.now) }
    requires blocks { AreBlocksFor fi.now blocks.now }
    requires references { All (λ b. ref_number (first_ref b) < 8) blocks.now.entries }
    ensures value { result ≡ levels_of fi.now blocks.now.entries
        (view_frame T.number coded.now) (view_frame T.number input.now) }
    ensures high { All (λ l. l ≤ 63) result }
{
    let rec = whole(coded);
    let source = whole(input);
    optimize(fi, &rec, &source, blocks, fi.width, fi.height)
}

// The levels of a frame of these sides by its whole table of blocks.
fn optimize<T: Pixel>(
    fi: &FrameInvariants<T>,
    rec: &Tile<'_, T>,
    source: &Tile<'_, T>,
    blocks: &FrameBlocks,
    width: usize,
    height: usize,
) -> [u8; 4]
    requires wide { width ≤ 65536 }
    requires high { height ≤ 65536 }
    requires depth { IsDepth fi.now.sequence.bit_depth }
    requires columns { blocks.now.cols ≡ rounded width / 4 }
    requires rows { blocks.now.rows ≡ rounded height / 4 }
    requires references { All (λ b. ref_number (first_ref b) < 8) blocks.now.entries }
    requires y { CanTally T.number (frame_shape width height fi.now.sequence.bit_depth) 0
        rec.now.planes.y source.now.planes.y }
    requires u { CanTally T.number (frame_shape width height fi.now.sequence.bit_depth) 1
        rec.now.planes.u source.now.planes.u }
    requires v { CanTally T.number (frame_shape width height fi.now.sequence.bit_depth) 2
        rec.now.planes.v source.now.planes.v }
    ensures levels { AreLevels fi.now
        (record { entries = blocks.now.entries; step = blocks.now.cols })
        (measured_frame T.number (frame_shape width height fi.now.sequence.bit_depth)
        rec.now source.now) result }
    ensures four { length result ≡ 4 }
{
    let table = TileBlocks::new(blocks, 0, 0, blocks.cols, blocks.rows);
    deblock_filter_optimize(fi, rec, source, &table, width, height)
}

// A frame as one tile, with all samples from each plane's origin on.
fn whole<T: Pixel>(frame: &Frame<T>) -> Tile<'_, T>
    ensures y { ShowsPlane frame.now.planes.y result.planes.y }
    ensures u { ShowsPlane frame.now.planes.u result.planes.u }
    ensures v { ShowsPlane frame.now.planes.v result.planes.v }
{
    Tile {
        planes: Three {
            y: frame.planes.y.as_region(),
            u: frame.planes.u.as_region(),
            v: frame.planes.v.as_region(),
        },
    }
}
