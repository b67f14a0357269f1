ghost use Rattle.std.specs.Prelude.{◌≡◌, ℕ, ◌+◌, ◌-◌, ◌*◌, ◌^◌, ◌<◌, ◌≤◌, ◌&&◌, not, nat_lt, pos, length, IfOk};
ghost use Rattle.av1_block.specs.Tables.{view_entries, view_step, view_cols, view_rows};
ghost use Rattle.av1_tiling.specs.Frames.{IsFrame, IsInputFor};
ghost use Rattle.av1_tiling.specs.Views.{view_frame};
ghost use Rattle.av1_cdef.specs.Direction.{direction, direction_variance};
ghost use Rattle.av1_cdef.specs.Picture.{cdef_picture_of, IsHeld};
ghost use Rattle.av1_cdef.specs.Frame.{shifted_block};
ghost use Rattle.av1_cdef.specs.Part.{AreDirections, all_skipped};
ghost use Rattle.av1_cdef.specs.Conditions.{IsViewFor};
ghost use Rattle.av1_cdef.specs.Analysis.{deblocked_by, deblocked_of, block_direction, block_variance, HasDirections, HasRange};

use crate::direction::direction_at;
use crate::directions::CdefDirections;
use crate::part::is_skipped;
use crate::source::{Source, source_of};
use av1_block::TileBlocks;
use av1_plane::{Frame, OutOfMemory, Pixel, SuperBlockOffset, TileSuperBlockOffset};
use av1_tiling::FrameInvariants;
use std::alloc::Global;
use std::thread::Threads;

// The direction of block (bx, by) of luma and its variance.
fn find_block<T: Pixel>(source: &Source<'_, T>, shift: usize, bx: usize, by: usize) -> (usize, u32)
    requires shift { shift ≤ 4 }
    requires held { IsHeld (256 * 2 ^ shift) (length source.now.samples.now)
        (cdef_picture_of T.number source.now) }
    requires bx { 8 * bx + 8 ≤ source.now.width }
    requires by { 8 * by + 8 ≤ source.now.height }
    ensures direction { result.0
        ≡ direction (shifted_block (cdef_picture_of T.number source.now) shift bx by) }
    ensures inside { result.0 < 8 }
    ensures variance { result.1
        ≡ direction_variance (shifted_block (cdef_picture_of T.number source.now) shift bx by) }
    ensures small { result.1 < 2 ^ 31 }
{
    let _length = source.samples.len();
    let _width = source.width;
    let _height = source.height;
    let step = source.step;
    let place = source.origin + 8 * by * step + 8 * bx;
    direction_at(source.samples, place, step, shift)
}

// Whether block (u, v) lies in the view and is not skipped.
fn filters(blocks: &TileBlocks<'_>, u: usize, v: usize) -> bool
    requires u { u < 2 ^ 32 }
    requires v { v < 2 ^ 32 }
    ensures { result
        ≡ (nat_lt (2 * u + 1) (view_cols blocks.now) && (nat_lt (2 * v + 1) (view_rows blocks.now)
        && not (all_skipped (view_entries blocks.now) (view_step blocks.now) u v))) }
{
    2 * u + 1 < blocks.cols() && (2 * v + 1 < blocks.rows() && !is_skipped(blocks, u, v))
}

// The direction and variance of block (u, v) of a view that starts at block (tx, ty), both 0 if
// the block is not filtered.
fn find_filtered<T: Pixel>(
    fi: &FrameInvariants<T>,
    source: &Source<'_, T>,
    blocks: &TileBlocks<'_>,
    tx: usize,
    ty: usize,
    u: usize,
    v: usize,
) -> (u8, u32)
    requires low { 8 ≤ fi.now.sequence.bit_depth }
    requires high { fi.now.sequence.bit_depth ≤ 12 }
    requires held { IsHeld (256 * 2 ^ (fi.now.sequence.bit_depth - 8))
        (length source.now.samples.now) (cdef_picture_of T.number source.now) }
    requires width { 4 * (2 * tx + view_cols blocks.now) ≤ source.now.width }
    requires height { 4 * (2 * ty + view_rows blocks.now) ≤ source.now.height }
    requires u { u < 2 ^ 32 }
    requires v { v < 2 ^ 32 }
    ensures direction { result.0
        ≡ block_direction
        (deblocked_by fi.now (cdef_picture_of T.number source.now) blocks.now tx ty) u v }
    ensures inside { result.0 < 8 }
    ensures variance { result.1
        ≡ block_variance
        (deblocked_by fi.now (cdef_picture_of T.number source.now) blocks.now tx ty) u v }
    ensures small { result.1 < 2 ^ 31 }
{
    let _width = source.width;
    let _height = source.height;
    if filters(blocks, u, v) {
        let shift = fi.sequence.bit_depth - 8;
        let (direction, variance) = find_block(source, shift, tx + u, ty + v);
        (direction as u8, variance)
    } else {
        (0, 0)
    }
}

// The directions of the part that starts at block (left, top) of the view.
fn fill_directions<T: Pixel>(
    fi: &FrameInvariants<T>,
    source: &Source<'_, T>,
    blocks: &TileBlocks<'_>,
    tx: usize,
    ty: usize,
    left: usize,
    top: usize,
    dirs: &mut CdefDirections,
)
    requires low { 8 ≤ fi.now.sequence.bit_depth }
    requires high { fi.now.sequence.bit_depth ≤ 12 }
    requires held { IsHeld (256 * 2 ^ (fi.now.sequence.bit_depth - 8))
        (length source.now.samples.now) (cdef_picture_of T.number source.now) }
    requires width { 4 * (2 * tx + view_cols blocks.now) ≤ source.now.width }
    requires height { 4 * (2 * ty + view_rows blocks.now) ≤ source.now.height }
    requires left { left < 2 ^ 31 }
    requires top { top < 2 ^ 31 }
    requires shape { AreDirections dirs.old }
    ensures { HasDirections
        (deblocked_by fi.now (cdef_picture_of T.number source.now) blocks.now tx ty)
        left top dirs.new }
{
    for i in 0..8 {
        for j in 0..8 {
            let (direction, variance) = find_filtered(
                fi,
                source,
                blocks,
                tx,
                ty,
                left + i,
                top + j,
            );
            dirs.put(i, j, direction, variance);
        }
    }
}

/// The directions and variances of the 8x8 blocks of the superblock `sbo` of the view
/// (AV1 specification, section 7.15.2), for each block that lies in the view and is not skipped;
/// else 0.
pub fn cdef_analyze_superblock<T: Pixel>(
    fi: &FrameInvariants<T>,
    in_frame: &Frame<T>,
    blocks: &TileBlocks<'_>,
    sbo: TileSuperBlockOffset,
) -> CdefDirections
    requires frame { IsFrame T.limit fi.now }
    requires input { IsInputFor fi.now (view_frame T.number in_frame.now) }
    requires blocks { IsViewFor fi.now blocks.now }
    requires x { 16 * sbo.0.x < view_cols blocks.now }
    requires y { 16 * sbo.0.y < view_rows blocks.now }
    ensures { HasDirections (deblocked_of T.number fi.now in_frame.now blocks.now)
        (8 * sbo.0.x) (8 * sbo.0.y) result }
{
    let source = source_of(&in_frame.planes.y);
    let mut dirs = CdefDirections::none();
    let tx = blocks.x() / 2;
    let ty = blocks.y() / 2;
    let left = 8 * sbo.0.x;
    let top = 8 * sbo.0.y;
    fill_directions(fi, &source, blocks, tx, ty, left, top, &mut dirs);
    dirs
}

/// The directions and variances of `sb_w` by `sb_h` superblocks, row by row. The first block of
/// each lies in the view.
pub fn cdef_analyze_superblock_range<T: Pixel, R: Threads>(
    _rt: &R,
    alloc: Global,
    fi: &FrameInvariants<T>,
    in_frame: &Frame<T>,
    blocks: &TileBlocks<'_>,
    sb_w: usize,
    sb_h: usize,
) -> Result<Vec<CdefDirections>, OutOfMemory>
    requires frame { IsFrame T.limit fi.now }
    requires input { IsInputFor fi.now (view_frame T.number in_frame.now) }
    requires blocks { IsViewFor fi.now blocks.now }
    requires x { 16 * sb_w < view_cols blocks.now + 16 }
    requires y { 16 * sb_h < view_rows blocks.now + 16 }
    ensures { IfOk result (λ v.
        HasRange (deblocked_of T.number fi.now in_frame.now blocks.now)
        sb_w (sb_h * sb_w) v.items) }
{
    let mut all = Vec::new(alloc);
    for y in 0..sb_h {
        for x in 0..sb_w {
            let sbo = TileSuperBlockOffset(SuperBlockOffset { x, y });
            all.push(cdef_analyze_superblock(fi, in_frame, blocks, sbo))?;
        }
    }
    Ok(all)
}
