ghost use Rattle.std.specs.Prelude.{◌≡◌, ℕ, ◌+◌, ◌-◌, ◌*◌, ◌/◌, ◌^◌, ◌<◌, ◌≤◌, ◌==◌, true, length};
ghost use Rattle.av1_plane.specs.Region.{numbers_under, first_place, row_step, area, IsStored, IsSamePart};
ghost use Rattle.av1_block.specs.Tables.{view_entries, view_step, view_cols, view_rows};
ghost use Rattle.av1_tiling.specs.Frames.{IsFrame, IsInputFor};
ghost use Rattle.av1_tiling.specs.Views.{view_frame};
ghost use Rattle.av1_cdef.specs.Strength.{secondary_of};
ghost use Rattle.av1_cdef.specs.Done.{HasFilteredBlocks};
ghost use Rattle.av1_cdef.specs.Part.{IsCdefPlan, AreDirections, part_sample};
ghost use Rattle.av1_cdef.specs.Conditions.{IsViewFor, HoldsView};
ghost use Rattle.av1_cdef.specs.Analysis.{plane_picture, header_of, IsDeep, deblocked_of, HasDirections};
ghost use Rattle.av1_cdef.specs.Superblock.{IsCdefHeader, plan_with, channel_of, CanReadFrame, CanFilter, superblock_part, IsFilteredPlane, IsFiltered};

use crate::directions::CdefDirections;
use crate::part::{Plan, filter_part};
use crate::source::source_of;
use av1_block::TileBlocks;
use av1_plane::{Frame, Pixel, Plane, PlaneRegionMut, Three, TileMut, TileSuperBlockOffset};
use av1_tiling::FrameInvariants;

// The secondary strength that a strength byte holds, at 8 bits.
fn secondary_in(byte: u8) -> u16
    ensures value { result ≡ secondary_of byte }
    ensures most { result ≤ 4 }
{
    if byte % 4 == 3 {
        4
    } else {
        u16::from(byte % 4)
    }
}

// What 1 at 8 bits becomes at a depth with `shift` bits more.
fn scale_of(shift: usize) -> u16
    requires { shift ≤ 4 }
    ensures value { result ≡ 2 ^ shift }
    ensures some { 0 < result }
    ensures most { result ≤ 16 }
{
    match shift {
        0 => 1,
        1 => 2,
        2 => 4,
        3 => 8,
        _ => 16,
    }
}

// The strengths of an index.
fn plan_of<T: Pixel>(fi: &FrameInvariants<T>, luma: bool, same: bool, index: usize) -> Plan
    requires header { IsCdefHeader (header_of fi.now) }
    requires index { index < 8 }
    ensures value { result ≡ plan_with (header_of fi.now) luma same index }
    ensures plan { IsCdefPlan result }
{
    let byte = if luma {
        fi.cdef_y_strengths[index]
    } else {
        fi.cdef_uv_strengths[index]
    };
    let shift = fi.sequence.bit_depth - 8;
    let damping = usize::from(fi.cdef_damping) + shift;
    Plan {
        luma,
        stretched: !luma && !same,
        primary: u16::from(byte / 4),
        secondary: secondary_in(byte),
        damping: if luma {
            damping as u32
        } else {
            (damping - 1) as u32
        },
        scale: scale_of(shift),
    }
}

// Part of a plane whose blocks have `W` by `H` samples.
fn filter_plane_by<T: Pixel, const W: usize, const H: usize>(
    p: &Plane<T>,
    cols: usize,
    rows: usize,
    blocks: &TileBlocks<'_>,
    plan: Plan,
    dirs: &CdefDirections,
    tx: usize,
    ty: usize,
    left: usize,
    right: usize,
    top: usize,
    bottom: usize,
    out: &mut PlaneRegionMut<'_, T>,
)
    requires some_width { 4 ≤ W }
    requires width { W ≤ 8 }
    requires some_height { 4 ≤ H }
    requires height { H ≤ 8 }
    requires plan { IsCdefPlan plan }
    requires limit { 256 * plan.scale ≤ T.limit }
    requires narrow { p.now.cfg.stride < 2 ^ 32 }
    requires some { 0 < p.now.cfg.height }
    requires deep { IsDeep (256 * plan.scale) (plane_picture T.number p.now) }
    requires cols { p.now.cfg.width ≡ W * cols }
    requires rows { p.now.cfg.height ≡ H * rows }
    requires right { tx + right ≤ cols }
    requires bottom { ty + bottom ≤ rows }
    requires columns { right ≤ left + 8 }
    requires lines { bottom ≤ top + 8 }
    requires directions { AreDirections dirs.now }
    requires forward { left ≤ right }
    requires downward { top ≤ bottom }
    requires units { 2 * right ≤ view_cols blocks.now }
    requires unit_rows { 2 * bottom ≤ view_rows blocks.now }
    requires stored { IsStored out.old }
    requires to_x { W * right ≤ (area out.old).width }
    requires to_y { H * bottom ≤ (area out.old).height }
    ensures part { IsSamePart out.old out.new }
    ensures value { HasFilteredBlocks (first_place out.old) (row_step out.old)
        W H left right top left bottom
        (part_sample (plane_picture T.number p.now) (view_entries blocks.now)
        (view_step blocks.now) plan dirs.now tx ty W H left top)
        (numbers_under T.number out.old) (numbers_under T.number out.new) }
{
    let source = source_of(p);
    filter_part::<T, W, H>(
        &source, cols, rows, blocks, plan, dirs, tx, ty, left, right, top, bottom, out,
    );
}

// Part of a plane, by its sampling: blocks have 8x8, 4x8 or 4x4 samples.
fn filter_sampled<T: Pixel>(
    p: &Plane<T>,
    cols: usize,
    rows: usize,
    blocks: &TileBlocks<'_>,
    plan: Plan,
    dirs: &CdefDirections,
    tx: usize,
    ty: usize,
    left: usize,
    right: usize,
    top: usize,
    bottom: usize,
    out: &mut PlaneRegionMut<'_, T>,
)
    requires plan { IsCdefPlan plan }
    requires limit { 256 * plan.scale ≤ T.limit }
    requires can { CanFilter T.number plan.scale cols rows right bottom p.now out.old }
    requires right { tx + right ≤ cols }
    requires bottom { ty + bottom ≤ rows }
    requires columns { right ≤ left + 8 }
    requires lines { bottom ≤ top + 8 }
    requires directions { AreDirections dirs.now }
    requires forward { left ≤ right }
    requires downward { top ≤ bottom }
    requires units { 2 * right ≤ view_cols blocks.now }
    requires unit_rows { 2 * bottom ≤ view_rows blocks.now }
    ensures part { IsSamePart out.old out.new }
    ensures value { HasFilteredBlocks (first_place out.old) (row_step out.old)
        (8 / 2 ^ p.now.cfg.xdec) (8 / 2 ^ p.now.cfg.ydec) left right top left bottom
        (part_sample (plane_picture T.number p.now) (view_entries blocks.now)
        (view_step blocks.now) plan dirs.now tx ty
        (8 / 2 ^ p.now.cfg.xdec) (8 / 2 ^ p.now.cfg.ydec) left top)
        (numbers_under T.number out.old) (numbers_under T.number out.new) }
{
    if p.cfg.xdec == 0 {
        filter_plane_by::<T, 8, 8>(
            p, cols, rows, blocks, plan, dirs, tx, ty, left, right, top, bottom, out,
        );
    } else if p.cfg.ydec == 0 {
        filter_plane_by::<T, 4, 8>(
            p, cols, rows, blocks, plan, dirs, tx, ty, left, right, top, bottom, out,
        );
    } else {
        filter_plane_by::<T, 4, 4>(
            p, cols, rows, blocks, plan, dirs, tx, ty, left, right, top, bottom, out,
        );
    }
}

// The part of a plane from block (left, top) of the view on; `number` is 0 for luma.
fn filter_plane<T: Pixel>(
    fi: &FrameInvariants<T>,
    input: &Frame<T>,
    number: usize,
    p: &Plane<T>,
    blocks: &TileBlocks<'_>,
    index: usize,
    dirs: &CdefDirections,
    left: usize,
    right: usize,
    top: usize,
    bottom: usize,
    out: &mut PlaneRegionMut<'_, T>,
)
    requires read { CanReadFrame T.number T.limit fi.now input.now.planes.y blocks.now }
    requires can { 0 < p.now.cfg.width
        → CanFilter T.number (2 ^ (fi.now.sequence.bit_depth - 8))
        (input.now.planes.y.cfg.width / 8) (input.now.planes.y.cfg.height / 8)
        right bottom p.now out.old }
    requires index { index < 8 }
    requires directions { HasDirections (deblocked_of T.number fi.now input.now blocks.now)
        left top dirs.now }
    requires columns { right ≤ left + 8 }
    requires lines { bottom ≤ top + 8 }
    requires forward { left ≤ right }
    requires downward { top ≤ bottom }
    requires units { 2 * right ≤ view_cols blocks.now }
    requires unit_rows { 2 * bottom ≤ view_rows blocks.now }
    ensures { IsFilteredPlane T.number
        (record {
          frame = deblocked_of T.number fi.now input.now blocks.now;
          index = index;
          left = left;
          right = right;
          top = top;
          bottom = bottom;
        })
        (channel_of T.number number p.now) out.old out.new }
{
    if p.cfg.width > 0 {
        let plan = plan_of(fi, number == 0, p.cfg.xdec == p.cfg.ydec, index);
        let cols = input.planes.y.cfg.width / 8;
        let rows = input.planes.y.cfg.height / 8;
        let tx = blocks.x() / 2;
        let ty = blocks.y() / 2;
        filter_sampled(
            p, cols, rows, blocks, plan, dirs, tx, ty, left, right, top, bottom, out,
        );
    }
}

/// Filters the 8x8 blocks of the superblock `tile_sbo` that lie in the view, in each plane, with the
/// strengths of `cdef_index` (AV1 specification, section 7.15). A block whose four units are all
/// skipped is copied; all other samples of the output stay. The view and the output start at the same
/// place of the frame.
pub fn cdef_filter_superblock<T: Pixel>(
    fi: &FrameInvariants<T>,
    input: &Frame<T>,
    output: &mut TileMut<'_, T>,
    blocks: &TileBlocks<'_>,
    tile_sbo: TileSuperBlockOffset,
    cdef_index: u8,
    cdef_dirs: &CdefDirections,
)
    requires frame { IsFrame T.limit fi.now }
    requires input { IsInputFor fi.now (view_frame T.number input.now) }
    requires blocks { IsViewFor fi.now blocks.now }
    requires output { HoldsView input.now blocks.now output.old }
    requires x { 16 * tile_sbo.0.x < view_cols blocks.now }
    requires y { 16 * tile_sbo.0.y < view_rows blocks.now }
    requires index { cdef_index < 8 }
    requires directions { HasDirections (deblocked_of T.number fi.now input.now blocks.now)
        (8 * tile_sbo.0.x) (8 * tile_sbo.0.y) cdef_dirs.now }
    ensures { IsFiltered T.number
        (superblock_part (deblocked_of T.number fi.now input.now blocks.now)
        cdef_index tile_sbo.0.x tile_sbo.0.y) input.now output.old output.new }
{
    let left = 8 * tile_sbo.0.x;
    let top = 8 * tile_sbo.0.y;
    let right = (left + 8).min(blocks.cols() / 2);
    let bottom = (top + 8).min(blocks.rows() / 2);
    let index = usize::from(cdef_index);
    let Three { y, u, v } = &mut output.planes;
    filter_plane(
        fi,
        input,
        0,
        &input.planes.y,
        blocks,
        index,
        cdef_dirs,
        left,
        right,
        top,
        bottom,
        y,
    );
    filter_plane(
        fi,
        input,
        1,
        &input.planes.u,
        blocks,
        index,
        cdef_dirs,
        left,
        right,
        top,
        bottom,
        u,
    );
    filter_plane(
        fi,
        input,
        2,
        &input.planes.v,
        blocks,
        index,
        cdef_dirs,
        left,
        right,
        top,
        bottom,
        v,
    );
}
