ghost use Rattle.std.specs.Prelude.{◌≡◌, ℕ, ℤ, pos, ◌+◌, ◌*◌, ◌^◌, ◌<◌, ◌≤◌, ◌==◌, ◌&&◌, ◌||◌, length, map, true, false};
ghost use Rattle.av1_plane.specs.Region.{numbers_under, first_place, row_step, area, IsStored, IsSamePart};
ghost use Rattle.av1_block.specs.Tables.{view_entries, view_step, view_at, view_cols, view_rows};
ghost use Rattle.av1_cdef.specs.Cells.{HasBlock};
ghost use Rattle.av1_cdef.specs.Done.{HasFilteredBlocks};
ghost use Rattle.av1_cdef.specs.Filter.{InRange};
ghost use Rattle.av1_cdef.specs.Picture.{cdef_picture_of, sample_at, IsHeld, IsBlockOf};
ghost use Rattle.av1_cdef.specs.Part.{settings_by, all_skipped, block_sample, copied_at, sides_at, part_sample, table_direction, table_variance, IsCdefPlan, AreDirections};
ghost use Rattle.av1_cdef.specs.Frame.{stretched};

use crate::block::filter_from;
use crate::directions::CdefDirections;
use crate::pad::Sides;
use crate::run::copy_run;
use crate::settings::Settings;
use crate::source::Source;
use crate::strength::adjusted;
use av1_block::TileBlocks;
use av1_plane::{BlockOffset, Pixel, PlaneRegionMut, TileBlockOffset};

/// What a strength byte of the frame says of one plane, with strengths at 8 bits.
#[derive(Clone, Copy)]
pub struct Plan {
    pub luma: bool,
    pub stretched: bool,
    pub primary: u16,
    pub secondary: u16,
    pub damping: u32,
    pub scale: u16,
}

// The direction where only the columns of chroma are halved.
fn stretched_direction(direction: usize) -> usize
    requires { direction < 8 }
    ensures value { result ≡ stretched direction }
    ensures inside { result < 8 }
{
    match direction {
        0 => 7,
        1 => 0,
        2 => 2,
        3 => 4,
        4 => 5,
        _ => 6,
    }
}

fn scaled(strength: u16, scale: u16) -> u16
    requires strength { strength ≤ 15 }
    requires scale { scale ≤ 16 }
    ensures value { result ≡ strength * scale }
    ensures most { result ≤ 240 }
{
    strength * scale
}

fn direction_by(p: Plan, direction: usize) -> usize
    requires { direction < 8 }
    ensures value { result ≡ (settings_by p direction 0).direction }
    ensures inside { result < 8 }
{
    if p.primary == 0 {
        0
    } else if p.stretched {
        stretched_direction(direction)
    } else {
        direction
    }
}

fn primary_by(p: Plan, variance: u32) -> u16
    requires { IsCdefPlan p }
    ensures value { result ≡ (settings_by p 0 variance).primary }
    ensures most { result ≤ 240 }
{
    let strength = scaled(p.primary, p.scale);
    if p.luma {
        adjusted(u32::from(strength), variance) as u16
    } else {
        strength
    }
}

/// The settings of a block with this direction and variance.
pub fn settings_at(p: Plan, direction: usize, variance: u32) -> Settings
    requires plan { IsCdefPlan p }
    requires direction { direction < 8 }
    ensures value { result ≡ settings_by p direction variance }
    ensures range { InRange result }
    ensures scale { result.scale ≡ p.scale }
{
    Settings {
        direction: direction_by(p, direction),
        primary: primary_by(p, variance),
        secondary: scaled(p.secondary, p.scale),
        damping: p.damping,
        scale: p.scale,
    }
}

fn is_skipped_unit(blocks: &TileBlocks<'_>, x: usize, y: usize) -> bool
    requires x { x < view_cols blocks.now }
    requires y { y < view_rows blocks.now }
    ensures { result ≡ (view_at blocks.now x y).skip }
{
    blocks[TileBlockOffset(BlockOffset { x, y })].skip
}

/// Whether a block's four units are skipped.
pub fn is_skipped(blocks: &TileBlocks<'_>, bx: usize, by: usize) -> bool
    requires x { 2 * bx + 1 < view_cols blocks.now }
    requires y { 2 * by + 1 < view_rows blocks.now }
    ensures { result ≡ all_skipped (view_entries blocks.now) (view_step blocks.now) bx by }
{
    is_skipped_unit(blocks, 2 * bx, 2 * by)
        && is_skipped_unit(blocks, 2 * bx + 1, 2 * by)
        && is_skipped_unit(blocks, 2 * bx, 2 * by + 1)
        && is_skipped_unit(blocks, 2 * bx + 1, 2 * by + 1)
}

#[inline(always)]
#[tactic(auto, using(crate::proofs::Blocks::blocks))]
fn copy_block<T: Pixel, const W: usize, const H: usize>(
    source: &Source<'_, T>,
    x: usize,
    y: usize,
    p: &mut PlaneRegionMut<'_, T>,
    to_x: usize,
    to_y: usize,
)
    requires width { W ≤ 8 }
    requires height { H ≤ 8 }
    requires narrow { source.now.step < 2 ^ 32 }
    requires y { y + H ≤ source.now.height }
    requires inside { source.now.origin + (y + H) * source.now.step + x + W ≤ length
        source.now.samples.now + source.now.step }
    requires stored { IsStored p.old }
    requires to_x { to_x + W ≤ (area p.old).width }
    requires to_y { to_y + H ≤ (area p.old).height }
    ensures part { IsSamePart p.old p.new }
    ensures value { HasBlock (first_place p.old) (row_step p.old) to_x to_y W H
        (copied_at (cdef_picture_of T.number source.now) x y) (numbers_under T.number p.old)
        (numbers_under T.number p.new) }
{
    let _length = source.samples.len();
    let _height = source.height;
    // Asking for the region's sides brings in that they fit.
    let _rows = p.rect().height;
    for i in 0..H {
        let from = source.origin + (y + i) * source.step + x;
        copy_run(p, to_x, to_y + i, source.samples, from, W);
    }
}

// Whether all samples of a block stay: without strengths the filter changes none.
#[inline(always)]
fn stays(skip: bool, settings: Settings) -> bool
    ensures { result ≡ (skip || settings.primary == 0 && settings.secondary == 0) }
{
    skip || settings.primary == 0 && settings.secondary == 0
}

// Copies or filters a block.
#[inline(always)]
fn put_block<T: Pixel, const W: usize, const H: usize>(
    source: &Source<'_, T>,
    skip: bool,
    settings: Settings,
    x: usize,
    y: usize,
    sides: Sides,
    p: &mut PlaneRegionMut<'_, T>,
    to_x: usize,
    to_y: usize,
)
    requires some_width { 0 < W }
    requires width { W ≤ 8 }
    requires some_height { 0 < H }
    requires height { H ≤ 8 }
    requires settings { InRange settings }
    requires limit { 256 * settings.scale ≤ T.limit }
    requires held { IsHeld (256 * settings.scale) (length source.now.samples.now)
        (cdef_picture_of T.number source.now) }
    requires block { IsBlockOf (cdef_picture_of T.number source.now) x y W H sides }
    requires x { x + W ≤ source.now.width }
    requires y { y + H ≤ source.now.height }
    requires stored { IsStored p.old }
    requires to_x { to_x + W ≤ (area p.old).width }
    requires to_y { to_y + H ≤ (area p.old).height }
    ensures part { IsSamePart p.old p.new }
    ensures value { HasBlock (first_place p.old) (row_step p.old) to_x to_y W H
        (block_sample (cdef_picture_of T.number source.now) skip settings x y)
        (numbers_under T.number p.old) (numbers_under T.number p.new) }
{
    if stays(skip, settings) {
        copy_block::<T, W, H>(source, x, y, p, to_x, to_y);
    } else {
        filter_from::<T, W, H>(source, settings, x, y, sides, p, to_x, to_y);
    }
}

// On which sides block (bx, by) of a plane of `cols` by `rows` blocks has neighbours.
fn sides_of(bx: usize, by: usize, cols: usize, rows: usize) -> Sides
    requires bx { bx < cols }
    requires by { by < rows }
    ensures { result ≡ sides_at bx by cols rows }
{
    Sides {
        left: bx > 0,
        right: bx + 1 < cols,
        top: by > 0,
        bottom: by + 1 < rows,
    }
}

// Block (u, v) of a region, of whose frame block (tx, ty) is the first.
fn part_block<T: Pixel, const W: usize, const H: usize>(
    source: &Source<'_, T>,
    cols: usize,
    rows: usize,
    blocks: &TileBlocks<'_>,
    plan: Plan,
    dirs: &CdefDirections,
    tx: usize,
    ty: usize,
    left: usize,
    top: usize,
    u: usize,
    v: usize,
    p: &mut PlaneRegionMut<'_, T>,
)
    requires some_width { 4 ≤ W }
    requires width { W ≤ 8 }
    requires some_height { 4 ≤ H }
    requires height { H ≤ 8 }
    requires plan { IsCdefPlan plan }
    requires limit { 256 * plan.scale ≤ T.limit }
    requires held { IsHeld (256 * plan.scale) (length source.now.samples.now)
        (cdef_picture_of T.number source.now) }
    requires cols { source.now.width ≡ W * cols }
    requires rows { source.now.height ≡ H * rows }
    requires u { tx + u < cols }
    requires v { ty + v < rows }
    requires left { left ≤ u }
    requires right { u < left + 8 }
    requires top { top ≤ v }
    requires bottom { v < top + 8 }
    requires directions { AreDirections dirs.now }
    requires columns { 2 * u + 1 < view_cols blocks.now }
    requires lines { 2 * v + 1 < view_rows blocks.now }
    requires stored { IsStored p.old }
    requires to_x { W * (u + 1) ≤ (area p.old).width }
    requires to_y { H * (v + 1) ≤ (area p.old).height }
    ensures part { IsSamePart p.old p.new }
    ensures value { HasBlock (first_place p.old) (row_step p.old) (W * u) (H * v) W H
        (part_sample (cdef_picture_of T.number source.now) (view_entries blocks.now)
        (view_step blocks.now) plan dirs.now tx ty W H left top u v) (numbers_under T.number p.old)
        (numbers_under T.number p.new) }
{
    // Asking for the sides brings in that they fit.
    let _width = source.width;
    let _height = source.height;
    let _columns = p.rect().width;
    let _rows = p.rect().height;
    let skip = is_skipped(blocks, u, v);
    let direction = usize::from(dirs.dir(u - left, v - top));
    let variance = dirs.var(u - left, v - top).unsigned_abs();
    let settings = settings_at(plan, direction, variance);
    let sides = sides_of(tx + u, ty + v, cols, rows);
    put_block::<T, W, H>(
        source,
        skip,
        settings,
        W * (tx + u),
        H * (ty + v),
        sides,
        p,
        W * u,
        H * v,
    );
}

/// The blocks of a region from column `left` to `right` and from row `top` to `bottom`, at most eight
/// by eight of them. Block (tx, ty) of the frame is the region's first.
#[tactic(auto, using(crate::proofs::Progress::blocks))]
pub fn filter_part<T: Pixel, const W: usize, const H: usize>(
    source: &Source<'_, T>,
    cols: usize,
    rows: usize,
    blocks: &TileBlocks<'_>,
    plan: Plan,
    dirs: &CdefDirections,
    tx: usize,
    ty: usize,
    left: usize,
    right: usize,
    top: usize,
    bottom: usize,
    p: &mut PlaneRegionMut<'_, T>,
)
    requires some_width { 4 ≤ W }
    requires width { W ≤ 8 }
    requires some_height { 4 ≤ H }
    requires height { H ≤ 8 }
    requires plan { IsCdefPlan plan }
    requires limit { 256 * plan.scale ≤ T.limit }
    requires held { IsHeld (256 * plan.scale) (length source.now.samples.now)
        (cdef_picture_of T.number source.now) }
    requires cols { source.now.width ≡ W * cols }
    requires rows { source.now.height ≡ H * rows }
    requires right { tx + right ≤ cols }
    requires bottom { ty + bottom ≤ rows }
    requires columns { right ≤ left + 8 }
    requires lines { bottom ≤ top + 8 }
    requires directions { AreDirections dirs.now }
    requires forward { left ≤ right }
    requires downward { top ≤ bottom }
    requires units { 2 * right ≤ view_cols blocks.now }
    requires unit_rows { 2 * bottom ≤ view_rows blocks.now }
    requires stored { IsStored p.old }
    requires to_x { W * right ≤ (area p.old).width }
    requires to_y { H * bottom ≤ (area p.old).height }
    ensures part { IsSamePart p.old p.new }
    ensures value { HasFilteredBlocks (first_place p.old) (row_step p.old) W H left right top left
        bottom
        (part_sample (cdef_picture_of T.number source.now) (view_entries blocks.now)
        (view_step blocks.now) plan dirs.now tx ty W H left top) (numbers_under T.number p.old)
        (numbers_under T.number p.new) }
{
    for v in top..bottom {
        for u in left..right {
            part_block::<T, W, H>(
                source, cols, rows, blocks, plan, dirs, tx, ty, left, top, u, v, p,
            );
        }
    }
}
