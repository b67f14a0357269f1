ghost use Rattle.std.specs.Prelude.{◌≡◌, ℕ, pos, ◌+◌, ◌*◌, ◌<◌, ◌≤◌, length, slice_index, replicate, map};
ghost use Rattle.av1_plane.specs.Numbers.{Below};
ghost use Rattle.av1_plane.specs.Region.{numbers_under, first_place, row_step, area, IsStored, IsSamePart};
ghost use Rattle.av1_cdef.specs.Tally.{filtered_cell, block_value};
ghost use Rattle.av1_cdef.specs.Cells.{AreCells, HasSamples, HasBlock};
ghost use Rattle.av1_cdef.specs.Filter.{InRange};
ghost use Rattle.av1_cdef.specs.Picture.{cdef_picture_of, filtered_at, IsHeld, IsBlockOf};

use crate::pad::{Sides, pad_block};
use crate::run::write_run;
use crate::settings::Settings;
use crate::source::Source;
use crate::tally::{CDEF_VERY_LARGE, filter_cell};
use crate::taps::Taps;
use crate::taps_of::taps_of;
use av1_plane::{Pixel, PlaneRegionMut};

// The filtered samples of a row, the first of which stands two rows below and two columns right of cell
// `at`, where rows of cells lie 12 apart. All lanes have 16 bits: with wider ones in this loop LLVM takes
// half as many at a time.
#[inline(always)]
fn filter_cells(cells: &[u16], at: usize, taps: &Taps, row: &mut [u16])
    requires inside { at + length row.old + 51 < length cells.now }
    requires samples { (k : ℕ) → k < length row.old → slice_index cells.now (at + k + 26) < 4096 }
    ensures value { (k : ℕ) → k < length row.old
        → slice_index row.new k ≡ filtered_cell cells.now (at + k) taps.now }
    ensures range { (b : ℕ) → AreCells b cells.now → Below b (map pos row.new) }
{
    for j in 0..row.len() {
        row[j] = filter_cell(cells, at + j, taps);
    }
}

// `filter_block` with the caller's `row`, which is as long as the block is wide.
#[inline(always)]
#[tactic(auto, using(crate::proofs::Blocks::blocks))]
fn filter_block_by<T: Pixel, const H: usize>(
    cells: &[u16],
    taps: &Taps,
    p: &mut PlaneRegionMut<'_, T>,
    x: usize,
    y: usize,
    row: &mut [u16],
)
    requires cells { length cells.now ≡ 144 }
    requires width { length row.old ≤ 8 }
    requires height { H ≤ 8 }
    requires samples { HasSamples (length row.old) H cells.now }
    requires range { AreCells T.limit cells.now }
    requires stored { IsStored p.old }
    requires x { x + length row.old ≤ (area p.old).width }
    requires y { y + H ≤ (area p.old).height }
    ensures part { IsSamePart p.old p.new }
    ensures value { HasBlock (first_place p.old) (row_step p.old) x y (length row.old) H
        (block_value cells.now taps.now) (numbers_under T.number p.old)
        (numbers_under T.number p.new) }
{
    // Asking for the region's sides brings in that they fit.
    let _rows = p.rect().height;
    for i in 0..H {
        filter_cells(cells, 12 * i, taps, row);
        write_run(p, x, y + i, row);
    }
}

/// Filters a block of `W` by `H` samples, whose cells stand in rows of 12, and writes it to column
/// `x` of row `y`.
#[inline(always)]
pub fn filter_block<T: Pixel, const W: usize, const H: usize>(
    cells: &[u16],
    taps: &Taps,
    p: &mut PlaneRegionMut<'_, T>,
    x: usize,
    y: usize,
)
    requires cells { length cells.now ≡ 144 }
    requires width { W ≤ 8 }
    requires height { H ≤ 8 }
    requires samples { HasSamples W H cells.now }
    requires range { AreCells T.limit cells.now }
    requires stored { IsStored p.old }
    requires x { x + W ≤ (area p.old).width }
    requires y { y + H ≤ (area p.old).height }
    ensures part { IsSamePart p.old p.new }
    ensures value { HasBlock (first_place p.old) (row_step p.old) x y W H
        (block_value cells.now taps.now) (numbers_under T.number p.old)
        (numbers_under T.number p.new) }
{
    let mut row = [0; W];
    filter_block_by::<T, H>(cells, taps, p, x, y, &mut row);
}

// `filter_from` with the caller's `cells`.
#[inline(always)]
fn filter_in_cells<T: Pixel, const W: usize, const H: usize>(
    source: &Source<'_, T>,
    settings: Settings,
    x: usize,
    y: usize,
    sides: Sides,
    cells: &mut [u16],
    p: &mut PlaneRegionMut<'_, T>,
    to_x: usize,
    to_y: usize,
)
    requires cells { cells.old ≡ replicate 144 0x8000 }
    requires width { W ≤ 8 }
    requires height { H ≤ 8 }
    requires settings { InRange settings }
    requires limit { 256 * settings.scale ≤ T.limit }
    requires held { IsHeld (256 * settings.scale) (length source.now.samples.now)
        (cdef_picture_of T.number source.now) }
    requires block { IsBlockOf (cdef_picture_of T.number source.now) x y W H sides }
    requires x { x + W ≤ source.now.width }
    requires y { y + H ≤ source.now.height }
    requires stored { IsStored p.old }
    requires to_x { to_x + W ≤ (area p.old).width }
    requires to_y { to_y + H ≤ (area p.old).height }
    requires some_width { 0 < W }
    requires some_height { 0 < H }
    ensures part { IsSamePart p.old p.new }
    ensures value { HasBlock (first_place p.old) (row_step p.old) to_x to_y W H
        (filtered_at (cdef_picture_of T.number source.now) settings x y)
        (numbers_under T.number p.old) (numbers_under T.number p.new) }
{
    let _length = source.samples.len();
    let place = source.origin + y * source.step + x;
    let taps = taps_of(settings);
    pad_block(cells, 12, source.samples, place, source.step, W, H, sides);
    filter_block::<T, W, H>(cells, &taps, p, to_x, to_y);
}

/// Filters the block of `W` by `H` samples at column `x` of row `y`, and writes it to column `to_x` of
/// row `to_y`.
#[inline(always)]
pub fn filter_from<T: Pixel, const W: usize, const H: usize>(
    source: &Source<'_, T>,
    settings: Settings,
    x: usize,
    y: usize,
    sides: Sides,
    p: &mut PlaneRegionMut<'_, T>,
    to_x: usize,
    to_y: usize,
)
    requires width { W ≤ 8 }
    requires height { H ≤ 8 }
    requires settings { InRange settings }
    requires limit { 256 * settings.scale ≤ T.limit }
    requires held { IsHeld (256 * settings.scale) (length source.now.samples.now)
        (cdef_picture_of T.number source.now) }
    requires block { IsBlockOf (cdef_picture_of T.number source.now) x y W H sides }
    requires x { x + W ≤ source.now.width }
    requires y { y + H ≤ source.now.height }
    requires stored { IsStored p.old }
    requires to_x { to_x + W ≤ (area p.old).width }
    requires to_y { to_y + H ≤ (area p.old).height }
    requires some_width { 0 < W }
    requires some_height { 0 < H }
    ensures part { IsSamePart p.old p.new }
    ensures value { HasBlock (first_place p.old) (row_step p.old) to_x to_y W H
        (filtered_at (cdef_picture_of T.number source.now) settings x y)
        (numbers_under T.number p.old) (numbers_under T.number p.new) }
{
    let mut cells = [CDEF_VERY_LARGE; 144];
    filter_in_cells::<T, W, H>(source, settings, x, y, sides, &mut cells, p, to_x, to_y);
}
