ghost use Rattle.std.specs.Prelude.{◌≡◌, ◌+◌, ◌*◌, ◌<◌, ◌≤◌, ◌^◌, ◌≤ℤ◌, ◌+ℤ◌, ℕ, ℤ, pos, length, true, false, [], ◌∷◌};
ghost use Rattle.av1_plane.specs.Numbers.{IsDepth};
ghost use Rattle.av1_deblock.specs.Line.{sample, sum_below};
ghost use Rattle.av1_deblock.specs.Edges.{blocks_in};
ghost use Rattle.av1_deblock.specs.Frames.{frame_shape};
ghost use Rattle.av1_deblock.specs.Conditions.{AreCropSides, CoversBlocks};
ghost use Rattle.av1_deblock.specs.Errors.{running, IsTally, IsLowestLeast};
ghost use Rattle.av1_deblock.specs.Choice.{error_at, error_of_both, measured_plane, measured_frame, CanTally, HasSums, IsLowestSum, AreBest, AreLevels};

use crate::level::fast_level;
use crate::walk::{clear, tally_plane};
use av1_block::TileBlocks;
use av1_plane::{Pixel, PlaneRegion, Tile};
use av1_tiling::{FrameInvariants, FrameType};

// The sum of the entries up to `level`, from that of those before it.
fn sum_to(entries: &[i64], level: usize, before: i64) -> i64
    requires sums { HasSums entries.now }
    requires level { level < 64 }
    requires before { before ≡ sum_below level (sample entries.now) }
    ensures value { result ≡ running entries.now level }
    ensures low { pos 0 ≤ℤ result }
    ensures high { result ≤ℤ pos 1152921504606846976 }
{
    before + entries[level]
}

// The sums of both tallies at a level, added.
fn added(a: i64, b: i64) -> i64
    requires a_low { pos 0 ≤ℤ a }
    requires a_high { a ≤ℤ pos 1152921504606846976 }
    requires b_low { pos 0 ≤ℤ b }
    requires b_high { b ≤ℤ pos 1152921504606846976 }
    ensures { result ≡ a +ℤ b }
{
    a + b
}

// The lowest level at which both tallies together have the least sum.
#[tactic(auto, using(crate::proofs::Choices::signed))]
fn lowest_sum(first: &[i64], second: &[i64]) -> u8
    requires first { HasSums first.now }
    requires second { HasSums second.now }
    ensures { IsLowestSum first.now second.now 64 result }
{
    let mut a = sum_to(first, 0, 0);
    let mut b = sum_to(second, 0, 0);
    let mut least = added(a, b);
    let mut best = 0;
    for level in 1..64 {
        a = sum_to(first, level, a);
        b = sum_to(second, level, b);
        let sum = added(a, b);
        if sum < least {
            least = sum;
            best = level;
        }
    }
    best as u8
}

// The level of least error by two tallies.
fn lowest_of_two(first: &[i64], second: &[i64]) -> u8
    requires first { HasSums first.now }
    requires second { HasSums second.now }
    ensures { (f g : ℕ → ℕ)
        → IsTally f first.now
        → IsTally g second.now
        → IsLowestLeast (λ level. f level + g level) 64 result }
{
    lowest_sum(first, second)
}

// The level of least error by one tally, by way of `none`.
fn lowest_of_one(first: &[i64], none: &mut [i64]) -> u8
    requires first { HasSums first.now }
    requires none { length none.old ≡ 65 }
    ensures value { (f : ℕ → ℕ) → IsTally f first.now → IsLowestLeast f 64 result }
    ensures none { length none.new ≡ 65 }
{
    clear(none);
    lowest_sum(first, none)
}

fn luma_levels<T: Pixel>(
    rec: &PlaneRegion<'_, T>,
    src: &PlaneRegion<'_, T>,
    blocks: &TileBlocks<'_>,
    crop_w: usize,
    crop_h: usize,
    bd: usize,
) -> (u8, u8)
    requires plane { CanTally T.number (frame_shape crop_w crop_h bd) 0 rec.now src.now }
    requires blocks { CoversBlocks crop_w crop_h blocks.now }
    requires sides { AreCropSides crop_w crop_h }
    requires depth { IsDepth bd }
    ensures vertical { IsLowestLeast (error_at (blocks_in blocks.now)
        (measured_plane T.number (frame_shape crop_w crop_h bd) 0 rec.now src.now) true) 64
        result.0 }
    ensures horizontal { IsLowestLeast
        (error_at (blocks_in blocks.now)
        (measured_plane T.number (frame_shape crop_w crop_h bd) 0 rec.now src.now) false) 64
        result.1 }
{
    let (vertical, horizontal) = tally_plane(rec, src, 0, blocks, crop_w, crop_h, bd);
    let mut none = [0; 65];
    let first = lowest_of_one(&vertical, &mut none);
    let second = lowest_of_one(&horizontal, &mut none);
    (first, second)
}

fn chroma_level<T: Pixel>(
    rec: &PlaneRegion<'_, T>,
    src: &PlaneRegion<'_, T>,
    pli: usize,
    blocks: &TileBlocks<'_>,
    crop_w: usize,
    crop_h: usize,
    bd: usize,
) -> u8
    requires plane { CanTally T.number (frame_shape crop_w crop_h bd) pli rec.now src.now }
    requires blocks { CoversBlocks crop_w crop_h blocks.now }
    requires sides { AreCropSides crop_w crop_h }
    requires depth { IsDepth bd }
    ensures { IsLowestLeast (error_of_both (blocks_in blocks.now)
        (measured_plane T.number (frame_shape crop_w crop_h bd) pli rec.now src.now)) 64 result }
{
    let (vertical, horizontal) = tally_plane(rec, src, pli, blocks, crop_w, crop_h, bd);
    lowest_of_two(&vertical, &horizontal)
}

fn best_levels<T: Pixel>(
    rec: &Tile<'_, T>,
    input: &Tile<'_, T>,
    blocks: &TileBlocks<'_>,
    crop_w: usize,
    crop_h: usize,
    bd: usize,
) -> [u8; 4]
    requires y { CanTally T.number (frame_shape crop_w crop_h bd) 0 rec.now.planes.y
        input.now.planes.y }
    requires u { CanTally T.number (frame_shape crop_w crop_h bd) 1 rec.now.planes.u
        input.now.planes.u }
    requires v { CanTally T.number (frame_shape crop_w crop_h bd) 2 rec.now.planes.v
        input.now.planes.v }
    requires blocks { CoversBlocks crop_w crop_h blocks.now }
    requires sides { AreCropSides crop_w crop_h }
    requires depth { IsDepth bd }
    ensures { AreBest (blocks_in blocks.now)
        (measured_frame T.number (frame_shape crop_w crop_h bd) rec.now input.now) result }
{
    let (vertical, horizontal) = luma_levels(
        &rec.planes.y,
        &input.planes.y,
        blocks,
        crop_w,
        crop_h,
        bd,
    );
    let u = chroma_level(
        &rec.planes.u,
        &input.planes.u,
        1,
        blocks,
        crop_w,
        crop_h,
        bd,
    );
    let v = chroma_level(
        &rec.planes.v,
        &input.planes.v,
        2,
        blocks,
        crop_w,
        crop_h,
        bd,
    );
    [vertical, horizontal, u, v]
}

/// The levels for a frame of `crop_w` by `crop_h` luma samples: those of least error between what was
/// coded and its input, or those guessed from the quantiser where `fast_deblock` is set.
pub fn deblock_filter_optimize<T: Pixel, U: Pixel>(
    fi: &FrameInvariants<T>,
    rec: &Tile<'_, U>,
    input: &Tile<'_, U>,
    blocks: &TileBlocks<'_>,
    crop_w: usize,
    crop_h: usize,
) -> [u8; 4]
    requires y { CanTally U.number (frame_shape crop_w crop_h fi.now.sequence.bit_depth) 0
        rec.now.planes.y input.now.planes.y }
    requires u { CanTally U.number (frame_shape crop_w crop_h fi.now.sequence.bit_depth) 1
        rec.now.planes.u input.now.planes.u }
    requires v { CanTally U.number (frame_shape crop_w crop_h fi.now.sequence.bit_depth) 2
        rec.now.planes.v input.now.planes.v }
    requires blocks { CoversBlocks crop_w crop_h blocks.now }
    requires sides { AreCropSides crop_w crop_h }
    requires depth { IsDepth fi.now.sequence.bit_depth }
    ensures { AreLevels fi.now (blocks_in blocks.now)
        (measured_frame U.number (frame_shape crop_w crop_h fi.now.sequence.bit_depth) rec.now
        input.now) result }
{
    if fi.fast_deblock {
        let key = matches!(fi.frame_type, FrameType::KEY);
        let level = fast_level(fi.ac_quantizer, fi.sequence.bit_depth, key);
        return [level, level, level, level];
    }
    best_levels(rec, input, blocks, crop_w, crop_h, fi.sequence.bit_depth)
}
