//! How large the units of a frame are.
ghost use Rattle.std.specs.Prelude.{◌≡◌, ◌+◌, ◌*◌, ◌/◌, ◌^◌, ◌<◌, ◌≤◌, min, IfOk};
ghost use Rattle.std.specs.Int.{w64, trailing_zeros};
ghost use Rattle.av1_plane.specs.Layout.{visible};
ghost use Rattle.av1_tiling.specs.Frames.{IsFrame};
ghost use Rattle.av1_tiling.specs.Restoration.{units_of, blank_units};
ghost use Rattle.av1_tiling.specs.UnitSizes.{
  shifts,
  is_420,
  superblock_log2,
  base_shift,
  is_stretched_side,
  is_stretched,
  chroma_shift,
  large_sizes,
  small_sizes,
  wanted_sizes,
  kept_in_tiles,
  tile_sizes,
  unit_sizes,
  unit_count,
  unit_log2,
  unit_layout,
};

use crate::frame_invariants::FrameInvariants;
use crate::restoration::RESTORE_SWITCHABLE;
use crate::restoration_plane::{RestorationPlane, RestorationPlaneConfig};
use av1_block::FrameRestorationUnits;
use av1_plane::{OutOfMemory, Pixel};
use std::alloc::Global;

/// The sides of luma and chroma units.
#[derive(Clone, Copy)]
pub struct UnitSizes {
    pub luma: usize,
    pub chroma: usize,
}

// The logarithm of a superblock's side.
fn superblock_log2<T: Pixel>(fi: &FrameInvariants<T>) -> usize
    ensures value { result ≡ superblock_log2 fi.now }
    ensures least { 6 ≤ result }
    ensures most { result ≤ 7 }
{
    if fi.sequence.use_128x128_superblock {
        7
    } else {
        6
    }
}

// A superblock's side.
fn superblock_side<T: Pixel>(fi: &FrameInvariants<T>) -> usize
    ensures value { result ≡ 2 ^ superblock_log2 fi.now }
    ensures least { 64 ≤ result }
    ensures most { result ≤ 128 }
{
    if fi.sequence.use_128x128_superblock {
        128
    } else {
        64
    }
}

// A side in a plane that is smaller by this shift.
fn decimated(side: usize, dec: usize) -> usize
    requires { dec ≤ 1 }
    ensures value { result ≡ side / 2 ^ dec }
    ensures least { side ≤ 2 * result + 1 }
    ensures most { result ≤ side }
{
    match dec {
        0 => side,
        _ => side / 2,
    }
}

// How often the largest unit is halved for the quantiser.
fn base_shift<T: Pixel>(fi: &FrameInvariants<T>) -> usize
    ensures value { result ≡ base_shift fi.now }
    ensures most { result ≤ 2 }
{
    if fi.base_q_idx > 200 {
        0
    } else if fi.base_q_idx > 160 || fi.sequence.use_128x128_superblock {
        1
    } else {
        2
    }
}

fn is_stretched_side(unit: usize, side: usize) -> bool
    requires { 0 < unit }
    ensures { result ≡ is_stretched_side unit side }
{
    (side / 2).saturating_sub(1) % unit <= unit / 2
}

fn is_stretched<T: Pixel>(fi: &FrameInvariants<T>, unit: usize) -> bool
    requires { 0 < unit }
    ensures { result ≡ is_stretched fi.now unit }
{
    is_stretched_side(unit, fi.width) || is_stretched_side(unit, fi.height)
}

// How often a chroma unit is halved beside luma's.
fn chroma_shift<T: Pixel>(fi: &FrameInvariants<T>) -> usize
    ensures value { result ≡ chroma_shift fi.now }
    ensures most { result ≤ 1 }
{
    let base = base_shift(fi);
    let unit = 256 >> base;
    if base == 2 || (is_stretched(fi, unit) && !is_stretched(fi, unit / 2)) {
        1
    } else {
        0
    }
}

// The sizes by the quantiser.
fn large_sizes<T: Pixel>(fi: &FrameInvariants<T>, ydec: usize) -> UnitSizes
    requires { ydec ≡ (shifts fi.now).1 }
    ensures value { result ≡ large_sizes fi.now }
    ensures luma { result.luma ≤ 256 }
    ensures chroma { result.chroma ≤ 256 }
    ensures least_luma { 32 ≤ result.luma }
    ensures least_chroma { 32 ≤ result.chroma }
{
    let luma = 256 >> base_shift(fi);
    let chroma = if ydec == 1 {
        luma >> chroma_shift(fi)
    } else {
        luma
    };
    UnitSizes { luma, chroma }
}

// The sizes by the superblock.
fn small_sizes<T: Pixel>(fi: &FrameInvariants<T>, ydec: usize) -> UnitSizes
    requires { ydec ≡ (shifts fi.now).1 }
    ensures value { result ≡ small_sizes fi.now }
    ensures luma { result.luma ≤ 256 }
    ensures chroma { result.chroma ≤ 256 }
    ensures least_luma { 32 ≤ result.luma }
    ensures least_chroma { 32 ≤ result.chroma }
{
    let luma = superblock_side(fi);
    let chroma = if ydec == 1 { luma / 2 } else { luma };
    UnitSizes { luma, chroma }
}

fn wanted_sizes<T: Pixel>(fi: &FrameInvariants<T>, ydec: usize) -> UnitSizes
    requires { ydec ≡ (shifts fi.now).1 }
    ensures value { result ≡ wanted_sizes fi.now }
    ensures luma { result.luma ≤ 256 }
    ensures chroma { result.chroma ≤ 256 }
    ensures least_luma { 32 ≤ result.luma }
    ensures least_chroma { 32 ≤ result.chroma }
{
    if fi.sequence.enable_large_lru && fi.sequence.enable_restoration {
        large_sizes(fi, ydec)
    } else {
        small_sizes(fi, ydec)
    }
}

// A unit kept to as many superblocks as the greatest power of two that divides a tile's side. A unit is
// at most 256, which are eight superblocks of 32 samples.
fn kept_to(unit: usize, side: usize, count: usize) -> usize
    requires unit { unit ≤ 256 }
    requires least_unit { 32 ≤ unit }
    requires side { side ≤ 128 }
    requires least_side { 32 ≤ side }
    ensures value { result ≡ min unit (side * 2 ^ trailing_zeros w64 count) }
    ensures most { result ≤ 256 }
    ensures least { 32 ≤ result }
{
    let zeros = count.trailing_zeros().min(3);
    unit.min(side << zeros)
}

fn kept_in_tiles<T: Pixel>(fi: &FrameInvariants<T>, xdec: usize, ydec: usize, unit: usize) -> usize
    requires xdec { xdec ≤ 1 }
    requires ydec { ydec ≤ 1 }
    requires unit { unit ≤ 256 }
    requires least_unit { 32 ≤ unit }
    ensures value { result ≡ kept_in_tiles fi.now (xdec, ydec) unit }
    ensures most { result ≤ 256 }
    ensures least { 32 ≤ result }
{
    let side = superblock_side(fi);
    let tiling = fi.sequence.tiling;
    let across = kept_to(unit, decimated(side, xdec), tiling.tile_width_sb);
    kept_to(across, decimated(side, ydec), tiling.tile_height_sb)
}

fn tile_sizes<T: Pixel>(fi: &FrameInvariants<T>, xdec: usize, ydec: usize) -> UnitSizes
    requires xdec { xdec ≤ 1 }
    requires ydec { ydec ≤ 1 }
    requires shifts { (xdec, ydec) ≡ shifts fi.now }
    ensures value { result ≡ tile_sizes fi.now }
    ensures luma { result.luma ≤ 256 }
    ensures chroma { result.chroma ≤ 256 }
    ensures least_luma { 32 ≤ result.luma }
    ensures least_chroma { 32 ≤ result.chroma }
{
    let wanted = wanted_sizes(fi, ydec);
    let tiling = fi.sequence.tiling;
    if tiling.cols > 1 || tiling.rows > 1 {
        UnitSizes {
            luma: kept_in_tiles(fi, 0, 0, wanted.luma),
            chroma: kept_in_tiles(fi, xdec, ydec, wanted.chroma),
        }
    } else {
        wanted
    }
}

/// The sizes of a frame's units, whose chroma planes have these shifts.
#[tactic(auto, unfolding(crate::specs::UnitSizes::unit_sizes))]
pub fn unit_sizes<T: Pixel>(fi: &FrameInvariants<T>, xdec: usize, ydec: usize) -> UnitSizes
    requires xdec { xdec ≤ 1 }
    requires ydec { ydec ≤ 1 }
    requires shifts { (xdec, ydec) ≡ shifts fi.now }
    ensures value { result ≡ unit_sizes fi.now }
    ensures luma { result.luma ≤ 256 }
    ensures chroma { result.chroma ≤ 256 }
    ensures least_luma { 32 ≤ result.luma }
    ensures least_chroma { 32 ≤ result.chroma }
{
    let kept = tile_sizes(fi, xdec, ydec);
    if ydec == 1 {
        kept
    } else {
        let least = kept.luma.min(kept.chroma);
        UnitSizes {
            luma: least,
            chroma: least,
        }
    }
}

// How many units a side has.
fn unit_count(unit: usize, side: usize) -> usize
    requires unit { 32 ≤ unit }
    requires most { unit ≤ 256 }
    requires side { side ≤ 65536 }
    ensures value { result ≡ unit_count unit side }
    ensures few { result ≤ 16384 }
{
    ((side + unit / 2) / unit).max(1)
}

fn unit_log2(unit: usize) -> usize
    ensures { result ≡ unit_log2 unit }
{
    match unit {
        256 => 8,
        128 => 7,
        64 => 6,
        _ => 5,
    }
}

// The visible side of a plane.
fn visible_side(side: usize, dec: usize) -> usize
    requires dec { dec ≤ 1 }
    requires side { side ≤ 65536 }
    ensures value { result ≡ visible side dec }
    ensures most { result ≤ 65536 }
{
    match dec {
        0 => side,
        _ => side - side / 2,
    }
}

/// How the units of a plane with these shifts lie.
pub fn unit_layout<T: Pixel>(
    fi: &FrameInvariants<T>,
    unit: usize,
    xdec: usize,
    ydec: usize,
) -> RestorationPlaneConfig
    requires width { fi.now.width ≤ 65536 }
    requires height { fi.now.height ≤ 65536 }
    requires unit { unit ≤ 256 }
    requires least_unit { 32 ≤ unit }
    requires xdec { xdec ≤ 1 }
    requires ydec { ydec ≤ 1 }
    ensures layout { result ≡ unit_layout fi.now unit (xdec, ydec) }
    ensures cols { result.cols ≤ 16384 }
    ensures rows { result.rows ≤ 16384 }
{
    let superblock = superblock_log2(fi);
    let log2 = unit_log2(unit);
    RestorationPlaneConfig {
        lrf_type: RESTORE_SWITCHABLE,
        unit_size: unit,
        sb_h_shift: log2.saturating_sub(superblock - xdec),
        sb_v_shift: log2.saturating_sub(superblock - ydec),
        sb_cols: fi.sb_width,
        sb_rows: fi.sb_height,
        stripe_height: if ydec == 0 { 64 } else { 32 },
        cols: unit_count(unit, visible_side(fi.width, xdec)),
        rows: unit_count(unit, visible_side(fi.height, ydec)),
    }
}

/// The units of a plane with these shifts, all of which leave their samples as they are.
pub fn plane_units<T: Pixel>(
    alloc: Global,
    fi: &FrameInvariants<T>,
    unit: usize,
    xdec: usize,
    ydec: usize,
) -> Result<RestorationPlane, OutOfMemory>
    requires width { fi.now.width ≤ 65536 }
    requires height { fi.now.height ≤ 65536 }
    requires unit { unit ≤ 256 }
    requires least_unit { 32 ≤ unit }
    requires xdec { xdec ≤ 1 }
    requires ydec { ydec ≤ 1 }
    ensures { IfOk result (λ made.
        units_of made ≡ blank_units (unit_layout fi.now unit (xdec, ydec))) }
{
    let cfg = unit_layout(fi, unit, xdec, ydec);
    let units = FrameRestorationUnits::new(alloc, cfg.cols, cfg.rows)?;
    Ok(RestorationPlane { cfg, units })
}
