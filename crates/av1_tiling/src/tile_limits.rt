ghost use Rattle.std.specs.Prelude.{◌≡◌, ◌+◌, ◌*◌, ◌^◌, ◌<◌, ◌≤◌};
ghost use Rattle.std.specs.Int.{div_ceil};
ghost use Rattle.av1_tiling.specs.Least.{tile_log2, IsTileLog2};
ghost use Rattle.av1_tiling.specs.Grid.{is_side, min_cols_log2, max_count_log2, min_tiles_log2, rate_log2, width_of};

use crate::tiling_info::{
    MAX_TILE_AREA, MAX_TILE_COLS, MAX_TILE_RATE, MAX_TILE_ROWS, MAX_TILE_WIDTH, TilingInfo,
};

/// What the greatest sides and counts of tiles leave of the numbers of columns, of rows and of tiles.
#[derive(Clone, Copy)]
pub struct TileLimits {
    pub min_tile_cols_log2: usize,
    pub max_tile_cols_log2: usize,
    pub max_tile_rows_log2: usize,
    pub min_tiles_log2: usize,
}

impl TileLimits {
    /// The limits in a frame of these superblocks.
    pub fn new(sb_size_log2: usize, sb_cols: usize, sb_rows: usize) -> TileLimits
        requires side { (6 ≤ sb_size_log2) × (sb_size_log2 ≤ 7) }
        requires cols { (0 < sb_cols) × (sb_cols ≤ 1024) }
        requires rows { (0 < sb_rows) × (sb_rows ≤ 1024) }
        ensures min_cols { result.min_tile_cols_log2 ≡ min_cols_log2 sb_size_log2 sb_cols }
        ensures max_cols { result.max_tile_cols_log2 ≡ max_count_log2 sb_cols }
        ensures max_rows { result.max_tile_rows_log2 ≡ max_count_log2 sb_rows }
        ensures ordered { result.min_tile_cols_log2 ≤ result.max_tile_cols_log2 }
        ensures few { (result.max_tile_cols_log2 ≤ 6) × (result.max_tile_rows_log2 ≤ 6) }
        ensures min_tiles { result.min_tiles_log2 ≡ min_tiles_log2 sb_size_log2 sb_cols sb_rows }
    {
        let max_tile_width_sb = MAX_TILE_WIDTH >> sb_size_log2;
        let max_tile_area_sb = MAX_TILE_AREA >> (2 * sb_size_log2);
        let min_tile_cols_log2 = reached_log2(max_tile_width_sb, sb_cols);
        let min_area_log2 = reached_log2(max_tile_area_sb, sb_cols * sb_rows);
        TileLimits {
            min_tile_cols_log2,
            max_tile_cols_log2: reached_log2(1, sb_cols.min(MAX_TILE_COLS)),
            max_tile_rows_log2: reached_log2(1, sb_rows.min(MAX_TILE_ROWS)),
            min_tiles_log2: min_tile_cols_log2.max(min_area_log2),
        }
    }
}

/// The least logarithm of tiles of which none has more than `MAX_TILE_RATE` samples a second,
/// at `num / den` frames a second of `samples` samples each.
pub fn rate_log2(samples: usize, num: u32, den: u32) -> usize
    requires samples { samples ≤ 2 ^ 32 }
    requires rate { 0 < den }
    ensures { result ≡ rate_log2 samples num den }
{
    let rate = samples as u64 * u64::from(num);
    let tiles = rate.div_ceil(MAX_TILE_RATE * u64::from(den));
    reached_log2(1, tiles as usize)
}

/// `TilingInfo::tile_log2` where a shift serves.
pub fn reached_log2(blk_size: usize, target: usize) -> usize
    requires block { (0 < blk_size) × (blk_size < 2 ^ 24) }
    requires target { target ≤ 2 ^ 40 }
    ensures least { IsTileLog2 blk_size target result }
    ensures value { result ≡ tile_log2 blk_size target }
{
    match TilingInfo::tile_log2(blk_size, target) {
        Some(k) => k,
        None => unreachable!(),
    }
}

/// Whether a frame may have such a side.
pub fn is_side(side: usize) -> bool
    ensures { result ≡ is_side side }
{
    0 < side && side <= 65536
}

/// A frame side in superblocks, the last of which may reach past it.
pub fn superblocks(side: usize, sb_size_log2: usize) -> usize
    requires side { (0 < side) × (side ≤ 65536) }
    requires log2 { (6 ≤ sb_size_log2) × (sb_size_log2 ≤ 7) }
    ensures value { result ≡ div_ceil side (2 ^ sb_size_log2) }
    ensures count { (0 < result) × (result ≤ 1024) }
{
    align_power_of_two_and_shift(side, sb_size_log2)
}

/// The width of a tile in superblocks. It is even at 4:2:2, where a restoration unit of chroma covers
/// two superblocks.
pub fn tile_width(sb_cols: usize, tile_cols_log2: usize, is_422_p: bool) -> usize
    requires cols { (0 < sb_cols) × (sb_cols ≤ 1024) }
    requires log2 { tile_cols_log2 < 64 }
    ensures value { result ≡ width_of sb_cols tile_cols_log2 is_422_p }
    ensures count { (0 < result) × (result ≤ 1024) }
{
    let width = align_power_of_two_and_shift(sb_cols, tile_cols_log2);
    if is_422_p {
        width.next_multiple_of(2)
    } else {
        width
    }
}

/// `count` in parts of `2^log2`, the last of which may be smaller.
pub fn align_power_of_two_and_shift(count: usize, log2: usize) -> usize
    requires { log2 < 64 }
    ensures value { result ≡ div_ceil count (2 ^ log2) }
    ensures few { result ≤ count }
    ensures some { 0 < count → 0 < result }
{
    count.div_ceil(1 << log2)
}
