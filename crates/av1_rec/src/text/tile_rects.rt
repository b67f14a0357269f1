//! Where a tile of a grid lies in its frame. Superblocks have 64 samples a side.
ghost use Rattle.std.specs.Prelude.{◌≡◌, ◌<◌, ◌≤◌, ◌+◌, ◌*◌, ◌/◌, ◌-◌, ◌^◌, min};
ghost use Rattle.std.specs.Int.{div_ceil};
ghost use Rattle.av1_tiling.specs.TileRects.{tile_superblock, tile_luma, tile_samples, tile_blocks, tile_units};
ghost use Rattle.av1_rec.specs.Tiles.{IsTileNumber};
ghost use Rattle.av1_rec.specs.UnitTables.{IsUnitLayout};

use av1_plane::TileRect;
use av1_tiling::{RestorationPlaneConfig, TilingInfo};

// The tile's first superblock: its column and its row.
fn tile_superblock(tiling: &TilingInfo, n: usize) -> (usize, usize)
    requires { IsTileNumber tiling.now n }
    ensures { result ≡ tile_superblock tiling.now n }
{
    (
        n % tiling.cols * tiling.tile_width_sb,
        n / tiling.cols * tiling.tile_height_sb,
    )
}

// `count` units of a side, cut to what is left.
fn cut_side(count: usize, unit: usize, left: usize) -> usize
    ensures { result ≡ min (count * unit) left }
{
    count.saturating_mul(unit).min(left)
}

/// The tile's luma samples, cut to the frame.
#[tactic(auto, using(crate::proofs::TileFacts::luma_rect))]
pub fn tile_luma(tiling: &TilingInfo, n: usize) -> TileRect
    requires { IsTileNumber tiling.now n }
    ensures rect { result ≡ tile_luma tiling.now n }
    ensures wide { (1 ≤ result.width) × (result.x + result.width ≤ 65536) }
    ensures high { (1 ≤ result.height) × (result.y + result.height ≤ 65536) }
{
    let (column, row) = tile_superblock(tiling, n);
    let x = column * 64;
    let y = row * 64;
    TileRect {
        x,
        y,
        width: cut_side(tiling.tile_width_sb, 64, tiling.frame_width - x),
        height: cut_side(tiling.tile_height_sb, 64, tiling.frame_height - y),
    }
}

/// The luma samples of the tile's view: the sides are rounded up to whole superblocks.
#[tactic(auto, using(crate::proofs::TileFacts::samples_rect))]
pub fn tile_samples(tiling: &TilingInfo, n: usize) -> TileRect
    requires { IsTileNumber tiling.now n }
    ensures { result ≡ tile_samples tiling.now n }
{
    let luma = tile_luma(tiling, n);
    TileRect {
        x: luma.x,
        y: luma.y,
        width: luma.width.div_ceil(64) * 64,
        height: luma.height.div_ceil(64) * 64,
    }
}

/// The tile's blocks: those of its superblocks, cut to the frame's table.
#[tactic(auto, using(crate::proofs::TileFacts::blocks_rect))]
pub fn tile_blocks(tiling: &TilingInfo, n: usize) -> TileRect
    requires { IsTileNumber tiling.now n }
    ensures rect { result ≡ tile_blocks tiling.now n }
    ensures wide { (1 ≤ result.width) × (result.x + result.width ≤ 16384) }
    ensures high { (1 ≤ result.height) × (result.y + result.height ≤ 16384) }
{
    let (column, row) = tile_superblock(tiling, n);
    let x = column * 16;
    let y = row * 16;
    TileRect {
        x,
        y,
        width: cut_side(tiling.tile_width_sb, 16, tiling.frame_width / 4 - x),
        height: cut_side(tiling.tile_height_sb, 16, tiling.frame_height / 4 - y),
    }
}

// Where a tile's units begin and how many there are along a side: the tile has `superblocks` superblocks
// from `superblock` on, and a unit has `2^shift` superblocks.
#[tactic(auto, using(crate::proofs::TileFacts::few_units))]
fn units_along(superblock: usize, superblocks: usize, shift: usize, units: usize) -> (usize, usize)
    requires { shift ≤ 8 }
    ensures first { result.0 ≡ min (superblock / 2 ^ shift) units }
    ensures count { result.1 ≡ min (div_ceil superblocks (2 ^ shift))
        (units - min (superblock / 2 ^ shift) units) }
    ensures near { result.0 ≤ superblock }
    ensures few { result.1 ≤ superblocks }
{
    let side = 1 << shift;
    let first = (superblock / side).min(units);
    (first, superblocks.div_ceil(side).min(units - first))
}

/// The tile's units of a plane.
#[tactic(auto, using(crate::proofs::TileFacts::units_rect))]
pub fn tile_units(tiling: &TilingInfo, cfg: &RestorationPlaneConfig, n: usize) -> TileRect
    requires tile { IsTileNumber tiling.now n }
    requires layout { IsUnitLayout cfg.now }
    ensures rect { result ≡ tile_units tiling.now cfg.now.sb_h_shift cfg.now.sb_v_shift
        cfg.now.cols cfg.now.rows n }
    ensures x { result.x ≤ 1024 }
    ensures y { result.y ≤ 1024 }
    ensures wide { result.width ≤ 1024 }
    ensures high { result.height ≤ 1024 }
{
    let (column, row) = tile_superblock(tiling, n);
    let across = (tiling.frame_width.div_ceil(64) - column).min(tiling.tile_width_sb);
    let down = (tiling.frame_height.div_ceil(64) - row).min(tiling.tile_height_sb);
    let (x, width) = units_along(column, across, cfg.sb_h_shift, cfg.cols);
    let (y, height) = units_along(row, down, cfg.sb_v_shift, cfg.rows);
    TileRect {
        x,
        y,
        width,
        height,
    }
}
