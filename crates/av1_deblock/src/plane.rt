ghost use Rattle.std.specs.Prelude.{◌≡◌, ◌==◌, ◌+◌, ◌*◌, ◌/◌, ◌<◌, ◌≤◌, ◌^◌, true, false};
ghost use Rattle.av1_plane.specs.Region.{numbers_under, first_place, row_step, IsSamePart};
ghost use Rattle.av1_plane.specs.Numbers.{IsDepth};
ghost use Rattle.av1_deblock.specs.Levels.{by_state, level_index, IsLevelled};
ghost use Rattle.av1_deblock.specs.Edges.{blocks_in};
ghost use Rattle.av1_deblock.specs.Passes.{is_halved, units, grid_of, frame_plane, raster_under, filtered, block_edges, plane_cols, plane_rows, plane_edges, passed, has_level, is_empty, deblocked_plane};
ghost use Rattle.av1_deblock.specs.Conditions.{IsDecimated, AreCropSides, CoversPlane, CoversBlocks, HasDepth};

use crate::grid::Grid;
use crate::pass::{Pass, filter_edges};
use av1_block::TileBlocks;
use av1_plane::{Pixel, PlaneConfig, PlaneRegionMut};
use av1_tiling::DeblockState;

fn units_of(half: bool, side: usize) -> usize
    requires { side ≤ 65536 }
    ensures { result ≡ units half side }
{
    let luma = (side + 3) / 4;
    if half { (luma + 1) / 2 } else { luma }
}

fn has_half(pli: usize, dec: usize) -> bool
    ensures { result ≡ is_halved pli dec }
{
    pli != 0 && dec == 1
}

pub fn grid_in(pli: usize, cfg: &PlaneConfig, vertical: bool, crop_w: usize, crop_h: usize) -> Grid
    requires sides { AreCropSides crop_w crop_h }
    ensures { result ≡ grid_of pli cfg.now vertical crop_w crop_h }
{
    let half_x = has_half(pli, cfg.xdec);
    let half_y = has_half(pli, cfg.ydec);
    Grid {
        luma: pli == 0,
        vertical,
        half_x,
        half_y,
        cols: units_of(half_x, crop_w),
        rows: units_of(half_y, crop_h),
    }
}

fn level_index_of(pli: usize, vertical: bool) -> usize
    requires { pli ≤ 2 }
    ensures value { result ≡ level_index pli vertical }
    ensures inside { result < 4 }
{
    if pli == 0 {
        usize::from(!vertical)
    } else {
        pli + 1
    }
}

fn is_filtered(deblock: &DeblockState, pli: usize) -> bool
    ensures { result ≡ has_level deblock.now pli }
{
    match pli {
        0 => deblock.levels[0] != 0 || deblock.levels[1] != 0,
        1 => deblock.levels[2] != 0,
        2 => deblock.levels[3] != 0,
        _ => false,
    }
}

pub fn has_no_sample(cfg: &PlaneConfig) -> bool
    ensures { result ≡ is_empty cfg.now }
{
    cfg.width == 0 || cfg.height == 0
}

// All edges of one direction. Inlined, so that the walk is compiled for each direction by itself.
#[inline(always)]
fn filter_direction<T: Pixel>(
    deblock: &DeblockState,
    p: &mut PlaneRegionMut<'_, T>,
    pli: usize,
    vertical: bool,
    blocks: &TileBlocks<'_>,
    crop_w: usize,
    crop_h: usize,
    bd: usize,
)
    requires plane { pli ≤ 2 }
    requires filled { is_empty p.old.plane_cfg ≡ false }
    requires decimated { IsDecimated pli p.old.plane_cfg }
    requires levels { IsLevelled deblock.now }
    requires region { CoversPlane crop_w crop_h p.old }
    requires blocks { CoversBlocks crop_w crop_h blocks.now }
    requires sides { AreCropSides crop_w crop_h }
    requires depth { IsDepth bd }
    requires limit { 2 ^ bd ≤ T.limit }
    requires range { HasDepth bd crop_w crop_h T.number p.old }
    ensures part { IsSamePart p.old p.new }
    ensures value { numbers_under T.number p.new
        ≡ filtered (raster_under bd T.number p.old)
        (plane_edges (frame_plane pli p.old.plane_cfg crop_w crop_h) (by_state deblock.now)
        (blocks_in blocks.now) vertical) }
    ensures range { HasDepth bd crop_w crop_h T.number p.new }
{
    let grid = grid_in(pli, &p.plane_cfg, vertical, crop_w, crop_h);
    let level_index = level_index_of(pli, vertical);
    let pass = Pass {
        grid,
        deblock,
        level_index,
        depth: bd,
    };
    filter_edges(p, &pass, blocks);
}

#[inline(always)]
#[tactic(auto, using(crate::proofs::Planes::passes))]
fn filter_plane<T: Pixel>(
    deblock: &DeblockState,
    p: &mut PlaneRegionMut<'_, T>,
    pli: usize,
    blocks: &TileBlocks<'_>,
    crop_w: usize,
    crop_h: usize,
    bd: usize,
)
    requires plane { pli ≤ 2 }
    requires filled { is_empty p.old.plane_cfg ≡ false }
    requires decimated { IsDecimated pli p.old.plane_cfg }
    requires levels { IsLevelled deblock.now }
    requires region { CoversPlane crop_w crop_h p.old }
    requires blocks { CoversBlocks crop_w crop_h blocks.now }
    requires sides { AreCropSides crop_w crop_h }
    requires depth { IsDepth bd }
    requires limit { 2 ^ bd ≤ T.limit }
    requires range { HasDepth bd crop_w crop_h T.number p.old }
    ensures part { IsSamePart p.old p.new }
    ensures value { let plane = frame_plane pli p.old.plane_cfg crop_w crop_h in
        numbers_under T.number p.new
        ≡ passed (raster_under bd T.number p.old) (plane_cols plane) (plane_rows plane)
        (block_edges plane (by_state deblock.now) (blocks_in blocks.now)) }
    ensures range { HasDepth bd crop_w crop_h T.number p.new }
{
    filter_direction(deblock, p, pli, true, blocks, crop_w, crop_h, bd);
    filter_direction(deblock, p, pli, false, blocks, crop_w, crop_h, bd);
}

/// Deblocks a plane of a frame of `crop_w` by `crop_h` luma samples: all vertical edges, then all
/// horizontal ones (AV1 specification, section 7.14.1).
///
/// `pli` is 0 for luma, 1 for U and 2 for V. A plane whose levels are 0 stays as it is, and so do an
/// empty plane and any plane above 2.
#[tactic(auto, using(crate::proofs::Planes::passes), unfolding(crate::specs::Passes::deblocked_plane))]
pub fn deblock_plane<T: Pixel>(
    deblock: &DeblockState,
    p: &mut PlaneRegionMut<'_, T>,
    pli: usize,
    blocks: &TileBlocks<'_>,
    crop_w: usize,
    crop_h: usize,
    bd: usize,
)
    requires decimated { IsDecimated pli p.old.plane_cfg }
    requires levels { IsLevelled deblock.now }
    requires region { CoversPlane crop_w crop_h p.old }
    requires blocks { CoversBlocks crop_w crop_h blocks.now }
    requires sides { AreCropSides crop_w crop_h }
    requires depth { IsDepth bd }
    requires limit { 2 ^ bd ≤ T.limit }
    requires range { HasDepth bd crop_w crop_h T.number p.old }
    ensures part { IsSamePart p.old p.new }
    ensures value { numbers_under T.number p.new
        ≡ deblocked_plane deblock.now (frame_plane pli p.old.plane_cfg crop_w crop_h)
        (blocks_in blocks.now) (raster_under bd T.number p.old) }
    ensures range { HasDepth bd crop_w crop_h T.number p.new }
{
    if !is_filtered(deblock, pli) || has_no_sample(&p.plane_cfg) {
        return;
    }
    // Luma and chroma are walked by themselves too, so that no place asks which plane it is in.
    if pli == 0 {
        filter_plane(deblock, p, 0, blocks, crop_w, crop_h, bd);
    } else {
        filter_plane(deblock, p, pli, blocks, crop_w, crop_h, bd);
    }
}
