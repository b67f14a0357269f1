//! Where tile `n` lies. Superblocks have 64 samples a side.
ghost use Rattle.std.specs.Prelude.{◌≡◌, ◌<◌, ◌≤◌, ◌+◌, ◌-◌, ◌*◌, ◌^◌, min};
ghost use Rattle.av1_tiling.specs.TileRects.{tile_column, tile_row, tile_superblock, block_columns, block_rows};

use crate::tiling_info::TilingInfo;
use av1_plane::{PlaneSuperBlockOffset, SuperBlockOffset, TileRect};

/// The tile's first superblock.
pub(crate) fn tile_superblock(tiling: &TilingInfo, n: usize) -> PlaneSuperBlockOffset
    requires some { 0 < tiling.now.cols }
    requires x { tile_column tiling.now n * tiling.now.tile_width_sb < 2 ^ 20 }
    requires y { tile_row tiling.now n * tiling.now.tile_height_sb < 2 ^ 20 }
    ensures { (result.0.x, result.0.y) ≡ tile_superblock tiling.now n }
{
    PlaneSuperBlockOffset(SuperBlockOffset {
        x: n % tiling.cols * tiling.tile_width_sb,
        y: n / tiling.cols * tiling.tile_height_sb,
    })
}

/// The tile's width in luma samples, cut to the frame.
pub(crate) fn tile_width(tiling: &TilingInfo, sbo: PlaneSuperBlockOffset) -> usize
    requires x { sbo.0.x < 2 ^ 20 }
    requires tile { tiling.now.tile_width_sb < 2 ^ 20 }
    ensures { result ≡ min (tiling.now.tile_width_sb * 64) (tiling.now.frame_width - sbo.0.x * 64) }
{
    let left = tiling.frame_width.saturating_sub(sbo.0.x * 64);
    left.min(tiling.tile_width_sb * 64)
}

/// The tile's height in luma samples, cut to the frame.
pub(crate) fn tile_height(tiling: &TilingInfo, sbo: PlaneSuperBlockOffset) -> usize
    requires y { sbo.0.y < 2 ^ 20 }
    requires tile { tiling.now.tile_height_sb < 2 ^ 20 }
    ensures { result
        ≡ min (tiling.now.tile_height_sb * 64) (tiling.now.frame_height - sbo.0.y * 64) }
{
    let left = tiling.frame_height.saturating_sub(sbo.0.y * 64);
    left.min(tiling.tile_height_sb * 64)
}

/// The tile's blocks: those of its superblocks, cut to the table.
pub(crate) fn tile_blocks(tiling: &TilingInfo, sbo: PlaneSuperBlockOffset) -> TileRect
    requires x { sbo.0.x < 2 ^ 20 }
    requires y { sbo.0.y < 2 ^ 20 }
    requires width { tiling.now.tile_width_sb < 2 ^ 20 }
    requires height { tiling.now.tile_height_sb < 2 ^ 20 }
    ensures x { result.x ≡ sbo.0.x * 16 }
    ensures y { result.y ≡ sbo.0.y * 16 }
    ensures width { result.width
        ≡ min (tiling.now.tile_width_sb * 16) (block_columns tiling.now - sbo.0.x * 16) }
    ensures height { result.height
        ≡ min (tiling.now.tile_height_sb * 16) (block_rows tiling.now - sbo.0.y * 16) }
{
    let x = sbo.0.x * 16;
    let y = sbo.0.y * 16;
    TileRect {
        x,
        y,
        width: (tiling.frame_width / 4)
            .saturating_sub(x)
            .min(tiling.tile_width_sb * 16),
        height: (tiling.frame_height / 4)
            .saturating_sub(y)
            .min(tiling.tile_height_sb * 16),
    }
}
