use crate::tile_limits::{
    TileLimits, align_power_of_two_and_shift, is_side, rate_log2, reached_log2, superblocks,
    tile_width,
};
use crate::tiling_error::TilingError;

/// The greatest width of a tile, in luma samples.
pub const MAX_TILE_WIDTH: usize = 4096;
/// The greatest area of a tile, in luma samples.
pub const MAX_TILE_AREA: usize = 4096 * 2304;
/// The greatest number of columns of tiles.
pub const MAX_TILE_COLS: usize = 64;
/// The greatest number of rows of tiles.
pub const MAX_TILE_ROWS: usize = 64;
/// The greatest rate of a tile, in luma samples a second.
pub const MAX_TILE_RATE: u64 = 588251136;

/// How a frame is cut into tiles (AV1 specification, section 5.9.15).
#[derive(Clone, Copy, Debug, PartialEq, Eq)]
pub struct TilingInfo {
    /// The frame's sides, rounded up to whole blocks of 8 samples.
    pub frame_width: usize,
    pub frame_height: usize,
    /// The sides of each tile but the last of a row or column, in superblocks.
    pub tile_width_sb: usize,
    pub tile_height_sb: usize,
    /// The number of columns and rows of tiles.
    pub cols: usize,
    pub rows: usize,
    /// The logarithms of these numbers, rounded up.
    pub tile_cols_log2: usize,
    pub tile_rows_log2: usize,
    /// What the limits on a tile's sides, area and number leave of these logarithms.
    pub min_tile_cols_log2: usize,
    pub max_tile_cols_log2: usize,
    pub min_tile_rows_log2: usize,
    pub max_tile_rows_log2: usize,
    /// The logarithm of a superblock's side in luma samples.
    pub sb_size_log2: usize,
    /// The least logarithm of the number of tiles.
    pub min_tiles_log2: usize,
}

impl TilingInfo {
    ghost use Rattle.std.specs.Prelude.{ℕ, ◌≡◌, ◌≢◌, ◌⊎◌, ◌*◌, ◌^◌, ◌<◌, ◌↔◌, IfOk, IfSome, IsNone};
    ghost use Rattle.av1_tiling.specs.Least.{shifted, IsTileLog2};
    ghost use Rattle.av1_tiling.specs.Grid.{grid};

    /// The grid of a frame of these sides (1 to 65536), coded at `num / den` frames a second, for the
    /// wanted logarithms of columns and rows of tiles, which are kept to the limits (AV1 specification,
    /// section 5.9.15). `is_422_p` says that chroma is halved in width alone.
    ///
    /// There is no tiling for other sides, for superblocks other than 64 by 64 (`sb_size_log2` 6),
    /// for a `den` of 0, and where the rate of samples asks for more rows of tiles than there may be.
    pub fn from_target_tiles(
        sb_size_log2: usize,
        frame_width: usize,
        frame_height: usize,
        num: u32,
        den: u32,
        tile_cols_log2: usize,
        tile_rows_log2: usize,
        is_422_p: bool,
    ) -> Result<TilingInfo, TilingError>
        ensures tiling { IfOk result (λ t.
            grid sb_size_log2 frame_width frame_height num den tile_cols_log2 tile_rows_log2 is_422_p
            ≡ Some t) }
        ensures none { (result ≡ Err TilingError.NoTiling) ↔ ((sb_size_log2 ≢ 6) ⊎
            (grid sb_size_log2 frame_width frame_height num den tile_cols_log2 tile_rows_log2 is_422_p
            ≡ None)) }
    {
        if sb_size_log2 != 6 || !is_side(frame_width) || !is_side(frame_height) || den == 0 {
            return Err(TilingError::NoTiling);
        }
        let frame_width = frame_width.next_multiple_of(8);
        let frame_height = frame_height.next_multiple_of(8);
        let sb_cols = superblocks(frame_width, sb_size_log2);
        let sb_rows = superblocks(frame_height, sb_size_log2);
        let limits = TileLimits::new(sb_size_log2, sb_cols, sb_rows);
        let rate_tiles_log2 = limits
            .min_tiles_log2
            .max(rate_log2(frame_width * frame_height, num, den));

        let target_log2 = tile_cols_log2.clamp(
            limits.min_tile_cols_log2,
            limits.max_tile_cols_log2,
        );
        let tile_width_sb = tile_width(sb_cols, target_log2, is_422_p);
        let cols = sb_cols.div_ceil(tile_width_sb);
        // Rounding the width may have left fewer columns.
        let tile_cols_log2 = reached_log2(1, cols);

        let min_tile_rows_log2 = limits.min_tiles_log2.saturating_sub(tile_cols_log2);
        let rate_rows_log2 = rate_tiles_log2.saturating_sub(tile_cols_log2);
        if rate_rows_log2 > limits.max_tile_rows_log2 {
            return Err(TilingError::NoTiling);
        }
        let tile_rows_log2 = tile_rows_log2
            .max(min_tile_rows_log2)
            .clamp(rate_rows_log2, limits.max_tile_rows_log2);
        let tile_height_sb = align_power_of_two_and_shift(sb_rows, tile_rows_log2);
        Ok(TilingInfo {
            frame_width,
            frame_height,
            tile_width_sb,
            tile_height_sb,
            cols,
            rows: sb_rows.div_ceil(tile_height_sb),
            tile_cols_log2,
            tile_rows_log2,
            min_tile_cols_log2: limits.min_tile_cols_log2,
            max_tile_cols_log2: limits.max_tile_cols_log2,
            min_tile_rows_log2,
            max_tile_rows_log2: limits.max_tile_rows_log2,
            sb_size_log2,
            min_tiles_log2: limits.min_tiles_log2,
        })
    }

    /// The number of tiles.
    pub fn tile_count(&self) -> usize
        requires { self.now.cols * self.now.rows < 2 ^ 64 }
        ensures { result ≡ self.now.cols * self.now.rows }
    {
        self.cols * self.rows
    }

    /// The least `k` below 64 by which `blk_size`, shifted left, reaches `target`
    /// (AV1 specification, section 5.9.16). Bits shifted past the highest are lost.
    pub fn tile_log2(blk_size: usize, target: usize) -> Option<usize>
        ensures least { IfSome result (IsTileLog2 blk_size target) }
        ensures none { IsNone result ↔ ((k : ℕ) → k < 64 → shifted blk_size k < target) }
    {
        for k in 0..64 {
            if blk_size << k >= target {
                return Some(k);
            }
        }
        None
    }
}

#[cfg(test)]
mod tests {
    use super::*;

    #[test]
    fn grids(rt: HostRuntime) {
        // The frame's sides, its rate, the wanted logarithms and whether it is 4:2:2; then the numbers
        // of columns and rows, a tile's sides in superblocks and the logarithm of columns.
        let cases = [
            ((160, 144, 25, 1, 10, 8, false), (3, 3, 1, 1, 2)),
            ((160, 144, 25, 1, 0, 0, false), (1, 1, 3, 3, 0)),
            ((160, 144, 25, 1, 1, 1, false), (2, 2, 2, 2, 1)),
            ((160, 144, 25, 1, 2, 2, false), (3, 3, 1, 1, 2)),
            ((1024, 1024, 25, 1, 0, 0, false), (1, 1, 16, 16, 0)),
            ((192, 64, 25, 1, 2, 0, true), (2, 1, 2, 1, 1)),
            (
                (2360, 65528, 4109353321, 33759783, 0, 0, false),
                (1, 64, 37, 16, 0),
            ),
        ];
        for ((width, height, num, den, cols_log2, rows_log2, is_422), want) in cases {
            let answer = TilingInfo::from_target_tiles(
                6, width, height, num, den, cols_log2, rows_log2, is_422,
            );
            let t = answer.expect(&rt, "a tiling");
            let shape = (
                t.cols,
                t.rows,
                t.tile_width_sb,
                t.tile_height_sb,
                t.tile_cols_log2,
            );
            assert_eq!(rt; shape, want, "at {width} by {height}");
        }
    }

    #[test]
    fn no_grids(rt: HostRuntime) {
        // A superblock's logarithm, the frame's sides and its rate.
        let cases = [
            (6, 8, 8, 10000000, 1),
            (6, 8, 8, 25, 0),
            (6, 0, 8, 25, 1),
            (6, 8, 65537, 25, 1),
            (8, 64, 64, 25, 1),
        ];
        for (sb_size_log2, width, height, num, den) in cases {
            let answer = TilingInfo::from_target_tiles(
                sb_size_log2,
                width,
                height,
                num,
                den,
                0,
                0,
                false,
            );
            let none = Err(TilingError::NoTiling);
            assert_eq!(rt; answer, none, "at {width} by {height}, {num} / {den}");
        }
    }

    #[test]
    fn tiles_are_counted(rt: HostRuntime) {
        let answer = TilingInfo::from_target_tiles(6, 160, 144, 25, 1, 10, 8, false);
        let t = answer.expect(&rt, "a tiling");
        assert!(rt; t.cols <= 64 && t.rows <= 64);
        assert_eq!(rt; t.tile_count(), 9);
    }

    #[test]
    fn shifts(rt: HostRuntime) {
        assert_eq!(rt; TilingInfo::tile_log2(64, 1024), Some(4));
        assert_eq!(rt; TilingInfo::tile_log2(1, usize::MAX), None);
    }
}
