ghost use Rattle.std.specs.Prelude.{◌≡◌, ◌<◌, ◌*◌, ◌==◌, true, nat_lt, map, length, option_map};
ghost use Rattle.av1_rec.specs.Recorded.{begins_at, recorded_entry, recorded, recorded_meaning};

use crate::coder::recorded_rows::{planes_fit, write_planes};
use crate::coder::recorded_tile::RecordedTile;
use crate::coder::recorded_units::{units_fit, write_units};
use av1_frame::{CodeError, TileCoder};
use av1_plane::Pixel;
use av1_tiling::{TileContextMut, TilingInfo};
use std::alloc::Global;

/// A coder that gives recorded results again: `tiles` has the first tiles' results of `tiling`, row by
/// row.
#[derive(Drop)]
pub struct RecordedCoder<T> {
    pub tiling: TilingInfo,
    pub tiles: Vec<RecordedTile<T>>,
}

// Whether the grid has a tile `n`.
fn is_tile(tiling: &TilingInfo, n: usize) -> bool
    ensures value { result ≡ nat_lt n (tiling.now.cols * tiling.now.rows) }
    ensures columns { result ≡ true → 0 < tiling.now.cols }
{
    if tiling.cols == 0 {
        return false;
    }
    match tiling.cols.checked_mul(tiling.rows) {
        Some(count) => n < count,
        None => true,
    }
}

fn is_product(a: usize, b: usize, product: usize) -> bool
    ensures { result ≡ (a * b == product) }
{
    match a.checked_mul(b) {
        Some(value) => value == product,
        None => false,
    }
}

// Whether the grid has a tile `n`, whose first superblock is at column `x` of row `y`.
fn begins_at(tiling: &TilingInfo, x: usize, y: usize, n: usize) -> bool
    ensures { result ≡ begins_at tiling.now (x, y) n }
{
    is_tile(tiling, n)
        && is_product(n % tiling.cols, tiling.tile_width_sb, x)
        && is_product(n / tiling.cols, tiling.tile_height_sb, y)
}

// The first entry whose tile begins there.
#[tactic(auto, using(crate::proofs::RecordedEntries::entries))]
fn entry_at<'a, T: Pixel>(
    tiling: &TilingInfo,
    x: usize,
    y: usize,
    tiles: &'a [RecordedTile<T>],
) -> Option<&'a RecordedTile<T>>
    ensures { option_map (λ tile. recorded T.number tile.now) result
        ≡ recorded_entry tiling.now (x, y) 0 (map (recorded T.number) tiles.now) }
{
    let mut rest = tiles;
    let mut n = 0;
    while let Some((tile, others)) = rest.split_first() {
        if begins_at(tiling, x, y, n) {
            return Some(tile);
        }
        rest = others;
        n += 1;
    }
    None
}

impl<T: Pixel + Send + Sync> TileCoder<T> for RecordedCoder<T> {
    ghost meaning = { λ c v. recorded_meaning c.tiling (map (recorded T.number) c.tiles.items) v };

    /// Refuses a view where no tile begins, a view without a recorded result, and a view whose result
    /// has other sides.
    fn code(&self, alloc: Global, ctx: &mut TileContextMut<T>) -> Result<Vec<u8>, CodeError> {
        let sbo = ctx.ts.sbo.0;
        match entry_at(&self.tiling, sbo.x, sbo.y, &self.tiles) {
            Some(
                RecordedTile::Coded {
                    bytes,
                    rows,
                    blocks,
                    units,
                },
            ) => {
                let fits = planes_fit(&ctx.ts, rows) && units_fit(&ctx.ts, units);
                if !fits || blocks.len() != ctx.blocks().len() {
                    return Err(CodeError::Refused);
                }
                let Ok(bytes) = Vec::from_slice(alloc, bytes) else {
                    return Err(CodeError::OutOfMemory);
                };
                write_planes(&mut ctx.ts, rows);
                write_units(&mut ctx.ts, units);
                ctx.blocks_mut().copy_from_slice(blocks);
                Ok(bytes)
            }
            Some(RecordedTile::Refused) => Err(CodeError::Refused),
            None => Err(CodeError::Refused),
        }
    }
}
