ghost use Rattle.std.specs.Prelude.{◌≡◌, ◌≤◌, ◌<◌, ◌++◌, ◌*◌, OnOk, IfOk};
ghost use Rattle.av1_rec.specs.GridText.{rect_text, tile_text, tile_texts, grid_line, grid_text};
ghost use Rattle.av1_rec.specs.Tiles.{IsTileNumber, AreTiles};

use crate::program::report::{put, put_spaced};
use crate::text::tile_rects::{tile_blocks, tile_samples};
use av1_plane::TileRect;
use av1_tiling::TilingInfo;
use std::alloc::{AllocError, Global};

// A rectangle's numbers, each behind a space.
#[tactic(auto, unfolding(crate::specs::GridText::rect_text))]
fn put_rect(out: &mut Vec<u8>, rect: TileRect) -> Result<(), AllocError>
    ensures { OnOk result (out.new.items ≡ out.old.items ++ rect_text rect) }
{
    put_spaced(out, rect.x as u64)?;
    put_spaced(out, rect.y as u64)?;
    put_spaced(out, rect.width as u64)?;
    put_spaced(out, rect.height as u64)
}

// The line of tile `n`.
#[tactic(auto, unfolding(crate::specs::GridText::tile_text))]
fn put_tile(out: &mut Vec<u8>, tiling: &TilingInfo, n: usize) -> Result<(), AllocError>
    requires { IsTileNumber tiling.now n }
    ensures { OnOk result (out.new.items ≡ out.old.items ++ tile_text tiling.now n) }
{
    put(out, b"tile")?;
    put_spaced(out, n as u64)?;
    put_rect(out, tile_samples(tiling, n))?;
    put_rect(out, tile_blocks(tiling, n))?;
    put(out, b"\n")
}

// The line of each tile.
fn put_tiles(out: &mut Vec<u8>, tiling: &TilingInfo) -> Result<(), AllocError>
    requires { AreTiles tiling.now }
    ensures { OnOk result (out.new.items
        ≡ out.old.items ++ tile_texts tiling.now (tiling.now.cols * tiling.now.rows)) }
{
    for n in 0..tiling.tile_count() {
        put_tile(out, tiling, n)?;
    }
    Ok(())
}

// The line of the grid.
#[tactic(auto, unfolding(crate::specs::GridText::grid_line))]
fn put_grid(out: &mut Vec<u8>, tiling: &TilingInfo) -> Result<(), AllocError>
    ensures { OnOk result (out.new.items ≡ out.old.items ++ grid_line tiling.now) }
{
    put(out, b"grid")?;
    put_spaced(out, tiling.cols as u64)?;
    put_spaced(out, tiling.rows as u64)?;
    put_spaced(out, tiling.tile_width_sb as u64)?;
    put_spaced(out, tiling.tile_height_sb as u64)?;
    put(out, b"\n")
}

/// The text of a tile grid.
#[tactic(auto, unfolding(crate::specs::GridText::grid_text))]
pub fn grid_report(alloc: Global, tiling: &TilingInfo) -> Result<Vec<u8>, AllocError>
    requires { AreTiles tiling.now }
    ensures { IfOk result (λ text. text.items ≡ grid_text tiling.now) }
{
    let mut out = Vec::new(alloc);
    put_grid(&mut out, tiling)?;
    put_tiles(&mut out, tiling)?;
    put(&mut out, b"end\n")?;
    Ok(out)
}
