//! The tiles' results of the frame that is made from a number.
ghost use Rattle.std.specs.Prelude.{◌≡◌, ◌<◌, ◌≤◌, ◌+◌, ◌*◌, ◌/◌, ◌%◌, ◌^◌, pos, map, Ok, None, IfOk, IfSome};
ghost use Rattle.av1_plane.specs.Sampling.{decimation};
ghost use Rattle.av1_tiling.specs.Frames.{FitsDepth};
ghost use Rattle.av1_tiling.specs.UnitSizes.{unit_layouts};
ghost use Rattle.av1_rec.specs.BlockTable.{first_values};
ghost use Rattle.av1_rec.specs.Generated.{coded_row, coded_rows, chroma_rect, coded_planes, small_block, generated_block, generated_blocks, middle_taps, middle_weights, generated_unit, generated_units, coded_unit_lists, byte_count, coded_bytes, coded_tile};
ghost use Rattle.av1_rec.specs.Header.{IsHeader};
ghost use Rattle.av1_rec.specs.Lines.{numbers_of, said_planes};
ghost use Rattle.av1_rec.specs.Parameters.{frame_parameters};
ghost use Rattle.av1_rec.specs.Picture.{picture_sample};
ghost use Rattle.av1_rec.specs.Recorded.{recorded, unit_lists};
ghost use Rattle.av1_rec.specs.Text.{HasTiling};
ghost use Rattle.av1_rec.specs.Tiles.{IsTileNumber, AreTiles};
ghost use Rattle.av1_rec.specs.UnitTables.{IsUnitLayout};

use crate::coder::recorded_tile::RecordedTile;
use crate::text::fault::TextError;
use crate::text::header::Header;
use crate::text::tile_rects::{tile_blocks, tile_luma, tile_units};
use crate::text::unit_layouts;
use av1_block::{Block, BlockSize, TxSize};
use av1_plane::{ChromaSampling, Three, TileRect};
use av1_tiling::{
    RestorationFilter, RestorationPlaneConfig, RestorationUnit, SGRPROJ_XQD_MID, TilingInfo,
    WIENER_TAPS_MID,
};
use std::alloc::{AllocError, Global};

// The sample at column `x` of row `y`, or 0 past the end.
fn picture_sample(rows: &[Vec<u8>], x: usize, y: usize) -> u8
    ensures { pos result ≡ picture_sample (numbers_of pos rows.now) x y }
{
    match rows.get(y) {
        Some(row) => match row.get(x) {
            Some(sample) => *sample,
            None => 0,
        },
        None => 0,
    }
}

// A row of a rectangle, coded as the source's samples at the corners of 8x8 blocks.
#[tactic(auto, unfolding(crate::specs::Generated::coded_row))]
fn coded_row(
    alloc: Global,
    rows: &[Vec<u8>],
    rect: TileRect,
    row: usize,
) -> Result<Vec<u8>, AllocError>
    requires x { rect.x + rect.width ≤ 65536 }
    requires y { rect.y + row ≤ 65536 }
    ensures { IfOk result
        (λ made. map pos made.items ≡ coded_row (numbers_of pos rows.now) rect row) }
{
    let mut made = Vec::with_capacity(alloc, rect.width)?;
    for column in 0..rect.width {
        let x = (rect.x + column) / 8 * 8;
        made.push(picture_sample(rows, x, (rect.y + row) / 8 * 8))?;
    }
    Ok(made)
}

// The rows of a rectangle.
#[tactic(auto, unfolding(crate::specs::Generated::coded_rows))]
fn coded_rows(alloc: Global, rows: &[Vec<u8>], rect: TileRect) -> Result<Vec<Vec<u8>>, AllocError>
    requires x { rect.x + rect.width ≤ 65536 }
    requires y { rect.y + rect.height ≤ 65536 }
    ensures { IfOk result
        (λ made. numbers_of pos made.items ≡ coded_rows (numbers_of pos rows.now) rect) }
{
    let mut made = Vec::with_capacity(alloc, rect.height)?;
    for row in 0..rect.height {
        made.push(coded_row(alloc, rows, rect, row)?)?;
    }
    Ok(made)
}

// A tile's rectangle in a chroma plane, by that in luma.
fn chroma_rect(sampling: ChromaSampling, luma: TileRect) -> TileRect
    requires x { luma.x + luma.width ≤ 65536 }
    requires y { luma.y + luma.height ≤ 65536 }
    ensures value { result ≡ chroma_rect (decimation sampling) luma }
    ensures x { result.x + result.width ≤ 65536 }
    ensures y { result.y + result.height ≤ 65536 }
{
    match sampling {
        ChromaSampling::Cs400 => TileRect {
            x: 0,
            y: 0,
            width: 0,
            height: 0,
        },
        ChromaSampling::Cs420 => TileRect {
            x: luma.x / 2,
            y: luma.y / 2,
            width: luma.width / 2,
            height: luma.height / 2,
        },
        ChromaSampling::Cs422 => TileRect {
            x: luma.x / 2,
            y: luma.y,
            width: luma.width / 2,
            height: luma.height,
        },
        ChromaSampling::Cs444 => luma,
    }
}

// An intra block of 8 by 8 with one transform, not skipped.
fn small_block(cdef_index: u8) -> Block
    ensures { result ≡ small_block cdef_index }
{
    let mut block = Block::default();
    block.bsize = BlockSize::BLOCK_8X8;
    block.n4_w = 2;
    block.n4_h = 2;
    block.txsize = TxSize::TX_8X8;
    block.cdef_index = cdef_index;
    block
}

// The block at a place of the block table.
fn block_at(column: usize, row: usize) -> Block
    requires column { column ≤ 32768 }
    requires row { row ≤ 32768 }
    ensures { result ≡ generated_block column row }
{
    small_block(((column / 16 + row / 16) % 8) as u8)
}

// The blocks of a rectangle.
#[tactic(auto, unfolding(crate::specs::Generated::generated_blocks))]
fn coded_blocks(alloc: Global, rect: TileRect) -> Result<Vec<Block>, AllocError>
    requires x { rect.x ≤ 16384 }
    requires y { rect.y ≤ 16384 }
    requires width { (1 ≤ rect.width) × (rect.width ≤ 16384) }
    requires height { rect.height ≤ 16384 }
    ensures { IfOk result (λ made. made.items ≡ generated_blocks rect) }
{
    let count = rect.width * rect.height;
    let mut made = Vec::with_capacity(alloc, count)?;
    for k in 0..count {
        made.push(block_at(rect.x + k % rect.width, rect.y + k / rect.width))?;
    }
    Ok(made)
}

// The unit at a place of a plane's units.
fn unit_at(column: usize, row: usize) -> RestorationUnit
    requires column { column ≤ 32768 }
    requires row { row ≤ 32768 }
    ensures { result ≡ generated_unit column row }
{
    let filter = match (column + row) % 3 {
        0 => RestorationFilter::None,
        1 => RestorationFilter::Wiener {
            coeffs: [WIENER_TAPS_MID, WIENER_TAPS_MID],
        },
        _ => RestorationFilter::Sgrproj {
            set: (column % 16) as u8,
            xqd: SGRPROJ_XQD_MID,
        },
    };
    RestorationUnit { filter }
}

// The units of tile `n` in a plane whose units are laid out so.
#[tactic(auto, unfolding(crate::specs::Generated::generated_units))]
fn coded_units(
    alloc: Global,
    tiling: &TilingInfo,
    cfg: &RestorationPlaneConfig,
    n: usize,
) -> Result<Vec<RestorationUnit>, AllocError>
    requires tile { IsTileNumber tiling.now n }
    requires layout { IsUnitLayout cfg.now }
    ensures { IfOk result (λ made. made.items ≡ generated_units tiling.now cfg.now n) }
{
    let rect = tile_units(tiling, cfg, n);
    let count = rect.width * rect.height;
    let mut made = Vec::with_capacity(alloc, count)?;
    for k in 0..count {
        made.push(unit_at(rect.x + k % rect.width, rect.y + k / rect.width))?;
    }
    Ok(made)
}

// How many bytes tile `n` has.
fn byte_count(n: usize) -> usize
    ensures value { result ≡ byte_count n }
    ensures few { result ≤ 1100 }
{
    match n {
        1 => 1000,
        2 => 1100,
        _ => 900,
    }
}

// The bytes of tile `n`.
#[tactic(auto, unfolding(crate::specs::Generated::coded_bytes))]
fn coded_bytes(alloc: Global, n: usize) -> Result<Vec<u8>, AllocError>
    requires { n ≤ 4096 }
    ensures { IfOk result (λ made. made.items ≡ coded_bytes n) }
{
    let count = byte_count(n);
    let mut made = Vec::with_capacity(alloc, count)?;
    for i in 0..count {
        made.push(((n + i) % 256) as u8)?;
    }
    Ok(made)
}

// The units of tile `n` in each plane.
fn coded_unit_lists(
    alloc: Global,
    tiling: &TilingInfo,
    layouts: &Three<RestorationPlaneConfig>,
    n: usize,
) -> Result<Three<Vec<RestorationUnit>>, AllocError>
    requires tile { IsTileNumber tiling.now n }
    requires y { IsUnitLayout layouts.now.y }
    requires u { IsUnitLayout layouts.now.u }
    requires v { IsUnitLayout layouts.now.v }
    ensures { IfOk result (λ made. unit_lists made ≡ coded_unit_lists tiling.now layouts.now n) }
{
    let y = coded_units(alloc, tiling, &layouts.y, n)?;
    let u = coded_units(alloc, tiling, &layouts.u, n)?;
    let v = coded_units(alloc, tiling, &layouts.v, n)?;
    Ok(Three { y, u, v })
}

// The coded samples of tile `n`.
#[tactic(auto, unfolding(crate::specs::Generated::coded_planes))]
fn coded_planes(
    alloc: Global,
    sampling: ChromaSampling,
    luma: TileRect,
    source: &Three<Vec<Vec<u8>>>,
) -> Result<Three<Vec<Vec<u8>>>, AllocError>
    requires x { luma.x + luma.width ≤ 65536 }
    requires y { luma.y + luma.height ≤ 65536 }
    ensures { IfOk result (λ made. said_planes pos made
        ≡ coded_planes sampling luma (said_planes pos source.now)) }
{
    let chroma = chroma_rect(sampling, luma);
    let y = coded_rows(alloc, &source.y, luma)?;
    let u = coded_rows(alloc, &source.u, chroma)?;
    let v = coded_rows(alloc, &source.v, chroma)?;
    Ok(Three { y, u, v })
}

// The result of tile `n`.
#[tactic(auto, unfolding(crate::specs::Generated::coded_tile))]
fn coded_tile(
    alloc: Global,
    header: &Header,
    tiling: &TilingInfo,
    layouts: &Three<RestorationPlaneConfig>,
    source: &Three<Vec<Vec<u8>>>,
    n: usize,
) -> Result<RecordedTile<u8>, AllocError>
    requires tile { IsTileNumber tiling.now n }
    requires few { n ≤ 4096 }
    requires layouts { layouts.now ≡ unit_layouts (frame_parameters header.now tiling.now) }
    ensures { IfOk result (λ made. recorded pos made
        ≡ coded_tile header.now tiling.now (said_planes pos source.now) n) }
{
    let rows = coded_planes(alloc, header.format.sampling, tile_luma(tiling, n), source)?;
    let blocks = coded_blocks(alloc, tile_blocks(tiling, n))?;
    let units = coded_unit_lists(alloc, tiling, layouts, n)?;
    Ok(RecordedTile::Coded {
        bytes: coded_bytes(alloc, n)?,
        rows,
        blocks,
        units,
    })
}

/// The results of all tiles.
pub fn coded_tiles(
    alloc: Global,
    header: &Header,
    tiling: &TilingInfo,
    source: &Three<Vec<Vec<u8>>>,
) -> Result<Vec<RecordedTile<u8>>, TextError>
    requires header { IsHeader header.now }
    requires tiling { HasTiling header.now tiling.now }
    requires tiles { AreTiles tiling.now }
    requires depth { header.now.format.depth ≡ 8 }
    ensures { IfOk result (λ made. map (recorded pos) made.items
        ≡ first_values (λ n. coded_tile header.now tiling.now (said_planes pos source.now) n)
        (tiling.now.cols * tiling.now.rows)) }
{
    let layouts = unit_layouts::<u8>(alloc, header, *tiling)?;
    let mut made = Vec::new(alloc);
    for n in 0..tiling.tile_count() {
        made.push(coded_tile(alloc, header, tiling, &layouts, source, n)?)?;
    }
    Ok(made)
}
