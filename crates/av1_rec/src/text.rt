//! The text of a frame: its header, the rows of its source, and the recorded result of each tile.
//!
//! A line is read whole or not at all. Each function takes the front of the bytes, and gives a value
//! and the rest.
ghost use Rattle.std.specs.Prelude.{◌≡◌, ◌≤◌, ◌^◌, ◌/◌, ◌*◌, map, Ok, Err, None, IfOk, IfSome, IsNone};
ghost use Rattle.av1_plane.specs.Layout.{visible};
ghost use Rattle.av1_plane.specs.Sampling.{decimation};
ghost use Rattle.av1_tiling.specs.TileRects.{tile_luma};
ghost use Rattle.av1_rec.specs.declared.text.fault.Fault.TheVariants.{NoTiling};
ghost use Rattle.av1_rec.specs.Header.{IsHeader, IsSampleDepth};
ghost use Rattle.av1_rec.specs.Lines.{Gives, said_planes, numbered};
ghost use Rattle.av1_rec.specs.Read.{IsReadText};
ghost use Rattle.av1_rec.specs.Recorded.{recorded};
ghost use Rattle.av1_rec.specs.Tile.{digit_limit};
ghost use Rattle.av1_rec.specs.Parameters.{frame_parameters};
ghost use Rattle.av1_rec.specs.Tiles.{IsTileNumber, AreTiles, IsTileShape};
ghost use Rattle.av1_rec.specs.UnitTables.{unit_extent, unit_extents, IsUnitLayout};
ghost use Rattle.av1_tiling.specs.Frames.{FitsDepth};
ghost use Rattle.av1_tiling.specs.UnitSizes.{unit_layouts};
ghost use Rattle.av1_rec.specs.Text.{tiling, HasTiling, tiled_header, is_wide, chroma_picture, source_rows, luma_of, chroma_of, tile_shape, tile_at, tiles, end, body, text_of, said, frame_said};

pub(crate) mod block_bands;
pub(crate) mod block_line;
pub(crate) mod block_table;
pub(crate) mod extent;
pub(crate) mod fault;
pub(crate) mod fields;
pub(crate) mod header;
pub(crate) mod header_lines;
pub(crate) mod hex;
pub(crate) mod rows;
pub(crate) mod tile_rects;
pub(crate) mod tile_text;
pub(crate) mod unit_line;
pub(crate) mod unit_table;

use crate::coder::recorded_tile::RecordedTile;
use crate::frame::begin::frame_invariants;
use crate::text::extent::{Extent, TileShape};
use crate::text::fault::{Fault, TextError, wrong};
use crate::text::fields::tag;
use crate::text::header::{FrameFormat, Header};
use crate::text::header_lines::header;
use crate::text::rows::planes;
use crate::text::tile_rects::{tile_blocks, tile_luma, tile_units};
use crate::text::tile_text::tile;
use av1_plane::{ChromaSampling, Frame, FrameAlloc, OutOfMemory, Pixel, Three};
use av1_tiling::{FrameInvariants, RestorationPlaneConfig, RestorationState, TilingInfo};
use std::alloc::Global;

/// What a text says: the header, the rows of each plane of the source, and the result of each tile; and
/// the tiling of its frame.
#[derive(Drop)]
pub struct Text<T> {
    pub header: Header,
    pub tiling: TilingInfo,
    pub source: Three<Vec<Vec<T>>>,
    pub tiles: Vec<RecordedTile<T>>,
}

/// What a text says, with samples of 8 bits or of more.
#[derive(Drop)]
pub enum FrameText {
    Bytes(Text<u8>),
    Words(Text<u16>),
}

/// The tiling of a header's frame, if there is one.
#[tactic(auto, unfolding(crate::specs::Text::tiling))]
pub fn tiling_of(header: &Header) -> Option<TilingInfo>
    ensures some { IfSome result (λ t. tiling header.now ≡ Ok t) }
    ensures none { IsNone result → tiling header.now ≡ Err NoTiling }
{
    TilingInfo::from_target_tiles(
        6,
        header.format.width as usize,
        header.format.height as usize,
        header.target.num,
        header.target.den,
        header.target.cols_log2 as usize,
        header.target.rows_log2 as usize,
        matches!(header.format.sampling, ChromaSampling::Cs422),
    )
    .ok()
}

/// The header, the tiling of its frame, and the bytes behind.
#[tactic(auto, unfolding(crate::specs::Text::tiled_header))]
pub fn tiled_header(text: &[u8]) -> Result<(Header, TilingInfo, &[u8]), TextError>
    ensures value { Gives (λ x. (x.0, x.1, x.2.now)) result (tiled_header text.now) }
    ensures right { IfOk result (λ x. IsHeader x.0) }
    ensures tiling { IfOk result (λ x. tiling x.0 ≡ Ok x.1) }
    ensures tiles { IfOk result (λ x. AreTiles x.1) }
{
    let (header, rest) = header(text)?;
    match tiling_of(&header) {
        Some(tiling) => Ok((header, tiling, rest)),
        None => Err(TextError::Fault(Fault::NoTiling)),
    }
}

// No samples in a plane.
const NO_SAMPLES: Extent = Extent {
    width: 0,
    height: 0,
};

// A side in a plane whose sides are halved `dec` times, 0 or 1.
fn visible(side: u32, dec: usize) -> u32
    requires side { side ≤ 65536 }
    requires dec { dec ≤ 1 }
    ensures { result ≡ visible side dec }
{
    if dec == 0 { side } else { (side + 1) / 2 }
}

/// The picture's samples in each chroma plane.
pub fn chroma_picture(format: &FrameFormat) -> Extent
    requires width { format.now.width ≤ 65536 }
    requires height { format.now.height ≤ 65536 }
    ensures { result ≡ chroma_picture format.now (decimation format.now.sampling) }
{
    let Some((xdec, ydec)) = format.sampling.get_decimation() else {
        return NO_SAMPLES;
    };
    Extent {
        width: visible(format.width, xdec),
        height: visible(format.height, ydec),
    }
}

// The limit below which the samples of a depth are.
fn sample_limit(depth: u32) -> u32
    requires { IsSampleDepth depth }
    ensures { result ≡ 2 ^ depth }
{
    match depth {
        8 => 256,
        10 => 1024,
        _ => 4096,
    }
}

// The rows of the source.
#[tactic(auto, unfolding(crate::specs::Text::source_rows))]
fn source<'a, T: Pixel + Drop>(
    alloc: Global,
    format: &FrameFormat,
    text: &'a [u8],
) -> Result<(Three<Vec<Vec<T>>>, &'a [u8]), TextError>
    requires width { format.now.width ≤ 65536 }
    requires height { format.now.height ≤ 65536 }
    requires depth { IsSampleDepth format.now.depth }
    requires limit { 2 ^ format.now.depth ≤ T.limit }
    ensures { Gives (λ x. (said_planes T.number x.0, x.1.now)) result
        (source_rows format.now text.now) }
{
    let rest = tag(text, b"source\n").ok_or(wrong(text))?;
    let luma = Extent {
        width: format.width,
        height: format.height,
    };
    let chroma = chroma_picture(format);
    let limit = sample_limit(format.depth);
    planes(alloc, format.depth > 8, limit, &luma, &chroma, rest)
}

// The sides of a tile in each chroma plane, by its sides in luma.
fn chroma_of(sampling: ChromaSampling, luma: Extent) -> Extent
    ensures none { decimation sampling ≡ None → result ≡ record { width = 0; height = 0 } }
    ensures some { IfSome (decimation sampling)
        (λ d. result ≡ record { width = luma.width / 2 ^ d.0; height = luma.height / 2 ^ d.1 }) }
{
    match sampling {
        ChromaSampling::Cs400 => NO_SAMPLES,
        ChromaSampling::Cs420 => Extent {
            width: luma.width / 2,
            height: luma.height / 2,
        },
        ChromaSampling::Cs422 => Extent {
            width: luma.width / 2,
            height: luma.height,
        },
        ChromaSampling::Cs444 => luma,
    }
}

// The shape of tile `n`.
fn tile_shape(format: &FrameFormat, tiling: &TilingInfo, n: usize) -> TileShape
    requires { IsTileNumber tiling.now n }
    ensures value { result ≡ tile_shape format.now tiling.now n }
    ensures blocks { IsTileShape result }
{
    let luma = tile_luma(tiling, n);
    let blocks = tile_blocks(tiling, n);
    let luma = Extent {
        width: luma.width as u32,
        height: luma.height as u32,
    };
    TileShape {
        luma,
        chroma: chroma_of(format.sampling, luma),
        blocks: Extent {
            width: blocks.width as u32,
            height: blocks.height as u32,
        },
    }
}

/// How the units of each plane are laid out. Only the sides of the frame made here matter.
pub fn unit_layouts<T: Pixel + Drop>(
    alloc: Global,
    header: &Header,
    tiling: TilingInfo,
) -> Result<Three<RestorationPlaneConfig>, OutOfMemory>
    requires header { IsHeader header.now }
    requires tiling { HasTiling header.now tiling }
    requires depth { FitsDepth T.limit header.now.format.depth }
    ensures { IfOk result (λ layouts. layouts ≡ unit_layouts (frame_parameters header.now tiling)) }
{
    let fi: FrameInvariants<T> = frame_invariants(alloc, header, tiling)?;
    let frame = Frame::new(alloc, fi.width, fi.height, header.format.sampling)?;
    let units = RestorationState::new(alloc, &fi, &frame)?;
    let Three { y, u, v } = units.planes;
    Ok(Three {
        y: y.cfg,
        u: u.cfg,
        v: v.cfg,
    })
}

// How many units of a plane tile `n` has.
fn unit_extent(tiling: &TilingInfo, cfg: &RestorationPlaneConfig, n: usize) -> Extent
    requires tile { IsTileNumber tiling.now n }
    requires layout { IsUnitLayout cfg.now }
    ensures { result ≡ unit_extent tiling.now cfg.now n }
{
    let units = tile_units(tiling, cfg, n);
    Extent {
        width: units.width as u32,
        height: units.height as u32,
    }
}

// How many units of each plane tile `n` has.
fn tile_unit_extents(
    tiling: &TilingInfo,
    layouts: &Three<RestorationPlaneConfig>,
    n: usize,
) -> Three<Extent>
    requires tile { IsTileNumber tiling.now n }
    requires y { IsUnitLayout layouts.now.y }
    requires u { IsUnitLayout layouts.now.u }
    requires v { IsUnitLayout layouts.now.v }
    ensures { result ≡ unit_extents tiling.now layouts.now n }
{
    Three {
        y: unit_extent(tiling, &layouts.y, n),
        u: unit_extent(tiling, &layouts.u, n),
        v: unit_extent(tiling, &layouts.v, n),
    }
}

// The result of tile `n`.
#[tactic(auto, unfolding(crate::specs::UnitTables::tile_unit_extents))]
fn tile_at<'a, T: Pixel + Drop>(
    alloc: Global,
    header: &Header,
    tiling: &TilingInfo,
    layouts: &Three<RestorationPlaneConfig>,
    n: usize,
    text: &'a [u8],
) -> Result<(RecordedTile<T>, &'a [u8]), TextError>
    requires tile { IsTileNumber tiling.now n }
    requires few { n ≤ 4096 }
    requires layouts { layouts.now ≡ unit_layouts (frame_parameters header.now tiling.now) }
    requires limit { digit_limit (is_wide header.now.format) ≤ T.limit }
    ensures { Gives (λ x. (recorded T.number x.0, x.1.now)) result
        (tile_at header.now tiling.now n text.now) }
{
    let shape = tile_shape(&header.format, tiling, n);
    let units = tile_unit_extents(tiling, layouts, n);
    tile(
        alloc,
        header.format.depth > 8,
        &shape,
        &units,
        n as u32,
        text,
    )
}

// The results of all tiles, in order.
#[tactic(auto, unfolding(crate::specs::Text::tiles), using(crate::proofs::Numbered::numbered_start))]
fn tiles<'a, T: Pixel + Drop>(
    alloc: Global,
    header: &Header,
    tiling: &TilingInfo,
    text: &'a [u8],
) -> Result<(Vec<RecordedTile<T>>, &'a [u8]), TextError>
    requires header { IsHeader header.now }
    requires tiling { HasTiling header.now tiling.now }
    requires tiles { AreTiles tiling.now }
    requires depth { FitsDepth T.limit header.now.format.depth }
    requires limit { digit_limit (is_wide header.now.format) ≤ T.limit }
    ensures { Gives (λ x. (map (recorded T.number) x.0.items, x.1.now)) result
        (tiles header.now tiling.now text.now) }
{
    let layouts = unit_layouts::<T>(alloc, header, *tiling)?;
    let mut tiles = Vec::new(alloc);
    let mut rest = text;
    for n in 0..tiling.tile_count() {
        let (one, after) = tile_at(alloc, header, tiling, &layouts, n, rest)?;
        tiles.push(one)?;
        rest = after;
    }
    Ok((tiles, rest))
}

// The last line, and nothing after it.
#[tactic(auto, unfolding(crate::specs::Text::end))]
fn end(text: &[u8]) -> Result<(), TextError>
    ensures { Gives (λ _. tt) result (end text.now) }
{
    let rest = tag(text, b"end\n").ok_or(wrong(text))?;
    if rest.is_empty() {
        Ok(())
    } else {
        Err(wrong(rest))
    }
}

// What follows the header.
#[tactic(auto, unfolding(crate::specs::Text::body), using(crate::proofs::Depths::depths))]
fn body<T: Pixel + Drop>(
    alloc: Global,
    header: Header,
    tiling: TilingInfo,
    text: &[u8],
) -> Result<Text<T>, TextError>
    requires header { IsHeader header }
    requires tiling { HasTiling header tiling }
    requires tiles { AreTiles tiling }
    requires depth { FitsDepth T.limit header.format.depth }
    ensures { Gives (said T.number) result (body header tiling text.now) }
{
    let (source, rest) = source(alloc, &header.format, text)?;
    let (tiles, rest) = tiles(alloc, &header, &tiling, rest)?;
    end(rest)?;
    Ok(Text {
        header,
        tiling,
        source,
        tiles,
    })
}

/// What the text says, or what is wrong with it.
#[tactic(auto, unfolding(crate::specs::Text::text_of), using(crate::proofs::Depths::depths))]
pub fn text_of(alloc: Global, text: &[u8]) -> Result<FrameText, TextError>
    ensures value { Gives frame_said result (text_of text.now) }
    ensures read { IfOk result IsReadText }
{
    let (header, tiling, rest) = tiled_header(text)?;
    if header.format.depth == 8 {
        let said = body(alloc, header, tiling, rest)?;
        Ok(FrameText::Bytes(said))
    } else {
        let said = body(alloc, header, tiling, rest)?;
        Ok(FrameText::Words(said))
    }
}
