ghost use Rattle.std.specs.Prelude.{◌≡◌, ◌≤◌, option_map};
ghost use Rattle.av1_rec.specs.Blocks.{block_line};
ghost use Rattle.av1_rec.specs.Fields.{hex_byte};
ghost use Rattle.av1_rec.specs.Lines.{Gives, text_line, many};
ghost use Rattle.av1_rec.specs.Tile.{line_length, hex_line, bytes_line, count_line, unit_lines, digit_limit, coded, tile_result, tile};
ghost use Rattle.av1_rec.specs.Recorded.{recorded};
ghost use Rattle.av1_rec.specs.Tiles.{IsTileShape};
ghost use Rattle.av1_rec.specs.Units.{unit_line};

use crate::coder::recorded_tile::RecordedTile;
use crate::text::block_line::{BlockLine, block_line};
use crate::text::block_table::blocks_said;
use crate::text::extent::{Extent, TileShape};
use crate::text::fault::{TextError, wrong};
use crate::text::fields::{field, first, tag};
use crate::text::hex::hex_byte;
use crate::text::rows::planes;
use crate::text::unit_line::{UnitLine, unit_line};
use crate::text::unit_table::tile_units_said;
use av1_plane::{Pixel, Three};
use std::alloc::Global;

// How many bytes stand before the line feed.
#[tactic(auto, using(crate::proofs::Lengths::length_more))]
fn line_length(text: &[u8]) -> usize
    ensures { result ≡ line_length text.now }
{
    let mut rest = text;
    let mut count = 0;
    while let Some((c, after)) = first(rest) {
        if c == b'\n' {
            return count;
        }
        count += 1;
        rest = after;
    }
    count
}

// One byte.
fn one_byte(text: &[u8]) -> Result<(u8, &[u8]), TextError>
    ensures { Gives (λ x. (x.0, x.1.now)) result (text_line hex_byte text.now) }
{
    match hex_byte(text) {
        Some(said) => Ok(said),
        None => Err(wrong(text)),
    }
}

// `count` bytes in hexadecimal digits.
#[tactic(auto, using(crate::proofs::Many::many_steps))]
fn hex_bytes(alloc: Global, count: usize, text: &[u8]) -> Result<(Vec<u8>, &[u8]), TextError>
    ensures { Gives (λ x. (x.0.items, x.1.now)) result (many (text_line hex_byte) count text.now) }
{
    let mut bytes = Vec::with_capacity(alloc, count)?;
    let mut rest = text;
    for _ in 0..count {
        let (one, after) = one_byte(rest)?;
        bytes.push(one)?;
        rest = after;
    }
    Ok((bytes, rest))
}

// At least one byte, and the line's end.
#[tactic(auto, unfolding(crate::specs::Tile::hex_line))]
fn hex_line(alloc: Global, text: &[u8]) -> Result<(Vec<u8>, &[u8]), TextError>
    ensures { Gives (λ x. (x.0.items, x.1.now)) result (hex_line text.now) }
{
    let length = line_length(text);
    if length < 2 {
        return Err(wrong(text));
    }
    let (bytes, rest) = hex_bytes(alloc, length / 2, text)?;
    let rest = tag(rest, b"\n").ok_or(wrong(rest))?;
    Ok((bytes, rest))
}

// `-` for no bytes, or bytes.
#[tactic(auto, unfolding(crate::specs::Tile::bytes_line))]
fn bytes_line(alloc: Global, text: &[u8]) -> Result<(Vec<u8>, &[u8]), TextError>
    ensures { Gives (λ x. (x.0.items, x.1.now)) result (bytes_line text.now) }
{
    match tag(text, b"-\n") {
        Some(rest) => Ok((Vec::new(alloc), rest)),
        None => hex_line(alloc, text),
    }
}

// A word, a count behind a space, and the line's end.
#[tactic(auto, unfolding(crate::specs::Tile::count_line))]
fn count_line<'a>(text: &'a [u8], word: &[u8]) -> Option<(u32, &'a [u8])>
    ensures { option_map (λ x. (x.0, x.1.now)) result ≡ count_line word.now text.now }
{
    let rest = tag(text, word)?;
    let (count, rest) = field(0, u32::MAX, rest)?;
    let rest = tag(rest, b"\n")?;
    Some((count, rest))
}

// One rectangle of blocks.
fn one_block(cols: u32, rows: u32, text: &[u8]) -> Result<(BlockLine, &[u8]), TextError>
    requires { (1 ≤ cols) × (1 ≤ rows) }
    ensures { Gives (λ x. (x.0, x.1.now)) result (text_line (block_line cols rows) text.now) }
{
    match block_line(cols, rows, text) {
        Some(said) => Ok(said),
        None => Err(wrong(text)),
    }
}

// `count` lines of rectangles of blocks.
#[tactic(auto, using(crate::proofs::Many::many_steps))]
fn block_lines(
    alloc: Global,
    cols: u32,
    rows: u32,
    count: u32,
    text: &[u8],
) -> Result<(Vec<BlockLine>, &[u8]), TextError>
    requires { (1 ≤ cols) × (1 ≤ rows) }
    ensures { Gives (λ x. (x.0.items, x.1.now)) result
        (many (text_line (block_line cols rows)) count text.now) }
{
    let mut lines = Vec::new(alloc);
    let mut rest = text;
    for _ in 0..count {
        let (one, after) = one_block(cols, rows, rest)?;
        lines.push(one)?;
        rest = after;
    }
    Ok((lines, rest))
}

// One restoration unit.
fn one_unit<'a>(units: &Three<Extent>, text: &'a [u8]) -> Result<(UnitLine, &'a [u8]), TextError>
    ensures { Gives (λ x. (x.0, x.1.now)) result (text_line (unit_line units.now) text.now) }
{
    match unit_line(units, text) {
        Some(said) => Ok(said),
        None => Err(wrong(text)),
    }
}

// `count` lines of restoration units.
#[tactic(auto, using(crate::proofs::Many::many_steps))]
fn many_units<'a>(
    alloc: Global,
    units: &Three<Extent>,
    count: u32,
    text: &'a [u8],
) -> Result<(Vec<UnitLine>, &'a [u8]), TextError>
    ensures { Gives (λ x. (x.0.items, x.1.now)) result
        (many (text_line (unit_line units.now)) count text.now) }
{
    let mut lines = Vec::new(alloc);
    let mut rest = text;
    for _ in 0..count {
        let (one, after) = one_unit(units, rest)?;
        lines.push(one)?;
        rest = after;
    }
    Ok((lines, rest))
}

// `units COUNT`, and as many lines of units.
#[tactic(auto, unfolding(crate::specs::Tile::unit_lines))]
fn unit_lines<'a>(
    alloc: Global,
    units: &Three<Extent>,
    text: &'a [u8],
) -> Result<(Vec<UnitLine>, &'a [u8]), TextError>
    ensures { Gives (λ x. (x.0.items, x.1.now)) result (unit_lines units.now text.now) }
{
    let (count, rest) = count_line(text, b"units").ok_or(wrong(text))?;
    many_units(alloc, units, count, rest)
}

// Bytes, the rows of each plane, and the blocks and the units that lines write.
#[tactic(auto, unfolding(crate::specs::Tile::coded))]
fn coded<'a, T: Pixel + Drop>(
    alloc: Global,
    wide: bool,
    shape: &TileShape,
    units: &Three<Extent>,
    text: &'a [u8],
) -> Result<(RecordedTile<T>, &'a [u8]), TextError>
    requires samples { digit_limit wide ≤ T.limit }
    requires blocks { IsTileShape shape.now }
    ensures { Gives (λ x. (recorded T.number x.0, x.1.now)) result
        (coded wide shape.now units.now text.now) }
{
    let limit = if wide { 65536 } else { 256 };
    let Extent { width, height } = shape.blocks;
    let (bytes, rest) = bytes_line(alloc, text)?;
    let (rows, rest) = planes(alloc, wide, limit, &shape.luma, &shape.chroma, rest)?;
    let (count, rest) = count_line(rest, b"blocks").ok_or(wrong(rest))?;
    let (lines, rest) = block_lines(alloc, width, height, count, rest)?;
    let (set, rest) = unit_lines(alloc, units, rest)?;
    let blocks = blocks_said(alloc, width as usize, height as usize, &lines)?;
    let units = tile_units_said(alloc, units, &set)?;
    let tile = RecordedTile::Coded {
        bytes,
        rows,
        blocks,
        units,
    };
    Ok((tile, rest))
}

// `refused`, or a coded tile.
#[tactic(auto, unfolding(crate::specs::Tile::tile_result))]
fn tile_result<'a, T: Pixel + Drop>(
    alloc: Global,
    wide: bool,
    shape: &TileShape,
    units: &Three<Extent>,
    text: &'a [u8],
) -> Result<(RecordedTile<T>, &'a [u8]), TextError>
    requires samples { digit_limit wide ≤ T.limit }
    requires blocks { IsTileShape shape.now }
    ensures { Gives (λ x. (recorded T.number x.0, x.1.now)) result
        (tile_result wide shape.now units.now text.now) }
{
    match tag(text, b"refused\n") {
        Some(rest) => Ok((RecordedTile::Refused, rest)),
        None => coded(alloc, wide, shape, units, text),
    }
}

/// The recorded result of tile `n`, of this shape, with these numbers of units of each plane.
#[tactic(auto, unfolding(crate::specs::Tile::tile))]
pub fn tile<'a, T: Pixel + Drop>(
    alloc: Global,
    wide: bool,
    shape: &TileShape,
    units: &Three<Extent>,
    n: u32,
    text: &'a [u8],
) -> Result<(RecordedTile<T>, &'a [u8]), TextError>
    requires samples { digit_limit wide ≤ T.limit }
    requires blocks { IsTileShape shape.now }
    ensures { Gives (λ x. (recorded T.number x.0, x.1.now)) result
        (tile wide shape.now units.now n text.now) }
{
    let rest = tag(text, b"tile").ok_or(wrong(text))?;
    let (_, rest) = field(n, n, rest).ok_or(wrong(rest))?;
    let rest = tag(rest, b" ").ok_or(wrong(rest))?;
    tile_result(alloc, wide, shape, units, rest)
}
