ghost use Rattle.std.specs.Prelude.{◌≡◌, ◌+◌, ◌*◌, ◌/◌, ◌^◌, ◌≤◌, pos, length};
ghost use Rattle.av1_plane.specs.Numbers.{Below};
ghost use Rattle.av1_plane.specs.Layout.{plane_layout, rounded};
ghost use Rattle.av1_deblock.specs.Line.{IsSize};
ghost use Rattle.av1_deblock.specs.Conditions.{IsDecimated};
ghost use Rattle.av1_deblock.specs.Frames.{frame_shape, CanDeblock};

use super::{block_of, blocks_of, decimated_by, in_blocks, see, state_of, whole_view};
use crate::{deblock_plane, line_filter};
use av1_block::{BlockSize, TxSize};
use av1_plane::{AsRegion, Plane, PlaneRegionMut};
use std::alloc::Global;
use std::test::Fail;

// The numbers of the columns and of the rows of the planes that plain passes are compared on.
const ACROSS: [u8; 24] = [
    100, 103, 101, 99, 104, 102, 105, 100, 98, 101, 106, 103, 100, 102, 99, 104, 107, 103, 101,
    100, 105, 102, 104, 99,
];

const DOWN: [u8; 24] = [
    101, 99, 102, 104, 100, 103, 98, 105, 102, 100, 99, 106, 103, 101, 104, 100, 97, 102, 105, 103,
    99, 101, 100, 104,
];

// A plane whose blocks and transforms are squares of one side.
#[derive(Clone, Copy)]
struct Squares {
    pli: usize,
    xdec: usize,
    ydec: usize,
    bsize: BlockSize,
    txsize: TxSize,
    /// The side of a block in units of the luma plane.
    side: u8,
    /// How far vertical edges lie apart, in samples of the plane.
    apart_x: usize,
    /// How far horizontal edges lie apart.
    apart_y: usize,
    /// How many samples a line across a vertical edge has.
    size_x: usize,
    /// How many samples a line across a horizontal edge has.
    size_y: usize,
}

// Reads a line of a direction.
fn read_line(samples: &[u8], first: usize, step: usize, line: &mut [i32])
    requires first { first ≤ 4096 }
    requires step { step ≤ 64 }
    requires line { length line.old ≤ 14 }
    ensures range { Below 256 line.new }
    ensures long { length line.new ≡ length line.old }
{
    for j in 0..line.len() {
        line[j] = i32::from(samples.get(first + j * step).copied().unwrap_or(0));
    }
}

// Filters a line where it stands in a plane.
fn filter_in_place(samples: &mut [u8], first: usize, step: usize, line: &mut [i32])
    requires first { first ≤ 4096 }
    requires step { step ≤ 64 }
    requires size { IsSize (length line.old) }
{
    let size = line.len();
    read_line(samples, first, step, line);
    line_filter(line, size, 32, 8);
    for j in 0..size {
        if let Some(sample) = samples.get_mut(first + j * step) {
            *sample = line[j] as u8;
        }
    }
}

// A plain pass over all lines of one direction in the first `cols` by `rows` samples.
fn plain_pass(
    samples: &mut [u8],
    stride: usize,
    cols: usize,
    rows: usize,
    vertical: bool,
    apart: usize,
    line: &mut [i32],
)
    requires stride { stride ≤ 64 }
    requires cols { cols ≤ 24 }
    requires rows { rows ≤ 24 }
    requires apart { 1 ≤ apart }
    requires size { IsSize (length line.old) }
{
    for i in 0..rows * cols {
        let x = i % cols;
        let y = i / cols;
        let place = if vertical { x } else { y };
        let step = if vertical { 1 } else { stride };
        if place > 0 && place % apart == 0 {
            let first = (y * stride + x).saturating_sub(line.len() / 2 * step);
            filter_in_place(samples, first, step, line);
        }
    }
}

// How many samples the units of a plane have in one direction.
fn in_units(units: usize, dec: usize) -> usize
    requires units { units ≤ 5 }
    requires dec { dec ≤ 1 }
    ensures { result ≤ 20 }
{
    if dec == 1 {
        4 * ((units + 1) / 2)
    } else {
        4 * units
    }
}

// Whether a plane of `cols` by `rows` units is deblocked as by two plain passes.
fn is_as_plain(alloc: Global, s: Squares, cols: usize, rows: usize) -> Result<bool, Fail>
    requires cols { cols ≤ 5 }
    requires rows { rows ≤ 5 }
    requires xdec { s.xdec ≤ 1 }
    requires ydec { s.ydec ≤ 1 }
    requires luma { s.pli ≡ 0 → (s.xdec ≡ 0) × (s.ydec ≡ 0) }
    requires apart_x { 1 ≤ s.apart_x }
    requires apart_y { 1 ≤ s.apart_y }
    requires size_x { IsSize s.size_x }
    requires size_y { IsSize s.size_y }
{
    let width = in_blocks(cols, s.xdec);
    let height = in_blocks(rows, s.ydec);
    let mut plane = decimated_by(alloc, &ACROSS[..width], &DOWN[..height], s.xdec, s.ydec)?;
    let mut plain = Vec::from_slice(alloc, &plane.samples)?;
    let x = in_units(cols, s.xdec);
    let y = in_units(rows, s.ydec);
    let mut line = [0; 14];
    plain_pass(
        &mut plain,
        width,
        x,
        y,
        true,
        s.apart_x,
        &mut line[..s.size_x],
    );
    plain_pass(
        &mut plain,
        width,
        x,
        y,
        false,
        s.apart_y,
        &mut line[..s.size_y],
    );
    let block = block_of(s.bsize, s.txsize, s.side, s.side);
    let table = blocks_of(alloc, in_blocks(cols, 0) / 4, in_blocks(rows, 0) / 4, block)?;
    let blocks = whole_view(&table, 4 * cols, 4 * rows);
    let mut region = part_of(&mut plane, s.pli, 4 * cols, 4 * rows);
    deblock_plane(
        &state_of([32; 4]),
        &mut region,
        s.pli,
        &blocks,
        4 * cols,
        4 * rows,
        8,
    );
    Ok(plane.samples.as_slice() == plain.as_slice())
}

// A plane of a frame of these sides, for writing.
fn part_of<'a>(
    plane: &'a mut Plane<u8>,
    pli: usize,
    crop_w: usize,
    crop_h: usize,
) -> PlaneRegionMut<'a, u8>
    requires plane { plane.old.cfg ≡ plane_layout
        (rounded crop_w / 2 ^ plane.old.cfg.xdec) (rounded crop_h / 2 ^ plane.old.cfg.ydec)
        plane.old.cfg.xdec plane.old.cfg.ydec 0 0 }
    requires decimated { IsDecimated pli plane.old.cfg }
    ensures { CanDeblock pos (frame_shape crop_w crop_h 8) pli result }
{
    see(plane.samples.as_slice());
    plane.as_region_mut()
}

// The same of all planes from 1 by 1 to 5 by 5 units.
fn all_as_plain(alloc: Global, s: Squares) -> Result<bool, Fail>
    requires xdec { s.xdec ≤ 1 }
    requires ydec { s.ydec ≤ 1 }
    requires luma { s.pli ≡ 0 → (s.xdec ≡ 0) × (s.ydec ≡ 0) }
    requires apart_x { 1 ≤ s.apart_x }
    requires apart_y { 1 ≤ s.apart_y }
    requires size_x { IsSize s.size_x }
    requires size_y { IsSize s.size_y }
{
    for i in 0..25 {
        if !is_as_plain(alloc, s, 1 + i % 5, 1 + i / 5)? {
            return Ok(false);
        }
    }
    Ok(true)
}

// Squares of 8 by 8 in chroma at 4:4:4.
const SQUARES: Squares = Squares {
    pli: 1,
    xdec: 0,
    ydec: 0,
    bsize: BlockSize::BLOCK_8X8,
    txsize: TxSize::TX_8X8,
    side: 2,
    apart_x: 8,
    apart_y: 8,
    size_x: 6,
    size_y: 6,
};

#[test]
fn luma_as_two_plain_passes(rt: HostRuntime) -> Result<(), Fail> {
    let alloc = rt.alloc();
    let small = Squares {
        pli: 0,
        bsize: BlockSize::BLOCK_4X4,
        txsize: TxSize::TX_4X4,
        side: 1,
        apart_x: 4,
        apart_y: 4,
        size_x: 4,
        size_y: 4,
        ..SQUARES
    };
    let middle = Squares {
        pli: 0,
        size_x: 8,
        size_y: 8,
        ..SQUARES
    };
    let large = Squares {
        pli: 0,
        bsize: BlockSize::BLOCK_16X16,
        txsize: TxSize::TX_16X16,
        side: 4,
        apart_x: 16,
        apart_y: 16,
        size_x: 14,
        size_y: 14,
        ..SQUARES
    };
    assert!(rt; all_as_plain(alloc, small)?, "4 by 4");
    assert!(rt; all_as_plain(alloc, middle)?, "8 by 8");
    assert!(rt; all_as_plain(alloc, large)?, "16 by 16");
    Ok(())
}

#[test]
fn chroma_as_two_plain_passes(rt: HostRuntime) -> Result<(), Fail> {
    let alloc = rt.alloc();
    let wide = Squares {
        xdec: 1,
        apart_x: 4,
        size_x: 4,
        ..SQUARES
    };
    let quarter = Squares {
        ydec: 1,
        apart_y: 4,
        size_y: 4,
        ..wide
    };
    assert!(rt; all_as_plain(alloc, SQUARES)?, "4:4:4");
    assert!(rt; all_as_plain(alloc, wide)?, "4:2:2");
    assert!(rt; all_as_plain(alloc, quarter)?, "4:2:0");
    Ok(())
}
