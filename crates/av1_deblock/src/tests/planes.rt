ghost use Rattle.std.specs.Prelude.{◌≡◌, ◌/◌, ◌^◌, ◌≤◌, pos, map, IfOk};
ghost use Rattle.av1_plane.specs.Numbers.{Below};
ghost use Rattle.av1_plane.specs.Layout.{plane_layout};
ghost use Rattle.av1_deblock.specs.Conditions.{CoversBlocks};
ghost use Rattle.av1_deblock.specs.Frames.{frame_shape, CanDeblock};
ghost use Rattle.av1_deblock.specs.Choice.{CanTally};

use super::{
    SHORT, SMOOTH, STEP, block_of, blocks_of, frame_with, in_blocks, lent_of, plane_by, state_of,
    whole_view,
};
use crate::{deblock_filter_frame, deblock_filter_optimize, deblock_plane};
use av1_block::{BlockSize, TileBlocks, TxSize};
use av1_plane::{
    AsRegion, ChromaSampling, Plane, PlaneConfig, PlaneRegion, PlaneRegionMut, Three, Tile, TileMut,
};
use std::alloc::Global;
use std::test::Fail;
use std::thread::Threads;

#[test]
fn planes_of_a_frame(rt: HostRuntime) -> Result<(), Fail> {
    let alloc = rt.alloc();
    let square = block_of(BlockSize::BLOCK_8X8, TxSize::TX_8X8, 2, 2);
    let table = blocks_of(alloc, 4, 2, square)?;
    let blocks = whole_view(&table, 16, 8);
    for (levels, luma, chroma) in [([2, 0, 2, 2], SMOOTH, SHORT), ([0, 0, 2, 2], STEP, STEP)] {
        let mut y = plane_by(alloc, &STEP, &[0; 8])?;
        let mut u = plane_by(alloc, &STEP, &[0; 8])?;
        let mut v = plane_by(alloc, &STEP, &[0; 8])?;
        let mut tile = TileMut {
            planes: Three {
                y: lent_of(&mut y, 0, 16, 8),
                u: lent_of(&mut u, 1, 16, 8),
                v: lent_of(&mut v, 2, 16, 8),
            },
        };
        deblock_filter_frame(&rt, &state_of(levels), &mut tile, &blocks, 16, 8, 8, 3);
        let luma = plane_by(alloc, &luma, &[0; 8])?;
        let chroma = plane_by(alloc, &chroma, &[0; 8])?;
        assert_eq!(rt; y.samples.as_slice(), luma.samples.as_slice());
        assert_eq!(rt; u.samples.as_slice(), chroma.samples.as_slice());
        assert_eq!(rt; v.samples.as_slice(), chroma.samples.as_slice());
    }
    Ok(())
}

// A plane of one sample at 10 bits, with the rest of its block of 8 by 8, all of the same grey.
fn grey_plane(alloc: Global, dec: usize) -> Result<Plane<u16>, Fail>
    requires dec { dec ≤ 1 }
    ensures layout { IfOk result (λ made. made.cfg ≡ plane_layout (8 / 2 ^ dec) (8 / 2 ^ dec) dec dec 0 0) }
    ensures range { IfOk result (λ made. Below 1024 (map pos made.samples.items)) }
{
    let side = in_blocks(1, dec);
    let samples = vec![in alloc; 512u16; side * side]?;
    let cfg = PlaneConfig {
        stride: side,
        alloc_height: side,
        width: side,
        height: side,
        xdec: dec,
        ydec: dec,
        xpad: 0,
        ypad: 0,
        xorigin: 0,
        yorigin: 0,
    };
    Ok(Plane { samples, cfg })
}

// A plane of one sample, coded or as its source.
fn deep_region<'a>(plane: &'a Plane<u16>, pli: usize, dec: usize) -> PlaneRegion<'a, u16>
    requires dec { dec ≤ 1 }
    requires luma { pli ≡ 0 → dec ≡ 0 }
    requires layout { plane.now.cfg ≡ plane_layout (8 / 2 ^ dec) (8 / 2 ^ dec) dec dec 0 0 }
    requires range { Below 1024 (map pos plane.now.samples.items) }
    ensures { CanTally pos (frame_shape 1 1 10) pli result result }
{
    plane.as_region()
}

// A plane of one sample, for writing.
fn deep_lent<'a>(plane: &'a mut Plane<u16>, pli: usize, dec: usize) -> PlaneRegionMut<'a, u16>
    requires dec { dec ≤ 1 }
    requires luma { pli ≡ 0 → dec ≡ 0 }
    requires layout { plane.old.cfg ≡ plane_layout (8 / 2 ^ dec) (8 / 2 ^ dec) dec dec 0 0 }
    requires range { Below 1024 (map pos plane.old.samples.items) }
    ensures { CanDeblock pos (frame_shape 1 1 10) pli result }
{
    plane.as_region_mut()
}

// The chosen levels of a frame of one grey sample.
fn levels_of_grey(alloc: Global, blocks: &TileBlocks<'_>) -> Result<[u8; 4], Fail>
    requires blocks { CoversBlocks 1 1 blocks.now }
{
    let fi = frame_with(alloc, 1, 1, 10, ChromaSampling::Cs420)?;
    let luma = grey_plane(alloc, 0)?;
    let other = grey_plane(alloc, 1)?;
    let y = deep_region(&luma, 0, 0);
    let u = deep_region(&other, 1, 1);
    let v = deep_region(&other, 2, 1);
    let frame = Tile {
        planes: Three { y, u, v },
    };
    Ok(deblock_filter_optimize(&fi, &frame, &frame, blocks, 1, 1))
}

// Whether a plane of one grey sample stays grey at the highest level.
fn stays_grey(alloc: Global, blocks: &TileBlocks<'_>, pli: usize, dec: usize) -> Result<bool, Fail>
    requires blocks { CoversBlocks 1 1 blocks.now }
    requires dec { dec ≤ 1 }
    requires luma { pli ≡ 0 → dec ≡ 0 }
{
    let mut plane = grey_plane(alloc, dec)?;
    let mut region = deep_lent(&mut plane, pli, dec);
    deblock_plane(&state_of([63; 4]), &mut region, pli, blocks, 1, 1, 10);
    for sample in &plane.samples {
        if *sample != 512 {
            return Ok(false);
        }
    }
    Ok(true)
}

#[test]
fn grey_of_one_sample(rt: HostRuntime) -> Result<(), Fail> {
    let alloc = rt.alloc();
    let square = block_of(BlockSize::BLOCK_8X8, TxSize::TX_8X8, 2, 2);
    let table = blocks_of(alloc, 2, 2, square)?;
    let blocks = whole_view(&table, 1, 1);
    assert_eq!(rt; levels_of_grey(alloc, &blocks)?, [0; 4]);
    assert!(rt; stays_grey(alloc, &blocks, 0, 0)?, "luma");
    assert!(rt; stays_grey(alloc, &blocks, 1, 1)?, "chroma");
    Ok(())
}
