ghost use Rattle.std.specs.Prelude.{◌≡◌, ◌≤◌, All};
ghost use Rattle.av1_plane.specs.Layout.{plane_layout};
ghost use Rattle.av1_deblock.specs.Levels.{HasReference};

use super::{
    SHORT, SMOOTH, STEP, block_of, blocks_of, frame_with, lent_of, pair_of, plane_by, state_of,
    whole_view,
};
use crate::{deblock_filter_optimize, deblock_plane, fast_level, tally_plane};
use av1_block::{Block, BlockSize, TxSize};
use av1_plane::{ChromaSampling, Plane, Three, Tile};
use std::alloc::Global;
use std::test::Fail;

#[test]
fn level_of_a_key_frame(rt: HostRuntime) {
    assert_eq!(rt; fast_level(100, 8, true), 5);
    assert_eq!(rt; fast_level(4, 8, true), 0);
    assert_eq!(rt; fast_level(4, 8, false), 3);
}

// The chosen levels of a frame of 16 by 8 without chroma, and its luma deblocked at `levels`.
fn levels_of_luma(
    alloc: Global,
    block: Block,
    coded: &mut Plane<u8>,
    source: &Plane<u8>,
    levels: [u8; 4],
) -> Result<[u8; 4], Fail>
    requires block { HasReference block }
    requires coded { coded.old.cfg ≡ plane_layout 16 8 0 0 0 0 }
    requires source { source.now.cfg ≡ plane_layout 16 8 0 0 0 0 }
    requires levels { All (λ level. level ≤ 63) levels }
{
    let table = blocks_of(alloc, 4, 2, block)?;
    let blocks = whole_view(&table, 16, 8);
    let fi = frame_with(alloc, 16, 8, 8, ChromaSampling::Cs400)?;
    let none = plane_by(alloc, &[], &[])?;
    let (y, y_source) = pair_of(coded, source, 0, 16, 8);
    let (u, u_source) = pair_of(&none, &none, 1, 0, 0);
    let (v, v_source) = pair_of(&none, &none, 2, 0, 0);
    let rec = Tile {
        planes: Three { y, u, v },
    };
    let input = Tile {
        planes: Three {
            y: y_source,
            u: u_source,
            v: v_source,
        },
    };
    let chosen = deblock_filter_optimize(&fi, &rec, &input, &blocks, 16, 8);
    let mut region = lent_of(coded, 0, 16, 8);
    deblock_plane(&state_of(levels), &mut region, 0, &blocks, 16, 8, 8);
    Ok(chosen)
}

#[test]
fn levels_of_least_error(rt: HostRuntime) -> Result<(), Fail> {
    let alloc = rt.alloc();
    let square = block_of(BlockSize::BLOCK_8X8, TxSize::TX_8X8, 2, 2);
    let low = block_of(BlockSize::BLOCK_16X8, TxSize::TX_16X4, 4, 2);
    let still = [0; 8];
    let falling = [100, 100, 100, 100, 104, 104, 104, 104];
    let smooth = [100, 100, 101, 101, 102, 103, 104, 104];
    for (block, across, down, wanted_across, wanted_down, levels) in [
        (square, STEP, still, SMOOTH, still, [2, 0, 0, 0]),
        (square, STEP, still, STEP, still, [0, 0, 0, 0]),
        (low, [0; 16], falling, [0; 16], smooth, [0, 2, 0, 0]),
    ] {
        let mut coded = plane_by(alloc, &across, &down)?;
        let source = plane_by(alloc, &wanted_across, &wanted_down)?;
        let chosen = levels_of_luma(alloc, block, &mut coded, &source, levels)?;
        assert_eq!(rt; chosen, levels);
        assert_eq!(rt; coded.samples.as_slice(), source.samples.as_slice());
    }
    Ok(())
}

#[test]
fn tallies_of_a_step(rt: HostRuntime) -> Result<(), Fail> {
    let alloc = rt.alloc();
    let square = block_of(BlockSize::BLOCK_8X8, TxSize::TX_8X8, 2, 2);
    let coded = plane_by(alloc, &STEP, &[0; 8])?;
    let source = plane_by(alloc, &SMOOTH, &[0; 8])?;
    let table = blocks_of(alloc, 4, 2, square)?;
    let blocks = whole_view(&table, 16, 8);
    let (rec, src) = pair_of(&coded, &source, 0, 16, 8);
    let (vertical, horizontal) = tally_plane(&rec, &src, 0, &blocks, 16, 8, 8);
    let mut wanted = [0; 65];
    wanted[0] = 64;
    wanted[2] = -64;
    assert_eq!(rt; vertical, wanted);
    assert_eq!(rt; horizontal, [0; 65]);
    Ok(())
}

#[test]
fn levels_of_chroma(rt: HostRuntime) -> Result<(), Fail> {
    let alloc = rt.alloc();
    let square = block_of(BlockSize::BLOCK_8X8, TxSize::TX_8X8, 2, 2);
    let coded = plane_by(alloc, &STEP, &[0; 8])?;
    let source = plane_by(alloc, &SHORT, &[0; 8])?;
    let table = blocks_of(alloc, 4, 2, square)?;
    let blocks = whole_view(&table, 16, 8);
    let fi = frame_with(alloc, 16, 8, 8, ChromaSampling::Cs444)?;
    let (y, y_source) = pair_of(&coded, &coded, 0, 16, 8);
    let (u, u_source) = pair_of(&coded, &source, 1, 16, 8);
    let (v, v_source) = pair_of(&coded, &source, 2, 16, 8);
    let rec = Tile {
        planes: Three { y, u, v },
    };
    let input = Tile {
        planes: Three {
            y: y_source,
            u: u_source,
            v: v_source,
        },
    };
    assert_eq!(rt;
        deblock_filter_optimize(&fi, &rec, &input, &blocks, 16, 8),
        [0, 0, 2, 2]
    );
    Ok(())
}
