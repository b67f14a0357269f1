ghost use Rattle.std.specs.Prelude.{◌≡◌, IfOk};

use crate::{
    AsTileBlocks, Block, BlockSize, Cut, FrameBlocks, FrameMEStats, MEStats, MotionVector,
    PredictionMode, RefType, TileBlocks, TileBlocksMut, TileMEStats, TileMEStatsMut, TxSize, laws,
};
use av1_plane::{BlockOffset, SuperBlockOffset, TileBlockOffset, TileRect, TileSuperBlockOffset};
use std::test::Fail;

#[test]
fn cuts_columns_one_and_two(rt: HostRuntime) -> Result<(), Fail> {
    let mut table = vec![in rt.alloc(); 0u8, 1, 2, 3, 4, 5, 6, 7]?;
    let rect = TileRect {
        x: 1,
        y: 0,
        width: 2,
        height: 2,
    };
    assert_eq!(rt; table.len(), 8);
    let mut cut = Cut::take(rt.alloc(), &table, 4, rect)?;
    assert_eq!(rt; cut.entries(), [1, 2, 5, 6].as_slice());
    assert_eq!(rt; cut.rect().width, 2);
    let entries = cut.entries_mut();
    assert_eq!(rt; entries.len(), 4);
    entries[2] = 50;
    cut.put_back(table.as_mut_slice());
    assert_eq!(rt; table.as_slice(), [0, 1, 2, 3, 4, 50, 6, 7].as_slice());
    Ok(())
}

#[test]
fn tables_start_with_defaults(rt: HostRuntime) -> Result<(), Fail> {
    let blocks = FrameBlocks::new(rt.alloc(), 2, 2)?;
    assert_eq!(rt; blocks.entries().len(), 4);
    assert!(rt;
        blocks
            .entries()
            .iter()
            .all(|block| block.bsize == BlockSize::BLOCK_64X64)
    );
    let stats = FrameMEStats::new(rt.alloc(), 2, 2)?;
    assert_eq!(rt; stats.entries().len(), 4);
    let still = MotionVector::default();
    assert!(rt;
        stats
            .entries()
            .iter()
            .all(|stat| stat.mv == still && stat.normalized_sad == 0)
    );
    Ok(())
}

#[test]
fn writes_a_part_of_a_table(rt: HostRuntime) -> Result<(), Fail> {
    let mut blocks = FrameBlocks::new(rt.alloc(), 4, 2)?;
    let bo = TileBlockOffset(BlockOffset { x: 1, y: 0 });
    let mut view = TileBlocksMut::new(&mut blocks, 1, 0, 2, 2);
    view.set_skip(bo, BlockSize::BLOCK_8X8, true);
    assert!(rt; view[bo].skip);
    view.for_each(bo, BlockSize::BLOCK_4X4, |block| block.segmentation_idx = 3);
    view.set_block_size(bo, BlockSize::BLOCK_4X8);
    view.set_mode(bo, BlockSize::BLOCK_4X4, PredictionMode::PAETH_PRED);
    view.set_tx_size(bo, BlockSize::BLOCK_4X4, TxSize::TX_4X8);
    view.set_ref_frames(
        bo,
        BlockSize::BLOCK_4X4,
        [RefType::LAST_FRAME, RefType::NONE_FRAME],
    );
    view.set_motion_vectors(
        bo,
        BlockSize::BLOCK_4X4,
        [MotionVector { row: 1, col: -1 }; 2],
    );
    view.set_cdef(TileSuperBlockOffset(SuperBlockOffset { x: 0, y: 0 }), 5);
    assert_eq!(rt;
        view.get_cdef(TileSuperBlockOffset(SuperBlockOffset { x: 0, y: 0 })),
        5
    );
    assert_eq!(rt; (view[bo].n4_w, view[bo].n4_h), (1, 2));
    assert_eq!(rt; view[bo].mode, PredictionMode::PAETH_PRED);
    assert_eq!(rt; view[bo].txsize, TxSize::TX_4X8);
    assert_eq!(rt; view[bo].ref_frames[0], RefType::LAST_FRAME);
    assert_eq!(rt; view[bo].mv[1].col, -1);
    let seen = TileBlocks::new(&blocks, 2, 0, 1, 2);
    assert_eq!(rt; (seen.cols(), seen.frame_cols()), (1, 4));
    let skips = [false, false, true, false, false, false, true, false];
    let segments = [0, 0, 3, 0, 0, 0, 0, 0];
    for (block, (skip, segment)) in blocks
        .entries()
        .iter()
        .zip(skips.iter().zip(segments.iter()))
    {
        assert_eq!(rt; block.skip, *skip);
        assert_eq!(rt; block.segmentation_idx, *segment);
    }
    Ok(())
}

fn at(x: usize, y: usize) -> TileBlockOffset
    ensures { result.0 ≡ record { x = x; y = y } }
{
    TileBlockOffset(BlockOffset { x, y })
}

// Entry `i` of a table of 6 by 4 blocks is in segment `i`.
fn numbered(rt: &HostRuntime) -> Result<FrameBlocks, Fail>
    ensures cols { IfOk result (λ made. made.cols ≡ 6) }
    ensures rows { IfOk result (λ made. made.rows ≡ 4) }
{
    let mut blocks = FrameBlocks::new(rt.alloc(), 6, 4)?;
    let mut number = 0u8;
    for block in blocks.entries_mut().iter_mut() {
        block.segmentation_idx = number;
        number = number.wrapping_add(1);
    }
    Ok(blocks)
}

#[test]
fn reads_neighbours(rt: HostRuntime) -> Result<(), Fail> {
    let mut blocks = numbered(&rt)?;
    let view = TileBlocks::new(&blocks, 2, 1, 3, 2);
    assert_eq!(rt; view.above_of(at(1, 1)).segmentation_idx, 9);
    assert_eq!(rt; view.left_of(at(1, 1)).segmentation_idx, 14);
    assert_eq!(rt; view.above_left_of(at(1, 1)).segmentation_idx, 8);
    assert_eq!(rt; view[at(2, 1)].segmentation_idx, 16);
    assert_eq!(rt; view.row(1)[0].segmentation_idx, 14);
    let part = view.subregion(1, 0, 5, 5);
    assert_eq!(rt;
        (part.x(), part.y(), part.cols(), part.rows()),
        (3, 1, 2, 2)
    );
    assert_eq!(rt; part[at(0, 1)].segmentation_idx, 15);
    let mut view = TileBlocksMut::new(&mut blocks, 2, 1, 3, 2);
    assert_eq!(rt; view.above_left_of(at(1, 1)).segmentation_idx, 8);
    assert_eq!(rt; view.as_const()[at(2, 1)].segmentation_idx, 16);
    view[at(2, 1)].segmentation_idx = 99;
    view.row_mut(0)[1].segmentation_idx = 98;
    assert_eq!(rt; view.row(1)[2].segmentation_idx, 99);
    assert_eq!(rt; view.subregion(1, 0, 1, 1)[at(0, 0)].segmentation_idx, 98);
    Ok(())
}

#[test]
fn halves_chroma_sizes(rt: HostRuntime) {
    for (size, at_422, at_420) in [
        (
            BlockSize::BLOCK_4X4,
            Some(BlockSize::BLOCK_4X4),
            BlockSize::BLOCK_4X4,
        ),
        (BlockSize::BLOCK_8X16, None, BlockSize::BLOCK_4X8),
        (
            BlockSize::BLOCK_16X4,
            Some(BlockSize::BLOCK_8X4),
            BlockSize::BLOCK_8X4,
        ),
        (
            BlockSize::BLOCK_128X64,
            Some(BlockSize::BLOCK_64X64),
            BlockSize::BLOCK_64X32,
        ),
    ] {
        assert_eq!(rt; size.subsampled_size(0, 0), Some(size));
        assert_eq!(rt; size.subsampled_size(1, 0), at_422);
        assert_eq!(rt; size.subsampled_size(1, 1), Some(at_420));
    }
    assert_eq!(rt;
        BlockSize::BLOCK_128X128.largest_chroma_tx_size(0, 0),
        TxSize::TX_32X32
    );
    assert_eq!(rt;
        BlockSize::BLOCK_16X64.largest_chroma_tx_size(1, 1),
        TxSize::TX_8X32
    );
    assert_eq!(rt; RefType::ALTREF_FRAME.to_index(), 7);
}

fn is_shared<T: Send + Sync>(_value: &T) {}

#[test]
fn is_shared_by_threads(rt: HostRuntime) -> Result<(), Fail> {
    let mut stats = FrameMEStats::new(rt.alloc(), 3, 2)?;
    let rect = TileRect {
        x: 1,
        y: 0,
        width: 2,
        height: 2,
    };
    assert_eq!(rt; stats.entries().len(), 6);
    let cut: Cut<MEStats> = Cut::take(rt.alloc(), stats.entries(), 3, rect)?;
    is_shared(&cut);
    is_shared(&TileMEStats::from_cut(&cut, 3, 2));
    is_shared(&TileMEStatsMut::new(&mut stats, 0, 0, 3, 2));
    let mut blocks = FrameBlocks::new(rt.alloc(), 2, 2)?;
    is_shared(&blocks.as_tile_blocks());
    is_shared(&blocks.as_tile_blocks_mut());
    laws::put_of_cut_is_same::<Block>();
    laws::cut_of_put_is_put::<Block>();
    laws::puts_commute::<Block>();
    Ok(())
}
