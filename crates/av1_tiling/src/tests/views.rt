use super::{blank_state, last_tile, nine_tiles};
use av1_block::{Block, FrameBlocks, MotionVector, TileView};
use std::test::Fail;

// The entry in column `x` of row `y`, where the view has it.
fn entry_at<'a, E: Copy>(view: &'a TileView<'_, E>, x: usize, y: usize) -> Option<&'a E> {
    if view.rows() <= y {
        return None;
    }
    view.row(y).get(x)
}

#[test]
fn record_is_written_through_a_view(rt: HostRuntime) -> Result<(), Fail> {
    let mut tile = last_tile(rt.alloc())?;
    let written = MotionVector { row: 3, col: -7 };
    let mut view = tile.me_stats_mut(3);
    let Some(stats) = view.get_mut(5, 2) else {
        return Err(Fail::from("no such record"));
    };
    stats.mv = written;
    for table in 0..8usize {
        let view = tile.me_stats(table);
        assert_eq!(rt;
            (view.x(), view.y(), view.cols(), view.rows()),
            (32, 32, 8, 4)
        );
        let want = if table == 3 {
            written
        } else {
            MotionVector::default()
        };
        let mv = entry_at(&view, 5, 2).map(|stats| stats.mv);
        assert_eq!(rt; mv, Some(want), "in table {table}");
    }
    Ok(())
}

#[test]
fn block_is_written_through_a_view(rt: HostRuntime) -> Result<(), Fail> {
    let alloc = rt.alloc();
    let fi = nine_tiles(rt.alloc())?;
    let fs = blank_state(alloc, &fi)?;
    let blocks = FrameBlocks::new(alloc, 40, 36)?;
    let tiles = fi.sequence.tiling.tile_iter_mut(alloc, &fs, &blocks)?;
    for tile in tiles {
        let mut tile = tile;
        let blank = Block::default();
        let mut view = tile.tb_mut();
        let Some(block) = view.get_mut(7, 3) else {
            return Err(Fail::from("no such block"));
        };
        *block = Block { n4_w: 42, ..blank };
        let view = tile.tb();
        assert_eq!(rt; entry_at(&view, 7, 3).map(|block| block.n4_w), Some(42));
        assert_eq!(rt; entry_at(&view, 6, 3).map(|block| block.n4_w), Some(16));
    }
    Ok(())
}

#[test]
fn input_is_shown_where_the_tile_lies(rt: HostRuntime) -> Result<(), Fail> {
    let tile = last_tile(rt.alloc())?;
    let planes = tile.input_tile().planes;
    let luma = *planes.y.rect();
    let chroma = *planes.v.rect();
    assert_eq!(rt;
        (luma.x, luma.y, luma.width, luma.height),
        (128, 128, 64, 64)
    );
    assert_eq!(rt;
        (chroma.x, chroma.y, chroma.width, chroma.height),
        (64, 64, 32, 32)
    );
    Ok(())
}
