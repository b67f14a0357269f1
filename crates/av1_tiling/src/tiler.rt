//! From a frame to the views of its tiles, and back.
ghost use Rattle.std.specs.Prelude.{◌≡◌, ◌<◌, ◌*◌, ◌^◌, IfOk, All, length};
ghost use Rattle.av1_block.specs.Tables.{table_entries};
ghost use Rattle.av1_tiling.specs.Frames.{views_below, IsTilingOf};

use crate::frame_state::FrameState;
use crate::tile_context::TileContextMut;
use crate::tile_context_iter::TileContextIterMut;
use crate::tiling_info::TilingInfo;
use av1_block::FrameBlocks;
use av1_plane::{OutOfMemory, Pixel};
use std::alloc::Global;

#[tactic(auto, using(crate::proofs::ViewLists::view_lists))]
/// The starting views of the first `count` tiles.
pub(crate) fn cut_tiles<T: Pixel>(
    alloc: Global,
    tiling: &TilingInfo,
    fs: &FrameState<T>,
    fb: &FrameBlocks,
    count: usize,
) -> Result<Vec<TileContextMut<T>>, OutOfMemory>
    requires made_for { IsTilingOf tiling.now fs.now fb.now.cols fb.now.rows }
    requires count { count ≡ tiling.now.cols * tiling.now.rows }
    ensures { IfOk result (λ made.
        made.items ≡ views_below tiling.now fs.now (table_entries fb.now) count) }
{
    let mut contexts = Vec::with_capacity(alloc, count)?;
    for n in 0..count {
        contexts.push(TileContextMut::cut(alloc, tiling, fs, fb, n)?)?;
    }
    Ok(contexts)
}

impl TilingInfo {
    ghost use Rattle.av1_tiling.specs.Frames.{views};
    ghost use Rattle.av1_tiling.specs.Tiles.{tiles_left};

    /// Cuts all tiles of a frame at once, row by row: each is the part of the state and of the
    /// blocks that it is coded from.
    pub fn tile_iter_mut<T: Pixel>(
        &self,
        alloc: Global,
        fs: &FrameState<T>,
        fb: &FrameBlocks,
    ) -> Result<TileContextIterMut<T>, OutOfMemory>
        requires { IsTilingOf self.now fs.now fb.now.cols fb.now.rows }
        ensures { IfOk result (λ tiles.
            tiles_left tiles ≡ views self.now fs.now (table_entries fb.now)) }
    {
        let contexts = cut_tiles(alloc, self, fs, fb, self.tile_count())?;
        Ok(TileContextIterMut::new(contexts))
    }
}
