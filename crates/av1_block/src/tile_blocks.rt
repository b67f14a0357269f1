use crate::block::Block;
use crate::tile_view::TileView;
use av1_plane::{TileBlockOffset, TileSuperBlockOffset};
use std::ops::Index;

/// A rectangle of a table of blocks, for reading.
pub type TileBlocks<'a> = TileView<'a, Block>;

impl TileView<'_, Block> {
    ghost use Rattle.std.specs.Prelude.{◌≡◌, ◌-◌, ◌*◌, ◌<◌, ◌≤◌};
    ghost use Rattle.av1_block.specs.Tables.{view_at, view_cols, view_rows};

    /// The block above.
    pub fn above_of(&self, bo: TileBlockOffset) -> &Block
        requires above { 1 ≤ bo.0.y }
        requires row { bo.0.y - 1 < view_rows self.now }
        requires column { bo.0.x < view_cols self.now }
        ensures { result.now ≡ view_at self.now bo.0.x (bo.0.y - 1) }
    {
        self.block_at(bo.0.x, bo.0.y - 1)
    }

    /// The block to the left.
    pub fn left_of(&self, bo: TileBlockOffset) -> &Block
        requires left { 1 ≤ bo.0.x }
        requires row { bo.0.y < view_rows self.now }
        requires column { bo.0.x - 1 < view_cols self.now }
        ensures { result.now ≡ view_at self.now (bo.0.x - 1) bo.0.y }
    {
        self.block_at(bo.0.x - 1, bo.0.y)
    }

    /// The block above and to the left.
    pub fn above_left_of(&self, bo: TileBlockOffset) -> &Block
        requires above { 1 ≤ bo.0.y }
        requires left { 1 ≤ bo.0.x }
        requires row { bo.0.y - 1 < view_rows self.now }
        requires column { bo.0.x - 1 < view_cols self.now }
        ensures { result.now ≡ view_at self.now (bo.0.x - 1) (bo.0.y - 1) }
    {
        self.block_at(bo.0.x - 1, bo.0.y - 1)
    }

    /// The CDEF index of the superblock's first block.
    pub fn get_cdef(&self, sbo: TileSuperBlockOffset) -> u8
        requires column { 16 * sbo.0.x < view_cols self.now }
        requires row { 16 * sbo.0.y < view_rows self.now }
        ensures { result ≡ (view_at self.now (16 * sbo.0.x) (16 * sbo.0.y)).cdef_index }
    {
        self.block_at(16 * sbo.0.x, 16 * sbo.0.y).cdef_index
    }

    fn block_at(&self, x: usize, y: usize) -> &Block
        requires column { x < view_cols self.now }
        requires row { y < view_rows self.now }
        ensures { result.now ≡ view_at self.now x y }
    {
        &self.entries[y * self.step + x]
    }
}

impl Index<TileBlockOffset> for TileView<'_, Block> {
    type Output = Block;

    ghost use Rattle.std.specs.Prelude.{◌≡◌, ◌<◌};
    ghost use Rattle.av1_block.specs.Tables.{view_at, view_cols, view_rows};

    ghost can_index = { λ v bo. (bo.0.x < view_cols v) × (bo.0.y < view_rows v) };

    ghost index_gives = { λ v bo block. block ≡ view_at v bo.0.x bo.0.y };

    fn index(&self, bo: TileBlockOffset) -> &Block {
        self.block_at(bo.0.x, bo.0.y)
    }
}
